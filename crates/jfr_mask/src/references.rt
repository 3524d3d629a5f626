//! Marking what values refer to, except for their masked strings, and finding these strings in events.
ghost use Rattle.std.specs.Prelude.{◌≡◌, ◌<◌, ◌∷◌, [], All, length, option_to_list, slice_get};
ghost use Rattle.std.specs.List.{flat_map};
ghost use Rattle.jfr_layout.specs.Classes.{Sound};
ghost use Rattle.jfr_value.specs.Leaves.{leaf_of};
ghost use Rattle.jfr_value.specs.Nodes.{IsValue, node_of, targets};
ghost use Rattle.jfr_worklist.specs.Marks.{those};
ghost use Rattle.jfr_worklist.specs.Putting.{Puts};
ghost use Rattle.jfr_pool.specs.Entries.{number_in_force};
ghost use Rattle.jfr_chunk.specs.Parts.{events_of};
ghost use Rattle.jfr_mask.specs.Masked.{is_held_masked, is_masked_string};
ghost use Rattle.jfr_mask.specs.Plain.{ArePlain};
ghost use Rattle.jfr_mask.specs.ReachBut.{node_targets_but, roots_but};
ghost use Rattle.jfr_mask.specs.EventStrings.{long_at, string_at, strings_in};
ghost use Rattle.jfr_mask.specs.Maskers.{held_by};
ghost use Rattle.jfr_mask.specs.Visitors.{EndsEvent, Lists};

use crate::MaskedFields;
use crate::event_strings::{EventStrings, StringAt};
use crate::plain::PlainClasses;
use crate::texts::MaskedStrings;
use jfr_chunk::Chunk;
use jfr_value::{Leaf, Node, Visit, VisitLeaf, visit_leaves, visit_targets};
use jfr_worklist::Worklist;

/// Marks the entries in force to which a value refers, except by its masked strings. It allocates nothing.
pub(crate) fn put_value(
    list: &mut Worklist,
    chunk: &Chunk<'_>,
    masked: &MaskedFields,
    plain: &PlainClasses,
    node: Node<'_>,
)
    requires sound { Sound chunk.now.classes }
    requires plain { ArePlain masked.now chunk.now.classes plain.now.flags.items }
    requires bytes { node.bytes.now ≡ chunk.now.bytes }
    requires value { IsValue chunk.now.classes node }
    requires size { length list.old.flags.items ≡ length chunk.now.entries }
    ensures { Puts (those (number_in_force chunk.now.entries) (node_targets_but (is_masked_string (is_held_masked masked.now chunk.now.classes)) chunk.now (node_of node.entry))) list.old list.new }
{
    if plain.has_id(chunk.classes(), node.shape.class) {
        visit_targets(chunk.classes(), node, list, chunk.pools());
        return;
    }
    let strings = MaskedStrings {
        chunk,
        masked,
        plain,
    };
    put_leaves(list, strings, node);
}

/// As `put_value`, for the fields of the event with this number. Its masked strings are listed.
pub(crate) fn put_event(
    reaching: &mut Reaching,
    chunk: &Chunk<'_>,
    masked: &MaskedFields,
    plain: &PlainClasses,
    number: usize,
)
    requires sound { Sound chunk.now.classes }
    requires plain { ArePlain masked.now chunk.now.classes plain.now.flags.items }
    requires size { length reaching.old.list.flags.items ≡ length chunk.now.entries }
    ensures puts { Puts (roots_but (is_masked_string (is_held_masked masked.now chunk.now.classes)) chunk.now (option_to_list (slice_get (events_of chunk.now) number))) reaching.old.list reaching.new.list }
    ensures lists { Lists (flat_map (λ e. strings_in (is_held_masked masked.now chunk.now.classes) chunk.now e.node) (option_to_list (slice_get (events_of chunk.now) number))) reaching.old reaching.new }
{
    let Some(event) = chunk.event(number) else {
        return;
    };
    if plain.has_id(chunk.classes(), event.node.shape.class) {
        put_plain(&mut reaching.list, chunk, number);
        return;
    }
    let strings = MaskedStrings {
        chunk,
        masked,
        plain,
    };
    put_event_leaves(reaching, strings, event.node);
}

/// Marks the entries in force to which the fields of the event with this number refer, masked or not. The chunk has noted
/// them.
fn put_plain(list: &mut Worklist, chunk: &Chunk<'_>, number: usize)
    requires size { length list.old.flags.items ≡ length chunk.now.entries }
    ensures { Puts (those (number_in_force chunk.now.entries) (flat_map (λ e. targets chunk.now.classes chunk.now.bytes e.node) (option_to_list (slice_get (events_of chunk.now) number)))) list.old list.new }
{
    if let Some(entries) = chunk.event_entries(number) {
        put_each(list, entries);
    }
}

/// Marks the entries with these numbers.
fn put_each(list: &mut Worklist, numbers: &[u32])
    requires { All (λ number. number < length list.old.flags.items) numbers.now }
    ensures { Puts numbers.now list.old list.new }
{
    for number in numbers {
        list.put(*number as usize);
    }
}

/// As `put_value`, by the leaves of the value.
fn put_leaves(list: &mut Worklist, strings: MaskedStrings<'_>, node: Node<'_>)
    requires bytes { node.bytes.now ≡ strings.chunk.now.bytes }
    requires value { IsValue strings.chunk.now.classes node }
    requires size { length list.old.flags.items ≡ length strings.chunk.now.entries }
    ensures { Puts (those (number_in_force strings.entry.chunk.now.entries) (node_targets_but (is_masked_string (held_by strings.entry)) strings.entry.chunk.now (node_of node.entry))) list.old list.new }
{
    strings.chunk.parts_are_valid();
    visit_leaves(strings.chunk.classes(), node, list, &strings);
}

/// As `put_leaves`, for an event. Its masked strings are listed.
fn put_event_leaves(reaching: &mut Reaching, strings: MaskedStrings<'_>, node: Node<'_>)
    requires bytes { node.bytes.now ≡ strings.chunk.now.bytes }
    requires value { IsValue strings.chunk.now.classes node }
    requires size { length reaching.old.list.flags.items ≡ length strings.chunk.now.entries }
    ensures puts { Puts (those (number_in_force strings.entry.chunk.now.entries) (node_targets_but (is_masked_string (held_by strings.entry)) strings.entry.chunk.now (node_of node.entry))) reaching.old.list reaching.new.list }
    ensures lists { Lists (strings_in (held_by strings.entry) strings.entry.chunk.now (node_of node.entry)) reaching.old reaching.new }
{
    strings.chunk.parts_are_valid();
    visit_leaves(strings.chunk.classes(), node, reaching, &strings);
}

/// The entries that are marked so far, and the masked strings of the events so far. Once memory has run out, some
/// strings are missing.
#[derive(Drop)]
pub(crate) struct Reaching {
    pub(crate) list: Worklist,
    pub(crate) events: EventStrings,
    pub(crate) failed: bool,
}

impl Reaching {
    /// Lists a masked string. One of a single byte stays as it is, so it isn't listed.
    fn list_string(&mut self, leaf: &Leaf<'_>)
        ensures list { self.new.list ≡ self.old.list }
        ensures lists { Lists (option_to_list (long_at (leaf_of leaf.now))) self.old self.new }
    {
        if leaf.spelled.len() > 1 {
            self.list_long(leaf);
        }
    }

    /// As `list_string`, of any length.
    fn list_long(&mut self, leaf: &Leaf<'_>)
        ensures list { self.new.list ≡ self.old.list }
        ensures lists { Lists (string_at (leaf_of leaf.now) ∷ []) self.old self.new }
    {
        let Some(string) = StringAt::of(leaf) else {
            self.failed = true;
            return;
        };
        if self.events.strings.push(string).is_err() {
            self.failed = true;
        }
    }

    /// Ends the strings of an event.
    pub(crate) fn end_event(&mut self)
        ensures list { self.new.list ≡ self.old.list }
        ensures ends { EndsEvent self.old self.new }
    {
        let end = self.events.strings.len();
        if self.events.ends.push(end).is_err() {
            self.failed = true;
        }
    }
}

impl VisitLeaf<MaskedStrings<'_>> for Reaching {
    ghost use Rattle.std.specs.Prelude.{◌≡◌, ◌≤◌, ℕ, ◌∷◌, [], length, option_to_list};
    ghost use Rattle.jfr_value.specs.Leaves.{KeyIsSpelled, LeafAt};
    ghost use Rattle.jfr_value.specs.Visits.{IsNumber};
    ghost use Rattle.jfr_mask.specs.declared.references.Reaching.{Reaching};
    ghost use Rattle.jfr_mask.specs.declared.texts.MaskedStrings.{MaskedStrings};
    ghost use Rattle.jfr_mask.specs.Visitors.{ReachesLeaf};

    ghost admits = { λ strings leaf. KeyIsSpelled leaf };

    ghost ready = { λ reaching strings at. length reaching.list.flags.items ≡ length strings.chunk.now.entries };

    ghost takes = { λ strings leaf old new. ReachesLeaf strings leaf old new };

    fn passes_numbers()
        ensures same { (strings : MaskedStrings) (leaf : LeafAt) (reaching : Reaching) → IsNumber leaf → KeyIsSpelled leaf → length reaching.list.flags.items ≡ length strings.chunk.now.entries → ReachesLeaf strings leaf reaching reaching }
        ensures ready { (strings : MaskedStrings) (reaching : Reaching) (at to : ℕ) → length reaching.list.flags.items ≡ length strings.chunk.now.entries → at ≤ to → length reaching.list.flags.items ≡ length strings.chunk.now.entries }
    {}

    /// Lists a masked string. Of any other leaf, marks the entry in force to which it refers, if it does.
    #[inline(always)]
    fn visit_leaf(&mut self, strings: &MaskedStrings<'_>, leaf: Leaf<'_>) {
        if strings.has(&leaf) {
            self.list_string(&leaf);
            return;
        }
        if let Some(key) = leaf.key() {
            self.list.visit(strings.chunk.pools(), leaf.class, key);
        }
    }
}

impl VisitLeaf<MaskedStrings<'_>> for Worklist {
    ghost use Rattle.std.specs.Prelude.{◌≡◌, ◌≤◌, ℕ, ◌∷◌, [], length, option_to_list};
    ghost use Rattle.jfr_value.specs.Leaves.{KeyIsSpelled, LeafAt};
    ghost use Rattle.jfr_value.specs.Visits.{IsNumber, TakesAll};
    ghost use Rattle.jfr_worklist.specs.declared.worklist.Worklist.{Worklist};
    ghost use Rattle.jfr_mask.specs.declared.texts.MaskedStrings.{MaskedStrings};
    ghost use Rattle.jfr_pool.specs.Entries.{number_in_force};
    ghost use Rattle.jfr_worklist.specs.Marks.{those};
    ghost use Rattle.jfr_worklist.specs.Putting.{Puts};
    ghost use Rattle.jfr_mask.specs.Maskers.{held_by};
    ghost use Rattle.jfr_mask.specs.Reaching.{target_left};

    ghost admits = { λ strings leaf. KeyIsSpelled leaf };

    ghost ready = { λ list strings at. length list.flags.items ≡ length strings.chunk.now.entries };

    ghost takes = { λ strings leaf old new. TakesAll (λ t a b. Puts (those (number_in_force strings.chunk.now.entries) (t ∷ [])) a b) (option_to_list (target_left (held_by strings) leaf)) old new };

    fn passes_numbers()
        ensures same { (strings : MaskedStrings) (leaf : LeafAt) (list : Worklist) → IsNumber leaf → KeyIsSpelled leaf → length list.flags.items ≡ length strings.chunk.now.entries → TakesAll (λ t a b. Puts (those (number_in_force strings.chunk.now.entries) (t ∷ [])) a b) (option_to_list (target_left (held_by strings) leaf)) list list }
        ensures ready { (strings : MaskedStrings) (list : Worklist) (at to : ℕ) → length list.flags.items ≡ length strings.chunk.now.entries → at ≤ to → length list.flags.items ≡ length strings.chunk.now.entries }
    {}

    /// Marks the entry in force to which a leaf refers, if it does and isn't a masked string.
    #[inline(always)]
    fn visit_leaf(&mut self, strings: &MaskedStrings<'_>, leaf: Leaf<'_>) {
        if strings.has(&leaf) {
            return;
        }
        if let Some(key) = leaf.key() {
            self.visit(strings.chunk.pools(), leaf.class, key);
        }
    }
}
