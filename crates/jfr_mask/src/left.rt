//! The entries of a masked chunk, and the masked strings of its events.
ghost use Rattle.std.specs.Prelude.{◌≡◌, ◌++◌, false, length, option_to_list, replicate, IfOk, OnOk};
ghost use Rattle.std.specs.List.{flat_map};
ghost use Rattle.jfr_layout.specs.Classes.{Sound};
ghost use Rattle.jfr_worklist.specs.Putting.{Puts};
ghost use Rattle.jfr_chunk.specs.Parts.{events_of};
ghost use Rattle.jfr_chunk.specs.Reach.{kept_by, marked};
ghost use Rattle.jfr_mask.specs.EventStrings.{AreListed, strings_in};
ghost use Rattle.jfr_mask.specs.Masked.{is_held_masked, is_masked_string};
ghost use Rattle.jfr_mask.specs.Plain.{ArePlain};
ghost use Rattle.jfr_mask.specs.ReachBut.{marks_but, next_but, remain_but, roots_but};
ghost use Rattle.jfr_mask.specs.Reaching.{marked_get};
ghost use Rattle.jfr_mask.specs.Visitors.{IsNothing, Lists};

use crate::MaskedFields;
use crate::event_strings::EventStrings;
use crate::fields::flag_at;
use crate::plain::PlainClasses;
use crate::references::{Reaching, put_event, put_value};
use jfr_base::NoMemory;
use jfr_chunk::{Chunk, Kept};
use jfr_pool::{EntryAt, Pools};
use jfr_worklist::Worklist;
use std::alloc::Global;

/// What is left when a chunk is masked.
#[derive(Drop)]
pub(crate) struct Left {
    /// The entries, in the order of the file: those that the kept events reach by paths that go no further at masked
    /// strings.
    pub(crate) entries: Vec<EntryAt>,
    /// The masked strings of the kept events.
    pub(crate) events: EventStrings,
}

/// What is left when a chunk is masked. References may form cycles; each entry is visited once.
pub(crate) fn left_of(
    alloc: Global,
    chunk: &Chunk<'_>,
    kept: &Kept,
    masked: &MaskedFields,
    plain: &PlainClasses,
) -> Result<Left, NoMemory>
    requires size { length kept.now ≡ length (events_of chunk.now) }
    requires plain { ArePlain masked.now chunk.now.classes plain.now.flags.items }
    ensures entries { IfOk result (λ left. left.entries.items ≡ remain_but (is_masked_string (is_held_masked masked.now chunk.now.classes)) chunk.now (kept_by chunk.now kept.now)) }
    ensures events { IfOk result (λ left. AreListed (is_held_masked masked.now chunk.now.classes) chunk.now kept.now left.events.strings.items left.events.ends.items) }
{
    let mut reaching = Reaching {
        list: Worklist::new(alloc, chunk.pools().len())?,
        events: EventStrings::new(alloc),
        failed: false,
    };
    put_reached(&mut reaching, chunk, kept, masked, plain);
    if reaching.failed {
        return Err(NoMemory);
    }
    let entries = marked_entries(alloc, &reaching.list, chunk.pools())?;
    Ok(Left {
        entries,
        events: reaching.events,
    })
}

/// Marks the entries that the kept events reach: first those to which the events refer; then, for each marked entry in
/// the order of marking, those to which it refers. Lists the masked strings of the events.
fn put_reached(
    reaching: &mut Reaching,
    chunk: &Chunk<'_>,
    kept: &Kept,
    masked: &MaskedFields,
    plain: &PlainClasses,
)
    requires plain { ArePlain masked.now chunk.now.classes plain.now.flags.items }
    requires size { length kept.now ≡ length (events_of chunk.now) }
    requires fresh { reaching.old.list.flags.items ≡ replicate (length chunk.now.entries) false }
    requires nothing { IsNothing reaching.old }
    ensures marks { reaching.new.list.flags.items ≡ marks_but (is_masked_string (is_held_masked masked.now chunk.now.classes)) chunk.now (kept_by chunk.now kept.now) }
    ensures listed { reaching.new.failed ≡ false → AreListed (is_held_masked masked.now chunk.now.classes) chunk.now kept.now reaching.new.events.strings.items reaching.new.events.ends.items }
{
    chunk.parts_are_valid();
    put_events(reaching, chunk, kept, masked, plain);
    let mut next: usize = 0;
    while next < reaching.list.order.len() {
        let number = reaching.list.order[next];
        put_entry(&mut reaching.list, chunk, masked, plain, number);
        next += 1;
    }
}

/// Marks the entries in force to which the kept events refer, one event after another. Lists their masked strings.
fn put_events(
    reaching: &mut Reaching,
    chunk: &Chunk<'_>,
    kept: &Kept,
    masked: &MaskedFields,
    plain: &PlainClasses,
)
    requires sound { Sound chunk.now.classes }
    requires plain { ArePlain masked.now chunk.now.classes plain.now.flags.items }
    requires size { length reaching.old.list.flags.items ≡ length chunk.now.entries }
    requires nothing { IsNothing reaching.old }
    ensures puts { Puts (roots_but (is_masked_string (is_held_masked masked.now chunk.now.classes)) chunk.now (kept_by chunk.now kept.now)) reaching.old.list reaching.new.list }
    ensures listed { reaching.new.failed ≡ false → AreListed (is_held_masked masked.now chunk.now.classes) chunk.now kept.now reaching.new.events.strings.items reaching.new.events.ends.items }
{
    for number in 0..kept.len() {
        put_if_kept(reaching, chunk, kept, masked, plain, number);
        reaching.end_event();
    }
}

/// Marks the entries in force to which the event with this number refers, and lists its masked strings, if it is kept.
fn put_if_kept(
    reaching: &mut Reaching,
    chunk: &Chunk<'_>,
    kept: &Kept,
    masked: &MaskedFields,
    plain: &PlainClasses,
    number: usize,
)
    requires sound { Sound chunk.now.classes }
    requires plain { ArePlain masked.now chunk.now.classes plain.now.flags.items }
    requires size { length reaching.old.list.flags.items ≡ length chunk.now.entries }
    ensures puts { Puts (roots_but (is_masked_string (is_held_masked masked.now chunk.now.classes)) chunk.now (option_to_list (marked_get kept.now (events_of chunk.now) number))) reaching.old.list reaching.new.list }
    ensures lists { Lists (flat_map (λ e. strings_in (is_held_masked masked.now chunk.now.classes) chunk.now e.node) (option_to_list (marked_get kept.now (events_of chunk.now) number))) reaching.old reaching.new }
{
    if kept.is_kept(number) {
        put_event(reaching, chunk, masked, plain, number);
    }
}

/// Marks the entries in force to which the entry with this number refers.
fn put_entry(
    list: &mut Worklist,
    chunk: &Chunk<'_>,
    masked: &MaskedFields,
    plain: &PlainClasses,
    number: usize,
)
    requires sound { Sound chunk.now.classes }
    requires plain { ArePlain masked.now chunk.now.classes plain.now.flags.items }
    requires size { length list.old.flags.items ≡ length chunk.now.entries }
    ensures { Puts (next_but (is_masked_string (is_held_masked masked.now chunk.now.classes)) chunk.now number) list.old list.new }
{
    if let Some(node) = chunk.entry_node(number) {
        put_value(list, chunk, masked, plain, node);
    }
}

/// The marked entries, in the order of the file.
fn marked_entries(alloc: Global, list: &Worklist, pools: &Pools) -> Result<Vec<EntryAt>, NoMemory>
    requires { length list.now.flags.items ≡ length pools.now }
    ensures ok { IfOk result (λ entries. entries.items ≡ marked list.now.flags.items pools.now) }
{
    let mut entries = Vec::with_capacity(alloc, list.order.len())?;
    for number in 0..pools.len() {
        push_if_marked(&mut entries, list, pools, number)?;
    }
    Ok(entries)
}

/// Appends the entry with this number, if it is marked.
fn push_if_marked(
    entries: &mut Vec<EntryAt>,
    list: &Worklist,
    pools: &Pools,
    number: usize,
) -> Result<(), NoMemory>
    ensures ok { OnOk result (entries.new.items ≡ entries.old.items ++ option_to_list (marked_get list.now.flags.items pools.now number)) }
{
    if !flag_at(&list.flags, number) {
        return Ok(());
    }
    if let Some(entry) = pools.get(number) {
        entries.push(*entry)?;
    }
    Ok(())
}
