//! Masked strings, and their texts.
ghost use Rattle.std.specs.Prelude.{◌≡◌, ◌<◌, ℕ, length, true, None, Some, IfOk, IfSome, IsTrue};
ghost use Rattle.std.specs.Str.{chars};
ghost use Rattle.jfr_text.specs.Spans.{content_of};
ghost use Rattle.jfr_text.specs.Strings.{text_of};
ghost use Rattle.jfr_value.specs.Leaves.{KeyIsSpelled, leaf_of};
ghost use Rattle.jfr_value.specs.Nodes.{IsNode, node_of};
ghost use Rattle.jfr_value.specs.Values.{Value};
ghost use Rattle.jfr_chunk.specs.Parts.{Parts};
ghost use Rattle.jfr_rewrite.specs.Copying.{LiesIn};
ghost use Rattle.jfr_mask.specs.Masked.{is_string_leaf};
ghost use Rattle.jfr_mask.specs.MaskedLeaves.{is_masked_leaf, leaf_text};
ghost use Rattle.jfr_mask.specs.Maskers.{KnowsPlain, held_by};
ghost use Rattle.jfr_mask.specs.Noted.{entry_by};
ghost use Rattle.jfr_mask.specs.Plain.{HasNoMasked, IsPlain};

use crate::MaskedFields;
use crate::holders::is_held_masked;
use crate::plain::PlainClasses;
use jfr_base::{NoMemory, Text};
use jfr_chunk::Chunk;
use jfr_layout::{Kind, Shape};
use jfr_path::text_at;
use jfr_text::{StringSpan, is_key, payload_text, read_string, text_of};
use jfr_value::{Leaf, LeafKind, Node};
use std::alloc::Global;

/// The masked strings of a chunk.
#[derive(Clone, Copy)]
pub(crate) struct MaskedStrings<'m> {
    pub(crate) chunk: &'m Chunk<'m>,
    pub(crate) masked: &'m MaskedFields,
    /// The classes whose values have no masked string.
    pub(crate) plain: &'m PlainClasses,
}

impl MaskedStrings<'_> {
    /// Whether the node is of a plain class, so its value has no masked string.
    pub(crate) fn are_none_in(&self, node: Node<'_>) -> bool
        requires { KnowsPlain self.now }
        ensures { IsTrue result → (v : Value) → IsNode self.now.chunk.now.classes self.now.chunk.now.bytes (node_of node.entry) v → HasNoMasked (held_by self.now) None v }
    {
        self.plain.has_id(self.chunk.classes(), node.shape.class)
    }

    /// Whether all classes are plain, so the chunk has no masked string.
    pub(crate) fn are_none(&self) -> bool
        ensures { IsTrue result → (index : ℕ) → index < length self.now.chunk.now.classes → IsPlain self.now.plain.now.flags.items index }
    {
        self.plain.are_all(self.chunk.classes())
    }

    /// Whether the leaf is a masked string.
    #[inline(always)]
    pub(crate) fn has(&self, leaf: &Leaf<'_>) -> bool
        ensures { result ≡ is_masked_leaf (held_by self.now) (leaf_of leaf.now) }
    {
        match leaf.kind {
            LeafKind::Base(Kind::Text) => is_held_masked(
                self.masked,
                self.chunk.classes(),
                leaf.holder,
            ),
            _ => false,
        }
    }

    /// The number of the entry to which a leaf refers, if it refers to one.
    pub(crate) fn entry_of(&self, leaf: &Leaf<'_>) -> Option<usize>
        requires { KeyIsSpelled (leaf_of leaf.now) }
        ensures { result ≡ entry_by self.now.chunk.now (leaf_of leaf.now) }
    {
        let key = leaf.key()?;
        self.chunk.pools().entry(leaf.class, key)
    }
}

/// The text of a leaf that is a string: its own, or that of the constant to which its key leads.
///
/// It takes time in proportion to the text, which is copied if it has more than 14 bytes.
pub(crate) fn leaf_text(
    alloc: Global,
    chunk: &Chunk<'_>,
    leaf: &Leaf<'_>,
) -> Result<Option<Text>, NoMemory>
    requires string { is_string_leaf leaf.now.kind ≡ true }
    requires lies { LiesIn chunk.now (leaf_of leaf.now) }
    ensures ok { IfOk result (λ text. text ≡ leaf_text chunk.now (leaf_of leaf.now)) }
{
    match own_string(leaf) {
        Some(string) => text_of(alloc, &string),
        None => followed_text(alloc, chunk, leaf),
    }
}

/// The text of a leaf that is a string, if its payload is the text. It copies nothing.
pub(crate) fn payload_of<'a>(leaf: &Leaf<'a>) -> Option<&'a str>
    requires { is_string_leaf leaf.now.kind ≡ true }
    ensures { IfSome result (λ text. (p : Parts) → leaf_text p (leaf_of leaf.now) ≡ Some (chars text.now)) }
{
    let string = own_string(leaf)?;
    payload_text(&string)
}

/// The string of a leaf that is one, unless it is a key. Its text is that of the leaf, and no constant is looked up.
fn own_string<'a>(leaf: &Leaf<'a>) -> Option<StringSpan<'a>>
    requires { is_string_leaf leaf.now.kind ≡ true }
    ensures { IfSome result (λ string. (p : Parts) → leaf_text p (leaf_of leaf.now) ≡ text_of (content_of string)) }
{
    let end = leaf.spelled.len();
    if is_key(leaf.spelled, 0, end) {
        return None;
    }
    read_string(leaf.spelled, 0, end).ok()
}

/// As `leaf_text`. Keys are followed.
fn followed_text(
    alloc: Global,
    chunk: &Chunk<'_>,
    leaf: &Leaf<'_>,
) -> Result<Option<Text>, NoMemory>
    requires string { is_string_leaf leaf.now.kind ≡ true }
    requires lies { LiesIn chunk.now (leaf_of leaf.now) }
    ensures ok { IfOk result (λ text. text ≡ leaf_text chunk.now (leaf_of leaf.now)) }
{
    chunk.parts_are_valid();
    let node = Node {
        shape: Shape::inline(leaf.class),
        bytes: chunk.bytes(),
        at: leaf.at,
        end: leaf.at + leaf.spelled.len(),
    };
    text_at(alloc, chunk, &node)
}
