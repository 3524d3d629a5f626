//! Copying a value of which single leaves become other bytes.
ghost use Rattle.std.specs.Prelude.{◌≡◌, ◌+◌, ◌≤◌, ◌++◌, length, OnOk};
ghost use Rattle.jfr_value.specs.Nodes.{IsValue, node_of};
ghost use Rattle.jfr_rewrite.specs.Copying.{Copies};
ghost use Rattle.jfr_rewrite.specs.Rewrite.{changed_bytes};
ghost use Rattle.jfr_rewrite.specs.Writing.{changed_within};

use crate::rewriter::Rewriter;
use jfr_base::NoMemory;
use jfr_chunk::Chunk;
use jfr_value::{Leaf, Node, VisitLeaf, visit_leaves};

/// A chunk, and how it is rewritten.
#[derive(Drop)]
pub(crate) struct Changing<'r, 'c, R> {
    pub(crate) chunk: &'r Chunk<'c>,
    pub(crate) rewriting: &'r R,
}

/// Appends the chunk's bytes from `from` up to a value, the changed value, and the bytes after it up to `to`. Bytes
/// between leaves that change are copied in one piece.
pub(crate) fn put_changed<R: Rewriter>(
    out: &mut Vec<u8>,
    changing: &Changing<'_, '_, R>,
    node: Node<'_>,
    from: usize,
    to: usize,
) -> Result<(), NoMemory>
    requires suits { R.suits changing.now.rewriting.now changing.now.chunk.now }
    requires of_chunk { node.bytes.now ≡ changing.now.chunk.now.bytes }
    requires value { IsValue changing.now.chunk.now.classes node }
    requires start { from ≤ node.at }
    requires end { node.end ≤ to }
    requires within { to ≤ length changing.now.chunk.now.bytes }
    ensures ok { OnOk result (out.new.items ≡ out.old.items ++ changed_within (R.rewrite changing.now.rewriting.now).change changing.now.chunk.now (node_of node.entry) from to) }
{
    let chunk = changing.chunk;
    if changing.rewriting.is_unchanged(chunk, node) {
        out.extend_from_slice(&chunk.bytes()[from..to])?;
        return Ok(());
    }
    let mut copy = ValueCopy {
        out,
        copied: from,
        failed: false,
    };
    copy_value(&mut copy, changing, node);
    if copy.failed {
        return Err(NoMemory);
    }
    let waiting = &chunk.bytes()[copy.copied..to];
    copy.out.extend_from_slice(waiting)?;
    Ok(())
}

/// Appends what the value becomes, but the last bytes may still wait.
#[inline(always)]
fn copy_value<R: Rewriter>(copy: &mut ValueCopy<'_>, changing: &Changing<'_, '_, R>, node: Node<'_>)
    requires suits { R.suits changing.now.rewriting.now changing.now.chunk.now }
    requires of_chunk { node.bytes.now ≡ changing.now.chunk.now.bytes }
    requires value { IsValue changing.now.chunk.now.classes node }
    requires start { copy.old.copied ≤ node.at }
    ensures same_vector { copy.new.out.ghost_name ≡ copy.old.out.ghost_name }
    ensures range { copy.new.copied ≤ node.entry.end }
    ensures copies { Copies changing.now.chunk.now.bytes node.entry.at node.entry.end (changed_bytes (R.rewrite changing.now.rewriting.now).change changing.now.chunk.now.classes changing.now.chunk.now.bytes (node_of node.entry)) copy.old copy.new }
{
    let chunk = changing.chunk;
    chunk.parts_are_valid();
    visit_leaves(chunk.classes(), node, copy, changing);
}

/// What is written of a value so far. Once memory has run out, nothing more is written.
#[derive(Drop)]
struct ValueCopy<'o> {
    out: &'o mut Vec<u8>,
    /// The offset in the chunk up to which its bytes are written. Those from here on wait.
    copied: usize,
    failed: bool,
}

impl<R: Rewriter> VisitLeaf<Changing<'_, '_, R>> for ValueCopy<'_> {
    ghost use Rattle.std.specs.Prelude.{◌≤◌, ℕ};
    ghost use Rattle.jfr_value.specs.Leaves.{LeafAt};
    ghost use Rattle.jfr_value.specs.Visits.{IsNumber};
    ghost use Rattle.jfr_rewrite.specs.declared.copying.Changing.{Changing};
    ghost use Rattle.jfr_rewrite.specs.declared.copying.ValueCopy.{ValueCopy};
    ghost use Rattle.jfr_rewrite.specs.Copying.{CopiesLeaf, LiesIn};

    ghost admits = { λ changing leaf. LiesIn changing.chunk.now leaf };

    ghost ready = { λ copy changing at. (copy.copied ≤ at) × R.Rewriter.suits changing.rewriting.now changing.chunk.now };

    ghost takes = { λ changing leaf old new. CopiesLeaf (R.Rewriter.rewrite changing.rewriting.now).change changing.chunk.now leaf old new };

    fn passes_numbers()
        ensures same { (changing : Changing R) (leaf : LeafAt) (copy : ValueCopy) → IsNumber leaf → LiesIn changing.chunk.now leaf → (copy.copied ≤ leaf.at) × R.Rewriter.suits changing.rewriting.now changing.chunk.now → CopiesLeaf (R.Rewriter.rewrite changing.rewriting.now).change changing.chunk.now leaf copy copy }
        ensures ready { (changing : Changing R) (copy : ValueCopy) (at to : ℕ) → (copy.copied ≤ at) × R.Rewriter.suits changing.rewriting.now changing.chunk.now → at ≤ to → (copy.copied ≤ to) × R.Rewriter.suits changing.rewriting.now changing.chunk.now }
    {
        R::keeps_numbers();
    }

    #[inline(always)]
    fn visit_leaf(&mut self, changing: &Changing<'_, '_, R>, leaf: Leaf<'_>) {
        if let Some(new) = changing.rewriting.new_leaf(changing.chunk, &leaf) {
            self.put(changing, leaf.at, leaf.spelled.len(), new);
        }
    }
}

impl ValueCopy<'_> {
    /// Appends the bytes that wait before a leaf of `len` bytes at `at`, and what the leaf becomes.
    fn put<R: Rewriter>(
        &mut self,
        changing: &Changing<'_, '_, R>,
        at: usize,
        len: usize,
        new: R::NewLeaf,
    )
        requires can_put { R.can_put changing.now.rewriting.now new }
        requires start { self.old.copied ≤ at }
        requires within { at + len ≤ length changing.now.chunk.now.bytes }
        ensures same_vector { self.new.out.ghost_name ≡ self.old.out.ghost_name }
        ensures range { self.new.copied ≤ at + len }
        ensures copies { Copies changing.now.chunk.now.bytes at (at + len) (R.spells changing.now.rewriting.now new) self.old self.new }
    {
        if self.failed {
            return;
        }
        let waiting = &changing.chunk.bytes()[self.copied..at];
        match put_leaf(self.out, changing.rewriting, waiting, new) {
            Ok(()) => self.copied = at + len,
            Err(NoMemory) => self.failed = true,
        }
    }
}

/// Appends the bytes that wait before a leaf, and what the leaf becomes.
fn put_leaf<R: Rewriter>(
    out: &mut Vec<u8>,
    rewriting: &R,
    waiting: &[u8],
    new: R::NewLeaf,
) -> Result<(), NoMemory>
    requires can_put { R.can_put rewriting.now new }
    ensures ok { OnOk result (out.new.items ≡ (out.old.items ++ waiting.now) ++ R.spells rewriting.now new) }
{
    put_waiting(out, waiting)?;
    rewriting.put_new_leaf(out, new)
}

/// Appends the bytes that wait. Between two leaves that change there are often none, and then nothing is called.
#[inline(always)]
fn put_waiting(out: &mut Vec<u8>, waiting: &[u8]) -> Result<(), NoMemory>
    ensures ok { OnOk result (out.new.items ≡ out.old.items ++ waiting.now) }
{
    if waiting.is_empty() {
        return Ok(());
    }
    Ok(out.extend_from_slice(waiting)?)
}
