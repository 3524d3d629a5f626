//! How chunks are rewritten, as a trait.
ghost use Rattle.std.specs.Prelude.{◌≡◌, ℕ, ◌≤◌, ◌-◌, List, ◌++◌, None, Some, Ok, length, slice_get, slice_range, true, false, IfSome, IsTrue, OnOk};
ghost use Rattle.jfr_frame.specs.Records.{record_end};
ghost use Rattle.jfr_chunk.specs.Indexed.{event_at};
ghost use Rattle.jfr_chunk.specs.Parts.{Parts, events_of};
ghost use Rattle.jfr_value.specs.Nodes.{IsValue, node_of};
ghost use Rattle.jfr_value.specs.Leaves.{LeafAt, leaf_of};
ghost use Rattle.jfr_value.specs.Visits.{IsNumber};
ghost use Rattle.jfr_rewrite.specs.Copying.{LiesIn, leaf_becomes};
ghost use Rattle.jfr_rewrite.specs.Rewrite.{Rewrite, changed_bytes};
ghost use Rattle.jfr_rewrite.specs.Writing.{changed_within};

use jfr_base::NoMemory;
use jfr_chunk::{Chunk, Event};
use jfr_frame::Framed;
use jfr_value::{Leaf, Node};

/// How a chunk is rewritten: what becomes of values, which keys entries get, and how wide sizes are.
pub trait Rewriter {
    /// What a leaf becomes, before it is written.
    type NewLeaf: Copy;

    /// The change, the keys and the widths. `write_chunk` adds the metadata record.
    ghost rewrite: { Self → Rewrite };

    /// The chunks that are rewritten so.
    ghost suits: { Self → Parts → Type 0 };

    /// The new leaves that can be written.
    ghost can_put: { Self → Self.NewLeaf → Type 0 };

    /// The bytes of a new leaf.
    ghost spells: { Self → Self.NewLeaf → List ℕ };

    /// Whether all of a node's value stays the same. Then its leaves aren't visited.
    fn is_unchanged(&self, chunk: &Chunk<'_>, node: Node<'_>) -> bool
        requires suits { suits self.now chunk.now }
        requires of_chunk { node.bytes.now ≡ chunk.now.bytes }
        requires value { IsValue chunk.now.classes node }
        ensures { IsTrue result → changed_bytes (rewrite self.now).change chunk.now.classes chunk.now.bytes (node_of node.entry) ≡ slice_range chunk.now.bytes node.entry.at node.entry.end };

    /// Appends the record of an event with its changed fields, but with its old size, if it is known where they change.
    /// Answers whether it did. If not, nothing was appended, and the leaves of the fields are visited.
    fn put_event(
        &self,
        out: &mut Vec<u8>,
        chunk: &Chunk<'_>,
        event: Event<'_>,
    ) -> Result<bool, NoMemory>
        requires suits { suits self.now chunk.now }
        requires listed { slice_get (events_of chunk.now) event.number ≡ Some (event_at event) }
        ensures put { result ≡ Ok true → out.new.items ≡ out.old.items ++ changed_within (rewrite self.now).change chunk.now (event_at event.entry).node event.entry.frame.at (record_end event.entry.frame) }
        ensures none { result ≡ Ok false → out.new.items ≡ out.old.items };

    /// Numbers and truth values stay the same, so `new_leaf` isn't asked about them.
    fn keeps_numbers()
        ensures { (rewriter : Self) (leaf : LeafAt) → IsNumber leaf → leaf_becomes (rewrite rewriter).change leaf ≡ leaf.spelled };

    /// What a leaf becomes, if it may become other bytes. If it is `None`, the leaf stays the same.
    fn new_leaf(&self, chunk: &Chunk<'_>, leaf: &Leaf<'_>) -> Option<Self::NewLeaf>
        requires suits { suits self.now chunk.now }
        requires lies { LiesIn chunk.now (leaf_of leaf.now) }
        ensures same { result ≡ None → leaf_becomes (rewrite self.now).change (leaf_of leaf.now) ≡ leaf.now.spelled.now }
        ensures can_put { IfSome result (λ new. can_put self.now new) }
        ensures becomes { IfSome result (λ new. spells self.now new ≡ leaf_becomes (rewrite self.now).change (leaf_of leaf.now)) };

    /// Appends what a leaf becomes.
    fn put_new_leaf(&self, out: &mut Vec<u8>, new: Self::NewLeaf) -> Result<(), NoMemory>
        requires can_put { can_put self.now new }
        ensures ok { OnOk result (out.new.items ≡ out.old.items ++ spells self.now new) };

    /// The key of an entry that had this class and this key.
    fn entry_key(&self, class: u64, key: u64) -> u64
        ensures { result ≡ (rewrite self.now).key (class, key) };

    /// In how many bytes the size of a record is spelled, given the record as it was and the number of bytes after
    /// the size.
    fn width(&self, frame: Framed, rest: usize) -> usize
        requires { (1 ≤ frame.type_at - frame.at) × (frame.type_at - frame.at ≤ 9) }
        ensures exact { result ≡ (rewrite self.now).width frame rest }
        ensures range { (1 ≤ result) × (result ≤ 9) };
}
