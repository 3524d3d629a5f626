//! Laws of values and of nodes that no other contract states. The functions do nothing; their contracts are
//! the laws.
ghost use Rattle.std.specs.Prelude.{◌≡◌, ◌↔◌, ℕ, ◌-◌, ◌≤◌, false, true, List, ◌++◌, flat_map, length, map, slice_get, Option, Some, IsSome, option_to_list};
ghost use Rattle.jfr_base.specs.Formats.{Reads};
ghost use Rattle.jfr_layout.specs.Classes.{Agree, Class, Classes, Sound, find_class, kind_of};
ghost use Rattle.jfr_layout.specs.declared.kind.Kind.TheVariants as kinds;
ghost use Rattle.jfr_layout.specs.declared.shape.Shape.{Shape};
ghost use Rattle.jfr_value.specs.Laws.{AreRead, Cover, HasOneAnswer, ItemsCover, LeavesInOrder, RefersByParts, SameNode, SameSteps};
ghost use Rattle.std.specs.List.{AllByRecursion};
ghost use Rattle.jfr_value.specs.Leaves.{KeyIsSpelled, leaves};
ghost use Rattle.jfr_value.specs.declared.leaf.Holder.{Holder};
ghost use Rattle.jfr_value.specs.Nodes.{Both, IsNode, NodeAt, children, node_at, target, targets, value_of};
ghost use Rattle.jfr_value.specs.Reading.{value_format};
ghost use Rattle.jfr_value.specs.Values.{Value, parts_of};

/// The format of values reads exactly the values that fit their shape. In sound classes no value is too deep
/// for it.
pub fn values_are_read()
    ensures { (k : Classes) → Sound k → AreRead k }
{}

/// At each offset there is exactly one answer for a known class: a value, or a flaw.
pub fn one_answer()
    ensures { (k : Classes) (c : List ℕ) (s : Shape) (at end : ℕ) → Sound k → IsSome (find_class k s.class) → at ≤ end → end ≤ length c → HasOneAnswer k c s at end }
{}

/// The law of bytes: nodes of the same shape and bytes, under classes that agree on the shape's class, have
/// the same value and the same steps, whatever their offsets.
pub fn same_bytes()
    ensures value { (k m : Classes) (c d : List ℕ) (n o : NodeAt) (v : Value) → Agree k m n.shape.class → IsNode k c n v → SameNode c d n o → o.at ≤ o.end → o.end ≤ length d → IsNode m d o v }
    ensures steps { (k m : Classes) (c d : List ℕ) (n o : NodeAt) (v : Value) → Sound k → Sound m → Agree k m n.shape.class → IsNode k c n v → SameNode c d n o → o.at ≤ o.end → o.end ≤ length d → SameSteps k m c d n o }
{}

/// A node refers to what its parts refer to.
pub fn refers_by_parts()
    ensures { (k : Classes) (c : List ℕ) (n : NodeAt) (v : Value) → Sound k → IsNode k c n v → RefersByParts k c n }
{}

/// A node has no more leaves than bytes.
pub fn leaves_within_bytes()
    ensures { (k : Classes) (c : List ℕ) (n : NodeAt) (v : Value) → Sound k → IsNode k c n v → length (leaves k c n) ≤ n.end - n.at }
{}

/// In each leaf that is a string and a key, the key is spelled after the kind byte.
pub fn keys_are_spelled()
    ensures { (k : Classes) (c : List ℕ) (n : NodeAt) (v : Value) → Sound k → IsNode k c n v → AllByRecursion KeyIsSpelled (leaves k c n) }
{}

/// A value is read from one offset up to another exactly if it is the value of the node between them.
pub fn nodes_are_read()
    ensures { (k : Classes) (c : List ℕ) (s : Shape) (at to end : ℕ) (v : Value) → Sound k → at ≤ end → end ≤ length c → Reads (value_format k s) c end at v to ↔ (IsNode k c (node_at s at to) v × (to ≤ end)) }
{}

/// The children of a node are the nodes of the parts of its value. The fields of a composite value cover the
/// node, one after another, and the items of an array cover what follows its count.
pub fn children_are_parts()
    ensures value { (k : Classes) (c : List ℕ) (n : NodeAt) (v : Value) → Sound k → IsNode k c n v → value_of k c n ≡ Some v }
    ensures parts { (k : Classes) (c : List ℕ) (n : NodeAt) (v : Value) → Sound k → IsNode k c n v → (i : ℕ) → Both (IsNode k c) (slice_get (children k c n) i) (slice_get (parts_of v) i) }
    ensures fields { (k : Classes) (c : List ℕ) (n : NodeAt) (v : Value) (d : Class) → Sound k → IsNode k c n v → n.shape.array ≡ false → n.shape.constant ≡ false → find_class k n.shape.class ≡ Some d → kind_of d.name ≡ kinds.Composite
        → Cover k c n.at n.end (map (λ f. f.shape) d.fields) (children k c n) }
    ensures items { (k : Classes) (c : List ℕ) (n : NodeAt) (v : Value) → Sound k → IsNode k c n v → n.shape.array ≡ true → ItemsCover k c n }
{}

/// The targets of a node are its own target, followed by those of its children, in order.
pub fn refers_in_order()
    ensures { (k : Classes) (c : List ℕ) (n : NodeAt) (v : Value) → Sound k → IsNode k c n v → targets k c n ≡ option_to_list (target k c n) ++ flat_map (targets k c) (children k c n) }
{}

/// The leaves of a node are those of its children, in order; an array's count comes before them. A reference
/// or a value of a base name is its only leaf.
pub fn leaves_in_order()
    ensures { (k : Classes) (c : List ℕ) (n : NodeAt) (v : Value) (holder : Option Holder) → Sound k → IsNode k c n v → LeavesInOrder k c n v holder }
{}
