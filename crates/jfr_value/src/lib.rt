//! The values of classes (docs/FORMAT.md, Values): where they end, their parts, their leaves, and what they
//! refer to.
//!
//! | entry | what it is |
//! |---|---|
//! | `Node` | a value in a chunk: its shape and the range of its bytes |
//! | `child`, `Step` | a field or an item of a node, by a step |
//! | `target` | the class and the key to which a node itself refers |
//! | `Leaves`, `Leaf` | the parts of a node without parts of their own, from left to right |
//! | `visit_leaves`, `VisitLeaf` | passes the leaves of a node to a visitor |
//! | `visit_targets`, `Visit` | passes all that a node refers to, to a visitor |
//! | `end_of`, `end_by_layout` | where the value at an offset ends, by its shape or by its layout |
//! | `end_visiting` | the same, and passes the value's references to a visitor |
//! | `end_visiting_keys`, `VisitKey` | the same, and tells where each key is spelled |
//! | `layout_of`, `item_layout` | the layout of a shape, and of an array's items |
//! | `Steps` | a count of steps, for contracts only |
//!
//! Read `specs/Values.antt` first, then `specs/Reading.antt`, `specs/Nodes.antt`, `specs/Leaves.antt` and
//! `specs/Visits.antt`. The laws of values are in `specs/Laws.antt`.
#![tactic(auto)]

mod cursor;
mod extent;
mod fused;
mod integers;
mod keys;
mod laws;
mod leaf;
mod leaf_visit;
mod leaves;
mod node;
mod part;
mod reference;
mod single_visit;
mod stack;
mod steps;
mod visit;
mod walk;

pub use extent::{end_by_layout, end_of, end_visiting, end_visiting_keys, item_layout, layout_of};
pub use laws::{
    children_are_parts, keys_are_spelled, leaves_in_order, leaves_within_bytes, nodes_are_read,
    one_answer, refers_by_parts, refers_in_order, same_bytes, values_are_read,
};
pub use leaf::{Holder, KeyAt, Leaf, LeafKind};
pub use leaf_visit::{VisitLeaf, visit_leaves};
pub use leaves::Leaves;
pub use node::{Node, Step};
pub use part::child;
pub use reference::target;
pub use steps::Steps;
pub use visit::{Visit, VisitKey, visit_and_count, visit_targets};
pub use walk::{LEVELS, Walk};
