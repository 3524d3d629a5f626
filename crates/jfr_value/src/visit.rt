//! The visit of what a value refers to, for values that are known to be there. jfr_reach uses it for each constant that
//! it marks, and jfr_verify for each one that it checks. It counts a step for each leaf, which only jfr_reach needs.
ghost use Rattle.std.specs.Prelude.{◌≡◌, ℕ, ◌+◌, length};
ghost use Rattle.jfr_value.specs.Leaves.{leaves};
ghost use Rattle.jfr_value.specs.Nodes.{IsValue, node_of, targets};
ghost use Rattle.jfr_value.specs.Visits.{TakesAll};

use crate::leaf_visit::visit_leaves_and_count;
use crate::{KeyAt, Leaf, Node, Steps, VisitLeaf, visit_leaves};
use jfr_layout::Classes;
use std::sync::ledger::Ledger;

/// A visitor takes the references of a value one by one. For each it may look something up in `with`, such as
/// the pools.
pub trait Visit<C> {
    // Whether the visitor can take a target.
    ghost ready: { Self → C → Type 0 };

    // How taking a class and a key changes the visitor.
    ghost takes: { C → ℕ × ℕ → Self → Self → Type 0 };

    /// Takes the class and the key of a reference, or of a string that is a key.
    fn visit(&mut self, with: &C, class: u64, key: u64)
        requires ready { ready self.old with.now }
        ensures ready { ready self.new with.now }
        ensures takes { takes with.now (class, key) self.old self.new };
}

/// A visitor takes the keys in a value one by one, each with the place where it is spelled.
/// Every visitor of targets (`Visit`) is one.
pub trait VisitKey<C> {
    ghost use Rattle.jfr_value.specs.declared.leaf.KeyAt.{KeyAt};

    // Whether the visitor can take a key.
    ghost ready: { Self → C → Type 0 };

    // How taking a key changes the visitor.
    ghost takes: { C → KeyAt → Self → Self → Type 0 };

    /// Takes the key of a reference, or of a string that is a key.
    fn visit_key(&mut self, with: &C, key: KeyAt)
        requires ready { ready self.old with.now }
        ensures ready { ready self.new with.now }
        ensures takes { takes with.now key self.old self.new };
}

impl<C, V: Visit<C>> VisitKey<C> for V {
    ghost ready = { V.Visit.ready };

    ghost takes = { λ with key old new. V.Visit.takes with (key.class, key.key) old new };

    #[inline(always)]
    fn visit_key(&mut self, with: &C, key: KeyAt) {
        self.visit(with, key.class, key.key);
    }
}

impl<C, V: VisitKey<C>> VisitLeaf<C> for V {
    ghost use Rattle.std.specs.Prelude.{◌+◌, ◌<◌, ◌^◌, length, option_to_list};
    ghost use Rattle.jfr_value.specs.Leaves.{KeyIsSpelled, key_of_leaf};
    ghost use Rattle.jfr_value.specs.Visits.{TakesAll};

    ghost admits = { λ with leaf. KeyIsSpelled leaf × (leaf.at + length leaf.spelled < 2 ^ 64) };

    ghost ready = { λ visitor with at. V.VisitKey.ready visitor with };

    ghost takes = { λ with leaf old new. TakesAll (V.VisitKey.takes with) (option_to_list (key_of_leaf leaf)) old new };

    fn passes_numbers() {}

    #[inline(always)]
    fn visit_leaf(&mut self, with: &C, leaf: Leaf<'_>) {
        if let Some(key) = leaf.key_at() {
            self.visit_key(with, key);
        }
    }
}

/// Passes the class and the key of each reference of a node, and of each string that is a key, to the
/// visitor, from left to right. It allocates nothing. The node must be one of a value.
pub fn visit_targets<C, V: Visit<C>>(classes: &Classes, node: Node<'_>, visitor: &mut V, with: &C)
    requires value { IsValue classes.now node }
    requires ready { V.ready visitor.old with.now }
    ensures exact { TakesAll (V.takes with.now) (targets classes.now node.entry.bytes.now (node_of node.entry)) visitor.old visitor.new }
    ensures ready { V.ready visitor.new with.now }
{
    classes.are_sound();
    visit_leaves(classes, node, visitor, with);
}

/// As `visit_targets`. It counts a step for each leaf.
pub fn visit_and_count<C, V: Visit<C>, L: Ledger>(
    classes: &Classes,
    node: Node<'_>,
    visitor: &mut V,
    with: &C,
    steps: &mut Steps<L>,
)
    requires value { IsValue classes.now node }
    requires ready { V.ready visitor.old with.now }
    ensures exact { TakesAll (V.takes with.now) (targets classes.now node.entry.bytes.now (node_of node.entry)) visitor.old visitor.new }
    ensures ready { V.ready visitor.new with.now }
    ensures cost { steps.new ≡ steps.old + length (leaves classes.now node.entry.bytes.now (node_of node.entry)) }
{
    classes.are_sound();
    visit_leaves_and_count(classes, node, visitor, with, steps);
}
