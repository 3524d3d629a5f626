//! The leaves of a node, one after another.
ghost use Rattle.std.specs.Prelude.{◌≡◌, ◌+◌, ◌∷◌, [], MatchOption};
ghost use Rattle.std.specs.Iterator.{YieldsFirstBy, item_count};
ghost use Rattle.jfr_value.specs.Leaves.{leaf_of, leaves};
ghost use Rattle.jfr_value.specs.Nodes.{IsValue, node_of};

use crate::cursor::{Cursor, next_in};
use crate::stack::{Frame, NextValue, Stack};
use crate::walk::{LEVELS, Walk};
use crate::{Leaf, Node, Steps};
use jfr_layout::Classes;
use std::marker::Model;
use std::sync::ledger::Ledger;

/// The leaves of a node, from left to right. It allocates nothing.
#[derive(Drop)]
pub struct Leaves<'c, 'a> {
    walk: Walk<'c, 'a, ()>,
    cursor: Cursor,
}

impl<'c, 'a> Model for Leaves<'c, 'a> {
    ghost use Rattle.std.specs.Prelude.{List};
    ghost use Rattle.jfr_value.specs.Leaves.{LeafAt};

    ghost Value = { List LeafAt };

    ghost use Rattle.jfr_value.specs.Walks.{IsWalk, remaining_leaves};

    ghost view = { λ l. remaining_leaves l.walk.classes.now l.walk.bytes.now l.walk.end l.cursor };

    ghost invariant = { λ l. IsWalk l.walk.classes.now l.walk.bytes.now l.walk.end l.cursor };
}

impl<'c, 'a> Leaves<'c, 'a> {
    /// The leaves of a node, which must be one of a value.
    pub fn new(classes: &'c Classes, node: Node<'a>) -> Leaves<'c, 'a>
        requires { IsValue classes.now node }
        ensures { result ≡ leaves classes.now node.entry.bytes.now (node_of node.entry) }
    {
        let place = classes.index_of(node.shape.class).unwrap_or(0);
        let mut stack = Stack::new();
        let value = NextValue {
            shape: node.shape,
            place,
            levels: LEVELS,
            holder: None,
        };
        stack.push(Frame::Items {
            value,
            remaining: 1,
        });
        let walk = Walk {
            classes,
            bytes: node.bytes,
            end: node.end,
            with: &(),
        };
        let cursor = Cursor { at: node.at, stack };
        Leaves { walk, cursor }
    }

    /// The next leaf, for which a step is counted. `None` exactly after the last leaf.
    pub fn next_leaf<L: Ledger>(&mut self, steps: &mut Steps<L>) -> Option<Leaf<'a>>
        ensures exact { MatchOption result ((self.old ≡ []) × (self.new ≡ [])) (λ leaf. self.old ≡ leaf_of leaf ∷ self.new) }
        ensures cost { MatchOption result (steps.new ≡ steps.old) (λ leaf. steps.new ≡ steps.old + 1) }
    {
        let leaf = self.next()?;
        steps.tick();
        Some(leaf)
    }
}

impl<'c, 'a> Iterator for Leaves<'c, 'a> {
    type Item = Leaf<'a>;

    ghost next_gives = { YieldsFirstBy leaf_of (λ l. l) };

    ghost remaining = { item_count (λ l. l) };

    /// The next leaf. `None` exactly after the last leaf.
    fn next(&mut self) -> Option<Leaf<'a>> {
        next_in(&mut self.cursor, &self.walk)
    }
}
