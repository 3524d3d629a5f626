//! The tree of elements.
ghost use Rattle.std.specs.Prelude.{◌≡◌, [], ◌∷◌, ◌++◌, length, IfOk, OnOk, OnErr, slice_get};
ghost use Rattle.std.specs.Option.{option_copied};
ghost use Rattle.jfr_meta.specs.Trees.{tree, element_offset, name_of, pairs_of, children_of};

use crate::Pairs;
use jfr_base::NoMemory;
use std::alloc::Global;
use std::marker::Model;

/// An element of the metadata's tree: its offset in the chunk, the index of its name in the table of
/// strings, its attributes and its children.
#[cycle(tree)]
#[derive(Drop)]
pub struct Element {
    at: usize,
    name: u64,
    attributes: Pairs,
    children: Elements,
}

impl Model for Element {
    ghost use Rattle.std.specs.Prelude.{◌*◌, ◌+◌};
    ghost use Rattle.std.proofs.Common.{arith};
    ghost use Rattle.jfr_meta.specs.Trees.{Tree, tree, count, tree_code, counts-trees_of};

    ghost Value = { Tree };

    ghost coded = { tree_code };

    ghost view = { λ e. tree e.at e.name e.attributes e.children };

    ghost size = { λ t. 2 * count t };

    ghost size_decreases = { λ e _. Prim.omega (arith, counts-trees_of e.children) };
}

/// A list of elements.
#[cycle(tree)]
#[derive(Drop)]
pub struct Elements {
    items: Vec<Element>,
}

impl Model for Elements {
    ghost use Rattle.std.specs.Prelude.{List, ◌*◌, ◌+◌};
    ghost use Rattle.std.proofs.Common.{arith};
    ghost use Rattle.jfr_meta.specs.Trees.{Tree, counts_of, forest_code, most_le};

    ghost Value = { List Tree };

    ghost coded = { forest_code };

    ghost view = { λ elements. elements.items.items };

    ghost size = { λ ts. 2 * counts_of ts + 1 };

    ghost size_decreases = { λ elements _. Prim.omega (arith, most_le elements.items.items) };
}

impl Element {
    /// An element with these four parts. It allocates nothing.
    pub fn new(at: usize, name: u64, attributes: Pairs, children: Elements) -> Element
        ensures { result ≡ tree at name attributes children }
    {
        Element {
            at,
            name,
            attributes,
            children,
        }
    }

    /// The offset of its first byte in the chunk.
    pub fn at(&self) -> usize
        ensures { result ≡ element_offset self.now }
    {
        self.at
    }

    /// The index of its name in the table of strings.
    pub fn name(&self) -> u64
        ensures { result ≡ name_of self.now }
    {
        self.name
    }

    /// Its attributes, in order.
    pub fn attributes(&self) -> &Pairs
        ensures { result.now ≡ pairs_of self.now }
    {
        &self.attributes
    }

    /// Its children, in order.
    pub fn children(&self) -> &Elements
        ensures { result.now ≡ children_of self.now }
    {
        &self.children
    }
}

impl Elements {
    /// An empty list. It allocates nothing.
    pub fn new(alloc: Global) -> Elements
        ensures { result ≡ [] }
    {
        Elements {
            items: Vec::new(alloc),
        }
    }

    /// An empty list with capacity for `count` elements.
    pub fn with_capacity(alloc: Global, count: usize) -> Result<Elements, NoMemory>
        ensures ok { IfOk result (λ elements. elements ≡ []) }
    {
        Ok(Elements {
            items: Vec::with_capacity(alloc, count)?,
        })
    }

    /// Adds an element at the end.
    pub fn push(&mut self, item: Element) -> Result<(), NoMemory>
        ensures ok { OnOk result (self.new ≡ self.old ++ item ∷ []) }
        ensures unchanged { OnErr result (self.new ≡ self.old) }
    {
        self.items.push(item)?;
        Ok(())
    }

    /// The number of elements.
    pub fn len(&self) -> usize
        ensures { result ≡ length self.now }
    {
        self.items.len()
    }

    /// The element with this index, from 0, if there is one.
    pub fn get(&self, at: usize) -> Option<&Element>
        ensures { option_copied result ≡ slice_get self.now at }
    {
        self.items.get(at)
    }

    /// The elements as a slice.
    pub(crate) fn as_slice(&self) -> &[Element]
        ensures { result.now ≡ self.now }
    {
        self.items.as_slice()
    }
}
