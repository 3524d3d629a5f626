//! Writing a tree of elements with indices into a new table of strings.
ghost use Rattle.std.specs.Prelude.{[], ◌∷◌, length, map, OnOk};
ghost use Rattle.jfr_base.specs.Integer.{spell};
ghost use Rattle.jfr_meta.specs.NewTables.{IsTable};
ghost use Rattle.jfr_meta.specs.Rewritten.{Wrote, WroteHead, WrotePairs, WroteTree, WroteTrees};

use crate::tabling::NewTable;
use crate::{Element, Elements, Pairs};
use jfr_base::{NoMemory, Words, push_var};
use std::alloc::Global;

/// The bytes of a tree so far, and the table of strings to which its indices lead. Each index of the old
/// table is replaced as it is written, so that no second tree is made.
#[derive(Drop)]
pub(crate) struct NewTree<'a> {
    pub alloc: Global,
    pub table: NewTable<'a>,
    pub bytes: Vec<u8>,
}

/// Writes the index that the string at `index` of the old table has in the new one.
fn push_index<'a>(tree: &mut NewTree<'a>, strings: &'a Words, index: u64) -> Result<(), NoMemory>
    requires { IsTable strings.now tree.old.table }
    ensures ok { OnOk result (Wrote strings.now (index ∷ []) (λ f. spell (f index)) tree.old tree.new) }
{
    let number = tree.table.number(tree.alloc, strings, index)?;
    push_var(&mut tree.bytes, number)?;
    Ok(())
}

fn push_pairs<'a>(tree: &mut NewTree<'a>, strings: &'a Words, pairs: &Pairs) -> Result<(), NoMemory>
    requires { IsTable strings.now tree.old.table }
    ensures ok { OnOk result (WrotePairs strings.now pairs.now tree.old tree.new) }
{
    for pair in pairs.as_slice() {
        push_index(tree, strings, pair.0)?;
        push_index(tree, strings, pair.1)?;
    }
    Ok(())
}

/// Writes an element's name and attributes, and the number of its children.
pub(crate) fn push_head<'a>(
    tree: &mut NewTree<'a>,
    strings: &'a Words,
    element: &Element,
    children: usize,
) -> Result<(), NoMemory>
    requires { IsTable strings.now tree.old.table }
    ensures ok { OnOk result (WroteHead strings.now element.now children tree.old tree.new) }
{
    push_index(tree, strings, element.name())?;
    push_var(&mut tree.bytes, element.attributes().len() as u64)?;
    push_pairs(tree, strings, element.attributes())?;
    push_var(&mut tree.bytes, children as u64)?;
    Ok(())
}

#[cycle(rewriting)]
pub(crate) fn push_element<'a>(
    tree: &mut NewTree<'a>,
    strings: &'a Words,
    element: &Element,
) -> Result<(), NoMemory>
    requires { IsTable strings.now tree.old.table }
    ensures ok { OnOk result (WroteTree strings.now element.now tree.old tree.new) }
{
    push_head(tree, strings, element, element.children().len())?;
    push_elements(tree, strings, element.children())
}

#[cycle(rewriting)]
fn push_elements<'a>(
    tree: &mut NewTree<'a>,
    strings: &'a Words,
    elements: &Elements,
) -> Result<(), NoMemory>
    requires { IsTable strings.now tree.old.table }
    ensures ok { OnOk result (WroteTrees strings.now elements.now tree.old tree.new) }
{
    for element in elements.as_slice() {
        push_element(tree, strings, element)?;
    }
    Ok(())
}

/// Writes those children of an element that were chosen.
pub(crate) fn push_chosen<'a>(
    tree: &mut NewTree<'a>,
    strings: &'a Words,
    elements: &[&Element],
) -> Result<(), NoMemory>
    requires { IsTable strings.now tree.old.table }
    ensures ok { OnOk result (WroteTrees strings.now (map (λ e. e.now) elements.now) tree.old tree.new) }
{
    for element in elements {
        push_element(tree, strings, element)?;
    }
    Ok(())
}
