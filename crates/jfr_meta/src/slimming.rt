//! Writing the metadata record without the event classes that the output doesn't need.
//!
//! The table of strings is made anew, with only the strings that the smaller tree uses.
ghost use Rattle.std.specs.Prelude.{◌≡◌, ℕ, ◌≤◌, ◌^◌, ◌∷◌, [], ◌||◌, ◌&&◌, Bool, List, Some, None, Ok, codes, length, map, filter, nat_lt, nat_le, option_map, if◌then◌else◌, IfOk, IfSome, OnOk};
ghost use Rattle.std.specs.List.{AllByRecursion};
ghost use Rattle.jfr_meta.specs.Held.{body_in};
ghost use Rattle.jfr_meta.specs.NewTables.{IsTable};
ghost use Rattle.jfr_meta.specs.Rewritten.{WroteTree, WroteTrees};
ghost use Rattle.jfr_meta.specs.Slimmed.{element_is_needed, first_changed, is_named, slim_body, slim_holder, slim_in, slim_root, slim_unless};
ghost use Rattle.jfr_meta.specs.Stays.{is_in};
ghost use Rattle.jfr_meta.specs.Trees.{Tree, children_of};
ghost use Rattle.jfr_meta.specs.Written.{HasIndices, IsText, ReadsBack, depth, record_bytes, table_bytes, tree_bytes};

use crate::class::class_head;
use crate::field::has_name;
use crate::rewriting::{NewTree, push_chosen, push_element, push_head};
use crate::tabling::NewTable;
use crate::write::{FRAME_LEN, Stamp, push_opening, texts_len};
use crate::{Element, Elements, Ids, Metadata};
use jfr_base::{NoMemory, Words, var_len};
use std::alloc::{AllocError, Global};

/// The strings and the tree must take fewer bytes than this.
const LIMIT: u64 = 1 << 29;

/// Whether a child of the element `metadata` is needed: it isn't a class element, or its class is in the set.
fn element_is_needed(strings: &Words, stay: &Ids, element: &Element) -> bool
    ensures { result ≡ element_is_needed strings.now (is_in stay.now) element.now }
{
    if !has_name(strings, element, "class") {
        return true;
    }
    match class_head(strings, element) {
        Some((id, _)) => stay.has(id),
        None => false,
    }
}

/// The children of the element `metadata` that are needed.
fn needed_children<'a>(
    alloc: Global,
    strings: &Words,
    stay: &Ids,
    element: &'a Element,
) -> Result<Vec<&'a Element>, AllocError>
    ensures ok { IfOk result (λ found. map (λ e. e.now) found.items ≡ filter (element_is_needed strings.now (is_in stay.now)) (children_of element.now)) }
{
    let children = element.children().as_slice();
    children
        .iter()
        .filter(|child| element_is_needed(strings, stay, child))
        .collect(alloc)
}

/// Writes the element `metadata` with only the needed children.
fn push_holder<'a>(
    tree: &mut NewTree<'a>,
    strings: &'a Words,
    stay: &Ids,
    element: &Element,
) -> Result<(), NoMemory>
    requires { IsTable strings.now tree.old.table }
    ensures ok { OnOk result (WroteTree strings.now (slim_holder strings.now (is_in stay.now) element.now) tree.old tree.new) }
{
    let children = needed_children(tree.alloc, strings, stay, element)?;
    push_head(tree, strings, element, children.len())?;
    push_chosen(tree, strings, &children)
}

/// Whether the element `metadata` is this one or an earlier one.
fn is_found_by(strings: &Words, element: &Element, found: bool) -> bool
    ensures { result ≡ (found || is_named strings.now (codes "metadata") element.now) }
{
    if found {
        return true;
    }
    has_name(strings, element, "metadata")
}

/// Writes a child of the root; if it is the first element `metadata`, with only the needed children. `found`
/// is whether there was an earlier one.
fn push_child<'a>(
    tree: &mut NewTree<'a>,
    strings: &'a Words,
    stay: &Ids,
    element: &Element,
    found: bool,
) -> Result<(), NoMemory>
    requires { IsTable strings.now tree.old.table }
    ensures ok { OnOk result (WroteTree strings.now (slim_unless found strings.now (is_in stay.now) element.now) tree.old tree.new) }
{
    if found {
        return push_element(tree, strings, element);
    }
    if has_name(strings, element, "metadata") {
        push_holder(tree, strings, stay, element)
    } else {
        push_element(tree, strings, element)
    }
}

/// Writes the children of the root. The first element `metadata` has only the needed children.
fn push_top<'a>(
    tree: &mut NewTree<'a>,
    strings: &'a Words,
    stay: &Ids,
    elements: &Elements,
) -> Result<(), NoMemory>
    requires { IsTable strings.now tree.old.table }
    ensures ok { OnOk result (WroteTrees strings.now (first_changed (is_named strings.now (codes "metadata")) (slim_holder strings.now (is_in stay.now)) elements.now) tree.old tree.new) }
{
    let mut found = false;
    for element in elements.as_slice() {
        push_child(tree, strings, stay, element, found)?;
        found = is_found_by(strings, element, found);
    }
    Ok(())
}

/// Writes the tree with only the needed class elements.
fn push_root<'a>(
    tree: &mut NewTree<'a>,
    strings: &'a Words,
    stay: &Ids,
    root: &Element,
) -> Result<(), NoMemory>
    requires { IsTable strings.now tree.old.table }
    ensures ok { OnOk result (WroteTree strings.now (slim_root strings.now (is_in stay.now) root.now) tree.old tree.new) }
{
    push_head(tree, strings, root, root.children().len())?;
    push_top(tree, strings, stay, root.children())
}

/// The record with these strings and this tree, if they take fewer bytes than the limit, and the whole record
/// at most `room` bytes.
fn written_within(
    alloc: Global,
    stamp: Stamp,
    strings: &Words,
    tree: &[u8],
    room: usize,
) -> Result<Option<Vec<u8>>, NoMemory>
    ensures exact { IfOk result (λ found. (root : Tree) → tree.now ≡ tree_bytes root
        → option_map (λ v. v.items) found ≡ (if nat_lt (length (table_bytes strings.now root)) (2 ^ 29) && nat_le (length (record_bytes stamp.start stamp.duration stamp.id strings.now root)) room then Some (record_bytes stamp.start stamp.duration stamp.id strings.now root) else None)) }
    ensures texts { IfOk result (λ found. IfSome found (λ v. AllByRecursion IsText strings.now)) }
    ensures read_back { IfOk result (λ found. IfSome found (λ v. (root : Tree) → tree.now ≡ tree_bytes root → depth root ≤ 16 → HasIndices (length strings.now) root → ReadsBack v.items stamp.start stamp.duration stamp.id strings.now root)) }
{
    let len = texts_len(strings).saturating_add(tree.len() as u64);
    if len >= LIMIT {
        return Ok(None);
    }
    let count = strings.len() as u64;
    let head = var_len(stamp.start) + var_len(stamp.duration) + var_len(stamp.id) + var_len(count);
    let size = len + (FRAME_LEN + head) as u64;
    if size > room as u64 {
        return Ok(None);
    }
    let mut bytes = Vec::with_capacity(alloc, size as usize)?;
    push_opening(&mut bytes, size, stamp, strings)?;
    bytes.extend_from_slice(tree)?;
    Ok(Some(bytes))
}

/// The metadata record with only those classes whose ids are in `stay`, and a table of only the strings that
/// it uses. `None` exactly if its strings and tree take 2^29 bytes or more, or the record takes more than
/// `room` bytes.
pub fn slim(
    alloc: Global,
    metadata: &Metadata,
    stay: &Ids,
    room: usize,
) -> Result<Option<Vec<u8>>, NoMemory>
    requires depth { depth metadata.now.root ≤ 16 }
    ensures exact { IfOk result (λ found. option_map (λ v. v.items) found ≡ slim_in (body_in metadata.now) (is_in stay.now) room) }
    ensures texts { IfOk result (λ found. IfSome found (λ v. AllByRecursion IsText (slim_body (body_in metadata.now) (is_in stay.now)).strings)) }
    ensures read_back { IfOk result (λ found. IfSome found (λ v. ReadsBack v.items metadata.now.start metadata.now.duration metadata.now.id (slim_body (body_in metadata.now) (is_in stay.now)).strings (slim_body (body_in metadata.now) (is_in stay.now)).root)) }
{
    let mut tree = NewTree {
        alloc,
        table: NewTable::new(alloc, &metadata.strings)?,
        bytes: Vec::new(alloc),
    };
    push_root(&mut tree, &metadata.strings, stay, &metadata.root)?;
    let stamp = Stamp {
        start: metadata.start,
        duration: metadata.duration,
        id: metadata.id,
    };
    written_within(alloc, stamp, tree.table.words(), &tree.bytes, room)
}
