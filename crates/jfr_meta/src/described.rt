//! The classes that a tree of elements describes.
ghost use Rattle.std.specs.Prelude.{◌≡◌, Ok, map, find, option_map, IfOk, MatchResult};
ghost use Rattle.std.specs.Option.{option_copied};
ghost use Rattle.std.specs.Str.{bytes_eq};
ghost use Rattle.jfr_meta.specs.Answers.{IsFault, IsFirstFlaw, ReportsFirst};
ghost use Rattle.jfr_meta.specs.Attributes.{IsWord, text_at};
ghost use Rattle.jfr_meta.specs.Described.{element_place, flaw_place, list_flaws, tree_flaws, described_classes, class_elements, classes_of};
ghost use Rattle.jfr_meta.specs.Trees.{element_offset, name_of, children_of};
ghost use Rattle.jfr_layout.specs.Classes as classes;

use crate::Element;
use crate::class::{read_classes, refused};
use crate::field::{has_name, named};
use jfr_base::{Flaw, ReadFault, Reason, Words};
use jfr_layout::{ClassFault, Classes};
use std::alloc::{AllocError, Global};

/// The first of the element's children that has this name.
fn child_named<'a>(strings: &Words, element: &'a Element, name: &str) -> Option<&'a Element>
    requires { IsWord name.now }
    ensures { option_copied result ≡ find (λ t. bytes_eq (text_at strings.now (name_of t)) name.now) (children_of element.now) }
{
    let children = element.children().as_slice();
    children.iter().find(|child| has_name(strings, child, name))
}

/// The offset of a class element, or of its field element with this number.
fn element_place(
    alloc: Global,
    strings: &Words,
    element: &Element,
    field: Option<usize>,
) -> Result<usize, AllocError>
    ensures { IfOk result (λ place. place ≡ element_place strings.now element.now field) }
{
    let Some(number) = field else {
        return Ok(element.at());
    };
    let fields = named(alloc, strings, element, "field")?;
    if number < fields.len() {
        Ok(fields[number].at())
    } else {
        // No flaw has such a number. The definition gives 0 then.
        Ok(0)
    }
}

/// The offset of the class element with this index, or of its field element with this number.
fn flaw_place(
    alloc: Global,
    strings: &Words,
    elements: &[&Element],
    class: usize,
    field: Option<usize>,
) -> Result<usize, AllocError>
    ensures { IfOk result (λ place. place ≡ flaw_place strings.now (map (λ e. e.now) elements.now) class field) }
{
    if class < elements.len() {
        element_place(alloc, strings, elements[class], field)
    } else {
        // No flaw has such a class. The definition gives 0 then.
        Ok(0)
    }
}

/// The flaw at the element that describes the faulty class or field; `Memory` if memory ran out.
fn placed(alloc: Global, strings: &Words, elements: &[&Element], fault: ClassFault) -> ReadFault
    requires { classes.IsFirstFlaw (classes.class_faults (classes_of strings.now (map (λ e. e.now) elements.now))) fault }
    ensures { IsFirstFlaw (list_flaws strings.now (map (λ e. e.now) elements.now)) result }
{
    match fault {
        ClassFault::Memory => ReadFault::Memory,
        ClassFault::Flawed {
            class,
            field,
            reason,
        } => {
            match flaw_place(alloc, strings, elements, class, field) {
                Ok(place) => ReadFault::Flawed(Flaw {
                    offset: place as u64,
                    reason,
                }),
                Err(_) => ReadFault::Memory,
            }
        }
    }
}

/// The classes of the class elements, if they have no flaw.
fn sound_classes(
    alloc: Global,
    strings: &Words,
    elements: &[&Element],
) -> Result<Classes, ReadFault>
    ensures ok { IfOk result (λ classes. classes ≡ classes_of strings.now (map (λ e. e.now) elements.now)) }
    ensures judged { ReportsFirst (tree_flaws strings.now (map (λ e. e.now) elements.now)) result }
{
    let made = {
        let (list, numbers) = read_classes(alloc, strings, elements)?;
        Classes::make_numbered(alloc, list, &numbers)
    };
    match made {
        Ok(classes) => Ok(classes),
        Err(fault) => Err(placed(alloc, strings, elements, fault)),
    }
}

/// The class elements, if the root has a child for them.
pub(crate) fn class_elements<'a>(
    alloc: Global,
    strings: &Words,
    root: &'a Element,
) -> Result<Option<Vec<&'a Element>>, AllocError>
    ensures { IfOk result (λ found. option_map (λ v. map (λ e. e.now) v.items) found ≡ class_elements strings.now root.now) }
{
    match child_named(strings, root, "metadata") {
        Some(metadata) => Ok(Some(named(alloc, strings, metadata, "class")?)),
        None => Ok(None),
    }
}

/// The classes that the tree describes, or the first flaw. Names and attributes in the tree are indices into
/// the table of strings.
pub(crate) fn describe(alloc: Global, strings: &Words, root: &Element) -> Result<Classes, ReadFault>
    ensures { MatchResult result (λ classes. described_classes strings.now (element_offset root.now) (class_elements strings.now root.now) ≡ Ok classes) (IsFault (described_classes strings.now (element_offset root.now) (class_elements strings.now root.now))) }
{
    match class_elements(alloc, strings, root)? {
        Some(elements) => sound_classes(alloc, strings, &elements),
        None => Err(refused(root, Reason::NoClasses)),
    }
}
