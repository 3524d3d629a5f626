//! The strings that name the classes of a chunk.
ghost use Rattle.std.specs.Prelude.{◌≡◌, ◌++◌, ℕ, List, Ok, map, option_map, IfOk, OnOk};
ghost use Rattle.std.specs.List.{AllZip, filter_map};
ghost use Rattle.std.specs.Option.{option_to_list};
ghost use Rattle.jfr_layout.specs.Classes.{Classes};
ghost use Rattle.jfr_meta.specs.Attributes.{text_at};
ghost use Rattle.jfr_meta.specs.Described.{AreCategoryIds, IsNamedBy, class_elements, class_of, classes_of, described_classes, field_elements, field_of};
ghost use Rattle.jfr_meta.specs.Trees.{element_offset};

use crate::Element;
use crate::attributes::attribute_index;
use crate::class::{category_ids, category_indices, class_head};
use crate::described::class_elements;
use crate::field::{named, shape_of};
use jfr_base::{NoMemory, Words};
use std::alloc::{AllocError, Global};
use std::collections::BTreeSet;

/// The indices, in the table of strings, of the strings that name a class and its parts. Many classes may share
/// a long string. With its index, a result for its text can be found once and used for all of them.
#[derive(Drop)]
pub struct ClassNames {
    /// Its name.
    pub name: u64,
    /// The name of its super type, if it has one.
    pub super_name: Option<u64>,
    /// The names of its fields, in order.
    pub fields: Vec<u64>,
    /// Its categories, in order.
    pub categories: Vec<u64>,
}

/// The string that names the field of a field element, if the element describes a field.
#[tactic(auto, unfolding(crate::specs::Described::field_of))]
fn field_index(strings: &Words, element: &Element) -> Option<u64>
    ensures { option_map (text_at strings.now) result ≡ option_map (λ f. f.name) (field_of strings.now element.now) }
{
    let index = attribute_index(strings, element, "name")?;
    if shape_of(strings, element).is_none() {
        return None;
    }
    Some(index)
}

/// Adds the string that names the field of a field element, if the element describes a field.
fn add_field(strings: &Words, element: &Element, indices: &mut Vec<u64>) -> Result<(), AllocError>
    ensures ok { OnOk result (map (text_at strings.now) indices.new.items ≡ map (text_at strings.now) indices.old.items ++ option_to_list (option_map (λ f. f.name) (field_of strings.now element.now))) }
{
    if let Some(index) = field_index(strings, element) {
        indices.push(index)?;
    }
    Ok(())
}

/// The strings that name the fields of a class element, in order.
fn field_indices(alloc: Global, strings: &Words, element: &Element) -> Result<Vec<u64>, AllocError>
    ensures ok { IfOk result (λ indices. map (text_at strings.now) indices.items ≡ map (λ f. f.name) (filter_map (field_of strings.now) (field_elements strings.now element.now))) }
{
    let elements = named(alloc, strings, element, "field")?;
    let mut indices = Vec::with_capacity(alloc, elements.len())?;
    for field in &elements {
        add_field(strings, field, &mut indices)?;
    }
    Ok(indices)
}

/// Adds the strings that name the class of a class element, if it has an id and a name.
fn add_names(
    alloc: Global,
    strings: &Words,
    ids: &BTreeSet<u64>,
    element: &Element,
    names: &mut Vec<ClassNames>,
) -> Result<(), NoMemory>
    ensures ok { OnOk result ((hs : List (ℕ × List ℕ)) (classes : Classes) → AreCategoryIds hs ids.now → AllZip (IsNamedBy strings.now) classes names.old.items
        → AllZip (IsNamedBy strings.now) (classes ++ option_to_list (class_of strings.now hs element.now)) names.new.items) }
{
    if class_head(strings, element).is_none() {
        return Ok(());
    }
    let Some(name) = attribute_index(strings, element, "name") else {
        return Ok(());
    };
    let super_name = attribute_index(strings, element, "superType");
    let fields = field_indices(alloc, strings, element)?;
    let categories = category_indices(alloc, strings, ids, element)?;
    names.push(ClassNames {
        name,
        super_name,
        fields,
        categories,
    })?;
    Ok(())
}

/// The strings that name the classes of the class elements.
fn names_of(
    alloc: Global,
    strings: &Words,
    elements: &[&Element],
) -> Result<Vec<ClassNames>, NoMemory>
    ensures ok { IfOk result (λ names. AllZip (IsNamedBy strings.now) (classes_of strings.now (map (λ e. e.now) elements.now)) names.items) }
{
    let ids = category_ids(alloc, strings, elements)?;
    let mut names = Vec::new(alloc);
    for element in elements {
        add_names(alloc, strings, &ids, element, &mut names)?;
    }
    Ok(names)
}

/// The strings that name each class that the tree describes, in the order of the classes.
pub fn class_names(
    alloc: Global,
    strings: &Words,
    root: &Element,
) -> Result<Vec<ClassNames>, NoMemory>
    ensures ok { IfOk result (λ names. (classes : Classes) → described_classes strings.now (element_offset root.now) (class_elements strings.now root.now) ≡ Ok classes
        → AllZip (IsNamedBy strings.now) classes names.items) }
{
    match class_elements(alloc, strings, root)? {
        Some(elements) => names_of(alloc, strings, &elements),
        None => Ok(Vec::new(alloc)),
    }
}
