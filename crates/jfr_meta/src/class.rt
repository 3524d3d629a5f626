//! Reading the classes that class elements describe.
ghost use Rattle.std.specs.Prelude.{◌≡◌, ◌∷◌, [], ℕ, List, Some, map, option_map, IfOk, OnOk, ◌||◌};
ghost use Rattle.std.specs.BTreeSet.{contains};
ghost use Rattle.std.specs.List.{filter_map, flat_map};
ghost use Rattle.std.specs.Option.{option_copied, option_to_list};
ghost use Rattle.std.specs.Ordering.{nat_cmp};
ghost use Rattle.jfr_base.specs.declared.flaw.ReadFault.TheVariants.{Flawed};
ghost use Rattle.jfr_layout.specs.Names.{AreAllNumbered, AreNumbered};
ghost use Rattle.jfr_meta.specs.Answers.{ReportsFirst};
ghost use Rattle.jfr_meta.specs.Attributes.{text_at};
ghost use Rattle.jfr_meta.specs.Described.{AreCategoryIds, heads, is_category, is_category_id, category_annotation, categories_of, class_head, class_of, classes_of, class_flaws, field_of, field_elements, field_flaws};
ghost use Rattle.jfr_meta.specs.Names.{AreNumbers, Grow, number_of};
ghost use Rattle.jfr_meta.specs.Trees.{element_offset};

use crate::Element;
use crate::attributes::{attribute, attribute_index, is_word};
use crate::field::{id_attribute, named, shape_of};
use crate::names::NameNumbers;
use crate::values::{shared_text, texts_at, value_indices};
use jfr_base::{Flaw, NoMemory, ReadFault, Reason, Text, Words};
use jfr_layout::{ClassInfo, ClassList, FieldInfo, Fields};
use std::alloc::{AllocError, Global};
use std::collections::BTreeSet;

/// The name of the annotation class whose values are categories.
const CATEGORY: &str = "jdk.jfr.Category";

/// The flaw at this element, for this reason.
pub(crate) fn refused(element: &Element, reason: Reason) -> ReadFault
    ensures { result ≡ Flawed (record { offset = element_offset element.now; reason = reason }) }
{
    ReadFault::Flawed(Flaw {
        offset: element.at() as u64,
        reason,
    })
}

/// The id and the name of a class element, if it has both.
pub(crate) fn class_head<'a>(strings: &'a Words, element: &Element) -> Option<(u64, &'a Text)>
    ensures { option_map (λ h. (h.0, h.1.now)) result ≡ class_head strings.now element.now }
{
    let name = attribute(strings, element, "name")?;
    let id = id_attribute(strings, element, "id")?;
    Some((id, name))
}

/// A second handle to the same text, if there is one. The text isn't copied.
fn shared(text: Option<&Text>) -> Result<Option<Text>, NoMemory>
    ensures { IfOk result (λ shared. shared ≡ option_copied text.entry) }
{
    match text {
        Some(text) => Ok(Some(text.share()?)),
        None => Ok(None),
    }
}

/// The field of a field element, and the number of its name.
#[tactic(auto, unfolding(crate::specs::Described::field_of))]
fn read_field<'a>(
    alloc: Global,
    strings: &'a Words,
    element: &Element,
    names: &mut NameNumbers<'a>,
) -> Result<(FieldInfo, u64), ReadFault>
    requires { AreNumbers strings.now names.old }
    ensures ok { IfOk result (λ read. field_of strings.now element.now ≡ Some read.0) }
    ensures judged { ReportsFirst (field_flaws strings.now element.now) result }
    ensures number { IfOk result (λ read. number_of names.new read.0.name ≡ Some read.1) }
    ensures grow { OnOk result (Grow strings.now names.old names.new) }
{
    let Some(index) = attribute_index(strings, element, "name") else {
        return Err(refused(element, Reason::FieldBad));
    };
    let Some(shape) = shape_of(strings, element) else {
        return Err(refused(element, Reason::FieldBad));
    };
    let name = shared_text(alloc, strings, index)?;
    let number = names.number(strings, index)?;
    Ok((FieldInfo { name, shape }, number))
}

/// The fields of a class element, in order, and the numbers of their names.
fn read_fields<'a>(
    alloc: Global,
    strings: &'a Words,
    element: &Element,
    names: &mut NameNumbers<'a>,
) -> Result<(Fields, Vec<u64>), ReadFault>
    requires { AreNumbers strings.now names.old }
    ensures ok { IfOk result (λ read. read.0 ≡ filter_map (field_of strings.now) (field_elements strings.now element.now)) }
    ensures judged { ReportsFirst (flat_map (field_flaws strings.now) (field_elements strings.now element.now)) result }
    ensures numbered { IfOk result (λ read. AreNumbered read.0 read.1.items) }
    ensures names { OnOk result (AreNumbers strings.now names.new) }
{
    let elements = named(alloc, strings, element, "field")?;
    let mut fields = Fields::new(alloc);
    let mut numbers = Vec::with_capacity(alloc, elements.len())?;
    for element in &elements {
        let (field, number) = read_field(alloc, strings, element, names)?;
        fields.push(field)?;
        numbers.push(number)?;
    }
    Ok((fields, numbers))
}

/// Adds the id of a class element to the set, if its name is `CATEGORY`.
fn add_category(
    strings: &Words,
    element: &Element,
    ids: &mut BTreeSet<u64>,
) -> Result<(), AllocError>
    ensures ok { OnOk result ((q : ℕ) → contains nat_cmp ids.new q ≡ (contains nat_cmp ids.old q || is_category_id (option_to_list (class_head strings.now element.now)) q)) }
{
    let Some((id, name)) = class_head(strings, element) else {
        return Ok(());
    };
    if is_word(name.as_str(), CATEGORY) {
        ids.insert(id)?;
    }
    Ok(())
}

/// The ids of the class elements whose name is `CATEGORY`.
pub(crate) fn category_ids(
    alloc: Global,
    strings: &Words,
    elements: &[&Element],
) -> Result<BTreeSet<u64>, AllocError>
    ensures ok { IfOk result (AreCategoryIds (heads strings.now (map (λ e. e.now) elements.now))) }
{
    let mut ids = BTreeSet::new(alloc);
    for element in elements {
        add_category(strings, element, &mut ids)?;
    }
    Ok(ids)
}

/// Whether the annotation's class has one of these ids.
fn is_category(strings: &Words, ids: &BTreeSet<u64>, annotation: &Element) -> bool
    ensures { (hs : List (ℕ × List ℕ)) → AreCategoryIds hs ids.now → result ≡ is_category strings.now hs annotation.now }
{
    match id_attribute(strings, annotation, "class") {
        Some(id) => ids.contains(&id),
        None => false,
    }
}

/// The class of a class element, if its attributes and those of its fields are good, and the numbers of its
/// fields' names. `ids` is the result of `category_ids`.
#[tactic(auto, unfolding(crate::specs::Described::class_of, crate::specs::Described::class_flaws))]
fn read_class<'a>(
    alloc: Global,
    strings: &'a Words,
    ids: &BTreeSet<u64>,
    element: &Element,
    names: &mut NameNumbers<'a>,
) -> Result<(ClassInfo, Vec<u64>), ReadFault>
    requires { AreNumbers strings.now names.old }
    ensures ok { IfOk result (λ read. (hs : List (ℕ × List ℕ)) → AreCategoryIds hs ids.now → class_of strings.now hs element.now ≡ Some read.0) }
    ensures judged { ReportsFirst (class_flaws strings.now element.now) result }
    ensures numbered { IfOk result (λ read. AreNumbered read.0.fields read.1.items) }
    ensures names { OnOk result (AreNumbers strings.now names.new) }
{
    let Some((id, name)) = class_head(strings, element) else {
        return Err(refused(element, Reason::ClassBad));
    };
    let (fields, numbers) = read_fields(alloc, strings, element, names)?;
    let name = name.share()?;
    let super_name = shared(attribute(strings, element, "superType"))?;
    let categories = categories_of(alloc, strings, ids, element)?;
    let class = ClassInfo {
        id,
        name,
        super_name,
        fields,
        categories,
    };
    Ok((class, numbers))
}

/// The first annotation of a class element whose class is named `CATEGORY`.
fn category_annotation<'a>(
    alloc: Global,
    strings: &Words,
    ids: &BTreeSet<u64>,
    element: &'a Element,
) -> Result<Option<&'a Element>, AllocError>
    ensures ok { IfOk result (λ found. (hs : List (ℕ × List ℕ)) → AreCategoryIds hs ids.now → option_copied found ≡ category_annotation strings.now hs element.now) }
{
    let annotations = named(alloc, strings, element, "annotation")?;
    for annotation in &annotations {
        if is_category(strings, ids, annotation) {
            return Ok(Some(annotation));
        }
    }
    Ok(None)
}

/// The indices, in the table of strings, of the categories of a class element.
pub(crate) fn category_indices(
    alloc: Global,
    strings: &Words,
    ids: &BTreeSet<u64>,
    element: &Element,
) -> Result<Vec<u64>, NoMemory>
    ensures ok { IfOk result (λ indices. (hs : List (ℕ × List ℕ)) → AreCategoryIds hs ids.now → map (text_at strings.now) indices.items ≡ categories_of strings.now hs element.now) }
{
    match category_annotation(alloc, strings, ids, element)? {
        Some(annotation) => value_indices(alloc, strings, annotation),
        None => Ok(Vec::new(alloc)),
    }
}

/// The categories of a class element.
fn categories_of(
    alloc: Global,
    strings: &Words,
    ids: &BTreeSet<u64>,
    element: &Element,
) -> Result<Words, NoMemory>
    ensures ok { IfOk result (λ words. (hs : List (ℕ × List ℕ)) → AreCategoryIds hs ids.now → words ≡ categories_of strings.now hs element.now) }
{
    let indices = category_indices(alloc, strings, ids, element)?;
    texts_at(alloc, strings, &indices)
}

/// The classes of the class elements, in order, and the numbers of their fields' names.
pub(crate) fn read_classes(
    alloc: Global,
    strings: &Words,
    elements: &[&Element],
) -> Result<(ClassList, Vec<Vec<u64>>), ReadFault>
    ensures ok { IfOk result (λ read. read.0 ≡ classes_of strings.now (map (λ e. e.now) elements.now)) }
    ensures judged { ReportsFirst (flat_map (class_flaws strings.now) (map (λ e. e.now) elements.now)) result }
    ensures numbered { IfOk result (λ read. AreAllNumbered read.0 read.1.items) }
{
    let ids = category_ids(alloc, strings, elements)?;
    let mut names = NameNumbers::new(alloc);
    let mut classes = ClassList::new(alloc);
    let mut numbers = Vec::with_capacity(alloc, elements.len())?;
    for element in elements {
        let (class, of_fields) = read_class(alloc, strings, &ids, element, &mut names)?;
        classes.push(class)?;
        numbers.push(of_fields)?;
    }
    Ok((classes, numbers))
}
