//! The metadata record of classes and of a region.
ghost use Rattle.std.specs.Prelude.{◌≡◌, ◌+◌, ◌++◌, ◌∷◌, ◌<◌, ◌≤◌, ◌^◌, ℕ, [], length, IfOk, OnOk, option_map};
ghost use Rattle.std.specs.Fmt.{decimal};
ghost use Rattle.jfr_layout.specs.Classes.{has_id};
ghost use Rattle.jfr_meta.specs.Held.{body_in};
ghost use Rattle.jfr_meta.specs.Stays.{is_in};
ghost use Rattle.jfr_meta.specs.Trees.{tree};
ghost use Rattle.jfr_build.specs.Described.{body_of, class_texts, class_tree, field_texts, field_tree, fixed_texts, mark_pairs, metadata_record, region_texts, region_trees, super_pairs};

use crate::region::Region;
use jfr_base::{NoMemory, Text, Words};
use jfr_layout::{ClassInfo, Classes, FieldInfo, Shape};
use jfr_meta::{Element, Elements, Ids, Metadata, Pairs, slim};
use std::alloc::Global;

/// The indices of the texts that don't depend on the classes.
const ROOT: u64 = 0;

const METADATA: u64 = 1;

const CLASS: u64 = 2;

const NAME: u64 = 3;

const ID: u64 = 4;

const SUPER_TYPE: u64 = 5;

const EVENT: u64 = 6;

const FIELD: u64 = 7;

const CONSTANT_POOL: u64 = 8;

const TRUE: u64 = 9;

const DIMENSION: u64 = 10;

const ONE: u64 = 11;

const REGION: u64 = 12;

const LOCALE: u64 = 13;

const GMT_OFFSET: u64 = 14;

/// The most bytes of a metadata record. No record has more, since its strings and tree take fewer than 2^29.
const RECORD_LIMIT: usize = 1 << 30;

/// Makes the metadata record of the classes and the region, and gives the classes back. `None` if its strings and
/// its tree take 2^29 bytes or more.
pub fn metadata_record(
    alloc: Global,
    classes: Classes,
    region: Option<&Region<'_>>,
) -> Result<(Option<Vec<u8>>, Classes), NoMemory>
    ensures exact { IfOk result (λ made. option_map (λ v. v.items) made.0 ≡ metadata_record classes (option_map (λ r. r.now) region.entry)) }
    ensures classes { IfOk result (λ made. made.1 ≡ classes) }
{
    let ids = ids_of(alloc, &classes)?;
    let mut strings = fixed_texts(alloc)?;
    let root = root_of(alloc, &mut strings, &classes, region)?;
    let metadata = Metadata {
        start: 0,
        duration: 0,
        id: 1,
        strings,
        root,
        classes,
    };
    let record = slim(alloc, &metadata, &ids, RECORD_LIMIT)?;
    Ok((record, metadata.classes))
}

/// The ids of the classes.
fn ids_of(alloc: Global, classes: &Classes) -> Result<Ids, NoMemory>
    ensures ok { IfOk result (λ ids. (id : ℕ) → is_in ids id ≡ has_id classes.now id) }
{
    let mut ids = Ids::new(alloc);
    for class in classes.as_slice() {
        ids.insert(class.id)?;
    }
    Ok(ids)
}

/// The texts that don't depend on the classes.
fn fixed_texts(alloc: Global) -> Result<Words, NoMemory>
    ensures ok { IfOk result (λ texts. texts ≡ fixed_texts) }
{
    let mut texts = Words::new(alloc);
    texts.push("root")?;
    texts.push("metadata")?;
    texts.push("class")?;
    texts.push("name")?;
    texts.push("id")?;
    texts.push("superType")?;
    texts.push("jdk.jfr.Event")?;
    texts.push("field")?;
    texts.push("constantPool")?;
    texts.push("true")?;
    texts.push("dimension")?;
    texts.push("1")?;
    texts.push("region")?;
    texts.push("locale")?;
    texts.push("gmtOffset")?;
    Ok(texts)
}

/// The tree of the classes and the region. Its texts are added to the strings.
fn root_of(
    alloc: Global,
    strings: &mut Words,
    classes: &Classes,
    region: Option<&Region<'_>>,
) -> Result<Element, NoMemory>
    requires fixed { strings.old ≡ fixed_texts }
    ensures tree { IfOk result (λ root. root ≡ (body_of classes.now (option_map (λ r. r.now) region.entry)).root) }
    ensures strings { OnOk result (strings.new ≡ (body_of classes.now (option_map (λ r. r.now) region.entry)).strings) }
{
    let mut elements = Elements::new(alloc);
    for class in classes.as_slice() {
        let element = class_element(alloc, strings, class)?;
        elements.push(element)?;
    }
    let mut children = Elements::new(alloc);
    children.push(Element::new(0, METADATA, Pairs::new(alloc), elements))?;
    push_region(alloc, &mut children, strings, region)?;
    Ok(Element::new(0, ROOT, Pairs::new(alloc), children))
}

/// Adds the element of the region, if there is one. Its texts are added to the strings.
fn push_region(
    alloc: Global,
    children: &mut Elements,
    strings: &mut Words,
    region: Option<&Region<'_>>,
) -> Result<(), NoMemory>
    ensures trees { OnOk result (children.new ≡ children.old ++ region_trees (length strings.old) (option_map (λ r. r.now) region.entry)) }
    ensures strings { OnOk result (strings.new ≡ strings.old ++ region_texts (option_map (λ r. r.now) region.entry)) }
{
    let Some(region) = region else {
        return Ok(());
    };
    let mut attributes = Pairs::new(alloc);
    attributes.push(LOCALE, strings.len() as u64)?;
    strings.push_text(region.locale.to_text(alloc)?)?;
    attributes.push(GMT_OFFSET, strings.len() as u64)?;
    strings.push_text(region.offset.to_text(alloc)?)?;
    children.push(Element::new(0, REGION, attributes, Elements::new(alloc)))
}

/// A class element. Its texts are added to the strings.
fn class_element(alloc: Global, strings: &mut Words, class: &ClassInfo) -> Result<Element, NoMemory>
    ensures tree { IfOk result (λ element. element ≡ class_tree (length strings.old) class.now) }
    ensures strings { OnOk result (strings.new ≡ strings.old ++ class_texts class.now) }
{
    let mut attributes = Pairs::new(alloc);
    attributes.push(NAME, strings.len() as u64)?;
    strings.push_text(class.name.share()?)?;
    attributes.push(ID, strings.len() as u64)?;
    strings.push_text(decimal(alloc, class.id)?)?;
    push_super(&mut attributes, &class.super_name)?;
    let mut children = Elements::new(alloc);
    for field in class.fields.as_slice() {
        let element = field_element(alloc, strings, field)?;
        children.push(element)?;
    }
    Ok(Element::new(0, CLASS, attributes, children))
}

/// Adds the attribute of the super type, if there is one.
fn push_super(attributes: &mut Pairs, super_name: &Option<Text>) -> Result<(), NoMemory>
    ensures ok { OnOk result (attributes.new ≡ attributes.old ++ super_pairs super_name.now) }
{
    match super_name {
        None => Ok(()),
        Some(_) => attributes.push(SUPER_TYPE, EVENT),
    }
}

/// A field element. Its texts are added to the strings.
fn field_element(alloc: Global, strings: &mut Words, field: &FieldInfo) -> Result<Element, NoMemory>
    ensures tree { IfOk result (λ element. element ≡ field_tree (length strings.old) field.now) }
    ensures strings { OnOk result (strings.new ≡ strings.old ++ field_texts field.now) }
{
    let mut attributes = Pairs::new(alloc);
    attributes.push(NAME, strings.len() as u64)?;
    strings.push_text(field.name.share()?)?;
    attributes.push(CLASS, strings.len() as u64)?;
    strings.push_text(decimal(alloc, field.shape.class)?)?;
    push_marks(&mut attributes, field.shape)?;
    Ok(Element::new(0, FIELD, attributes, Elements::new(alloc)))
}

/// Adds the attributes of the marks.
fn push_marks(attributes: &mut Pairs, shape: Shape) -> Result<(), NoMemory>
    ensures ok { OnOk result (attributes.new ≡ attributes.old ++ mark_pairs shape.constant shape.array) }
{
    if shape.constant {
        attributes.push(CONSTANT_POOL, TRUE)?;
    }
    if shape.array {
        attributes.push(DIMENSION, ONE)?;
    }
    Ok(())
}

/// A number in decimal.
fn decimal(alloc: Global, number: u64) -> Result<Text, NoMemory>
    ensures ok { IfOk result (λ text. text ≡ decimal number) }
{
    Text::from_string(format!(in alloc; "{number}")?)
}
