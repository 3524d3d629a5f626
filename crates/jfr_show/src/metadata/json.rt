//! The metadata of a chunk as JSON.
ghost use Rattle.std.specs.Prelude.{◌≡◌, ◌++◌, IfOk, OnOk, map, string_bytes};
ghost use Rattle.serde_json.specs.Data.{array};
ghost use Rattle.serde_json.specs.View.{items_of};
ghost use Rattle.serde_json.specs.Written.{compact_text};
ghost use Rattle.jfr_show.specs.Json.{json_line, text_json};
ghost use Rattle.jfr_show.specs.Metadata.{class_json, field_json, metadata_json, super_json};

use crate::TextBuilder;
use crate::json::{push_comma, push_flag, push_null, push_number, push_string};
use crate::reference::class_name;
use jfr_base::{NoMemory, Text, Words};
use jfr_chunk::Chunk;
use jfr_layout::{ClassInfo, FieldInfo, Fields};
use std::alloc::Global;

/// The lines of JSON of a chunk's classes: an object for each class, with the chunk's number and the class's
/// categories and fields.
pub fn metadata_json(alloc: Global, chunk: &Chunk<'_>, number: u64) -> Result<Text, NoMemory>
    ensures ok { IfOk result (λ text. text ≡ metadata_json chunk.now number) }
{
    let mut out = TextBuilder::new(alloc);
    show_metadata_json(alloc, chunk, number, &mut out)?;
    out.into_text()
}

/// Adds the lines of JSON of a chunk's classes.
pub fn show_metadata_json(
    alloc: Global,
    chunk: &Chunk<'_>,
    number: u64,
    out: &mut TextBuilder,
) -> Result<(), NoMemory>
    ensures ok { OnOk result (out.new ≡ out.old ++ metadata_json chunk.now number) }
{
    let classes = chunk.classes();
    for class in classes.as_slice() {
        show_class(alloc, chunk, number, class, out)?;
    }
    Ok(())
}

// Adds the line of a class.
fn show_class(
    alloc: Global,
    chunk: &Chunk<'_>,
    number: u64,
    class: &ClassInfo,
    out: &mut TextBuilder,
) -> Result<(), NoMemory>
    ensures ok { OnOk result (out.new ≡ out.old ++ json_line (class_json number chunk.now.classes class.now)) }
{
    let mut line = String::new(alloc);
    push_class(alloc, chunk, number, class, &mut line)?;
    out.push_line(line.as_str())
}

// Adds the object of a class.
fn push_class(
    alloc: Global,
    chunk: &Chunk<'_>,
    number: u64,
    class: &ClassInfo,
    out: &mut String,
) -> Result<(), NoMemory>
    ensures ok { OnOk result (string_bytes out.new ≡ string_bytes out.old ++ compact_text (class_json number chunk.now.classes class.now)) }
{
    out.push_str("{\"chunk\":")?;
    push_number(number, out)?;
    out.push_str(",\"name\":")?;
    push_string(alloc, class.name.as_str(), out)?;
    out.push_str(",\"id\":")?;
    push_number(class.id, out)?;
    out.push_str(",\"super\":")?;
    push_super(alloc, &class.super_name, out)?;
    out.push_str(",\"categories\":")?;
    push_categories(alloc, &class.categories, out)?;
    out.push_str(",\"fields\":")?;
    push_fields(alloc, chunk, &class.fields, out)?;
    out.push_str("}")?;
    Ok(())
}

// Adds the name of a super type, or null.
fn push_super(alloc: Global, name: &Option<Text>, out: &mut String) -> Result<(), NoMemory>
    ensures ok { OnOk result (string_bytes out.new ≡ string_bytes out.old ++ compact_text (super_json name.now)) }
{
    match name {
        Some(name) => push_string(alloc, name.as_str(), out),
        None => push_null(out),
    }
}

// Adds an array of a class's categories.
fn push_categories(alloc: Global, categories: &Words, out: &mut String) -> Result<(), NoMemory>
    ensures ok { OnOk result (string_bytes out.new ≡ string_bytes out.old ++ compact_text (array (items_of (map text_json categories.now)))) }
{
    out.push_str("[")?;
    let mut later = false;
    for category in categories.as_slice() {
        push_comma(later, out)?;
        push_string(alloc, category.as_str(), out)?;
        later = true;
    }
    out.push_str("]")?;
    Ok(())
}

// Adds an array with an object for each field.
fn push_fields(
    alloc: Global,
    chunk: &Chunk<'_>,
    fields: &Fields,
    out: &mut String,
) -> Result<(), NoMemory>
    ensures ok { OnOk result (string_bytes out.new ≡ string_bytes out.old ++ compact_text (array (items_of (map (field_json chunk.now.classes) fields.now)))) }
{
    out.push_str("[")?;
    let mut later = false;
    for field in fields.as_slice() {
        push_comma(later, out)?;
        push_field(alloc, chunk, field, out)?;
        later = true;
    }
    out.push_str("]")?;
    Ok(())
}

// Adds the object of a field.
fn push_field(
    alloc: Global,
    chunk: &Chunk<'_>,
    field: &FieldInfo,
    out: &mut String,
) -> Result<(), NoMemory>
    ensures ok { OnOk result (string_bytes out.new ≡ string_bytes out.old ++ compact_text (field_json chunk.now.classes field.now)) }
{
    out.push_str("{\"name\":")?;
    push_string(alloc, field.name.as_str(), out)?;
    out.push_str(",\"class\":")?;
    push_string(alloc, class_name(chunk, field.shape.class), out)?;
    out.push_str(",\"class_id\":")?;
    push_number(field.shape.class, out)?;
    out.push_str(",\"constant\":")?;
    push_flag(field.shape.constant, out)?;
    out.push_str(",\"array\":")?;
    push_flag(field.shape.array, out)?;
    out.push_str("}")?;
    Ok(())
}
