//! The metadata of a chunk as text.
ghost use Rattle.std.specs.Prelude.{◌≡◌, ◌++◌, [], IfOk, IsTrue, OnOk, if◌then◌else◌};
ghost use Rattle.jfr_show.specs.Metadata.{categories_line, class_line, class_lines, field_line, metadata_shown, super_part};
ghost use Rattle.jfr_show.specs.Names.{class_name};
ghost use Rattle.jfr_show.specs.Texts.{is_ascii};

mod json;

use crate::TextBuilder;
use crate::quoted::push_quoted;
use jfr_base::{NoMemory, Text, Words};
use jfr_chunk::Chunk;
use jfr_layout::{ClassInfo, Classes, FieldInfo};
pub use json::{metadata_json, show_metadata_json};
use std::alloc::Global;

/// The text of a chunk's classes: a line with the chunk's number, then a line for each class, for its
/// categories, and for each of its fields.
pub fn metadata_text(alloc: Global, chunk: &Chunk<'_>, number: u64) -> Result<Text, NoMemory>
    ensures ok { IfOk result (λ text. text ≡ metadata_shown chunk.now number) }
{
    let mut out = TextBuilder::new(alloc);
    show_metadata(chunk, number, &mut out)?;
    out.into_text()
}

/// Adds the text of a chunk's classes.
pub fn show_metadata(chunk: &Chunk<'_>, number: u64, out: &mut TextBuilder) -> Result<(), NoMemory>
    ensures ok { OnOk result (out.new ≡ out.old ++ metadata_shown chunk.now number) }
{
    out.push_ascii("chunk ")?;
    out.push_number(number)?;
    out.push_ascii("\n")?;
    let classes = chunk.classes();
    for class in classes.as_slice() {
        show_class(classes, class, out)?;
    }
    Ok(())
}

/// Adds all lines of a class.
fn show_class(classes: &Classes, class: &ClassInfo, out: &mut TextBuilder) -> Result<(), NoMemory>
    ensures ok { OnOk result (out.new ≡ out.old ++ class_lines classes.now class.now) }
{
    show_class_line(class, out)?;
    show_categories(&class.categories, out)?;
    for field in class.fields.as_slice() {
        show_field(classes, field, out)?;
    }
    Ok(())
}

/// Adds the first line of a class.
fn show_class_line(class: &ClassInfo, out: &mut TextBuilder) -> Result<(), NoMemory>
    ensures ok { OnOk result (out.new ≡ out.old ++ class_line class.now) }
{
    out.push_str(class.name.as_str())?;
    out.push_ascii(" id ")?;
    out.push_number(class.id)?;
    show_super(&class.super_name, out)?;
    out.push_ascii("\n")
}

/// Adds the name of a super type, if there is one.
fn show_super(name: &Option<Text>, out: &mut TextBuilder) -> Result<(), NoMemory>
    ensures ok { OnOk result (out.new ≡ out.old ++ super_part name.now) }
{
    match name {
        Some(name) => {
            out.push_ascii(" super ")?;
            out.push_str(name.as_str())
        }
        None => Ok(()),
    }
}

/// Adds the line of a class's categories, if it has any.
fn show_categories(categories: &Words, out: &mut TextBuilder) -> Result<(), NoMemory>
    ensures ok { OnOk result (out.new ≡ out.old ++ categories_line categories.now) }
{
    let Some((first, others)) = categories.as_slice().split_first() else {
        return Ok(());
    };
    out.push_ascii("  category ")?;
    push_quoted(first.as_str(), out)?;
    for category in others {
        out.push_ascii(", ")?;
        push_quoted(category.as_str(), out)?;
    }
    out.push_ascii("\n")
}

fn show_field(classes: &Classes, field: &FieldInfo, out: &mut TextBuilder) -> Result<(), NoMemory>
    ensures ok { OnOk result (out.new ≡ out.old ++ field_line classes.now field.now) }
{
    out.push_ascii("  ")?;
    out.push_str(field.name.as_str())?;
    out.push_ascii(": ")?;
    show_class_name(classes, field.shape.class, out)?;
    push_if(field.shape.array, "[]", out)?;
    push_if(field.shape.constant, " constant", out)?;
    out.push_ascii("\n")
}

/// Adds the name of the class with this id.
fn show_class_name(classes: &Classes, id: u64, out: &mut TextBuilder) -> Result<(), NoMemory>
    ensures ok { OnOk result (out.new ≡ out.old ++ class_name classes.now id) }
{
    match classes.find(id) {
        Some(class) => out.push_str(class.name.as_str()),
        None => Ok(()),
    }
}

/// Adds a text if the flag is set.
fn push_if(holds: bool, text: &str, out: &mut TextBuilder) -> Result<(), NoMemory>
    requires ascii { IsTrue (is_ascii text.now) }
    ensures ok { OnOk result (out.new ≡ out.old ++ (if holds then text.now else [])) }
{
    if holds { out.push_ascii(text) } else { Ok(()) }
}
