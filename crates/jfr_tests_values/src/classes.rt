//! Classes, made from lines.
use jfr_layout::{ClassFault, ClassInfo, ClassList, Classes, FieldInfo, Fields, Shape};
use jfr_outside::{NoMemory, Text, Words};
use std::alloc::Global;

/// What a field has of a class, whose id this is.
#[derive(Clone, Copy)]
pub(crate) enum Has {
    /// An inline value.
    Inline(u64),
    /// An array of inline values.
    Items(u64),
    /// A reference to a constant.
    Reference(u64),
    /// An array of references to constants.
    References(u64),
}

/// The shape of a field that has this.
pub(crate) fn shape(has: Has) -> Shape {
    let (class, constant, array) = match has {
        Has::Inline(class) => (class, false, false),
        Has::Items(class) => (class, false, true),
        Has::Reference(class) => (class, true, false),
        Has::References(class) => (class, true, true),
    };
    Shape {
        class,
        constant,
        array,
    }
}

/// A field: its name, and what it has.
pub(crate) type FieldLine = (&'static str, Has);

/// A class: its id, its name, the name of its super type, and its fields.
pub(crate) type ClassLine = (
    u64,
    &'static str,
    Option<&'static str>,
    &'static [FieldLine],
);

/// The super type of events.
pub(crate) const EVENT: Option<&str> = Some("jdk.jfr.Event");

/// The classes of these lines.
pub(crate) fn classes_of(alloc: Global, lines: &[ClassLine]) -> Result<Classes, ClassFault> {
    let mut list = ClassList::new(alloc);
    add_all(&mut list, alloc, lines)?;
    Classes::make(alloc, list)
}

/// Adds a class for each of these lines.
fn add_all(list: &mut ClassList, alloc: Global, lines: &[ClassLine]) -> Result<(), NoMemory> {
    for (id, name, super_name, fields) in lines {
        add(list, alloc, *id, name, *super_name, fields)?;
    }
    Ok(())
}

/// Adds a class with these fields.
pub(crate) fn add(
    list: &mut ClassList,
    alloc: Global,
    id: u64,
    name: &str,
    super_name: Option<&str>,
    fields: &[(&str, Has)],
) -> Result<(), NoMemory> {
    list.push(class_of(alloc, id, name, super_name, fields)?)
}

/// A class with these fields.
fn class_of(
    alloc: Global,
    id: u64,
    name: &str,
    super_name: Option<&str>,
    fields: &[(&str, Has)],
) -> Result<ClassInfo, NoMemory> {
    let mut class = bare_class(alloc, id, name, super_name)?;
    add_fields(&mut class.fields, alloc, fields)?;
    Ok(class)
}

/// A class without fields.
fn bare_class(
    alloc: Global,
    id: u64,
    name: &str,
    super_name: Option<&str>,
) -> Result<ClassInfo, NoMemory> {
    let super_name = text_of(alloc, super_name)?;
    Ok(ClassInfo {
        id,
        name: Text::make(alloc, name)?,
        super_name,
        fields: Fields::new(alloc),
        categories: Words::new(alloc),
    })
}

/// The text of a name, if there is one.
fn text_of(alloc: Global, name: Option<&str>) -> Result<Option<Text>, NoMemory> {
    match name {
        Some(name) => Ok(Some(Text::make(alloc, name)?)),
        None => Ok(None),
    }
}

/// Adds a field for each of these lines.
fn add_fields(fields: &mut Fields, alloc: Global, lines: &[(&str, Has)]) -> Result<(), NoMemory> {
    for (name, has) in lines {
        fields.push(field_of(alloc, name, *has)?)?;
    }
    Ok(())
}

/// A field with this name, which has this.
fn field_of(alloc: Global, name: &str, has: Has) -> Result<FieldInfo, NoMemory> {
    Ok(FieldInfo {
        name: Text::make(alloc, name)?,
        shape: shape(has),
    })
}
