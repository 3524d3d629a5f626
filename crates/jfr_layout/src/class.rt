//! Classes and their fields, as a chunk's metadata lists them.
ghost use Rattle.std.specs.Prelude.{◌≡◌, [], ◌∷◌, ◌++◌, ◌<◌, ◌↔◌, length, IsTrue, OnOk, OnErr, slice_get};
ghost use Rattle.std.specs.Option.{option_copied};
ghost use Rattle.std.specs.Str.{chars};

use crate::{Shape, is_text};
use jfr_base::{NoMemory, Text, Words};
use std::alloc::Global;
use std::marker::Model;

/// A field of a class (docs/FORMAT.md, Classes and shapes).
#[derive(Drop)]
pub struct FieldInfo {
    /// Its name. In sound classes no other field of the class has it.
    pub name: Text,
    /// Its class, with the constant and the array mark.
    pub shape: Shape,
}

/// The fields of a class, in order.
#[derive(Drop)]
pub struct Fields {
    items: Vec<FieldInfo>,
}

impl Model for Fields {
    ghost use Rattle.std.specs.Prelude.{List};
    ghost use Rattle.jfr_layout.specs.declared.class.FieldInfo.{FieldInfo};

    ghost Value = { List FieldInfo };

    ghost view = { λ fields. fields.items.items };
}

impl Fields {
    ghost use Rattle.jfr_layout.specs.Classes.{field_number};

    /// An empty list. It allocates nothing.
    pub fn new(alloc: Global) -> Fields
        ensures { result ≡ [] }
    {
        Fields {
            items: Vec::new(alloc),
        }
    }

    /// Adds the field at the end.
    pub fn push(&mut self, field: FieldInfo) -> Result<(), NoMemory>
        ensures ok { OnOk result (self.new ≡ self.old ++ field ∷ []) }
        ensures unchanged { OnErr result (self.new ≡ self.old) }
    {
        self.items.push(field)?;
        Ok(())
    }

    /// The fields, in order.
    pub fn as_slice(&self) -> &[FieldInfo]
        ensures { result.now ≡ self.now }
    {
        self.items.as_slice()
    }

    /// The number of fields.
    pub fn len(&self) -> usize
        ensures { result ≡ length self.now }
    {
        self.items.len()
    }

    /// Whether there is no field.
    pub fn is_empty(&self) -> bool
        ensures { IsTrue result ↔ (self.now ≡ []) }
    {
        self.items.is_empty()
    }

    /// The field with this number, from 0.
    pub fn at(&self, at: usize) -> &FieldInfo
        requires { at < length self.now }
        ensures { slice_get self.now at ≡ Some result.now }
    {
        &self.items[at]
    }

    /// The field with this number, from 0, if there is one.
    pub fn get(&self, at: usize) -> Option<&FieldInfo>
        ensures { option_copied result ≡ slice_get self.now at }
    {
        self.items.get(at)
    }

    /// The number of the field with this name, if there is one.
    pub fn number(&self, name: &str) -> Option<usize>
        ensures { result ≡ field_number self.now (chars name.now) }
    {
        self.items
            .iter()
            .position(|field| is_text(&field.name, name))
    }
}

/// A class, as the metadata describes it.
#[derive(Drop)]
pub struct ClassInfo {
    /// The number by which records, pools and fields refer to the class.
    pub id: u64,
    /// Its name. Nine names are base names, whose values have an encoding of their own.
    pub name: Text,
    /// The name of its super type, if it has one.
    pub super_name: Option<Text>,
    /// Its fields, in order.
    pub fields: Fields,
    /// The categories of its events, the outermost first; empty if it has no category annotation.
    pub categories: Words,
}

/// Classes, in order.
#[derive(Drop)]
pub struct ClassList {
    items: Vec<ClassInfo>,
}

impl Model for ClassList {
    ghost use Rattle.std.specs.Prelude.{List};
    ghost use Rattle.jfr_layout.specs.declared.class.ClassInfo.{ClassInfo};

    ghost Value = { List ClassInfo };

    ghost view = { λ classes. classes.items.items };
}

impl ClassList {
    /// An empty list. It allocates nothing.
    pub fn new(alloc: Global) -> ClassList
        ensures { result ≡ [] }
    {
        ClassList {
            items: Vec::new(alloc),
        }
    }

    /// Adds the class at the end.
    pub fn push(&mut self, class: ClassInfo) -> Result<(), NoMemory>
        ensures ok { OnOk result (self.new ≡ self.old ++ class ∷ []) }
        ensures unchanged { OnErr result (self.new ≡ self.old) }
    {
        self.items.push(class)?;
        Ok(())
    }

    /// The classes, in order.
    pub fn as_slice(&self) -> &[ClassInfo]
        ensures { result.now ≡ self.now }
    {
        self.items.as_slice()
    }

    /// The number of classes.
    pub fn len(&self) -> usize
        ensures { result ≡ length self.now }
    {
        self.items.len()
    }

    /// Whether there is no class.
    pub fn is_empty(&self) -> bool
        ensures { IsTrue result ↔ (self.now ≡ []) }
    {
        self.items.is_empty()
    }

    /// The class with this index, from 0.
    pub fn at(&self, at: usize) -> &ClassInfo
        requires { at < length self.now }
        ensures { slice_get self.now at ≡ Some result.now }
    {
        &self.items[at]
    }

    /// The class with this index, from 0, if there is one.
    pub fn get(&self, at: usize) -> Option<&ClassInfo>
        ensures { option_copied result ≡ slice_get self.now at }
    {
        self.items.get(at)
    }
}
