//! The masked fields of a chunk's classes.
ghost use Rattle.std.specs.Prelude.{◌≡◌, ◌&&◌, Bool, false, IfOk, [], get_or, map, string_bytes};
ghost use Rattle.std.specs.List.{list_any};
ghost use Rattle.std.specs.Option.{option_map_or};
ghost use Rattle.std.specs.Str.{chars};
ghost use Rattle.jfr_layout.specs.declared.class.FieldInfo.{FieldInfo};
ghost use Rattle.jfr_mask.specs.Fields.{full_name, is_masked, is_masked_field, is_string, masks_of};

use jfr_base::NoMemory;
use jfr_filter::Patterns;
use jfr_layout::{ClassInfo, Classes, FieldInfo, Kind};
use std::alloc::Global;
use std::marker::Model;

/// Which fields of each class are masked, and whether the constants of `java.lang.String` are.
#[derive(Drop)]
pub struct MaskedFields {
    fields: Vec<Vec<bool>>,
    constants: bool,
}

impl Model for MaskedFields {
    ghost use Rattle.std.specs.Prelude.{map};
    ghost use Rattle.jfr_mask.specs.Fields.{Masks};

    ghost Value = { Masks };

    ghost view = { λ m. record { fields = map (λ flags. flags.items) m.fields.items; constants = m.constants } };
}

impl MaskedFields {
    /// The masked fields of these classes: those of class `java.lang.String` whose full name, as `jdk.FileRead.path`,
    /// a pattern of `strings` matches, and none of `except`, if it is given.
    pub fn of(
        alloc: Global,
        strings: &Patterns,
        except: Option<&Patterns>,
        classes: &Classes,
    ) -> Result<MaskedFields, NoMemory>
        ensures ok { IfOk result (λ masked. masked ≡ masks_of strings.now (option_map_or (λ p. p.now) except.entry []) classes.now) }
    {
        let selector = Selector {
            strings,
            except,
            classes,
        };
        let mut fields = Vec::with_capacity(alloc, classes.len())?;
        let mut constants = false;
        for class in classes.as_slice() {
            let masked = selector.class_masks(alloc, class)?;
            constants |= has_constant(class, &masked);
            fields.push(masked)?;
        }
        Ok(MaskedFields { fields, constants })
    }

    /// Whether the field with this number, of the class with this index, is masked.
    pub fn has(&self, index: usize, number: usize) -> bool
        ensures { result ≡ is_masked_field self.now index number }
    {
        match self.fields.get(index) {
            Some(masked) => flag_at(masked, number),
            None => false,
        }
    }

    /// Whether the constants of `java.lang.String` are masked.
    pub fn has_constants(&self) -> bool
        ensures { result ≡ self.now.constants }
    {
        self.constants
    }
}

/// The flag with this index; false past the end.
pub(crate) fn flag_at(flags: &[bool], at: usize) -> bool
    ensures { result ≡ get_or flags.now at false }
{
    match flags.get(at) {
        Some(flag) => *flag,
        None => false,
    }
}

/// The patterns of fields that are masked and of those that aren't, and the classes.
#[derive(Clone, Copy)]
struct Selector<'c> {
    strings: &'c Patterns,
    except: Option<&'c Patterns>,
    classes: &'c Classes,
}

impl<'c> Selector<'c> {
    /// For each field of a class, whether it is masked.
    fn class_masks(&self, alloc: Global, class: &ClassInfo) -> Result<Vec<bool>, NoMemory>
        ensures ok { IfOk result (λ masked. masked.items ≡ map (is_masked self.now.strings.now (option_map_or (λ p. p.now) self.now.except []) self.now.classes.now class.now) class.now.fields) }
    {
        let mut masked = Vec::with_capacity(alloc, class.fields.len())?;
        for field in class.fields.as_slice() {
            let is_masked = self.is_masked(alloc, class, field)?;
            masked.push(is_masked)?;
        }
        Ok(masked)
    }

    /// Whether a field of a class is masked.
    fn is_masked(
        &self,
        alloc: Global,
        class: &ClassInfo,
        field: &FieldInfo,
    ) -> Result<bool, NoMemory>
        ensures ok { IfOk result (λ masked. masked ≡ is_masked self.now.strings.now (option_map_or (λ p. p.now) self.now.except []) self.now.classes.now class.now field.now) }
    {
        if !self.is_string(field) {
            return Ok(false);
        }
        let name = full_name(alloc, class, field)?;
        if !self.strings.matches(name.as_str()) {
            return Ok(false);
        }
        match self.except {
            Some(except) => Ok(!except.matches(name.as_str())),
            None => Ok(true),
        }
    }

    /// Whether the field's class is `java.lang.String`.
    fn is_string(&self, field: &FieldInfo) -> bool
        ensures { result ≡ is_string self.now.classes.now field.now }
    {
        match self.classes.kind(field.shape.class) {
            Some(kind) => kind == Kind::Text,
            None => false,
        }
    }
}

/// The name of the class, a dot, and the name of the field.
fn full_name(alloc: Global, class: &ClassInfo, field: &FieldInfo) -> Result<String, NoMemory>
    ensures ok { IfOk result (λ name. chars (string_bytes name) ≡ full_name class.now field.now) }
{
    let mut name = String::from_str(alloc, class.name.as_str())?;
    name.push('.')?;
    name.push_str(field.name.as_str())?;
    Ok(name)
}

/// Whether a masked field of the class has the constant mark.
fn has_constant(class: &ClassInfo, masked: &[bool]) -> bool
    ensures { (f : FieldInfo → Bool) → masked.now ≡ map f class.now.fields → result ≡ list_any (λ field. field.shape.constant && f field) class.now.fields }
{
    for (number, field) in class.fields.as_slice().iter().enumerate() {
        if is_masked_constant(field, flag_at(masked, number)) {
            return true;
        }
    }
    false
}

/// Whether the field has the constant mark and is masked.
fn is_masked_constant(field: &FieldInfo, is_masked: bool) -> bool
    ensures { result ≡ (field.now.shape.constant && is_masked) }
{
    field.shape.constant && is_masked
}
