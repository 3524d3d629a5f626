//! Classes whose values have no masked string. Most classes are plain, and their values needn't be searched.
ghost use Rattle.std.specs.Prelude.{◌≡◌, ◌<◌, ℕ, false, get_or, length, slice_get, Some, IfOk, IfSome, IsTrue};
ghost use Rattle.jfr_layout.specs.declared.field_layout.FieldLayout.{FieldLayout};
ghost use Rattle.jfr_layout.specs.Classes.{class_index};
ghost use Rattle.jfr_mask.specs.Plain.{ArePlain, ClassIsPlain, IsPlain, IsRightAt, LayoutIsPlain};

use crate::MaskedFields;
use crate::fields::flag_at;
use jfr_base::NoMemory;
use jfr_layout::{Classes, FieldLayout, Kind};
use std::alloc::Global;

/// The flags are right after at most 33 rounds, since a class begins no chain of more than 32 inline steps, and they are
/// looked at before each round.
const ROUNDS: usize = 34;

/// For each class, whether its values have no masked string: a flag for each index.
#[derive(Drop)]
pub(crate) struct PlainClasses {
    flags: Vec<bool>,
}

impl PlainClasses {
    /// The plain ones of these classes. Each starts as plain, and loses its flag once it has a masked field, or a field
    /// of a class without the flag.
    pub(crate) fn of(
        alloc: Global,
        masked: &MaskedFields,
        classes: &Classes,
    ) -> Result<PlainClasses, NoMemory>
        ensures ok { IfOk result (λ plain. ArePlain masked.now classes.now plain.flags.items) }
    {
        let mut flags = Vec::new(alloc);
        flags.resize(classes.len(), true)?;
        for _ in 0..ROUNDS {
            if are_right(flags.as_slice(), masked, classes) {
                return Ok(PlainClasses { flags });
            }
            clear_round(&mut flags, masked, classes);
        }
        // Not reached in practice. That no class is plain is right in any case.
        Ok(PlainClasses {
            flags: Vec::new(alloc),
        })
    }

    /// Whether the values of the class with this index have no masked string.
    pub(crate) fn is_plain(&self, index: usize) -> bool
        ensures { result ≡ get_or self.now.flags.items index false }
    {
        flag_at(self.flags.as_slice(), index)
    }

    /// Whether all classes are plain.
    pub(crate) fn are_all(&self, classes: &Classes) -> bool
        ensures { IsTrue result → (index : ℕ) → index < length classes.now → IsPlain self.now.flags.items index }
    {
        for index in 0..classes.len() {
            if !self.is_plain(index) {
                return false;
            }
        }
        true
    }

    /// Whether this is the id of a class whose values have no masked string.
    pub(crate) fn has_id(&self, classes: &Classes, id: u64) -> bool
        ensures { IsTrue result → (index : ℕ) × (class_index classes.now id ≡ Some index) × IsPlain self.now.flags.items index }
    {
        match classes.index_of(id) {
            Some(index) => self.is_plain(index),
            None => false,
        }
    }
}

/// Whether each class with the flag is plain, by these flags.
fn are_right(flags: &[bool], masked: &MaskedFields, classes: &Classes) -> bool
    ensures { IsTrue result → ArePlain masked.now classes.now flags.now }
{
    for index in 0..classes.len() {
        if !is_right_at(flags, masked, classes, index) {
            return false;
        }
    }
    true
}

/// Whether the class with this index is plain, if it has the flag.
fn is_right_at(flags: &[bool], masked: &MaskedFields, classes: &Classes, index: usize) -> bool
    requires { index < length classes.now }
    ensures { IsTrue result → IsRightAt masked.now classes.now flags.now index }
{
    if !flag_at(flags, index) {
        return true;
    }
    is_plain_class(flags, masked, classes, index)
}

/// Takes the flag from each class that isn't plain.
fn clear_round(flags: &mut Vec<bool>, masked: &MaskedFields, classes: &Classes)
    ensures { length flags.new.items ≡ length flags.old.items }
{
    for index in 0..classes.len() {
        if !is_right_at(flags.as_slice(), masked, classes, index) {
            clear(flags, index);
        }
    }
}

/// Takes a flag.
fn clear(flags: &mut Vec<bool>, index: usize)
    ensures { length flags.new.items ≡ length flags.old.items }
{
    if index < flags.len() {
        flags[index] = false;
    }
}

/// Whether the class with this index is plain, by the flags of the classes of its fields.
fn is_plain_class(flags: &[bool], masked: &MaskedFields, classes: &Classes, index: usize) -> bool
    requires { index < length classes.now }
    ensures { IsTrue result → IfSome (slice_get classes.now index) (ClassIsPlain masked.now classes.now flags.now index) }
{
    match classes.kind_at(index) {
        Kind::Composite => are_plain_fields(flags, masked, index, classes.layouts(index)),
        Kind::Text => !masked.has_constants(),
        _ => true,
    }
}

/// Whether the fields with these layouts, of the class with this index, are plain.
fn are_plain_fields(
    flags: &[bool],
    masked: &MaskedFields,
    index: usize,
    layouts: &[FieldLayout],
) -> bool
    ensures { IsTrue result → (number : ℕ) (s : FieldLayout) → slice_get layouts.now number ≡ Some s → LayoutIsPlain masked.now flags.now index number s }
{
    for (number, layout) in layouts.iter().enumerate() {
        if !is_plain_field(flags, masked, index, number, layout) {
            return false;
        }
    }
    true
}

/// Whether the field with this number and this layout is plain.
fn is_plain_field(
    flags: &[bool],
    masked: &MaskedFields,
    index: usize,
    number: usize,
    layout: &FieldLayout,
) -> bool
    ensures { IsTrue result → LayoutIsPlain masked.now flags.now index number layout.now }
{
    if layout.shape.constant {
        return true;
    }
    if masked.has(index, number) {
        return false;
    }
    match layout.kind {
        Kind::Composite => flag_at(flags, layout.class_index),
        _ => true,
    }
}
