//! Fused fields, which a walk passes at once.
ghost use Rattle.std.specs.Prelude.{◌≡◌, ℕ, ◌+◌, ◌<◌, ◌≤◌, List, length, slice_get, IfOk, IfSome};
ghost use Rattle.jfr_layout.specs.declared.form.Form.TheVariants as forms;
ghost use Rattle.jfr_layout.specs.declared.field_layout.FieldLayout.{FieldLayout};
ghost use Rattle.jfr_layout.specs.Fused.{AreIntegers, AreFused, BeginsAt, Passes};

use crate::{FieldLayout, Form};
use jfr_base::NoMemory;
use std::alloc::Global;

/// The largest number of fields that are fused.
const MOST: usize = 4;

/// Consecutive fields of a class that a walk over many values passes at once.
#[derive(Clone, Copy, Debug, PartialEq, Eq)]
pub struct FusedFields {
    /// The number of the first field.
    pub first: usize,
    /// The number of fields.
    pub fields: usize,
    /// How their values are spelled.
    pub kind: FusedKind,
}

/// How the values of fused fields are spelled.
#[derive(Clone, Copy, Debug, PartialEq, Eq)]
pub enum FusedKind {
    /// The event prelude: two integers and two references, of these classes. In most of the JDK's events
    /// they are start, duration, thread and stack trace.
    EventPrelude { thread: u32, trace: u32 },
    /// A field of one compressed integer.
    OneInteger,
    /// Two fields, each of one compressed integer.
    TwoIntegers,
    /// Three fields, each of one compressed integer.
    ThreeIntegers,
    /// Four fields, each of one compressed integer.
    FourIntegers,
    /// One field or more with this many raw bytes in all.
    Raw(u8),
    /// A key into the constant pool of a class.
    Key(u64),
    /// A string of a class.
    Text(u64),
    /// A field of any form.
    Any,
}

/// All fields of a class, in groups of fused fields.
pub(crate) fn fused_of(alloc: Global, layouts: &[FieldLayout]) -> Result<Vec<FusedFields>, NoMemory>
    ensures { IfOk result (λ fused_fields. AreFused layouts.now fused_fields.items) }
{
    let mut fused_fields = Vec::new(alloc);
    let mut first = 0;
    'fused_fields: while first < layouts.len() {
        let fused = fused_from(layouts, first);
        fused_fields.push(fused)?;
        first += fused.fields;
    }
    Ok(fused_fields)
}

/// The fused fields that start with the field with this number.
fn fused_from(layouts: &[FieldLayout], first: usize) -> FusedFields
    requires { first < length layouts.now }
    ensures { BeginsAt layouts.now first result }
{
    if let Some(front) = prelude_from(layouts, first) {
        return front;
    }
    let layout = layouts[first];
    match layout.form {
        Form::Integer => integers_from(layouts, first),
        Form::Raw(count) => raw_from(layouts, first, count),
        Form::Key => fused_one(first, FusedKind::Key(layout.shape.class)),
        Form::Text => fused_one(first, FusedKind::Text(layout.shape.class)),
        Form::Fields | Form::Array => fused_one(first, FusedKind::Any),
    }
}

/// One field by itself.
fn fused_one(first: usize, kind: FusedKind) -> FusedFields
    ensures { result ≡ record { first = first; fields = 1; kind = kind } }
{
    FusedFields {
        first,
        fields: 1,
        kind,
    }
}

/// The event prelude, if one starts with the field with this number. Its class ids have to fit in 32 bits,
/// which keeps `FusedFields` small.
fn prelude_from(layouts: &[FieldLayout], first: usize) -> Option<FusedFields>
    requires { first < length layouts.now }
    ensures { IfSome result (BeginsAt layouts.now first) }
{
    if layouts.len() - first < MOST {
        return None;
    }
    let thread = layouts[first + 2];
    let trace = layouts[first + 3];
    match (
        layouts[first].form,
        layouts[first + 1].form,
        thread.form,
        trace.form,
    ) {
        (Form::Integer, Form::Integer, Form::Key, Form::Key) => {}
        _ => return None,
    }
    Some(FusedFields {
        first,
        fields: MOST,
        kind: FusedKind::EventPrelude {
            thread: u32::try_from(thread.shape.class).ok()?,
            trace: u32::try_from(trace.shape.class).ok()?,
        },
    })
}

/// The fields of integers from the field with this number on, at most four.
fn integers_from(layouts: &[FieldLayout], first: usize) -> FusedFields
    requires within { first < length layouts.now }
    requires integer { IfSome (slice_get layouts.now first) (λ s. s.form ≡ forms.Integer) }
    ensures { BeginsAt layouts.now first result }
{
    let most = (layouts.len() - first).min(MOST);
    let mut fields = 1;
    'fields: while fields < most {
        match layouts[first + fields].form {
            Form::Integer => fields += 1,
            _ => break 'fields,
        }
    }
    FusedFields {
        first,
        fields,
        kind: fused_integers(fields),
    }
}

/// The kind of `count` integers.
fn fused_integers(count: usize) -> FusedKind
    requires { (1 ≤ count) × (count ≤ 4) }
    ensures { (layouts : List FieldLayout) → AreIntegers count layouts → Passes result layouts }
{
    match count {
        1 => FusedKind::OneInteger,
        2 => FusedKind::TwoIntegers,
        3 => FusedKind::ThreeIntegers,
        _ => FusedKind::FourIntegers,
    }
}

/// The fields of raw bytes from the field with this number on, at most four; the first has `bytes` of them.
fn raw_from(layouts: &[FieldLayout], first: usize, bytes: u8) -> FusedFields
    requires within { first < length layouts.now }
    requires raw { IfSome (slice_get layouts.now first) (λ s. s.form ≡ forms.Raw bytes) }
    ensures { BeginsAt layouts.now first result }
{
    let most = (layouts.len() - first).min(MOST);
    let mut fields = 1;
    let mut count = bytes;
    'fields: while fields < most {
        let Some(sum) = with_raw(count, layouts[first + fields].form) else {
            break 'fields;
        };
        count = sum;
        fields += 1;
    }
    FusedFields {
        first,
        fields,
        kind: FusedKind::Raw(count),
    }
}

/// The sum of `bytes` and the raw bytes of one more field, if it has raw bytes and the sum is below 256.
fn with_raw(bytes: u8, form: Form) -> Option<u8>
    ensures { IfSome result (λ sum. (more : ℕ) × (form ≡ forms.Raw more) × (sum ≡ bytes + more)) }
{
    match form {
        Form::Raw(more) => bytes.checked_add(more),
        _ => None,
    }
}
