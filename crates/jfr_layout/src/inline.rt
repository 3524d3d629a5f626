//! The checks of inline fields: each has bytes, and no chain of inline steps is too long.
ghost use Rattle.std.specs.Prelude.{◌≡◌, ℕ, suc, ◌<◌, length, map, IfOk, IfSome, IsSome, slice_get};
ghost use Rattle.jfr_base.specs.declared.reason.Reason.TheVariants.{EmptyInline};
ghost use Rattle.jfr_layout.specs.Classes.{ReportsFirst, flaws_in, empty_inline, is_empty_inline, deep, field_at, begins_chain, step_begins_chain};

use crate::resolved::Resolved;
use crate::{ClassFault, Kind};
use jfr_base::{NoMemory, Reason};
use std::alloc::Global;

/// A chain of this many inline steps is too long.
const TOO_MANY_STEPS: usize = 33;

/// Whether the field has inline values of a composite class without fields.
fn is_empty(classes: &Resolved, class: usize, number: usize) -> bool
    requires { IsSome (field_at classes.now class number) }
    ensures { IfSome (field_at classes.now class number) (λ f. result ≡ is_empty_inline classes.now f) }
{
    match classes.step(class, number) {
        Some(target) => classes.class_at(target).fields.len() == 0,
        None => false,
    }
}

/// Refuses a field of the class with inline values of a composite class without fields.
fn check_filled_class(classes: &Resolved, class: usize) -> Result<(), ClassFault>
    requires { class < length classes.now }
    ensures { IfSome (slice_get classes.now class) (λ c. ReportsFirst (flaws_in EmptyInline (is_empty_inline classes.now) class c.fields) result) }
{
    let fields = &classes.class_at(class).fields;
    for number in 0..fields.len() {
        if is_empty(classes, class, number) {
            return Err(ClassFault::Flawed {
                class,
                field: Some(number),
                reason: Reason::EmptyInline,
            });
        }
    }
    Ok(())
}

/// Refuses a field with inline values of a composite class without fields.
pub fn check_filled(classes: &Resolved) -> Result<(), ClassFault>
    ensures { ReportsFirst (empty_inline classes.now) result }
{
    for at in 0..classes.len() {
        check_filled_class(classes, at)?;
    }
    Ok(())
}

/// Whether the field's inline step goes to a class that begins a chain of n steps, given which classes do.
fn goes_by(classes: &Resolved, class: usize, number: usize, goes: &[bool]) -> bool
    requires field { IsSome (field_at classes.now class number) }
    requires each { length goes.now ≡ length classes.now }
    ensures { (n : ℕ) → goes.now ≡ map (begins_chain n classes.now) classes.now → IfSome (field_at classes.now class number) (λ f. result ≡ step_begins_chain n classes.now f) }
{
    match classes.step(class, number) {
        Some(target) => goes[target],
        None => false,
    }
}

/// Whether the class begins a chain of n + 1 steps, given which classes begin one of n steps.
fn goes_on(classes: &Resolved, class: usize, goes: &[bool]) -> bool
    requires within { class < length classes.now }
    requires each { length goes.now ≡ length classes.now }
    ensures { (n : ℕ) → goes.now ≡ map (begins_chain n classes.now) classes.now → IfSome (slice_get classes.now class) (λ c. result ≡ begins_chain (suc n) classes.now c) }
{
    match classes.kind_at(class) {
        Kind::Composite => {}
        _ => return false,
    }
    let fields = &classes.class_at(class).fields;
    for number in 0..fields.len() {
        if goes_by(classes, class, number, goes) {
            return true;
        }
    }
    false
}

/// For each class, whether it begins a chain of n + 1 steps, given which classes begin one of n steps.
fn round(alloc: Global, classes: &Resolved, goes: &[bool]) -> Result<Vec<bool>, NoMemory>
    requires { length goes.now ≡ length classes.now }
    ensures exact { IfOk result (λ next. (n : ℕ) → goes.now ≡ map (begins_chain n classes.now) classes.now → next.items ≡ map (begins_chain (suc n) classes.now) classes.now) }
{
    let mut next = Vec::new(alloc);
    for at in 0..classes.len() {
        next.push(goes_on(classes, at, goes))?;
    }
    Ok(next)
}

/// For each class, whether it begins a chain that is too long. Each round looks at every field once, so that
/// no chain has to be followed, of which there can be exponentially many.
fn too_deep(alloc: Global, classes: &Resolved) -> Result<Vec<bool>, NoMemory>
    ensures exact { IfOk result (λ goes. goes.items ≡ map (begins_chain 33 classes.now) classes.now) }
{
    let mut goes = vec![in alloc; true; classes.len()]?;
    for step in 0..TOO_MANY_STEPS {
        goes = round(alloc, classes, &goes)?;
    }
    Ok(goes)
}

/// Refuses a class that begins a chain of more than 32 inline steps.
pub fn check_depth(alloc: Global, classes: &Resolved) -> Result<(), ClassFault>
    ensures { ReportsFirst (deep classes.now) result }
{
    let goes = too_deep(alloc, classes)?;
    for (at, is_deep) in goes.iter().enumerate() {
        if *is_deep {
            return Err(ClassFault::Flawed {
                class: at,
                field: None,
                reason: Reason::InlineDeep,
            });
        }
    }
    Ok(())
}
