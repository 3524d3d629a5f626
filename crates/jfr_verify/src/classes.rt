//! Whether each class of the output is a class of the input.
ghost use Rattle.std.specs.Prelude.{◌≡◌, ◌<◌, Some, length, slice_get, IfOk};
ghost use Rattle.std.specs.List.{AllZip};
ghost use Rattle.jfr_meta.specs.Described.{IsNamedBy};
ghost use Rattle.jfr_verify.specs.Checks.{HasClasses};
ghost use Rattle.jfr_verify.specs.Decided.{Decided};

use crate::named::{NamedClass, same_class};
use crate::strings::Numbers;
use jfr_base::NoMemory;
use jfr_chunk::Chunk;
use jfr_layout::Classes;
use jfr_meta::ClassNames;
use std::alloc::Global;

/// Whether each class of the output `b` is a class of the input `a`. The text of a string is
/// compared only once, to give the string a number, however many classes share the string.
pub(crate) fn has_classes(alloc: Global, a: &Chunk<'_>, b: &Chunk<'_>) -> Result<bool, NoMemory>
    ensures { IfOk result (Decided (HasClasses a.now.classes b.now.classes)) }
{
    let numbers = Numbers::new(alloc, a.strings(), b.strings())?;
    let a_names = a.class_names(alloc)?;
    let b_names = b.class_names(alloc)?;
    let a = NamedClasses {
        classes: a.classes(),
        names: &a_names,
    };
    let b = NamedClasses {
        classes: b.classes(),
        names: &b_names,
    };
    Ok(has_each(&numbers, a, b))
}

/// The classes of a chunk, and the strings that name each of them.
#[derive(Clone, Copy)]
struct NamedClasses<'c> {
    classes: &'c Classes,
    names: &'c [ClassNames],
}

impl<'c> NamedClasses<'c> {
    /// The class with this index.
    fn at(self, index: usize) -> NamedClass<'c>
        requires within { index < length self.classes.now }
        requires names { length self.names.now ≡ length self.classes.now }
        ensures class { slice_get self.entry.classes.now index ≡ Some result.class.now }
        ensures names { slice_get self.entry.names.now index ≡ Some result.names.now }
    {
        NamedClass {
            class: self.classes.class_at(index),
            names: &self.names[index],
        }
    }
}

/// Whether each class of `b` is in `a`. The numbers are those of the strings of both chunks.
fn has_each(numbers: &Numbers<'_>, a: NamedClasses<'_>, b: NamedClasses<'_>) -> bool
    requires a { AllZip (IsNamedBy numbers.now.one.now) a.classes.now a.names.now }
    requires b { AllZip (IsNamedBy numbers.now.other.now) b.classes.now b.names.now }
    ensures { Decided (HasClasses a.entry.classes.now b.entry.classes.now) result }
{
    for number in 0..b.classes.len() {
        let class = b.at(number);
        let Some(index) = a.classes.index_of(class.class.id) else {
            return false;
        };
        if !same_class(numbers, a.at(index), class) {
            return false;
        }
    }
    true
}
