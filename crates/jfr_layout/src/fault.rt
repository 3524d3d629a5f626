//! Why a list of classes is refused.
ghost use Rattle.std.specs.Prelude.{◌≡◌};
ghost use Rattle.jfr_layout.specs.declared.fault.ClassFault.TheVariants.{Memory};

use jfr_base::{NoMemory, Reason};
use std::alloc::{AllocError, AllocFailed};

/// Why a list of classes isn't accepted: a class or a field is refused, or memory ran out.
#[derive(Clone, Copy, Debug, PartialEq, Eq)]
pub enum ClassFault {
    /// The class with this index in the list is refused, or its field with this number, if there is a number.
    Flawed {
        class: usize,
        field: Option<usize>,
        reason: Reason,
    },
    /// Memory ran out.
    Memory,
}

impl From<NoMemory> for ClassFault {
    ghost from_gives = { λ _ fault. fault ≡ Memory };

    fn from(_: NoMemory) -> Self {
        ClassFault::Memory
    }
}

impl From<AllocError> for ClassFault {
    ghost from_gives = { λ _ fault. fault ≡ Memory };

    fn from(_: AllocError) -> Self {
        ClassFault::Memory
    }
}

impl<T: Drop> From<AllocFailed<T>> for ClassFault {
    ghost from_gives = { λ _ fault. fault ≡ Memory };

    fn from(_: AllocFailed<T>) -> Self {
        ClassFault::Memory
    }
}
