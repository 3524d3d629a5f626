//! Why a chunk couldn't be rewritten.
use jfr_base::NoMemory;
use std::alloc::AllocError;
use std::error::Error;
use std::fmt;

/// Why a rewritten chunk couldn't be written.
#[derive(Clone, Copy, Debug, PartialEq, Eq)]
pub enum WriteFault {
    /// An allocation failed.
    Memory,
    /// A record's size doesn't fit in the bytes in which it is to be spelled.
    TooLong,
}

impl fmt::Display for WriteFault {
    fn fmt<W: fmt::Write>(&self, f: &mut fmt::Formatter<W>) -> fmt::Result {
        match self {
            WriteFault::Memory => NoMemory.fmt(f),
            WriteFault::TooLong => f.write_str("a record is too long for its size"),
        }
    }
}

impl Error for WriteFault {}

impl From<NoMemory> for WriteFault {
    ghost use Rattle.std.specs.Prelude.{◌≡◌};
    ghost use Rattle.jfr_rewrite.specs.declared.fault.WriteFault.TheVariants.{Memory};

    ghost from_gives = { λ _ fault. fault ≡ Memory };

    fn from(_: NoMemory) -> Self {
        WriteFault::Memory
    }
}

impl From<AllocError> for WriteFault {
    ghost use Rattle.std.specs.Prelude.{◌≡◌};
    ghost use Rattle.jfr_rewrite.specs.declared.fault.WriteFault.TheVariants.{Memory};

    ghost from_gives = { λ _ fault. fault ≡ Memory };

    fn from(_: AllocError) -> Self {
        WriteFault::Memory
    }
}
