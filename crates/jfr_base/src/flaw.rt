//! Why a chunk or a recording is refused, and where.
ghost use Rattle.std.specs.Prelude.{◌≡◌};
ghost use Rattle.jfr_base.specs.declared.flaw.ReadFault.TheVariants.{Flawed, Memory};

use crate::{NoMemory, Reason};
use std::alloc::{AllocError, AllocFailed};
use std::error::Error;
use std::fmt;

/// Why a chunk is refused.
#[derive(Clone, Copy, Debug, PartialEq, Eq)]
pub struct Flaw {
    /// The offset of the fault, in bytes from the chunk's first byte.
    pub offset: u64,
    pub reason: Reason,
}

impl Flaw {
    /// The flaw of an item that starts at the offset `at`, if the bytes end before the item does.
    pub fn short(at: usize) -> Flaw
        ensures { result ≡ record { offset = at; reason = Reason.Short } }
    {
        Flaw {
            offset: at as u64,
            reason: Reason::Short,
        }
    }
}

impl fmt::Display for Flaw {
    fn fmt<W: fmt::Write>(&self, f: &mut fmt::Formatter<W>) -> fmt::Result {
        write!(f, "{} at offset {}", self.reason, self.offset)
    }
}

impl Error for Flaw {}

/// Why a recording is refused: a flaw, and the chunk that has it.
#[derive(Clone, Copy, Debug, PartialEq, Eq)]
pub struct Refusal {
    /// The number of the chunk in the recording, from 1.
    pub chunk: u64,
    /// The offset of the fault, in bytes from the chunk's first byte.
    pub offset: u64,
    pub reason: Reason,
}

/// The line that the program writes for a refusal, without the newline.
impl fmt::Display for Refusal {
    fn fmt<W: fmt::Write>(&self, f: &mut fmt::Formatter<W>) -> fmt::Result {
        write!(
            f,
            "chunk {} offset {}: {}",
            self.chunk, self.offset, self.reason
        )
    }
}

impl Error for Refusal {}

/// Why something could not be read: it is refused, or an allocation failed.
#[derive(Clone, Copy, Debug, PartialEq, Eq)]
pub enum ReadFault {
    /// The bytes are refused.
    Flawed(Flaw),
    /// An allocation failed.
    Memory,
}

impl fmt::Display for ReadFault {
    fn fmt<W: fmt::Write>(&self, f: &mut fmt::Formatter<W>) -> fmt::Result {
        match self {
            ReadFault::Flawed(flaw) => flaw.fmt(f),
            ReadFault::Memory => NoMemory.fmt(f),
        }
    }
}

impl Error for ReadFault {}

impl From<Flaw> for ReadFault {
    ghost from_gives = { λ flaw fault. fault ≡ Flawed flaw };

    fn from(flaw: Flaw) -> Self {
        ReadFault::Flawed(flaw)
    }
}

impl From<NoMemory> for ReadFault {
    ghost from_gives = { λ _ fault. fault ≡ Memory };

    fn from(_: NoMemory) -> Self {
        ReadFault::Memory
    }
}

impl From<AllocError> for ReadFault {
    ghost from_gives = { λ _ fault. fault ≡ Memory };

    fn from(_: AllocError) -> Self {
        ReadFault::Memory
    }
}

impl<T: Drop> From<AllocFailed<T>> for ReadFault {
    ghost from_gives = { λ _ fault. fault ≡ Memory };

    fn from(_: AllocFailed<T>) -> Self {
        ReadFault::Memory
    }
}
