//! Why a text is refused.
ghost use Rattle.std.specs.Prelude.{◌≡◌};

use jfr_base::{NoMemory, Reason};
use std::alloc::{AllocError, AllocFailed};

/// Why a text isn't built. Each reason has a number, and a name that the program prints.
#[derive(Clone, Copy, Debug, PartialEq, Eq)]
pub enum BuildReason {
    /// The text, the metadata or the chunk has too many bytes.
    TooLarge,
    /// A line isn't UTF-8, has no known form, or isn't allowed at its position.
    LineBad,
    /// The class of a constant is unknown, that of a record isn't an event class, the words aren't those of one
    /// value of the class, or the offset of the region doesn't fit in 32 bits.
    ValueBad,
    /// The classes aren't sound.
    Class(Reason),
}

impl BuildReason {
    ghost use Rattle.jfr_build.specs.Reasons.{build_number, build_name};

    /// The number of the reason.
    pub fn number(&self) -> u8
        ensures exact { result ≡ build_number self.now }
    {
        match self {
            BuildReason::TooLarge => 41,
            BuildReason::LineBad => 42,
            BuildReason::ValueBad => 43,
            BuildReason::Class(reason) => reason.number(),
        }
    }

    /// The name of the reason, as the program prints it.
    pub fn name(&self) -> &'static str
        ensures exact { result.now ≡ build_name self.now }
    {
        match self {
            BuildReason::TooLarge => "BuildTooLarge",
            BuildReason::LineBad => "LineBad",
            BuildReason::ValueBad => "ValueBad",
            BuildReason::Class(reason) => reason.name(),
        }
    }
}

/// Why a text isn't built, or that memory ran out.
#[derive(Clone, Copy, Debug, PartialEq, Eq)]
pub enum BuildFault {
    /// The text is refused for the line with this number, counted from 1. The number is 0 if the text is too
    /// large, and that of the last line if its metadata or its chunk is.
    Refused { line: u64, reason: BuildReason },
    /// Memory ran out.
    Memory,
}

impl From<NoMemory> for BuildFault {
    ghost use Rattle.jfr_build.specs.declared.reason.BuildFault.TheVariants.{Memory};

    ghost from_gives = { λ _ fault. fault ≡ Memory };

    fn from(_: NoMemory) -> Self {
        BuildFault::Memory
    }
}

impl From<AllocError> for BuildFault {
    ghost use Rattle.jfr_build.specs.declared.reason.BuildFault.TheVariants.{Memory};

    ghost from_gives = { λ _ fault. fault ≡ Memory };

    fn from(_: AllocError) -> Self {
        BuildFault::Memory
    }
}

impl<T: Drop> From<AllocFailed<T>> for BuildFault {
    ghost use Rattle.jfr_build.specs.declared.reason.BuildFault.TheVariants.{Memory};

    ghost from_gives = { λ _ fault. fault ≡ Memory };

    fn from(_: AllocFailed<T>) -> Self {
        BuildFault::Memory
    }
}
