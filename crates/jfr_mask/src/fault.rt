//! Why a chunk couldn't be masked.
use jfr_base::NoMemory;
use std::error::Error;
use std::fmt;

/// Why a chunk couldn't be masked.
#[derive(Clone, Copy, Debug, PartialEq, Eq)]
pub enum MaskFault {
    /// An allocation failed.
    Memory,
    /// The masked chunk has 2^30 bytes or more.
    TooLong,
}

impl fmt::Display for MaskFault {
    fn fmt<W: fmt::Write>(&self, f: &mut fmt::Formatter<W>) -> fmt::Result {
        match self {
            MaskFault::Memory => NoMemory.fmt(f),
            MaskFault::TooLong => f.write_str("the masked chunk is too long"),
        }
    }
}

impl Error for MaskFault {}

impl From<NoMemory> for MaskFault {
    ghost use Rattle.std.specs.Prelude.{◌≡◌};
    ghost use Rattle.jfr_mask.specs.declared.fault.MaskFault.TheVariants.{Memory};

    ghost from_gives = { λ _ fault. fault ≡ Memory };

    fn from(_: NoMemory) -> Self {
        MaskFault::Memory
    }
}
