//! How a command ends.
ghost use Rattle.std.specs.Prelude.{◌≡◌};
ghost use Rattle.jfr_header.specs.Nexts.{at_chunk};
ghost use Rattle.jfr_header.specs.Endings.{after_read, after_write, after_chunk};

use jfr_base::{Flaw, ReadFault, Refusal};
use jfr_outside::{Fault, NoMemory};

/// How a command over recordings ended. The program's exit status follows from it.
#[derive(Clone, Copy, Debug, PartialEq, Eq)]
pub enum Ending {
    /// Everything was done.
    Done,
    /// A recording was refused.
    Refused(Refusal),
    /// A read failed.
    ReadFault,
    /// A write failed.
    WriteFault,
    /// A recording needs more parts than `disassemble` may write, 999,999.
    TooManyParts,
    /// The masked chunk with this number would be too long, or for 0 the file of known texts is.
    MaskTooLong(u64),
    /// Memory ran out.
    Memory,
}

impl From<NoMemory> for Ending {
    ghost use Rattle.jfr_header.specs.declared.ending.Ending.TheVariants.{Memory};

    ghost from_gives = { λ _ ending. ending ≡ Memory };

    fn from(_: NoMemory) -> Self {
        Ending::Memory
    }
}

impl Ending {
    /// The ending after a read that failed.
    pub fn of_read(fault: Fault) -> Ending
        ensures { result ≡ after_read fault }
    {
        match fault {
            Fault::Failed => Ending::ReadFault,
            Fault::Memory => Ending::Memory,
        }
    }

    /// The ending after a write that failed.
    pub fn of_write(fault: Fault) -> Ending
        ensures { result ≡ after_write fault }
    {
        match fault {
            Fault::Failed => Ending::WriteFault,
            Fault::Memory => Ending::Memory,
        }
    }

    /// The ending after a chunk that could not be read, by the chunk's number.
    pub fn of_chunk(number: u64, fault: ReadFault) -> Ending
        ensures { result ≡ after_chunk number fault }
    {
        match fault {
            ReadFault::Flawed(flaw) => Ending::Refused(with_number(flaw, number)),
            ReadFault::Memory => Ending::Memory,
        }
    }
}

/// The refusal with this flaw and this chunk number.
pub(crate) fn with_number(flaw: Flaw, number: u64) -> Refusal
    ensures { result ≡ at_chunk number flaw }
{
    Refusal {
        chunk: number,
        offset: flaw.offset,
        reason: flaw.reason,
    }
}
