//! The verdict on an output and its receipts.
ghost use Rattle.std.specs.Prelude.{◌≡◌};
ghost use Rattle.jfr_verify.specs.Faults.{after_check, after_chunk, after_output, after_read, after_receipts};

use crate::{CheckFault, Doubt};
use jfr_base::{ReadFault, Refusal};
use jfr_file::FileFault;
use jfr_outside::Fault;

/// What `verify_stream` found.
#[derive(Clone, Copy, Debug, PartialEq, Eq)]
pub enum Verdict {
    /// Each chunk of the output is verified. There are this many.
    Verified(u64),
    /// There is a doubt about the chunk with this number, from 1; 0 if all receipts together are too long.
    Doubted { chunk: u64, doubt: Doubt },
    /// A chunk of the input is refused.
    Refused(Refusal),
    /// A read failed, or a file doesn't exist.
    ReadFault,
    /// Memory ran out.
    Memory,
}

impl Verdict {
    /// The verdict if a call of the place failed.
    pub(crate) fn of_read(fault: Fault) -> Verdict
        ensures { result ≡ after_read fault }
    {
        match fault {
            Fault::Failed => Verdict::ReadFault,
            Fault::Memory => Verdict::Memory,
        }
    }

    /// The verdict if the receipts could not be read.
    pub(crate) fn of_receipts(fault: FileFault) -> Verdict
        ensures { result ≡ after_receipts fault }
    {
        match fault {
            FileFault::TooLong => Verdict::Doubted {
                chunk: 0,
                doubt: Doubt::ReceiptLong,
            },
            FileFault::Failed => Verdict::ReadFault,
            FileFault::Memory => Verdict::Memory,
        }
    }

    /// The verdict if chunk `number` of the output could not be read.
    pub(crate) fn of_output(number: u64, fault: ReadFault) -> Verdict
        ensures { result ≡ after_output number fault }
    {
        match fault {
            ReadFault::Flawed(_) => Verdict::Doubted {
                chunk: number,
                doubt: Doubt::OutRefused,
            },
            ReadFault::Memory => Verdict::Memory,
        }
    }

    /// The verdict if chunk `number` of the input could not be read.
    pub(crate) fn of_chunk(number: u64, fault: ReadFault) -> Verdict
        ensures { result ≡ after_chunk number fault }
    {
        match fault {
            ReadFault::Flawed(flaw) => Verdict::Refused(Refusal {
                chunk: number,
                offset: flaw.offset,
                reason: flaw.reason,
            }),
            ReadFault::Memory => Verdict::Memory,
        }
    }

    /// The verdict if `check` fails for the chunks with this number.
    pub(crate) fn of_check(number: u64, fault: CheckFault) -> Verdict
        ensures { result ≡ after_check number fault }
    {
        match fault {
            CheckFault::Doubt(doubt) => Verdict::Doubted {
                chunk: number,
                doubt,
            },
            CheckFault::Memory => Verdict::Memory,
        }
    }
}
