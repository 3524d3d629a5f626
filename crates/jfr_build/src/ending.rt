//! How building a file ends.
ghost use Rattle.std.specs.Prelude.{◌≡◌};
ghost use Rattle.jfr_build.specs.Endings.{after_build, after_file, after_write};

use crate::{BuildFault, BuildReason};
use jfr_file::FileFault;
use jfr_header::Ending;

/// How [`crate::build_stream`] ended.
#[derive(Clone, Copy, Debug, PartialEq, Eq)]
pub enum BuildEnding {
    /// The recording was written.
    Done,
    /// The text is refused for this line and reason, as in [`BuildFault::Refused`].
    Refused { line: u64, reason: BuildReason },
    /// A read failed.
    ReadFault,
    /// A write failed.
    WriteFault,
    /// Memory ran out.
    Memory,
}

impl BuildEnding {
    /// The ending after a text that couldn't be read.
    pub(crate) fn of_file(fault: FileFault) -> BuildEnding
        ensures { result ≡ after_file fault }
    {
        match fault {
            FileFault::TooLong => BuildEnding::Refused {
                line: 0,
                reason: BuildReason::TooLarge,
            },
            FileFault::Failed => BuildEnding::ReadFault,
            FileFault::Memory => BuildEnding::Memory,
        }
    }

    /// The ending after a text that wasn't built.
    pub(crate) fn of_build(fault: BuildFault) -> BuildEnding
        ensures { result ≡ after_build fault }
    {
        match fault {
            BuildFault::Refused { line, reason } => BuildEnding::Refused { line, reason },
            BuildFault::Memory => BuildEnding::Memory,
        }
    }

    /// The ending after the output was written, or after a write failed or memory ran out.
    pub(crate) fn of_write(written: Result<(), Ending>) -> BuildEnding
        ensures { result ≡ after_write written }
    {
        match written {
            Ok(()) => BuildEnding::Done,
            Err(Ending::WriteFault) => BuildEnding::WriteFault,
            Err(_) => BuildEnding::Memory,
        }
    }
}
