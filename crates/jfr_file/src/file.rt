//! Reading a whole file.
ghost use Rattle.std.specs.Prelude.{◌≡◌, ◌<◌, None, IfOk, IfSome, IsErrOf, IsTrue, length};
ghost use Rattle.jfr_outside.specs.World.{file};
ghost use Rattle.jfr_outside.specs.Calls.{CountsRead};
ghost use Rattle.jfr_header.specs.Taking.{IfContentsKnown};
ghost use Rattle.jfr_file.specs.Files.{Counted, FileRead, RestRead};

use jfr_header::Buffer;
use jfr_outside::{Fault, Place};
use std::alloc::Global;

/// Why a file isn't returned.
#[derive(Clone, Copy, Debug, PartialEq, Eq)]
pub enum FileFault {
    /// The file isn't shorter than the limit.
    TooLong,
    /// There is no such file, or a read failed.
    Failed,
    /// Memory ran out.
    Memory,
}

impl From<Fault> for FileFault {
    ghost use Rattle.jfr_file.specs.Files.{after_read};

    ghost from_gives = { λ fault answer. answer ≡ after_read fault };

    fn from(fault: Fault) -> Self {
        match fault {
            Fault::Failed => FileFault::Failed,
            Fault::Memory => FileFault::Memory,
        }
    }
}

/// Reads the open input to its end. `None` if it has `limit` bytes or more.
fn read_rest<P: Place>(alloc: Global, place: &mut P, limit: usize) -> Result<Option<Vec<u8>>, Fault>
    ensures contents { IfContentsKnown (P.state place.old) (P.state place.new) (RestRead limit result) }
    ensures bound { IfOk result (λ read. IfSome read (λ bytes. length bytes.items < limit)) }
    ensures counts { CountsRead result (P.state place.old) (P.state place.new) }
    ensures steady { IsTrue (P.state place.old).steady → IsErrOf result Fault.Failed → IfSome (P.state place.old).contents (λ w. w.input ≡ None) }
{
    let mut bytes = Buffer::new(alloc);
    'reads: while bytes.len() < limit {
        if bytes.read(place, limit)? == 0 {
            return Ok(Some(bytes.into_bytes()));
        }
    }
    Ok(None)
}

/// Reads a whole file: opens it, reads it to its end, and closes it. `TooLong` if it has `limit` bytes or
/// more, as soon as this many are read. The file stays the open input if a read fails or memory runs out.
pub fn read_file<P: Place>(
    alloc: Global,
    place: &mut P,
    name: &str,
    limit: usize,
) -> Result<Vec<u8>, FileFault>
    // What the answer says about the file, and what is left of the input. The other files and the output
    // are unchanged.
    ensures contents { IfContentsKnown (P.state place.old) (P.state place.new) (FileRead name.now limit result) }
    ensures bound { IfOk result (λ bytes. length bytes.items < limit) }

    // Only the count of read faults changes, and only if a read failed.
    ensures reads { Counted result (P.state place.old).read_faults (P.state place.new).read_faults }
    ensures writes { (P.state place.new).write_faults ≡ (P.state place.old).write_faults }
    ensures same { (P.state place.new).steady ≡ (P.state place.old).steady }

    // On a steady place no read fails if the file exists.
    ensures steady { IsTrue (P.state place.old).steady → IsErrOf result FileFault.Failed → IfSome (P.state place.old).contents (λ w. file w name.now ≡ None) }
{
    place.open_input(name)?;
    let read = read_rest(alloc, place, limit)?;
    place.shut_input();
    read.ok_or(FileFault::TooLong)
}
