//! What comes next in a recording, judged by the first bytes that are left.
ghost use Rattle.std.specs.Prelude.{◌≡◌, ◌≤◌, length};
ghost use Rattle.jfr_header.specs.Fronts.{flaw_at};
ghost use Rattle.jfr_header.specs.Judging.{IsJudged};

use crate::read_header;
use jfr_base::{Flaw, HEADER_LEN, Reason};

/// A chunk starts below this byte of the recording.
const START_LIMIT: u64 = 1 << 40;

/// What comes next in a recording, by the first 68 bytes that are left, or by all of them if fewer are left.
#[derive(Clone, Copy)]
pub enum NextChunk {
    /// The recording ends here.
    End,
    /// No chunk begins here.
    Bad(Flaw),
    /// A chunk of this many bytes begins here, if this many are left.
    Sized(usize),
}

/// What comes next in a recording, by the first bytes that are left. They start at the byte `start` of the
/// recording, and `given` says whether there was a chunk before them.
pub fn judge(front: &[u8], start: u64, given: bool) -> NextChunk
    requires { length front.now ≤ 68 }
    ensures { IsJudged front.now start given result }
{
    if front.is_empty() {
        if given {
            return NextChunk::End;
        }
        return bad(0, Reason::NoChunk);
    }
    if start >= START_LIMIT {
        return bad(0, Reason::TooLong);
    }
    let Some(header) = front.first_chunk::<HEADER_LEN>() else {
        return bad(front.len() as u64, Reason::ShortHeader);
    };
    match read_header(header) {
        Ok(header) => NextChunk::Sized(header.size as usize),
        Err(flaw) => NextChunk::Bad(flaw),
    }
}

/// What comes next if the first bytes have this flaw.
fn bad(offset: u64, reason: Reason) -> NextChunk
    ensures { result ≡ NextChunk.Bad (flaw_at offset reason) }
{
    NextChunk::Bad(Flaw { offset, reason })
}
