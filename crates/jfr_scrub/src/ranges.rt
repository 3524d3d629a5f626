//! Ranges of a chunk, without the chunk itself.
ghost use Rattle.std.specs.Prelude.{◌≡◌, [], length, IfOk};
ghost use Rattle.jfr_outside.specs.World.{bytes_in};
ghost use Rattle.jfr_scrub.specs.Pieces.{joined, laid_in, LieIn, Lies, range_bytes};

use crate::piece::Range;
use jfr_outside::NoMemory;
use std::alloc::Global;

/// Ranges of a chunk and of made bytes, one after another. The chunk isn't borrowed. It is passed again when
/// its bytes are needed.
#[derive(Drop)]
pub(crate) struct Ranges {
    pub(crate) made: Vec<u8>,
    pub(crate) ranges: Vec<Range>,
}

impl Ranges {
    /// No ranges. It allocates nothing.
    pub(crate) fn new(alloc: Global) -> Ranges
        ensures made { result.made.items ≡ [] }
        ensures ranges { result.ranges.items ≡ [] }
    {
        Ranges {
            made: Vec::new(alloc),
            ranges: Vec::new(alloc),
        }
    }

    /// The bytes of each range, in order.
    pub(crate) fn pieces<'c>(
        &'c self,
        alloc: Global,
        chunk: &'c [u8],
    ) -> Result<Vec<&'c [u8]>, NoMemory>
        requires { LieIn (laid_in chunk.now self.now) }
        ensures { IfOk result (λ pieces. bytes_in pieces.items ≡ joined (laid_in chunk.now self.now)) }
    {
        let mut pieces = Vec::with_capacity(alloc, self.ranges.len())?;
        for range in &self.ranges {
            pieces.push(bytes_of(chunk, &self.made, *range))?;
        }
        Ok(pieces)
    }
}

/// The bytes of a range.
pub(crate) fn bytes_of<'c>(chunk: &'c [u8], made: &'c [u8], range: Range) -> &'c [u8]
    requires { Lies (length chunk.now) (length made.now) range }
    ensures { result.now ≡ range_bytes chunk.now made.now range }
{
    match range {
        Range::Copied { from, to } => &chunk[from..to],
        Range::Made { from, to, .. } => &made[from..to],
    }
}
