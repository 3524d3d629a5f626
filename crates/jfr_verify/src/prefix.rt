//! Which prefix of some bytes is a receipt of a chunk.
ghost use Rattle.std.specs.Prelude.{◌≡◌, IfOk};
ghost use Rattle.jfr_verify.specs.Prefix.{AllInForce, ReceiptPrefix};

use crate::confirm::are_confirmed;
use crate::parents::parents_of;
use crate::reading::read_lines;
use jfr_base::NoMemory;
use jfr_chunk::Chunk;
use std::alloc::Global;

/// The length of the prefix that is a receipt of the chunk; `None` exactly if no prefix is one. Takes time in
/// proportion to the chunk and its receipt.
pub(crate) fn receipt_prefix(
    alloc: Global,
    chunk: &Chunk<'_>,
    receipt: &[u8],
) -> Result<Option<usize>, NoMemory>
    requires { AllInForce chunk.now }
    ensures { IfOk result (ReceiptPrefix chunk.now receipt.now) }
{
    let count = chunk.pools().len();
    let Some(read) = read_lines(alloc, receipt, count)? else {
        return Ok(None);
    };
    let Some(parents) = parents_of(alloc, &read.lines, count)? else {
        return Ok(None);
    };
    if are_confirmed(alloc, chunk, parents)? {
        return Ok(Some(read.end));
    }
    Ok(None)
}
