//! The whole sample, put together from its parts.
ghost use Rattle.std.specs.Prelude.{◌≡◌, ◌≤◌, ◌<◌, ◌+◌, ◌*◌, ◌^◌, ◌++◌, length, drop, IfOk};
ghost use Rattle.jfr_header.specs.Fronts.{Whole};
ghost use Rattle.jfr_header.specs.Headers.{header_bytes};
ghost use Rattle.jfr_header.specs.Made.{made_header};
ghost use Rattle.jfr_sample.specs.Sample.{sample_of};

use crate::checkpoint::{entries_of, push_checkpoint};
use crate::events::{EVENT_LEN, push_events};
use crate::metadata::push_metadata;
use jfr_header::{HEADER_LEN, Header, write_header};
use jfr_outside::NoMemory;
use std::alloc::Global;

/// The greatest length of all but the events and entries: the header has 68 bytes, the metadata 257, and the
/// checkpoint before its entries at most 14.
const FIXED_LEN: usize = 339;

/// A recording of one chunk with this number of events, from 1 to 1,000,000, and the same number of
/// constants. The same seed gives the same recording.
pub fn sample(alloc: Global, seed: u32, events: u32) -> Result<Vec<u8>, NoMemory>
    requires some { 1 ≤ events }
    requires most { events ≤ 1000000 }
    ensures exact { IfOk result (λ bytes. bytes.items ≡ sample_of seed events) }
    ensures whole { IfOk result (λ bytes. Whole bytes.items) }
    ensures short { IfOk result (λ bytes. length bytes.items ≤ 339 + 26 * events) }
{
    let entries = entries_of(alloc, events)?;
    let most = FIXED_LEN + EVENT_LEN * events as usize + entries.len();
    let mut bytes = Vec::with_capacity(alloc, most)?;
    bytes.extend_from_slice(&[0; HEADER_LEN])?;
    push_metadata(&mut bytes)?;
    push_events(&mut bytes, seed, events)?;
    let pools = bytes.len();
    push_checkpoint(&mut bytes, events, &entries)?;
    put_header(&mut bytes, pools);
    Ok(bytes)
}

/// Overwrites the first bytes of a chunk with its header. Its checkpoint is at `pools`.
fn put_header(chunk: &mut [u8], pools: usize)
    requires long { 68 ≤ length chunk.old }
    requires short { length chunk.old < 2 ^ 28 }
    ensures exact { chunk.new ≡ header_bytes (made_header (length chunk.old) pools) ++ drop 68 chunk.old }
    ensures length { length chunk.new ≡ length chunk.old }
    ensures whole { Whole chunk.new }
{
    let header = Header::made(chunk.len() as u64, pools as u64);
    let mut bytes = [0; HEADER_LEN];
    write_header(&header, &mut bytes);
    chunk[..HEADER_LEN].copy_from_slice(&bytes);
}
