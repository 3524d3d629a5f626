//! Building a chunk.
ghost use Rattle.std.specs.Prelude.{◌≡◌, ◌∷◌, ◌+◌, ◌<◌, ◌^◌, [], nat_lt, IfOk, MatchResult, None, Some, Ok, option_map, if◌then◌else◌};
ghost use Rattle.jfr_build.specs.Accepted.{IsBuiltOf};
ghost use Rattle.jfr_build.specs.Built.{checkpoint_with, chunk_with};
ghost use Rattle.jfr_build.specs.Builds.{IsFault, build_lines, build_of, chunk_of, if_small, line_count};
ghost use Rattle.jfr_build.specs.LineValues.{first_bad_value};
ghost use Rattle.jfr_header.specs.Headers.{header_bytes};
ghost use Rattle.jfr_header.specs.Made.{made_header};

use crate::class_lines::make_classes;
use crate::described::metadata_record;
use crate::line_values::check_values;
use crate::lines::{NumberedLine, read_lines};
use crate::pools::pools_of;
use crate::records::{CHUNK_LIMIT, SIZE_LEN, events_of, push_size};
use crate::region::region_in;
use crate::{BuildFault, BuildReason};
use jfr_base::{HEADER_LEN, NoMemory};
use jfr_frame::CHECKPOINT_TYPE;
use jfr_header::{Header, write_header};
use jfr_layout::Classes;
use std::alloc::Global;

/// A text has fewer bytes than this.
pub(crate) const TEXT_LIMIT: usize = 1 << 30;

/// What is between the size of the checkpoint and its pools: the type of the record, and then start, duration,
/// delta and type byte, which are 0.
const CHECKPOINT_HEAD: [u8; 5] = [CHECKPOINT_TYPE as u8, 0, 0, 0, 0];

/// The chunk that a text describes. The text has a line for each class, field, constant and event,
/// and may have one for the region.
///
/// Refused for the first of these reasons that applies: `TooLarge` if the text has 2^30 bytes or more;
/// `LineBad` for the first line that isn't UTF-8, has no known form or isn't allowed at its position; a
/// reason of [`jfr_layout::Classes::make`], for the line of the class or field with the flaw; `ValueBad` for
/// the first constant of an unknown class, event of a class that isn't an event class, line whose words aren't
/// those of the leaves of one value, or region whose offset doesn't fit in 32 bits; `TooLarge` if the strings and the tree of the metadata take 2^29
/// bytes or more, or the chunk 2^30 or more.
///
/// What is built is accepted, and has exactly the classes, the events and the constants of the lines.
pub fn build(alloc: Global, text: &[u8]) -> Result<Vec<u8>, BuildFault>
    ensures exact { MatchResult result (λ chunk. build_of text.now ≡ Ok chunk.items) (IsFault (build_of text.now)) }
    ensures accepted { IfOk result (λ chunk. IsBuiltOf text.now chunk.items) }
{
    if text.len() >= TEXT_LIMIT {
        return Err(too_large(0));
    }
    let lines = read_lines(alloc, text)?;
    build_lines(alloc, &lines, line_count(text))
}

/// The refusal, at this line, of a text, metadata or a chunk that is too large.
fn too_large(line: u64) -> BuildFault
    ensures { result ≡ BuildFault.Refused line BuildReason.TooLarge }
{
    BuildFault::Refused {
        line,
        reason: BuildReason::TooLarge,
    }
}

/// The number of lines of a text.
fn line_count(text: &[u8]) -> u64
    ensures { result ≡ line_count text.now }
{
    let newlines = text.iter().filter(|byte| **byte == b'\n').count() as u64;
    if text.is_empty() || text[text.len() - 1] == b'\n' {
        return newlines;
    }
    newlines + 1
}

/// The chunk of these lines. `count` is the number of all lines of the text, with the empty ones.
fn build_lines(alloc: Global, lines: &[NumberedLine<'_>], count: u64) -> Result<Vec<u8>, BuildFault>
    ensures exact { MatchResult result (λ chunk. build_lines count (Ok lines.now) ≡ Ok chunk.items) (IsFault (build_lines count (Ok lines.now))) }
{
    let classes = make_classes(alloc, lines)?;
    check_values(alloc, &classes, lines)?;
    match chunk_of(alloc, classes, lines)? {
        Some(chunk) => Ok(chunk),
        None => Err(too_large(count)),
    }
}

/// The chunk of these classes and lines. `None` if the strings and the tree of its metadata take 2^29 bytes or
/// more, or the chunk 2^30 or more.
fn chunk_of(
    alloc: Global,
    classes: Classes,
    lines: &[NumberedLine<'_>],
) -> Result<Option<Vec<u8>>, NoMemory>
    requires good { first_bad_value classes lines.now ≡ None }
    ensures exact { IfOk result (λ found. option_map (λ v. v.items) found ≡ chunk_of classes lines.now) }
{
    let (metadata, classes) = metadata_record(alloc, classes, region_in(lines))?;
    let Some(metadata) = metadata else {
        return Ok(None);
    };
    let Some(events) = events_of(alloc, &classes, lines)? else {
        return Ok(None);
    };
    let pools = pools_of(alloc, &classes, lines)?;
    chunk_with(alloc, &metadata, &events, &pools)
}

/// The chunk with these parts, if it has fewer than 2^30 bytes.
fn chunk_with(
    alloc: Global,
    metadata: &[u8],
    events: &[u8],
    pools: &[u8],
) -> Result<Option<Vec<u8>>, NoMemory>
    ensures exact { IfOk result (λ found. option_map (λ v. v.items) found ≡ if_small (chunk_with metadata.now events.now (checkpoint_with pools.now))) }
{
    let Some(last) = last_of(metadata.len(), events.len()) else {
        return Ok(None);
    };
    let Some(size) = size_of(last, pools.len()) else {
        return Ok(None);
    };
    let mut chunk = Vec::with_capacity(alloc, size)?;
    chunk.extend_from_slice(&header_of(size, last))?;
    chunk.extend_from_slice(metadata)?;
    chunk.extend_from_slice(events)?;
    push_size(&mut chunk, (size - last) as u64)?;
    chunk.extend_from_slice(&CHECKPOINT_HEAD)?;
    chunk.extend_from_slice(pools)?;
    Ok(Some(chunk))
}

/// The offset of the checkpoint, if it is below the limit of a chunk.
fn last_of(metadata: usize, events: usize) -> Option<usize>
    ensures { result ≡ (if nat_lt (68 + metadata + events) (2 ^ 30) then Some (68 + metadata + events) else None) }
{
    if metadata >= CHUNK_LIMIT || events >= CHUNK_LIMIT {
        return None;
    }
    let last = HEADER_LEN + metadata + events;
    if last < CHUNK_LIMIT { Some(last) } else { None }
}

/// The size of the chunk, if it is below the limit.
fn size_of(last: usize, pools: usize) -> Option<usize>
    requires { last < 2 ^ 30 }
    ensures { result ≡ (if nat_lt (last + (10 + pools)) (2 ^ 30) then Some (last + (10 + pools)) else None) }
{
    if pools >= CHUNK_LIMIT {
        return None;
    }
    let size = last + (SIZE_LEN + CHECKPOINT_HEAD.len() + pools);
    if size < CHUNK_LIMIT { Some(size) } else { None }
}

/// The header of a chunk with this size, and this offset of the checkpoint.
fn header_of(size: usize, last: usize) -> [u8; HEADER_LEN]
    ensures { result ≡ header_bytes (made_header size last) }
{
    let header = Header::made(size as u64, last as u64);
    let mut bytes = [0; HEADER_LEN];
    write_header(&header, &mut bytes);
    bytes
}
