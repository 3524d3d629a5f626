//! Headers and cuts of the plain chunk, a chunk of 103 bytes.
use crate::places::{Script, open, place_of, read};
use jfr_base::{Flaw, Reason, Refusal};
use jfr_fixtures::PLAIN;
use jfr_header::{ChunkCutter, Cut, Header, is_cut, read_header, write_header};
use jfr_outside::{Call, MemoryPlace, NoMemory};
use std::alloc::{AllocError, Global};
use std::process::Abort;
use std::test::Fail;

/// Adds the plain chunk with this first byte, and the plain chunk.
fn push_two(bytes: &mut Vec<u8>, first: u8) -> Result<(), AllocError> {
    bytes.push(first)?;
    bytes.extend_from_slice(&PLAIN[1..])?;
    bytes.extend_from_slice(&PLAIN)
}

/// The bytes of both.
fn two_chunks(alloc: Global, first: u8) -> Result<Vec<u8>, AllocError> {
    let mut bytes = Vec::new(alloc);
    push_two(&mut bytes, first)?;
    Ok(bytes)
}

/// A place with a file of both, of which each read takes at most `size` bytes.
fn place_of_two(
    alloc: Global,
    first: u8,
    size: usize,
    script: Option<Script>,
) -> Result<MemoryPlace, NoMemory> {
    let bytes = two_chunks(alloc, first)?;
    place_of(alloc, &bytes, size, script)
}

/// The number of the next chunk, or the answer if none comes. The cutter must be open.
fn next(rt: &impl Abort, cutter: &mut ChunkCutter, place: &mut MemoryPlace) -> Result<u64, Cut> {
    assert!(rt; cutter.is_open());
    match cutter.next(place) {
        Cut::Chunk => Ok(cutter.number()),
        answer => Err(answer),
    }
}

/// Takes the plain chunk.
fn take_plain(rt: &impl Abort, cutter: &mut ChunkCutter, place: &mut MemoryPlace, number: u64) {
    assert_eq!(rt; next(rt, cutter, place), Ok(number));
    assert_eq!(rt; cutter.bytes(), PLAIN.as_slice());
}

/// Takes an answer other than a chunk, after which the cutter isn't open.
fn take_last(rt: &impl Abort, cutter: &mut ChunkCutter, place: &mut MemoryPlace, answer: Cut) {
    assert_eq!(rt; next(rt, cutter, place), Err(answer));
    assert!(rt; !cutter.is_open());
}

fn refused(chunk: u64, offset: u64, reason: Reason) -> Cut {
    Cut::Refused(Refusal {
        chunk,
        offset,
        reason,
    })
}

/// Cuts the file of two plain chunks.
fn cut_two(rt: &impl Abort, alloc: Global, place: &mut MemoryPlace) -> Result<(), Fail> {
    open(place, "a")?;
    let mut cutter = ChunkCutter::new(alloc, 0, 1);
    take_plain(rt, &mut cutter, place, 1);
    take_plain(rt, &mut cutter, place, 2);
    take_last(rt, &mut cutter, place, Cut::End);
    Ok(())
}

/// Cuts it by reads of at most `size` bytes.
fn cut_by_size(rt: &impl Abort, alloc: Global, size: usize) -> Result<(), Fail> {
    let mut place = place_of_two(alloc, 70, size, None)?;
    cut_two(rt, alloc, &mut place)
}

#[test]
fn two_chunks_are_cut_for_each_size_of_reads(rt: HostRuntime) -> Result<(), Fail> {
    for size in [1, 7, 67, 68, 69, 103].iter() {
        cut_by_size(&rt, rt.alloc(), *size)?;
    }
    Ok(())
}

/// Takes the first of two plain chunks. The bytes of the second are left.
fn cut_first(rt: &impl Abort, alloc: Global, place: &mut MemoryPlace) -> Result<(), Fail> {
    open(place, "a")?;
    let mut cutter = ChunkCutter::new(alloc, 0, 1);
    take_plain(rt, &mut cutter, place, 1);
    assert_eq!(rt; read(place), Ok(103));
    Ok(())
}

#[test]
fn no_byte_after_the_chunk_is_taken(rt: HostRuntime) -> Result<(), Fail> {
    let mut place = place_of_two(rt.alloc(), 70, 206, None)?;
    cut_first(&rt, rt.alloc(), &mut place)
}

/// Cuts a file from its start, which gives no chunk.
fn cut_none(
    rt: &impl Abort,
    alloc: Global,
    place: &mut MemoryPlace,
    answer: Cut,
) -> Result<(), Fail> {
    open(place, "a")?;
    let mut cutter = ChunkCutter::new(alloc, 0, 1);
    take_last(rt, &mut cutter, place, answer);
    Ok(())
}

/// Cuts two chunks, the first with this byte, by reads of at most 34 bytes, of which the third fails.
fn cut_failing(rt: &impl Abort, alloc: Global, first: u8, answer: Cut) -> Result<(), Fail> {
    let mut place = place_of_two(alloc, first, 34, Some((Call::Read, 3, 0)))?;
    cut_none(rt, alloc, &mut place, answer)
}

#[test]
fn a_refused_header_is_taken_whole_before_a_read_fails(rt: HostRuntime) -> Result<(), Fail> {
    cut_failing(&rt, rt.alloc(), 71, refused(1, 0, Reason::Magic))?;
    cut_failing(&rt, rt.alloc(), 70, Cut::Failed)
}

/// A place with the plain chunk in the file a, and the empty file b.
fn plain_and_empty(alloc: Global) -> Result<MemoryPlace, NoMemory> {
    let mut place = place_of(alloc, &PLAIN, 103, None)?;
    place.put("b", b"")?;
    Ok(place)
}

/// Cuts the plain chunk, the fifth of its recording.
fn cut_plain(
    rt: &impl Abort,
    cutter: &mut ChunkCutter,
    place: &mut MemoryPlace,
) -> Result<(), Fail> {
    open(place, "a")?;
    take_plain(rt, cutter, place, 5);
    take_last(rt, cutter, place, Cut::End);
    Ok(())
}

/// Cuts a file, which gives no chunk.
fn cut_refused(
    rt: &impl Abort,
    cutter: &mut ChunkCutter,
    place: &mut MemoryPlace,
    name: &str,
    answer: Cut,
) -> Result<(), Fail> {
    open(place, name)?;
    take_last(rt, cutter, place, answer);
    Ok(())
}

/// Cuts the plain chunk, which starts right before the limit.
fn cut_at_latest(rt: &impl Abort, alloc: Global, place: &mut MemoryPlace) -> Result<(), Fail> {
    let mut cutter = ChunkCutter::new(alloc, (1 << 40) - 1, 5);
    cut_plain(rt, &mut cutter, place)
}

/// Cuts a file whose first chunk would start at the limit.
fn cut_too_late(
    rt: &impl Abort,
    alloc: Global,
    place: &mut MemoryPlace,
    name: &str,
    reason: Reason,
) -> Result<(), Fail> {
    let mut cutter = ChunkCutter::new(alloc, 1 << 40, 5);
    cut_refused(rt, &mut cutter, place, name, refused(5, 0, reason))
}

/// Cuts the files around the limit.
fn cut_around(rt: &impl Abort, alloc: Global, place: &mut MemoryPlace) -> Result<(), Fail> {
    cut_too_late(rt, alloc, place, "a", Reason::TooLong)?;
    cut_at_latest(rt, alloc, place)?;
    cut_too_late(rt, alloc, place, "b", Reason::NoChunk)
}

#[test]
fn a_chunk_starts_below_2_to_the_40(rt: HostRuntime) -> Result<(), Fail> {
    let mut place = plain_and_empty(rt.alloc())?;
    cut_around(&rt, rt.alloc(), &mut place)
}

/// Cuts a next file, which would begin with the sixth chunk.
fn cut_next(
    rt: &impl Abort,
    cutter: &mut ChunkCutter,
    place: &mut MemoryPlace,
    name: &str,
    reason: Reason,
) -> Result<(), Fail> {
    cutter.begin_input();
    assert!(rt; cutter.bytes().is_empty());
    cut_refused(rt, cutter, place, name, refused(6, 0, reason))
}

/// Cuts the plain chunk, and two next files.
fn cut_three(
    rt: &impl Abort,
    cutter: &mut ChunkCutter,
    place: &mut MemoryPlace,
) -> Result<(), Fail> {
    cut_plain(rt, cutter, place)?;
    cut_next(rt, cutter, place, "a", Reason::TooLong)?;
    cut_next(rt, cutter, place, "b", Reason::NoChunk)
}

/// Cuts them so that the second starts at 2^40.
fn cut_inputs(rt: &impl Abort, alloc: Global, place: &mut MemoryPlace) -> Result<(), Fail> {
    let mut cutter = ChunkCutter::new(alloc, (1 << 40) - 103, 5);
    cut_three(rt, &mut cutter, place)
}

#[test]
fn a_next_input_goes_on_with_numbers_and_starts(rt: HostRuntime) -> Result<(), Fail> {
    let mut place = plain_and_empty(rt.alloc())?;
    cut_inputs(&rt, rt.alloc(), &mut place)
}

/// The header of the plain chunk.
const HEADER: Header = Header {
    major: 2,
    minor: 1,
    size: 103,
    pools: 96,
    metadata: 68,
    start_nanos: 1000,
    duration_nanos: 5,
    start_ticks: 0,
    ticks_per_second: 1_000_000_000,
    state: 0,
    padding: 0,
    flags: 1,
};

/// Its bytes.
fn header_bytes() -> [u8; 68] {
    let mut bytes = [0; 68];
    bytes.copy_from_slice(&PLAIN[..68]);
    bytes
}

/// What is read of these bytes. This function has no clauses, so those that call it are proved without those of
/// `read_header`.
fn header_of(bytes: &[u8; 68]) -> Result<Header, Flaw> {
    read_header(bytes)
}

/// The bytes of the header as they are written.
fn written() -> [u8; 68] {
    let mut bytes = [255; 68];
    write_header(&HEADER, &mut bytes);
    bytes
}

/// The bytes of an unfinished chunk, whose integers aren't compressed.
fn unfinished() -> [u8; 68] {
    let mut bytes = header_bytes();
    bytes[64] = 1;
    bytes[67] = 0;
    bytes
}

/// An unfinished chunk is refused as such.
const UNFINISHED: Flaw = Flaw {
    offset: 64,
    reason: Reason::Unfinished,
};

#[test]
fn a_header_is_read_and_written(rt: HostRuntime) {
    let bytes = header_bytes();
    assert_eq!(rt; header_of(&bytes), Ok(HEADER));
    let written = written();
    assert_eq!(rt; written.as_slice(), bytes.as_slice());
    assert_eq!(rt; header_of(&unfinished()), Err(UNFINISHED));
}

#[test]
fn a_whole_chunk_is_a_cut(rt: HostRuntime) {
    assert!(rt; is_cut(&PLAIN));
    assert!(rt; !is_cut(&PLAIN[..102]));
    assert!(rt; !is_cut(&PLAIN[..67]));
}

/// The last four bytes of a chunk's size, and what is read of them.
type Size = ([u8; 4], Result<u64, Flaw>);

/// A size that is refused.
const BAD_SIZE: Result<u64, Flaw> = Err(Flaw {
    offset: 8,
    reason: Reason::ChunkSize,
});

static SIZES: [Size; 4] = [
    ([0x3F, 0xFF, 0xFF, 0xFF], Ok((1 << 30) - 1)),
    ([0x40, 0, 0, 0], BAD_SIZE),
    ([0, 0, 0, 68], Ok(68)),
    ([0, 0, 0, 67], BAD_SIZE),
];

/// The header of the plain chunk with these last four bytes of its size.
fn size_of(size: &[u8; 4]) -> Result<u64, Flaw> {
    let mut bytes = header_bytes();
    bytes[12..16].copy_from_slice(size);
    let header = header_of(&bytes)?;
    Ok(header.size)
}

/// Compares the size that is read.
fn see_size(rt: &impl Abort, (bytes, size): &Size) {
    assert_eq!(rt; size_of(bytes), *size, "of {bytes:?}");
}

#[test]
fn a_chunk_has_fewer_than_2_to_the_30_bytes(rt: HostRuntime) {
    for size in SIZES.iter() {
        see_size(&rt, size);
    }
}
