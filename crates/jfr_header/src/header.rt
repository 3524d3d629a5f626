//! The 68 bytes of a chunk's header.
ghost use Rattle.std.specs.Prelude.{◌≡◌, ◌<◌, ◌≤◌, ◌+◌, ◌^◌, [], ◌∷◌, ◌++◌, ◌↔◌, take, length, None, Some, IfOk, IfErr, IsTrue};
ghost use Rattle.byteorder.specs.Endian.{big_bytes};
ghost use Rattle.jfr_header.specs.Headers.{header_of, header_bytes, number_at};
ghost use Rattle.jfr_header.specs.Made.{made_header};
ghost use Rattle.jfr_header.specs.Fronts.{header_flaw, field_flaw, Whole};

use byteorder::{BigEndian, ByteOrder};
use jfr_base::{Flaw, HEADER_LEN, Reason};

/// The first four bytes of a chunk, `FLR` and a zero, as a big-endian number.
const MAGIC: u32 = 0x464C_5200;

/// A chunk has fewer bytes than this.
const SIZE_LIMIT: u64 = 1 << 30;

/// The header of a chunk (docs/FORMAT.md, Chunk header). Positions are offsets from the chunk's first byte.
#[derive(Clone, Copy, Debug, PartialEq, Eq)]
pub struct Header {
    /// The major version of the format; 2 in every chunk that is accepted.
    pub major: u16,
    /// The minor version; any is accepted.
    pub minor: u16,
    /// The chunk's size in bytes, including the header.
    pub size: u64,
    /// The position of the last checkpoint.
    pub pools: u64,
    /// The position of the metadata record.
    pub metadata: u64,
    /// When the chunk starts, in nanoseconds since 1970.
    pub start_nanos: u64,
    /// How long the chunk lasts, in nanoseconds.
    pub duration_nanos: u64,
    /// When the chunk starts, in ticks.
    pub start_ticks: u64,
    /// The number of ticks in a second.
    pub ticks_per_second: u64,
    /// 0 if the chunk is finished.
    pub state: u8,
    /// A byte without meaning, which is preserved.
    pub padding: u8,
    /// Bit 0: the integers are compressed. Bit 1: this is the last chunk of the recording; it isn't checked.
    pub flags: u16,
}

impl Header {
    /// The header of a chunk that this program makes, with this size and its last checkpoint at `pools`:
    /// version 2.1, 10^9 ticks in a second, compressed integers, the last chunk of its recording. The metadata
    /// record follows the header. The chunk starts at 0 and lasts 0, in nanoseconds and in ticks.
    pub fn made(size: u64, pools: u64) -> Header
        ensures { result ≡ made_header size pools }
    {
        Header {
            major: 2,
            minor: 1,
            size,
            pools,
            metadata: HEADER_LEN as u64,
            start_nanos: 0,
            duration_nanos: 0,
            start_ticks: 0,
            ticks_per_second: 1_000_000_000,
            state: 0,
            padding: 0,
            flags: 3,
        }
    }
}

/// The number of two bytes at an offset.
fn u16_at(bytes: &[u8], at: usize) -> u16
    requires { at + 2 ≤ length bytes.now }
    ensures { result ≡ number_at at 2 bytes.now }
{
    BigEndian::read_u16(&bytes[at..])
}

/// The number of eight bytes at an offset.
fn u64_at(bytes: &[u8], at: usize) -> u64
    requires { at + 8 ≤ length bytes.now }
    ensures { result ≡ number_at at 8 bytes.now }
{
    BigEndian::read_u64(&bytes[at..])
}

/// The fields, each at its offset.
fn fields(bytes: &[u8; HEADER_LEN]) -> Header
    ensures { result ≡ header_of bytes.now }
{
    Header {
        major: u16_at(bytes, 4),
        minor: u16_at(bytes, 6),
        size: u64_at(bytes, 8),
        pools: u64_at(bytes, 16),
        metadata: u64_at(bytes, 24),
        start_nanos: u64_at(bytes, 32),
        duration_nanos: u64_at(bytes, 40),
        start_ticks: u64_at(bytes, 48),
        ticks_per_second: u64_at(bytes, 56),
        state: bytes[64],
        padding: bytes[65],
        flags: u16_at(bytes, 66),
    }
}

/// The first flaw in the fields, if there is one.
fn flaw_in(header: &Header) -> Option<Flaw>
    ensures { result ≡ field_flaw header.now }
{
    let (offset, reason) = if header.major != 2 {
        (4, Reason::Version)
    } else if header.state != 0 {
        (64, Reason::Unfinished)
    } else if header.flags % 2 == 0 {
        (67, Reason::NotCompact)
    } else if header.size < HEADER_LEN as u64 || header.size >= SIZE_LIMIT {
        (8, Reason::ChunkSize)
    } else {
        return None;
    };
    Some(Flaw { offset, reason })
}

/// Reads a header. It is refused for the first of these reasons that applies: `Magic` if the magic bytes are
/// wrong, `Version` if the major version isn't 2, `Unfinished` if the state isn't 0, `NotCompact` if the
/// integers aren't compressed, `ChunkSize` if the size is below 68, or is 2^30 or more.
#[tactic(auto, unfolding(crate::specs::Fronts::header_flaw))]
pub fn read_header(bytes: &[u8; HEADER_LEN]) -> Result<Header, Flaw>
    ensures ok { IfOk result (λ header. (header_flaw bytes.now ≡ None) × (header ≡ header_of bytes.now)) }
    ensures refused { IfErr result (λ flaw. header_flaw bytes.now ≡ Some flaw) }
{
    if BigEndian::read_u32(bytes) != MAGIC {
        return Err(Flaw {
            offset: 0,
            reason: Reason::Magic,
        });
    }
    let header = fields(bytes);
    match flaw_in(&header) {
        Some(flaw) => Err(flaw),
        None => Ok(header),
    }
}

/// Writes a byte at an offset.
fn put_u8(into: &mut [u8], at: usize, value: u8)
    requires { at + 1 ≤ length into.old }
    ensures { take (at + 1) into.new ≡ take at into.old ++ value ∷ [] }
{
    into[at] = value;
}

/// Writes a number of two bytes at an offset.
fn put_u16(into: &mut [u8], at: usize, value: u16)
    requires { at + 2 ≤ length into.old }
    ensures bytes { take (at + 2) into.new ≡ take at into.old ++ big_bytes 2 value }
    ensures range { value < 2 ^ 16 }
{
    BigEndian::write_u16(&mut into[at..], value);
}

/// Writes a number of eight bytes at an offset.
fn put_u64(into: &mut [u8], at: usize, value: u64)
    requires { at + 8 ≤ length into.old }
    ensures bytes { take (at + 8) into.new ≡ take at into.old ++ big_bytes 8 value }
    ensures range { value < 2 ^ 64 }
{
    BigEndian::write_u64(&mut into[at..], value);
}

/// Writes a header, each field at its offset.
pub fn write_header(header: &Header, into: &mut [u8; HEADER_LEN])
    ensures layout { into.new ≡ header_bytes header.now }
    ensures read_back { field_flaw header.now ≡ None → (header_flaw into.new ≡ None) × (header_of into.new ≡ header.now) }
{
    BigEndian::write_u32(into, MAGIC);
    put_u16(into, 4, header.major);
    put_u16(into, 6, header.minor);
    put_u64(into, 8, header.size);
    put_u64(into, 16, header.pools);
    put_u64(into, 24, header.metadata);
    put_u64(into, 32, header.start_nanos);
    put_u64(into, 40, header.duration_nanos);
    put_u64(into, 48, header.start_ticks);
    put_u64(into, 56, header.ticks_per_second);
    put_u8(into, 64, header.state);
    put_u8(into, 65, header.padding);
    put_u16(into, 66, header.flags);
}

/// Whether the bytes are one whole chunk: their header isn't refused, and its size is their length.
pub fn is_cut(bytes: &[u8]) -> bool
    ensures { IsTrue result ↔ Whole bytes.now }
{
    let Some(header) = bytes.first_chunk::<HEADER_LEN>() else {
        return false;
    };
    match read_header(header) {
        Ok(header) => header.size == bytes.len() as u64,
        Err(_) => false,
    }
}
