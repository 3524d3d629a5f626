//! The positions in an output chunk, and its header.
ghost use Rattle.std.specs.Prelude.{◌≡◌, unwrap_or};
ghost use Rattle.jfr_header.specs.Headers.{header_bytes};
ghost use Rattle.jfr_chunk.specs.Written.{distance};
ghost use Rattle.jfr_output.specs.Positions.{IsBefore};

use jfr_header::{Header, write_header};

/// The delta from this offset to the newest checkpoint before it, or 0 if there is none.
pub fn delta_to(newest: Option<usize>, at: usize) -> u64
    requires { IsBefore newest at }
    ensures { result ≡ distance at newest }
{
    match newest {
        Some(newest) => (newest as u64).wrapping_sub(at as u64),
        None => 0,
    }
}

/// The header of the output: that of the chunk with the size of the output and the offsets of its newest
/// checkpoint and of its metadata record, or 0 if they aren't there.
pub fn output_header(
    header: &Header,
    size: usize,
    newest: Option<usize>,
    metadata: Option<usize>,
) -> [u8; 68]
    ensures { result ≡ header_bytes (record (header.now) { size = size; pools = unwrap_or newest 0; metadata = unwrap_or metadata 0 }) }
{
    let moved = Header {
        size: size as u64,
        pools: newest.unwrap_or(0) as u64,
        metadata: metadata.unwrap_or(0) as u64,
        ..*header
    };
    let mut bytes = [0; 68];
    write_header(&moved, &mut bytes);
    bytes
}
