//! Masked chunks.
use jfr_base::ReadFault;
use jfr_chunk::{Chunk, Kept};
use jfr_filter::{Filter, Patterns};
use jfr_fixtures::{RINGS, with_classes};
use jfr_header::is_cut;
use jfr_mask::{Dictionary, Known, MaskOptions, mask_chunk};
use std::alloc::Global;
use std::process::Abort;
use std::test::Fail;

/// The chunk of rings, if the texts of its nodes are masked: every text has another number.
#[rattlefmt::skip]
static MASKED: &[u8] = &[
    5, 8, 0xAC, 2, 1,                                         // t.A: 300, node 1
    3, 9, 3,                                                  // t.B: node 3
    0xBD, 0x80, 0x80, 0x80, 0, 1, 0, 0, 0, 0, 1,              // a checkpoint of 61 bytes, one pool
    7, 4,                                                     // 4 of t.Node
    1, 2, 3, 8, b'm', b'a', b's', b'k', b'e', b'd', b'-', b'1', // 1: next 2, masked-1
    2, 1, 3, 8, b'm', b'a', b's', b'k', b'e', b'd', b'-', b'2', // 2: next 1, masked-2
    3, 4, 3, 8, b'm', b'a', b's', b'k', b'e', b'd', b'-', b'3', // 3: next 4, masked-3
    4, 3, 3, 8, b'm', b'a', b's', b'k', b'e', b'd', b'-', b'4', // 4: next 3, masked-4
];

/// If no field matches, only the size of the checkpoint gets five bytes.
#[rattlefmt::skip]
static SAME: &[u8] = &[
    5, 8, 0xAC, 2, 1,                            // t.A: 300, node 1
    3, 9, 3,                                     // t.B: node 3
    0xA1, 0x80, 0x80, 0x80, 0, 1, 0, 0, 0, 0, 1, // a checkpoint of 33 bytes, one pool
    7, 4,                                        // 4 of t.Node
    1, 2, 3, 1, 0x70,                            // 1: next 2, p
    2, 1, 3, 1, 0x71,                            // 2: next 1, q
    3, 4, 3, 1, 0x72,                            // 3: next 4, r
    4, 3, 3, 1, 0x73,                            // 4: next 3, s
];

/// Reads a whole chunk.
fn read<'a>(alloc: Global, bytes: &'a [u8]) -> Result<Chunk<'a>, ReadFault> {
    if !is_cut(bytes) {
        return Err(ReadFault::Memory);
    }
    Chunk::read(alloc, bytes)
}

/// Masks a chunk of which all events are kept, and compares it.
fn compare_chunk(
    rt: &impl Abort,
    alloc: Global,
    chunk: &Chunk<'_>,
    options: MaskOptions<'_>,
    dictionary: &mut Dictionary,
    expected: &[u8],
) -> Result<(), Fail> {
    let kept = Kept::all(alloc, chunk.event_count())?;
    let masked = mask_chunk(alloc, Vec::new(alloc), chunk, &kept, options, dictionary)?;
    assert_eq!(rt; masked.as_slice(), expected);
    Ok(())
}

/// Masks the chunk of rings twice with these patterns. The dictionary goes on, so the second time gives the same.
fn compare_rings(
    rt: &impl Abort,
    alloc: Global,
    strings: &str,
    expected: &[u8],
) -> Result<(), Fail> {
    let bytes = with_classes(alloc, RINGS, 333)?;
    let chunk = read(alloc, &bytes)?;
    let strings = Patterns::read(alloc, strings)?;
    let known = Known::new(alloc);
    let filter = Filter::new(alloc);
    let mut dictionary = Dictionary::new(alloc);
    let options = MaskOptions {
        strings: &strings,
        except: None,
        known: &known,
        filter: &filter,
    };
    compare_chunk(rt, alloc, &chunk, options, &mut dictionary, expected)?;
    compare_chunk(rt, alloc, &chunk, options, &mut dictionary, expected)
}

#[test]
fn texts_of_fields_are_masked(rt: HostRuntime) -> Result<(), Fail> {
    let alloc = rt.alloc();
    let masked = with_classes(alloc, MASKED, 333)?;
    compare_rings(&rt, alloc, "t.Node.text", &masked)
}

#[test]
fn other_fields_stay(rt: HostRuntime) -> Result<(), Fail> {
    let alloc = rt.alloc();
    let same = with_classes(alloc, SAME, 333)?;
    compare_rings(&rt, alloc, "t.A.text,t.Node.next", &same)
}
