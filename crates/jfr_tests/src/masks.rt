//! Masks of the chunk of rings, and the known texts, the tables and the faults of masks.
use crate::contents::FilePart::{Bytes, Chunk, Plain};
use crate::contents::{Content, EMPTY, FilePart, OF_RINGS, ONE_PLAIN};
use crate::plays::{Play, see_plays};
use crate::runs::Said;
use jfr_fixtures::{CLASSES, CLASSES_OF_A, NO_CLASSES, TWICE};
use jfr_outside::Call;
use std::test::Fail;

/// The events: 300 and node 1 in `t.A`, and node 3 in `t.B`.
const A: &[u8] = b"\x05\x08\xAC\x02\x01";

const B: &[u8] = b"\x03\x09\x03";

/// The chunk of rings, if the texts of its nodes are masked.
#[rattlefmt::skip]
const MASKED_RINGS: FilePart = Chunk(&[
    CLASSES, A, B,
    b"\xBD\x80\x80\x80\0\x01\0\0\0\0\x01\x07\x04", // a checkpoint of 61 bytes with 4 of t.Node
    b"\x01\x02\x03\x08masked-1",                   // 1: next 2
    b"\x02\x01\x03\x08masked-2",                   // 2: next 1
    b"\x03\x04\x03\x08masked-3",                   // 3: next 4
    b"\x04\x03\x03\x08masked-4",                   // 4: next 3
], 333, 68);

/// The recording above, masked when q is known.
#[rattlefmt::skip]
const WITHOUT_Q: FilePart = Chunk(&[
    CLASSES, A, B,
    b"\xB6\x80\x80\x80\0\x01\0\0\0\0\x01\x07\x04", // a checkpoint of 54 bytes with 4 of t.Node
    b"\x01\x02\x03\x08masked-1",                   // 1: next 2
    b"\x02\x01\x03\x01q",                          // 2: next 1
    b"\x03\x04\x03\x08masked-2",                   // 3: next 4
    b"\x04\x03\x03\x08masked-3",                   // 4: next 3
], 333, 68);

/// Its event `t.A` and what this refers to.
#[rattlefmt::skip]
const FIRST_RING: FilePart = Chunk(&[
    CLASSES_OF_A, A,
    b"\xA5\x80\x80\x80\0\x01\0\0\0\0\x01\x07\x02", // a checkpoint of 37 bytes with 2 of t.Node
    b"\x01\x02\x03\x08masked-1",                   // 1: next 2
    b"\x02\x01\x03\x08masked-2",                   // 2: next 1
], 307, 68);

/// A checkpoint without pools.
const NO_POOLS_MASKED: &[u8] = b"\x8B\x80\x80\x80\0\x01\0\0\0\0\0";

/// A chunk with one node in two checkpoints, if it comes after the chunk of rings, where its text q was numbered.
#[rattlefmt::skip]
const MASKED_TWICE: FilePart = Chunk(&[
    CLASSES_OF_A,
    NO_POOLS_MASKED,
    A,
    b"\xA1\x80\x80\x80\0\x01\0\0",                 // a checkpoint of 33 bytes,
    b"\xF0\xFF\xFF\xFF\xFF\xFF\xFF\xFF\xFF\0\x01", // 16 bytes after the one before; one pool
    b"\x07\x01\x01\0\x03\x08masked-2",             // 1 of t.Node: 1: next 0
], 318, 68);

/// The chunk of rings and its masked chunk.
const RINGS_ONCE: Content = (&[OF_RINGS], &[]);

const MASKED_ONCE: Content = (&[MASKED_RINGS], &[]);

/// The plain chunk, where only the size of its checkpoint is written in another way.
const MASKED_PLAIN: Content = (&[Chunk(&[NO_CLASSES, NO_POOLS_MASKED], 96, 68)], &[]);

/// The table of all texts in the chunk of rings.
const TABLE: Content = (
    &[Bytes(b"masked-1 \"p\"\nmasked-2 \"q\"\nmasked-3 \"r\"\nmasked-4 \"s\"\n")],
    &[],
);

/// The table without q.
const TABLE_WITHOUT_Q: Content = (
    &[Bytes(b"masked-1 \"p\"\nmasked-2 \"r\"\nmasked-3 \"s\"\n")],
    &[],
);

/// A recording, and known texts.
const FILES: &[(&str, Content)] = &[
    ("a.jfr", RINGS_ONCE),
    ("k", (&[Bytes(b"q\nmasked-1\n")], &[])),
];

/// The words before the names of the files.
const MASK: &[&str] = &[
    "mask",
    "--strings",
    "t.Node.text",
    "--table",
    "t",
    "a.jfr",
    "b.jfr",
];

const MASK_UNKNOWN: &[&str] = &[
    "mask",
    "--known",
    "k",
    "--strings",
    "t.Node.text",
    "--table",
    "t",
    "a.jfr",
    "b.jfr",
];

/// Texts are masked, and those that are masked already stay; known texts stay; of the kept events, all is masked that
/// they refer to; one table has the texts of all chunks; a table may have none.
#[rattlefmt::skip]
static MASKS: [Play; 5] = [
    Play {
        files: FILES,
        faults: &[],
        commands: &[
            (MASK, 0, "", ""),
            (&["mask", "--strings", "*", "b.jfr", "c.jfr"], 0, "", ""),
        ],
        left: &[("b.jfr", Some(MASKED_ONCE)), ("t", Some(TABLE)), ("c.jfr", Some(MASKED_ONCE))],
    },
    Play {
        files: FILES,
        faults: &[],
        commands: &[(MASK_UNKNOWN, 0, "", "")],
        left: &[("b.jfr", Some((&[WITHOUT_Q], &[]))), ("t", Some(TABLE_WITHOUT_Q))],
    },
    Play {
        files: FILES,
        faults: &[],
        commands: &[(&["mask", "--include-events", "t.A", "--strings", "t.Node.*", "a.jfr", "b.jfr"], 0, "", "")],
        left: &[("b.jfr", Some((&[FIRST_RING], &[])))],
    },
    Play {
        files: &[("a.jfr", (&[OF_RINGS, Chunk(&[CLASSES, TWICE], 344, 68)], &[]))],
        faults: &[],
        commands: &[(MASK, 0, "", "")],
        left: &[("b.jfr", Some((&[MASKED_RINGS, MASKED_TWICE], &[]))), ("t", Some(TABLE))],
    },
    Play {
        files: &[("a.jfr", ONE_PLAIN)],
        faults: &[],
        commands: &[(MASK, 0, "", "")],
        left: &[("b.jfr", Some(MASKED_PLAIN)), ("t", Some(EMPTY))],
    },
];

#[test]
fn texts_are_masked(rt: HostRuntime) -> Result<(), Fail> {
    see_plays(&rt, rt.alloc(), &MASKS)
}

/// What someone else wrote.
const MINE: Content = (&[Bytes(b"mine")], &[]);

const READ_FAULT: &[Said<'static>] = &[(MASK_UNKNOWN, 3, "", "read fault\n")];

const WRITE_FAULT: &[Said<'static>] = &[(MASK, 4, "", "write fault\n")];

/// The file of known texts isn't there; the second chunk is refused; the output, the table, or both in one is there
/// already.
#[rattlefmt::skip]
static ENDINGS: [Play; 5] = [
    Play { files: &[("a.jfr", RINGS_ONCE)], faults: &[], commands: READ_FAULT, left: &[("b.jfr", None), ("t", None)] },
    Play {
        files: &[("a.jfr", (&[OF_RINGS, Plain], &[(362, 0x47)]))],
        faults: &[],
        commands: &[(MASK, 2, "", "chunk 2 offset 0: Magic\n")],
        left: &[("b.jfr", Some(MASKED_ONCE)), ("t", None)],
    },
    Play {
        files: &[("a.jfr", RINGS_ONCE), ("b.jfr", MINE)],
        faults: &[],
        commands: WRITE_FAULT,
        left: &[("b.jfr", Some(MINE)), ("t", None)],
    },
    Play {
        files: &[("a.jfr", RINGS_ONCE), ("t", MINE)],
        faults: &[],
        commands: WRITE_FAULT,
        left: &[("b.jfr", Some(MASKED_ONCE)), ("t", Some(MINE))],
    },
    Play {
        files: FILES,
        faults: &[],
        commands: &[(&["mask", "--strings", "*", "--table", "b.jfr", "a.jfr", "b.jfr"], 4, "", "write fault\n")],
        left: &[("b.jfr", Some(MASKED_ONCE))],
    },
];

#[test]
fn masks_end_early(rt: HostRuntime) -> Result<(), Fail> {
    see_plays(&rt, rt.alloc(), &ENDINGS)
}

/// Calls that fail: those of the file of known texts, the next ones, and those of the table.
#[rattlefmt::skip]
static FAULTS: [Play; 8] = [
    Play { files: FILES, faults: &[(Call::Open, 1, 0)], commands: READ_FAULT, left: &[("b.jfr", None)] },
    Play { files: FILES, faults: &[(Call::Read, 1, 0)], commands: READ_FAULT, left: &[("b.jfr", None)] },
    Play { files: FILES, faults: &[(Call::Open, 2, 0)], commands: READ_FAULT, left: &[("b.jfr", None)] },
    Play { files: FILES, faults: &[(Call::Read, 3, 0)], commands: READ_FAULT, left: &[("b.jfr", Some(EMPTY)), ("t", None)] },
    Play { files: FILES, faults: &[(Call::Finish, 1, 0)], commands: WRITE_FAULT, left: &[("b.jfr", Some(MASKED_ONCE)), ("t", None)] },
    Play { files: FILES, faults: &[(Call::Create, 2, 0)], commands: WRITE_FAULT, left: &[("b.jfr", Some(MASKED_ONCE)), ("t", None)] },
    Play { files: FILES, faults: &[(Call::Append, 2, 8)], commands: WRITE_FAULT, left: &[("b.jfr", Some(MASKED_ONCE)), ("t", Some((&[Bytes(b"masked-1")], &[])))] },
    Play { files: FILES, faults: &[(Call::Finish, 2, 0)], commands: WRITE_FAULT, left: &[("b.jfr", Some(MASKED_ONCE)), ("t", Some(TABLE))] },
];

#[test]
fn faults_of_masks_are_reported(rt: HostRuntime) -> Result<(), Fail> {
    see_plays(&rt, rt.alloc(), &FAULTS)
}
