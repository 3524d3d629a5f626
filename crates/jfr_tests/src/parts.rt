//! The commands that split and join.
use crate::contents::FilePart::Plain;
use crate::contents::{Content, EMPTY, ONE_PLAIN, THREE_PLAIN, TWO_PLAIN};
use crate::plays::{Play, see_play, see_plays};
use jfr_outside::Call;
use std::test::Fail;

/// A recording of three plain chunks.
const RECORDING: &[(&str, Content)] = &[("r.jfr", THREE_PLAIN)];

/// It is cut into parts, which are joined again.
#[rattlefmt::skip]
static CUTS: [Play; 3] = [
    Play {
        files: RECORDING,
        faults: &[],
        commands: &[
            (&["disassemble", "--output", "d", "--max-chunks", "2", "r.jfr"], 0, "", ""),
            (&["assemble", "d", "o.jfr"], 0, "", ""),
        ],
        left: &[("d/r_000001.jfr", Some(TWO_PLAIN)), ("d/r_000002.jfr", Some(ONE_PLAIN)), ("d/r_000003.jfr", None), ("o.jfr", Some(THREE_PLAIN))],
    },
    Play {
        files: RECORDING,
        faults: &[],
        commands: &[
            (&["disassemble", "--output", "d", "--max-size", "50", "r.jfr"], 0, "", ""),
            (&["assemble", "d", "o.jfr"], 0, "", ""),
        ],
        left: &[("d/r_000001.jfr", Some(ONE_PLAIN)), ("d/r_000002.jfr", Some(ONE_PLAIN)), ("d/r_000003.jfr", Some(ONE_PLAIN)), ("o.jfr", Some(THREE_PLAIN))],
    },
    Play {
        files: RECORDING,
        faults: &[],
        commands: &[
            (&["disassemble", "--output", "d", "--max-chunks", "5", "--max-size", "206", "r.jfr"], 0, "", ""),
            (&["assemble", "d", "o.jfr"], 0, "", ""),
        ],
        left: &[("d/r_000001.jfr", Some(TWO_PLAIN)), ("d/r_000002.jfr", Some(ONE_PLAIN)), ("d/r_000003.jfr", None), ("o.jfr", Some(THREE_PLAIN))],
    },
];

#[test]
fn parts_come_back(rt: HostRuntime) -> Result<(), Fail> {
    see_plays(&rt, rt.alloc(), &CUTS)
}

/// The plain chunk with another start, and this chunk before the plain one.
const OTHER: Content = (&[Plain], &[(39, 7)]);

const JOINED: Content = (&[Plain, Plain], &[(39, 7)]);

/// Files are joined by their names, but for those of other kinds; and then with an empty one.
#[rattlefmt::skip]
static JOINS: [Play; 2] = [
    Play {
        files: &[("d/b.jfr", ONE_PLAIN), ("d/a.jfr", OTHER), ("d/c.txt", EMPTY)],
        faults: &[],
        commands: &[(&["assemble", "d", "o.jfr"], 0, "", "")],
        left: &[("o.jfr", Some(JOINED))],
    },
    Play {
        files: &[("d/b.jfr", ONE_PLAIN), ("d/a.jfr", OTHER), ("d/c.txt", EMPTY), ("o.jfr", JOINED), ("d/c.jfr", EMPTY)],
        faults: &[],
        commands: &[(&["assemble", "d", "p.jfr"], 2, "", "chunk 3 offset 0: NoChunk\n")],
        left: &[("p.jfr", Some(JOINED))],
    },
];

#[test]
fn files_are_joined_in_order(rt: HostRuntime) -> Result<(), Fail> {
    see_plays(&rt, rt.alloc(), &JOINS)
}

/// A folder without recordings has no chunk.
static NO_FILES: Play = Play {
    files: &[],
    faults: &[],
    commands: &[(
        &["assemble", "e", "o.jfr"],
        2,
        "",
        "chunk 1 offset 0: NoChunk\n",
    )],
    left: &[("o.jfr", Some(EMPTY))],
};

#[test]
fn an_empty_folder_is_refused(rt: HostRuntime) -> Result<(), Fail> {
    see_play(&rt, rt.alloc(), &NO_FILES)
}

/// Calls of the outside that fail, and what is left. If the second part can't be created, the first one is whole and
/// was finished, so that the next output that is finished is the second.
#[rattlefmt::skip]
static FAULTS: [Play; 4] = [
    Play {
        files: RECORDING,
        faults: &[(Call::Create, 2, 0), (Call::Finish, 2, 0)],
        commands: &[
            (&["disassemble", "--output", "d", "--max-chunks", "1", "r.jfr"], 4, "", "write fault\n"),
            (&["assemble", "d", "o.jfr"], 4, "", "write fault\n"),
        ],
        left: &[("d/r_000001.jfr", Some(ONE_PLAIN)), ("d/r_000002.jfr", None), ("o.jfr", Some(ONE_PLAIN))],
    },
    Play {
        files: RECORDING,
        faults: &[(Call::Create, 2, 0), (Call::Finish, 2, 0)],
        commands: &[
            (&["disassemble", "--output", "d", "--max-chunks", "2", "r.jfr"], 4, "", "write fault\n"),
            (&["assemble", "d", "o.jfr"], 4, "", "write fault\n"),
        ],
        left: &[("d/r_000001.jfr", Some(TWO_PLAIN)), ("d/r_000002.jfr", None), ("o.jfr", Some(TWO_PLAIN))],
    },
    Play {
        files: &[("d/a.jfr", ONE_PLAIN), ("d/b.jfr", ONE_PLAIN)],
        faults: &[(Call::List, 1, 0)],
        commands: &[(&["assemble", "d", "o.jfr"], 3, "", "read fault\n")],
        left: &[("o.jfr", None)],
    },
    Play {
        files: &[("d/a.jfr", ONE_PLAIN), ("d/b.jfr", ONE_PLAIN)],
        faults: &[(Call::Open, 2, 0)],
        commands: &[(&["assemble", "d", "o.jfr"], 3, "", "read fault\n")],
        left: &[("o.jfr", Some(ONE_PLAIN))],
    },
];

#[test]
fn faults_of_parts_are_reported(rt: HostRuntime) -> Result<(), Fail> {
    see_plays(&rt, rt.alloc(), &FAULTS)
}
