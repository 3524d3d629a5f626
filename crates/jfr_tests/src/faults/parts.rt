//! A recording with one chunk more than `disassemble` may make parts of, over a place of whose contents a contract
//! knows nothing.
use crate::runs::says_steadily;
use jfr_fixtures::PLAIN;
use jfr_outside::{Fault, Place, Words};
use std::alloc::Global;
use std::process::Abort;
use std::test::Fail;

// How many parts a recording may have.
const PARTS: u64 = 999_999;

// Its input is plain chunks. Outputs are counted and not kept.
#[derive(Drop)]
struct Chunks {
    left: u64,
    /// Where the next read begins in a chunk.
    at: usize,
    created: u64,
    finished: u64,
}

impl Place for Chunks {
    ghost use Rattle.std.specs.Prelude.{None, false};

    ghost state = { λ p. record { contents = None; read_faults = 0; write_faults = 0; steady = false } };

    fn open_input(&mut self, _name: &str) -> Result<(), Fault> {
        Ok(())
    }

    fn read(&mut self, into: &mut [u8]) -> Result<usize, Fault> {
        if self.left == 0 || self.at >= PLAIN.len() {
            return Ok(0);
        }
        let bytes = &PLAIN[self.at..];
        let count = bytes.len().min(into.len());
        into[..count].copy_from_slice(&bytes[..count]);
        self.at += count;
        if self.at == PLAIN.len() {
            self.at = 0;
            self.left -= 1;
        }
        Ok(count)
    }

    fn shut_input(&mut self) {}

    fn create_output(&mut self, _name: &str) -> Result<(), Fault> {
        self.created = self.created.saturating_add(1);
        Ok(())
    }

    fn append(&mut self, _bytes: &[u8]) -> Result<(), Fault> {
        Ok(())
    }

    fn append_pieces(&mut self, _pieces: &[&[u8]]) -> Result<(), Fault> {
        Ok(())
    }

    fn finish_output(&mut self) -> Result<(), Fault> {
        self.finished = self.finished.saturating_add(1);
        Ok(())
    }

    fn list(&mut self, alloc: Global, _folder: &str) -> Result<Words, Fault> {
        Ok(Words::new(alloc))
    }
}

// How many chunks more than parts there may be, the status, the line, and how many parts are finished.
type Row = (u64, u8, &'static str, u64);

const ROWS: [Row; 2] = [(0, 0, "", PARTS), (1, 6, "too many parts\n", PARTS - 1)];

// Splits a recording, and compares.
fn see_parts(rt: &impl Abort, alloc: Global, row: Row) -> Result<(), Fail> {
    let (more, status, line, finished) = row;
    let mut place = Chunks {
        left: PARTS.saturating_add(more),
        at: 0,
        created: 0,
        finished: 0,
    };
    let command = ["disassemble", "--max-chunks", "1", "a.jfr"];
    says_steadily(rt, alloc, &mut place, (&command, status, "", line))?;
    assert_eq!(rt; place.created, PARTS);
    assert_eq!(rt; place.finished, finished);
    Ok(())
}

#[test]
fn too_many_parts_are_refused(rt: HostRuntime) -> Result<(), Fail> {
    for row in ROWS.iter() {
        see_parts(&rt, rt.alloc(), *row)?;
    }
    Ok(())
}
