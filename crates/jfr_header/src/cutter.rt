//! Reading a recording chunk by chunk.
ghost use Rattle.std.specs.Prelude.{◌≡◌, ◌<◌, ◌≤◌, ◌+◌, ◌^◌, [], true, false, None, IsTrue, IfSome};
ghost use Rattle.jfr_header.specs.Taking.{Took, Takes, IfContentsKnown, IfUnread, IsKept};
ghost use Rattle.jfr_header.specs.Nexts.{NextOf, CutOf, Counted, IsDue, IfRefused, answer_to, ahead_of, is_header};

use crate::buffer::Buffer;
use crate::ending::with_number;
use crate::judge::{NextChunk, judge};
use jfr_base::{HEADER_LEN, Reason, Refusal};
use jfr_outside::{Fault, Place};
use std::alloc::Global;
use std::marker::Model;

/// What `ChunkCutter::next` found.
#[derive(Clone, Copy, Debug, PartialEq, Eq)]
pub enum Cut {
    /// The next chunk, read whole.
    Chunk,
    /// The end of the recording, after at least one chunk.
    End,
    /// The rest of the recording is refused. The refusal has the number of the chunk that would have come
    /// next.
    Refused(Refusal),
    /// A read failed.
    Failed,
    /// Memory ran out.
    Memory,
}

/// Reads a recording from the open input of a place, chunk by chunk.
#[derive(Drop)]
pub struct ChunkCutter {
    bytes: Buffer,
    start: u64,
    number: u64,
    given: bool,
    live: bool,
}

impl Model for ChunkCutter {
    ghost use Rattle.jfr_header.specs.Cutters.{Cutter, IsInRange};

    ghost Value = { Cutter };

    ghost view = { λ c. record { bytes = c.bytes; start = c.start; number = c.number; given = c.given; live = c.live } };

    ghost invariant = { λ c. IsInRange c.start c.number c.given };
}

impl ChunkCutter {
    /// A cutter that reads from the input that is open at each call of `next`. The first chunk has the number
    /// `number` and starts at the byte `start` of the recording; for a whole recording these are 1 and 0. It
    /// allocates nothing.
    pub fn new(alloc: Global, start: u64, number: u64) -> ChunkCutter
        requires start { start < 2 ^ 62 }
        requires number { number < 2 ^ 62 }
        ensures start { result.start ≡ start }
        ensures number { result.number ≡ number }
        ensures empty { result.bytes ≡ [] }
        ensures first { result.given ≡ false }
        ensures live { result.live ≡ true }
    {
        ChunkCutter {
            bytes: Buffer::new(alloc),
            start,
            number,
            given: false,
            live: true,
        }
    }

    /// Continues with a new input. The number and the start of its first chunk follow those of the last chunk
    /// of the input before. The memory for a chunk's bytes is used again.
    pub fn begin_input(&mut self)
        ensures start { self.new.start ≡ self.old.start }
        ensures number { self.new.number ≡ self.old.number }
        ensures empty { self.new.bytes ≡ [] }
        ensures first { self.new.given ≡ false }
        ensures live { self.new.live ≡ true }
    {
        self.bytes.clear();
        self.given = false;
        self.live = true;
    }

    /// Whether every answer for this input so far was a chunk.
    pub fn is_open(&self) -> bool
        ensures { result ≡ self.now.live }
    {
        self.live
    }

    /// The bytes of the last chunk while the cutter is open; empty before the first chunk. After any answer
    /// but a chunk they are unspecified.
    pub fn bytes(&self) -> &[u8]
        ensures { result.now ≡ self.now.bytes }
    {
        self.bytes.as_slice()
    }

    /// The number of the last chunk.
    pub fn number(&self) -> u64
        requires { self.now.given ≡ true }
        ensures { result + 1 ≡ self.now.number }
    {
        self.number - 1
    }

    /// The body of `next`, which derives its further clauses from these.
    fn advance<P: Place>(&mut self, place: &mut P) -> Cut
        ensures cut { CutOf result self.old self.new }
        ensures contents { IfContentsKnown (P.state place.old) (P.state place.new) (NextOf result self.old self.new) }
        ensures counts { Counted result (P.state place.old).read_faults (P.state place.new).read_faults }
        ensures writes { (P.state place.new).write_faults ≡ (P.state place.old).write_faults }
        ensures steady { (P.state place.new).steady ≡ (P.state place.old).steady }
        ensures fails { IsTrue ((P.state place.old).steady) → result ≡ Cut.Failed → IfSome (P.state place.old).contents (λ w. w.input ≡ None) }
    {
        self.live = false;
        self.bytes.clear();
        match self.bytes.fill(place, HEADER_LEN) {
            Ok(()) => {}
            Err(Fault::Failed) => return Cut::Failed,
            Err(Fault::Memory) => return Cut::Memory,
        }
        let size = match judge(self.bytes.as_slice(), self.start, self.given) {
            NextChunk::End => return Cut::End,
            NextChunk::Bad(flaw) => return Cut::Refused(with_number(flaw, self.number)),
            NextChunk::Sized(size) => size,
        };
        match self.bytes.fill(place, size) {
            Ok(()) => {}
            Err(Fault::Failed) => return Cut::Failed,
            Err(Fault::Memory) => return Cut::Memory,
        }
        let count = self.bytes.len();
        if count < size {
            return Cut::Refused(Refusal {
                chunk: self.number,
                offset: count as u64,
                reason: Reason::ShortChunk,
            });
        }
        self.start += size as u64;
        self.number += 1;
        self.given = true;
        self.live = true;
        Cut::Chunk
    }

    /// Reads the next chunk from the open input: its header, and then the rest, by the size in the header.
    pub fn next<P: Place>(&mut self, place: &mut P) -> Cut
        requires { self.old.live ≡ true }

        // What each answer says about the cutter, and about a place with known contents.
        ensures cut { CutOf result self.old self.new }
        ensures contents { IfContentsKnown (P.state place.old) (P.state place.new) (NextOf result self.old self.new) }

        // The first bytes of what is left decide the answer, except for faults and running out of memory.
        ensures decides { IfUnread (P.state place.old) (λ rest. IsDue result (answer_to self.old.number (ahead_of self.old rest))) }

        // The bytes that were read: after a flaw of the header only the header, and after any other answer no
        // byte past the header and its chunk.
        ensures chunk_taken { result ≡ Cut.Chunk → IfContentsKnown (P.state place.old) (P.state place.new) (Took self.new.bytes) }
        ensures header_taken { IfRefused result (λ r. is_header r.reason ≡ true → IfContentsKnown (P.state place.old) (P.state place.new) (Takes (λ taken most. taken ≡ 68))) }
        ensures at_most { IfContentsKnown (P.state place.old) (P.state place.new) (Takes (λ taken most. taken ≤ most)) }
        ensures not_whole { result ≡ Cut.Failed → IfContentsKnown (P.state place.old) (P.state place.new) (Takes (λ taken most. taken < most)) }

        // Only the input of the place changes, and after Failed the count of failed reads.
        ensures unchanged { IfContentsKnown (P.state place.old) (P.state place.new) IsKept }
        ensures counts { Counted result (P.state place.old).read_faults (P.state place.new).read_faults }
        ensures writes { (P.state place.new).write_faults ≡ (P.state place.old).write_faults }
        ensures steady { (P.state place.new).steady ≡ (P.state place.old).steady }

        // On a steady place with an open input no read fails.
        ensures fails { IsTrue ((P.state place.old).steady) → result ≡ Cut.Failed → IfSome (P.state place.old).contents (λ w. w.input ≡ None) }
    {
        self.advance(place)
    }
}
