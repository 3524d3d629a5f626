//! The position in a recording, of one file or several.
ghost use Rattle.std.specs.Prelude.{◌≡◌, ◌+◌, ◌≤◌, ◌^◌, [], true, false, IsTrue, IfSome, None};
ghost use Rattle.jfr_header.specs.Taking.{IfContentsKnown};
ghost use Rattle.jfr_header.specs.Nexts.{NextOf, CutOf, Counted};

use jfr_header::{ChunkCutter, Cut};
use jfr_outside::Place;
use std::alloc::Global;
use std::marker::Model;

/// The position in a recording: the offset of the next chunk, and its number. Over several files both
/// continue, and the memory for a chunk is used again. Contracts see the cutter.
#[derive(Drop)]
pub struct Position {
    cutter: ChunkCutter,
}

impl Model for Position {
    ghost use Rattle.std.specs.Prelude.{◌+◌, ◌*◌, ◌≤◌};
    ghost use Rattle.jfr_header.specs.Cutters.{Cutter};

    ghost Value = { Cutter };

    ghost view = { λ p. p.cutter };

    // Each chunk before has a header of 68 bytes.
    ghost invariant = { λ p. 68 * p.cutter.number ≤ p.cutter.start + 68 };
}

impl Position {
    /// The start of a recording. It allocates nothing.
    pub fn first(alloc: Global) -> Position
        ensures start { result.start ≡ 0 }
        ensures number { result.number ≡ 1 }
    {
        Position {
            cutter: ChunkCutter::new(alloc, 0, 1),
        }
    }

    /// Continues with the next input, which has just been opened.
    pub(crate) fn begin_input(&mut self)
        ensures start { self.new.start ≡ self.old.start }
        ensures number { self.new.number ≡ self.old.number }
        ensures first { self.new.given ≡ false }
        ensures live { self.new.live ≡ true }
    {
        self.cutter.begin_input();
    }

    /// Reads the next chunk.
    pub(crate) fn next<P: Place>(&mut self, place: &mut P) -> Cut
        requires { self.old.live ≡ true }
        ensures cut { CutOf result self.old self.new }
        ensures contents { IfContentsKnown (P.state place.old) (P.state place.new) (NextOf result self.old self.new) }
        ensures counts { Counted result (P.state place.old).read_faults (P.state place.new).read_faults }
        ensures writes { (P.state place.new).write_faults ≡ (P.state place.old).write_faults }
        ensures steady { (P.state place.new).steady ≡ (P.state place.old).steady }
        ensures fails { IsTrue ((P.state place.old).steady) → result ≡ Cut.Failed → IfSome (P.state place.old).contents (λ w. w.input ≡ None) }
        ensures small { result ≡ Cut.Chunk → self.new.number ≤ 17000000000 }
    {
        self.cutter.next(place)
    }

    /// The bytes of the last chunk read.
    pub(crate) fn bytes(&self) -> &[u8]
        ensures { result.now ≡ self.now.bytes }
    {
        self.cutter.bytes()
    }

    /// The number of the last chunk read.
    pub(crate) fn number(&self) -> u64
        requires { self.now.given ≡ true }
        ensures { result + 1 ≡ self.now.number }
    {
        self.cutter.number()
    }
}
