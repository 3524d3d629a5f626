//! Lines of a receipt in eight bytes each.
ghost use Rattle.std.specs.Prelude.{◌≡◌, ◌<◌, ◌^◌};
ghost use Rattle.jfr_verify.specs.Compact.{parent_in};
ghost use Rattle.jfr_verify.specs.Receipts.{parent_number};

use crate::{Line, Parent};
use std::marker::Model;

/// Added to the number of a parent that is an entry. Every number of an event or an entry is below this, since
/// a chunk has fewer bytes.
const ENTRY: u32 = 1 << 31;

/// A line in eight bytes, because a chunk can have millions of entries. Contracts see the line.
#[derive(Drop)]
pub(crate) struct CompactLine {
    entry: u32,
    parent: u32,
}

impl Model for CompactLine {
    ghost use Rattle.std.specs.Prelude.{◌<◌, ◌^◌};
    ghost use Rattle.jfr_verify.specs.declared.line.Line.{Line};
    ghost use Rattle.jfr_verify.specs.Compact.{parent_in};

    ghost Value = { Line };

    ghost view = { λ line. record { entry = line.entry; parent = parent_in line.parent } };

    ghost invariant = { λ line. line.entry < 2 ^ 31 };
}

impl CompactLine {
    /// The line in eight bytes.
    pub fn of(line: Line) -> CompactLine
        requires entry { line.entry < 2 ^ 31 }
        requires parent { parent_number line.parent < 2 ^ 31 }
        ensures { result ≡ line }
    {
        CompactLine {
            entry: line.entry as u32,
            parent: compact(line.parent),
        }
    }

    /// The line.
    pub fn line(&self) -> Line
        ensures exact { result ≡ self.now }
        ensures small { result.entry < 2 ^ 31 }
    {
        Line {
            entry: self.entry as usize,
            parent: parent_in(self.parent),
        }
    }
}

/// A parent in four bytes.
fn compact(parent: Parent) -> u32
    requires { parent_number parent < 2 ^ 31 }
    ensures { parent_in result ≡ parent }
{
    match parent {
        Parent::OfEvent(number) => number as u32,
        Parent::OfEntry(number) => number as u32 + ENTRY,
    }
}

/// The parent from its four bytes.
fn parent_in(kind_and_number: u32) -> Parent
    ensures { result ≡ parent_in kind_and_number }
{
    if kind_and_number < ENTRY {
        Parent::OfEvent(kind_and_number as usize)
    } else {
        Parent::OfEntry((kind_and_number - ENTRY) as usize)
    }
}
