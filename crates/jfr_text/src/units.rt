//! UTF-16 units, each in the low 16 bits of an integer.
ghost use Rattle.std.specs.Prelude.{◌≡◌};
ghost use Rattle.std.specs.Iterator.{YieldsFirst, item_count};
ghost use Rattle.jfr_text.specs.Spans.{first_integers};
ghost use Rattle.jfr_text.specs.Strings.{low_units};

use jfr_base::{Var, read_within};
use std::marker::Model;

/// An iterator over UTF-16 units. Contracts see it as the list of those that are left: the low 16 bits of
/// each integer.
#[derive(Drop)]
pub(crate) struct Units<'a> {
    rest: &'a [u8],
    unread: u64,
}

impl<'a> Model for Units<'a> {
    ghost use Rattle.std.specs.Prelude.{ℕ, List};
    ghost use Rattle.jfr_text.specs.Spans.{first_integers};
    ghost use Rattle.jfr_text.specs.Strings.{low_units};

    ghost Value = { List ℕ };

    ghost view = { λ units. low_units (first_integers units.unread units.rest.now) };
}

impl<'a> Units<'a> {
    /// The units of the first `count` integers of a payload.
    pub(crate) fn new(payload: &'a [u8], count: u64) -> Units<'a>
        ensures { result ≡ low_units (first_integers count payload.now) }
    {
        Units {
            rest: payload,
            unread: count,
        }
    }
}

impl<'a> Iterator for Units<'a> {
    type Item = u16;

    ghost next_gives = { YieldsFirst (λ units. units) };

    ghost remaining = { item_count (λ units. units) };

    fn next(&mut self) -> Option<u16> {
        if self.unread == 0 {
            return None;
        }
        let Ok(Var { value, end }) = read_within(self.rest, 0, self.rest.len()) else {
            return None;
        };
        let (_, rest) = self.rest.split_at(end);
        self.rest = rest;
        self.unread -= 1;
        Some((value & 0xffff) as u16)
    }
}
