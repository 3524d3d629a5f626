//! Counting steps.
ghost use Rattle.std.specs.Prelude.{◌≡◌, ◌+◌, ◌<◌};

use std::marker::Model;
use std::sync::ledger::{Blank, Book, Ledger, Share};

/// The number of steps taken, for contracts that bound the work of a call. It takes no space at run time, and
/// only `tick` and `take` change it.
#[derive(Drop)]
pub struct Steps<L: Ledger> {
    book: Book<L>,
    share: Share<L>,
}

impl<L: Ledger> Model for Steps<L> {
    ghost use Rattle.std.specs.Prelude.{ℕ, ◌<◌};

    ghost Value = { ℕ };

    ghost view = { λ s. s.book.total };

    ghost invariant = { λ s. 0 < s.share.parts };
}

impl<L: Ledger> Steps<L> {
    /// A count of no steps, with a blank ledger.
    pub fn new(blank: Blank) -> Steps<L>
        requires name { blank.name ≡ L.name }
        requires parts { blank.parts ≡ L.parts }
        requires some { 0 < blank.parts }
        ensures { result ≡ 0 }
    {
        let (book, share) = blank.open();
        Steps { book, share }
    }

    /// Takes a step.
    pub fn tick(&mut self)
        ensures { self.new ≡ self.old + 1 }
    {
        self.take(1);
    }

    /// Takes some steps.
    pub fn take(&mut self, count: usize)
        ensures { self.new ≡ self.old + count }
    {
        self.book.add(&mut self.share, count as u64);
    }
}
