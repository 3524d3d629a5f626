//! The words after `sample`.
ghost use Rattle.jfr_words.specs.Words.{IsRead, sample_of};

use crate::number::read_number;
use crate::unread::UnreadWords;
use crate::{Order, WordsFault};

/// The most events that a sample may have.
const MOST_EVENTS: u64 = 1_000_000;

/// Reads the seed and the number of events.
pub(crate) fn read_sample(unread: &mut UnreadWords<'_>) -> Result<Order, WordsFault>
    ensures { IsRead (sample_of unread.old) result (λ order. order) }
{
    let seed = read_number(unread.next_word()?, 0, u32::MAX as u64)?;
    let events = read_number(unread.next_word()?, 1, MOST_EVENTS)?;
    unread.end()?;
    Ok(Order::Sample {
        seed: seed as u32,
        events: events as u32,
    })
}
