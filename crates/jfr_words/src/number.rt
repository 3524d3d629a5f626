//! Numbers as words.
ghost use Rattle.std.specs.Prelude.{◌≤◌, IfOk};
ghost use Rattle.std.specs.Str.{chars};
ghost use Rattle.jfr_words.specs.Numbers.{number_in};
ghost use Rattle.jfr_words.specs.Words.{IsRead};

use crate::WordsFault;
use jfr_base::decimal_number;

/// The number from `low` to `high` that a word spells; a usage fault if it spells none.
pub(crate) fn read_number(word: &str, low: u64, high: u64) -> Result<u64, WordsFault>
    ensures read { IsRead (number_in low high (chars word.now)) result (λ number. number) }
    ensures range { IfOk result (λ number. (low ≤ number) × (number ≤ high)) }
{
    match decimal_number(word) {
        Some(number) if low <= number && number <= high => Ok(number),
        _ => Err(WordsFault::Usage),
    }
}
