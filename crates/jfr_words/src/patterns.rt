//! The options of a filter that have lists of patterns.
ghost use Rattle.std.specs.Str.{chars};
ghost use Rattle.jfr_words.specs.Patterns.{given_patterns};
ghost use Rattle.jfr_words.specs.Words.{IsRead};

use crate::WordsFault;
use jfr_filter::{Filter, FilterFault, Side};

/// Sets the patterns of an option. A usage fault if they were set before or a pattern is empty.
pub(crate) fn give_patterns(filter: &mut Filter, side: Side, list: &str) -> Result<(), WordsFault>
    ensures { IsRead (given_patterns side (chars list.now) filter.old) result (λ _. filter.new) }
{
    if filter.has(side) {
        return Err(WordsFault::Usage);
    }
    match filter.add(side, list) {
        Ok(()) => Ok(()),
        Err(FilterFault::EmptyPattern) => Err(WordsFault::Usage),
        Err(FilterFault::Memory) => Err(WordsFault::Memory),
    }
}
