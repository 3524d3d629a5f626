//! The options of a filter, each by itself.
ghost use Rattle.std.specs.Prelude.{◌≡◌};
ghost use Rattle.std.specs.Str.{chars};
ghost use Rattle.jfr_words.specs.FilterOptions.{filter_option_of, shown_option_of, window_option_of, moment_in, given_with};
ghost use Rattle.jfr_words.specs.Words.{IsRead};

use crate::WordsFault;
use crate::number::read_number;
use crate::patterns::give_patterns;
use crate::unread::Named;
use jfr_filter::{Filter, Side};

/// An option of a filter.
#[derive(Clone, Copy)]
pub enum FilterOption {
    /// The list of patterns of this option.
    Patterns(Side),
    /// The first moment of the time window.
    From,
    /// The first moment after the time window.
    To,
}

/// The greatest number of nanoseconds since 1970 that is a moment.
const LAST_MOMENT: u64 = i64::MAX as u64;

/// The option of a filter that a word names in `scrub`, `receipt`, `verify` and `mask`, if any.
pub(crate) fn filter_option_of(word: &str) -> Option<FilterOption>
    ensures { result ≡ filter_option_of (chars word.now) }
{
    match word {
        "--include-events" => Some(FilterOption::Patterns(Side::IncludeEvents)),
        "--exclude-events" => Some(FilterOption::Patterns(Side::ExcludeEvents)),
        "--include-categories" => Some(FilterOption::Patterns(Side::IncludeCategories)),
        "--exclude-categories" => Some(FilterOption::Patterns(Side::ExcludeCategories)),
        "--include-threads" => Some(FilterOption::Patterns(Side::IncludeThreads)),
        "--exclude-threads" => Some(FilterOption::Patterns(Side::ExcludeThreads)),
        "--describe" => Some(FilterOption::Patterns(Side::Describe)),
        _ => window_option_of(word),
    }
}

/// The option of a filter that a word names in `print` and `stacks`, if any.
pub(crate) fn shown_option_of(word: &str) -> Option<FilterOption>
    ensures { result ≡ shown_option_of (chars word.now) }
{
    match word {
        "--events" => Some(FilterOption::Patterns(Side::IncludeEvents)),
        "--categories" => Some(FilterOption::Patterns(Side::IncludeCategories)),
        _ => window_option_of(word),
    }
}

/// The option about a time window that a word names, if any.
fn window_option_of(word: &str) -> Option<FilterOption>
    ensures { result ≡ window_option_of (chars word.now) }
{
    match word {
        "--from" => Some(FilterOption::From),
        "--to" => Some(FilterOption::To),
        "--always" => Some(FilterOption::Patterns(Side::Always)),
        _ => None,
    }
}

/// Sets an option to this value. A usage fault if it was set before or the word is not a value of it.
pub(crate) fn give_option(
    filter: &mut Filter,
    option: FilterOption,
    value: &str,
) -> Result<(), WordsFault>
    ensures { IsRead (given_with option (chars value.now) filter.old) result (λ _. filter.new) }
{
    match option {
        FilterOption::Patterns(side) => give_patterns(filter, side, value),
        FilterOption::From => give_from(filter, value),
        FilterOption::To => give_to(filter, value),
    }
}

/// Begins the time window. A usage fault if its beginning was set before or the word is not a moment.
fn give_from(filter: &mut Filter, value: &str) -> Result<(), WordsFault>
    ensures { IsRead (given_with FilterOption.From (chars value.now) filter.old) result (λ _. filter.new) }
{
    if filter.from().is_some() {
        return Err(WordsFault::Usage);
    }
    let moment = read_moment(value)?;
    filter.set_from(moment);
    Ok(())
}

/// Ends the time window. A usage fault if its end was set before or the word is not a moment.
fn give_to(filter: &mut Filter, value: &str) -> Result<(), WordsFault>
    ensures { IsRead (given_with FilterOption.To (chars value.now) filter.old) result (λ _. filter.new) }
{
    if filter.to().is_some() {
        return Err(WordsFault::Usage);
    }
    let moment = read_moment(value)?;
    filter.set_to(moment);
    Ok(())
}

/// The nanoseconds since 1970 that a word spells; a usage fault if it spells none.
fn read_moment(word: &str) -> Result<i64, WordsFault>
    ensures { IsRead (moment_in (chars word.now)) result (λ moment. moment) }
{
    let nanoseconds = read_number(word, 0, LAST_MOMENT)?;
    Ok(nanoseconds as i64)
}

impl Named for FilterOption {
    ghost use Rattle.jfr_words.specs.FilterOptions.{filter_option_of};

    ghost named = { λ word. filter_option_of word };

    fn of_word(word: &str) -> Option<Self> {
        filter_option_of(word)
    }
}
