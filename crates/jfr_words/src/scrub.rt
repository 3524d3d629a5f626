//! The words after `scrub`.
ghost use Rattle.std.specs.Prelude.{◌≡◌};
ghost use Rattle.std.specs.Str.{chars};
ghost use Rattle.jfr_words.specs.Scrubs.{no_scrub_option, scrub_from, scrub_with, yes_or_no};
ghost use Rattle.jfr_words.specs.Words.{IsRead};

use crate::filter_option::{FilterOption, filter_option_of, give_option};
use crate::name::read_two_names;
use crate::unread::{Named, UnreadWords};
use crate::{Order, WordsFault};
use jfr_filter::Filter;
use std::alloc::Global;

/// An option of `scrub`.
#[derive(Clone, Copy)]
pub enum ScrubOption {
    /// This option of the filter.
    Filter(FilterOption),
    /// Whether the keys of constants are numbered anew.
    Renumber,
}

/// The options of `scrub` given so far.
#[derive(Drop)]
pub struct ScrubSettings {
    pub filter: Filter,
    pub renumber: Option<bool>,
}

/// Reads the options of `scrub` and the names after them.
pub(crate) fn read_scrub(alloc: Global, unread: &mut UnreadWords<'_>) -> Result<Order, WordsFault>
    ensures { IsRead (scrub_from no_scrub_option unread.old) result (λ order. order) }
{
    let mut given = ScrubSettings::none(alloc);
    'options: while let Some(option) = unread.take_option() {
        let value = unread.next_word()?;
        given.give(option, value)?;
    }
    let (input, output) = read_two_names(alloc, unread)?;
    Ok(Order::Scrub {
        filter: given.filter,
        renumber: given.renumber.unwrap_or(false),
        input,
        output,
    })
}

impl ScrubSettings {
    /// No options given.
    fn none(alloc: Global) -> ScrubSettings
        ensures { result ≡ no_scrub_option }
    {
        ScrubSettings {
            filter: Filter::new(alloc),
            renumber: None,
        }
    }

    /// Sets an option to this value. A usage fault if it was set before or the word is not a value of it.
    fn give(&mut self, option: ScrubOption, value: &str) -> Result<(), WordsFault>
        ensures { IsRead (scrub_with option (chars value.now) self.old) result (λ _. self.new) }
    {
        match option {
            ScrubOption::Filter(option) => give_option(&mut self.filter, option, value),
            ScrubOption::Renumber => self.give_renumber(value),
        }
    }

    /// Sets whether keys are numbered anew. A usage fault if it was set before or the word is neither `yes`
    /// nor `no`.
    fn give_renumber(&mut self, value: &str) -> Result<(), WordsFault>
        ensures { IsRead (scrub_with ScrubOption.Renumber (chars value.now) self.old) result (λ _. self.new) }
    {
        if self.renumber.is_some() {
            return Err(WordsFault::Usage);
        }
        let renumber = yes_or_no(value).ok_or(WordsFault::Usage)?;
        self.renumber = Some(renumber);
        Ok(())
    }
}

/// True for the word `yes`, false for `no`; `None` for any other word.
fn yes_or_no(word: &str) -> Option<bool>
    ensures { result ≡ yes_or_no (chars word.now) }
{
    match word {
        "yes" => Some(true),
        "no" => Some(false),
        _ => None,
    }
}

impl Named for ScrubOption {
    ghost use Rattle.jfr_words.specs.Scrubs.{scrub_option_of};

    ghost named = { λ word. scrub_option_of word };

    fn of_word(word: &str) -> Option<Self> {
        match word {
            "--renumber" => Some(ScrubOption::Renumber),
            _ => match filter_option_of(word) {
                Some(option) => Some(ScrubOption::Filter(option)),
                None => None,
            },
        }
    }
}
