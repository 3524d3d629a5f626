//! The words after `print`.
ghost use Rattle.std.specs.Prelude.{◌≡◌, ◌≤◌, ◌∷◌, ℕ, List, length, Some, OnOk};
ghost use Rattle.std.specs.Str.{chars};
ghost use Rattle.jfr_words.specs.Prints.{no_print_option, print_option_of, print_from, print_with};
ghost use Rattle.jfr_words.specs.Words.{IsRead, StillGives};

use crate::filter_option::{FilterOption, give_option, shown_option_of};
use crate::name::read_only_name;
use crate::number::read_number;
use crate::unread::{Named, UnreadWords};
use crate::{Order, WordsFault};
use jfr_filter::Filter;
use std::alloc::Global;

/// An option of `print`.
#[derive(Clone, Copy)]
pub enum PrintOption {
    /// This option of the filter.
    Filter(FilterOption),
    /// The depth to which references are followed.
    Depth,
    /// Output as lines of JSON. This option has no value.
    Json,
}

/// The options of `print` given so far.
#[derive(Drop)]
pub struct PrintSettings {
    pub filter: Filter,
    pub depth: Option<u8>,
    pub json: bool,
}

/// The greatest depth to which references are followed.
const DEEPEST: u64 = 8;

/// The depth if the option isn't given.
const USUAL_DEPTH: u8 = 2;

/// Reads the options of `print` and the name after them.
pub(crate) fn read_print(alloc: Global, unread: &mut UnreadWords<'_>) -> Result<Order, WordsFault>
    ensures { IsRead (print_from no_print_option unread.old) result (λ order. order) }
{
    let mut given = PrintSettings::none(alloc);
    'options: while let Some(option) = unread.take_option() {
        given.give(option, unread)?;
    }
    let file = read_only_name(alloc, unread)?;
    Ok(Order::Print {
        filter: given.filter,
        depth: given.depth.unwrap_or(USUAL_DEPTH),
        json: given.json,
        file,
    })
}

impl PrintSettings {
    /// No options given.
    fn none(alloc: Global) -> PrintSettings
        ensures { result ≡ no_print_option }
    {
        PrintSettings {
            filter: Filter::new(alloc),
            depth: None,
            json: false,
        }
    }

    /// Sets an option. Its value is the first word that is left; only `--json` has no value.
    fn give(&mut self, option: PrintOption, unread: &mut UnreadWords<'_>) -> Result<(), WordsFault>
        ensures given { (word : List ℕ) → print_option_of word ≡ Some option → StillGives (print_from self.old (word ∷ unread.old)) (print_from self.new unread.new) result }
        ensures fewer { OnOk result (length unread.new ≤ length unread.old) }
    {
        match option {
            PrintOption::Filter(option) => give_option(
                &mut self.filter,
                option,
                unread.next_word()?,
            ),
            PrintOption::Depth => self.give_depth(unread.next_word()?),
            PrintOption::Json => self.give_json(),
        }
    }

    /// Sets the depth. A usage fault if it was set before or the word is not a depth.
    fn give_depth(&mut self, value: &str) -> Result<(), WordsFault>
        ensures { IsRead (print_with PrintOption.Depth (chars value.now) self.old) result (λ _. self.new) }
    {
        if self.depth.is_some() {
            return Err(WordsFault::Usage);
        }
        let depth = read_number(value, 0, DEEPEST)?;
        self.depth = Some(depth as u8);
        Ok(())
    }

    /// Sets the output to lines of JSON. A usage fault if it was set before.
    fn give_json(&mut self) -> Result<(), WordsFault>
        ensures { (next : List ℕ) → IsRead (print_with PrintOption.Json next self.old) result (λ _. self.new) }
    {
        if self.json {
            return Err(WordsFault::Usage);
        }
        self.json = true;
        Ok(())
    }
}

impl Named for PrintOption {
    ghost use Rattle.jfr_words.specs.Prints.{print_option_of};

    ghost named = { λ word. print_option_of word };

    fn of_word(word: &str) -> Option<Self> {
        match word {
            "--depth" => Some(PrintOption::Depth),
            "--json" => Some(PrintOption::Json),
            _ => match shown_option_of(word) {
                Some(option) => Some(PrintOption::Filter(option)),
                None => None,
            },
        }
    }
}
