//! The words after `mask`.
ghost use Rattle.std.specs.Prelude.{◌≡◌};
ghost use Rattle.std.specs.Str.{chars};
ghost use Rattle.jfr_words.specs.Masks.{is_mask_given, list_in, mask_from, mask_with, no_mask_option};
ghost use Rattle.jfr_words.specs.Words.{IsRead};

use crate::filter_option::{FilterOption, filter_option_of, give_option};
use crate::name::{read_name, read_two_names};
use crate::unread::{Named, UnreadWords};
use crate::{Order, WordsFault};
use jfr_filter::{Filter, FilterFault, Patterns};
use jfr_outside::Text;
use std::alloc::Global;

/// An option of `mask`.
#[derive(Clone, Copy)]
pub enum MaskOption {
    /// This option of the filter.
    Filter(FilterOption),
    /// The patterns of the masked fields.
    Strings,
    /// The patterns of the fields that aren't masked although `--strings` matches them.
    Except,
    /// The file with the known texts.
    Known,
    /// The file for the table of pseudonyms.
    Table,
}

/// The options of `mask` given so far.
#[derive(Drop)]
pub struct MaskSettings {
    pub filter: Filter,
    pub strings: Option<Patterns>,
    pub except: Option<Patterns>,
    pub known: Option<Text>,
    pub table: Option<Text>,
}

/// Reads the options of `mask` and the names after them.
pub(crate) fn read_mask(alloc: Global, unread: &mut UnreadWords<'_>) -> Result<Order, WordsFault>
    ensures { IsRead (mask_from no_mask_option unread.old) result (λ order. order) }
{
    let mut given = MaskSettings::none(alloc);
    'options: while let Some(option) = unread.take_option() {
        let value = unread.next_word()?;
        given.give(alloc, option, value)?;
    }
    let strings = given.strings.ok_or(WordsFault::Usage)?;
    let (input, output) = read_two_names(alloc, unread)?;
    Ok(Order::Mask {
        filter: given.filter,
        strings,
        except: given.except,
        known: given.known,
        table: given.table,
        input,
        output,
    })
}

impl MaskSettings {
    /// No options given.
    fn none(alloc: Global) -> MaskSettings
        ensures { result ≡ no_mask_option }
    {
        MaskSettings {
            filter: Filter::new(alloc),
            strings: None,
            except: None,
            known: None,
            table: None,
        }
    }

    /// Sets an option to a value. A usage fault if it was set before, or the word isn't a value of this option.
    fn give(&mut self, alloc: Global, option: MaskOption, value: &str) -> Result<(), WordsFault>
        ensures { IsRead (mask_with option (chars value.now) self.old) result (λ _. self.new) }
    {
        if self.has(option) {
            return Err(WordsFault::Usage);
        }
        match option {
            MaskOption::Filter(option) => give_option(&mut self.filter, option, value)?,
            MaskOption::Strings => self.strings = Some(read_list(alloc, value)?),
            MaskOption::Except => self.except = Some(read_list(alloc, value)?),
            MaskOption::Known => self.known = Some(read_name(alloc, value)?),
            MaskOption::Table => self.table = Some(read_name(alloc, value)?),
        }
        Ok(())
    }

    /// Whether an option has been given. False for those of the filter, for which `give_option` looks.
    fn has(&self, option: MaskOption) -> bool
        ensures { result ≡ is_mask_given option self.now }
    {
        match option {
            MaskOption::Filter(_) => false,
            MaskOption::Strings => self.strings.is_some(),
            MaskOption::Except => self.except.is_some(),
            MaskOption::Known => self.known.is_some(),
            MaskOption::Table => self.table.is_some(),
        }
    }
}

/// The patterns of a list. A usage fault if a pattern is empty.
fn read_list(alloc: Global, list: &str) -> Result<Patterns, WordsFault>
    ensures { IsRead (list_in (chars list.now)) result (λ patterns. patterns) }
{
    match Patterns::read(alloc, list) {
        Ok(patterns) => Ok(patterns),
        Err(FilterFault::EmptyPattern) => Err(WordsFault::Usage),
        Err(FilterFault::Memory) => Err(WordsFault::Memory),
    }
}

impl Named for MaskOption {
    ghost use Rattle.jfr_words.specs.Masks.{mask_option_of};

    ghost named = { λ word. mask_option_of word };

    fn of_word(word: &str) -> Option<Self> {
        match word {
            "--strings" => Some(MaskOption::Strings),
            "--except" => Some(MaskOption::Except),
            "--known" => Some(MaskOption::Known),
            "--table" => Some(MaskOption::Table),
            _ => match filter_option_of(word) {
                Some(option) => Some(MaskOption::Filter(option)),
                None => None,
            },
        }
    }
}
