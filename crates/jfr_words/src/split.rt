//! Reads the words after `disassemble`.
ghost use Rattle.std.specs.Prelude.{◌≡◌};
ghost use Rattle.std.specs.Str.{chars};
ghost use Rattle.jfr_words.specs.Splits.{no_split_option, split_with, split_from, split_rule, is_split_given};
ghost use Rattle.jfr_words.specs.Words.{IsRead};

use crate::name::{read_name, read_only_name};
use crate::number::read_number;
use crate::unread::{Named, UnreadWords};
use crate::{Order, WordsFault};
use jfr_outside::Text;
use jfr_split::SplitRule;
use std::alloc::Global;

/// An option of `disassemble`.
#[derive(Clone, Copy)]
pub enum SplitOption {
    /// The folder for the parts.
    Output,
    /// The most chunks that a part may have.
    MaxChunks,
    /// The most bytes that a part of several chunks may have.
    MaxSize,
}

/// The options of `disassemble` given so far.
#[derive(Drop)]
pub struct SplitSettings {
    pub folder: Option<Text>,
    pub max_chunks: Option<u64>,
    pub max_size: Option<u64>,
}

/// The value of `--max-chunks` if the option isn't given.
const USUAL_CHUNKS: u64 = 5;

/// The greatest value that `--max-chunks` may have.
const MOST_CHUNKS: u64 = u32::MAX as u64;

/// The greatest value that `--max-size` may have, and its value if the option isn't given.
const MOST_BYTES: u64 = 1 << 40;

/// The greatest number of parts.
const MOST_PARTS: u64 = 999_999;

/// Reads the options of `disassemble` and the name after them.
pub(crate) fn read_split(alloc: Global, unread: &mut UnreadWords<'_>) -> Result<Order, WordsFault>
    ensures { IsRead (split_from no_split_option unread.old) result (λ order. order) }
{
    let mut given = SplitSettings::none();
    'options: while let Some(option) = unread.take_option() {
        let value = unread.next_word()?;
        given.give(alloc, option, value)?;
    }
    let file = read_only_name(alloc, unread)?;
    Ok(Order::Disassemble {
        file,
        rule: given.rule(),
    })
}

impl SplitSettings {
    /// No options given.
    fn none() -> SplitSettings
        ensures { result ≡ no_split_option }
    {
        SplitSettings {
            folder: None,
            max_chunks: None,
            max_size: None,
        }
    }

    /// Sets an option to a value. A usage fault if it was set before, or the word isn't a value of this option.
    fn give(&mut self, alloc: Global, option: SplitOption, value: &str) -> Result<(), WordsFault>
        ensures { IsRead (split_with option (chars value.now) self.old) result (λ _. self.new) }
    {
        if self.has(option) {
            return Err(WordsFault::Usage);
        }
        match option {
            SplitOption::Output => self.folder = Some(read_name(alloc, value)?),
            SplitOption::MaxChunks => self.max_chunks = Some(read_number(value, 1, MOST_CHUNKS)?),
            SplitOption::MaxSize => self.max_size = Some(read_number(value, 1, MOST_BYTES)?),
        }
        Ok(())
    }

    /// Whether an option has been given.
    fn has(&self, option: SplitOption) -> bool
        ensures { result ≡ is_split_given option self.now }
    {
        match option {
            SplitOption::Output => self.folder.is_some(),
            SplitOption::MaxChunks => self.max_chunks.is_some(),
            SplitOption::MaxSize => self.max_size.is_some(),
        }
    }

    /// The rule for parts that these options make, with the default values of those that aren't given.
    fn rule(self) -> SplitRule
        ensures { result ≡ split_rule self }
    {
        SplitRule {
            folder: self.folder,
            max_chunks: self.max_chunks.unwrap_or(USUAL_CHUNKS),
            max_size: self.max_size.unwrap_or(MOST_BYTES),
            max_parts: MOST_PARTS,
        }
    }
}

impl Named for SplitOption {
    ghost use Rattle.jfr_words.specs.Splits.{split_option_of};

    ghost named = { λ word. split_option_of word };

    fn of_word(word: &str) -> Option<Self> {
        match word {
            "--output" => Some(SplitOption::Output),
            "--max-chunks" => Some(SplitOption::MaxChunks),
            "--max-size" => Some(SplitOption::MaxSize),
            _ => None,
        }
    }
}
