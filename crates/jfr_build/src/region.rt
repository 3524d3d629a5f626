//! The region of a text: the locale and the offset from UTC that the metadata names.
ghost use Rattle.std.specs.Prelude.{◌≡◌, IfOk, option_map};
ghost use Rattle.std.specs.Str.{chars};
ghost use Rattle.jfr_build.specs.LeafWords.{digits_of, number_of};
ghost use Rattle.jfr_build.specs.Regions.{is_wide, is_wide_region, region_in};

use crate::leaf::fits_int;
use crate::line::{BuildLine, Name};
use crate::lines::NumberedLine;
use jfr_base::{NoMemory, Text, decimal_number};
use std::alloc::Global;
use std::marker::Model;

/// A number, as it is spelled. Contracts see its bytes.
#[derive(Drop)]
pub struct Number<'a> {
    text: &'a str,
}

impl<'a> Model for Number<'a> {
    ghost use Rattle.std.specs.Prelude.{ℕ, List};

    ghost Value = { List ℕ };

    ghost view = { λ number. number.text.now };
}

impl<'a> Number<'a> {
    /// The word as a number; `None` exactly if it isn't one to nineteen digits, optionally after `-`.
    pub fn of(word: &'a str) -> Option<Number<'a>>
        ensures { result ≡ number_of word.now }
    {
        decimal_number(digits_of(word))?;
        Some(Number { text: word })
    }

    /// Whether the number doesn't fit in 32 bits with its sign.
    fn is_wide(&self) -> bool
        ensures { result ≡ is_wide self.now }
    {
        !fits_int(self.text)
    }

    /// A copy of the number, as it is spelled.
    pub fn to_text(&self, alloc: Global) -> Result<Text, NoMemory>
        ensures { IfOk result (λ text. text ≡ chars self.now) }
    {
        Text::make(alloc, self.text)
    }
}

/// The digits of a number, after its `-`, if it has one.
fn digits_of(word: &str) -> &str
    ensures { result.now ≡ digits_of word.now }
{
    match word.strip_prefix('-') {
        Some(digits) => digits,
        None => word,
    }
}

/// A locale, and an offset from UTC in milliseconds.
#[derive(Drop)]
pub struct Region<'a> {
    pub locale: Name<'a>,
    pub offset: Number<'a>,
}

/// Whether the line is a region whose offset doesn't fit in 32 bits.
pub fn is_wide_region(line: &BuildLine<'_>) -> bool
    ensures { result ≡ is_wide_region line.now }
{
    match line {
        BuildLine::Region(region) => region.offset.is_wide(),
        _ => false,
    }
}

/// The region of the lines, if one of them is a region.
pub fn region_in<'a, 'b>(lines: &'b [NumberedLine<'a>]) -> Option<&'b Region<'a>>
    ensures { option_map (λ r. r.now) result ≡ region_in lines.now }
{
    for line in lines {
        if let BuildLine::Region(region) = &line.line {
            return Some(region);
        }
    }
    None
}
