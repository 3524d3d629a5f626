//! The characters that UTF-16 units decode to.
ghost use Rattle.std.specs.Prelude.{◌≡◌, ◌<◌, ◌≤◌, ◌++◌, None, unwrap_or, option_to_list};
ghost use Rattle.std.specs.Char.Utf16.{utf16_lossy_chars, lone_unit_char, surrogate_pair_char, is_high_surrogate, is_low_surrogate};
ghost use Rattle.std.specs.Iterator.{YieldsFirst, item_count};
ghost use Rattle.jfr_text.specs.Spans.{first_integers};
ghost use Rattle.jfr_text.specs.Strings.{low_units};

use crate::units::Units;
use std::marker::Model;

/// An iterator over characters, with U+FFFD for each surrogate without a partner. Contracts see it as the
/// list of those that are left.
#[derive(Drop)]
pub(crate) struct Utf16<'a> {
    /// A unit that was read because it follows a high surrogate, but isn't its partner; it is decoded next.
    held: Option<u16>,
    units: Units<'a>,
}

impl<'a> Model for Utf16<'a> {
    ghost use Rattle.std.specs.Prelude.{ℕ, List, ◌++◌, option_to_list};
    ghost use Rattle.std.specs.Char.Utf16.{utf16_lossy_chars};

    ghost Value = { List ℕ };

    ghost view = { λ left. utf16_lossy_chars (option_to_list left.held ++ left.units) };
}

impl<'a> Utf16<'a> {
    /// The characters of the units in the first `count` integers of a payload.
    pub(crate) fn new(payload: &'a [u8], count: u64) -> Utf16<'a>
        ensures { result ≡ utf16_lossy_chars (low_units (first_integers count payload.now)) }
    {
        Utf16 {
            held: None,
            units: Units::new(payload, count),
        }
    }
}

impl<'a> Iterator for Utf16<'a> {
    type Item = char;

    ghost next_gives = { YieldsFirst (λ left. left) };

    ghost remaining = { item_count (λ left. left) };

    fn next(&mut self) -> Option<char> {
        let Some(unit) = take_unit(&mut self.held, &mut self.units) else {
            return None;
        };
        if !is_high(unit) {
            return Some(lone(unit));
        }
        let Some(after) = self.units.next() else {
            return Some(lone(unit));
        };
        if is_low(after) {
            return Some(pair(unit, after));
        }
        self.held = Some(after);
        Some(lone(unit))
    }
}

/// The held unit, or else the next one.
fn take_unit(held: &mut Option<u16>, units: &mut Units<'_>) -> Option<u16>
    ensures held { held.new ≡ None }
    ensures steps { YieldsFirst (λ left. left) (option_to_list held.old ++ units.old) result units.new }
{
    match held.take() {
        Some(unit) => Some(unit),
        None => units.next(),
    }
}

/// Whether the unit is a high surrogate, the first of a pair.
fn is_high(unit: u16) -> bool
    ensures { result ≡ is_high_surrogate unit }
{
    0xD800 <= unit && unit < 0xDC00
}

/// Whether the unit is a low surrogate, the second of a pair.
fn is_low(unit: u16) -> bool
    ensures { result ≡ is_low_surrogate unit }
{
    0xDC00 <= unit && unit < 0xE000
}

/// The character of a pair of surrogates.
fn pair(high: u16, low: u16) -> char
    requires high { (0xD800 ≤ high) × (high < 0xDC00) }
    requires low { (0xDC00 ≤ low) × (low < 0xE000) }
    ensures { result ≡ surrogate_pair_char high low }
{
    let above = (u32::from(high) - 0xD800) * 0x400 + (u32::from(low) - 0xDC00);
    char::from_u32(0x1_0000 + above).unwrap_or(char::REPLACEMENT_CHARACTER)
}

/// The character of a unit that isn't in a pair; U+FFFD for a surrogate.
fn lone(unit: u16) -> char
    ensures { result ≡ unwrap_or (lone_unit_char unit) 0xFFFD }
{
    char::from_u32(u32::from(unit)).unwrap_or(char::REPLACEMENT_CHARACTER)
}
