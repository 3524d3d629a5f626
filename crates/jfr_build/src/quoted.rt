//! Quoted texts: a text between two quotes. A quote and a backslash have a backslash before them; a space,
//! each character below it, and U+007F are `\u` and four hexadecimal digits; every other character is itself.
ghost use Rattle.std.specs.Prelude.{◌≡◌, ◌<◌, ◌++◌, IfOk, IfSome, OnOk, None, Some, if◌then◌else◌};
ghost use Rattle.std.specs.Option.{option_to_list};
ghost use Rattle.jfr_build.specs.LeafWords.{hex_digit, is_closed, is_coded, is_plain, quoted_step, unquoted};

use std::alloc::AllocError;

/// The state of reading a quoted text: where in it the next byte is.
#[derive(Clone, Copy, Debug, PartialEq, Eq)]
pub enum Quoted {
    /// Between characters.
    Open,
    /// After a backslash.
    Escape,
    /// Before the first of four digits, a zero.
    FirstZero,
    /// Before the second of four digits, a zero.
    SecondZero,
    /// Before the third of four digits.
    High,
    /// Before the last of four digits; this is the value of the third.
    Low(u8),
    /// After the second quote.
    Closed,
}

/// The value of a hexadecimal digit in lower case.
pub fn hex_digit(byte: u8) -> Option<u8>
    ensures value { result ≡ hex_digit byte }
    ensures bound { IfSome result (λ digit. digit < 16) }
{
    match byte {
        b'0'..=b'9' => Some(byte - b'0'),
        b'a'..=b'f' => Some(byte - b'a' + 10),
        _ => None,
    }
}

/// Whether a character is written by its number.
fn is_coded(code: u16) -> bool
    ensures { result ≡ is_coded code }
{
    code <= 0x20 || code == 0x7f
}

/// Whether a byte is written as itself.
fn is_plain(byte: u8) -> bool
    ensures { result ≡ is_plain byte }
{
    !(is_coded(u16::from(byte)) || byte == b'"' || byte == b'\\')
}

impl Quoted {
    /// Whether the text has ended.
    fn is_closed(self) -> bool
        ensures { result ≡ is_closed self }
    {
        matches!(self, Quoted::Closed)
    }

    /// The state after a byte, and the byte of the text if one is complete; `None` if the byte is wrong.
    fn step(self, byte: u8) -> Option<(Quoted, Option<u8>)>
        ensures { result ≡ quoted_step self byte }
    {
        match self {
            Quoted::Open => open_step(byte),
            Quoted::Escape => escape_step(byte),
            Quoted::FirstZero if byte == b'0' => Some((Quoted::SecondZero, None)),
            Quoted::SecondZero if byte == b'0' => Some((Quoted::High, None)),
            Quoted::High => Some((Quoted::Low(hex_digit(byte)?), None)),
            Quoted::Low(high) => low_step(high, byte),
            _ => None,
        }
    }
}

/// The step between characters.
fn open_step(byte: u8) -> Option<(Quoted, Option<u8>)>
    ensures { result ≡ quoted_step Quoted.Open byte }
{
    if byte == b'"' {
        return Some((Quoted::Closed, None));
    }
    if byte == b'\\' {
        return Some((Quoted::Escape, None));
    }
    if is_plain(byte) {
        return Some((Quoted::Open, Some(byte)));
    }
    None
}

/// The step after a backslash.
fn escape_step(byte: u8) -> Option<(Quoted, Option<u8>)>
    ensures { result ≡ quoted_step Quoted.Escape byte }
{
    if byte == b'"' || byte == b'\\' {
        return Some((Quoted::Open, Some(byte)));
    }
    if byte == b'u' {
        return Some((Quoted::FirstZero, None));
    }
    None
}

/// The step at a number's last digit.
fn low_step(high: u8, byte: u8) -> Option<(Quoted, Option<u8>)>
    ensures { result ≡ quoted_step (Quoted.Low high) byte }
{
    let code = 16 * u16::from(high) + u16::from(hex_digit(byte)?);
    if is_coded(code) {
        Some((Quoted::Open, Some(code as u8)))
    } else {
        None
    }
}

/// Appends a byte, if there is one.
fn push_if_some(text: &mut Vec<u8>, byte: Option<u8>) -> Result<(), AllocError>
    ensures ok { OnOk result (text.new.items ≡ text.old.items ++ option_to_list byte) }
{
    if let Some(byte) = byte {
        text.push(byte)?;
    }
    Ok(())
}

/// Whether the word is a quoted text. If so, the bytes of the text replace those of `text`.
pub fn unquote(word: &str, text: &mut Vec<u8>) -> Result<bool, AllocError>
    ensures ok { IfOk result (λ found. unquoted word.now ≡ (if found then Some text.new.items else None)) }
{
    text.clear();
    let Some((first, rest)) = word.as_bytes().split_first() else {
        return Ok(false);
    };
    if *first != b'"' {
        return Ok(false);
    }
    let mut state = Quoted::Open;
    for byte in rest {
        let Some((next, byte)) = state.step(*byte) else {
            return Ok(false);
        };
        state = next;
        push_if_some(text, byte)?;
    }
    Ok(state.is_closed())
}
