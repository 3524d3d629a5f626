//! The values that single words spell: numbers, truth values and strings.
ghost use Rattle.std.specs.Prelude.{◌≡◌, ◌<◌, ◌≤◌, ◌*◌, ◌^◌, ◌∷◌, ◌++◌, [], IfSome, OnOk, is_some, option_and_then, option_map};
ghost use Rattle.jfr_base.specs.Decimal.{below, decimal_number};
ghost use Rattle.jfr_base.specs.Integer.{spell};
ghost use Rattle.jfr_build.specs.LeafWords.{base_of, content_of, hex_byte, hex_of, id_after, negated, signed_of, spelled_content, string_of, truth_of};
ghost use Rattle.jfr_build.specs.Writing.{Appends};

use crate::quoted::{hex_digit, unquote};
use crate::value_bytes::ValueFault;
use jfr_base::{decimal_number, push_var};
use jfr_layout::Kind;
use jfr_meta::id_of;
use jfr_text::{EMPTY_BYTE, KEY_BYTE, NULL_BYTE, UTF8_BYTE};
use std::alloc::AllocError;

/// The id that follows the `#` or `[` of a word; `None` if the word isn't this mark and an id.
pub fn id_after(word: &str, mark: char) -> Option<u64>
    requires { mark < 128 }
    ensures { result ≡ id_after mark word.now }
{
    id_of(word.strip_prefix(mark)?)
}

/// How many values of a signed kind are negative.
const BYTE_HALF: u64 = 1 << 7;

const SHORT_HALF: u64 = 1 << 15;

const INT_HALF: u64 = 1 << 31;

const LONG_HALF: u64 = 1 << 63;

/// One more than the greatest `char`.
const CHAR_LIMIT: u64 = 1 << 16;

/// The number that a word spells, if it is from `-half` to `half - 1`, in two's complement.
fn signed_of(word: &str, half: u64) -> Option<u64>
    requires most { half ≤ 2 ^ 63 }
    requires some { 0 < half }
    ensures exact { result ≡ signed_of half word.now }
    ensures bound { IfSome result (λ n. n < 2 * half) }
{
    match word.strip_prefix('-') {
        Some(digits) => {
            let number = decimal_number(digits)?;
            if number > half {
                return None;
            }
            Some(negated(half, number))
        }
        None => {
            let number = decimal_number(word)?;
            if number < half { Some(number) } else { None }
        }
    }
}

/// Whether the word spells a number from `-2^31` to `2^31 - 1`.
pub fn fits_int(word: &str) -> bool
    ensures { result ≡ is_some (signed_of (2 ^ 31) word.now) }
{
    signed_of(word, INT_HALF).is_some()
}

/// `-number`, in two's complement.
fn negated(half: u64, number: u64) -> u64
    requires most { half ≤ 2 ^ 63 }
    requires fits { number ≤ half }
    requires some { 0 < half }
    ensures exact { result ≡ negated half number }
    ensures bound { result < 2 * half }
{
    if number == 0 {
        return 0;
    }
    half - number + half
}

/// The byte of `true` or `false`; `None` for any other word.
fn truth_of(word: &str) -> Option<u8>
    ensures { option_map (λ b. b ∷ []) result ≡ truth_of word.now }
{
    if word == "true" {
        return Some(1);
    }
    if word == "false" {
        return Some(0);
    }
    None
}

/// The byte of two hexadecimal digits.
fn hex_byte(high: u8, low: u8) -> Option<u8>
    ensures { result ≡ hex_byte high low }
{
    let high = hex_digit(high)?;
    let low = hex_digit(low)?;
    Some(16 * high + low)
}

/// Appends `count` bytes, which the word spells after `0x` with two digits each.
fn push_hex(out: &mut Vec<u8>, word: &str, count: usize) -> Result<(), ValueFault>
    requires { count ≤ 8 }
    ensures { Appends (hex_of count word.now) result out.old.items out.new.items }
{
    let bytes = word.as_bytes();
    if bytes.len() != 2 + 2 * count || bytes[0] != b'0' || bytes[1] != b'x' {
        return Err(ValueFault::Bad);
    }
    for i in 0..count {
        let Some(byte) = hex_byte(bytes[2 + 2 * i], bytes[3 + 2 * i]) else {
            return Err(ValueFault::Bad);
        };
        out.push(byte)?;
    }
    Ok(())
}

/// Appends the byte. Fails if there is none.
fn push_byte(out: &mut Vec<u8>, byte: Option<u8>) -> Result<(), ValueFault>
    ensures { Appends (option_map (λ b. b ∷ []) byte) result out.old.items out.new.items }
{
    let Some(byte) = byte else {
        return Err(ValueFault::Bad);
    };
    out.push(byte)?;
    Ok(())
}

/// Appends the number in its shortest encoding. Fails if there is none.
fn push_number(out: &mut Vec<u8>, number: Option<u64>) -> Result<(), ValueFault>
    ensures { Appends (option_map spell number) result out.old.items out.new.items }
{
    let Some(number) = number else {
        return Err(ValueFault::Bad);
    };
    push_var(out, number)?;
    Ok(())
}

/// Appends the bytes of a text as a string.
fn push_text(out: &mut Vec<u8>, text: &[u8]) -> Result<(), AllocError>
    ensures ok { OnOk result (out.new.items ≡ out.old.items ++ spelled_content (content_of text.now)) }
{
    if text.is_empty() {
        out.push(EMPTY_BYTE)?;
        return Ok(());
    }
    out.push(UTF8_BYTE)?;
    push_var(out, text.len() as u64)?;
    out.extend_from_slice(text)
}

/// Appends the string that a word spells: null, a key, or a quoted text. `text` is scratch memory.
fn push_string(out: &mut Vec<u8>, word: &str, text: &mut Vec<u8>) -> Result<(), ValueFault>
    ensures { Appends (option_map spelled_content (string_of word.now)) result out.old.items out.new.items }
{
    if word == "null" {
        out.push(NULL_BYTE)?;
        return Ok(());
    }
    if let Some(key) = id_after(word, '#') {
        out.push(KEY_BYTE)?;
        push_var(out, key)?;
        return Ok(());
    }
    if !unquote(word, text)? {
        return Err(ValueFault::Bad);
    }
    push_text(out, text)?;
    Ok(())
}

/// The `char` that a word spells.
fn char_of(word: &str) -> Option<u64>
    ensures { result ≡ option_and_then (below (2 ^ 16)) (decimal_number word.now) }
{
    let number = decimal_number(word)?;
    if number < CHAR_LIMIT {
        Some(number)
    } else {
        None
    }
}

/// The `byte` that a word spells.
fn byte_of(word: &str) -> Option<u8>
    ensures { result ≡ signed_of (2 ^ 7) word.now }
{
    let number = signed_of(word, BYTE_HALF)?;
    Some(number as u8)
}

/// Appends the value of this kind that a word spells. `text` is scratch memory for a quoted word.
pub fn push_leaf(
    out: &mut Vec<u8>,
    kind: Kind,
    word: &str,
    text: &mut Vec<u8>,
) -> Result<(), ValueFault>
    ensures { Appends (base_of kind word.now) result out.old.items out.new.items }
{
    match kind {
        Kind::Boolean => push_byte(out, truth_of(word)),
        Kind::Byte => push_byte(out, byte_of(word)),
        Kind::Char => push_number(out, char_of(word)),
        Kind::Short => push_number(out, signed_of(word, SHORT_HALF)),
        Kind::Int => push_number(out, signed_of(word, INT_HALF)),
        Kind::Long => push_number(out, signed_of(word, LONG_HALF)),
        Kind::Float => push_hex(out, word, 4),
        Kind::Double => push_hex(out, word, 8),
        Kind::Text => push_string(out, word, text),
        Kind::Composite => Err(ValueFault::Bad),
    }
}
