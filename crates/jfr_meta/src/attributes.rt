//! The attributes of elements, as texts.
ghost use Rattle.std.specs.Prelude.{◌≡◌, option_map};
ghost use Rattle.std.specs.Option.{option_copied};
ghost use Rattle.std.specs.Str.{chars, bytes_eq};
ghost use Rattle.jfr_base.specs.Texts.{text_in};
ghost use Rattle.jfr_meta.specs.Attributes.{IsWord, text_at, first_value, not_empty, attribute, id_of, flag_of};
ghost use Rattle.jfr_meta.specs.Trees.{pairs_of};

use crate::Element;
use jfr_base::{Text, Words, decimal_number};

/// Whether the text equals this word.
pub(crate) fn is_word(text: &str, word: &str) -> bool
    requires { IsWord word.now }
    ensures { result ≡ bytes_eq (chars text.now) word.now }
{
    text == word
}

/// The text of the string with this index; empty if the table has no such string.
pub(crate) fn text_at<'a>(strings: &'a Words, index: u64) -> &'a str
    ensures { chars result.now ≡ text_at strings.now index }
{
    strings.get(index as usize).unwrap_or("")
}

/// The text of the string with this index, for sharing; `None` if it is empty or the table has no such
/// string.
pub(crate) fn full_text(strings: &Words, index: u64) -> Option<&Text>
    ensures { option_copied result ≡ not_empty (text_at strings.now index) }
{
    let text = strings.text(index as usize)?;
    if text.as_str().is_empty() {
        None
    } else {
        Some(text)
    }
}

/// The index, if its text isn't empty.
pub(crate) fn full_index(strings: &Words, index: u64) -> Option<u64>
    ensures { option_map (text_at strings.now) result ≡ not_empty (text_at strings.now index) }
{
    if text_at(strings, index).is_empty() {
        None
    } else {
        Some(index)
    }
}

/// The index of the value of the element's first attribute with this key.
fn first_index(strings: &Words, element: &Element, key: &str) -> Option<u64>
    requires { IsWord key.now }
    ensures { option_map (text_at strings.now) result ≡ first_value strings.now key.now (pairs_of element.now) }
{
    let pairs = element.attributes().as_slice();
    let pair = pairs
        .iter()
        .find(|pair| is_word(text_at(strings, pair.0), key))?;
    Some(pair.1)
}

/// The value of the element's first attribute with this key.
pub(crate) fn first_value<'a>(strings: &'a Words, element: &Element, key: &str) -> Option<&'a str>
    requires { IsWord key.now }
    ensures { text_in result ≡ first_value strings.now key.now (pairs_of element.now) }
{
    let index = first_index(strings, element, key)?;
    Some(text_at(strings, index))
}

/// The value of the element's attribute with this key; an empty value counts as absent.
pub(crate) fn attribute<'a>(strings: &'a Words, element: &Element, key: &str) -> Option<&'a Text>
    requires { IsWord key.now }
    ensures { option_copied result ≡ attribute strings.now element.now key.now }
{
    full_text(strings, first_index(strings, element, key)?)
}

/// The index of the value of the element's attribute with this key; an empty value counts as absent.
pub(crate) fn attribute_index(strings: &Words, element: &Element, key: &str) -> Option<u64>
    requires { IsWord key.now }
    ensures { option_map (text_at strings.now) result ≡ attribute strings.now element.now key.now }
{
    full_index(strings, first_index(strings, element, key)?)
}

/// Every id is below this.
const ID_LIMIT: u64 = 1 << 63;

/// The id that a text spells with one to nineteen digits, if its value is below 2^63.
#[tactic(auto, unfolding(crate::specs::Attributes::id_of))]
pub fn id_of(text: &str) -> Option<u64>
    ensures bytes { result ≡ id_of text.now }
    ensures characters { result ≡ id_of (chars text.now) }
{
    let id = decimal_number(text)?;
    if id < ID_LIMIT { Some(id) } else { None }
}

/// The value of a mark: true if its text is `set`, false if it is `clear` or absent; `None` for any other
/// text.
pub(crate) fn flag_of(value: Option<&str>, set: &str, clear: &str) -> Option<bool>
    requires set { IsWord set.now }
    requires clear { IsWord clear.now }
    ensures { result ≡ flag_of (text_in value.entry) set.now clear.now }
{
    match value {
        None => Some(false),
        Some(text) => {
            if is_word(text, set) {
                Some(true)
            } else if is_word(text, clear) {
                Some(false)
            } else {
                None
            }
        }
    }
}
