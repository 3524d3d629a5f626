//! What is shown for a text.
ghost use Rattle.std.specs.Prelude.{◌≡◌, ◌++◌, encode_utf8_all, codes, if◌then◌else◌, length, OnOk};
ghost use Rattle.std.specs.Str.{chars};
ghost use Rattle.jfr_mask.specs.Pseudonyms.{has_text, is_descriptor, is_unmasked, pseudonym, shown};
ghost use Rattle.jfr_mask.specs.Written.{shown_bytes};

use crate::{Dictionary, Known};
use itoa::Buffer;
use jfr_base::NoMemory;

/// What is shown for a text.
#[derive(Clone, Copy)]
pub enum Shown<'t> {
    /// The text itself, which is empty or known.
    Text(&'t str),
    /// The pseudonym with this number, with `()` before it if it is that of a descriptor.
    Pseudonym {
        /// Whether the text begins as a method's descriptor does.
        descriptor: bool,
        /// The number of the text.
        number: u64,
    },
}

impl<'t> Shown<'t> {
    /// What is shown for this text. If the dictionary doesn't have the text, this is as if it were added. It allocates
    /// nothing.
    pub fn of(known: &Known, dictionary: &Dictionary, text: &'t str) -> Shown<'t>
        ensures { shown_bytes result ≡ encode_utf8_all (shown (has_text known.now) dictionary.now (chars text.now)) }
    {
        if is_unmasked(known, text) {
            return Shown::Text(text);
        }
        Shown::pseudonym(text, dictionary.number_or_next(text))
    }

    /// The pseudonym of a text with this number.
    pub(crate) fn pseudonym(text: &str, number: u64) -> Shown<'t>
        ensures { shown_bytes result ≡ pseudonym (is_descriptor (chars text.now)) number }
    {
        Shown::Pseudonym {
            descriptor: is_descriptor(text),
            number,
        }
    }

    /// The number of its bytes in UTF-8.
    pub fn len(self) -> usize
        ensures { result ≡ length (shown_bytes self.entry) }
    {
        match self {
            Shown::Text(text) => text.len(),
            Shown::Pseudonym { descriptor, number } => pseudonym_len(descriptor, number),
        }
    }

    /// Appends its bytes in UTF-8.
    pub fn push(self, out: &mut Vec<u8>) -> Result<(), NoMemory>
        ensures ok { OnOk result (out.new.items ≡ out.old.items ++ shown_bytes self.entry) }
    {
        match self {
            Shown::Text(text) => push_bytes(text.as_bytes(), out),
            Shown::Pseudonym { descriptor, number } => push_pseudonym(descriptor, number, out),
        }
    }
}

/// Whether the text is empty or known.
pub(crate) fn is_unmasked(known: &Known, text: &str) -> bool
    ensures { result ≡ is_unmasked (has_text known.now) (chars text.now) }
{
    if text.is_empty() {
        return true;
    }
    known.has(text)
}

/// Whether the text begins as a method's descriptor does.
pub(crate) fn is_descriptor(text: &str) -> bool
    ensures { result ≡ is_descriptor (chars text.now) }
{
    match text.chars().next() {
        Some(first) => first == '(',
        None => false,
    }
}

/// The pseudonym up to its number.
pub(crate) fn pseudonym_start(descriptor: bool) -> &'static [u8]
    ensures { result.now ≡ (if descriptor then codes "()masked-" else codes "masked-") }
{
    if descriptor { b"()masked-" } else { b"masked-" }
}

/// The length of the pseudonym with a number.
fn pseudonym_len(descriptor: bool, number: u64) -> usize
    ensures { result ≡ length (pseudonym descriptor number) }
{
    let mut buffer = Buffer::new();
    pseudonym_start(descriptor).len() + buffer.format(number).len()
}

/// Appends the pseudonym with a number.
fn push_pseudonym(descriptor: bool, number: u64, out: &mut Vec<u8>) -> Result<(), NoMemory>
    ensures ok { OnOk result (out.new.items ≡ out.old.items ++ pseudonym descriptor number) }
{
    let mut buffer = Buffer::new();
    out.extend_from_slice(pseudonym_start(descriptor))?;
    out.extend_from_slice(buffer.format(number).as_bytes())?;
    Ok(())
}

/// Appends bytes.
fn push_bytes(bytes: &[u8], out: &mut Vec<u8>) -> Result<(), NoMemory>
    ensures ok { OnOk result (out.new.items ≡ out.old.items ++ bytes.now) }
{
    out.extend_from_slice(bytes)?;
    Ok(())
}
