//! The characters of a string's text, as an iterator.
ghost use Rattle.std.specs.Prelude.{◌≡◌};
ghost use Rattle.std.specs.Iterator.{YieldsFirst, item_count};
ghost use Rattle.std.specs.Slice.Iter.{iter_rest};
ghost use Rattle.jfr_text.specs.Spans.{content_of};
ghost use Rattle.jfr_text.specs.Strings.{text_of};

use crate::utf16::Utf16;
use crate::{StringKind, StringSpan};
use bstr::ByteSlice;
use std::marker::Model;
use std::slice;

/// An iterator over the characters of a string's text. Contracts see it as the list of those that are left.
#[derive(Drop)]
pub struct Characters<'a> {
    source: Source<'a>,
}

/// What the characters are decoded from.
#[derive(Drop)]
enum Source<'a> {
    Latin(slice::Iter<'a, u8>),
    Utf8(bstr::Chars<'a>),
    Utf16(Utf16<'a>),
}

impl<'a> Model for Characters<'a> {
    ghost use Rattle.std.specs.Prelude.{ℕ, List};

    ghost Value = { List ℕ };

    ghost use Rattle.jfr_text.specs.Characters.{characters_of};

    ghost view = { λ characters. characters_of characters.source };
}

impl<'a> Characters<'a> {
    /// The characters of the string's text; `None` exactly for the null string and for a key. It allocates
    /// nothing.
    pub fn of(span: &StringSpan<'a>) -> Option<Characters<'a>>
        ensures { result ≡ text_of (content_of span.now) }
    {
        let source = match span.kind {
            StringKind::Null | StringKind::Key => return None,
            StringKind::Empty => Source::Latin([].iter()),
            StringKind::Utf8 => Source::Utf8(span.payload.chars()),
            StringKind::Units => Source::Utf16(Utf16::new(span.payload, span.count)),
            StringKind::Latin => Source::Latin(span.payload.iter()),
        };
        Some(Characters { source })
    }
}

impl<'a> Iterator for Characters<'a> {
    type Item = char;

    ghost next_gives = { YieldsFirst (λ characters. characters) };

    ghost remaining = { item_count (λ characters. characters) };

    fn next(&mut self) -> Option<char> {
        match &mut self.source {
            Source::Latin(bytes) => next_latin(bytes),
            Source::Utf8(characters) => characters.next(),
            Source::Utf16(characters) => characters.next(),
        }
    }
}

/// The next byte, as the character with this code.
fn next_latin(bytes: &mut slice::Iter<'_, u8>) -> Option<char>
    ensures steps { YieldsFirst iter_rest bytes.old result bytes.new }
{
    let byte = bytes.next()?;
    Some(char::from(*byte))
}
