//! A text that grows at its end.
ghost use Rattle.std.specs.Prelude.{◌≡◌, ◌<◌, [], ◌∷◌, ◌++◌, ℕ, IsTrue, IfOk, OnErr, OnOk, decimal, string_bytes, take};
ghost use Rattle.std.specs.Char.{digit_char};
ghost use Rattle.std.specs.Fmt.{signed_decimal};
ghost use Rattle.std.specs.Str.{chars, encode_utf8_all};
ghost use Rattle.jfr_show.specs.Texts.{hex_byte, indent, is_ascii, newline};

use itoa::Buffer;
use jfr_base::{NoMemory, Text};
use jfr_text::Characters;
use std::alloc::Global;
use std::marker::Model;

/// A text that grows at its end. Contracts see it as the list of its characters. A call for which memory runs
/// out adds at most the first characters of what it should add.
#[derive(Drop)]
pub struct TextBuilder {
    text: String,
}

impl Model for TextBuilder {
    ghost use Rattle.std.specs.Prelude.{ℕ, List, string_bytes};
    ghost use Rattle.std.specs.Str.{chars};

    ghost Value = { List ℕ };

    ghost view = { λ builder. chars (string_bytes builder.text) };
}

impl TextBuilder {
    /// An empty text. It allocates nothing.
    pub fn new(alloc: Global) -> TextBuilder
        ensures { result ≡ [] }
    {
        TextBuilder {
            text: String::new(alloc),
        }
    }

    /// Removes all characters, and keeps the memory for the next text.
    pub fn clear(&mut self)
        ensures { self.new ≡ [] }
    {
        self.text.clear();
    }

    /// The text's UTF-8.
    pub fn as_bytes(&self) -> &[u8]
        ensures { result.now ≡ encode_utf8_all self.now }
    {
        self.text.as_bytes()
    }

    /// The text so far.
    pub(crate) fn as_str(&self) -> &str
        ensures { chars result.now ≡ self.now }
    {
        self.text.as_str()
    }

    /// The text, which is copied only if it has at most 14 bytes.
    pub fn into_text(self) -> Result<Text, NoMemory>
        ensures ok { IfOk result (λ text. text ≡ self) }
    {
        Text::from_string(self.text)
    }

    /// The text as a string, without a copy.
    pub(crate) fn into_string(self) -> String
        ensures { string_bytes result ≡ encode_utf8_all self }
    {
        self.text
    }

    /// Adds a text.
    pub fn push_str(&mut self, text: &str) -> Result<(), NoMemory>
        ensures ok { OnOk result (self.new ≡ self.old ++ chars text.now) }
        ensures unchanged { OnErr result (self.new ≡ self.old) }
    {
        self.text.push_str(text)?;
        Ok(())
    }

    /// Adds a text of ASCII characters. So the contract needs no decoding of UTF-8.
    pub fn push_ascii(&mut self, text: &str) -> Result<(), NoMemory>
        requires ascii { IsTrue (is_ascii text.now) }
        ensures ok { OnOk result (self.new ≡ self.old ++ text.now) }
        ensures unchanged { OnErr result (self.new ≡ self.old) }
    {
        self.text.push_str(text)?;
        Ok(())
    }

    /// Adds a text and the end of a line.
    pub(crate) fn push_line(&mut self, text: &str) -> Result<(), NoMemory>
        ensures ok { OnOk result (self.new ≡ self.old ++ (chars text.now ++ newline)) }
    {
        self.push_str(text)?;
        self.push_ascii("\n")
    }

    /// Adds a character.
    pub fn push(&mut self, character: char) -> Result<(), NoMemory>
        ensures ok { OnOk result (self.new ≡ self.old ++ character ∷ []) }
        ensures unchanged { OnErr result (self.new ≡ self.old) }
    {
        self.text.push(character)?;
        Ok(())
    }

    /// Adds characters, one after another.
    pub(crate) fn push_characters(&mut self, characters: Characters<'_>) -> Result<(), NoMemory>
        ensures ok { OnOk result (self.new ≡ self.old ++ characters.entry) }
    {
        for character in characters {
            self.push(character)?;
        }
        Ok(())
    }

    /// Adds an unsigned number in decimal.
    pub fn push_number(&mut self, number: u64) -> Result<(), NoMemory>
        ensures ok { OnOk result (self.new ≡ self.old ++ decimal number) }
        ensures unchanged { OnErr result (self.new ≡ self.old) }
    {
        let mut buffer = Buffer::new();
        self.text.push_str(buffer.format(number))?;
        Ok(())
    }

    /// Adds a signed number in decimal.
    pub fn push_signed(&mut self, number: i64) -> Result<(), NoMemory>
        ensures ok { OnOk result (self.new ≡ self.old ++ signed_decimal number) }
        ensures unchanged { OnErr result (self.new ≡ self.old) }
    {
        let mut buffer = Buffer::new();
        self.text.push_str(buffer.format(number))?;
        Ok(())
    }

    /// Adds the two hexadecimal digits of a byte.
    pub fn push_hex(&mut self, byte: u8) -> Result<(), NoMemory>
        ensures ok { OnOk result (self.new ≡ self.old ++ hex_byte byte) }
        ensures part { OnErr result ((n : ℕ) × (self.new ≡ self.old ++ take n (hex_byte byte))) }
    {
        self.push(digit_of(byte / 16))?;
        self.push(digit_of(byte % 16))
    }

    /// Adds two spaces for each level.
    pub fn push_indent(&mut self, level: usize) -> Result<(), NoMemory>
        ensures ok { OnOk result (self.new ≡ self.old ++ indent level) }
        ensures part { OnErr result ((n : ℕ) × (self.new ≡ self.old ++ take n (indent level))) }
    {
        for _ in 0..level {
            self.push_ascii("  ")?;
        }
        Ok(())
    }
}

/// A hexadecimal digit, of a value below 16.
fn digit_of(number: u8) -> char
    requires { number < 16 }
    ensures { result ≡ digit_char number }
{
    if number < 10 {
        char::from(b'0' + number)
    } else {
        char::from(b'a' + (number - 10))
    }
}
