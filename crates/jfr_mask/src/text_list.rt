//! A list of texts in one piece of memory.
ghost use Rattle.std.specs.Prelude.{◌≡◌, ◌∷◌, ◌++◌, ◌↔◌, ◌<◌, ◌^◌, [], length, IfSome, IsTrue, IsUtf8, OnErr, OnOk, Some, slice_get};
ghost use Rattle.std.specs.Str.{chars};
ghost use Rattle.jfr_base.specs.Texts.{text_in};
ghost use Rattle.jfr_mask.specs.Pieces.{chars_in, start_at};

use jfr_base::NoMemory;
use std::alloc::Global;
use std::marker::Model;

/// Texts, one after another, without an allocation for each. Contracts see the list of the texts.
#[derive(Drop)]
pub(crate) struct TextList {
    /// The bytes of all texts.
    bytes: Vec<u8>,
    /// For each text, where it ends, and so where the next one begins.
    ends: Vec<usize>,
}

impl Model for TextList {
    ghost use Rattle.std.specs.Prelude.{ℕ, List, map};
    ghost use Rattle.std.specs.Str.{chars};
    ghost use Rattle.jfr_mask.specs.Pieces.{AreLaid, pieces};

    ghost Value = { List (List ℕ) };

    ghost view = { λ list. map chars (pieces 0 list.ends.items list.bytes.items) };

    ghost invariant = { λ list. AreLaid (pieces 0 list.ends.items list.bytes.items) list.ends.items list.bytes.items };
}

impl TextList {
    /// No texts. It allocates nothing.
    pub(crate) fn new(alloc: Global) -> TextList
        ensures { result ≡ [] }
    {
        TextList {
            bytes: Vec::new(alloc),
            ends: Vec::new(alloc),
        }
    }

    /// The number of texts.
    pub(crate) fn len(&self) -> usize
        ensures length { result ≡ length self.now }
        ensures fits { result < 2 ^ 63 }
    {
        self.ends.len()
    }

    /// Adds a text at the end. If memory runs out, nothing is added.
    pub(crate) fn push(&mut self, text: &str) -> Result<(), NoMemory>
        ensures ok { OnOk result (self.new ≡ self.old ++ chars text.now ∷ []) }
        ensures unchanged { OnErr result (self.new ≡ self.old) }
    {
        let start = self.bytes.len();
        self.bytes.extend_from_slice(text.as_bytes())?;
        match self.ends.push(self.bytes.len()) {
            Ok(()) => Ok(()),
            Err(_) => {
                self.bytes.truncate(start);
                Err(NoMemory)
            }
        }
    }

    /// The text with this index, if there is one.
    pub(crate) fn get(&self, at: usize) -> Option<&str>
        ensures { text_in result ≡ slice_get self.now at }
    {
        str::from_utf8(self.bytes_at(at)?).ok()
    }

    /// Whether there is a text with this index, and it is this one. The bytes are compared, and not read as UTF-8.
    pub(crate) fn is(&self, at: usize, text: &str) -> bool
        ensures { IsTrue result ↔ (slice_get self.now at ≡ Some (chars text.now)) }
    {
        match self.bytes_at(at) {
            Some(bytes) => bytes == text.as_bytes(),
            None => false,
        }
    }

    /// The UTF-8 of the text with this index.
    fn bytes_at(&self, at: usize) -> Option<&[u8]>
        ensures text { chars_in result ≡ slice_get self.now at }
        ensures utf8 { IfSome result (λ bytes. IsUtf8 bytes.now) }
    {
        let end = *self.ends.get(at)?;
        self.bytes.get(start_of(&self.ends, at)..end)
    }
}

/// Where the text with this index begins, if there is one: where the one before it ends.
fn start_of(ends: &[usize], at: usize) -> usize
    ensures { result ≡ start_at 0 ends.now at }
{
    match at.checked_sub(1) {
        Some(before) => ends.get(before).copied().unwrap_or(0),
        None => 0,
    }
}
