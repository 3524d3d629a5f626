//! The leaves of a value.
ghost use Rattle.std.specs.Prelude.{◌≡◌, ◌∷◌, ◌+◌, ◌<◌, ◌^◌, ℕ, List, length};
ghost use Rattle.jfr_base.specs.Integer.{IsSpellingWithin};
ghost use Rattle.jfr_value.specs.Leaves.{KeyIsSpelled, key_of_leaf, leaf_key, leaf_of, spelled_key};

use jfr_base::known_integer;
use jfr_layout::Kind;
use jfr_text::is_key;

/// The kind of a leaf.
#[derive(Clone, Copy, Debug, PartialEq, Eq)]
pub enum LeafKind {
    /// A value of a class with a base name. A string is one, too, even if it is a key.
    Base(Kind),
    /// The number of items of an array.
    Count(u64),
    /// The key of a reference.
    Key(u64),
}

/// A field of a class, in which a leaf is.
#[derive(Clone, Copy, Debug, PartialEq, Eq)]
pub struct Holder {
    /// The class that declares the field.
    pub class: u64,
    /// The field's number, from 0.
    pub field: usize,
}

/// A leaf of a value in a chunk: a part without parts of its own.
#[derive(Clone, Copy, Debug)]
pub struct Leaf<'a> {
    /// What it is.
    pub kind: LeafKind,
    /// The class of the value, of an array's items, or of what a reference refers to.
    pub class: u64,
    /// The innermost field around it; `None` if it is in no field of the value that is walked. An array's
    /// count and items are in the array's field.
    pub holder: Option<Holder>,
    /// The offset of its first byte in the chunk.
    pub at: usize,
    /// Its bytes.
    pub spelled: &'a [u8],
}

/// A key in a chunk: that of a reference, or of a string that is a key.
#[derive(Clone, Copy, Debug, PartialEq, Eq)]
pub struct KeyAt {
    /// The class of what it refers to.
    pub class: u64,
    /// The key.
    pub key: u64,
    /// The offset of the integer that spells it. In a string, this is after the kind byte.
    pub at: usize,
    /// The offset after the integer.
    pub end: usize,
}

impl Leaf<'_> {
    /// The key of a reference, or of a string that is a key. `None` for all other leaves.
    #[inline(always)]
    pub fn key(&self) -> Option<u64>
        requires { KeyIsSpelled (leaf_of self.now) }
        ensures { result ≡ leaf_key self.now.kind self.now.spelled.now }
    {
        match self.kind {
            LeafKind::Key(key) => Some(key),
            LeafKind::Base(Kind::Text) => string_key(self.spelled),
            _ => None,
        }
    }

    /// The key of a reference, or of a string that is a key, and where it is spelled. `None` for all other leaves.
    #[inline(always)]
    pub fn key_at(&self) -> Option<KeyAt>
        requires key { KeyIsSpelled (leaf_of self.now) }
        requires short { self.now.at + length self.now.spelled.now < 2 ^ 64 }
        ensures { result ≡ key_of_leaf (leaf_of self.now) }
    {
        let key = self.key()?;
        let at = match self.kind {
            LeafKind::Base(_) => self.at + 1,
            _ => self.at,
        };
        Some(KeyAt {
            class: self.class,
            key,
            at,
            end: self.at + self.spelled.len(),
        })
    }
}

/// The key of a string, if the string is one.
#[inline(always)]
fn string_key(spelled: &[u8]) -> Option<u64>
    requires { (rest : List ℕ) → spelled.now ≡ 2 ∷ rest → IsSpellingWithin 8 rest }
    ensures { result ≡ spelled_key spelled.now }
{
    if !is_key(spelled, 0, spelled.len()) {
        return None;
    }
    Some(known_integer(spelled, 1, spelled.len()).value)
}
