//! The bytes of values, while they are written.
ghost use Rattle.std.specs.Prelude.{◌≡◌, ◌++◌, [], OnOk};
ghost use Rattle.jfr_base.specs.Integer.{spell};
ghost use Rattle.jfr_build.specs.LeafWords.{base_of};
ghost use Rattle.jfr_build.specs.Writing.{Appends};

use crate::leaf::push_leaf;
use jfr_base::{NoMemory, push_var};
use jfr_layout::Kind;
use std::alloc::{AllocError, AllocFailed, Global};
use std::marker::Model;

/// Why a value isn't written.
#[derive(Clone, Copy, Debug, PartialEq, Eq)]
pub enum ValueFault {
    /// The words aren't those of a value.
    Bad,
    /// Memory ran out.
    Memory,
}

impl From<AllocError> for ValueFault {
    ghost use Rattle.jfr_build.specs.declared.value_bytes.ValueFault.TheVariants.{Memory};

    ghost from_gives = { λ _ fault. fault ≡ Memory };

    fn from(_: AllocError) -> Self {
        ValueFault::Memory
    }
}

impl From<NoMemory> for ValueFault {
    ghost use Rattle.jfr_build.specs.declared.value_bytes.ValueFault.TheVariants.{Memory};

    ghost from_gives = { λ _ fault. fault ≡ Memory };

    fn from(_: NoMemory) -> Self {
        ValueFault::Memory
    }
}

impl<T: Drop> From<AllocFailed<T>> for ValueFault {
    ghost use Rattle.jfr_build.specs.declared.value_bytes.ValueFault.TheVariants.{Memory};

    ghost from_gives = { λ _ fault. fault ≡ Memory };

    fn from(_: AllocFailed<T>) -> Self {
        ValueFault::Memory
    }
}

/// The bytes written so far. Contracts see them.
#[derive(Drop)]
pub struct ValueBytes {
    bytes: Vec<u8>,
    // The text of a quoted word, while it is read.
    text: Vec<u8>,
}

impl Model for ValueBytes {
    ghost use Rattle.std.specs.Prelude.{List, ℕ};

    ghost Value = { List ℕ };

    ghost view = { λ out. out.bytes.items };
}

impl ValueBytes {
    /// No bytes. It allocates nothing.
    pub fn new(alloc: Global) -> ValueBytes
        ensures { result ≡ [] }
    {
        ValueBytes {
            bytes: Vec::new(alloc),
            text: Vec::new(alloc),
        }
    }

    /// Removes all bytes.
    pub fn clear(&mut self)
        ensures { self.new ≡ [] }
    {
        self.bytes.clear();
    }

    /// The bytes.
    pub fn as_slice(&self) -> &[u8]
        ensures { result.now ≡ self.now }
    {
        self.bytes.as_slice()
    }

    /// Appends an integer in its shortest spelling.
    pub fn push_var(&mut self, value: u64) -> Result<(), AllocError>
        ensures ok { OnOk result (self.new ≡ self.old ++ spell value) }
    {
        push_var(&mut self.bytes, value)
    }

    /// Appends the value of a base name that the word spells.
    pub fn push_word(&mut self, kind: Kind, word: &str) -> Result<(), ValueFault>
        ensures exact { Appends (base_of kind word.now) result self.old self.new }
    {
        push_leaf(&mut self.bytes, kind, word, &mut self.text)
    }
}
