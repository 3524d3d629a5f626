//! A list of texts.
ghost use Rattle.std.specs.Prelude.{◌≡◌, [], ◌∷◌, ◌++◌, ◌↔◌, length, IfOk, IsTrue, OnOk, OnErr, slice_get};
ghost use Rattle.std.specs.Option.{option_copied};
ghost use Rattle.std.specs.Str.{chars};
ghost use Rattle.jfr_base.specs.Texts.{text_in};

use crate::{NoMemory, Text};
use std::alloc::Global;
use std::marker::Model;

/// A list of texts.
#[derive(Drop)]
pub struct Words {
    alloc: Global,
    texts: Vec<Text>,
}

impl Model for Words {
    ghost use Rattle.std.specs.Prelude.{ℕ, List};

    ghost Value = { List (List ℕ) };

    ghost view = { λ words. words.texts.items };
}

impl Words {
    /// An empty list. It allocates nothing.
    pub fn new(alloc: Global) -> Words
        ensures { result ≡ [] }
    {
        Words {
            alloc,
            texts: Vec::new(alloc),
        }
    }

    /// An empty list with memory for `count` texts.
    pub fn with_capacity(alloc: Global, count: usize) -> Result<Words, NoMemory>
        ensures ok { IfOk result (λ words. words ≡ []) }
    {
        Ok(Words {
            alloc,
            texts: Vec::with_capacity(alloc, count)?,
        })
    }

    /// Adds a copy of the text at the end.
    pub fn push(&mut self, text: &str) -> Result<(), NoMemory>
        ensures ok { OnOk result (self.new ≡ self.old ++ chars text.now ∷ []) }
        ensures unchanged { OnErr result (self.new ≡ self.old) }
    {
        let text = Text::make(self.alloc, text)?;
        self.push_text(text)
    }

    /// Adds the text at the end, without a copy.
    pub fn push_text(&mut self, text: Text) -> Result<(), NoMemory>
        ensures ok { OnOk result (self.new ≡ self.old ++ text ∷ []) }
        ensures unchanged { OnErr result (self.new ≡ self.old) }
    {
        self.texts.push(text)?;
        Ok(())
    }

    /// The texts, in order.
    pub fn as_slice(&self) -> &[Text]
        ensures { result.now ≡ self.now }
    {
        self.texts.as_slice()
    }

    /// The number of texts.
    pub fn len(&self) -> usize
        ensures { result ≡ length self.now }
    {
        self.texts.len()
    }

    /// Whether there is no text.
    pub fn is_empty(&self) -> bool
        ensures { IsTrue result ↔ (self.now ≡ []) }
    {
        self.texts.is_empty()
    }

    /// The text with this index, from 0, if there is one.
    pub fn get(&self, at: usize) -> Option<&str>
        ensures { text_in result ≡ slice_get self.now at }
    {
        if at < self.texts.len() {
            Some(self.texts[at].as_str())
        } else {
            None
        }
    }

    /// The text with this index, from 0, as one that can be shared, if there is one.
    pub fn text(&self, at: usize) -> Option<&Text>
        ensures { option_copied result ≡ slice_get self.now at }
    {
        self.texts.get(at)
    }
}
