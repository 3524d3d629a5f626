//! The words of the command line that have not been read yet.
ghost use Rattle.std.specs.Prelude.{◌≡◌, ◌≢◌, ◌∷◌, [], ℕ, List, Option, MatchOption, MatchResult, OnSome, IfNone, option_and_then, slice_get, drop};
ghost use Rattle.std.specs.Str.{chars};
ghost use Rattle.jfr_base.specs.Texts.{text_in};

use crate::WordsFault;
use jfr_outside::Words;
use std::marker::Model;

/// The options of a command, each named by a word.
pub(crate) trait Named: Drop {
    ghost named: { List ℕ → Option Self };

    /// The option that a word names, if any.
    fn of_word(word: &str) -> Option<Self>
        ensures { result ≡ named (chars word.now) };
}

/// The words that are left. Contracts see them as a list.
#[derive(Drop)]
pub(crate) struct UnreadWords<'a> {
    words: &'a Words,
    at: usize,
}

impl<'a> Model for UnreadWords<'a> {
    ghost use Rattle.std.specs.Prelude.{ℕ, List, drop};

    ghost Value = { List (List ℕ) };

    ghost view = { λ unread. drop unread.at unread.words.now };
}

impl<'a> UnreadWords<'a> {
    /// All words of the command line, of which none is read yet.
    pub(crate) fn all(words: &'a Words) -> UnreadWords<'a>
        ensures { result ≡ words.now }
    {
        UnreadWords { words, at: 0 }
    }

    /// The first word, without taking it; `None` exactly if no word is left.
    pub(crate) fn first(&self) -> Option<&'a str>
        ensures { text_in result ≡ slice_get self.now 0 }
    {
        self.words.get(self.at)
    }

    /// Takes the first word; `None` exactly if no word is left.
    pub(crate) fn take(&mut self) -> Option<&'a str>
        ensures { MatchOption result ((self.old ≡ []) × (self.new ≡ [])) (λ word. self.old ≡ chars word.now ∷ self.new) }
    {
        if self.at == self.words.len() {
            return None;
        }
        let word = self.words.get(self.at)?;
        self.at += 1;
        Some(word)
    }

    /// Takes the first word if it names an option, and returns the option.
    pub(crate) fn take_option<T: Named>(&mut self) -> Option<T>
        ensures option { result ≡ option_and_then T.named (slice_get self.old 0) }
        ensures taken { OnSome result (self.new ≡ drop 1 self.old) }
        ensures unchanged { IfNone result (self.new ≡ self.old) }
    {
        let option = T::of_word(self.first()?)?;
        let _ = self.take();
        Some(option)
    }

    /// Takes the first word; a usage fault if no word is left.
    pub(crate) fn next_word(&mut self) -> Result<&'a str, WordsFault>
        ensures { MatchResult result (λ word. self.old ≡ chars word.now ∷ self.new) (λ fault. (fault ≡ WordsFault.Usage) × (self.old ≡ [])) }
    {
        self.take().ok_or(WordsFault::Usage)
    }

    /// Checks that no word is left; a usage fault otherwise.
    pub(crate) fn end(&self) -> Result<(), WordsFault>
        ensures { MatchResult result (λ _. self.now ≡ []) (λ fault. (fault ≡ WordsFault.Usage) × (self.now ≢ [])) }
    {
        match self.first() {
            None => Ok(()),
            Some(_) => Err(WordsFault::Usage),
        }
    }
}
