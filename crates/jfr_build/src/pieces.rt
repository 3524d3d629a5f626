//! The lines of a text, and the words of a line.
ghost use Rattle.std.specs.Prelude.{◌≡◌, ◌==◌, ◌<◌, ◌∷◌, [], length, IfNone, IfSome, MatchOption, OnSome};
ghost use Rattle.std.specs.List.{position};
ghost use Rattle.jfr_build.specs.Pieces.{lines_of, rest_pieces, words_of};

use std::marker::Model;

/// The lines that have not been taken yet. Contracts see them as a list.
#[derive(Drop)]
pub struct RestOfText<'a> {
    rest: Option<&'a [u8]>,
}

impl<'a> Model for RestOfText<'a> {
    ghost use Rattle.std.specs.Prelude.{ℕ, List};
    ghost use Rattle.jfr_build.specs.Pieces.{rest_pieces};

    ghost Value = { List (List ℕ) };

    ghost view = { λ lines. rest_pieces 10 lines.rest };
}

impl<'a> RestOfText<'a> {
    /// The lines of a text.
    pub fn of(text: &'a [u8]) -> RestOfText<'a>
        ensures { result ≡ lines_of text.now }
    {
        RestOfText { rest: Some(text) }
    }

    /// Takes the first line; `None` exactly if no line is left.
    pub fn next(&mut self) -> Option<&'a [u8]>
        ensures { MatchOption result ((self.old ≡ []) × (self.new ≡ [])) (λ line. self.old ≡ line.now ∷ self.new) }
    {
        let (line, rest) = first_line(self.rest?);
        self.rest = rest;
        Some(line)
    }
}

/// The index of the first newline, if there is one.
fn newline_in(text: &[u8]) -> Option<usize>
    ensures exact { result ≡ position (λ b. b == 10) text.now }
    ensures bound { IfSome result (λ at. at < length text.now) }
{
    text.iter().position(|byte| *byte == b'\n')
}

/// The bytes before the first newline, and those after it, if there is one.
fn first_line(text: &[u8]) -> (&[u8], Option<&[u8]>)
    ensures { lines_of text.now ≡ result.0.now ∷ rest_pieces 10 result.1 }
{
    match newline_in(text) {
        Some(at) => {
            let (line, rest) = text.split_at(at);
            let (_, rest) = rest.split_at(1);
            (line, Some(rest))
        }
        None => (text, None),
    }
}

/// The words that have not been taken yet. Contracts see them as a list.
#[derive(Drop)]
pub struct RestOfLine<'a> {
    rest: Option<&'a str>,
}

impl<'a> Model for RestOfLine<'a> {
    ghost use Rattle.std.specs.Prelude.{ℕ, List};
    ghost use Rattle.jfr_build.specs.Pieces.{rest_pieces};

    ghost Value = { List (List ℕ) };

    ghost view = { λ words. rest_pieces 32 words.rest };
}

impl<'a> RestOfLine<'a> {
    /// The words of a line.
    pub fn of(line: &'a str) -> RestOfLine<'a>
        ensures { result ≡ words_of line.now }
    {
        RestOfLine { rest: Some(line) }
    }

    /// A copy of these words, which can be taken separately.
    pub fn again(&self) -> RestOfLine<'a>
        ensures { result ≡ self.now }
    {
        RestOfLine { rest: self.rest }
    }

    /// Takes the first word; `None` exactly if no word is left.
    pub fn next(&mut self) -> Option<&'a str>
        ensures { MatchOption result ((self.old ≡ []) × (self.new ≡ [])) (λ word. self.old ≡ word.now ∷ self.new) }
    {
        let rest = self.rest?;
        match rest.split_once(' ') {
            Some((word, rest)) => {
                self.rest = Some(rest);
                Some(word)
            }
            None => {
                self.rest = None;
                Some(rest)
            }
        }
    }

    /// `Some` exactly if no word is left.
    pub fn end(&self) -> Option<()>
        ensures ended { OnSome result (self.now ≡ []) }
        ensures unread { IfNone result (self.now ≡ [] → ⊥) }
    {
        match self.rest {
            None => Some(()),
            Some(_) => None,
        }
    }
}
