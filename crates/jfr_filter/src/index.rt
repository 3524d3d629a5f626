//! An index of a list of patterns, by which a text is looked up.
ghost use Rattle.std.specs.Prelude.{◌≡◌, ◌||◌, ℕ, List, IfOk, OnOk, Some, length, slice_get};
ghost use Rattle.std.specs.List.{list_any};
ghost use Rattle.std.specs.Str.{chars, IsUtf8};
ghost use Rattle.jfr_filter.specs.Indexes.{IsIndexOf, any_at, finds, is_match_at};
ghost use Rattle.jfr_filter.specs.Patterns.{glob, has_wildcard};

use crate::pattern::{glob, has_wildcard};
use jfr_base::{NoMemory, Words};
use std::alloc::Global;
use std::collections::BTreeSet;

/// An index of a list of patterns. A pattern without `*` and `?` matches only the text that it is, so that one
/// look-up compares a text with all of these.
#[derive(Drop)]
pub(crate) struct Index {
    /// The patterns without wildcards.
    exact: BTreeSet<String>,
    /// The numbers of the other patterns in the list.
    globs: Vec<usize>,
}

impl Index {
    /// The index of these patterns.
    pub(crate) fn of(alloc: Global, patterns: &Words) -> Result<Index, NoMemory>
        ensures ok { IfOk result (IsIndexOf patterns.now) }
    {
        let mut index = Index {
            exact: BTreeSet::new(alloc),
            globs: Vec::new(alloc),
        };
        for (number, pattern) in patterns.as_slice().iter().enumerate() {
            index.add(alloc, number, pattern.as_str())?;
        }
        Ok(index)
    }

    /// Adds the pattern that has this number in the list.
    fn add(&mut self, alloc: Global, number: usize, pattern: &str) -> Result<(), NoMemory>
        ensures ok { OnOk result ((patterns : List (List ℕ)) (text : List ℕ) → slice_get patterns number ≡ Some (chars pattern.now) → IsUtf8 text → finds self.new patterns text ≡ (finds self.old patterns text || glob (chars pattern.now) (chars text))) }
    {
        if has_wildcard(pattern) {
            self.globs.push(number)?;
        } else {
            self.exact.insert(String::from_str(alloc, pattern)?)?;
        }
        Ok(())
    }

    /// Whether some pattern of the list matches the text. It allocates nothing.
    pub(crate) fn finds(&self, patterns: &Words, text: &str) -> bool
        ensures { result ≡ finds self.now patterns.now text.now }
    {
        if self.exact.contains(text) {
            return true;
        }
        any_at(patterns, text, self.globs.as_slice())
    }
}

/// Whether one of the patterns with these numbers matches the text.
fn any_at(patterns: &Words, text: &str, numbers: &[usize]) -> bool
    ensures { result ≡ any_at patterns.now (chars text.now) numbers.now }
{
    numbers
        .iter()
        .any(|number| is_match_at(patterns, text, *number))
}

/// Whether there is a pattern with this number, and it matches the text.
fn is_match_at(patterns: &Words, text: &str, number: usize) -> bool
    ensures { result ≡ is_match_at patterns.now (chars text.now) number }
{
    match patterns.get(number) {
        Some(pattern) => glob(pattern, text),
        None => false,
    }
}
