//! The patterns of an option.
ghost use Rattle.std.specs.Prelude.{◌≡◌, ◌↔◌, Err, IfOk, IsTrue};
ghost use Rattle.std.specs.List.{list_any};
ghost use Rattle.std.specs.Str.{chars};
ghost use Rattle.jfr_filter.specs.Patterns.{glob, has_empty_part, patterns_in};
ghost use Rattle.jfr_filter.specs.declared.side.FilterFault.TheVariants.{EmptyPattern};

use crate::FilterFault;
use crate::index::Index;
use crate::list::{has_empty_part, patterns_of};
use jfr_base::Words;
use std::alloc::Global;
use std::marker::Model;

/// The patterns of an option. Contracts see them as a list, in the order in which they were given.
#[derive(Drop)]
pub struct Patterns {
    given: Words,
    index: Index,
}

impl Model for Patterns {
    ghost use Rattle.std.specs.Prelude.{ℕ, List};
    ghost use Rattle.jfr_filter.specs.Indexes.{IsIndexOf};

    ghost Value = { List (List ℕ) };

    ghost view = { λ patterns. patterns.given };

    ghost invariant = { λ patterns. IsIndexOf patterns.given patterns.index };
}

impl Patterns {
    /// The parts of the list between its commas, with nothing trimmed. Fails with `EmptyPattern` exactly if a
    /// part of the list is empty, and with `Memory` if memory runs out.
    pub fn read(alloc: Global, list: &str) -> Result<Patterns, FilterFault>
        ensures ok { IfOk result (λ patterns. patterns ≡ patterns_in (chars list.now)) }
        ensures refused { (result ≡ Err EmptyPattern) ↔ IsTrue (has_empty_part (chars list.now)) }
    {
        if has_empty_part(list) {
            return Err(FilterFault::EmptyPattern);
        }
        let given = patterns_of(alloc, list)?;
        let index = Index::of(alloc, &given)?;
        Ok(Patterns { given, index })
    }

    /// Whether some pattern matches the text. It allocates nothing.
    pub fn matches(&self, text: &str) -> bool
        ensures { result ≡ list_any (λ pattern. glob pattern (chars text.now)) self.now }
    {
        self.index.finds(&self.given, text)
    }
}
