//! A list of patterns: a text cut at each comma.
ghost use Rattle.std.specs.Prelude.{◌≡◌, IfOk};
ghost use Rattle.std.specs.Str.{chars};
ghost use Rattle.jfr_filter.specs.Patterns.{patterns_in, has_empty_part};

use jfr_base::{NoMemory, Words};
use std::alloc::Global;

/// Whether some part of the list is empty.
pub(crate) fn has_empty_part(list: &str) -> bool
    ensures { result ≡ has_empty_part (chars list.now) }
{
    list.split(',').any(|part| part.is_empty())
}

/// The parts of the list.
pub(crate) fn patterns_of(alloc: Global, list: &str) -> Result<Words, NoMemory>
    ensures { IfOk result (λ patterns. patterns ≡ patterns_in (chars list.now)) }
{
    let mut patterns = Words::new(alloc);
    for part in list.split(',') {
        patterns.push(part)?;
    }
    Ok(patterns)
}
