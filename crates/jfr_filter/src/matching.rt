//! Matching a list of patterns.
ghost use Rattle.std.specs.Prelude.{◌≡◌};
ghost use Rattle.std.specs.List.{list_any};
ghost use Rattle.std.specs.Str.{chars};
ghost use Rattle.jfr_base.specs.Texts.{text_in};
ghost use Rattle.jfr_filter.specs.Filters.{event_matches, category_matches, thread_matches};

use crate::pattern::simple_name;
use crate::patterns::Patterns;
use jfr_base::Words;

/// Whether some pattern matches the class name, or the part after its last dot.
pub(crate) fn any_event(patterns: &Patterns, name: &str) -> bool
    ensures { result ≡ list_any (event_matches (chars name.now)) patterns.now }
{
    if patterns.matches(name) {
        return true;
    }
    patterns.matches(simple_name(name))
}

/// Whether some pattern matches one of the categories.
pub(crate) fn any_category(patterns: &Patterns, categories: &Words) -> bool
    ensures { result ≡ list_any (category_matches categories.now) patterns.now }
{
    categories
        .as_slice()
        .iter()
        .any(|category| patterns.matches(category.as_str()))
}

/// Whether there is a thread text, and some pattern matches it.
pub(crate) fn any_thread(patterns: &Patterns, thread: Option<&str>) -> bool
    ensures { result ≡ list_any (thread_matches (text_in thread.entry)) patterns.now }
{
    match thread {
        Some(text) => patterns.matches(text),
        None => false,
    }
}
