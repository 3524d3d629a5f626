//! Filters: which events are kept, by patterns and by a time window.
//!
//! A `Filter` holds the patterns of eight options, and the bounds of a time window. `keeps` decides by an event's
//! class name, its categories and its thread text; `allows_class` and `allows_thread` are the two parts of it.
//! `matches` tests one text with the patterns of one option. `Patterns` is such a list by itself: a text is looked
//! up among the patterns without wildcards, and compared with each of the others. Read `specs/Patterns.antt`
//! first, for what a pattern matches, and then `specs/Filters.antt`, for which events are kept.
#![tactic(auto)]

mod filter;
mod index;
mod list;
mod matching;
mod pattern;
mod patterns;
mod side;

pub use filter::Filter;
pub use pattern::glob;
pub use patterns::Patterns;
pub use side::{FilterFault, Side};
