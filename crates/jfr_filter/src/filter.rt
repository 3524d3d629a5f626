//! A filter: the patterns of eight options, and a time window.
ghost use Rattle.std.specs.Prelude.{◌≡◌, ◌↔◌, IsTrue, OnOk, OnErr, IsSome, Some, None, Err};
ghost use Rattle.std.specs.Option.{option_copied};
ghost use Rattle.std.specs.Str.{chars};
ghost use Rattle.jfr_base.specs.Texts.{text_in};
ghost use Rattle.jfr_filter.specs.declared.side.FilterFault.TheVariants.{EmptyPattern};
ghost use Rattle.jfr_filter.specs.Filters.{nothing_given, given_at, with_patterns, event_matches, category_matches, allows, allows_class, allows_thread, has_window, keeps, some_matches};
ghost use Rattle.jfr_filter.specs.Patterns.{patterns_in, has_empty_part};

use crate::matching::{any_category, any_event, any_thread};
use crate::patterns::Patterns;
use crate::{FilterFault, Side};
use jfr_base::Words;
use std::alloc::Global;
use std::collections::BTreeMap;
use std::marker::Model;

/// Which events are kept, and which classes are described without events. Contracts see a filter as what each
/// option says that is given.
#[derive(Drop)]
pub struct Filter {
    alloc: Global,
    /// The patterns of each option that has some.
    patterns: BTreeMap<Side, Patterns>,
    from: Option<i64>,
    to: Option<i64>,
}

impl Model for Filter {
    ghost use Rattle.jfr_filter.specs.Filters.{Given};
    ghost use Rattle.jfr_filter.specs.Options.{given_of};

    ghost Value = { Given };

    ghost view = { λ f. given_of f.patterns.entries f.from f.to };
}

impl Filter {
    /// The filter without options, which keeps every event. It allocates nothing.
    pub fn new(alloc: Global) -> Filter
        ensures { result ≡ nothing_given }
    {
        Filter {
            alloc,
            patterns: BTreeMap::new(alloc),
            from: None,
            to: None,
        }
    }

    /// Whether the option has patterns.
    pub fn has(&self, side: Side) -> bool
        ensures { IsTrue result ↔ IsSome (given_at side self.now) }
    {
        self.patterns(side).is_some()
    }

    /// The patterns of an option.
    fn patterns(&self, side: Side) -> Option<&Patterns>
        ensures { option_copied result ≡ given_at side self.now }
    {
        self.patterns.get(&side)
    }

    /// Sets the patterns of an option: the parts of the list between its commas, with nothing trimmed. Fails
    /// with `EmptyPattern` exactly if a part of the list is empty, and with `Memory` if memory runs out; the
    /// filter is then unchanged.
    pub fn add(&mut self, side: Side, list: &str) -> Result<(), FilterFault>
        requires { given_at side self.old ≡ None }
        ensures ok { OnOk result (self.new ≡ with_patterns side (patterns_in (chars list.now)) self.old) }
        ensures refused { (result ≡ Err EmptyPattern) ↔ IsTrue (has_empty_part (chars list.now)) }
        ensures unchanged { OnErr result (self.new ≡ self.old) }
    {
        let patterns = Patterns::read(self.alloc, list)?;
        self.patterns.insert(side, patterns)?;
        Ok(())
    }

    /// Begins the time window at this moment, in nanoseconds since 1970 in UTC. It allocates nothing.
    pub fn set_from(&mut self, nanoseconds: i64)
        ensures { self.new ≡ record self.old { from = Some nanoseconds } }
    {
        self.from = Some(nanoseconds);
    }

    /// Ends the time window before this moment, in nanoseconds since 1970 in UTC. It allocates nothing.
    pub fn set_to(&mut self, nanoseconds: i64)
        ensures { self.new ≡ record self.old { to = Some nanoseconds } }
    {
        self.to = Some(nanoseconds);
    }

    /// The first moment of the time window, if one is given.
    pub fn from(&self) -> Option<i64>
        ensures { result ≡ self.now.from }
    {
        self.from
    }

    /// The first moment after the time window, if one is given.
    pub fn to(&self) -> Option<i64>
        ensures { result ≡ self.now.to }
    {
        self.to
    }

    /// Whether a time window is given.
    pub fn has_window(&self) -> bool
        ensures { result ≡ has_window self.now }
    {
        self.from.is_some() || self.to.is_some()
    }

    /// Whether the event is kept, the time window aside: every given option allows it, by the name and the
    /// categories of its class, and by its thread text, if it has one. It allocates nothing.
    #[tactic(auto, using(crate::proofs::KeepLaws::keeps_by_parts))]
    pub fn keeps(&self, name: &str, categories: &Words, thread: Option<&str>) -> bool
        ensures { result ≡ keeps self.now (chars name.now) categories.now (text_in thread.entry) }
    {
        if !self.allows_class(name, categories) {
            return false;
        }
        self.allows_thread(thread)
    }

    /// Whether the options for events and for categories allow the class, by its name and its categories. It
    /// allocates nothing.
    #[tactic(auto, unfolding(crate::specs::Filters::allows_class))]
    pub fn allows_class(&self, name: &str, categories: &Words) -> bool
        ensures { result ≡ allows_class self.now (chars name.now) categories.now }
    {
        if !self.allows_event(name) {
            return false;
        }
        self.allows_categories(categories)
    }

    /// Whether the options for threads allow this thread text, or an event without one. It allocates nothing.
    #[tactic(auto, unfolding(crate::specs::Filters::allows_thread))]
    pub fn allows_thread(&self, thread: Option<&str>) -> bool
        ensures { result ≡ allows_thread self.now (text_in thread.entry) }
    {
        if let Some(patterns) = self.patterns(Side::IncludeThreads)
            && !any_thread(patterns, thread)
        {
            return false;
        }
        if let Some(patterns) = self.patterns(Side::ExcludeThreads)
            && any_thread(patterns, thread)
        {
            return false;
        }
        true
    }

    /// Whether some pattern of the option matches the text: a category or a thread text for the options for
    /// these, a class name for the others. It allocates nothing.
    pub fn matches(&self, side: Side, text: &str) -> bool
        ensures { result ≡ some_matches self.now side (chars text.now) }
    {
        let Some(patterns) = self.patterns(side) else {
            return false;
        };
        match side {
            Side::IncludeCategories
            | Side::ExcludeCategories
            | Side::IncludeThreads
            | Side::ExcludeThreads => patterns.matches(text),
            Side::IncludeEvents | Side::ExcludeEvents | Side::Always | Side::Describe => {
                any_event(patterns, text)
            }
        }
    }

    /// Whether the options for events allow the class name.
    fn allows_event(&self, name: &str) -> bool
        ensures { result ≡ allows (event_matches (chars name.now)) self.now.include_events self.now.exclude_events }
    {
        if let Some(patterns) = self.patterns(Side::IncludeEvents)
            && !any_event(patterns, name)
        {
            return false;
        }
        if let Some(patterns) = self.patterns(Side::ExcludeEvents)
            && any_event(patterns, name)
        {
            return false;
        }
        true
    }

    /// Whether the options for categories allow these categories.
    fn allows_categories(&self, categories: &Words) -> bool
        ensures { result ≡ allows (category_matches categories.now) self.now.include_categories self.now.exclude_categories }
    {
        if let Some(patterns) = self.patterns(Side::IncludeCategories)
            && !any_category(patterns, categories)
        {
            return false;
        }
        if let Some(patterns) = self.patterns(Side::ExcludeCategories)
            && any_category(patterns, categories)
        {
            return false;
        }
        true
    }
}
