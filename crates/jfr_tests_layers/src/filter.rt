//! Patterns, lists and filters from outside.
use jfr_filter::{Filter, FilterFault, Side, glob};
use jfr_outside::{NoMemory, Words};
use std::alloc::Global;
use std::process::Abort;
use std::test::Fail;

/// Whether the pattern matches the text is this.
fn matches(rt: &impl Abort, pattern: &str, text: &str, wanted: bool) {
    assert_eq!(rt; glob(pattern, text), wanted, "{pattern} at {text}");
}

/// A pattern and a text, and whether it matches.
type Glob = (&'static str, &'static str, bool);

static GLOBS: [Glob; 11] = [
    ("jdk.*", "jdk.ThreadPark", true),
    ("worker-?", "worker-1", true),
    ("*", "", true),
    ("?", "", false),
    ("jdk", "jdk.A", false),
    ("JDK.*", "jdk.A", false),
    ("*ab*c", "aabxabc", true),
    ("*a*a*a*a*b", "aaaaaaaaaaaaaaaa", false),
    // A character beyond ASCII is one.
    ("na?ve", "na\u{EF}ve", true),
    ("??", "\u{1F600}", false),
    ("*\u{1F600}", "smile \u{1F600}", true),
];

#[test]
fn globs(rt: HostRuntime) {
    for (pattern, text, wanted) in GLOBS.iter() {
        matches(&rt, pattern, text, *wanted);
    }
}

/// Lists with an empty part.
static EMPTY_PARTS: [&str; 4] = ["A,,B", ",A", "A,", ""];

/// Adding the list to a new filter is refused, for an empty part.
fn has_empty_part(rt: &impl Abort, alloc: Global, list: &str) {
    let mut filter = Filter::new(alloc);
    assert_eq!(rt;
        filter.add(Side::IncludeEvents, list),
        Err(FilterFault::EmptyPattern),
        "{list}"
    );
    assert!(rt; !filter.has(Side::IncludeEvents), "{list}");
}

/// A filter with an option for threads has this one and no other.
fn has_one(rt: &impl Abort, filter: &Filter) {
    assert!(rt; filter.has(Side::ExcludeThreads));
    assert!(rt; !filter.has(Side::IncludeThreads));
}

#[test]
fn lists(rt: HostRuntime) -> Result<(), Fail> {
    for list in EMPTY_PARTS.iter() {
        has_empty_part(&rt, rt.alloc(), list);
    }
    let filter = filter_of(rt.alloc(), &[(Side::ExcludeThreads, "A,B")])?;
    has_one(&rt, &filter);
    Ok(())
}

/// The text of a fault.
fn has_fault_text(rt: &impl Abort, alloc: Global) -> Result<(), Fail> {
    let fault = format!(in alloc; "{}", FilterFault::EmptyPattern)?;
    assert_eq!(rt; fault.as_str(), "EmptyPattern");
    Ok(())
}

#[test]
fn faults(rt: HostRuntime) -> Result<(), Fail> {
    has_fault_text(&rt, rt.alloc())
}

/// Gives an option to a filter that lacks it.
fn give(filter: &mut Filter, side: Side, list: &str) -> Result<(), Fail> {
    if filter.has(side) {
        Err("the option is given already")?;
    }
    filter.add(side, list)?;
    Ok(())
}

/// Gives options to a filter.
fn give_all(filter: &mut Filter, options: &[(Side, &str)]) -> Result<(), Fail> {
    for (side, list) in options {
        give(filter, *side, list)?;
    }
    Ok(())
}

/// The filter of these options.
fn filter_of(alloc: Global, options: &[(Side, &str)]) -> Result<Filter, Fail> {
    let mut filter = Filter::new(alloc);
    give_all(&mut filter, options)?;
    Ok(filter)
}

/// Adds texts to words.
fn push_texts(words: &mut Words, texts: &[&str]) -> Result<(), NoMemory> {
    for text in texts {
        words.push(text)?;
    }
    Ok(())
}

/// Words of these texts.
pub(crate) fn words_of(alloc: Global, texts: &[&str]) -> Result<Words, NoMemory> {
    let mut words = Words::new(alloc);
    push_texts(&mut words, texts)?;
    Ok(words)
}

/// A list of patterns and a class name, and whether some pattern of the list matches it.
type Listed = (&'static str, &'static str, bool);

static LISTED: [Listed; 18] = [
    // Names without wildcards beside patterns with them.
    ("jdk.ThreadPark,my.*,jdk.CPULoad", "jdk.ThreadPark", true),
    ("jdk.ThreadPark,my.*,jdk.CPULoad", "jdk.CPULoad", true),
    ("jdk.ThreadPark,my.*,jdk.CPULoad", "my.Event", true),
    ("jdk.ThreadPark,my.*,jdk.CPULoad", "jdk.CPU", false),
    ("jdk.ThreadPark,my.*,jdk.CPULoad", "jdk.CPULoads", false),
    // The same pattern twice.
    ("t.A,t.A,t.?,t.?", "t.A", true),
    ("t.A,t.A,t.?,t.?", "t.B", true),
    ("t.A,t.A", "t.B", false),
    // The part after the last dot.
    ("GCPhasePause", "jdk.GCPhasePause", true),
    ("GCPhasePause", "jdk.GCPhasePauseLevel1", false),
    ("jdk.GCPhasePause", "GCPhasePause", false),
    // One character.
    ("?", "t.A", true),
    ("?", "t.AB", false),
    // No character.
    ("A,?", "", false),
    ("A,*", "", true),
    ("A,B", "t.", false),
    // A character beyond ASCII, and a capital letter.
    ("t.na\u{EF}ve,t.A", "t.na\u{EF}ve", true),
    ("T.A,t.a", "t.A", false),
];

/// Some pattern of the list matches the name, or none does, as the row says.
fn see_listed(rt: &impl Abort, alloc: Global, (list, name, wanted): Listed) -> Result<(), Fail> {
    let filter = filter_of(alloc, &[(Side::IncludeEvents, list)])?;
    let matches = filter.matches(Side::IncludeEvents, name);
    assert!(rt; matches == wanted, "{list} at {name}");
    Ok(())
}

#[test]
fn listed(rt: HostRuntime) -> Result<(), Fail> {
    for row in LISTED.iter() {
        see_listed(&rt, rt.alloc(), *row)?;
    }
    Ok(())
}

/// An event: its class, its categories and its thread, and whether it is kept.
type Event = (
    &'static str,
    &'static [&'static str],
    Option<&'static str>,
    bool,
);

/// The options of a filter, and events.
type Case = (&'static [(Side, &'static str)], &'static [Event]);

/// Whether the filter keeps the event.
fn is_kept(alloc: Global, filter: &Filter, event: &Event) -> Result<bool, NoMemory> {
    let categories = words_of(alloc, event.1)?;
    Ok(filter.keeps(event.0, &categories, event.2))
}

/// The filter keeps the event, or doesn't, as the row says.
fn see_event(rt: &impl Abort, alloc: Global, filter: &Filter, event: &Event) -> Result<(), Fail> {
    let is_kept = is_kept(alloc, filter, event)?;
    assert!(rt; is_kept == event.3, "{event:?}");
    Ok(())
}

/// The filter keeps those of the events that it should.
fn see_events(
    rt: &impl Abort,
    alloc: Global,
    filter: &Filter,
    events: &[Event],
) -> Result<(), Fail> {
    for event in events {
        see_event(rt, alloc, filter, event)?;
    }
    Ok(())
}

/// The filter of these options keeps those of the events that it should.
fn see_case(rt: &impl Abort, alloc: Global, (options, events): Case) -> Result<(), Fail> {
    let filter = filter_of(alloc, options)?;
    see_events(rt, alloc, &filter, events)
}

/// So does each filter.
fn see_cases(rt: &impl Abort, alloc: Global, cases: &[Case]) -> Result<(), Fail> {
    for case in cases {
        see_case(rt, alloc, *case)?;
    }
    Ok(())
}

static BY_CLASS: [Case; 2] = [
    // Without an option each event is kept.
    (&[], &[("jdk.CPULoad", &[], None, true)]),
    (
        &[
            (Side::IncludeEvents, "ThreadPark,my.*"),
            (Side::ExcludeEvents, "my.internal.*"),
        ],
        &[
            ("jdk.ThreadPark", &[], None, true),
            ("my.Event", &[], None, true),
            ("my.internal.Event", &[], None, false),
            ("jdk.CPULoad", &[], None, false),
        ],
    ),
];

#[test]
fn events(rt: HostRuntime) -> Result<(), Fail> {
    see_cases(&rt, rt.alloc(), &BY_CLASS)
}

static BY_CATEGORY: [Case; 1] = [(
    &[(Side::IncludeCategories, "Operating*")],
    &[
        ("jdk.CPULoad", &["Java", "Operating System"], None, true),
        ("jdk.CPULoad", &[], None, false),
    ],
)];

#[test]
fn categories(rt: HostRuntime) -> Result<(), Fail> {
    see_cases(&rt, rt.alloc(), &BY_CATEGORY)
}

/// An event without a thread is neither included by its thread nor excluded.
static BY_THREAD: [Case; 2] = [
    (
        &[(Side::IncludeThreads, "worker*")],
        &[
            ("t.A", &[], Some("worker-1"), true),
            ("t.A", &[], None, false),
        ],
    ),
    (
        &[(Side::ExcludeThreads, "*")],
        &[("t.A", &[], Some("main"), false), ("t.A", &[], None, true)],
    ),
];

#[test]
fn threads(rt: HostRuntime) -> Result<(), Fail> {
    see_cases(&rt, rt.alloc(), &BY_THREAD)
}

static THREE_OPTIONS: [(Side, &str); 3] = [
    (Side::IncludeEvents, "t.*"),
    (Side::ExcludeCategories, "Java"),
    (Side::IncludeThreads, "main"),
];

/// Only the class, and only the thread.
fn allows_parts(rt: &impl Abort, filter: &Filter, none: &Words, java: &Words) {
    assert!(rt; filter.allows_class("t.A", none));
    assert!(rt; !filter.allows_class("t.A", java));
    assert!(rt; !filter.allows_class("u.A", none));
    assert!(rt; filter.allows_thread(Some("main")));
    assert!(rt; !filter.allows_thread(None));
    assert!(rt; !filter.keeps("t.A", java, Some("main")));
}

/// They are asked of a filter.
fn asks_parts(rt: &impl Abort, alloc: Global, filter: &Filter) -> Result<(), Fail> {
    let java = words_of(alloc, &["Java"])?;
    let none = Words::new(alloc);
    allows_parts(rt, filter, &none, &java);
    Ok(())
}

/// They are asked of the filter of three options.
fn asks_three_options(rt: &impl Abort, alloc: Global) -> Result<(), Fail> {
    let filter = filter_of(alloc, &THREE_OPTIONS)?;
    asks_parts(rt, alloc, &filter)
}

#[test]
fn parts(rt: HostRuntime) -> Result<(), Fail> {
    asks_three_options(&rt, rt.alloc())
}

static FOUR_OPTIONS: [(Side, &str); 4] = [
    (Side::IncludeEvents, "A"),
    (Side::ExcludeCategories, "A,Java*"),
    (Side::Always, "Flag"),
    (Side::Describe, "jdk.*"),
];

/// Each option by itself, for one text: a class is matched by its simple name too, a category only whole.
fn asks_options(rt: &impl Abort, filter: &Filter) {
    assert!(rt; filter.matches(Side::IncludeEvents, "t.A"));
    assert!(rt; !filter.matches(Side::ExcludeCategories, "t.A"));
    assert!(rt; filter.matches(Side::ExcludeCategories, "Java Application"));
    assert!(rt; !filter.matches(Side::IncludeThreads, "A"));
    assert!(rt; filter.matches(Side::Always, "jdk.Flag"));
    assert!(rt; !filter.matches(Side::Always, "jdk.LongFlag"));
    assert!(rt; filter.matches(Side::Describe, "jdk.LongFlag"));
    assert!(rt; !filter.matches(Side::Describe, "t.A"));
}

/// They are asked of the filter of four options.
fn asks_four_options(rt: &impl Abort, alloc: Global) -> Result<(), Fail> {
    let filter = filter_of(alloc, &FOUR_OPTIONS)?;
    asks_options(rt, &filter);
    Ok(())
}

#[test]
fn options(rt: HostRuntime) -> Result<(), Fail> {
    asks_four_options(&rt, rt.alloc())
}

/// The bounds of the time window are those that were set, each by itself.
fn has_window(rt: &impl Abort, alloc: Global) {
    let mut filter = Filter::new(alloc);
    assert!(rt; !filter.has_window());
    filter.set_to(20);
    assert!(rt; filter.has_window());
    assert_eq!(rt; (filter.from(), filter.to()), (None, Some(20)));
    filter.set_from(10);
    assert_eq!(rt; (filter.from(), filter.to()), (Some(10), Some(20)));
}

#[test]
fn windows(rt: HostRuntime) {
    has_window(&rt, rt.alloc());
}
