//! Lines, and the orders that they give.
use crate::words::Asked::{
    Assemble, Build, Disassemble, Mask, Metadata, Print, Receipt, Sample, Scrub, Stacks, Summary,
    Verify,
};
use jfr_filter::{Filter, Patterns, Side};
use jfr_outside::{NoMemory, Text, Words};
use jfr_split::SplitRule;
use jfr_words::{Order, WordsFault, read_words};
use std::alloc::Global;
use std::process::Abort;
use std::test::Fail;

/// The options of a filter that have patterns.
static SIDES: [Side; 8] = [
    Side::IncludeEvents,
    Side::ExcludeEvents,
    Side::IncludeCategories,
    Side::ExcludeCategories,
    Side::IncludeThreads,
    Side::ExcludeThreads,
    Side::Always,
    Side::Describe,
];

/// Those of a filter that are given.
type Options = &'static [Side];

/// What a line asks for.
enum Asked {
    // The options, the depth, whether the output is JSON, and the file.
    Print(Options, u8, bool, &'static str),
    // Whether the output is JSON, and the file.
    Summary(bool, &'static str),
    // Whether the output is JSON, and the file.
    Metadata(bool, &'static str),
    // The options, whether keys are numbered anew, the input and the output.
    Scrub(Options, bool, &'static str, &'static str),
    // The file, the most chunks, bytes and parts, and the folder.
    Disassemble(&'static str, [u64; 3], Option<&'static str>),
    // The folder and the output.
    Assemble(&'static str, &'static str),
    // The seed and the number of events.
    Sample(u32, u32),
    // The options, the input and the receipt.
    Receipt(Options, &'static str, &'static str),
    // The options, the input, the output and the receipt.
    Verify(Options, &'static str, &'static str, &'static str),
    // The options and the file.
    Stacks(Options, &'static str),
    // The text and the output.
    Build(&'static str, &'static str),
    // The options, a text that `strings` matches, one that `except` does, the known texts, the table, the input and
    // the output.
    Mask(
        Options,
        &'static str,
        Option<&'static str>,
        Option<&'static str>,
        Option<&'static str>,
        &'static str,
        &'static str,
    ),
}

/// The words of a line, and what it asks for. Several small tables cost less to prove than one large one.
type Line = (&'static [&'static str], Asked);

/// Orders about scrubs.
#[rattlefmt::skip]
static SCRUBS: [Line; 8] = [
    (&["scrub", "a", "b"], Scrub(&[], false, "a", "b")),
    (&["scrub", "--exclude-threads", "--x", "--include-events", "A,B", "a", "b"], Scrub(&[Side::IncludeEvents, Side::ExcludeThreads], false, "a", "b")),
    (&["scrub", "--include-events", "A", "--renumber", "yes", "a", "b"], Scrub(&[Side::IncludeEvents], true, "a", "b")),
    (&["scrub", "--renumber", "no", "a", "b"], Scrub(&[], false, "a", "b")),
    (&["scrub", "--describe", "--from", "--renumber", "yes", "--always", "A,*B", "a", "b"], Scrub(&[Side::Always, Side::Describe], true, "a", "b")),
    (&["receipt", "--describe", "A", "a", "r"], Receipt(&[Side::Describe], "a", "r")),
    (&["receipt", "--exclude-categories", "--", "--include-events", "A", "a", "r"], Receipt(&[Side::IncludeEvents, Side::ExcludeCategories], "a", "r")),
    (&["verify", "--include-threads", "main", "a", "b", "r"], Verify(&[Side::IncludeThreads], "a", "b", "r")),
];

/// Lines that begin as these do, and are no orders.
#[rattlefmt::skip]
static NO_SCRUBS: [&[&str]; 26] = [
    &["scrub", "a"],
    &["scrub", "a", "b", "c"],
    &["scrub", "a", "-b"],
    &["scrub", "", "b"],
    &["scrub", "--include-events"],
    &["scrub", "--include-events", "A"],
    &["scrub", "--include-events", "A", "--include-events", "B", "a", "b"],
    &["scrub", "--include-events", "A,,B", "a", "b"],
    &["scrub", "--events", "A", "a", "b"],
    &["scrub", "a", "--include-events", "A", "b"],
    &["scrub", "--renumber", "a", "b"],
    &["scrub", "--renumber", "true", "a", "b"],
    &["scrub", "--renumber", "yes", "--renumber", "yes", "a", "b"],
    &["scrub", "--describe", "a", "b"],
    &["scrub", "--describe", "A,", "a", "b"],
    &["scrub", "--describe", "A", "--describe", "A", "a", "b"],
    &["scrub", "--always", "A", "--always", "B", "a", "b"],
    &["scrub", "--json", "a", "b"],
    &["receipt", "a"],
    &["receipt", "a", "b", "c"],
    &["receipt", "--renumber", "no", "a", "b"],
    &["receipt", "--include-events"],
    &["receipt", "a", "--include-events", "b"],
    &["verify", "a", "b"],
    &["verify", "a", "b", "-r"],
    &["verify", "--include-events", "A", "--include-events", "A", "a", "b", "r"],
];

/// Orders about masks.
#[rattlefmt::skip]
static MASKS: [Line; 5] = [
    (&["mask", "--strings", "A", "a", "b"], Mask(&[], "A", None, None, None, "a", "b")),
    (&["mask", "--strings", "--except", "--except", "--strings", "a", "b"], Mask(&[], "--except", Some("--strings"), None, None, "a", "b")),
    (&["mask", "--strings", "A.*,B", "--except", "A.x", "--known", "k", "--table", "t", "--include-events", "A", "--describe", "B", "a", "b"], Mask(&[Side::IncludeEvents, Side::Describe], "B", Some("A.x"), Some("k"), Some("t"), "a", "b")),
    (&["mask", "--describe", "B", "--table", "t", "--except", "A.x", "--include-events", "A", "--known", "k", "--strings", "A.*,B", "a", "b"], Mask(&[Side::IncludeEvents, Side::Describe], "B", Some("A.x"), Some("k"), Some("t"), "a", "b")),
    (&["mask", "--table", "t", "--always", "A", "--strings", "A", "a", "b"], Mask(&[Side::Always], "A", None, None, Some("t"), "a", "b")),
];

/// Lines that begin as these do, and are no orders.
#[rattlefmt::skip]
static NO_MASKS: [&[&str]; 26] = [
    &["mask"],
    &["mask", "a", "b"],
    &["mask", "--except", "A", "--known", "k", "--table", "t", "a", "b"],
    &["mask", "--strings"],
    &["mask", "--strings", "A"],
    &["mask", "--strings", "A", "a"],
    &["mask", "--strings", "A", "a", "b", "c"],
    &["mask", "--strings", "A", "a", "-b"],
    &["mask", "--strings", "", "a", "b"],
    &["mask", "--strings", "A,,B", "a", "b"],
    &["mask", "--strings", "A", "--except", "", "a", "b"],
    &["mask", "--strings", "A", "--except", "A,", "a", "b"],
    &["mask", "--strings", "A", "--strings", "B", "a", "b"],
    &["mask", "--strings", "A", "--except", "A", "--except", "A", "a", "b"],
    &["mask", "--known", "k", "--strings", "A", "--known", "k", "a", "b"],
    &["mask", "--table", "t", "--strings", "A", "--table", "u", "a", "b"],
    &["mask", "--include-events", "A", "--strings", "A", "--include-events", "A", "a", "b"],
    &["mask", "--to", "1", "--to", "1", "--strings", "A", "a", "b"],
    &["mask", "--strings", "A", "--known", "-x", "a", "b"],
    &["mask", "--strings", "A", "--known", "", "a", "b"],
    &["mask", "--strings", "A", "--table", "-x", "a", "b"],
    &["mask", "--strings", "A", "--table"],
    &["mask", "--strings", "A", "--table", "a", "b"],
    &["mask", "--strings", "A", "--renumber", "no", "a", "b"],
    &["mask", "a", "--strings", "A", "b"],
    &["scrub", "--strings", "A", "a", "b"],
];

/// Orders that print what is in a recording.
#[rattlefmt::skip]
static PRINTS: [Line; 10] = [
    (&["print", "a"], Print(&[], 2, false, "a")),
    (&["print", "--depth", "08", "a"], Print(&[], 8, false, "a")),
    (&["print", "--json", "--depth", "0", "--categories", "--json", "--events", "A", "a"], Print(&[Side::IncludeEvents, Side::IncludeCategories], 0, true, "a")),
    (&["print", "--always", "A", "--json", "a"], Print(&[Side::Always], 2, true, "a")),
    (&["summary", "a"], Summary(false, "a")),
    (&["summary", "--json", "a"], Summary(true, "a")),
    (&["metadata", "a"], Metadata(false, "a")),
    (&["metadata", "--json", "a"], Metadata(true, "a")),
    (&["stacks", "a"], Stacks(&[], "a")),
    (&["stacks", "--categories", "--events", "--events", "A", "a"], Stacks(&[Side::IncludeEvents, Side::IncludeCategories], "a")),
];

/// Lines that begin as these do, and are no orders.
#[rattlefmt::skip]
static NO_PRINTS: [&[&str]; 27] = [
    &["print"],
    &["print", "--json"],
    &["print", "--depth", "9", "a"],
    &["print", "--depth", "-1", "a"],
    &["print", "--depth", "+1", "a"],
    &["print", "--depth", "", "a"],
    &["print", "--depth", "1", "--depth", "1", "a"],
    &["print", "--depth", "00000000000000000001", "a"],
    &["print", "--json", "--json", "a"],
    &["print", "--events", "A", "--events", "A", "a"],
    &["print", "--events", "", "a"],
    &["print", "--describe", "A", "a"],
    &["summary"],
    &["summary", "a", "b"],
    &["summary", "--json"],
    &["summary", "--json", "--json", "a"],
    &["summary", "a", "--json"],
    &["summary", "--from", "0", "a"],
    &["metadata", "-"],
    &["metadata", "--json", "--json", "a"],
    &["metadata", "--depth", "1", "a"],
    &["stacks"],
    &["stacks", "--depth", "1", "a"],
    &["stacks", "--exclude-events", "A", "a"],
    &["stacks", "--describe", "A", "a"],
    &["stacks", "--events", "A", "--events", "A", "a"],
    &["stacks", "a", "b"],
];

/// The words of a line with a filter, the filter's options that have patterns, and the bounds of its window.
type Windowed = (&'static [&'static str], Options, Option<i64>, Option<i64>);

/// Orders about a time window.
#[rattlefmt::skip]
static WINDOWS: [Windowed; 9] = [
    (&["scrub", "--from", "0", "a", "b"], &[], Some(0), None),
    (&["scrub", "--to", "9223372036854775807", "a", "b"], &[], None, Some(9223372036854775807)),
    (&["scrub", "--to", "1", "--renumber", "no", "--from", "2", "a", "b"], &[], Some(2), Some(1)),
    (&["scrub", "--from", "0000000000000000007", "--always", "A", "a", "b"], &[Side::Always], Some(7), None),
    (&["receipt", "--to", "5", "--include-events", "--to", "--from", "4", "a", "r"], &[Side::IncludeEvents], Some(4), Some(5)),
    (&["verify", "--describe", "A", "--from", "1788000000000000000", "a", "b", "r"], &[Side::Describe], Some(1788000000000000000), None),
    (&["print", "--json", "--from", "1", "--events", "A", "--to", "2", "a"], &[Side::IncludeEvents], Some(1), Some(2)),
    (&["stacks", "--always", "A", "--to", "2", "a"], &[Side::Always], None, Some(2)),
    (&["mask", "--to", "5", "--strings", "--from", "--from", "4", "a", "b"], &[], Some(4), Some(5)),
];

/// Lines that begin as these do, and are no orders.
#[rattlefmt::skip]
static NO_WINDOWS: [&[&str]; 17] = [
    &["scrub", "--from"],
    &["scrub", "--from", "1"],
    &["scrub", "--from", "a", "b"],
    &["scrub", "--from", "", "a", "b"],
    &["scrub", "--from", "+1", "a", "b"],
    &["scrub", "--from", "-1", "a", "b"],
    &["scrub", "--from", " 1", "a", "b"],
    &["scrub", "--from", "1.5", "a", "b"],
    &["scrub", "--from", "9223372036854775808", "a", "b"],
    &["scrub", "--to", "9999999999999999999", "a", "b"],
    &["scrub", "--to", "00000000000000000007", "a", "b"],
    &["scrub", "--from", "1", "--from", "1", "a", "b"],
    &["receipt", "--to", "1", "--from", "1", "--to", "2", "a", "r"],
    &["verify", "--to", "x", "a", "b", "r"],
    &["print", "--to", "9223372036854775808", "a"],
    &["print", "--from", "1", "--from", "2", "a"],
    &["stacks", "--to", "", "a"],
];

/// Other orders.
#[rattlefmt::skip]
static OTHERS: [Line; 6] = [
    (&["disassemble", "a"], Disassemble("a", [5, 1099511627776, 999999], None)),
    (&["disassemble", "--max-size", "1", "--output", "d", "--max-chunks", "4294967295", "a"], Disassemble("a", [4294967295, 1, 999999], Some("d"))),
    (&["assemble", "d", "o"], Assemble("d", "o")),
    (&["sample", "4294967295", "1000000"], Sample(4294967295, 1000000)),
    (&["sample", "0", "1"], Sample(0, 1)),
    (&["build", "t", "o"], Build("t", "o")),
];

/// Other lines that are no orders.
#[rattlefmt::skip]
static NO_OTHERS: [&[&str]; 18] = [
    &[],
    &[""],
    &["", ""],
    &["frobnicate", "x"],
    &["disassemble", "--output", "", "a"],
    &["disassemble", "--output", "-d", "a"],
    &["disassemble", "--output", "d", "--output", "d", "a"],
    &["disassemble", "--max-chunks", "0", "a"],
    &["disassemble", "--max-chunks", "4294967296", "a"],
    &["disassemble", "--max-size", "1099511627777", "a"],
    &["assemble", "d"],
    &["sample", "1", "0"],
    &["sample", "1", "1000001"],
    &["sample", "4294967296", "1"],
    &["sample", "1", "1", "1"],
    &["build", "t"],
    &["build", "t", "o", "x"],
    &["build", "--json", "t", "o"],
];

/// Adds the words of a line.
fn push_words(words: &mut Words, line: &[&str]) -> Result<(), NoMemory> {
    for word in line {
        words.push(word)?;
    }
    Ok(())
}

/// The words of a line.
fn words_of(alloc: Global, line: &[&str]) -> Result<Words, NoMemory> {
    let mut words = Words::new(alloc);
    push_words(&mut words, line)?;
    Ok(words)
}

/// Whether these options are given, and no others that have patterns.
fn has_sides(filter: &Filter, options: &[Side]) -> bool {
    for side in SIDES.iter() {
        if filter.has(*side) != options.contains(side) {
            return false;
        }
    }
    true
}

/// Whether these options are given, and no others.
fn has_options(filter: &Filter, options: &[Side]) -> bool {
    !filter.has_window() && has_sides(filter, options)
}

/// Whether these are the bounds of the window.
fn has_window(filter: &Filter, from: Option<i64>, to: Option<i64>) -> bool {
    filter.from() == from && filter.to() == to
}

/// The filter of an order, if it has one.
fn filter_of(order: &Order) -> Option<&Filter> {
    match order {
        Order::Print { filter, .. }
        | Order::Scrub { filter, .. }
        | Order::Receipt { filter, .. }
        | Order::Verify { filter, .. }
        | Order::Stacks { filter, .. }
        | Order::Mask { filter, .. } => Some(filter),
        _ => None,
    }
}

/// Whether a rule has these bounds.
fn has_bounds(rule: &SplitRule, [chunks, size, parts]: [u64; 3]) -> bool {
    rule.max_chunks == chunks && rule.max_size == size && rule.max_parts == parts
}

/// Whether this is the value of an option, if it has one.
fn is_value(given: &Option<Text>, value: Option<&str>) -> bool {
    match (given, value) {
        (Some(given), Some(value)) => given.as_str() == value,
        (None, None) => true,
        _ => false,
    }
}

/// Whether the patterns of an option match this text, if it has any.
fn do_match(given: &Option<Patterns>, text: Option<&str>) -> bool {
    match (given, text) {
        (Some(given), Some(text)) => given.matches(text),
        (None, None) => true,
        _ => false,
    }
}

/// Whether these are the names.
fn has_names([first, second]: [&Text; 2], [from, to]: [&str; 2]) -> bool {
    first.as_str() == from && second.as_str() == to
}

/// Whether an order that prints a recording is what a line asks for.
fn is_asked_print(order: &Order, asked: &Asked) -> bool {
    match (order, asked) {
        (
            Order::Print {
                filter,
                depth,
                json,
                file,
            },
            Print(options, levels, lines, name),
        ) => {
            depth == levels
                && json == lines
                && file.as_str() == *name
                && has_options(filter, options)
        }
        (Order::Summary { json, file }, Summary(lines, name)) => {
            json == lines && file.as_str() == *name
        }
        (Order::Metadata { json, file }, Metadata(lines, name)) => {
            json == lines && file.as_str() == *name
        }
        (Order::Stacks { filter, file }, Stacks(options, name)) => {
            file.as_str() == *name && has_options(filter, options)
        }
        _ => false,
    }
}

/// Whether an order that scrubs a recording, or has to do with its scrub, is what a line asks for.
fn is_asked_scrub(order: &Order, asked: &Asked) -> bool {
    match (order, asked) {
        (
            Order::Scrub {
                filter,
                renumber,
                input,
                output,
            },
            Scrub(options, anew, from, to),
        ) => {
            renumber == anew
                && has_names([input, output], [from, to])
                && has_options(filter, options)
        }
        (
            Order::Receipt {
                filter,
                input,
                receipt,
            },
            Receipt(options, from, to),
        ) => has_names([input, receipt], [from, to]) && has_options(filter, options),
        (
            Order::Verify {
                filter,
                input,
                output,
                receipt,
            },
            Verify(options, from, to, by),
        ) => {
            has_names([input, output], [from, to])
                && receipt.as_str() == *by
                && has_options(filter, options)
        }
        _ => false,
    }
}

/// Whether an order that masks a recording is what a line asks for.
fn is_asked_mask(order: &Order, asked: &Asked) -> bool {
    match (order, asked) {
        (
            Order::Mask {
                filter,
                strings,
                except,
                known,
                table,
                input,
                output,
            },
            Mask(options, masked, kept, shown, listed, from, to),
        ) => {
            strings.matches(masked)
                && do_match(except, *kept)
                && is_value(known, *shown)
                && is_value(table, *listed)
                && has_names([input, output], [from, to])
                && has_options(filter, options)
        }
        _ => false,
    }
}

/// Whether another order is what a line asks for.
fn is_asked_other(order: &Order, asked: &Asked) -> bool {
    match (order, asked) {
        (Order::Disassemble { file, rule }, Disassemble(name, bounds, folder)) => {
            file.as_str() == *name && has_bounds(rule, *bounds) && is_value(&rule.folder, *folder)
        }
        (Order::Assemble { folder, output }, Assemble(from, to)) => {
            has_names([folder, output], [from, to])
        }
        (Order::Sample { seed, events }, Sample(first, count)) => seed == first && events == count,
        (Order::Build { text, output }, Build(from, to)) => has_names([text, output], [from, to]),
        _ => false,
    }
}

/// What is read of words. This function has no clauses, so those that call it are proved without those of
/// `read_words`.
fn read(alloc: Global, words: &Words) -> Result<Order, WordsFault> {
    read_words(alloc, words)
}

/// Whether an order is what a line asks for.
fn is_asked(order: &Order, asked: &Asked) -> bool {
    is_asked_print(order, asked)
        || is_asked_scrub(order, asked)
        || is_asked_mask(order, asked)
        || is_asked_other(order, asked)
}

/// Whether a line was read as the order that it asks for.
fn is_read(read: Result<Order, WordsFault>, asked: &Asked) -> bool {
    match read {
        Ok(order) => is_asked(&order, asked),
        Err(_) => false,
    }
}

/// Compares what is read of a line with what it asks for.
fn see_line(rt: &impl Abort, alloc: Global, line: &[&str], asked: &Asked) -> Result<(), Fail> {
    let words = words_of(alloc, line)?;
    assert!(rt; is_read(read(alloc, &words), asked), "{line:?}");
    Ok(())
}

/// Whether an order has a filter with these options and this window.
fn has_filter(order: &Order, options: &[Side], from: Option<i64>, to: Option<i64>) -> bool {
    match filter_of(order) {
        Some(filter) => has_sides(filter, options) && has_window(filter, from, to),
        None => false,
    }
}

/// Whether a line was read as an order with these options and this window.
fn is_windowed(
    read: Result<Order, WordsFault>,
    options: &[Side],
    from: Option<i64>,
    to: Option<i64>,
) -> bool {
    match read {
        Ok(order) => has_filter(&order, options, from, to),
        Err(_) => false,
    }
}

/// Compares the filter that is read of a line with its options and its window.
fn see_window(
    rt: &impl Abort,
    alloc: Global,
    (line, options, from, to): &Windowed,
) -> Result<(), Fail> {
    let words = words_of(alloc, line)?;
    assert!(rt;
        is_windowed(read(alloc, &words), options, *from, *to),
        "{line:?}"
    );
    Ok(())
}

/// Compares that nothing is read of a line.
fn see_unreadable(rt: &impl Abort, alloc: Global, line: &[&str]) -> Result<(), Fail> {
    let words = words_of(alloc, line)?;
    let fault = read(alloc, &words).err();
    assert!(rt; fault == Some(WordsFault::Usage), "{line:?}");
    Ok(())
}

/// Compares what is read of each line.
fn see_lines(rt: &impl Abort, alloc: Global, lines: &[Line]) -> Result<(), Fail> {
    for (line, asked) in lines {
        see_line(rt, alloc, line, asked)?;
    }
    Ok(())
}

/// Compares the filter that is read of each line.
fn see_windows(rt: &impl Abort, alloc: Global, lines: &[Windowed]) -> Result<(), Fail> {
    for line in lines {
        see_window(rt, alloc, line)?;
    }
    Ok(())
}

/// Compares that nothing is read of each line.
fn see_all_unreadable(rt: &impl Abort, alloc: Global, lines: &[&[&str]]) -> Result<(), Fail> {
    for line in lines {
        see_unreadable(rt, alloc, line)?;
    }
    Ok(())
}

#[test]
fn lines_give_orders(rt: HostRuntime) -> Result<(), Fail> {
    see_lines(&rt, rt.alloc(), &SCRUBS)?;
    see_lines(&rt, rt.alloc(), &MASKS)?;
    see_lines(&rt, rt.alloc(), &PRINTS)?;
    see_lines(&rt, rt.alloc(), &OTHERS)?;
    see_windows(&rt, rt.alloc(), &WINDOWS)?;
    see_all_unreadable(&rt, rt.alloc(), &NO_SCRUBS)?;
    see_all_unreadable(&rt, rt.alloc(), &NO_MASKS)?;
    see_all_unreadable(&rt, rt.alloc(), &NO_PRINTS)?;
    see_all_unreadable(&rt, rt.alloc(), &NO_WINDOWS)?;
    see_all_unreadable(&rt, rt.alloc(), &NO_OTHERS)
}
