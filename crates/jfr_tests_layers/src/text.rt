//! Strings from outside: their bytes, and their texts or flaws.
use jfr_base::{Flaw, Reason};
use jfr_outside::{NoMemory, Text};
use jfr_text::{StringSpan, read_string, same_text, short_units_end, text_of};
use std::alloc::Global;
use std::process::Abort;
use std::test::Fail;

/// Whether the string has this text and no other, or has none.
fn is_same(span: &StringSpan<'_>, text: Option<&str>) -> bool {
    match text {
        Some(text) => same_text(span, text) && !same_text(span, "another"),
        None => !same_text(span, ""),
    }
}

/// Whether the text that is made of the string is this one.
fn is_made(alloc: Global, span: &StringSpan<'_>, text: Option<&str>) -> Result<bool, NoMemory> {
    let made = text_of(alloc, span)?;
    Ok(made.as_ref().map(Text::as_str) == text)
}

/// The string is the bytes, to the last one, and has this text.
fn see_span(rt: &impl Abort, span: &StringSpan<'_>, bytes: &[u8], text: Option<&str>) {
    assert_eq!(rt; span.end, bytes.len(), "{text:?}");
    assert!(rt; is_same(span, text), "{text:?}");
}

/// The string that is read of the bytes does so, and the text is made of it.
fn has_text(rt: &impl Abort, alloc: Global, bytes: &[u8], text: Option<&str>) -> Result<(), Fail> {
    let span = read_string(bytes, 0, bytes.len())?;
    see_span(rt, &span, bytes, text);
    let is_made = is_made(alloc, &span, text)?;
    assert!(rt; is_made, "{text:?}");
    Ok(())
}

/// The bytes of a string, and its text if it has one.
type Line = (&'static [u8], Option<&'static str>);

#[rattlefmt::skip]
static TEXTS: [Line; 12] = [
    (b"\x03\x03a\xC3\x28", Some("a\u{FFFD}(")),
    (b"\x04\x02\xBD\xB0\x03\x80\xBC\x03", Some("\u{1F600}")),
    (b"\x04\x01\xBD\xB0\x03", Some("\u{FFFD}")),
    (b"\x05\x01\xE9", Some("\u{E9}")),
    (b"\x01", Some("")),
    (b"\x00", None),
    (b"\x02\x05", None),
    // A count in two bytes, and a unit in three.
    (b"\x03\x82\x00hi", Some("hi")),
    (b"\x04\x81\x00\xC1\x80\x00", Some("A")),
    // A longer unit after eight of one byte, and one among the first eight.
    (b"\x04\x0Aabcdefgh\xE9\x01j", Some("abcdefgh\u{E9}j")),
    (b"\x04\x09abcdefg\xE9\x01i", Some("abcdefg\u{E9}i")),
    // A high surrogate before a unit that isn't its partner.
    (b"\x04\x02\xBD\xB0\x03\x41", Some("\u{FFFD}A")),
];

#[test]
fn texts(rt: HostRuntime) -> Result<(), Fail> {
    for (bytes, text) in TEXTS.iter() {
        has_text(&rt, rt.alloc(), bytes, *text)?;
    }
    Ok(())
}

/// The bytes of no string, and where and why they are refused.
type Refused = (&'static [u8], u64, Reason);

static REFUSALS: [Refused; 6] = [
    (b"", 0, Reason::Short),
    (b"\x06", 0, Reason::StringKind),
    (b"\x02\x80", 1, Reason::Short),
    (b"\x03\x04ab", 2, Reason::Short),
    (b"\x04\x02A", 3, Reason::Short),
    (
        b"\x05\xFF\xFF\xFF\xFF\xFF\xFF\xFF\xFF\xFF",
        10,
        Reason::Short,
    ),
];

/// Why the bytes are refused, if they are.
fn flaw_in(bytes: &[u8]) -> Option<Flaw> {
    read_string(bytes, 0, bytes.len()).err()
}

/// The bytes are refused at this place.
fn is_refused(rt: &impl Abort, (bytes, offset, reason): Refused) {
    assert_eq!(rt;
        flaw_in(bytes),
        Some(Flaw { offset, reason }),
        "of {bytes:?}"
    );
}

#[test]
fn refusals(rt: HostRuntime) {
    for refused in REFUSALS.iter() {
        is_refused(&rt, *refused);
    }
}

/// Strings of short characters.
static SHORT_UNITS: [&[u8]; 6] = [
    b"\x04\x00",
    b"\x04\x07abcdefg",
    b"\x04\x08abcdefgh",
    b"\x04\x09abcdefghi",
    b"\x04\x10abcdefghijklmnop",
    b"\x04\x11abcdefghijklmnopq",
];

/// Bytes that aren't taken for such strings.
static NO_SHORT_UNITS: [&[u8]; 9] = [
    // The last integer, or one before it, has two bytes.
    b"\x04\x07abcdef\xE9\x01",
    b"\x04\x08abcdefg\xE9\x01",
    b"\x04\x09abcdefgh\xE9\x01",
    b"\x04\x11abcdefg\xE9\x01ijklmnopq",
    // A count in two bytes, another kind, and strings that don't end in time.
    b"\x04\x81\x00A",
    b"\x05\x01A",
    b"\x04\x02A",
    b"\x04",
    b"",
];

/// Where a string of short characters ends, if the bytes begin with one.
fn units_end(bytes: &[u8]) -> Option<usize> {
    short_units_end(bytes, 0, bytes.len())
}

/// Compares where it ends.
fn see_units(rt: &impl Abort, bytes: &[u8], end: Option<usize>) {
    assert_eq!(rt; units_end(bytes), end, "of {bytes:?}");
}

#[test]
fn short_units(rt: HostRuntime) {
    for bytes in SHORT_UNITS.iter() {
        see_units(&rt, bytes, Some(bytes.len()));
    }
    for bytes in NO_SHORT_UNITS.iter() {
        see_units(&rt, bytes, None);
    }
}
