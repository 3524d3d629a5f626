//! Metadata records whose classes name one another.
use jfr_fixtures::Source::Record;
use jfr_fixtures::{Element, Metadata, Source};

/// The class `long` (5).
const NUMBER: &[Element] = &[("class", &[("name", "long"), ("id", "5")], 0)];

/// The event class `t.A` (8), with an annotation of `t.B`.
#[rattlefmt::skip]
const CLASS_A: &[Element] = &[
    ("class", &[("name", "t.A"), ("id", "8"), ("superType", "jdk.jfr.Event")], 1),
    ("annotation", &[("class", "9")], 0),
];

/// The event class `t.B` (9), with a field that has an annotation of `t.D`.
#[rattlefmt::skip]
const CLASS_B: &[Element] = &[
    ("class", &[("name", "t.B"), ("id", "9"), ("superType", "jdk.jfr.Event")], 1),
    ("field", &[("name", "n"), ("class", "5")], 1),
    ("annotation", &[("class", "11")], 0),
];

/// The event class `t.C` (10), with an annotation of `t.D`.
#[rattlefmt::skip]
const CLASS_C: &[Element] = &[
    ("class", &[("name", "t.C"), ("id", "10"), ("superType", "jdk.jfr.Event")], 1),
    ("annotation", &[("class", "11")], 0),
];

/// The event class `t.D` (11).
#[rattlefmt::skip]
const CLASS_D: &[Element] = &[
    ("class", &[("name", "t.D"), ("id", "11"), ("superType", "jdk.jfr.Event")], 0),
];

/// These five classes, with the texts in another order than that of first use.
#[rattlefmt::skip]
pub(crate) static ANNOTATED: Source = Record(Metadata {
    width: 2,
    texts: &[
        "root", "metadata", "class", "name", "id", "superType", "jdk.jfr.Event", "annotation", "field", "long", "5",
        "n", "t.A", "8", "t.B", "9", "t.C", "10", "t.D", "11",
    ],
    classes: 5,
    elements: &[NUMBER, CLASS_A, CLASS_B, CLASS_C, CLASS_D],
});

/// What stays of them with an event of `t.A`: all but `t.C`.
pub(crate) static NAMED_BY_A: Source = Record(Metadata {
    width: 5,
    texts: &[],
    classes: 4,
    elements: &[NUMBER, CLASS_A, CLASS_B, CLASS_D],
});

/// What stays of them with an event of `t.C`: itself, `t.D` and `long`.
pub(crate) static NAMED_BY_C: Source = Record(Metadata {
    width: 5,
    texts: &[],
    classes: 3,
    elements: &[NUMBER, CLASS_C, CLASS_D],
});

/// The class `long` (5), which has a field of its own class.
#[rattlefmt::skip]
const NUMBER_IN_ITSELF: &[Element] = &[
    ("class", &[("name", "long"), ("id", "5")], 1),
    ("field", &[("name", "v"), ("class", "5")], 0),
];

/// The event class `t.A` (8), with a field of this class.
#[rattlefmt::skip]
const CLASS_WITH_NUMBER: &[Element] = &[
    ("class", &[("name", "t.A"), ("id", "8"), ("superType", "jdk.jfr.Event")], 1),
    ("field", &[("name", "n"), ("class", "5")], 0),
];

/// Both classes.
pub(crate) static LONG_AND_A: Source = Record(Metadata {
    width: 4,
    texts: &[],
    classes: 2,
    elements: &[NUMBER_IN_ITSELF, CLASS_WITH_NUMBER],
});

/// What stays of them without events: `long`.
pub(crate) static LONG: Source = Record(Metadata {
    width: 5,
    texts: &[],
    classes: 1,
    elements: &[NUMBER_IN_ITSELF],
});
