//! Chunks with values of each kind, with long names, and with a name of odd characters.
use jfr_fixtures::Source::{Bytes, Lines, Record};
use jfr_fixtures::{CLASSES, Element, Metadata, RINGS, Source, assembled, chunk_of};
use std::alloc::{AllocError, Global};

/// A metadata record of the nine base names (10 to 18), the class `t.Place` (19) with the field `x`, and
/// the event class `t.All` (30) with a field of each base name, strings of five kinds, a place, arrays of
/// numbers and of places, one without items, and one of references to places.
const KINDS: Source = Record(Metadata {
    width: 4,
    texts: &[],
    classes: 11,
    elements: &[KIND_CLASSES],
});

#[rattlefmt::skip]
const KIND_CLASSES: &[Element] = &[
    ("class", &[("name", "boolean"), ("id", "10")], 0),
    ("class", &[("name", "byte"), ("id", "11")], 0),
    ("class", &[("name", "char"), ("id", "12")], 0),
    ("class", &[("name", "short"), ("id", "13")], 0),
    ("class", &[("name", "int"), ("id", "14")], 0),
    ("class", &[("name", "long"), ("id", "15")], 0),
    ("class", &[("name", "float"), ("id", "16")], 0),
    ("class", &[("name", "double"), ("id", "17")], 0),
    ("class", &[("name", "java.lang.String"), ("id", "18")], 0),
    ("class", &[("name", "t.Place"), ("id", "19")], 1),
    ("field", &[("name", "x"), ("class", "14")], 0),
    ("class", &[("name", "t.All"), ("id", "30"), ("superType", "jdk.jfr.Event")], 18),
    ("field", &[("name", "flag"), ("class", "10")], 0),
    ("field", &[("name", "small"), ("class", "11")], 0),
    ("field", &[("name", "letter"), ("class", "12")], 0),
    ("field", &[("name", "low"), ("class", "13")], 0),
    ("field", &[("name", "count"), ("class", "14")], 0),
    ("field", &[("name", "wide"), ("class", "15")], 0),
    ("field", &[("name", "ratio"), ("class", "16")], 0),
    ("field", &[("name", "exact"), ("class", "17")], 0),
    ("field", &[("name", "none"), ("class", "18")], 0),
    ("field", &[("name", "empty"), ("class", "18")], 0),
    ("field", &[("name", "told"), ("class", "18")], 0),
    ("field", &[("name", "units"), ("class", "18")], 0),
    ("field", &[("name", "latin"), ("class", "18")], 0),
    ("field", &[("name", "place"), ("class", "19")], 0),
    ("field", &[("name", "numbers"), ("class", "14"), ("dimension", "1")], 0),
    ("field", &[("name", "places"), ("class", "19"), ("dimension", "1")], 0),
    ("field", &[("name", "nothing"), ("class", "14"), ("dimension", "1")], 0),
    ("field", &[("name", "keys"), ("class", "19"), ("constantPool", "true"), ("dimension", "1")], 0),
];

/// An event of `t.All`.
#[rattlefmt::skip]
const ALL: Source = Lines(&[
    b"\x45\x1E\x02\xFF",                                // 69 bytes; flag and small
    b"\xFF\xFF\x07\xFF\xFF\x03",                       // letter and low
    b"\x80\x80\x80\x80\x08",                           // count
    b"\xFF\xFF\xFF\xFF\xFF\xFF\xFF\xFF\xFF",          // wide
    b"\x3F\x80\0\0",                                   // ratio
    b"\x3F\xF0\0\0\0\0\0\0",                           // exact
    b"\0",                                              // none, a null text
    b"\x01",                                            // empty
    b"\x03\x07a\"\\\n\x7F\xC3\xA4",                    // told, in UTF-8
    b"\x04\x02b\xAC\x41",                              // units, in UTF-16
    b"\x05\x01\xE4",                                    // latin
    b"\x07",                                            // place
    b"\x02\x01\xFF\xFF\xFF\xFF\x0F",                  // numbers, two
    b"\x01\x05",                                        // places, one
    b"\0",                                              // nothing
    b"\x02\x01\x09",                                    // keys, two
]);

/// A checkpoint with the place of the key 1.
const PLACES: Source = Bytes(b"\x8E\x80\x80\0\x01\0\0\0\0\x01\x13\x01\x01\x03");

/// A metadata record of the classes `long` (10) and the event class `t.Long` (30), whose fields have names
/// of 65, 64 and 65 bytes, the first with a quotation mark.
const LONG_NAMES: Source = Record(Metadata {
    width: 2,
    texts: &[],
    classes: 2,
    elements: &[LONG_CLASSES],
});

#[rattlefmt::skip]
const LONG_CLASSES: &[Element] = &[
    ("class", &[("name", "long"), ("id", "10")], 0),
    ("class", &[("name", "t.Long"), ("id", "30"), ("superType", "jdk.jfr.Event")], 3),
    ("field", &[("name", "dddddddddddddddddddddddddddddddddddddddddddddddddddddddddddddddd\""), ("class", "10")], 0),
    ("field", &[("name", "cccccccccccccccccccccccccccccccccccccccccccccccccccccccccccccccc"), ("class", "10")], 0),
    ("field", &[("name", "bbbbbbbbbbbbbbbbbbbbbbbbbbbbbbbbbbbbbbbbbbbbbbbbbbbbbbbbbbbbbbbbb"), ("class", "10")], 0),
];

/// An event of `t.Long`, and a checkpoint of nothing.
const LONG: Source = Bytes(b"\x05\x1E\x01\x02\x03\x07\x01\0\0\0\0\0");

/// The chunk with values of each kind.
pub(crate) fn kinds(alloc: Global) -> Result<Vec<u8>, AllocError> {
    chunk_of(alloc, &[&assembled(alloc, &[KINDS, ALL, PLACES])?], 734, 68)
}

/// The chunk with an event whose fields have long names.
pub(crate) fn long_names(alloc: Global) -> Result<Vec<u8>, AllocError> {
    chunk_of(alloc, &[&assembled(alloc, &[LONG_NAMES, LONG])?], 411, 68)
}

/// Where the name of the class `t.A` lies in the metadata record of the rings.
const NAME: usize = 112;

/// The chunk of rings, in which the class `t.A` has the name of a quote, U+0001 and the end of a line.
pub(crate) fn oddly_named(alloc: Global) -> Result<Vec<u8>, AllocError> {
    let (before, name) = CLASSES.split_at(NAME);
    let (_, after) = name.split_at(3);
    chunk_of(alloc, &[before, b"\"\x01\n", after, RINGS], 333, 68)
}
