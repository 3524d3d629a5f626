//! The metadata record, which is the same in every sample.
ghost use Rattle.std.specs.Prelude.{◌≡◌, ◌++◌, OnOk};
ghost use Rattle.jfr_sample.specs.Metadata.{metadata};

use crate::spelled::push_strings;
use jfr_outside::NoMemory;

/// The start of the record: the size 257, type 0, start 0, duration 0, id 1, and the count of 24 texts.
const FIRST_BYTES: [u8; 7] = [0x81, 0x02, 0, 0, 0, 1, 24];

/// The texts, which the elements refer to by index, from 0.
#[rattlefmt::skip]
const TEXTS: [&str; 24] = [
    "root", "metadata", "class", "name", "id", "superType", "field", "constantPool",
    "true", "long", "java.lang.String", "t.Node", "t.A", "t.B", "jdk.jfr.Event", "5",
    "6", "7", "8", "9", "next", "text", "n", "node",
];

/// The elements, each before those inside it: its name, the number of its attributes, a key and a value for
/// each, and the number of elements inside it.
#[rattlefmt::skip]
const ELEMENTS: [u8; 86] = [
    // Root and metadata.
    0, 0, 1, 1, 0, 5,
    // Class long, 5, and class java.lang.String, 6.
    2, 2, 3, 9, 4, 15, 0, 2, 2, 3, 10, 4, 16, 0,
    // Class t.Node, 7, with the fields next and text.
    2, 2, 3, 11, 4, 17, 2, 6, 3, 3, 20, 2, 17, 7, 8, 0, 6, 2, 3, 21, 2, 16, 0,
    // Class t.A, 8, with the fields n and node.
    2, 3, 3, 12, 4, 18, 5, 14, 2, 6, 2, 3, 22, 2, 15, 0, 6, 3, 3, 23, 2, 17, 7, 8, 0,
    // Class t.B, 9, with the field node.
    2, 3, 3, 13, 4, 19, 5, 14, 1, 6, 3, 3, 23, 2, 17, 7, 8, 0,
];

/// Adds the record.
#[tactic(auto, unfolding(crate::specs::Metadata::metadata))]
pub fn push_metadata(into: &mut Vec<u8>) -> Result<(), NoMemory>
    ensures { OnOk result (into.new.items ≡ into.old.items ++ metadata) }
{
    into.extend_from_slice(&FIRST_BYTES)?;
    push_strings(into, &TEXTS)?;
    into.extend_from_slice(&ELEMENTS)?;
    Ok(())
}
