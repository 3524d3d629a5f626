//! A chunk whose classes have names of the JDK's, and what scrubbing leaves of it.
use crate::assembler::{Element, Metadata, Source, assembled};
use crate::chunks::chunk_of;
use std::alloc::{AllocError, Global};

/// The classes that aren't those of events.
#[rattlefmt::skip]
const VALUES: &[Element] = &[
    ("class", &[("name", "long"), ("id", "20")], 0),
    ("class", &[("name", "int"), ("id", "21")], 0),
    ("class", &[("name", "java.lang.String"), ("id", "22")], 0),
    ("class", &[("name", "boolean"), ("id", "23")], 0),
    ("class", &[("name", "float"), ("id", "24")], 0),
    ("class", &[("name", "jdk.jfr.Category"), ("id", "25")], 1),
    ("field", &[("name", "value"), ("class", "22"), ("dimension", "1")], 0),
    ("class", &[("name", "java.lang.Thread"), ("id", "30")], 4),
    ("field", &[("name", "osName"), ("class", "22")], 0),
    ("field", &[("name", "osThreadId"), ("class", "20")], 0),
    ("field", &[("name", "javaName"), ("class", "22")], 0),
    ("field", &[("name", "javaThreadId"), ("class", "20")], 0),
    ("class", &[("name", "java.lang.Class"), ("id", "31")], 2),
    ("field", &[("name", "name"), ("class", "32"), ("constantPool", "true")], 0),
    ("field", &[("name", "modifiers"), ("class", "21")], 0),
    ("class", &[("name", "jdk.types.Symbol"), ("id", "32")], 1),
    ("field", &[("name", "string"), ("class", "22")], 0),
    ("class", &[("name", "jdk.types.Method"), ("id", "33")], 5),
    ("field", &[("name", "type"), ("class", "31"), ("constantPool", "true")], 0),
    ("field", &[("name", "name"), ("class", "32"), ("constantPool", "true")], 0),
    ("field", &[("name", "descriptor"), ("class", "32"), ("constantPool", "true")], 0),
    ("field", &[("name", "modifiers"), ("class", "21")], 0),
    ("field", &[("name", "hidden"), ("class", "23")], 0),
    ("class", &[("name", "jdk.types.StackFrame"), ("id", "34")], 3),
    ("field", &[("name", "method"), ("class", "33"), ("constantPool", "true")], 0),
    ("field", &[("name", "lineNumber"), ("class", "21")], 0),
    ("field", &[("name", "bytecodeIndex"), ("class", "21")], 0),
    ("class", &[("name", "jdk.types.StackTrace"), ("id", "35")], 2),
    ("field", &[("name", "truncated"), ("class", "23")], 0),
    ("field", &[("name", "frames"), ("class", "34"), ("dimension", "1")], 0),
];

/// The event classes.
#[rattlefmt::skip]
const PARK: &[Element] = &[
    ("class", &[("name", "jdk.ThreadPark"), ("id", "101"), ("superType", "jdk.jfr.Event")], 6),
    ("field", &[("name", "startTime"), ("class", "20")], 0),
    ("field", &[("name", "duration"), ("class", "20")], 0),
    ("field", &[("name", "eventThread"), ("class", "30"), ("constantPool", "true")], 0),
    ("field", &[("name", "stackTrace"), ("class", "35"), ("constantPool", "true")], 0),
    ("field", &[("name", "parkedClass"), ("class", "31"), ("constantPool", "true")], 0),
    ("annotation", &[("class", "25"), ("value-0", "Java Application")], 0),
];

#[rattlefmt::skip]
const ENTER: &[Element] = &[
    ("class", &[("name", "jdk.JavaMonitorEnter"), ("id", "102"), ("superType", "jdk.jfr.Event")], 6),
    ("field", &[("name", "startTime"), ("class", "20")], 0),
    ("field", &[("name", "duration"), ("class", "20")], 0),
    ("field", &[("name", "eventThread"), ("class", "30"), ("constantPool", "true")], 0),
    ("field", &[("name", "stackTrace"), ("class", "35"), ("constantPool", "true")], 0),
    ("field", &[("name", "monitorClass"), ("class", "31"), ("constantPool", "true")], 0),
    ("annotation", &[("class", "25"), ("value-0", "Java Application")], 0),
];

#[rattlefmt::skip]
const LOAD: &[Element] = &[
    ("class", &[("name", "jdk.CPULoad"), ("id", "103"), ("superType", "jdk.jfr.Event")], 3),
    ("field", &[("name", "startTime"), ("class", "20")], 0),
    ("field", &[("name", "machineTotal"), ("class", "24")], 0),
    ("annotation", &[("class", "25"), ("value-0", "Operating System"), ("value-1", "Processor")], 0),
];

/// The metadata record of the chunk.
const CLASSES: Source = Source::Record(Metadata {
    width: 4,
    texts: &[],
    classes: 15,
    elements: &[VALUES, PARK, ENTER, LOAD],
});

/// The first checkpoint: the threads with the keys 1 and 2, and three symbols.
#[rattlefmt::skip]
const FIRST: Source = Source::Lines(&[
    b"\xCD\x80\x80\0\x01\0\0\0\0\x02",      // 77 bytes, a checkpoint at 0 of two pools
    b"\x1E\x02",                                   // two constants of java.lang.Thread
    b"\x01\x03\x04main\x64\x03\x04main\x01",  // 1: main, 100, main, 1
    b"\x02\x03\x01we\x03\x08worker-1\x02",     // 2: w, 101, worker-1, 2
    b"\x20\x03",                                   // three of jdk.types.Symbol
    b"\x01\x03\x10java/lang/Object",
    b"\x02\x03\x04wait",
    b"\x03\x03\x03()V",
]);

/// The events.
#[rattlefmt::skip]
const EVENTS: Source = Source::Lines(&[
    b"\x8B\x80\x80\0\x65\xE8\x07\x32\x01\x01\x01", // ThreadPark at 1000 for 50, thread, stack and class 1
    b"\x8B\x80\x80\0\x66\xCC\x08\x3C\x02\x02\x02", // JavaMonitorEnter at 1100 for 60, thread, stack and class 2
    b"\x8B\x80\x80\0\x67\xB0\x09\x3E\x80\0\0",     // CPULoad at 1200: 0.25
]);

/// What scrubbing leaves of the metadata record if these event classes have events: `jdk.ThreadPark`.
pub const PARK_CLASSES: Source = Source::Record(Metadata {
    width: 5,
    texts: &[],
    classes: 13,
    elements: &[VALUES, PARK],
});

/// `jdk.JavaMonitorEnter`.
pub const ENTER_CLASSES: Source = Source::Record(Metadata {
    width: 5,
    texts: &[],
    classes: 13,
    elements: &[VALUES, ENTER],
});

/// `jdk.CPULoad`.
pub const LOAD_CLASSES: Source = Source::Record(Metadata {
    width: 5,
    texts: &[],
    classes: 13,
    elements: &[VALUES, LOAD],
});

/// The first two.
pub const PARK_AND_ENTER_CLASSES: Source = Source::Record(Metadata {
    width: 5,
    texts: &[],
    classes: 14,
    elements: &[VALUES, PARK, ENTER],
});

/// The last two.
pub const ENTER_AND_LOAD_CLASSES: Source = Source::Record(Metadata {
    width: 5,
    texts: &[],
    classes: 14,
    elements: &[VALUES, ENTER, LOAD],
});

/// None.
pub const NO_JDK_EVENT_CLASSES: Source = Source::Record(Metadata {
    width: 5,
    texts: &[],
    classes: 12,
    elements: &[VALUES],
});

/// What scrubbing leaves of the first checkpoint if the thread with the key 1 and the symbols are reached.
#[rattlefmt::skip]
pub const THREAD_AND_SYMBOLS: Source = Source::Lines(&[
    b"\xBD\x80\x80\0\x01\0\0\0\0\x02",      // 61 bytes, a checkpoint at 0 of two pools
    b"\x1E\x01",                                   // one constant of java.lang.Thread
    b"\x01\x03\x04main\x64\x03\x04main\x01",  // 1: main, 100, main, 1
    b"\x20\x03",                                   // three of jdk.types.Symbol
    b"\x01\x03\x10java/lang/Object",
    b"\x02\x03\x04wait",
    b"\x03\x03\x03()V",
]);

/// The last checkpoint: its front, at the place of the first, then five pools; the thread with the key 2; and what is
/// in the other pools.
#[rattlefmt::skip]
const LAST: Source = Source::Lines(&[
    b"\xE4\x80\x80\0\x01\0\0",             // 100 bytes, a checkpoint
    b"\xCF\xF6\xFF\xFF\xFF\xFF\xFF\xFF\xFF", // the one before is 1201 bytes in front of it
    b"\0\x05",                                 // five pools
    b"\x1E\x01",                               // one constant of java.lang.Thread
    b"\x02\x03\x01we\x03\x0Eworker-renamed\x02", // 2: w, 101, worker-renamed, 2
]);

const LAST_POOLS: Source = Source::Lines(&[
    b"\x1F\x02\x01\x01\x01\x02\x04\x01", // java.lang.Class: 1 has the name 1, and 2 the name 4; both are public
    b"\x20\x02\x04\x03\x08app/Lock\x05\x03\x03run", // jdk.types.Symbol: 4 and 5
    b"\x21\x02", // two constants of jdk.types.Method
    b"\x01\x01\x02\x03\x01\0", // 1: class 1, name 2, descriptor 3, public, shown
    b"\x02\x02\x05\x03\x01\0", // 2: class 2, name 5, descriptor 3
    b"\x23\x02", // two of jdk.types.StackTrace
    b"\x01\0\x01\x01\x0A\x02", // 1: one frame, method 1 at line 10, bytecode 2
    b"\x02\0\x02\x02\x14\x04\x01\x0A\x02", // 2: method 2 at line 20, bytecode 4; method 1 as before
]);

/// The last checkpoint, whose thread with the key 2 has a null Java name.
#[rattlefmt::skip]
const UNNAMED: Source = Source::Lines(&[
    b"\xD5\x80\x80\0\x01\0\0",             // 85 bytes, a checkpoint
    b"\xCF\xF6\xFF\xFF\xFF\xFF\xFF\xFF\xFF", // the one before is 1201 bytes in front of it
    b"\0\x05",                                 // five pools
    b"\x1E\x01",                               // one constant of java.lang.Thread
    b"\x02\x03\x01we\0\x02",                 // 2: w, 101, null, 2
]);

/// Where the kind of the text of `javaName` is in the chunk.
const JAVA_NAME: usize = 1294;

/// A chunk whose classes have names of the JDK's. Its events are, in order: `jdk.ThreadPark` on the thread
/// `main`, `jdk.JavaMonitorEnter` on the thread with key 2, and `jdk.CPULoad`, which has no thread, and the
/// categories `Operating System` and `Processor`. The key 2 of threads occurs twice: as `worker-1` in the
/// first of two checkpoints, and as `worker-renamed` in the last.
pub fn jdk_like(alloc: Global) -> Result<Vec<u8>, AllocError> {
    let records = assembled(alloc, &[FIRST, EVENTS, CLASSES, LAST, LAST_POOLS])?;
    chunk_of(alloc, &[&records], 1269, 178)
}

/// This chunk with another first checkpoint, by the places of its last checkpoint and of its metadata record.
pub fn jdk_after(
    alloc: Global,
    first: Source,
    last: u64,
    metadata: u64,
) -> Result<Vec<u8>, AllocError> {
    let records = assembled(alloc, &[first, EVENTS, CLASSES, LAST, LAST_POOLS])?;
    chunk_of(alloc, &[&records], last, metadata)
}

/// This chunk, where the later thread of key 2 has the system name `w` and a Java name of this kind: 0 for null, 1
/// for the empty text.
pub fn jdk_unnamed(alloc: Global, kind: u8) -> Result<Vec<u8>, AllocError> {
    let records = assembled(alloc, &[FIRST, EVENTS, CLASSES, UNNAMED, LAST_POOLS])?;
    let mut chunk = chunk_of(alloc, &[&records], 1269, 178)?;
    if let Some(name) = chunk.get_mut(JAVA_NAME) {
        *name = kind;
    }
    Ok(chunk)
}
