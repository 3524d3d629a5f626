//! What scrubbing leaves of the records of the chunk that is like the JDK's.
use jfr_fixtures::Source;
use jfr_fixtures::Source::{Bytes, Lines};

/// The event of `jdk.ThreadPark`, at 1000 for 50, with thread, stack and class 1.
pub(crate) static PARK: Source = Bytes(b"\x8B\x80\x80\0\x65\xE8\x07\x32\x01\x01\x01");

/// The event of `jdk.JavaMonitorEnter`, at 1100 for 60, with thread, stack and class 2.
pub(crate) static ENTER: Source = Bytes(b"\x8B\x80\x80\0\x66\xCC\x08\x3C\x02\x02\x02");

/// The event of `jdk.CPULoad`, at 1200, with 0.25.
pub(crate) static LOAD: Source = Bytes(b"\x8B\x80\x80\0\x67\xB0\x09\x3E\x80\0\0");

/// The metadata record, if only `jdk.ThreadPark` has events.
pub(crate) static PARK_CLASSES: Source = jfr_fixtures::PARK_CLASSES;

/// The metadata record, if only `jdk.JavaMonitorEnter` has events.
pub(crate) static ENTER_CLASSES: Source = jfr_fixtures::ENTER_CLASSES;

/// The metadata record, if only `jdk.CPULoad` has events.
pub(crate) static LOAD_CLASSES: Source = jfr_fixtures::LOAD_CLASSES;

/// The metadata record, if all but `jdk.CPULoad` have events.
pub(crate) static PARK_AND_ENTER_CLASSES: Source = jfr_fixtures::PARK_AND_ENTER_CLASSES;

/// The metadata record, if all but `jdk.ThreadPark` have events.
pub(crate) static ENTER_AND_LOAD_CLASSES: Source = jfr_fixtures::ENTER_AND_LOAD_CLASSES;

/// The metadata record, if no class has events.
pub(crate) static NO_JDK_EVENT_CLASSES: Source = jfr_fixtures::NO_JDK_EVENT_CLASSES;

/// The first checkpoint with the thread of key 1 and the symbols.
pub(crate) static THREAD_AND_SYMBOLS: Source = jfr_fixtures::THREAD_AND_SYMBOLS;

/// The first checkpoint with the symbols.
#[rattlefmt::skip]
pub(crate) static SYMBOLS: Source = Lines(&[
    b"\xAC\x80\x80\0\x01\0\0\0\0\x01", // 44 bytes, a checkpoint at 0 of one pool
    b"\x20\x03",                       // three of jdk.types.Symbol
    b"\x01\x03\x10java/lang/Object",
    b"\x02\x03\x04wait",
    b"\x03\x03\x03()V",
]);

/// The first checkpoint without pools, 10 bytes.
pub(crate) static NOTHING: Source = Bytes(b"\x8A\x80\x80\0\x01\0\0\0\0\0");

/// How far the last checkpoint is from the one before, as a negative number of nine bytes. Each table sets the
/// first two.
const DELTA: &[u8] = b"\x80\x80\xFF\xFF\xFF\xFF\xFF\xFF\xFF";

/// The pool of java.lang.Thread with the later thread of key 2: w, 101, worker-renamed, 2.
const RENAMED_THREAD: &[u8] = b"\x1E\x01\x02\x03\x01we\x03\x0Eworker-renamed\x02";

/// That thread without a Java name: w, 101, null, 2.
const UNNAMED_THREAD: &[u8] = b"\x1E\x01\x02\x03\x01we\0\x02";

/// The pool of java.lang.Class: 1 has the name 1, and 2 the name 4; both are public.
const TWO_CLASSES: &[u8] = b"\x1F\x02\x01\x01\x01\x02\x04\x01";

/// The pool of jdk.types.Symbol: 4 and 5.
const TWO_SYMBOLS: &[u8] = b"\x20\x02\x04\x03\x08app/Lock\x05\x03\x03run";

/// The method 1: class 1, name 2, descriptor 3, public, shown.
const FIRST_METHOD: &[u8] = b"\x01\x01\x02\x03\x01\0";

/// The method 2: class 2, name 5, descriptor 3, public, shown.
const SECOND_METHOD: &[u8] = b"\x02\x02\x05\x03\x01\0";

/// The stack trace 1: one frame, method 1 at line 10, bytecode 2.
const FIRST_TRACE: &[u8] = b"\x01\0\x01\x01\x0A\x02";

/// The stack trace 2: method 2 at line 20, bytecode 4; method 1 as in the other.
const SECOND_TRACE: &[u8] = b"\x02\0\x02\x02\x14\x04\x01\x0A\x02";

/// The last checkpoint with the stack trace 1 and all that it leads to.
#[rattlefmt::skip]
pub(crate) static ONE_TRACE: Source = Lines(&[
    b"\xA7\x80\x80\0\x01\0\0", // 39 bytes, a checkpoint
    DELTA,
    b"\0\x03",                 // three pools
    b"\x1F\x01\x01\x01\x01",   // one of java.lang.Class: 1 has the name 1, public
    b"\x21\x01",               // one of jdk.types.Method
    FIRST_METHOD,
    b"\x23\x01",               // one of jdk.types.StackTrace
    FIRST_TRACE,
]);

/// The last checkpoint with the thread of key 2, the stack trace 2 and all that it leads to.
#[rattlefmt::skip]
pub(crate) static RENAMED: Source = Lines(&[
    b"\xDE\x80\x80\0\x01\0\0", // 94 bytes, a checkpoint
    DELTA,
    b"\0\x05",                 // five pools
    RENAMED_THREAD,
    TWO_CLASSES,
    TWO_SYMBOLS,
    b"\x21\x02",               // two of jdk.types.Method
    FIRST_METHOD,
    SECOND_METHOD,
    b"\x23\x01",               // one of jdk.types.StackTrace
    SECOND_TRACE,
]);

/// The checkpoint above, if this thread has no Java name.
#[rattlefmt::skip]
pub(crate) static UNNAMED: Source = Lines(&[
    b"\xCF\x80\x80\0\x01\0\0", // 79 bytes, a checkpoint
    DELTA,
    b"\0\x05",                 // five pools
    UNNAMED_THREAD,
    TWO_CLASSES,
    TWO_SYMBOLS,
    b"\x21\x02",               // two of jdk.types.Method
    FIRST_METHOD,
    SECOND_METHOD,
    b"\x23\x01",               // one of jdk.types.StackTrace
    SECOND_TRACE,
]);

/// The last checkpoint with all that it had.
#[rattlefmt::skip]
pub(crate) static ALL_LATER: Source = Lines(&[
    b"\xE4\x80\x80\0\x01\0\0", // 100 bytes, a checkpoint
    DELTA,
    b"\0\x05",                 // five pools
    RENAMED_THREAD,
    TWO_CLASSES,
    TWO_SYMBOLS,
    b"\x21\x02",               // two of jdk.types.Method
    FIRST_METHOD,
    SECOND_METHOD,
    b"\x23\x02",               // two of jdk.types.StackTrace
    FIRST_TRACE,
    SECOND_TRACE,
]);

/// The last checkpoint without pools.
#[rattlefmt::skip]
pub(crate) static NOTHING_LATER: Source = Lines(&[
    b"\x92\x80\x80\0\x01\0\0", // 18 bytes, a checkpoint
    DELTA,
    b"\0\0",                   // no pools
]);
