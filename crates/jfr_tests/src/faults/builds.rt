//! Each call of a build fails in turn.
use crate::runs::says;
use jfr_outside::{Call, MemoryPlace, NoMemory};
use std::alloc::Global;
use std::process::Abort;
use std::test::Fail;

const TEXT: &[u8] = b"class 5 long\nevent 8 t.A\nfield n 5 -\nrecord 8 300\n";

// How many bytes the chunk of the text has.
const WHOLE: usize = 212;

// The length of the output after a run in which the nth call of a kind fails; `None` if there is no output.
type Row = (Call, u64, u8, &'static str, Option<usize>);

// A read gives at most 40 of the 50 bytes; the third one finds the end. A call that fails keeps ten bytes.
const ROWS: [Row; 11] = [
    (Call::Open, 1, 3, "read fault\n", None),
    (Call::Open, 2, 0, "", Some(WHOLE)),
    (Call::Read, 1, 3, "read fault\n", None),
    (Call::Read, 2, 3, "read fault\n", None),
    (Call::Read, 3, 3, "read fault\n", None),
    (Call::Read, 4, 0, "", Some(WHOLE)),
    (Call::Create, 1, 4, "write fault\n", None),
    (Call::Append, 1, 4, "write fault\n", Some(10)),
    (Call::Append, 2, 0, "", Some(WHOLE)),
    (Call::Finish, 1, 4, "write fault\n", Some(WHOLE)),
    (Call::Finish, 2, 0, "", Some(WHOLE)),
];

// The length of a file, if it exists.
fn len_of(file: Option<&[u8]>) -> Option<usize> {
    Some(file?.len())
}

// Puts the text, and makes a call fail.
fn prepare(place: &mut MemoryPlace, call: Call, nth: u64) -> Result<(), NoMemory> {
    place.put("t", TEXT)?;
    place.cut(40);
    place.fail(call, nth, 10)
}

// Builds the text, and compares what is left after a call fails.
fn see_fault(rt: &impl Abort, alloc: Global, row: Row) -> Result<(), Fail> {
    let (call, nth, status, line, left) = row;
    let mut place = MemoryPlace::new(alloc);
    prepare(&mut place, call, nth)?;
    let said = (["build", "t", "o"].as_slice(), status, "", line);
    says(rt, alloc, &mut place, said)?;
    assert_eq!(rt; len_of(place.file("o")), left);
    Ok(())
}

#[test]
fn each_call_of_a_build_fails(rt: HostRuntime) -> Result<(), Fail> {
    for row in ROWS.iter() {
        see_fault(&rt, rt.alloc(), *row)?;
    }
    Ok(())
}
