//! Each call of each command fails in turn, keeping nothing or ten bytes.
use crate::faults::runs::{BOTH, FIRST, Fault, Run, run_once};
use crate::faults::state_after::{Command, Left, is_left, leaves_same};
use jfr_outside::Call;
use std::alloc::Global;
use std::process::Abort;
use std::test::Fail;

// A command over two chunks; for each file that it reads, how many bytes each read gives; and what is left
// after each call that fails: those of `KINDS`, and the writes to the output stream.
struct Case {
    command: Command,
    reads: &'static [&'static [usize]],
    calls: [&'static [Left]; 5],
    writes: &'static [Left],
}

static KINDS: [Call; 5] = [
    Call::Open,
    Call::List,
    Call::Create,
    Call::Append,
    Call::Finish,
];

// A read gives at most 50 bytes: first of the 68 of a header, then of what its chunk lacks, and none at the
// end.
const OF_BOTH: &[usize] = &[
    50, 18, 50, 50, 50, 50, 50, 44, 50, 18, 50, 50, 50, 50, 50, 37, 0,
];

const OF_FIRST: &[usize] = &[50, 18, 50, 50, 50, 50, 50, 44, 0];

const OF_SECOND: &[usize] = &[50, 18, 50, 50, 50, 50, 50, 37, 0];

const OF_RECEIPT: &[usize] = &[13, 0];

const ONCE: &[Left] = &[Left::Nothing];

const EACH: &[Left] = &[Left::PartOf(1), Left::PartOf(2)];

const WHOLE: &[Left] = &[Left::Chunks(2)];

const TEXT: &[Left] = &[Left::PartOf(2)];

#[rattlefmt::skip]
static CASES: [Case; 14] = [
    Case {
        command: Command { words: &["print", "a.jfr"], at_end: false },
        reads: &[OF_BOTH], calls: [ONCE, &[], &[], &[], &[]], writes: EACH,
    },
    Case {
        command: Command { words: &["print", "--json", "--depth", "8", "a.jfr"], at_end: false },
        reads: &[OF_BOTH], calls: [ONCE, &[], &[], &[], &[]], writes: EACH,
    },
    Case {
        command: Command { words: &["summary", "a.jfr"], at_end: true },
        reads: &[OF_BOTH], calls: [ONCE, &[], &[], &[], &[]], writes: TEXT,
    },
    Case {
        command: Command { words: &["metadata", "a.jfr"], at_end: false },
        reads: &[OF_BOTH], calls: [ONCE, &[], &[], &[], &[]], writes: EACH,
    },
    Case {
        command: Command { words: &["scrub", "a.jfr", "b.jfr"], at_end: false },
        reads: &[OF_BOTH], calls: [ONCE, &[], ONCE, EACH, WHOLE], writes: &[],
    },
    Case {
        command: Command { words: &["scrub", "--exclude-events", "B", "a.jfr", "b.jfr"], at_end: false },
        reads: &[OF_BOTH], calls: [ONCE, &[], ONCE, EACH, WHOLE], writes: &[],
    },
    Case {
        command: Command { words: &["scrub", "--renumber", "yes", "a.jfr", "b.jfr"], at_end: false },
        reads: &[OF_BOTH], calls: [ONCE, &[], ONCE, EACH, WHOLE], writes: &[],
    },
    Case {
        command: Command { words: &["mask", "--strings", "*", "a.jfr", "b.jfr"], at_end: false },
        reads: &[OF_BOTH], calls: [ONCE, &[], ONCE, EACH, WHOLE], writes: &[],
    },
    Case {
        command: Command { words: &["receipt", "a.jfr", "b.jfr"], at_end: false },
        reads: &[OF_BOTH], calls: [ONCE, &[], ONCE, EACH, WHOLE], writes: &[],
    },
    Case {
        command: Command { words: &["disassemble", "--output", "p", "--max-chunks", "1", "a.jfr"], at_end: false },
        reads: &[OF_BOTH],
        calls: [ONCE, &[], &[Left::Nothing, Left::Chunks(1)], EACH, &[Left::Chunks(1), Left::Chunks(2)]],
        writes: &[],
    },
    Case {
        command: Command { words: &["assemble", "d", "o.jfr"], at_end: false },
        reads: &[OF_FIRST, OF_SECOND],
        calls: [&[Left::Chunks(0), Left::Chunks(1)], ONCE, ONCE, EACH, WHOLE],
        writes: &[],
    },
    Case {
        command: Command { words: &["sample", "3", "5"], at_end: true },
        reads: &[], calls: [&[], &[], &[], &[], &[]], writes: TEXT,
    },
    Case {
        command: Command { words: &["stacks", "a.jfr"], at_end: true },
        reads: &[OF_BOTH], calls: [ONCE, &[], &[], &[], &[]], writes: TEXT,
    },
    Case {
        command: Command { words: &["verify", "d/1.jfr", "d/1.jfr", "c"], at_end: true },
        reads: &[OF_RECEIPT, OF_FIRST, OF_FIRST], calls: [&[Left::Nothing; 3], &[], &[], &[], &[]], writes: TEXT,
    },
];

// The status and the line of a run in which such a call fails.
fn answer_to(fault: Fault) -> (u8, &'static str) {
    match fault {
        Fault::Of(Call::Open | Call::Read | Call::List, _) => (3, "read fault\n"),
        _ => (4, "write fault\n"),
    }
}

// Whether no output is open after such a call fails.
fn closes_output(fault: Fault) -> bool {
    match fault {
        Fault::Of(Call::Create | Call::Finish, _) => true,
        _ => false,
    }
}

// Compares the status and the line of a run.
fn see_answer(rt: &impl Abort, run: &Run, (status, line): (u8, &str)) {
    assert_eq!(rt; run.status, status);
    assert_eq!(rt; run.err.bytes(), line.as_bytes());
}

// Compares what a run left.
fn see_left(
    rt: &impl Abort,
    alloc: Global,
    command: &Command,
    run: &Run,
    left: Left,
    keep: usize,
) -> Result<(), Fail> {
    let holds = is_left(alloc, command, run, left, keep)?;
    assert!(rt; holds);
    Ok(())
}

// A run in which a call fails: its status, its line, and what is left.
fn see_fault(
    rt: &impl Abort,
    alloc: Global,
    command: &Command,
    fault: Fault,
    left: Left,
    keep: usize,
) -> Result<Run, Fail> {
    let mut run = run_once(alloc, command.words, 2, fault, keep)?;
    see_answer(rt, &run, answer_to(fault));
    see_left(rt, alloc, command, &run, left, keep)?;
    let open = run.has_file() && !closes_output(fault);
    assert_eq!(rt; run.has_open_output(), open);
    Ok(run)
}

// A run that makes fewer calls than the one that were to fail: it is done.
fn see_whole(rt: &impl Abort, alloc: Global, command: &Command, fault: Fault) -> Result<(), Fail> {
    let run = run_once(alloc, command.words, 2, fault, 0)?;
    see_answer(rt, &run, (0, ""));
    let whole = run_once(alloc, command.words, 2, Fault::Never, 0)?;
    assert!(rt; leaves_same(&run, &whole));
    Ok(())
}

// Each call of a kind fails.
fn see_calls(
    rt: &impl Abort,
    alloc: Global,
    command: &Command,
    call: Call,
    lefts: &[Left],
    keep: usize,
) -> Result<(), Fail> {
    let mut nth = 1u64;
    for left in lefts {
        see_fault(rt, alloc, command, Fault::Of(call, nth), *left, keep)?;
        nth = nth.saturating_add(1);
    }
    see_whole(rt, alloc, command, Fault::Of(call, nth))
}

// Each write to the output stream fails.
fn see_writes(
    rt: &impl Abort,
    alloc: Global,
    command: &Command,
    lefts: &[Left],
    keep: usize,
) -> Result<(), Fail> {
    let mut nth = 1u64;
    for left in lefts {
        see_fault(rt, alloc, command, Fault::Write(nth), *left, keep)?;
        nth = nth.saturating_add(1);
    }
    see_whole(rt, alloc, command, Fault::Write(nth))
}

// How many whole chunks the first bytes of the recording hold.
fn chunks_in(bytes: usize) -> usize {
    if bytes < FIRST {
        0
    } else if bytes < BOTH {
        1
    } else {
        2
    }
}

// A read fails after the first bytes of the recording were taken: the whole chunks among them stay, and of
// the open file the rest is left.
fn see_read(
    rt: &impl Abort,
    alloc: Global,
    command: &Command,
    nth: u64,
    taken: usize,
    rest: usize,
) -> Result<(), Fail> {
    let left = Left::Chunks(chunks_in(taken));
    let mut run = see_fault(rt, alloc, command, Fault::Of(Call::Read, nth), left, 0)?;
    assert_eq!(rt; run.bytes_left(), Some(rest));
    Ok(())
}

// The sum of sizes.
fn total(sizes: &[usize]) -> usize {
    let mut total = 0usize;
    for size in sizes {
        total = total.saturating_add(*size);
    }
    total
}

// Each read of each file fails.
fn see_reads(rt: &impl Abort, alloc: Global, case: &Case) -> Result<(), Fail> {
    let mut nth = 1u64;
    let mut taken = 0usize;
    for file in case.reads {
        for at in 0..file.len() {
            see_read(rt, alloc, &case.command, nth, taken, total(&file[at..]))?;
            taken = taken.saturating_add(file[at]);
            nth = nth.saturating_add(1);
        }
    }
    see_whole(rt, alloc, &case.command, Fault::Of(Call::Read, nth))
}

// Each call of a command fails.
fn see_case(rt: &impl Abort, alloc: Global, case: &Case) -> Result<(), Fail> {
    for keep in [0, 10] {
        for (call, lefts) in KINDS.iter().zip(case.calls.iter()) {
            see_calls(rt, alloc, &case.command, *call, lefts, keep)?;
        }
        see_writes(rt, alloc, &case.command, case.writes, keep)?;
    }
    see_reads(rt, alloc, case)
}

#[test]
fn each_call_fails(rt: HostRuntime) -> Result<(), Fail> {
    for case in CASES.iter() {
        see_case(&rt, rt.alloc(), case)?;
    }
    Ok(())
}
