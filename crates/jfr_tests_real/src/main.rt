//! A test of two small recordings of a JDK: the events that they print stay when they are scrubbed and when their
//! keys are new, receipts of them are verified, and all their strings are masked. The gate compares what this program
//! writes with `stdout`.
//!
//! `data/jdk17.jfr` is what `scrub --include-events ThreadSleep --include-threads worker-1` leaves of a recording of
//! OpenJDK 17, and `data/jdk25.jfr` with the threads `worker-*` of one of Temurin 25: a chunk with two and three
//! events, and with their threads and stack traces.
#![tactic(auto)]

use jfr_cli::run;
use jfr_outside::{NoMemory, Place, Sink, Words};
use jfr_system::{FilePlace, StreamSink};
use std::alloc::Global;
use std::process::ExitCode;

/// The commands, in order.
#[rattlefmt::skip]
static COMMANDS: [&[&str]; 18] = [
    &["print", "--json", "--depth", "4", "jdk17.jfr"],
    &["scrub", "jdk17.jfr", "scrubbed17.jfr"],
    &["print", "--json", "--depth", "4", "scrubbed17.jfr"],
    &["scrub", "--renumber", "yes", "jdk17.jfr", "renumbered17.jfr"],
    &["print", "--json", "--depth", "4", "renumbered17.jfr"],
    &["receipt", "jdk17.jfr", "receipt17"],
    &["verify", "jdk17.jfr", "scrubbed17.jfr", "receipt17"],
    &["mask", "--strings", "*", "jdk17.jfr", "masked17.jfr"],
    &["print", "--json", "--depth", "4", "masked17.jfr"],
    &["print", "--json", "--depth", "4", "jdk25.jfr"],
    &["scrub", "jdk25.jfr", "scrubbed25.jfr"],
    &["print", "--json", "--depth", "4", "scrubbed25.jfr"],
    &["scrub", "--renumber", "yes", "jdk25.jfr", "renumbered25.jfr"],
    &["print", "--json", "--depth", "4", "renumbered25.jfr"],
    &["receipt", "jdk25.jfr", "receipt25"],
    &["verify", "jdk25.jfr", "scrubbed25.jfr", "receipt25"],
    &["mask", "--strings", "*", "jdk25.jfr", "masked25.jfr"],
    &["print", "--json", "--depth", "4", "masked25.jfr"],
];

/// The words of a command line.
fn words_of(alloc: Global, line: &[&str]) -> Result<Words, NoMemory> {
    let mut words = Words::new(alloc);
    for word in line {
        words.push(word)?;
    }
    Ok(words)
}

/// Runs a command, and answers its status.
fn status_of<P: Place, O: Sink, E: Sink>(
    alloc: Global,
    line: &[&str],
    place: &mut P,
    out: &mut O,
    err: &mut E,
) -> Result<u8, NoMemory> {
    let words = words_of(alloc, line)?;
    Ok(run(alloc, &words, place, out, err))
}

/// Runs the commands up to the first that fails, and answers the status of the last.
fn run_all<P: Place, O: Sink, E: Sink>(
    alloc: Global,
    place: &mut P,
    out: &mut O,
    err: &mut E,
) -> Result<u8, NoMemory> {
    for line in COMMANDS.iter() {
        let status = status_of(alloc, line, place, out, err)?;
        if status != 0 {
            return Ok(status);
        }
    }
    Ok(0)
}

fn main(rt: HostRuntime) -> ExitCode {
    let alloc = rt.alloc();
    let mut place = FilePlace::new(&rt, alloc);
    let mut out = StreamSink::new(rt.stdout());
    let mut err = StreamSink::new(rt.stderr());
    match run_all(alloc, &mut place, &mut out, &mut err) {
        Ok(status) => ExitCode::from(status),
        Err(_) => ExitCode::FAILURE,
    }
}
