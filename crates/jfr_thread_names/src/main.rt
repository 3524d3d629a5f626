//! An example of a whole program, to be copied as a start: it prints the names of the threads of a recording's
//! events, a line for each event that has one.
//!
//! `names.rt` reads the recording chunk by chunk; `jfr_example::texts_of` finds the names in a chunk. The gate
//! runs the program on `data/threads.jfr`, a scrubbed recording of JDK 17.
#![tactic(auto)]

mod names;

use jfr_base::Words;
use jfr_system::{FilePlace, StreamSink};
use names::print_names;
use std::alloc::{AllocGlobal, Global};
use std::env::Env;
use std::process::ExitCode;
use std::{env, io};

/// The status if the words aren't one name, or the recording can't be read whole.
const FAILED: u8 = 1;

/// The words after the program's name.
fn words_of<R: Env + AllocGlobal>(rt: &R, alloc: Global) -> io::Result<Words> {
    let mut words = Words::new(alloc);
    for word in env::args(rt)?.skip(1) {
        if words.push(word.as_str()).is_err() {
            return Err(io::Error::from(io::ErrorKind::OutOfMemory));
        }
    }
    Ok(words)
}

fn main(rt: HostRuntime) -> ExitCode {
    let alloc = rt.alloc();
    let Ok(words) = words_of(&rt, alloc) else {
        return ExitCode::from(FAILED);
    };
    let Some(name) = words.get(0) else {
        return ExitCode::from(FAILED);
    };
    let mut place = FilePlace::new(&rt, alloc);
    let mut out = StreamSink::new(rt.stdout());
    match print_names(alloc, name, &mut place, &mut out) {
        Ok(()) => ExitCode::SUCCESS,
        Err(_) => ExitCode::from(FAILED),
    }
}
