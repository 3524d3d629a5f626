//! The program `jfr`: real files and streams, the words of the command line, and the exit status.
//!
//! `jfr_cli::run` decides everything except two things. If a word isn't UTF-8, the program behaves as without
//! any words, which is a usage error. If there is no memory for the words, the status is 5 and no line is
//! written.
#![tactic(auto)]

use jfr_cli::{NO_MEMORY, run};
use jfr_outside::Words;
use jfr_system::{FilePlace, StreamSink};
use std::alloc::{AllocGlobal, Global};
use std::env::Env;
use std::process::ExitCode;
use std::{env, io};

/// The words after the program's name.
fn words_of<R: Env + AllocGlobal>(rt: &R, alloc: Global) -> io::Result<Words> {
    let mut words = Words::new(alloc);
    for word in env::args(rt)?.skip(1) {
        if words.push(word.as_str()).is_err() {
            return Err(io::Error::from(io::ErrorKind::OutOfMemory));
        }
    }
    Ok(words)
}

fn main(rt: HostRuntime) -> ExitCode {
    let alloc = rt.alloc();
    let words = match words_of(&rt, alloc) {
        Ok(words) => words,
        Err(error) if error.kind() == io::ErrorKind::OutOfMemory => {
            return ExitCode::from(NO_MEMORY);
        }
        // A word isn't UTF-8. An empty list of words is a usage error too.
        Err(_) => Words::new(alloc),
    };
    let mut place = FilePlace::new(&rt, alloc);
    let mut out = StreamSink::new(rt.stdout());
    let mut err = StreamSink::new(rt.stderr());
    ExitCode::from(run(alloc, &words, &mut place, &mut out, &mut err))
}
