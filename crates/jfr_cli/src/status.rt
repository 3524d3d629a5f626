//! The exit status of an ending, and its line on the error sink.
ghost use Rattle.std.specs.Prelude.{◌≡◌, ℕ, List, Some, IfOk, string_bytes};
ghost use Rattle.jfr_cli.specs.Answers.{status_of, line_of, answer_status, answer_line, doubt_line, long_line, unbuilt_line, usage_line, refusal_line, IsAnswered};

use crate::answer::Answer;
use jfr_base::Refusal;
use jfr_build::BuildReason;
use jfr_header::Ending;
use jfr_outside::{Fault, Sink};
use jfr_verify::Doubt;
use std::alloc::{AllocError, Global};

/// The status if the words aren't an order.
const USAGE: u8 = 1;

/// The status if the recording is refused.
const REFUSED: u8 = 2;

/// The status if a read failed.
const READ_FAULT: u8 = 3;

/// The status if a write failed.
const WRITE_FAULT: u8 = 4;

/// The status if memory ran out.
pub const NO_MEMORY: u8 = 5;

/// The status if `disassemble` would write more parts than it may.
const TOO_MANY_PARTS: u8 = 6;

/// The status if a check has a doubt about an output.
const DOUBTED: u8 = 7;

/// The status if `build` refuses a text.
const UNBUILT: u8 = 8;

/// The status if a masked chunk would be too long.
const TOO_LONG: u8 = 9;

/// Writes the line of an answer, if it has one, and returns the status.
pub fn write_answer<E: Sink>(alloc: Global, err: &mut E, answer: Answer) -> u8
    ensures { IsAnswered (answer_status answer) (answer_line answer) result (E.state err.old) (E.state err.new) }
{
    match answer {
        Answer::Usage => write_usage(err),
        Answer::Ended(ending) => write_ending(alloc, err, ending),
        Answer::Doubted { chunk, doubt } => write_doubt(alloc, err, chunk, doubt),
        Answer::Unbuilt { line, reason } => write_unbuilt(alloc, err, line, reason),
    }
}

/// Writes the usage line, and returns its status.
fn write_usage<E: Sink>(err: &mut E) -> u8
    ensures { IsAnswered 1 (Some usage_line) result (E.state err.old) (E.state err.new) }
{
    write_status_line(
        err,
        "usage: jfr print|summary|metadata|scrub|disassemble|assemble|sample|receipt|verify|build|stacks|mask\n",
        USAGE,
    )
}

/// Writes the line of an ending, if it has one, and returns its status.
fn write_ending<E: Sink>(alloc: Global, err: &mut E, ending: Ending) -> u8
    ensures { IsAnswered (status_of ending) (line_of ending) result (E.state err.old) (E.state err.new) }
{
    match ending {
        Ending::Done => 0,
        Ending::Refused(refusal) => write_made_line(err, refusal_text(alloc, &refusal), REFUSED),
        Ending::ReadFault => write_status_line(err, "read fault\n", READ_FAULT),
        Ending::WriteFault => write_status_line(err, "write fault\n", WRITE_FAULT),
        Ending::Memory => write_status_line(err, "out of memory\n", NO_MEMORY),
        Ending::TooManyParts => write_status_line(err, "too many parts\n", TOO_MANY_PARTS),
        Ending::MaskTooLong(chunk) => write_made_line(err, long_text(alloc, chunk), TOO_LONG),
    }
}

/// Writes the line of a doubt, and returns its status.
fn write_doubt<E: Sink>(alloc: Global, err: &mut E, chunk: u64, doubt: Doubt) -> u8
    ensures { IsAnswered 7 (Some (doubt_line chunk doubt)) result (E.state err.old) (E.state err.new) }
{
    write_made_line(err, doubt_text(alloc, chunk, doubt), DOUBTED)
}

/// The line of a doubt.
fn doubt_text(alloc: Global, chunk: u64, doubt: Doubt) -> Result<String, AllocError>
    ensures { IfOk result (λ text. string_bytes text ≡ doubt_line chunk doubt) }
{
    let name = doubt.name();
    format!(in alloc; "chunk {chunk}: {name}\n")
}

/// Writes the line of a text that is refused, and returns its status.
fn write_unbuilt<E: Sink>(alloc: Global, err: &mut E, line: u64, reason: BuildReason) -> u8
    ensures { IsAnswered 8 (Some (unbuilt_line line reason)) result (E.state err.old) (E.state err.new) }
{
    write_made_line(err, unbuilt_text(alloc, line, reason), UNBUILT)
}

/// The line of a text that is refused.
fn unbuilt_text(alloc: Global, line: u64, reason: BuildReason) -> Result<String, AllocError>
    ensures { IfOk result (λ text. string_bytes text ≡ unbuilt_line line reason) }
{
    let name = reason.name();
    format!(in alloc; "line {line}: {name}\n")
}

/// The line of a masked chunk that would be too long.
fn long_text(alloc: Global, chunk: u64) -> Result<String, AllocError>
    ensures { IfOk result (λ text. string_bytes text ≡ long_line chunk) }
{
    format!(in alloc; "chunk {chunk}: MaskTooLong\n")
}

/// The line of a refused recording.
fn refusal_text(alloc: Global, refusal: &Refusal) -> Result<String, AllocError>
    ensures { IfOk result (λ text. string_bytes text ≡ refusal_line refusal.now) }
{
    let (chunk, offset, name) = (refusal.chunk, refusal.offset, refusal.reason.name());
    format!(in alloc; "chunk {chunk} offset {offset}: {name}\n")
}

/// Writes the line. If there was no memory to make it, writes `out of memory` instead.
fn write_made_line<E: Sink>(err: &mut E, made: Result<String, AllocError>, status: u8) -> u8
    ensures { (line : List ℕ) → IfOk made (λ text. string_bytes text ≡ line) → IsAnswered status (Some line) result (E.state err.old) (E.state err.new) }
{
    match made {
        Ok(line) => write_status_line(err, line.as_str(), status),
        Err(_) => write_status_line(err, "out of memory\n", NO_MEMORY),
    }
}

/// Writes a line. A failed write doesn't change the status; if memory runs out, the status is `NO_MEMORY`.
fn write_status_line<E: Sink>(err: &mut E, line: &str, status: u8) -> u8
    ensures { IsAnswered status (Some line.now) result (E.state err.old) (E.state err.new) }
{
    match err.write(line.as_bytes()) {
        Ok(()) => status,
        Err(Fault::Failed) => status,
        Err(Fault::Memory) => NO_MEMORY,
    }
}
