//! The command that joins the chunks of a folder's files.
ghost use Rattle.std.specs.Prelude.{◌≡◌, ◌≢◌, ℕ, List, [], map, string_bytes, IfSome, OnOk, IfOk, IfErr, MatchResult};
ghost use Rattle.std.specs.FinMap as fin;
ghost use Rattle.jfr_outside.specs.World.{Files};
ghost use Rattle.jfr_plan.specs.Ends.{command_end};
ghost use Rattle.jfr_plan.specs.Effects.{Plan, without_sink};
ghost use Rattle.jfr_plan.specs.Rules.{File};
ghost use Rattle.jfr_plan.specs.Outcomes.{After, Tallied, Counted, Unchanged};
ghost use Rattle.jfr_plan.specs.Goings.{IsAt, IsPast};
ghost use Rattle.jfr_plan.specs.Clauses.{Ran, CanCreate};
ghost use Rattle.jfr_split.specs.Joins.{adding, joining, joining_all, files_in, CanJoin};
ghost use Rattle.jfr_split.specs.Clauses.{AfterFiles, joins};

use crate::listing::joined_files;
use jfr_base::{Reason, Refusal};
use jfr_header::Ending;
use jfr_outside::{Place, Sink};
use jfr_plan::{Discard, Position, Stage, append_output, create_output, finish_output, run_stage};
use std::alloc::Global;

/// The stage that appends each chunk of a file to the output.
#[derive(Drop)]
struct Adding;

impl Stage for Adding {
    ghost use Rattle.jfr_split.specs.Joins.{adding};

    ghost rule = { λ _. adding };

    ghost seen = { λ _ _. Unit {0} };

    fn opened<P: Place, O: Sink>(&self, _place: &mut P, _out: &mut O) -> Result<(), Ending> {
        Ok(())
    }

    fn chunk<P: Place, O: Sink>(
        &mut self,
        place: &mut P,
        _out: &mut O,
        chunk: &[u8],
        _number: u64,
    ) -> Result<(), Ending> {
        append_output(place, chunk)
    }

    fn end<P: Place, O: Sink>(&self, _place: &mut P, _out: &mut O) -> Result<(), Ending> {
        Ok(())
    }
}

/// Appends the chunks of one file, which come after those of the files before.
fn join_file<P: Place>(place: &mut P, file: &str, at: &mut Position) -> Ending
    ensures contents { (earlier : List (List ℕ)) → IsAt earlier at.old.start at.old.number
        → After adding earlier file.now (command_end result)
        (without_sink (P.state place.old)) (without_sink (P.state place.new)) }
    ensures later { (earlier : List (List ℕ)) → IsAt earlier at.old.start at.old.number
        → result ≡ Ending.Done
        → IfSome (P.state place.old).contents (IsPast (λ _. Unit {0}) earlier file.now at.new.start at.new.number) }
    ensures counts { Tallied File (command_end result)
        (without_sink (P.state place.old)) (without_sink (P.state place.new)) }
{
    run_stage(place, &mut Discard, &mut Adding, file, at)
}

/// Appends the chunks of these files, one file after another, and finishes the output.
fn join_files<P: Place>(alloc: Global, place: &mut P, files: &[String]) -> Ending
    ensures contents { (output : List ℕ) (contents : List (List ℕ))
        → IfSome (P.state place.old).contents (CanJoin output (map (λ f. string_bytes f) files.now) contents)
        → AfterFiles (λ _. joining [] contents) (command_end result)
        (without_sink (P.state place.old)) (without_sink (P.state place.new)) }
    ensures counts { Tallied File (command_end result)
        (without_sink (P.state place.old)) (without_sink (P.state place.new)) }
{
    let mut at = Position::first(alloc);
    'files: for file in files {
        match join_file(place, file.as_str(), &mut at) {
            Ending::Done => {}
            ending => return ending,
        }
    }
    match finish_output(place) {
        Ok(()) => Ending::Done,
        Err(ending) => ending,
    }
}

/// Joins the files. Refused as `NoChunk` if there are none.
fn join_some<P: Place>(alloc: Global, place: &mut P, files: &[String]) -> Ending
    ensures contents { (output : List ℕ) (contents : List (List ℕ))
        → IfSome (P.state place.old).contents (CanJoin output (map (λ f. string_bytes f) files.now) contents)
        → AfterFiles (λ _. joining_all contents) (command_end result)
        (without_sink (P.state place.old)) (without_sink (P.state place.new)) }
    ensures counts { Tallied File (command_end result)
        (without_sink (P.state place.old)) (without_sink (P.state place.new)) }
{
    if files.is_empty() {
        return Ending::Refused(Refusal {
            chunk: 1,
            offset: 0,
            reason: Reason::NoChunk,
        });
    }
    join_files(alloc, place, files)
}

/// The names of the folder's files to join, in order.
fn list_files<P: Place>(alloc: Global, place: &mut P, folder: &str) -> Result<Vec<String>, Ending>
    ensures contents { OnOk result ((P.state place.new).contents ≡ (P.state place.old).contents) }
    ensures files { IfOk result (λ made. IfSome (P.state place.old).contents
        (λ w. map (λ f. string_bytes f) made.items ≡ fin.keys (files_in folder.now w.files))) }
    ensures ended { IfErr result (λ e. (plan : Files → Plan) → AfterFiles plan (command_end e)
        (without_sink (P.state place.old)) (without_sink (P.state place.new))) }
    ensures counts { MatchResult result
        (λ _. Counted Unchanged Unchanged Unchanged (without_sink (P.state place.old)) (without_sink (P.state place.new)))
        (λ e. Tallied File (command_end e) (without_sink (P.state place.old)) (without_sink (P.state place.new))) }
{
    let names = place.list(alloc, folder).map_err(Ending::of_read)?;
    Ok(joined_files(alloc, folder, &names)?)
}

/// Joins the chunks of a folder's files whose names end in `.jfr`: lists the folder, creates the
/// output, opens the files one after another in byte order of their names, appends each chunk, and
/// finishes the output. Each file must have at least one chunk, and the folder at least one such file.
pub fn assemble<P: Place>(alloc: Global, place: &mut P, folder: &str, out: &str) -> Ending
    ensures ran { Ran (joins folder.now out.now) result
        (without_sink (P.state place.old)) (without_sink (P.state place.new)) }

    // If the output can be created, there is no write fault.
    ensures can_create { CanCreate out.now (P.state place.old)
        → (result ≢ Ending.WriteFault) × ((P.state place.new).write_faults ≡ (P.state place.old).write_faults) }
{
    let files = match list_files(alloc, place, folder) {
        Ok(files) => files,
        Err(ending) => return ending,
    };
    match create_output(place, out) {
        Ok(()) => {}
        Err(ending) => return ending,
    }
    join_some(alloc, place, &files)
}
