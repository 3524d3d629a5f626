//! The stream that masks a recording.
ghost use Rattle.std.specs.Prelude.{◌≡◌, ◌≢◌, ◌<◌, ◌^◌, ℕ, List, [], None, length, option_map};
ghost use Rattle.std.specs.Option.{option_map_or};
ghost use Rattle.jfr_outside.specs.World.{IfKnown};
ghost use Rattle.jfr_header.specs.Fronts.{Whole};
ghost use Rattle.jfr_header.specs.Taking.{IfContentsKnown};
ghost use Rattle.jfr_plan.specs.Ends.{command_end};
ghost use Rattle.jfr_plan.specs.Effects.{without_sink};
ghost use Rattle.jfr_plan.specs.Rules.{Masked};
ghost use Rattle.jfr_plan.specs.Outcomes.{After, Tallied};
ghost use Rattle.jfr_plan.specs.Clauses.{Ran};
ghost use Rattle.jfr_chunk.specs.Refusal.{refusal_of};
ghost use Rattle.jfr_output.specs.Recordings.{IsByPlan};
ghost use Rattle.jfr_mask.specs.Commands.{CanCreateBoth, IsMaskedOutput, Masks, WritesTable, mask_task};
ghost use Rattle.jfr_mask.specs.MaskOf.{Masking};
ghost use Rattle.jfr_mask.specs.Recordings.{masked};
ghost use Rattle.jfr_mask.specs.RecordingMaskers.{rule_of};
ghost use Rattle.jfr_mask.specs.Streams.{KnownCounts, KnownRead, rule_by, work_of};

use crate::recording::RecordingMasker;
use crate::{Dictionary, Known, MaskOptions, chunks_are_masked, outputs_are_masked};
use jfr_chunk::Buffers;
use jfr_file::{FileFault, read_file};
use jfr_filter::{Filter, Patterns};
use jfr_header::Ending;
use jfr_outside::Place;
use jfr_plan::{Discard, Position, run_stage};
use std::alloc::Global;

/// The file of known texts is below this length.
const KNOWN_LIMIT: usize = 1 << 30;

/// What is masked in a recording, and which events stay.
#[derive(Clone, Copy)]
pub struct MaskRule<'m> {
    /// Chooses the events, and names the classes that are described even without events.
    pub filter: &'m Filter,
    /// The patterns of the masked fields.
    pub strings: &'m Patterns,
    /// The patterns of the fields that aren't masked although `strings` matches them.
    pub except: Option<&'m Patterns>,
}

/// The names of the files of a masking.
#[derive(Clone, Copy)]
pub struct MaskFiles<'m> {
    /// The recording.
    pub input: &'m str,
    /// The masked recording.
    pub output: &'m str,
    /// The file whose lines are the known texts.
    pub known: Option<&'m str>,
    /// The file that gets a line for each masked text.
    pub table: Option<&'m str>,
}

/// Masks a recording: reads the file of known texts, opens the input, creates the output, appends the masked chunk of
/// each chunk, finishes the output after the last, and writes the table. One dictionary goes on from chunk to chunk.
pub fn mask_stream<P: Place>(
    alloc: Global,
    place: &mut P,
    rule: MaskRule<'_>,
    files: MaskFiles<'_>,
) -> Ending
    // If all chunks were handled, or one was refused, the file holds the masked chunk of each chunk before the first
    // refused one: a recording that is cut into exactly these chunks. Each is accepted, has exactly the kept events and
    // the entries that they reach, and means the same but for masked strings. `each` says this of the masked chunk of
    // every accepted chunk and every dictionary, whatever the result is. `table` says what is in the table at the end.
    ensures headline { IsByPlan result → IfKnown (P.state place.old).contents (P.state place.new).contents (Masks (work_of rule.entry files.entry)) }
    ensures table { result ≡ Ending.Done → IfKnown (P.state place.old).contents (P.state place.new).contents (WritesTable (work_of rule.entry files.entry)) }
    ensures each { (m : Masking) (d : List (List ℕ)) (c : List ℕ) → Whole c → refusal_of c ≡ None → length (masked rule.entry.filter.now m d c) < 2 ^ 30 → IsMaskedOutput rule.entry.filter.now m d c (masked rule.entry.filter.now m d c) }

    ensures ran { Ran (mask_task (work_of rule.entry files.entry)) result
        (without_sink (P.state place.old)) (without_sink (P.state place.new)) }

    // If the output and the table can be created, there is no write fault.
    ensures can_create { CanCreateBoth (work_of rule.entry files.entry) (P.state place.old)
        → (result ≢ Ending.WriteFault) × ((P.state place.new).write_faults ≡ (P.state place.old).write_faults) }
{
    outputs_are_masked();
    chunks_are_masked();
    let known = match read_known(alloc, place, files.known) {
        Ok(known) => known,
        Err(ending) => return ending,
    };
    mask_with(alloc, place, rule, files, &known)
}

/// The known texts of the file with this name; none without a name.
fn read_known<P: Place>(alloc: Global, place: &mut P, name: Option<&str>) -> Result<Known, Ending>
    ensures contents { IfContentsKnown (P.state place.old) (P.state place.new) (KnownRead (P.state place.old).steady (option_map (λ n. n.now) name.entry) result) }
    ensures counts { KnownCounts result (P.state place.old) (P.state place.new) }
{
    let Some(name) = name else {
        return Ok(Known::new(alloc));
    };
    match read_file(alloc, place, name, KNOWN_LIMIT) {
        Ok(bytes) => Ok(Known::of(alloc, &bytes)?),
        Err(FileFault::TooLong) => Err(Ending::MaskTooLong(0)),
        Err(FileFault::Failed) => Err(Ending::ReadFault),
        Err(FileFault::Memory) => Err(Ending::Memory),
    }
}

/// Masks a recording with these known texts.
fn mask_with<P: Place>(
    alloc: Global,
    place: &mut P,
    rule: MaskRule<'_>,
    files: MaskFiles<'_>,
    known: &Known,
) -> Ending
    ensures contents { After (rule_by rule.entry files.entry known.now) [] files.entry.input.now (command_end result) (without_sink (P.state place.old)) (without_sink (P.state place.new)) }
    ensures counts { Tallied Masked (command_end result) (without_sink (P.state place.old)) (without_sink (P.state place.new)) }
{
    let options = MaskOptions {
        strings: rule.strings,
        except: rule.except,
        known,
        filter: rule.filter,
    };
    let mut masker = RecordingMasker {
        alloc,
        options,
        output: files.output,
        table: files.table,
        dictionary: Dictionary::new(alloc),
        written: 0,
        bytes: Vec::new(alloc),
        buffers: Buffers::new(alloc),
    };
    let mut at = Position::first(alloc);
    run_stage(place, &mut Discard, &mut masker, files.input, &mut at)
}
