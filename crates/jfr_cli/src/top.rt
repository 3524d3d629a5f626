//! The top call: the whole program, over a place and two sinks.
ghost use Rattle.std.specs.Prelude.{◌≡◌, ◌≢◌, ◌<◌, ◌≤◌, ◌^◌, ◌⊎◌, ℕ, List, Option, None, Some, Ok, IfSome, length, true, false};
ghost use Rattle.jfr_outside.specs.Counts.{Rose};
ghost use Rattle.jfr_outside.specs.World.{IfKnown};
ghost use Rattle.jfr_header.specs.Fronts.{Whole};
ghost use Rattle.jfr_filter.specs.Filters.{Given};
ghost use Rattle.jfr_plan.specs.Ends.{Fine, TooMany};
ghost use Rattle.jfr_plan.specs.Effects.{outside};
ghost use Rattle.jfr_plan.specs.Rules.{Masked, Parts, Text};
ghost use Rattle.jfr_plan.specs.Clauses.{write_count};
ghost use Rattle.jfr_chunk.specs.Refusal.{refusal_of};
ghost use Rattle.jfr_output.specs.Agreements.{RecordingsAgree};
ghost use Rattle.jfr_output.specs.Recordings.{recording_output};
ghost use Rattle.jfr_scrub.specs.Headline.{IsScrubbed, Scrubs, recording_scrubbed};
ghost use Rattle.jfr_scrub.specs.Scrubs.{scrubbed};
ghost use Rattle.jfr_words.specs.declared.order.Order.{Order};
ghost use Rattle.jfr_words.specs.declared.order.Order.TheVariants as orders;
ghost use Rattle.jfr_words.specs.Words.{order_of, file_name};
ghost use Rattle.jfr_renumber.specs.Headline.{IsRenumberedOutput, Renumbers};
ghost use Rattle.jfr_renumber.specs.Renumbers.{renumbered};
ghost use Rattle.jfr_mask.specs.Commands.{IsMaskedOutput, Masks, WritesTable};
ghost use Rattle.jfr_mask.specs.Laws.{AreDistinct};
ghost use Rattle.jfr_mask.specs.MaskOf.{Masking};
ghost use Rattle.jfr_mask.specs.Pseudonyms.{is_known};
ghost use Rattle.jfr_mask.specs.RecordingLaws.{AreAlike, IsOneDictionary, recording_masked};
ghost use Rattle.jfr_mask.specs.Recordings.{masked};
ghost use Rattle.jfr_receipt.specs.Receipting.{IsReceipted, scrub_receipt};
ghost use Rattle.jfr_verify.specs.Verdicts.{AllVerified, AreScrubs, three};
ghost use Rattle.jfr_build.specs.Accepted.{IsBuiltOf};
ghost use Rattle.jfr_build.specs.Builds.{build_of};
ghost use Rattle.jfr_build.specs.Streams.{Builds};
ghost use Rattle.jfr_cli.specs.Works.{mask_work, work_of, target_of, KeepsSink, KeepsPlace, CanReadAll, CanCreateFor};
ghost use Rattle.jfr_cli.specs.Answers.{usage_line, read_line, write_line, parts_line, IsLineWritten, IsMemoryLineWritten};
ghost use Rattle.jfr_cli.specs.Runs.{Obeys, Under, WorkEnded, WorkHalted, WorkBroken, IsPartlyDone, CountsOnce, HasStatus, IsDoubted, IsRefused, IsTooLong, IsUnbuilt};

use crate::answer::Answer;
use crate::execute::execute;
use crate::status::write_answer;
use jfr_build::built_is_accepted;
use jfr_header::Ending;
use jfr_mask::laws::pseudonyms_are_distinct;
use jfr_mask::{chunks_are_masked, recordings_have_one_dictionary, recordings_keep_secrets};
use jfr_outside::{Place, Sink, Words};
use jfr_verify::{kept_is_passed, scrubs_are_verified, verdict_is_unique};
use jfr_words::{WordsFault, read_words};
use std::alloc::Global;

/// Carries out the order that the words give, if they give one.
fn obey<P: Place, O: Sink>(alloc: Global, words: &Words, place: &mut P, out: &mut O) -> Answer
    ensures { Obeys words.now result (outside (P.state place.old) (O.state out.old)) (outside (P.state place.new) (O.state out.new)) }
{
    match read_words(alloc, words) {
        Ok(order) => execute(alloc, place, out, &order),
        Err(WordsFault::Usage) => Answer::Usage,
        Err(WordsFault::Memory) => Answer::Ended(Ending::Memory),
    }
}

/// Carries out the order that the words give, over a place and the output sink. Unless it succeeds, writes a
/// line to the error sink. Returns the exit status: 0 done, 1 usage error, 2 recording refused, 3 read fault,
/// 4 write fault, 5 out of memory, 6 too many parts, 7 a doubt about an output, 8 a refused text for `build`, 9 a
/// masked chunk would be too long.
pub fn run<P: Place, O: Sink, E: Sink>(
    alloc: Global,
    words: &Words,
    place: &mut P,
    out: &mut O,
    err: &mut E,
) -> u8
    // Words that aren't an order: nothing is done.
    ensures usage { result ≡ 1 → (order_of words.now ≡ None) × IsLineWritten usage_line (E.state err.old) (E.state err.new) }
    ensures usage_only { order_of words.now ≡ None → (result ≡ 1) ⊎ (result ≡ 5) }
    ensures untouched { order_of words.now ≡ None → (P.state place.new ≡ P.state place.old) × (O.state out.new ≡ O.state out.old) }

    // With status 0 or 2 the output of a scrub holds the scrub of each chunk before the first refused one.
    // Each scrub is accepted again, has exactly the events that the filter keeps and exactly the constants
    // that they reach, and means the same. `each` says this of the scrub of every accepted chunk, whatever
    // the status is.
    ensures headline { (result ≡ 0) ⊎ (result ≡ 2) → (g : Given) (input output : List ℕ) → order_of words.now ≡ Some (orders.Scrub g false input output)
        → IfKnown (P.state place.old).contents (P.state place.new).contents (Scrubs g (file_name input) (file_name output)) }
    ensures each { (g : Given) (c : List ℕ) → Whole c → refusal_of c ≡ None → IsScrubbed g c (scrubbed g c) }

    // With `--renumber yes` the output means the same except for the keys of constants. Equal constants of a
    // class are merged. Each chunk isn't longer than its input chunk, or than its scrub without new keys.
    ensures renumbered { (result ≡ 0) ⊎ (result ≡ 2) → (g : Given) (input output : List ℕ) → order_of words.now ≡ Some (orders.Scrub g true input output)
        → IfKnown (P.state place.old).contents (P.state place.new).contents (Renumbers g (file_name input) (file_name output)) }
    ensures each_renumbered { (g : Given) (c : List ℕ) → Whole c → refusal_of c ≡ None → IsRenumberedOutput g c (renumbered g c) }

    // Nothing else of what was removed can be found out from an output: recordings that agree, chunk by chunk, on
    // all that remains have the same output, with and without new keys.
    ensures same_kept { (g : Given) (x y : List ℕ) → RecordingsAgree g x y → recording_scrubbed g x ≡ recording_scrubbed g y }
    ensures same_kept_renumbered { (g : Given) (x y : List ℕ) → RecordingsAgree g x y → recording_output refusal_of (renumbered g) x ≡ recording_output refusal_of (renumbered g) y }

    // With the receipt of an accepted chunk, the chunk and its scrub pass the checks.
    ensures each_receipt { (g : Given) (c : List ℕ) → Whole c → refusal_of c ≡ None → IsReceipted g c (scrub_receipt g c) }

    // With 0, `verify` found that each chunk of the output, whoever made it, means the same as the chunk of
    // the input with the same number, reduced to the events that the filter keeps. If no call fails and
    // memory doesn't run out, `verify` finds this of every scrub with its own receipts.
    ensures verified { result ≡ 0 → (g : Given) (input output receipt : List ℕ) → order_of words.now ≡ Some (orders.Verify g input output receipt)
        → IfSome (P.state place.old).contents (λ w. (count : ℕ) × AllVerified g (three (file_name input) (file_name output) (file_name receipt) w) count) }
    ensures scrubs_verified { (g : Given) (input output receipt : List ℕ) → order_of words.now ≡ Some (orders.Verify g input output receipt)
        → (Rose (P.state place.old).read_faults (P.state place.new).read_faults → ⊥) → (Rose (O.state out.old).faults (O.state out.new).faults → ⊥)
        → IfSome (P.state place.old).contents (λ w. AreScrubs g (three (file_name input) (file_name output) (file_name receipt) w) → (result ≡ 0) ⊎ (result ≡ 5)) }

    // With 0 the output of a build has the chunk of the text: a chunk that is accepted, with exactly the
    // classes, the events and the constants of the lines. `each_built` says this of every chunk that is
    // built, whatever the status is.
    ensures built { result ≡ 0 → (text output : List ℕ) → order_of words.now ≡ Some (orders.Build text output)
        → IfKnown (P.state place.old).contents (P.state place.new).contents (Builds (file_name text) (file_name output)) }
    ensures each_built { (text chunk : List ℕ) → build_of text ≡ Ok chunk → IsBuiltOf text chunk }

    // With status 0 or 2 the output of `mask` holds the masked chunk of each chunk before the first refused one. Each
    // is accepted again, has exactly the events that the filter keeps and exactly the constants that they reach by
    // paths that go no further at masked strings, and means the same but for these strings. One dictionary goes on
    // from chunk to chunk. With 0 the table has each of its texts. `each_masked` says this of the masked chunk of
    // every accepted chunk and every dictionary.
    ensures masked { (result ≡ 0) ⊎ (result ≡ 2) → (g : Given) (strings : List (List ℕ)) (except : Option (List (List ℕ))) (known table : Option (List ℕ)) (input output : List ℕ) → order_of words.now ≡ Some (orders.Mask g strings except known table input output)
        → IfKnown (P.state place.old).contents (P.state place.new).contents (Masks (mask_work g strings except known table input output)) }
    ensures table { result ≡ 0 → (g : Given) (strings : List (List ℕ)) (except : Option (List (List ℕ))) (known table : Option (List ℕ)) (input output : List ℕ) → order_of words.now ≡ Some (orders.Mask g strings except known table input output)
        → IfKnown (P.state place.old).contents (P.state place.new).contents (WritesTable (mask_work g strings except known table input output)) }
    ensures each_masked { (g : Given) (m : Masking) (d : List (List ℕ)) (c : List ℕ) → Whole c → refusal_of c ≡ None → length (masked g m d c) < 2 ^ 30 → IsMaskedOutput g m d c (masked g m d c) }

    // In a masked recording texts have equal pseudonyms exactly if they are equal: one dictionary has the texts of all
    // chunks, and what is shown for the texts of a dictionary is one to one; no known text is shown for another.
    // Recordings that differ, chunk by chunk, only in masked texts have the same output.
    ensures one_dictionary { (g : Given) (m : Masking) (x : List ℕ) → IsOneDictionary g m x }
    ensures pseudonyms { (lines d : List (List ℕ)) → length d < 2 ^ 63 → AreDistinct (is_known lines) d }
    ensures secrets { (g : Given) (m : Masking) (x y : List ℕ) → AreAlike g m x y → recording_masked g m y ≡ recording_masked g m x }

    // The state after each status, and the line on the error sink.
    ensures done { result ≡ 0 → Under words.now (λ o. WorkEnded (work_of o) Fine (outside (P.state place.old) (O.state out.old)) (outside (P.state place.new) (O.state out.new))) }
    ensures done_silent { result ≡ 0 → E.state err.new ≡ E.state err.old }
    ensures refused { result ≡ 2 → Under words.now (λ o. IsRefused (work_of o) (outside (P.state place.old) (O.state out.old)) (outside (P.state place.new) (O.state out.new)) (E.state err.old) (E.state err.new)) }
    ensures halted { result ≡ 3 → Under words.now (λ o. WorkHalted (work_of o) (outside (P.state place.old) (O.state out.old)) (outside (P.state place.new) (O.state out.new))) }
    ensures halted_line_written { result ≡ 3 → IsLineWritten read_line (E.state err.old) (E.state err.new) }
    ensures broken { result ≡ 4 → Under words.now (λ o. WorkBroken (work_of o) (outside (P.state place.old) (O.state out.old)) (outside (P.state place.new) (O.state out.new))) }
    ensures broken_line_written { result ≡ 4 → IsLineWritten write_line (E.state err.old) (E.state err.new) }
    ensures too_many { result ≡ 6 → Under words.now (λ o. WorkEnded (work_of o) TooMany (outside (P.state place.old) (O.state out.old)) (outside (P.state place.new) (O.state out.new))) }
    ensures too_many_line_written { result ≡ 6 → IsLineWritten parts_line (E.state err.old) (E.state err.new) }
    ensures parts { result ≡ 6 → Under words.now (λ o. target_of (work_of o) ≡ Parts) }
    ensures doubted { result ≡ 7 → Under words.now (λ o. IsDoubted (work_of o) (outside (P.state place.old) (O.state out.old)) (outside (P.state place.new) (O.state out.new)) (E.state err.old) (E.state err.new)) }
    ensures unbuilt { result ≡ 8 → Under words.now (λ o. IsUnbuilt (work_of o) (outside (P.state place.old) (O.state out.old)) (outside (P.state place.new) (O.state out.new)) (E.state err.old) (E.state err.new)) }
    ensures memory { result ≡ 5 → (o : Order) → order_of words.now ≡ Some o → IsPartlyDone (work_of o) (outside (P.state place.old) (O.state out.old)) (outside (P.state place.new) (O.state out.new)) }
    ensures memory_line_written { result ≡ 5 → IsMemoryLineWritten (E.state err.old) (E.state err.new) }
    ensures too_long { result ≡ 9 → Under words.now (λ o. IsTooLong (work_of o) (outside (P.state place.old) (O.state out.old)) (outside (P.state place.new) (O.state out.new)) (E.state err.old) (E.state err.new)) }
    ensures masks { result ≡ 9 → Under words.now (λ o. target_of (work_of o) ≡ Masked) }
    ensures statuses { result ≤ 9 }

    // Status 3 or 4 comes only if a fault was counted, and a counted fault gives 3, 4 or 5.
    ensures read_fault { result ≡ 3 → Rose (P.state place.old).read_faults (P.state place.new).read_faults }
    ensures write_fault { result ≡ 4 → Under words.now (λ o. Rose (write_count (target_of (work_of o)) (outside (P.state place.old) (O.state out.old))) (write_count (target_of (work_of o)) (outside (P.state place.new) (O.state out.new)))) }
    ensures no_read_passed { (P.state place.old).read_faults < (P.state place.new).read_faults → (result ≡ 3) ⊎ (result ≡ 5) }
    ensures no_write_passed { (P.state place.old).write_faults < (P.state place.new).write_faults → (result ≡ 4) ⊎ (result ≡ 5) }
    ensures no_text_passed { (O.state out.old).faults < (O.state out.new).faults → (result ≡ 4) ⊎ (result ≡ 5) }
    ensures one_count { CountsOnce (outside (P.state place.old) (O.state out.old)) (outside (P.state place.new) (O.state out.new)) }
    ensures writes { (o : Order) → order_of words.now ≡ Some o → target_of (work_of o) ≡ Text → (P.state place.new).write_faults ≡ (P.state place.old).write_faults }

    // Without a fault, either memory ran out, or the status is that of the plan's end, or 7 for a doubt of
    // `verify`, or 8 for a refused text for `build`.
    ensures complete { (o : Order) → order_of words.now ≡ Some o
        → (Rose (P.state place.old).read_faults (P.state place.new).read_faults → ⊥)
        → (Rose (write_count (target_of (work_of o)) (outside (P.state place.old) (O.state out.old))) (write_count (target_of (work_of o)) (outside (P.state place.new) (O.state out.new))) → ⊥)
        → IfSome (P.state place.old).contents (HasStatus (work_of o) result) }

    // If the files can be read and created, no fault occurs.
    ensures can_read { (o : Order) → order_of words.now ≡ Some o → CanReadAll (work_of o) (P.state place.old) → (result ≢ 3) × ((P.state place.new).read_faults ≡ (P.state place.old).read_faults) }
    ensures can_create { (o : Order) → order_of words.now ≡ Some o → CanCreateFor o (P.state place.old) → (result ≢ 4) × ((P.state place.new).write_faults ≡ (P.state place.old).write_faults) }

    // An order that writes files leaves the output sink unchanged, as a check does if a chunk is refused or a read
    // failed; one that reads no file leaves the place unchanged.
    ensures out { (o : Order) → order_of words.now ≡ Some o → KeepsSink (target_of (work_of o)) (O.state out.old) (O.state out.new) }
    ensures check_out { (result ≡ 2) ⊎ (result ≡ 3) → (g : Given) (input output receipt : List ℕ) → order_of words.now ≡ Some (orders.Verify g input output receipt) → O.state out.new ≡ O.state out.old }
    ensures place { (o : Order) → order_of words.now ≡ Some o → KeepsPlace (work_of o) (P.state place.old) (P.state place.new) }
    ensures same { (P.state place.new).steady ≡ (P.state place.old).steady }
{
    kept_is_passed();
    verdict_is_unique();
    scrubs_are_verified();
    built_is_accepted();
    chunks_are_masked();
    pseudonyms_are_distinct();
    recordings_have_one_dictionary();
    recordings_keep_secrets();
    let answer = obey(alloc, words, place, out);
    write_answer(alloc, err, answer)
}
