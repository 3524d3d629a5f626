//! Laws of scrubbed recordings. The functions do nothing; their contracts are the laws.
ghost use Rattle.std.specs.Prelude.{◌≡◌, ◌↔◌, ℕ, ◌+◌, ◌^◌, ◌≤◌, List, [], ◌++◌, length, map, Some, true};
ghost use Rattle.jfr_filter.specs.Filters.{Given};
ghost use Rattle.jfr_header.specs.Cuts.{cut, joined};
ghost use Rattle.jfr_plan.specs.Ends.{Fine};
ghost use Rattle.jfr_plan.specs.Rules.{plan_after};
ghost use Rattle.jfr_plan.specs.Accepted.{AllAccepted};
ghost use Rattle.jfr_chunk.specs.Refusal.{refusal_of};
ghost use Rattle.jfr_output.specs.Agreements.{RecordingsAgree};
ghost use Rattle.jfr_output.specs.Recordings.{before_refused};
ghost use Rattle.jfr_scrub.specs.Headline.{AllButLast, IsScrubOf, recording_scrubbed};
ghost use Rattle.jfr_scrub.specs.Scrubs.{scrubbing};

/// The output of a recording is a recording, which is cut into exactly the chunks that are written, and each
/// of them is accepted. No other output meets the definition.
pub fn output_is_a_recording()
    ensures scrub { (g : Given) (x : List ℕ) → IsScrubOf g x (recording_scrubbed g x) }
    ensures one { (g : Given) (x y : List ℕ) → IsScrubOf g x y → y ≡ recording_scrubbed g x }
{}

/// Scrubbing the output again with the same filter doesn't change it.
pub fn scrubbed_again_stays_the_same()
    ensures { (g : Given) (x : List ℕ) → recording_scrubbed g (recording_scrubbed g x) ≡ recording_scrubbed g x }
{}

/// Scrubbing ends well exactly if the recording is cut into chunks without a flaw and none of them is
/// refused. Then no chunk is left out: those before the first refused one are all chunks.
pub fn scrubbing_ends_well()
    ensures exactly { (g : Given) (output x : List ℕ) → ((plan_after (scrubbing g output) [] (Some x)).end ≡ Some Fine) ↔ AllAccepted refusal_of x }
    ensures all { (g : Given) (output x : List ℕ) → (plan_after (scrubbing g output) [] (Some x)).end ≡ Some Fine
        → before_refused refusal_of (cut x 0 true).chunks ≡ (cut x 0 true).chunks }
{}

/// The outputs of a recording's parts, one after another, are the output of the whole, byte for byte. So the
/// parts can be scrubbed one by one, or several at once. Each part but the last must be cut into chunks
/// without a flaw, and none of them may be refused. If the last part has a flaw or a refused chunk, both
/// outputs end before it. The parts have at most 2^40 bytes together, since a chunk that starts later is
/// refused.
pub fn parts_are_scrubbed_one_by_one()
    ensures two { (g : Given) (x y : List ℕ) → AllAccepted refusal_of x → length x + length y ≤ 2 ^ 40
        → recording_scrubbed g (x ++ y) ≡ recording_scrubbed g x ++ recording_scrubbed g y }
    ensures all { (g : Given) (parts : List (List ℕ)) → AllButLast (AllAccepted refusal_of) parts → length (joined parts) ≤ 2 ^ 40
        → recording_scrubbed g (joined parts) ≡ joined (map (recording_scrubbed g) parts) }
{}

/// Recordings that agree, chunk by chunk, on all that remains have the same output, byte for byte. So nothing else
/// of a recording can be found out from its output.
#[tactic(auto, using(crate::proofs::AgreementLaws::recordings_same))]
pub fn only_what_remains_matters()
    ensures { (g : Given) (x y : List ℕ) → RecordingsAgree g x y → recording_scrubbed g x ≡ recording_scrubbed g y }
{}
