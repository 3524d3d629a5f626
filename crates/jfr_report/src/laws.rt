//! The laws of the commands that write text. These calls do nothing.
ghost use Rattle.std.specs.Prelude.{◌≡◌, ◌≤◌, ◌↔◌, [], ℕ, List, None, Some};
ghost use Rattle.jfr_plan.specs.Ends.{Fine};
ghost use Rattle.jfr_plan.specs.Rules.{plan_after};
ghost use Rattle.jfr_plan.specs.Accepted.{AllAccepted};
ghost use Rattle.jfr_chunk.specs.Parts.{Parts};
ghost use Rattle.jfr_chunk.specs.Refusal.{refusal_of};
ghost use Rattle.jfr_report.specs.Reports.{texting, all_parts};
ghost use Rattle.jfr_sample.specs.Sample.{sample_of};

/// A command that writes text ends well exactly if the recording is cut into chunks without a flaw and
/// none of them is refused.
pub fn reports_end_well()
    ensures { (texts : ℕ → Parts → List (List ℕ)) (last : List (List ℕ) → List (List ℕ)) (x : List ℕ)
        → ((plan_after (texting texts last) [] (Some x)).end ≡ Some Fine) ↔ AllAccepted refusal_of x }
{}

/// The sample of every seed with 1 to 1,000,000 events is a chunk that is accepted.
pub fn sample_is_accepted()
    ensures { (seed events : ℕ) → 1 ≤ events → events ≤ 1000000 → refusal_of (sample_of seed events) ≡ None }
{}
