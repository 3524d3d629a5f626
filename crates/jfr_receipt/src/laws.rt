//! Laws of the receipts of scrubs. The functions do nothing; their contracts are the laws.
ghost use Rattle.std.specs.Prelude.{ℕ, ◌^◌, ◌<◌, List, Option, Some, length};
ghost use Rattle.jfr_filter.specs.Filters.{Given};
ghost use Rattle.jfr_plan.specs.Accepted.{AllAccepted};
ghost use Rattle.jfr_chunk.specs.Refusal.{refusal_of};
ghost use Rattle.jfr_scrub.specs.Headline.{recording_scrubbed};
ghost use Rattle.jfr_verify.specs.Verdicts.{AreScrubs};
ghost use Rattle.jfr_receipt.specs.Receipting.{describing, recording_receipts};

/// What `scrub` and `receipt` write for a recording without a refused chunk is what `verify` is promised to
/// accept, if the receipts aren't too long. `verify` needn't know which classes the scrub describes.
pub fn scrubs_have_receipts()
    ensures { (g : Given) (described : Option (List (List ℕ))) (x : List ℕ) → AllAccepted refusal_of x → length (recording_receipts (describing described g) x) < 2 ^ 40
        → AreScrubs g (record { input = Some x; output = Some (recording_scrubbed (describing described g) x); receipt = Some (recording_receipts (describing described g) x) }) }
{}
