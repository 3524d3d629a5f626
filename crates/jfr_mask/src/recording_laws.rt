//! Laws of masked recordings. The functions do nothing; their contracts are the laws.
ghost use Rattle.std.specs.Prelude.{◌≡◌, ◌<◌, ◌^◌, ℕ, List, None, length};
ghost use Rattle.jfr_filter.specs.Filters.{Given};
ghost use Rattle.jfr_header.specs.Fronts.{Whole};
ghost use Rattle.jfr_chunk.specs.Refusal.{refusal_of};
ghost use Rattle.jfr_mask.specs.Commands.{IsMaskedOutput};
ghost use Rattle.jfr_mask.specs.MaskOf.{Masking};
ghost use Rattle.jfr_mask.specs.RecordingLaws.{AreAlike, IsOneDictionary, recording_masked};
ghost use Rattle.jfr_mask.specs.Recordings.{masked};

use crate::{equal_outputs, numbers_hold_in_all_chunks, outputs_are_masked};

/// The masked chunk of an accepted chunk, if it is below 2^30 bytes, is what a masked chunk has to be, whatever the
/// dictionary before it.
#[tactic(auto)]
pub fn chunks_are_masked()
    ensures { (g : Given) (m : Masking) (d : List (List ℕ)) (c : List ℕ) → Whole c → refusal_of c ≡ None → length (masked g m d c) < 2 ^ 30 → IsMaskedOutput g m d c (masked g m d c) }
{
    outputs_are_masked();
}

/// One dictionary has all masked texts of a recording, and shows each in the same way in all chunks.
#[tactic(auto)]
pub fn recordings_have_one_dictionary()
    ensures { (g : Given) (m : Masking) (x : List ℕ) → IsOneDictionary g m x }
{
    numbers_hold_in_all_chunks();
}

/// Recordings that differ, chunk by chunk, only in masked texts have equal outputs, byte for byte.
#[tactic(auto)]
pub fn recordings_keep_secrets()
    ensures { (g : Given) (m : Masking) (x y : List ℕ) → AreAlike g m x y → recording_masked g m y ≡ recording_masked g m x }
{
    equal_outputs();
}
