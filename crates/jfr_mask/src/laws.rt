//! Laws of dictionaries and pseudonyms. The functions do nothing; their contracts are the laws.
ghost use Rattle.std.specs.Prelude.{ℕ, ◌<◌, ◌^◌, List, length};
ghost use Rattle.jfr_mask.specs.Laws.{AreDistinct, AreNumbered};
ghost use Rattle.jfr_mask.specs.Pseudonyms.{is_known};

/// A dictionary has all texts that were added to it, and a number of its own for each, which stays when more texts
/// are added.
#[tactic(auto, using(crate::proofs::NumberLaws::are_numbered))]
pub fn texts_are_numbered()
    ensures { (d ts : List (List ℕ)) → AreNumbered d ts }
{}

/// Different texts are shown differently, and no known text is shown for another.
#[tactic(auto, using(crate::proofs::ShownLaws::are_distinct))]
pub fn pseudonyms_are_distinct()
    ensures { (lines d : List (List ℕ)) → length d < 2 ^ 63 → AreDistinct (is_known lines) d }
{}
