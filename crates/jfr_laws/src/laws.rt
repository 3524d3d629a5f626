//! Laws of whole chunks. The functions do nothing; their contracts are the laws.
ghost use Rattle.std.specs.Prelude.{◌≡◌, ℕ, List, Bool, Option};
ghost use Rattle.jfr_filter.specs.Filters.{Given};
ghost use Rattle.jfr_header.specs.Fronts.{Whole};
ghost use Rattle.jfr_chunk.specs.Laws.{AreEvents};
ghost use Rattle.jfr_chunk.specs.Parts.{AreParts, EventAt, Parts};
ghost use Rattle.jfr_chunk.specs.Scrub.{scrub_with};
ghost use Rattle.jfr_chunk.specs.Metas.{Names};
ghost use Rattle.jfr_chunk.specs.Reach.{kept_by};
ghost use Rattle.std.specs.List.{AllByRecursion};
ghost use Rattle.jfr_meta.specs.Written.{IsText};
ghost use Rattle.jfr_laws.specs.Laws.{IsKept, IsSettled};
ghost use Rattle.jfr_laws.specs.SameKept.{SameKept};
ghost use Rattle.jfr_laws.specs.Told.{rendered, told};

/// The output of an accepted chunk is accepted, for every choice of the events that are kept and of the names
/// whose classes are described even without events. It has exactly these events and exactly the constants that
/// they reach, and means the same. Scrubbed with all its events kept it doesn't change.
pub fn scrubbed_is_kept()
    ensures { (names : Names) (p : Parts) (flags : List Bool) → Whole p.bytes → AreParts p → IsKept names p (kept_by p flags) }
{}

/// A filter keeps every event of the output that it gives for an accepted chunk. So scrubbing drops nothing
/// that the filter's verdicts depend on, though a thread filter follows paths.
pub fn filter_keeps_its_output()
    ensures { (g : Given) (p : Parts) → Whole p.bytes → AreParts p → IsSettled g p }
{}

/// The output of an accepted chunk is made of what `told` lists, and of nothing else, whatever events are kept
/// and whatever metadata record is written.
#[tactic(auto, using(crate::proofs::ToldLaws::scrub_tells))]
pub fn output_is_what_it_tells()
    ensures { (slim : Option (List ℕ)) (p : Parts) (kept : List EventAt) → AreParts p → scrub_with slim p kept ≡ rendered (told slim p kept) }
{}

/// If two accepted chunks agree on all that remains, their outputs are equal, byte for byte. So nothing else of a
/// chunk can be found out from its output.
#[tactic(auto, using(crate::proofs::OnlyKept::same_scrub))]
pub fn only_what_remains_matters()
    ensures { (slim other : Option (List ℕ)) (p q : Parts) (kept others : List EventAt) → AreParts p → AreParts q → AreEvents p kept → AreEvents q others → SameKept slim other p q kept others → scrub_with slim p kept ≡ scrub_with other q others }
{}

/// A chunk agrees with itself on all that remains, so the premise of `only_what_remains_matters` can be met.
pub fn chunk_agrees_with_itself()
    ensures { (slim : Option (List ℕ)) (p : Parts) (kept : List EventAt) → AreParts p → AreEvents p kept → SameKept slim slim p p kept kept }
{}
