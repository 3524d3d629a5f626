//! The laws. The functions do nothing; their contracts are the laws.
ghost use Rattle.std.specs.Prelude.{◌≡◌, ◌↔◌, ℕ, ◌+◌, ◌<◌, ◌≤◌, ◌^◌, Bool, List, Option, length};
ghost use Rattle.jfr_header.specs.Fronts.{Whole};
ghost use Rattle.jfr_layout.specs.Classes.{Classes, Sound};
ghost use Rattle.jfr_frame.specs.declared.framed.Framed.{Framed};
ghost use Rattle.jfr_frame.specs.Records.{IsRecord};
ghost use Rattle.jfr_value.specs.declared.leaf.Holder.{Holder};
ghost use Rattle.jfr_value.specs.Values.{Value, Fits};
ghost use Rattle.jfr_pool.specs.declared.entry.EntryAt.{EntryAt};
ghost use Rattle.jfr_worklist.specs.Marks.{IsMarked};
ghost use Rattle.jfr_chunk.specs.Laws.{AreEvents};
ghost use Rattle.jfr_chunk.specs.Metas.{Names, new_metadata, remaining_classes};
ghost use Rattle.jfr_chunk.specs.Parts.{AreParts, EventAt, Parts};
ghost use Rattle.jfr_chunk.specs.Reach.{Reached, Used, kept_by, marked};
ghost use Rattle.jfr_rewrite.specs.Changed.{Change, IsReadChanged, KeepsFit};
ghost use Rattle.jfr_rewrite.specs.Paths.{MarksMet, MarksOnlyMet, MeansChanged, MeetsChanged, MetBy, Retargets, Stops};
ghost use Rattle.jfr_rewrite.specs.Rewrite.{Rewrite, fewest_or_five, old_width, rewritten};
ghost use Rattle.jfr_rewrite.specs.Rewritten.{Carries, CarriesAll, Describes, IsChangedEntry, IsChangedEvent, IsRewritten, OneToOne, Suits, metadata_bytes};

/// A changed value is read by the format of its shape, if the change keeps what fits. It has the same shape, and
/// its leaves are the changed ones.
#[tactic(auto, using(crate::proofs::ChangeLaws::read_changed))]
pub fn changed_values_are_read()
    ensures { (k : Classes) (ch : Change) (h : Option Holder) (v : Value) → Sound k → KeepsFit k ch → Fits k v → IsReadChanged k ch h v }
{}

/// A width carries the size of a record: the old width if the record isn't longer than it was, and the fewest
/// bytes, or five, below 2^30. If a width carries each size below 2^30, it carries all sizes of an output below
/// 2^30.
#[tactic(auto, using(crate::proofs::Sizes::old_width_carries, crate::proofs::Sizes::fewest_or_five_carries, crate::proofs::Carried::carries_all))]
pub fn sizes_are_carried()
    ensures old { (c : List ℕ) (r : Framed) (n : ℕ) → IsRecord c r → old_width r n + n ≤ r.size → Carries (old_width r n) n }
    ensures fewest { (r : Framed) (n : ℕ) → n < 2 ^ 30 → Carries (fewest_or_five r n) n }
    ensures all { (w : Rewrite) (p : Parts) (kept : List EventAt) (entries : List EntryAt) → ((r : Framed) (n : ℕ) → n < 2 ^ 30 → Carries (w.width r n) n) → length (rewritten w p kept entries) < 2 ^ 30 → CarriesAll w p kept entries }
{}

/// The metadata record that `new_metadata` gives an output, or the chunk's if it gives none, describes the
/// remaining classes. They suit what remains if all entries that remain are reached.
#[tactic(auto, using(crate::proofs::Remaining::describes_remaining, crate::proofs::Remaining::suits_remaining))]
pub fn remaining_classes_are_described()
    ensures describes { (names : Names) (p : Parts) (kept : List EventAt) → (a : AreParts p) → AreEvents p kept → Describes (metadata_bytes (new_metadata names p kept) p a.metadata_record) (remaining_classes names p kept) }
    ensures suits { (names : Names) (p : Parts) (kept : List EventAt) (marks : List Bool) → AreParts p → AreEvents p kept → ((n : ℕ) → IsMarked marks n → Reached p kept n) → Suits p kept (marked marks p.entries) (remaining_classes names p kept) }
{}

/// A rewritten chunk below 2^30 bytes is accepted, with these events and entries, each changed, and with the
/// classes that its metadata record describes: if the chunk is accepted, the change keeps what fits, the classes
/// suit what remains, and all sizes are carried.
#[tactic(auto, using(crate::proofs::Accepted::is_rewritten))]
pub fn rewritten_chunks_are_accepted()
    ensures { (w : Rewrite) (p : Parts) (flags marks : List Bool) (m : Classes) → (a : AreParts p) → Whole p.bytes → KeepsFit p.classes w.change → Describes (metadata_bytes w.metadata p a.metadata_record) m → Suits p (kept_by p flags) (marked marks p.entries) m → length (rewritten w p (kept_by p flags) (marked marks p.entries)) < 2 ^ 30 → CarriesAll w p (kept_by p flags) (marked marks p.entries) → IsRewritten w p (kept_by p flags) (marked marks p.entries) m }
{}

/// The law of paths with changed values: if the events of two chunks correspond, and so do the entries in force
/// that paths from them meet, each path leads to a node from the first and to the changed node from the second, or
/// from both nowhere. The events of the second use exactly the new keys of what is met (`used`). If entries keep
/// their keys, it suffices that all that are met remain (`same_keys`); if no others do, all are reached (`reached`).
#[tactic(auto, using(crate::proofs::MeaningLaws::means_changed, crate::proofs::InForce::same_keys_meet, crate::proofs::UsedLaws::used_is_met, crate::proofs::UsedLaws::all_reached))]
pub fn paths_lead_to_changed_leaves()
    ensures paths { (ch : Change) (key : ℕ × ℕ → ℕ) (stops : Stops) (p q : Parts) (kept others : List EventAt) → AreParts p → AreParts q → AreEvents p kept → AreEvents q others → KeepsFit p.classes ch → Retargets p.classes ch stops key → MeetsChanged ch key stops p q kept → OneToOne (IsChangedEvent ch p q) kept others → OneToOne (MeansChanged ch stops p q) kept others }
    ensures used { (ch : Change) (key : ℕ × ℕ → ℕ) (stops : Stops) (p q : Parts) (kept others : List EventAt) → AreParts p → AreParts q → AreEvents p kept → AreEvents q others → KeepsFit p.classes ch → Retargets p.classes ch stops key → MeetsChanged ch key stops p q kept → OneToOne (IsChangedEvent ch p q) kept others → (u : ℕ × ℕ) → Used q others u ↔ MetBy key stops p kept u }
    ensures same_keys { (w : Rewrite) (stops : Stops) (p q : Parts) (kept : List EventAt) (marks : List Bool) → ((t : ℕ × ℕ) → w.key t ≡ t.1) → OneToOne (IsChangedEntry w p q) (marked marks p.entries) q.entries → MarksMet stops p kept marks → MeetsChanged w.change w.key stops p q kept }
    ensures reached { (w : Rewrite) (stops : Stops) (p q : Parts) (kept others : List EventAt) (marks : List Bool) → ((t : ℕ × ℕ) → w.key t ≡ t.1) → ((u : ℕ × ℕ) → Used q others u ↔ MetBy w.key stops p kept u) → OneToOne (IsChangedEntry w p q) (marked marks p.entries) q.entries → MarksOnlyMet stops p kept marks → (n : ℕ) → n < length q.entries → Reached q others n }
{}
