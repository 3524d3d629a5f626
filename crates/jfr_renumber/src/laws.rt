//! Laws of renumbering. The functions do nothing; their contracts are the laws.
ghost use Rattle.std.specs.Prelude.{[], ◌∷◌, ◌++◌, if◌then◌else◌, ◌≡◌, ◌↔◌, ℕ, ◌≤◌, Bool, List, Contains, IsSome, Option};
ghost use Rattle.std.specs.List.{list_any};
ghost use Rattle.jfr_pool.specs.declared.entry.EntryAt.{EntryAt};
ghost use Rattle.jfr_layout.specs.Classes.{Classes, Sound};
ghost use Rattle.jfr_value.specs.Values.{Value, Fits};
ghost use Rattle.jfr_pool.specs.Entries.{in_force};
ghost use Rattle.jfr_header.specs.Fronts.{Whole};
ghost use Rattle.jfr_filter.specs.Filters.{Given};
ghost use Rattle.jfr_chunk.specs.Laws.{AreEvents};
ghost use Rattle.jfr_chunk.specs.Reach.{Used, kept_by};
ghost use Rattle.jfr_chunk.specs.Metas.{Names};
ghost use Rattle.jfr_chunk.specs.Scrub.{output_records};
ghost use Rattle.jfr_laws.specs.SameKept.{SameKept};
ghost use Rattle.jfr_chunk.specs.Refusal.{refusal_of};
ghost use Rattle.jfr_laws.specs.Told.{rendered};
ghost use Rattle.jfr_output.specs.Agreements.{RecordingsAgree};
ghost use Rattle.jfr_output.specs.Recordings.{recording_output};
ghost use Rattle.jfr_chunk.specs.Parts.{AreParts, EventAt, Parts};
ghost use Rattle.jfr_renumber.specs.Laws.{AgreeOnUsed, KeepsMeaning, RekeyedRecords};
ghost use Rattle.jfr_renumber.specs.Meaning.{AreNewKeys, AreRekeyedEntries, IsInOrder, IsRenumbered, RekeyedMeaning};
ghost use Rattle.jfr_renumber.specs.Rekeyed.{rekeyed_pair};
ghost use Rattle.jfr_renumber.specs.Renumber.{assembled_by, firsts, firsts_with, new_bytes, new_key, renumber_with, together, used_keys};
ghost use Rattle.jfr_renumber.specs.Renumbers.{renumbered};
ghost use Rattle.jfr_renumber.specs.SameOrder.{SameOrder};
ghost use Rattle.jfr_renumber.specs.ToldAnew.{told_anew};

/// A value with new keys is read by its format. It has the same shape and the same leaves, except for the
/// keys.
#[tactic(auto, using(crate::proofs::LawLaws::keeps_meaning))]
pub fn rekeyed_values_are_read()
    ensures { (new : ℕ × ℕ → ℕ) (k : Classes) (v : Value) → Sound k → Fits k v → KeepsMeaning new k v }
{}

/// A class and a key are in the computed list of used keys exactly if a path of a kept event leads to a
/// reference to them.
pub fn used_keys_are_used()
    ensures { (p : Parts) (kept : List EventAt) → AreParts p → AreEvents p kept → (t : ℕ × ℕ) → Contains (used_keys p kept) t ↔ Used p kept t }
{}

/// No new key is larger than the old one. Two used keys of a class have equal new keys exactly if the old ones
/// are together, and the new keys of the used keys of a class have no gaps. They are in the order of the
/// smallest keys of the groups.
#[tactic(auto, using(crate::proofs::LawLaws::new_keys_are, crate::proofs::LawLaws::new_keys_rise))]
pub fn keys_are_numbered()
    ensures keys { (p : Parts) (kept : List EventAt) → AreParts p → AreEvents p kept → AreNewKeys p kept (new_key p kept) }
    ensures order { (p : Parts) (kept : List EventAt) → AreParts p → AreEvents p kept → IsInOrder p kept (new_key p kept) }
{}

/// The law of paths with new keys. Let the keys be new keys in the sense of `AreNewKeys`, and let the class lists
/// of two chunks agree on the classes of used keys. Let the entries of the second chunk be the first of each
/// group with new keys, and its events the kept ones with new keys in their fields. Then each path leads to the
/// same in both, except for the keys. Whatever its events are, a used key has an entry in force in the first
/// chunk exactly if its new key has one in the second (`missing`).
#[tactic(auto, using(crate::proofs::LawLaws::renamed_the_same, crate::proofs::LawLaws::same_missing))]
pub fn renamed_paths()
    ensures paths { (p q : Parts) (kept others : List EventAt) (new : ℕ × ℕ → ℕ) → AreParts p → AreEvents p kept → AreParts q → AreEvents q others → AreNewKeys p kept new → AgreeOnUsed p q kept → AreRekeyedEntries new p q (firsts p kept) q.entries → RekeyedRecords new p q kept others → RekeyedMeaning new p q kept others }
    ensures missing { (p q : Parts) (kept : List EventAt) (new : ℕ × ℕ → ℕ) → AreParts p → AreEvents p kept → AreParts q → AreNewKeys p kept new → AgreeOnUsed p q kept → AreRekeyedEntries new p q (firsts p kept) q.entries → (t : ℕ × ℕ) → Used p kept t → IsSome (in_force p.entries t) ↔ IsSome (in_force q.entries (rekeyed_pair new t)) }
{}

/// The output of an accepted chunk with new keys is accepted, for every choice of the events that are kept. It
/// has exactly these events and, of the entries that they reach, the first of each group, and means the same
/// except for the keys.
pub fn renumbered_means_the_same()
    ensures { (names : Names) (p : Parts) (flags : List Bool) → Whole p.bytes → AreParts p → IsRenumbered names p (kept_by p flags) }
{}

/// An entry that is added at the end of a list is one of its first entries, unless the test says that an
/// earlier entry is the same.
#[tactic(auto, using(crate::proofs::FirstsLaws::first_next))]
pub fn firsts_one_by_one()
    ensures { (same : EntryAt → EntryAt → Bool) (es : List EntryAt) (e : EntryAt) → firsts_with same (es ++ e ∷ []) ≡ firsts_with same es ++ (if list_any (λ f. same f e) es then [] else e ∷ []) }
{}

/// Keys that agree with the new ones on all that is used give the same output.
#[tactic(auto, using(crate::proofs::AgreeLaws::output_same))]
pub fn only_used_keys_matter()
    ensures { (slim : Option (List ℕ)) (p : Parts) (flags : List Bool) (new : ℕ × ℕ → ℕ) → AreParts p → ((t : ℕ × ℕ) → Used p (kept_by p flags) t → new t ≡ new_key p (kept_by p flags) t) → assembled_by p (new_bytes new p (kept_by p flags) (firsts p (kept_by p flags))) (output_records slim p (kept_by p flags)) ≡ renumber_with slim p (kept_by p flags) }
{}

/// New keys depend only on the order of the old ones, and on which of them are together. If the used keys of two
/// chunks correspond in this way, they have equal new keys.
#[tactic(auto, using(crate::proofs::SameOrderLaws::same_new_keys))]
pub fn new_keys_depend_on_order()
    ensures { (p q : Parts) (kept others : List EventAt) (to : ℕ × ℕ → ℕ × ℕ) → SameOrder (together p) (together q) (used_keys p kept) (used_keys q others) to → (t : ℕ × ℕ) → Contains (used_keys p kept) t → new_key p kept t ≡ new_key q others (to t) }
{}

/// The output of an accepted chunk with new keys is made of what `told_anew` lists, and of nothing else, whatever
/// events are kept and whatever metadata record is written.
#[tactic(auto, using(crate::proofs::OnlyKeptAnew::anew_tells))]
pub fn output_is_what_it_tells()
    ensures { (slim : Option (List ℕ)) (p : Parts) (kept : List EventAt) → AreParts p → renumber_with slim p kept ≡ rendered (told_anew slim p kept) }
{}

/// If two accepted chunks agree on all that remains, their outputs with new keys are equal, byte for byte; and so are
/// those of recordings that agree chunk by chunk. So nothing else can be found out from these outputs.
#[tactic(auto, using(crate::proofs::OnlyKeptAnew::same_renumber, crate::proofs::AgreementLaws::recordings_same))]
pub fn only_what_remains_matters()
    ensures chunks { (slim other : Option (List ℕ)) (p q : Parts) (kept others : List EventAt) → AreParts p → AreParts q → AreEvents p kept → AreEvents q others → SameKept slim other p q kept others → renumber_with slim p kept ≡ renumber_with other q others }
    ensures recordings { (g : Given) (x y : List ℕ) → RecordingsAgree g x y → recording_output refusal_of (renumbered g) x ≡ recording_output refusal_of (renumbered g) y }
{}
