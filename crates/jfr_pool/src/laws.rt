//! Laws of chains and of entries that no other contract states. The functions do nothing; their contracts are
//! the laws.
ghost use Rattle.std.specs.Prelude.{◌≡◌, ◌↔◌, ℕ, List, Contains, IsTrue, Some};
ghost use Rattle.jfr_frame.specs.declared.framed.Framed.{Framed};
ghost use Rattle.jfr_frame.specs.Records.{AreRecords, starts_at};
ghost use Rattle.jfr_layout.specs.Classes.{Classes};
ghost use Rattle.jfr_pool.specs.Chains.{IsReadFrom};
ghost use Rattle.jfr_pool.specs.declared.entry.EntryAt.{EntryAt};
ghost use Rattle.jfr_pool.specs.declared.link.Link.{Link};
ghost use Rattle.jfr_pool.specs.Entries.{number_in_force};
ghost use Rattle.jfr_pool.specs.Laws.{AreComputed, HasOneChain, HaveOneList, IsComputedChain, IsLast};

/// From a checkpoint on there is a chain or a flaw, never both; and there is only one such chain, or one such
/// flaw.
pub fn one_chain()
    ensures { (c : List ℕ) (rs : List Framed) (at : ℕ) → AreRecords c rs → IsTrue (starts_at rs at 1) → HasOneChain c rs at }
{}

/// The chain from a checkpoint on, or its flaw, is what `chain_of` computes.
pub fn computed_chain()
    ensures { (c : List ℕ) (rs : List Framed) (r : Framed) → AreRecords c rs → Contains rs r → r.type_id ≡ 1 → IsComputedChain c rs r }
{}

/// Either the checkpoints of a chain have entries or one has a flaw, never both; and there is only one such
/// list of entries, or one such flaw.
pub fn one_list_of_entries()
    ensures { (c : List ℕ) (k : Classes) (ls : List Link) → IsReadFrom c ls → HaveOneList c k ls }
{}

/// The entries of a chain's checkpoints, or their flaw, are what `entries_of` computes.
pub fn computed_entries()
    ensures { (c : List ℕ) (k : Classes) (ls : List Link) → IsReadFrom c ls → AreComputed c k ls }
{}

/// The entry in force for a class and a key is the last one with both.
pub fn last_in_force()
    ensures { (es : List EntryAt) (target : ℕ × ℕ) (number : ℕ) → (number_in_force es target ≡ Some number) ↔ IsLast es target number }
{}
