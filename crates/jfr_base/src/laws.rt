//! Laws of spellings and of formats that no other contract states. The functions do nothing; their contracts
//! are the laws.
ghost use Rattle.std.specs.Prelude.{ℕ, ◌<◌, ◌≤◌, ◌^◌, List, length};
ghost use Rattle.jfr_base.specs.Formats.{Format};
ghost use Rattle.jfr_base.specs.Integer.{spell, Spells};
ghost use Rattle.jfr_base.specs.Laws.{AreBytes, HasOneAnswer, IsComputed, IsShortest, OneSpelling};

/// No spelling is a proper prefix of another, and each has one value.
pub fn one_spelling()
    ensures { OneSpelling }
{}

/// The shortest spelling of a value is made of bytes and spells the value, and no spelling of it is shorter.
pub fn shortest_spelling()
    ensures spells { (value : ℕ) → Spells (spell value) value }
    ensures shortest { (value : ℕ) → IsShortest value }
    ensures bytes { (value : ℕ) → value < 2 ^ 64 → AreBytes (spell value) }
{}

/// A format reads a value or fails, never both, and has one answer only.
pub fn one_answer<A>()
    ensures { (f : Format A) (x : List ℕ) (at end : ℕ) → at ≤ end → end ≤ length x → HasOneAnswer f x end at }
{}

/// A format's answer is what `run` computes.
pub fn computed_answer<A>()
    ensures { (f : Format A) (x : List ℕ) (at end : ℕ) → at ≤ end → end ≤ length x → IsComputed f x end at }
{}
