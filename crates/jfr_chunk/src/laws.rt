//! Laws of the parts of accepted chunks. The functions do nothing; their contracts are the laws.
ghost use Rattle.std.specs.Prelude.{◌≡◌, ℕ, ◌≤◌, List, length};
ghost use Rattle.jfr_chunk.specs.Laws.{AreEvents, AreReached, HasOneAnswer, IsComputed, SameOnPaths, SameRecords};
ghost use Rattle.jfr_chunk.specs.Meaning.{SameMeaning};
ghost use Rattle.jfr_chunk.specs.Parts.{AreParts, EventAt, Parts};

/// A chunk either has parts, or is refused for exactly one flaw.
pub fn one_answer()
    ensures { (c : List ℕ) → 68 ≤ length c → HasOneAnswer c }
{}

/// The parts of a chunk, or its flaw, are those that `read_parts` computes.
pub fn computed_answer()
    ensures { (c : List ℕ) → 68 ≤ length c → IsComputed c }
{}

/// The bytes of a chunk determine its parts.
pub fn one_parts()
    ensures { (p q : Parts) → AreParts p → AreParts q → p.bytes ≡ q.bytes → p ≡ q }
{}

/// The law of paths. Let the kept events of two chunks correspond one to one, with the same class, equal
/// record bytes and class lists that agree. If for each reference on a path from a kept event both chunks
/// have the same entry in force, or neither has one, then the chunks mean the same. Paths may have any length
/// and go through cycles.
pub fn same_paths()
    ensures { (p q : Parts) (kept others : List EventAt) → AreParts p → AreParts q → AreEvents p kept → AreEvents q others → SameRecords p q kept others → SameOnPaths p q kept → SameMeaning p q kept others }
{}

/// The marked entries are exactly those that paths of any length reach from the kept events.
pub fn marked_by_paths()
    ensures { (p : Parts) (kept : List EventAt) → AreParts p → AreEvents p kept → AreReached p kept }
{}
