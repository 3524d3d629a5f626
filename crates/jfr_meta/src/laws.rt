//! Laws of metadata records. The functions do nothing; their contracts are the laws.
ghost use Rattle.std.specs.Prelude.{ℕ, List};
ghost use Rattle.jfr_frame.specs.declared.framed.Framed.{Framed};
ghost use Rattle.jfr_frame.specs.Records.{IsRecord};
ghost use Rattle.jfr_layout.specs.Classes.{Classes};
ghost use Rattle.jfr_meta.specs.Body.{Body};
ghost use Rattle.jfr_meta.specs.Described.{IsMetadata};
ghost use Rattle.jfr_meta.specs.Laws.{HasOneDescription, SpellsBody};

/// A metadata record either has exactly one reading, or is refused for exactly one flaw.
pub fn one_description()
    ensures { (x : List ℕ) (r : Framed) → IsRecord x r → HasOneDescription x r }
{}

/// The body of a record is spelled by its bytes: its four integers, its strings, and its tree, element by
/// element.
pub fn elements_are_spelled()
    ensures { (x : List ℕ) (r : Framed) (b : Body) (k : Classes) → IsMetadata x r b k → SpellsBody x r b }
{}
