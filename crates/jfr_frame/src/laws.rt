//! Laws of records that no other contract states. The functions do nothing; their contracts are the laws.
ghost use Rattle.std.specs.Prelude.{ℕ, ◌≤◌, List, length};
ghost use Rattle.jfr_frame.specs.declared.framed.Framed.{Framed};
ghost use Rattle.jfr_frame.specs.Laws.{HasOneFraming, IsComputed};
ghost use Rattle.jfr_frame.specs.Records.{AreRecords, Rising};

/// Either records cover a chunk or it has a flaw, never both; and there is only one such list of records, or
/// one such flaw.
pub fn one_framing()
    ensures { (c : List ℕ) → 68 ≤ length c → HasOneFraming c }
{}

/// The records of a chunk, or its flaw, are what `records_of` computes.
pub fn computed_framing()
    ensures { (c : List ℕ) → 68 ≤ length c → IsComputed c }
{}

/// The records of a chunk are in the order of their offsets.
pub fn records_rise()
    ensures { (c : List ℕ) (rs : List Framed) → AreRecords c rs → Rising 68 rs }
{}
