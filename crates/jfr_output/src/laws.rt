//! Laws of the records and of the entries that remain. The functions do nothing; their contracts are the laws.
ghost use Rattle.std.specs.Prelude.{Bool, List};
ghost use Rattle.jfr_chunk.specs.Parts.{AreParts, Parts};
ghost use Rattle.jfr_chunk.specs.Reach.{marked};
ghost use Rattle.jfr_output.specs.RemainingRecords.{IsCursor};
ghost use Rattle.jfr_output.specs.Remaining.{NotFalling};

/// A cursor whose numbers are all 0 is one at the first record, as `next_remaining_record` requires.
pub fn cursors_start_at_zero()
    ensures { (p : Parts) (flags : List Bool) → AreParts p → IsCursor p flags (record { frame = 0; event = 0; link = 0 }) }
{}

/// Entries that are marked in a chunk are in the order of their checkpoints, as `entries_of` requires.
pub fn marked_entries_are_in_order()
    ensures { (p : Parts) (marks : List Bool) → AreParts p → NotFalling 0 (marked marks p.entries) }
{}
