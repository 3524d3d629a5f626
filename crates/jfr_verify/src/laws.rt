//! Laws of receipts and of their checker. The functions do nothing; their contracts are the laws.
ghost use Rattle.std.specs.Prelude.{List, Bool, Option, ℕ};
ghost use Rattle.jfr_base.specs.declared.flaw.Refusal.{Refusal};
ghost use Rattle.jfr_filter.specs.Filters.{Given};
ghost use Rattle.jfr_chunk.specs.Parts.{AreParts, EventAt, Parts};
ghost use Rattle.jfr_chunk.specs.Reach.{kept_by};
ghost use Rattle.jfr_verify.specs.Checked.{HasAnswer, HasOneAnswer};
ghost use Rattle.jfr_verify.specs.Laws.{AllReached, IsKeptPassed, IsVerified, Passes};
ghost use Rattle.jfr_verify.specs.Receipts.{IsReceiptOf, receipt_of};
ghost use Rattle.jfr_verify.specs.Recordings.{IsRead};
ghost use Rattle.jfr_verify.specs.Streams.{IsComparison};
ghost use Rattle.jfr_verify.specs.Verdicts.{HasOneVerdict, HasVerdict, HasVerifiedScrubs, Three};

/// If a pair of chunks passes the checks, the output means the same as the input, its classes are classes of
/// the input, and its entries are copies of exactly the entries that the kept events reach, whoever made the
/// output and the receipt.
pub fn passed_is_verified()
    ensures { (p q : Parts) (flags : List Bool) (receipt : List ℕ) → AreParts p → AreParts q → Passes p q (kept_by p flags) receipt → IsVerified p q (kept_by p flags) }
{}

/// If the events of a chunk reach each of its entries, `receipt_of` gives a receipt of the chunk.
pub fn receipt_of_reached()
    ensures { (p : Parts) → AreParts p → AllReached p → IsReceiptOf (receipt_of p) p }
{}

/// The output of a scrub passes the checks with its own receipt, whichever classes it describes.
pub fn kept_is_passed()
    ensures { (p : Parts) (flags : List Bool) → AreParts p → IsKeptPassed p (kept_by p flags) }
{}

/// No two answers are right for a pair of chunks and the bytes that are left of the receipts.
pub fn answer_is_unique()
    ensures { (p q : Parts) (kept : List EventAt) (rest : List ℕ) → HasOneAnswer p q kept rest }
{}

/// An answer is right for each pair of chunks and all bytes that are left of the receipts.
pub fn answer_exists()
    ensures { (p q : Parts) (kept : List EventAt) (rest : List ℕ) → HasAnswer p q kept rest }
{}

/// Comparing two lists of chunks has exactly one verdict. If all pairs are verified, each output means the
/// same as its input. The outputs of a scrub are verified with their own receipts, joined.
pub fn streams_are_compared()
    ensures { (g : Given) (ps : List Parts) (end : Option Refusal) (qs : List Parts) (rest : List ℕ) (n : ℕ) → IsComparison g ps end qs rest n }
{}

/// The chunks that are read of a recording are whole, and are all of its chunks if none is refused.
pub fn recordings_are_read()
    ensures { (x : List ℕ) → IsRead x }
{}

/// No two verdicts are right for three files, and one is if they exist.
pub fn verdict_is_unique()
    ensures one { (g : Given) (t : Three) → HasOneVerdict g t }
    ensures there { (g : Given) (t : Three) → HasVerdict g t }
{}

/// The output of a scrub and the receipts of its chunks are verified, whichever classes the output describes.
pub fn scrubs_are_verified()
    ensures { (g : Given) (t : Three) → HasVerifiedScrubs g t }
{}
