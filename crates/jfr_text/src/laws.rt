//! Laws of strings that no other contract states. The functions do nothing; their contracts are the laws.
ghost use Rattle.std.specs.Prelude.{◌≡◌, ◌≤◌, ℕ, List, Bool, length, slice_range, true};
ghost use Rattle.jfr_base.specs.declared.reason.Reason.{Reason};
ghost use Rattle.jfr_base.specs.Formats.{Exactly, Fails, Reads};
ghost use Rattle.jfr_text.specs.Spans.{first_integers};
ghost use Rattle.jfr_text.specs.Strings.{Content, SpellAll, IsString, IsAllowed, string_format};

/// The bytes of a string determine its content.
pub fn one_content()
    ensures { (bytes : List ℕ) (a b : Content) → IsString bytes a → IsString bytes b → a ≡ b }
{}

/// The format of strings reads exactly the strings of the grammar, with keys and without.
pub fn format_reads_strings()
    ensures grammar { (keyed : Bool) (bytes : List ℕ) (content : Content) → Exactly (string_format keyed) bytes content → IsString bytes content × IsAllowed keyed content }
    ensures format { (keyed : Bool) (bytes : List ℕ) (content : Content) → IsString bytes content → IsAllowed keyed content → Exactly (string_format keyed) bytes content }
{}

/// A valid string is always read, whatever follows it, and never refused.
pub fn strings_are_read()
    ensures read { (chunk : List ℕ) (at to end : ℕ) (content : Content) → at ≤ to → to ≤ end → end ≤ length chunk → IsString (slice_range chunk at to) content → Reads (string_format true) chunk end at content to }
    ensures not_refused { (chunk : List ℕ) (at to end : ℕ) (content : Content) → at ≤ to → to ≤ end → end ≤ length chunk → IsString (slice_range chunk at to) content → (o : ℕ) (why : Reason) → Fails (string_format true) chunk end at o why → ⊥ }
{}

/// If bytes are the spellings of integers, one after another, these are the integers that are read from the
/// front. So the integers of a span are those that its payload spells.
pub fn spelled_integers()
    ensures { (bytes integers : List ℕ) → SpellAll bytes integers → first_integers (length integers) bytes ≡ integers }
{}
