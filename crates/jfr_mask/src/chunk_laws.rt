//! Laws of masked values, chunks and recordings. The functions do nothing; their contracts are the laws.
ghost use Rattle.std.specs.Prelude.{◌≡◌, ℕ, ◌<◌, ◌^◌, Bool, true, List, [], length, map, Option, None, Some};
ghost use lib.Utf8.{scalars};
ghost use Rattle.jfr_header.specs.Fronts.{Whole};
ghost use Rattle.jfr_layout.specs.Classes.{Sound};
ghost use Rattle.jfr_layout.specs.declared.kind.Kind.TheVariants.{Text};
ghost use Rattle.jfr_layout.specs.declared.shape.Shape.{Shape};
ghost use Rattle.jfr_value.specs.declared.leaf.Holder.{Holder};
ghost use Rattle.jfr_value.specs.declared.leaf.LeafKind.TheVariants.{Base};
ghost use Rattle.jfr_value.specs.Nodes.{IsNode, NodeAt};
ghost use Rattle.jfr_value.specs.Values.{Fits, Single, Value};
ghost use Rattle.jfr_worklist.specs.Marks.{IsMarked};
ghost use Rattle.jfr_chunk.specs.Laws.{AreEvents};
ghost use Rattle.jfr_chunk.specs.Parts.{AreParts, EventAt, Parts};
ghost use Rattle.jfr_chunk.specs.Paths.{text_of};
ghost use Rattle.jfr_chunk.specs.Reach.{Reached, kept_by};
ghost use Rattle.jfr_rewrite.specs.Changed.{IsReadChanged, changed};
ghost use Rattle.jfr_rewrite.specs.Paths.{MarksMet, MarksOnlyMet, Stops};
ghost use Rattle.jfr_mask.specs.Headline.{AllFit, AllMasked, AllNumbered, AllReached, IsAccepted, IsMasked, MeansTheSame};
ghost use Rattle.jfr_mask.specs.MaskOf.{Chosen, Masking, dictionary_after, last_dictionary, mask_all, mask_of};
ghost use Rattle.jfr_mask.specs.Masked.{masking, own_text, string_bytes, string_text};
ghost use Rattle.jfr_mask.specs.Pseudonyms.{IsDictionary, shown};
ghost use Rattle.jfr_mask.specs.ReachBut.{marks_but};
ghost use Rattle.jfr_mask.specs.Secrecy.{AlikeAll, AlikeChunk, AlikeValue, IsExchange};

use jfr_rewrite::{
    paths_lead_to_changed_leaves, remaining_classes_are_described, rewritten_chunks_are_accepted,
    sizes_are_carried,
};

/// A masked value is read by the format of its shape, which it keeps, and its leaves are the changed ones. The text of
/// a masked string is that of its node, to which keys lead (`text`); what is written for a text has this text (`shown`).
#[tactic(auto, using(crate::proofs::MaskLaws::read_masked, crate::proofs::MaskLaws::text_written, crate::proofs::TextLaws::text_is))]
pub fn masked_values_are_read()
    ensures read { (masked : Option Holder → Bool) (show : List ℕ → List ℕ) (p : Parts) (h : Option Holder) (v : Value) → Sound p.classes → Fits p.classes v → IsReadChanged p.classes (masking masked show p) h v }
    ensures text { (p : Parts) (n : NodeAt) (s : Shape) (b : List ℕ) (key : Option ℕ) → Sound p.classes → IsNode p.classes p.bytes n (Single s (Base Text) b key) → string_text p s.class b key ≡ text_of p n }
    ensures shown { (t : List ℕ) → scalars t ≡ true → own_text (string_bytes (Some t)) ≡ Some t }
    ensures null { own_text (string_bytes None) ≡ None }
{}

/// The entries that remain are exactly those in force that a kept event reaches by a path that goes no further where
/// Follow stops, as it does at masked strings: all of these (`met`), and only these (`only`). So each is reached from the
/// kept events (`reached`).
#[tactic(auto, using(crate::proofs::Remains::remains_met, crate::proofs::Remains::only_remains_met, crate::proofs::Remains::remains_reached))]
pub fn what_remains_is_reached()
    ensures met { (stops : Stops) (p : Parts) (kept : List EventAt) → AreParts p → AreEvents p kept → MarksMet stops p kept (marks_but stops p kept) }
    ensures only { (stops : Stops) (p : Parts) (kept : List EventAt) → AreParts p → AreEvents p kept → MarksOnlyMet stops p kept (marks_but stops p kept) }
    ensures reached { (stops : Stops) (p : Parts) (kept : List EventAt) → AreParts p → AreEvents p kept → (number : ℕ) → IsMarked (marks_but stops p kept) number → Reached p kept number }
{}

/// The masked chunk, if it is below 2^30 bytes, is accepted.
#[tactic(auto)]
pub fn masked_chunks_are_accepted()
    ensures { (m : Masking) (d : List (List ℕ)) (p : Parts) (flags : List Bool) → AreParts p → Whole p.bytes → length (mask_of m d p (kept_by p flags)) < 2 ^ 30 → IsAccepted m d p (kept_by p flags) }
{
    remaining_classes_are_described();
    sizes_are_carried();
    rewritten_chunks_are_accepted();
}

/// The events of the masked chunk mean the same as the kept ones, except for the masked strings (`paths`), and each of
/// its entries is reached from them (`reached`).
#[tactic(auto)]
pub fn masked_chunks_mean_the_same()
    ensures paths { (m : Masking) (d : List (List ℕ)) (p : Parts) (flags : List Bool) → AreParts p → (accepted : IsAccepted m d p (kept_by p flags)) → MeansTheSame m d p accepted.parts (kept_by p flags) }
    ensures reached { (m : Masking) (d : List (List ℕ)) (p : Parts) (flags : List Bool) → AreParts p → (accepted : IsAccepted m d p (kept_by p flags)) → AllReached accepted.parts }
{
    paths_lead_to_changed_leaves();
}

/// One dictionary has all masked texts of a recording, the one after its last chunk: each text has its number there in the
/// chunk's own dictionary, too. So, by the law `pseudonyms_are_distinct`, texts have equal pseudonyms in a recording
/// exactly if they are equal.
#[tactic(auto, using(crate::proofs::DictionaryLaws::all_numbered, crate::proofs::DictionaryLaws::is_dictionary))]
pub fn numbers_hold_in_all_chunks()
    ensures distinct { (m : Masking) (cs : List Chosen) → IsDictionary (last_dictionary m [] cs) }
    ensures same { (m : Masking) (cs : List Chosen) → AllNumbered m (last_dictionary m [] cs) [] cs }
{}

/// Values that differ only in masked texts are equal when each is masked with its dictionary, if the texts of the second
/// dictionary are the exchanged ones (`value`). So are whole chunks, byte for byte (`chunk`), and the dictionaries after
/// them correspond again (`dictionary`). Each chunk differs so from itself (`itself`).
#[tactic(auto, using(crate::proofs::SecrecyLaws::masked_alike, crate::proofs::EqualOutputs::masked_equal, crate::proofs::EqualOutputs::dictionary_exchanged, crate::proofs::ItselfLaws::chunk_itself, crate::proofs::ItselfLaws::no_exchange))]
pub fn masks_keep_secrets()
    ensures value { (known : List ℕ → Bool) (g : List ℕ → List ℕ) → IsExchange known g → (masked : Option Holder → Bool) (p q : Parts) (d : List (List ℕ)) (h : Option Holder) (v w : Value) → AlikeValue masked g p q h v w → changed (masking masked (shown known (map g d)) q) h w ≡ changed (masking masked (shown known d) p) h v }
    ensures chunk { (m : Masking) (g : List ℕ → List ℕ) → IsExchange m.known g → (p q : Parts) (kept others : List EventAt) → AlikeChunk m g p q kept others → (d : List (List ℕ)) → mask_of m (map g d) q others ≡ mask_of m d p kept }
    ensures dictionary { (m : Masking) (g : List ℕ → List ℕ) → IsExchange m.known g → (p q : Parts) (kept others : List EventAt) → AlikeChunk m g p q kept others → (d : List (List ℕ)) → dictionary_after m (map g d) q others ≡ map g (dictionary_after m d p kept) }
    ensures itself { (m : Masking) (p : Parts) (kept : List EventAt) → IsExchange m.known (λ t. t) × AlikeChunk m (λ t. t) p p kept kept }
{}

/// Two recordings that differ only in masked texts, chunk by chunk, have equal outputs, byte for byte.
#[tactic(auto, using(crate::proofs::EqualOutputs::all_equal))]
pub fn equal_outputs()
    ensures { (m : Masking) (g : List ℕ → List ℕ) → IsExchange m.known g → (cs es : List Chosen) → AlikeAll m g cs es → mask_all m [] es ≡ mask_all m [] cs }
{}

/// A masked chunk below 2^30 bytes is accepted, its events mean the same, except for the masked strings, and each of its
/// entries is reached from them (`one`). So for each chunk of a recording, with the dictionary that goes on (`all`).
#[tactic(auto)]
pub fn outputs_are_masked()
    ensures one { (m : Masking) (d : List (List ℕ)) (p : Parts) (flags : List Bool) → AreParts p → Whole p.bytes → length (mask_of m d p (kept_by p flags)) < 2 ^ 30 → IsMasked m d p (kept_by p flags) }
    ensures all { (m : Masking) (d : List (List ℕ)) (cs : List Chosen) → AllFit m d cs → AllMasked m d cs }
{
    masked_chunks_are_accepted();
    masked_chunks_mean_the_same();
}
