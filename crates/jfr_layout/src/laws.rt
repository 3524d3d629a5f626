//! Laws of sound classes and of agreement that no other contract states. The functions do nothing; their
//! contracts are the laws.
ghost use Rattle.jfr_layout.specs.Classes.{Classes, Sound};
ghost use Rattle.jfr_layout.specs.Laws.{AgreeOnFields, AreKnown, EndsInline, AreFound};

/// In a sound list no two classes have the same id, and no two fields of a class the same name.
#[tactic(auto, using(crate::proofs::SoundLaws::are_found))]
pub fn ids_are_found()
    ensures { (k : Classes) → Sound k → AreFound k }
{}

/// In a sound list each field's class is known, and has fields if it is composite and its values are inline.
#[tactic(auto, using(crate::proofs::SoundLaws::are_known))]
pub fn classes_are_known()
    ensures { (k : Classes) → Sound k → AreKnown k }
{}

/// In a sound list values end: at most 33 composite classes are nested on the way to a leaf.
#[tactic(auto, using(crate::proofs::SoundLaws::ends_inline))]
pub fn values_end()
    ensures { (k : Classes) → Sound k → EndsInline k }
{}

/// Lists that agree on a class agree on the classes of its fields.
#[tactic(auto, using(crate::proofs::SoundLaws::agree_on_fields))]
pub fn fields_agree()
    ensures { (k m : Classes) → AgreeOnFields k m }
{}
