//! Leaves with new keys.
ghost use Rattle.std.specs.Prelude.{◌≡◌, ℕ, ◌<◌, ◌++◌, ◌∷◌, List, length, slice_index, None, Some, option_map, IfSome, OnOk};
ghost use Rattle.jfr_base.specs.Integer.{IsSpellingWithin, Spells};
ghost use Rattle.jfr_layout.specs.declared.kind.Kind.TheVariants as kinds;
ghost use Rattle.jfr_value.specs.declared.leaf.LeafKind.TheVariants as leaf_kinds;
ghost use Rattle.jfr_value.specs.Leaves.{KeyIsSpelled, leaf_of, spelled_key};
ghost use Rattle.jfr_renumber.specs.Rewriting.{leaf_with, spelled_anew};

use jfr_base::{NoMemory, known_integer, push_var};
use jfr_layout::Kind;
use jfr_text::{KEY_BYTE, is_key};
use jfr_value::{Leaf, LeafKind};

/// The new key of each class and key.
pub(crate) trait NewKeys {
    // The new keys.
    ghost keys: { Self → ℕ × ℕ → ℕ };

    /// The new key of a class and a key.
    fn new_key(&self, class: u64, key: u64) -> u64
        ensures { result ≡ keys self.now (class, key) };

    /// The law that the key 0 stays 0.
    fn zero_is_kept(&self)
        ensures { (class : ℕ) → keys self.now (class, 0) ≡ 0 };
}

/// What a leaf with a key becomes.
#[derive(Clone, Copy)]
pub(crate) enum NewKey {
    /// A reference with this key.
    Reference(u64),
    /// A string that is this key.
    StringKey(u64),
}

impl NewKey {
    /// Appends its bytes.
    #[inline(always)]
    pub(crate) fn put(self, out: &mut Vec<u8>) -> Result<(), NoMemory>
        ensures ok { OnOk result (out.new.items ≡ out.old.items ++ spelled_anew self) }
    {
        match self {
            NewKey::Reference(key) => Ok(push_var(out, key)?),
            NewKey::StringKey(key) => {
                out.push(KEY_BYTE)?;
                Ok(push_var(out, key)?)
            }
        }
    }
}

/// What a leaf becomes, if it may become other bytes: a reference, but not one with the key 0 in one byte, or a string
/// that is a key.
#[inline(always)]
pub(crate) fn new_leaf<N: NewKeys>(leaf: &Leaf<'_>, new: &N) -> Option<NewKey>
    requires key { KeyIsSpelled (leaf_of leaf.now) }
    requires reference { (n : ℕ) → leaf.now.kind ≡ leaf_kinds.Key n → Spells leaf.now.spelled.now n }
    ensures same { result ≡ None → leaf_with (N.keys new.now) (leaf_of leaf.now) ≡ leaf.now.spelled.now }
    ensures becomes { IfSome result (λ made. spelled_anew made ≡ leaf_with (N.keys new.now) (leaf_of leaf.now)) }
{
    match leaf.kind {
        LeafKind::Key(key) => new_reference(leaf, key, new),
        LeafKind::Base(Kind::Text) => new_string(leaf, new),
        _ => None,
    }
}

/// As `new_leaf`, for a reference with this key.
#[inline(always)]
fn new_reference<N: NewKeys>(leaf: &Leaf<'_>, key: u64, new: &N) -> Option<NewKey>
    requires kind { leaf.now.kind ≡ leaf_kinds.Key key }
    requires reference { Spells leaf.now.spelled.now key }
    ensures same { result ≡ None → leaf_with (N.keys new.now) (leaf_of leaf.now) ≡ leaf.now.spelled.now }
    ensures becomes { IfSome result (λ made. spelled_anew made ≡ leaf_with (N.keys new.now) (leaf_of leaf.now)) }
{
    if key == 0 && leaf.spelled.len() <= 1 {
        new.zero_is_kept();
        return None;
    }
    Some(NewKey::Reference(new.new_key(leaf.class, key)))
}

/// As `new_leaf`, for a string. Most strings aren't keys, and for these nothing is called.
#[inline(always)]
fn new_string<N: NewKeys>(leaf: &Leaf<'_>, new: &N) -> Option<NewKey>
    requires kind { leaf.now.kind ≡ leaf_kinds.Base kinds.Text }
    requires key { KeyIsSpelled (leaf_of leaf.now) }
    ensures same { result ≡ None → leaf_with (N.keys new.now) (leaf_of leaf.now) ≡ leaf.now.spelled.now }
    ensures becomes { IfSome result (λ made. spelled_anew made ≡ leaf_with (N.keys new.now) (leaf_of leaf.now)) }
{
    if !is_key(leaf.spelled, 0, leaf.spelled.len()) {
        return None;
    }
    Some(NewKey::StringKey(new_string_key(leaf.class, leaf.spelled, new)))
}

/// The new key of a string of this class that is a key. It isn't inlined, so that the visit of values stays small.
#[inline(never)]
fn new_string_key<N: NewKeys>(class: u64, spelled: &[u8], new: &N) -> u64
    requires key { (0 < length spelled.now) × (slice_index spelled.now 0 ≡ 2) }
    requires spelled { (rest : List ℕ) → spelled.now ≡ 2 ∷ rest → IsSpellingWithin 8 rest }
    ensures { option_map (λ key. N.keys new.now (class, key)) (spelled_key spelled.now) ≡ Some result }
{
    let key = known_integer(spelled, 1, spelled.len()).value;
    new.new_key(class, key)
}
