//! The numbers of the entries to which values refer, where their keys are spelled, and what they refer to without an
//! entry, collected while the ends of the values are found.
ghost use Rattle.std.specs.Prelude.{◌≡◌, [], ◌∷◌, false};
ghost use Rattle.jfr_chunk.specs.Refs.{AddsRefs};

use crate::key_places::KeyPlaces;
use crate::missing::MissingRefs;
use jfr_pool::Pools;
use jfr_value::{KeyAt, VisitKey};

/// Numbers of entries in force, in the order in which values refer to them, the places of the keys, and what has no
/// entry.
#[derive(Drop)]
pub(crate) struct ConstantRefs {
    pub numbers: Vec<u32>,
    /// Whether numbers are missing because memory ran out. A visit can't fail, so this is checked at the end.
    pub lacks: bool,
    /// Where the keys with an entry are spelled, in the same order.
    pub keys: KeyPlaces,
    /// The classes and keys without an entry.
    pub missing: MissingRefs,
    /// The number of the event whose values are visited.
    pub event: usize,
}

impl ConstantRefs {
    /// Empty lists, in the memory of earlier ones.
    pub fn new(
        memory: Vec<u32>,
        keys_memory: KeyPlaces,
        missing_memory: MissingRefs,
    ) -> ConstantRefs
        ensures numbers { result.numbers.items ≡ [] }
        ensures keys { result.keys.places.items ≡ [] }
        ensures lacks { result.lacks ≡ false }
        ensures missing { result.missing.refs.items ≡ [] }
    {
        let mut numbers = memory;
        numbers.clear();
        let mut keys = keys_memory;
        keys.clear();
        let mut missing = missing_memory;
        missing.clear();
        ConstantRefs {
            numbers,
            lacks: false,
            keys,
            missing,
            event: 0,
        }
    }

    /// Adds a number.
    #[inline(always)]
    fn add(&mut self, number: u32)
        ensures numbers { AddsRefs (number ∷ []) self.old self.new }
        ensures keys { self.new.keys ≡ self.old.keys }
        ensures missing { self.new.missing ≡ self.old.missing }
        ensures event { self.new.event ≡ self.old.event }
    {
        match self.numbers.push(number) {
            Ok(()) => {}
            Err(_) => self.lacks = true,
        }
    }
}

impl VisitKey<Pools> for ConstantRefs {
    ghost use Rattle.std.specs.Prelude.{◌<◌, ◌^◌, length};
    ghost use Rattle.jfr_chunk.specs.Refs.{HasPlaceForEach, TakesKey};

    ghost ready = { λ refs pools. (length pools < 2 ^ 32) × HasPlaceForEach refs };

    ghost takes = { λ pools key old new. TakesKey pools key old new };

    /// Adds the number of the entry in force for a key, and the key's place; if there is none, notes the class and the
    /// key.
    #[inline(always)]
    fn visit_key(&mut self, pools: &Pools, key: KeyAt) {
        match pools.entry(key.class, key.key) {
            Some(number) => {
                let number = number as u32;
                self.add(number);
                self.keys.add(number, key.at);
            }
            None => {
                self.missing.add(key.class, key.key, self.event);
                self.keys.pass(key);
            }
        }
    }
}
