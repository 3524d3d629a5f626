//! Where the keys of events are spelled.
ghost use Rattle.std.specs.Prelude.{◌≡◌, ◌∷◌, [], false, IfSome, IsTrue};
ghost use Rattle.jfr_chunk.specs.KeyPlaces.{AddsPlaces, IsShortZero};

use jfr_value::KeyAt;
use std::alloc::Global;

/// The key of a reference of an event to an entry in force, or of a string that is such a key. A chunk can have
/// millions, so each takes few bytes.
#[derive(Clone, Copy, Debug)]
pub struct KeyPlace {
    /// The number of the entry, from 0 in the order of the file.
    pub entry: u32,
    /// The offset of the integer that spells the key.
    pub at: u32,
}

/// The places of the keys of all events, one event after another, if they are wanted.
#[derive(Drop)]
pub(crate) struct KeyPlaces {
    places: Vec<KeyPlace>,
    /// Whether some may be missing, so that none is noted any longer: they aren't wanted, memory ran out, or a key
    /// without an entry isn't 0 in one byte.
    lacks: bool,
    /// Whether they are wanted.
    wanted: bool,
}

impl KeyPlaces {
    /// No places. It allocates nothing.
    pub fn new(alloc: Global, wanted: bool) -> KeyPlaces
        ensures { result.places.items ≡ [] }
    {
        KeyPlaces {
            places: Vec::new(alloc),
            lacks: !wanted,
            wanted,
        }
    }

    /// Removes all, and keeps the memory.
    pub fn clear(&mut self)
        ensures { self.new.places.items ≡ [] }
    {
        self.places.clear();
        self.lacks = !self.wanted;
    }

    /// Adds the place of a key that has this entry in force, if places are noted.
    #[inline(always)]
    pub fn add(&mut self, entry: u32, at: usize)
        ensures { AddsPlaces (record { entry = entry; at = at } ∷ []) self.old self.new }
    {
        if !self.lacks {
            self.add_wanted(entry, at);
        }
    }

    /// As `add`, if places are noted. 32 bits are enough for the offsets in a chunk.
    #[inline(always)]
    fn add_wanted(&mut self, entry: u32, at: usize)
        ensures { AddsPlaces (record { entry = entry; at = at } ∷ []) self.old self.new }
    {
        let Ok(at) = u32::try_from(at) else {
            self.lacks = true;
            return;
        };
        if self.places.push(KeyPlace { entry, at }).is_err() {
            self.lacks = true;
        }
    }

    /// Passes a key that has no entry in force. Unless it is 0 in one byte, no places are noted any longer.
    #[inline(always)]
    pub fn pass(&mut self, key: KeyAt)
        ensures added { AddsPlaces [] self.old self.new }
        ensures short { self.new.lacks ≡ false → IsShortZero key }
    {
        if !self.lacks && !is_short_zero(key) {
            self.lacks = true;
        }
    }

    /// The places, if none is missing.
    pub fn all(&self) -> Option<&[KeyPlace]>
        ensures { IfSome result (λ places. (places.now ≡ self.now.places.items) × (self.now.lacks ≡ false)) }
    {
        if self.lacks {
            return None;
        }
        Some(self.places.as_slice())
    }
}

/// Whether the key is 0, in one byte.
#[inline(always)]
fn is_short_zero(key: KeyAt) -> bool
    ensures { IsTrue result → IsShortZero key }
{
    key.key == 0 && key.end.saturating_sub(key.at) == 1
}
