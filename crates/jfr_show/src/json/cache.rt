//! A cache of the JSON of references, for the events of one chunk.
//!
//! It is to JSON what `TextCache` is to text, without levels.
ghost use Rattle.std.specs.Prelude.{◌≡◌, IfOk, IfSome};
ghost use Rattle.serde_json.specs.Written.{compact_text};
ghost use Rattle.jfr_chunk.specs.Parts.{Parts};
ghost use Rattle.jfr_show.specs.CachedJson.{AreCachedJson, IsCachedJson};
ghost use Rattle.jfr_show.specs.Json.{referred_json};

use crate::cache::{LONGEST, SLOTS, slot_of};
use crate::depth::Reach;
use jfr_base::NoMemory;
use std::alloc::Global;

/// The JSON of the reference to a class and a key, with this number of references still to be followed.
#[derive(Drop)]
pub(crate) struct CachedJson {
    pub(crate) class: u64,
    pub(crate) key: u64,
    pub(crate) references: u8,
    pub(crate) text: String,
}

/// The JSON of one chunk's references, each in its slot.
#[derive(Drop)]
pub(crate) struct JsonCache {
    pub(crate) texts: Vec<Option<CachedJson>>,
}

impl JsonCache {
    /// An empty cache, for any chunk.
    pub(crate) fn new(alloc: Global) -> Result<JsonCache, NoMemory>
        ensures none { IfOk result (λ cache. (p : Parts) → AreCachedJson p cache) }
    {
        let mut texts = Vec::new(alloc);
        for _ in 0..SLOTS {
            texts.push(None)?;
        }
        Ok(JsonCache { texts })
    }

    /// The JSON of the reference to a class and a key, if the cache has it.
    pub(crate) fn get(&self, class: u64, key: u64, reach: Reach) -> Option<&str>
        ensures written { (p : Parts) → AreCachedJson p self.now → IfSome result (λ text. text.now ≡ compact_text (referred_json p reach.references (class, key))) }
    {
        let Some(Some(cached)) = self.texts.get(slot_of(class, key)) else {
            return None;
        };
        if cached.key != key || cached.class != class || cached.references != reach.references {
            return None;
        }
        Some(cached.text.as_str())
    }

    /// Keeps a text in its slot, unless it is too long.
    pub(crate) fn keep(&mut self, cached: CachedJson)
        ensures cached { (p : Parts) → AreCachedJson p self.old → IsCachedJson p cached → AreCachedJson p self.new }
    {
        let slot = slot_of(cached.class, cached.key);
        if slot < self.texts.len() && cached.text.as_str().len() <= LONGEST {
            self.texts[slot] = Some(cached);
        }
    }
}
