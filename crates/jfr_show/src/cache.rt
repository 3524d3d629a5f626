//! A cache of the texts that references are shown as, for the events of one chunk.
//!
//! Many events refer to the same few constants, such as their threads. The text of a reference depends only
//! on the chunk, the class and the key, the number of references still to be followed, and the level. So it
//! can be used again if all these are equal. The cache has a fixed number of slots. The class and the key
//! select the slot, and a newer text replaces an older one. A cache without slots keeps nothing.
ghost use Rattle.std.specs.Prelude.{◌≡◌, IfOk, IfSome};
ghost use Rattle.std.specs.Str.{chars};
ghost use Rattle.jfr_chunk.specs.Parts.{Parts};
ghost use Rattle.jfr_show.specs.Cache.{AreCached, AreKept, IsCached};
ghost use Rattle.jfr_show.specs.Shown.{referred};

use crate::TextBuilder;
use crate::depth::Depth;
use jfr_base::NoMemory;
use std::alloc::Global;

/// The number of slots.
pub(crate) const SLOTS: usize = 2048;

/// The most bytes that a text in the cache may have.
pub(crate) const LONGEST: usize = 4096;

/// The text of the reference to a class and a key, with this number of references still to be followed, at
/// this level.
#[derive(Drop)]
pub(crate) struct CachedText {
    pub(crate) class: u64,
    pub(crate) key: u64,
    pub(crate) references: u8,
    pub(crate) level: usize,
    pub(crate) text: TextBuilder,
}

/// The slots, each with a text of a reference of one chunk.
#[derive(Drop)]
pub(crate) struct Slots {
    pub(crate) alloc: Global,
    pub(crate) texts: Vec<Option<CachedText>>,
}

impl Slots {
    /// Empty slots, for any chunk.
    fn new(alloc: Global) -> Result<Slots, NoMemory>
        ensures none { IfOk result (λ slots. (p : Parts) → AreKept p slots) }
    {
        let mut texts = Vec::new(alloc);
        for _ in 0..SLOTS {
            texts.push(None)?;
        }
        Ok(Slots { alloc, texts })
    }

    /// Keeps a text in its slot, unless it is too long.
    fn keep(&mut self, cached: CachedText)
        ensures cached { (p : Parts) → AreKept p self.old → IsCached p cached → AreKept p self.new }
    {
        let slot = slot_of(cached.class, cached.key);
        if slot < self.texts.len() && cached.text.as_bytes().len() <= LONGEST {
            self.texts[slot] = Some(cached);
        }
    }
}

/// The texts of one chunk's references, if they are kept.
#[derive(Drop)]
pub(crate) struct TextCache {
    pub(crate) slots: Option<Slots>,
}

impl TextCache {
    /// An empty cache, for any chunk.
    pub(crate) fn new(alloc: Global) -> Result<TextCache, NoMemory>
        ensures none { IfOk result (λ cache. (p : Parts) → AreCached p cache) }
    {
        let slots = Slots::new(alloc)?;
        Ok(TextCache { slots: Some(slots) })
    }

    /// A cache that keeps nothing. It allocates nothing.
    pub(crate) fn none() -> TextCache
        ensures none { (p : Parts) → AreCached p result }
    {
        TextCache { slots: None }
    }

    /// The allocator for the texts, if they are kept.
    pub(crate) fn alloc(&self) -> Option<Global> {
        match &self.slots {
            Some(slots) => Some(slots.alloc),
            None => None,
        }
    }

    /// The text of the reference to a class and a key, if the cache has it.
    pub(crate) fn get(&self, class: u64, key: u64, depth: Depth) -> Option<&str>
        ensures shown { (p : Parts) → AreCached p self.now → IfSome result (λ text. chars text.now ≡ referred p depth.reach.references depth.level (class, key)) }
    {
        let Some(slots) = &self.slots else {
            return None;
        };
        let Some(Some(cached)) = slots.texts.get(slot_of(class, key)) else {
            return None;
        };
        if cached.key != key
            || cached.class != class
            || cached.references != depth.reach.references
            || cached.level != depth.level
        {
            return None;
        }
        Some(cached.text.as_str())
    }

    /// Keeps a text, if the cache has slots.
    pub(crate) fn keep(&mut self, cached: CachedText)
        ensures cached { (p : Parts) → AreCached p self.old → IsCached p cached → AreCached p self.new }
    {
        match &mut self.slots {
            Some(slots) => slots.keep(cached),
            None => {}
        }
    }
}

/// The slot for a class and a key. The keys of a class are often consecutive numbers, which get different
/// slots.
pub(crate) fn slot_of(class: u64, key: u64) -> usize {
    (key.wrapping_add(class.wrapping_mul(389)) % SLOTS as u64) as usize
}
