//! A hash table of the entries in force, by class and key, for those that no direct table has.
ghost use Rattle.std.specs.Prelude.{None, ◌≡◌, false, ◌+◌, ◌-◌, ◌<◌, ◌≤◌, ◌^◌, [], ◌∷◌, ◌++◌, length, vec_len, IfOk, IfSome, IsTrue, OnOk};
ghost use Rattle.jfr_pool.specs.declared.index.TheConstants.{REACH};

use crate::EntryAt;
use crate::tables::Tables;
use jfr_base::NoMemory;
use std::alloc::Global;
use std::collections::BTreeMap;

/// A class and key are in one of this many slots, of which their home is the first.
const REACH: usize = 8;

/// Classes with ids below this can be in a slot.
const CLASSES: u64 = 1 << 32;

/// The bits of a class are mixed into the key's from this bit on, where few keys have bits set.
const CLASS_AT: u32 = 48;

/// The odd number by which the two are multiplied to mix them.
const MIX: u64 = 0x94D0_49BB_1331_11EB;

/// A slot of the hash table: a class and key, and the ordinal of the entry in force, which is its number plus
/// 1. An empty slot has the ordinal 0.
#[derive(Clone, Copy)]
pub(crate) struct Slot {
    pub key: u64,
    pub class: u32,
    pub ordinal: u32,
}

impl Slot {
    ghost use Rattle.jfr_pool.specs.Index.{held, is_of, is_open, number_in};

    /// Whether the slot has this class and key.
    #[inline(always)]
    fn is_of(&self, class: u64, key: u64) -> bool
        ensures exact { result ≡ is_of self.now (class, key) }
        ensures within { IsTrue result → class < 2 ^ 32 }
    {
        self.key == key && u64::from(self.class) == class
    }

    /// Whether the slot is empty, or has this class and key.
    #[inline(always)]
    fn is_open(&self, class: u64, key: u64) -> bool
        ensures { result ≡ is_open (held self.now) (class, key) }
    {
        self.ordinal == 0 || self.is_of(class, key)
    }

    /// The number of the entry in force; `None` exactly if the slot is empty.
    #[inline(always)]
    fn number(&self) -> Option<usize>
        ensures { result ≡ number_in self.now }
    {
        (self.ordinal as usize).checked_sub(1)
    }
}

/// The numbers of the entries in force for the classes and keys that no direct table has. A class and key are
/// in the first slot from their home on that was empty when they were added. If none within reach was, or the
/// class's id is too large for a slot, they are in the map of the others.
#[derive(Drop)]
pub(crate) struct Index {
    /// The hash table.
    pub slots: Vec<Slot>,
    /// The numbers for the classes and keys that are in no slot.
    pub others: BTreeMap<(u64, u64), usize>,
    ghost homes: { REACH < vec_len slots },
}

impl Index {
    ghost use Rattle.std.specs.Prelude.{List};
    ghost use Rattle.jfr_pool.specs.declared.entry.EntryAt.{EntryAt};
    ghost use Rattle.jfr_pool.specs.declared.table.Table.{Table};
    ghost use Rattle.jfr_pool.specs.Index.{Indexes, held, home, is_open, number_at, number_of, open_slot, open_slot_from, slot_at};

    /// The index of the entries that no direct table has.
    pub fn of(alloc: Global, entries: &[EntryAt], tables: &Tables) -> Result<Index, NoMemory>
        requires { length entries.now < 2 ^ 32 }
        ensures { IfOk result (λ index. Indexes tables.now.by_class.items index entries.now) }
    {
        let mut index = Index::new(alloc, untabled_count(entries, tables))?;
        for (number, entry) in entries.iter().enumerate() {
            index.take(entry, number, tables)?;
        }
        Ok(index)
    }

    /// The number of the entry in force for a class and a key that no direct table has, if there is one.
    /// Mostly the class and key are in their home slot, or this slot is empty.
    #[inline(never)]
    pub fn number(&self, class: u64, key: u64) -> Option<usize>
        ensures { result ≡ number_of self.now (class, key) }
    {
        let home = self.home(class, key);
        let slot = self.slots[home];
        if slot.is_of(class, key) {
            return slot.number();
        }
        if slot.ordinal == 0 && class < CLASSES {
            return None;
        }
        self.number_beyond_home(home, class, key)
    }

    /// As `number`, for a class and a key whose home slot holds another class and key, or whose class has an
    /// id too large for a slot.
    #[inline(never)]
    fn number_beyond_home(&self, place: usize, class: u64, key: u64) -> Option<usize>
        requires home { place ≡ home self.now.slots.items (class, key) }
        requires within { place + REACH ≤ vec_len self.now.slots }
        requires closed { class < 2 ^ 32 → is_open (held (slot_at self.now.slots.items place)) (class, key) ≡ false }
        ensures { result ≡ number_of self.now (class, key) }
    {
        if class >= CLASSES {
            return self.other_number(class, key);
        }
        match self.first_open(place + 1, place + REACH, class, key) {
            Some(place) => self.slots[place].number(),
            None => self.other_number(class, key),
        }
    }

    /// The number for a class and a key that are in no slot, if the map of the others has one.
    #[cold]
    fn other_number(&self, class: u64, key: u64) -> Option<usize>
        ensures { result ≡ number_at self.now (class, key) None }
    {
        self.others.get(&(class, key)).copied()
    }

    /// An index without entries, with slots for `count`: two homes for each and one more, and the slots
    /// within reach of the last home.
    fn new(alloc: Global, count: usize) -> Result<Index, NoMemory>
        ensures { IfOk result (λ index. (by_class : List Table) → Indexes by_class index []) }
    {
        let empty = Slot {
            key: 0,
            class: 0,
            ordinal: 0,
        };
        let homes = count.saturating_mul(2);
        let slots = vec![in alloc; empty; homes.saturating_add(1 + REACH)]?;
        Ok(Index {
            slots,
            others: BTreeMap::new(alloc),
        })
    }

    /// Adds the next entry, which has this number, unless a direct table has its class and key.
    fn take(&mut self, entry: &EntryAt, number: usize, tables: &Tables) -> Result<(), NoMemory>
        requires { number + 1 < 2 ^ 32 }
        ensures { OnOk result ((es : List EntryAt) → Indexes tables.now.by_class.items self.old es → length es ≡ number → Indexes tables.now.by_class.items self.new (es ++ entry.now ∷ [])) }
    {
        if tables.ordinal(entry.class, entry.key).is_some() {
            return Ok(());
        }
        self.put(entry, number)
    }

    /// Adds the next entry, which has this number.
    fn put(&mut self, entry: &EntryAt, number: usize) -> Result<(), NoMemory>
        requires { number + 1 < 2 ^ 32 }
        ensures { OnOk result ((by_class : List Table) (es : List EntryAt) → Indexes by_class self.old es → length es ≡ number → Indexes by_class self.new (es ++ entry.now ∷ [])) }
    {
        let (class, key) = (entry.class, entry.key);
        match self.open_slot(class, key) {
            Some(place) => {
                self.slots[place] = Slot {
                    key,
                    class: class as u32,
                    ordinal: number as u32 + 1,
                };
            }
            None => {
                self.others.insert((class, key), number)?;
            }
        }
        Ok(())
    }

    /// The first slot within reach that is empty or has this class and key.
    fn open_slot(&self, class: u64, key: u64) -> Option<usize>
        ensures exact { result ≡ open_slot self.now.slots.items (class, key) }
        ensures within { IfSome result (λ place. (place < vec_len self.now.slots) × (class < 2 ^ 32)) }
    {
        if class >= CLASSES {
            return None;
        }
        let home = self.home(class, key);
        self.first_open(home, home + REACH, class, key)
    }

    /// The first slot, of those from `from` up to `end`, that is empty or has this class and key.
    #[inline(always)]
    fn first_open(&self, from: usize, end: usize, class: u64, key: u64) -> Option<usize>
        requires { end ≤ vec_len self.now.slots }
        ensures exact { result ≡ open_slot_from (end - from) from self.now.slots.items (class, key) }
        ensures within { IfSome result (λ place. place < vec_len self.now.slots) }
    {
        for place in from..end {
            if self.slots[place].is_open(class, key) {
                return Some(place);
            }
        }
        None
    }

    /// The home of a class and key: the first slot in which they can be.
    #[inline(always)]
    #[tactic(auto, unfolding(crate::specs::Index::home))]
    fn home(&self, class: u64, key: u64) -> usize
        ensures exact { result ≡ home self.now.slots.items (class, key) }
        ensures within { result + REACH ≤ vec_len self.now.slots }
    {
        let homes = (self.slots.len() - REACH) as u128;
        let mixed = (key ^ (class << CLASS_AT)).wrapping_mul(MIX);
        ((u128::from(mixed) * homes) >> 64) as usize
    }
}

/// The number of entries whose class and key no direct table has.
fn untabled_count(entries: &[EntryAt], tables: &Tables) -> usize
    ensures { result ≤ length entries.now }
{
    entries
        .iter()
        .filter(|entry| tables.ordinal(entry.class, entry.key).is_none())
        .count()
}
