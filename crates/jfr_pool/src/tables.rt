//! The direct tables of classes with small ids, which give entries in force by class and key.
ghost use Rattle.std.specs.Prelude.{◌≡◌, ◌+◌, ◌<◌, ◌≤◌, ◌^◌, [], ◌∷◌, ◌++◌, length, IfOk};

use crate::EntryAt;
use crate::table::Table;
use jfr_base::NoMemory;
use std::alloc::Global;

/// Only classes with ids below this can have a table.
const TABLE_ID_LIMIT: u64 = 4096;

/// Classes with ids below this always have a table, if only one for the key 0.
const FIRST_TABLES: usize = 1024;

/// All tables of a chunk together may have this many ordinals, whatever the number of entries.
const ORDINALS: usize = 65_536;

/// And this many more for each entry.
const ORDINALS_PER_ENTRY: usize = 4;

/// The least and the greatest key above 0 of a class.
#[derive(Clone, Copy)]
struct KeyRange {
    least: u64,
    greatest: u64,
}

/// A class without keys above 0.
const NO_KEYS: KeyRange = KeyRange {
    least: u64::MAX,
    greatest: 0,
};

impl KeyRange {
    /// The number of keys from the least to the greatest; 0 if there are none, or more than `most`.
    fn places(self, most: usize) -> usize
        ensures { result ≤ most }
    {
        match self.greatest.checked_sub(self.least) {
            Some(behind) if behind < most as u64 => behind as usize + 1,
            _ => 0,
        }
    }
}

/// The direct tables of classes with small ids. The ordinal of a class and key is the number of the entry in
/// force plus 1, or 0 if there is no entry; keys that no table has are in the index.
#[derive(Drop)]
pub(crate) struct Tables {
    /// The tables, by the class's id.
    pub by_class: Vec<Table>,
}

impl Tables {
    ghost use Rattle.std.specs.Prelude.{List};
    ghost use Rattle.jfr_pool.specs.declared.entry.EntryAt.{EntryAt};
    ghost use Rattle.jfr_pool.specs.Tables.{AreTables, ordinal_at};

    /// The tables for these entries.
    pub fn of(alloc: Global, entries: &[EntryAt]) -> Result<Tables, NoMemory>
        requires { length entries.now < 2 ^ 32 }
        ensures { IfOk result (λ tables. AreTables tables entries.now) }
    {
        let ranges = key_ranges(alloc, entries)?;
        let mut tables = Tables::empty(
            alloc,
            &ranges,
            ORDINALS + ORDINALS_PER_ENTRY * entries.len(),
        )?;
        for (number, entry) in entries.iter().enumerate() {
            tables.put(entry, number);
        }
        Ok(tables)
    }

    /// The ordinal of a class and key; `None` exactly if no table has them.
    #[inline(always)]
    pub fn ordinal(&self, class: u64, key: u64) -> Option<u32>
        ensures { result ≡ ordinal_at self.now.by_class.items (class, key) }
    {
        let Some(table) = self.by_class.get(class as usize) else {
            return None;
        };
        table.ordinal(key)
    }

    /// Tables without entries, for the keys of these ranges, with at most `places` ordinals in all. A class
    /// with a range of more keys than ordinals remain has a table for the key 0 only.
    fn empty(alloc: Global, ranges: &[KeyRange], places: usize) -> Result<Tables, NoMemory>
        ensures { IfOk result (λ tables. AreTables tables []) }
    {
        let mut by_class = Vec::new(alloc);
        let mut left = places;
        for range in ranges {
            let taken = range.places(left);
            left -= taken;
            by_class.push(Table::of(alloc, range.least, taken)?)?;
        }
        Ok(Tables { by_class })
    }

    /// Sets the ordinal of the next entry, which has this number, if a table has its class and key.
    fn put(&mut self, entry: &EntryAt, number: usize)
        requires { number + 1 < 2 ^ 32 }
        ensures { (es : List EntryAt) → AreTables self.old es → length es ≡ number → AreTables self.new (es ++ entry.now ∷ []) }
    {
        let class = entry.class as usize;
        if class >= self.by_class.len() {
            return;
        }
        self.by_class[class].put(entry.key, number as u32 + 1);
    }
}

/// The range of the keys above 0 of each class, by the class's id: for all ids below `FIRST_TABLES`, and from
/// there up to the largest id below `TABLE_ID_LIMIT` that an entry has.
fn key_ranges(alloc: Global, entries: &[EntryAt]) -> Result<Vec<KeyRange>, NoMemory> {
    let mut ranges = vec![in alloc; NO_KEYS; FIRST_TABLES]?;
    for entry in entries {
        if entry.class < TABLE_ID_LIMIT {
            widen(&mut ranges, entry.class as usize, entry.key)?;
        }
    }
    Ok(ranges)
}

/// Widens the range of a class by a key.
fn widen(ranges: &mut Vec<KeyRange>, class: usize, key: u64) -> Result<(), NoMemory>
    requires { class < 2 ^ 32 }
{
    if class >= ranges.len() {
        ranges.resize(class + 1, NO_KEYS)?;
    }
    if key > 0 {
        let range = &mut ranges[class];
        range.least = range.least.min(key);
        range.greatest = range.greatest.max(key);
    }
    Ok(())
}
