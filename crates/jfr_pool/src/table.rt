//! The direct table of a class, which gives the entry in force for each key of a range.
ghost use Rattle.std.specs.Prelude.{◌≡◌, ◌≢◌, ℕ, option_map, replicate, IfOk};

use jfr_base::NoMemory;
use std::alloc::Global;

/// The direct table of a class: an ordinal for the key 0, and one for each key of a range that begins at
/// `first`. The ordinal of a key is the number of its entry in force plus 1, or 0 if there is no entry. Other
/// keys aren't in the table.
#[derive(Drop)]
pub(crate) struct Table {
    /// The first key of the range.
    pub first: u64,
    /// The ordinal of the key 0.
    pub zero: u32,
    /// The ordinals of the range's keys, in order.
    pub ordinals: Vec<u32>,
}

impl Table {
    ghost use Rattle.jfr_pool.specs.Tables.{in_table};

    /// A table of zeros for `places` keys from `first` on, and for the key 0.
    pub fn of(alloc: Global, first: u64, places: usize) -> Result<Table, NoMemory>
        ensures { IfOk result (λ table. (table.first ≡ first) × (table.zero ≡ 0) × (table.ordinals.items ≡ replicate places 0)) }
    {
        Ok(Table {
            first,
            zero: 0,
            ordinals: vec![in alloc; 0u32; places]?,
        })
    }

    /// The ordinal of a key; `None` exactly if the table doesn't have the key.
    #[inline(always)]
    pub fn ordinal(&self, key: u64) -> Option<u32>
        ensures { result ≡ in_table key self.now }
    {
        match key.checked_sub(self.first) {
            Some(place) => self.ordinals.get(place as usize).copied(),
            None if key == 0 => Some(self.zero),
            None => None,
        }
    }

    /// Sets the ordinal of a key, if the table has the key.
    pub fn put(&mut self, key: u64, ordinal: u32)
        ensures here { in_table key self.new ≡ option_map (λ _. ordinal) (in_table key self.old) }
        ensures others { (other : ℕ) → other ≢ key → in_table other self.new ≡ in_table other self.old }
    {
        match key.checked_sub(self.first) {
            Some(place) if place < self.ordinals.len() as u64 => {
                self.ordinals[place as usize] = ordinal;
            }
            None if key == 0 => self.zero = ordinal,
            _ => {}
        }
    }
}
