//! The entries of the chained checkpoints.
ghost use Rattle.std.specs.Prelude.{◌≡◌, ◌<◌, ◌↔◌, length, slice_get, option_copied, IfOk, IfErr, IsTrue, MatchResult};
ghost use Rattle.jfr_pool.specs.Chains.{IsReadFrom};
ghost use Rattle.jfr_pool.specs.Entries.{AreEntries, IsInForce, IsRefusedEntries, entries_of, number_in_force};
ghost use Rattle.jfr_pool.specs.Faults.{TellsFlaw};

use crate::checkpoint::read_checkpoint;
use crate::index::Index;
use crate::tables::Tables;
use crate::{Chain, EntryAt};
use jfr_base::ReadFault;
use jfr_layout::Classes;
use std::alloc::Global;
use std::marker::Model;

/// The entries of the chained checkpoints, in the order of the file, and which of them is in force for each
/// class and key.
#[derive(Drop)]
pub struct Pools {
    entries: Vec<EntryAt>,
    index: Index,
    tables: Tables,
}

impl Model for Pools {
    ghost use Rattle.std.specs.Prelude.{List};
    ghost use Rattle.jfr_pool.specs.declared.entry.EntryAt.{EntryAt};
    ghost use Rattle.jfr_pool.specs.Index.{Indexes};
    ghost use Rattle.jfr_pool.specs.Tables.{AreTables};

    ghost Value = { List EntryAt };

    ghost view = { λ pools. pools.entries.items };

    ghost invariant = { λ pools. Indexes pools.tables.by_class.items pools.index pools.entries.items × AreTables pools.tables pools.entries.items };
}

impl Pools {
    /// Reads the entries of the chained checkpoints, the oldest first. They are refused for the first flaw in
    /// the order of the file: `Short` or `StringKind` in a checkpoint's numbers or values, `PoolType` if a
    /// pool's class isn't known, `Trailing` if a checkpoint has bytes after its last pool. `Memory` if memory
    /// runs out, and for 2^32 entries or more, which only a chunk of 4 GiB or more can have.
    pub fn read(
        alloc: Global,
        chunk: &[u8],
        classes: &Classes,
        chain: &Chain,
    ) -> Result<Pools, ReadFault>
        requires { IsReadFrom chunk.now chain.now }
        ensures ok { IfOk result (λ pools. AreEntries chunk.now classes.now 0 chain.now pools) }
        ensures refused { IfErr result (λ fault. IsRefusedEntries chunk.now classes.now chain.now fault) }

        // The answer that `entries_of` computes.
        ensures exact { MatchResult result (λ pools. entries_of chunk.now classes.now 0 chain.now ≡ Ok pools) (TellsFlaw (entries_of chunk.now classes.now 0 chain.now)) }
    {
        let mut entries = Vec::new(alloc);
        for number in 0..chain.len() {
            let frame = chain.at(number).frame;
            read_checkpoint(chunk, classes, number, frame, &mut entries)?;
        }
        if entries.len() > u32::MAX as usize {
            return Err(ReadFault::Memory);
        }
        let tables = Tables::of(alloc, &entries)?;
        let index = Index::of(alloc, &entries, &tables)?;
        Ok(Pools {
            entries,
            index,
            tables,
        })
    }

    /// The number of entries.
    pub fn len(&self) -> usize
        ensures { result ≡ length self.now }
    {
        self.entries.len()
    }

    /// The entries, in the order of the file.
    pub fn as_slice(&self) -> &[EntryAt]
        ensures { result.now ≡ self.now }
    {
        self.entries.as_slice()
    }

    /// The entry with this number, from 0, in the order of the file, if there is one.
    pub fn get(&self, at: usize) -> Option<&EntryAt>
        ensures { option_copied result ≡ slice_get self.now at }
    {
        self.entries.get(at)
    }

    /// The number of the entry in force for a class and a key, which is the last one with both, if there is
    /// one.
    #[inline(always)]
    pub fn entry(&self, class: u64, key: u64) -> Option<usize>
        ensures { result ≡ number_in_force self.now (class, key) }
    {
        match self.tables.ordinal(class, key) {
            Some(0) => None,
            Some(ordinal) => Some(ordinal as usize - 1),
            None => self.index.number(class, key),
        }
    }

    /// Whether the entry with this number is the one in force for its class and key.
    pub fn in_force(&self, at: usize) -> bool
        requires { at < length self.now }
        ensures { IsTrue result ↔ IsInForce self.now at }
    {
        let entry = self.entries[at];
        match self.entry(entry.class, entry.key) {
            Some(number) => number == at,
            None => false,
        }
    }
}
