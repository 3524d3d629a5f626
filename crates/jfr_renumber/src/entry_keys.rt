//! The new keys of entries.
ghost use Rattle.std.specs.Prelude.{◌≡◌, map, IfOk};
ghost use Rattle.jfr_renumber.specs.Numbers.{number_or_zero};
ghost use Rattle.jfr_renumber.specs.Renumber.{pair_of};

use crate::key_places::{Rekeying, put_with_keys};
use crate::numbered::NumberedKeys;
use crate::rewriting::{NewKey, NewKeys, new_leaf};
use jfr_base::NoMemory;
use jfr_chunk::{Chunk, Event};
use jfr_frame::Framed;
use jfr_pool::{EntryAt, Pools};
use jfr_rewrite::Rewriter;
use jfr_value::{Leaf, Node};
use std::alloc::Global;
use std::marker::Model;

/// The new keys of a chunk. If a class and key have an entry in force, their new key is looked up by the
/// entry's number; otherwise it is searched for.
#[derive(Drop)]
pub(crate) struct EntryKeys<'k> {
    keys: &'k NumberedKeys,
    pools: &'k Pools,
    by_entry: Vec<u64>,
}

impl<'k> Model for EntryKeys<'k> {
    ghost use Rattle.std.specs.Prelude.{◌≡◌, map};
    ghost use Rattle.jfr_renumber.specs.Numbers.{ChunkKeys, number_or_zero};
    ghost use Rattle.jfr_renumber.specs.Renumber.{pair_of};

    ghost Value = { ChunkKeys };

    ghost view = { λ k. record { keys = k.keys.now; entries = k.pools.now } };

    ghost invariant = { λ k. k.by_entry.items ≡ map (λ e. number_or_zero k.keys.now (pair_of e)) k.pools.now };
}

impl<'k> EntryKeys<'k> {
    /// Finds the new key of each entry.
    pub(crate) fn make(
        alloc: Global,
        keys: &'k NumberedKeys,
        pools: &'k Pools,
    ) -> Result<EntryKeys<'k>, NoMemory>
        ensures keys { IfOk result (λ made. made.keys ≡ keys.now) }
        ensures entries { IfOk result (λ made. made.entries ≡ pools.now) }
    {
        let by_entry = keys_of(alloc, keys, pools.as_slice())?;
        Ok(EntryKeys {
            keys,
            pools,
            by_entry,
        })
    }
}

impl<'k> NewKeys for EntryKeys<'k> {
    ghost use Rattle.jfr_renumber.specs.Numbers.{new_keys};

    ghost keys = { new_keys };

    /// The new key of a class and a key, or 0 if they aren't used. The visit of a value's leaves calls this in several
    /// places. It isn't inlined, since a small visit is itself inlined where it is called.
    #[inline(never)]
    fn new_key(&self, class: u64, key: u64) -> u64 {
        match self.pools.entry(class, key) {
            Some(number) => self.by_entry[number],
            None => self.keys.new_key(class, key),
        }
    }

    fn zero_is_kept(&self) {
        self.keys.zero_is_kept();
    }
}

/// The chunk that has these entries can be rewritten with these keys. Its sizes keep their widths.
impl<'k> Rewriter for EntryKeys<'k> {
    type NewLeaf = NewKey;

    ghost use Rattle.std.specs.Prelude.{◌≡◌, None, ⊤};
    ghost use Rattle.jfr_value.specs.Leaves.{LeafAt};
    ghost use Rattle.jfr_value.specs.Visits.{IsNumber};
    ghost use Rattle.jfr_rewrite.specs.Copying.{leaf_becomes};
    ghost use Rattle.jfr_renumber.specs.Numbers.{ChunkKeys, new_keys};
    ghost use Rattle.jfr_renumber.specs.Renumber.{with_keys};
    ghost use Rattle.jfr_renumber.specs.Rewriting.{spelled_anew};

    ghost rewrite = { λ keys. with_keys (new_keys keys) None };

    ghost suits = { λ keys p. keys.entries ≡ p.entries };

    ghost can_put = { λ _ _. ⊤ };

    ghost spells = { λ _ new. spelled_anew new };

    fn is_unchanged(&self, _chunk: &Chunk<'_>, _node: Node<'_>) -> bool {
        false
    }

    fn put_event(
        &self,
        out: &mut Vec<u8>,
        chunk: &Chunk<'_>,
        event: Event<'_>,
    ) -> Result<bool, NoMemory> {
        let Some(places) = chunk.event_keys(event.number) else {
            return Ok(false);
        };
        self.zero_is_kept();
        let rekeying = Rekeying {
            bytes: chunk.bytes(),
            new_keys: self.by_entry.as_slice(),
        };
        let frame = event.frame;
        put_with_keys(out, rekeying, places, frame.at, frame.end())?;
        Ok(true)
    }

    fn keeps_numbers()
        ensures { (keys : ChunkKeys) (leaf : LeafAt) → IsNumber leaf → leaf_becomes (with_keys (new_keys keys) None).change leaf ≡ leaf.spelled }
    {}

    #[inline(always)]
    fn new_leaf(&self, _chunk: &Chunk<'_>, leaf: &Leaf<'_>) -> Option<NewKey> {
        new_leaf(leaf, self)
    }

    #[inline(always)]
    fn put_new_leaf(&self, out: &mut Vec<u8>, new: NewKey) -> Result<(), NoMemory> {
        new.put(out)
    }

    #[inline]
    fn entry_key(&self, class: u64, key: u64) -> u64 {
        self.new_key(class, key)
    }

    #[inline]
    fn width(&self, frame: Framed, _rest: usize) -> usize {
        frame.type_at - frame.at
    }
}

/// The new key of each of these entries.
fn keys_of(alloc: Global, keys: &NumberedKeys, entries: &[EntryAt]) -> Result<Vec<u64>, NoMemory>
    ensures { IfOk result (λ found. found.items ≡ map (λ e. number_or_zero keys.now (pair_of e)) entries.now) }
{
    let mut found = Vec::with_capacity(alloc, entries.len())?;
    for entry in entries {
        found.push(keys.new_key(entry.class, entry.key))?;
    }
    Ok(found)
}
