//! The renumberer of one chunk.
ghost use Rattle.std.specs.Prelude.{◌≡◌, ℕ, ◌<◌, length, IfOk};
ghost use Rattle.jfr_chunk.specs.Chosen.{kept_of};
ghost use Rattle.jfr_chunk.specs.Parts.{events_of};
ghost use Rattle.jfr_chunk.specs.Reach.{kept_by, reached_marks};
ghost use Rattle.jfr_filter.specs.Filters.{describes};
ghost use Rattle.jfr_renumber.specs.Meaning.{IsRenumbered};
ghost use Rattle.jfr_renumber.specs.Numbers.{number_of};
ghost use Rattle.jfr_renumber.specs.Renumber.{new_key_of, renumber_of};

use crate::entry_keys::EntryKeys;
use crate::firsts::first_entries;
use crate::numbered::NumberedKeys;
use crate::output::put_chunk;
use jfr_base::NoMemory;
use jfr_chunk::{Chunk, Kept};
use jfr_filter::Filter;
use jfr_output::slim_metadata;
use jfr_path::choose;
use jfr_reach::Marks;
use jfr_rewrite::RewriteSource;
use std::alloc::Global;
use std::marker::Model;

/// The output of an accepted chunk with new keys, and the new keys.
#[derive(Drop)]
pub struct Renumberer {
    keys: NumberedKeys,
    bytes: Vec<u8>,
}

impl Model for Renumberer {
    ghost use Rattle.jfr_renumber.specs.Renumbering.{Renumbering};

    ghost Value = { Renumbering };

    ghost view = { λ r. record { keys = r.keys; bytes = r.bytes.items } };
}

impl Renumberer {
    /// Makes the output of an accepted chunk, with the events that a filter keeps. Everything to which they
    /// refer, directly or through constants, gets a new key.
    pub fn prepare(
        alloc: Global,
        chunk: &Chunk<'_>,
        filter: &Filter,
    ) -> Result<Renumberer, NoMemory>
        // The new keys, which classes and keys have one, and the output with them.
        ensures keys { IfOk result (λ r. (t : ℕ × ℕ) → number_of r.keys t ≡ new_key_of chunk.now (kept_of filter.now chunk.now) t) }
        ensures bytes { IfOk result (λ r. r.bytes ≡ renumber_of (describes filter.now) chunk.now (kept_of filter.now chunk.now)) }

        // The output is accepted, is no longer than the chunk or than its scrub, and means the same except for
        // the keys.
        ensures renumbered { IfOk result (λ r. IsRenumbered (describes filter.now) chunk.now (kept_of filter.now chunk.now)) }
    {
        Renumberer::prepare_in(alloc, Vec::new(alloc), chunk, filter)
    }

    /// Makes the output as `prepare` does, in the memory of a vector, whose items are dropped.
    pub(crate) fn prepare_in(
        alloc: Global,
        memory: Vec<u8>,
        chunk: &Chunk<'_>,
        filter: &Filter,
    ) -> Result<Renumberer, NoMemory>
        ensures keys { IfOk result (λ r. (t : ℕ × ℕ) → number_of r.keys t ≡ new_key_of chunk.now (kept_of filter.now chunk.now) t) }
        ensures bytes { IfOk result (λ r. r.bytes ≡ renumber_of (describes filter.now) chunk.now (kept_of filter.now chunk.now)) }
        ensures renumbered { IfOk result (λ r. IsRenumbered (describes filter.now) chunk.now (kept_of filter.now chunk.now)) }
    {
        // For the proof: its clauses say that the chunk is whole and has parts.
        chunk.bytes();
        let kept = choose(alloc, chunk, filter)?;
        let marks = Marks::of(alloc, chunk, &kept)?;
        let keys = NumberedKeys::make(alloc, chunk, &kept, &marks)?;
        let chosen = Chosen {
            chunk,
            kept: &kept,
            filter,
            marks: &marks,
        };
        let bytes = put_output(alloc, memory, chosen, &keys)?;
        Ok(Renumberer { keys, bytes })
    }

    /// The output chunk. Allocates nothing.
    pub fn bytes(&self) -> &[u8]
        ensures { result.now ≡ self.now.bytes }
    {
        self.bytes.as_slice()
    }

    /// The new key of a class and a key; `None` exactly if no path of a kept event leads to a reference to them
    /// (the law `used_keys_are_used`). Allocates nothing.
    pub fn new_key(&self, class: u64, key: u64) -> Option<u64>
        ensures { result ≡ number_of self.now.keys (class, key) }
    {
        self.keys.get(class, key)
    }

    /// The output chunk, as a vector.
    pub(crate) fn into_bytes(self) -> Vec<u8>
        ensures { result.items ≡ self.bytes }
    {
        self.bytes
    }
}

/// A chunk, its events that are kept, and the entries that these reach.
#[derive(Clone, Copy)]
struct Chosen<'c> {
    chunk: &'c Chunk<'c>,
    kept: &'c Kept,
    filter: &'c Filter,
    marks: &'c Marks,
}

/// Writes the output with these new keys.
fn put_output(
    alloc: Global,
    memory: Vec<u8>,
    chosen: Chosen<'_>,
    keys: &NumberedKeys,
) -> Result<Vec<u8>, NoMemory>
    requires kept { length chosen.kept.now ≡ length (events_of chosen.chunk.now) }
    requires size { length chosen.marks.now ≡ length chosen.chunk.now.entries }
    requires marks { chosen.marks.now ≡ reached_marks chosen.chunk.now (kept_by chosen.chunk.now chosen.kept.now) }
    requires keys { (t : ℕ × ℕ) → number_of keys.now t ≡ new_key_of chosen.chunk.now (kept_by chosen.chunk.now chosen.kept.now) t }
    ensures { IfOk result (λ out. out.items ≡ renumber_of (describes chosen.entry.filter.now) chosen.entry.chunk.now (kept_by chosen.entry.chunk.now chosen.entry.kept.now)) }
{
    let chunk = chosen.chunk;
    let new = EntryKeys::make(alloc, keys, chunk.pools())?;
    let entries = first_entries(alloc, chunk, chosen.marks, &new)?;
    let slim = slim_metadata(alloc, chunk, chosen.kept, chosen.filter)?;
    let source = RewriteSource {
        chunk,
        kept: chosen.kept,
        metadata: slim.as_deref(),
        entries: &entries,
        rewriting: &new,
    };
    put_chunk(alloc, memory, source)
}
