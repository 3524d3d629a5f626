//! The choice of the events that are kept.
ghost use Rattle.std.specs.Prelude.{◌≡◌, ◌<◌, length, replicate, slice_get, slice_set, unwrap_or, false, true, IfOk};
ghost use Rattle.std.specs.List.{count_by, list_all};

use jfr_base::NoMemory;
use std::alloc::Global;
use std::marker::Model;

/// Which events of a chunk are kept: a flag for each, in the order of the file, and the number of those that
/// are set.
#[derive(Drop)]
pub struct Kept {
    flags: Vec<bool>,
    total: usize,
}

impl Model for Kept {
    ghost use Rattle.std.specs.Prelude.{◌≡◌, List, Bool};
    ghost use Rattle.std.specs.List.{count_by};

    ghost Value = { List Bool };

    ghost view = { λ kept. kept.flags.items };

    ghost invariant = { λ kept. kept.total ≡ count_by (λ keep. keep) kept.flags.items };
}

impl Kept {
    /// The choice of none of `count` events.
    pub fn new(alloc: Global, count: usize) -> Result<Kept, NoMemory>
        ensures { IfOk result (λ kept. kept ≡ replicate count false) }
    {
        let mut flags = Vec::new(alloc);
        flags.resize(count, false)?;
        Ok(Kept { flags, total: 0 })
    }

    /// The choice of all of `count` events.
    pub fn all(alloc: Global, count: usize) -> Result<Kept, NoMemory>
        ensures { IfOk result (λ kept. kept ≡ replicate count true) }
    {
        let mut flags = Vec::new(alloc);
        flags.resize(count, true)?;
        Ok(Kept {
            flags,
            total: count,
        })
    }

    /// Sets whether this event is kept.
    pub fn set(&mut self, at: usize, keep: bool)
        requires { at < length self.old }
        ensures { self.new ≡ slice_set self.old at keep }
    {
        let before = self.flags[at];
        self.total = self.total - usize::from(before) + usize::from(keep);
        self.flags[at] = keep;
    }

    /// Whether this event is kept; `None` exactly if there is no such event.
    pub fn get(&self, at: usize) -> Option<bool>
        ensures { result ≡ slice_get self.now at }
    {
        self.flags.get(at).copied()
    }

    /// Whether each event is kept, in the order of the file.
    pub fn as_slice(&self) -> &[bool]
        ensures { result.now ≡ self.now }
    {
        &self.flags
    }

    /// Whether there is such an event, and it is kept.
    #[inline]
    pub fn is_kept(&self, at: usize) -> bool
        ensures { result ≡ unwrap_or (slice_get self.now at) false }
    {
        self.flags.get(at).copied().unwrap_or(false)
    }

    /// Whether every event is kept.
    pub fn are_all(&self) -> bool
        ensures { result ≡ list_all (λ keep. keep) self.now }
    {
        self.total == self.flags.len()
    }

    /// The number of events that are kept.
    pub fn kept_count(&self) -> usize
        ensures { result ≡ count_by (λ keep. keep) self.now }
    {
        self.total
    }

    /// The number of events, kept or not.
    pub fn len(&self) -> usize
        ensures { result ≡ length self.now }
    {
        self.flags.len()
    }
}
