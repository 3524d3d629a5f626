//! The chain of checkpoints.
ghost use Rattle.std.specs.Prelude.{◌≡◌, ◌+ℤ◌, ◌<◌, length, pos, reverse, slice_get, option_copied, IfOk, IfErr, IfSome, IsTrue, MatchResult, Some};
ghost use Rattle.jfr_base.specs.Formats.{run};
ghost use Rattle.jfr_frame.specs.Records.{AreRecords, IsRecord, record_end, starts_at};
ghost use Rattle.jfr_pool.specs.Chains.{IsChain, IsReadFrom, IsRefusedChain, chain_of, checkpoint_at, earlier_checkpoint, earlier_place, head_format, linked, older_of};
ghost use Rattle.jfr_pool.specs.Faults.{TellsFlaw};

use crate::Link;
use jfr_base::{Flaw, ReadFault, Reason, read_within, signed};
use jfr_frame::{CHECKPOINT_TYPE, Framed, Frames};
use std::alloc::Global;
use std::marker::Model;

/// The chained checkpoints of a chunk, in the order of the file: the oldest first.
#[derive(Drop)]
pub struct Chain {
    links: Vec<Link>,
}

impl Model for Chain {
    ghost use Rattle.std.specs.Prelude.{List};
    ghost use Rattle.jfr_pool.specs.declared.link.Link.{Link};

    ghost Value = { List Link };

    ghost view = { λ chain. chain.links.items };
}

impl Chain {
    /// Reads the chain whose newest checkpoint starts at the offset `last`, newest first. It is refused as
    /// `Short` if a checkpoint's start, duration or delta doesn't end within its record, and as
    /// `ChainDelta`, at the delta, if that isn't 0 and doesn't lead to an earlier checkpoint. `Memory` if
    /// memory runs out.
    pub fn read(alloc: Global, chunk: &[u8], frames: &Frames, last: u64) -> Result<Chain, ReadFault>
        requires framed { AreRecords chunk.now frames.now }
        requires last { IsTrue (starts_at frames.now last 1) }
        ensures ok { IfOk result (λ chain. IsChain chunk.now frames.now last (reverse chain)) }
        ensures read { IfOk result (λ chain. IsReadFrom chunk.now chain) }
        ensures refused { IfErr result (λ fault. IsRefusedChain chunk.now frames.now last fault) }

        // The answer that `chain_of` computes.
        ensures exact { IfSome (checkpoint_at frames.now last) (λ r. MatchResult result (λ chain. chain_of chunk.now frames.now r ≡ Ok (reverse chain)) (TellsFlaw (chain_of chunk.now frames.now r))) }
    {
        let mut links = Vec::new(alloc);
        let mut next = frames.find(last, CHECKPOINT_TYPE);
        'links: while let Some(frame) = next {
            let link = read_link(chunk, frame)?;
            next = older(frames, &link)?;
            links.push(link)?;
        }
        links.reverse();
        Ok(Chain { links })
    }

    /// The number of checkpoints.
    pub fn len(&self) -> usize
        ensures { result ≡ length self.now }
    {
        self.links.len()
    }

    /// The checkpoint with this number, from 0, in the order of the file.
    pub(crate) fn at(&self, number: usize) -> &Link
        requires { number < length self.now }
        ensures { slice_get self.now number ≡ Some result.now }
    {
        &self.links[number]
    }

    /// The checkpoint with this number, from 0, in the order of the file, if there is one.
    pub fn get(&self, at: usize) -> Option<&Link>
        ensures { option_copied result ≡ slice_get self.now at }
    {
        self.links.get(at)
    }
}

/// A checkpoint, read up to its delta.
#[tactic(auto, unfolding(jfr_base::specs::Formats::run))]
fn read_link(chunk: &[u8], frame: Framed) -> Result<Link, Flaw>
    requires { IsRecord chunk.now frame }
    ensures exact { result ≡ linked frame (run head_format chunk.now (record_end frame) frame.body) }
{
    let end = frame.end();
    let start = read_within(chunk, frame.body, end)?;
    let duration = read_within(chunk, start.end, end)?;
    let delta = read_within(chunk, duration.end, end)?;
    Ok(Link {
        frame,
        delta_at: duration.end,
        delta_end: delta.end,
        delta: signed(delta.value),
    })
}

/// The checkpoint to which a checkpoint's delta leads; `None` for the oldest, whose delta is 0.
fn older(frames: &Frames, link: &Link) -> Result<Option<Framed>, Flaw>
    ensures exact { result ≡ older_of frames.now link.now }
{
    if link.delta == 0 {
        return Ok(None);
    }
    match earlier_checkpoint(frames, link) {
        Some(frame) => Ok(Some(frame)),
        None => Err(Flaw {
            offset: link.delta_at as u64,
            reason: Reason::ChainDelta,
        }),
    }
}

/// The checkpoint that starts where a checkpoint's delta leads, if that is an earlier offset.
fn earlier_checkpoint(frames: &Frames, link: &Link) -> Option<Framed>
    ensures { result ≡ earlier_checkpoint frames.now (earlier_place link.now.frame.at (pos link.now.frame.at +ℤ link.now.delta)) }
{
    let offset = earlier_place(link.frame.at, link.delta)?;
    frames.find(offset, CHECKPOINT_TYPE)
}

/// The offset to which a delta leads from the offset `at`, if it is an earlier one.
fn earlier_place(at: usize, delta: i64) -> Option<u64>
    ensures { result ≡ earlier_place at (pos at +ℤ delta) }
{
    if delta >= 0 {
        return None;
    }
    (at as u64).checked_sub(delta.unsigned_abs())
}
