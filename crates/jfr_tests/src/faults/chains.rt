//! Chunks with many checkpoints.
use crate::faults::scrub::see_scrub;
use jfr_fixtures::{CLASSES, NO_EVENT_CLASSES, NO_POOLS, with_metadata};
use std::alloc::{AllocError, Global};
use std::process::Abort;
use std::test::Fail;

const CHECKPOINTS: u64 = 50_000;

// The first checkpoint of a chain, the second, and each one after it.
struct Chain {
    first: &'static [u8],
    second: &'static [u8],
    later: &'static [u8],
}

// Checkpoints without pools.
const EMPTY: Chain = Chain {
    first: NO_POOLS,
    second: &[
        0x0F, 1, 0, 0, 0xF9, 0xFF, 0xFF, 0xFF, 0xFF, 0xFF, 0xFF, 0xFF, 0xFF, 0, 0,
    ],
    later: &[
        0x0F, 1, 0, 0, 0xF1, 0xFF, 0xFF, 0xFF, 0xFF, 0xFF, 0xFF, 0xFF, 0xFF, 0, 0,
    ],
};

// Checkpoints with a node each, all of one key.
const WITH_NODES: Chain = Chain {
    first: &[0x0E, 1, 0, 0, 0, 0, 1, 7, 1, 1, 0, 3, 1, 0x70],
    second: &[
        0x16, 1, 0, 0, 0xF2, 0xFF, 0xFF, 0xFF, 0xFF, 0xFF, 0xFF, 0xFF, 0xFF, 0, 1, 7, 1, 1, 0, 3,
        1, 0x70,
    ],
    later: &[
        0x16, 1, 0, 0, 0xEA, 0xFF, 0xFF, 0xFF, 0xFF, 0xFF, 0xFF, 0xFF, 0xFF, 0, 1, 7, 1, 1, 0, 3,
        1, 0x70,
    ],
};

// Adds the checkpoints of a chain.
fn push_chain(records: &mut Vec<u8>, chain: &Chain) -> Result<(), AllocError> {
    records.extend_from_slice(chain.first)?;
    records.extend_from_slice(chain.second)?;
    for _ in 2..CHECKPOINTS {
        records.extend_from_slice(chain.later)?;
    }
    Ok(())
}

// A chunk of a metadata record and the checkpoints of a chain, the last of which starts at `last`.
fn chained(
    alloc: Global,
    metadata: &[u8],
    chain: &Chain,
    last: u64,
) -> Result<Vec<u8>, AllocError> {
    let mut records = Vec::new(alloc);
    push_chain(&mut records, chain)?;
    with_metadata(alloc, metadata, &records, last)
}

// Scrubs a long chain, of which this is left.
fn see_chain(
    rt: &impl Abort,
    alloc: Global,
    chain: &Chain,
    last: u64,
    left: &[u8],
) -> Result<(), Fail> {
    let chunk = chained(alloc, CLASSES, chain, last)?;
    see_scrub(rt, alloc, &chunk, 0, "", left)
}

// A long chain stays. Where its nodes go, since nothing reaches them, the deltas become those of what is
// left. The descriptions of the event classes go, since there are no events.
#[test]
fn long_chains_are_scrubbed(rt: HostRuntime) -> Result<(), Fail> {
    let alloc = rt.alloc();
    let more = CHECKPOINTS - 2;
    let left = chained(alloc, NO_EVENT_CLASSES, &EMPTY, 234 + 7 + 15 * more)?;
    see_chain(&rt, alloc, &EMPTY, 325 + 7 + 15 * more, &left)?;
    see_chain(&rt, alloc, &WITH_NODES, 325 + 14 + 22 * more, &left)
}
