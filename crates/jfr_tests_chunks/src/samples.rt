//! Samples, read as chunks.
use crate::reading::with_chunk;
use jfr_chunk::Chunk;
use jfr_sample::sample;
use std::process::Abort;
use std::test::Fail;

/// The class of each event of a sample, and the key of its node, which is its last byte.
const EVENTS: [(u64, u8); 7] = [(8, 6), (8, 7), (9, 4), (9, 6), (8, 5), (9, 1), (8, 4)];

/// The class of an event, and its last byte.
fn class_and_key(chunk: &Chunk<'_>, number: usize) -> Option<(u64, u8)> {
    let event = chunk.event(number)?;
    let key = chunk.bytes().get(event.node.end.saturating_sub(1))?;
    Some((event.frame.type_id, *key))
}

/// Compares the events of a chunk with these.
fn compare_events(rt: &impl Abort, chunk: &Chunk<'_>) -> Result<(), Fail> {
    assert_eq!(rt; chunk.event_count(), EVENTS.len());
    assert_eq!(rt; chunk.pools().len(), EVENTS.len());
    for (number, event) in EVENTS.iter().enumerate() {
        assert!(rt; class_and_key(chunk, number) == Some(*event), "{number}");
    }
    Ok(())
}

#[test]
fn a_sample_has_the_events_of_its_seed(rt: HostRuntime) -> Result<(), Fail> {
    let bytes = sample(rt.alloc(), 0, 7)?;
    assert_eq!(rt; bytes.len(), 418);
    with_chunk(rt.alloc(), &bytes, |chunk| compare_events(&rt, chunk))
}
