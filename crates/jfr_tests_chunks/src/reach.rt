//! What kept events reach.
ghost use Rattle.std.specs.Prelude.{◌≡◌, ◌<◌, length, IfOk};
ghost use Rattle.jfr_chunk.specs.Parts.{events_of};

use crate::reading::with_chunk;
use jfr_chunk::{Chunk, Kept};
use jfr_fixtures::{RINGS, STRINGS, TWICE, with_classes};
use jfr_reach::Marks;
use jfr_value::Steps;
use std::alloc::Global;
use std::marker::Brand;
use std::process::Abort;
use std::sync::ledger::{Blank, Ledger};
use std::test::Fail;

/// Keeps the events of these flags.
fn set_flags(kept: &mut Kept, flags: &[bool]) {
    for (number, flag) in flags.iter().enumerate() {
        if number < kept.len() {
            kept.set(number, *flag);
        }
    }
}

/// The events of these flags are kept.
fn kept_by(alloc: Global, chunk: &Chunk<'_>, flags: &[bool]) -> Result<Kept, Fail>
    ensures { IfOk result (λ kept. length kept ≡ length (events_of chunk.now)) }
{
    let mut kept = Kept::new(alloc, chunk.event_count())?;
    set_flags(&mut kept, flags);
    if kept.len() != chunk.event_count() {
        Err("a flag is wanting")?;
    }
    Ok(kept)
}

/// Which entries the events of these flags reach.
fn marks_of<L: Ledger>(
    alloc: Global,
    blank: Blank,
    chunk: &Chunk<'_>,
    flags: &[bool],
) -> Result<Marks, Fail>
    requires name { blank.name ≡ L.name }
    requires parts { blank.parts ≡ L.parts }
    requires some { 0 < blank.parts }
    ensures { IfOk result (λ marks. length marks ≡ length chunk.now.entries) }
{
    let kept = kept_by(alloc, chunk, flags)?;
    let mut steps: Steps<L> = Steps::new(blank);
    let mut marks = Marks::make(alloc, chunk.pools())?;
    marks.mark(chunk, &kept, &mut steps);
    Ok(marks)
}

/// Compares which entries the events of these flags reach.
fn compare_marks(
    rt: &impl Abort,
    alloc: Global,
    chunk: &Chunk<'_>,
    flags: &[bool],
    reached: &[bool],
) -> Result<(), Fail> {
    let marks = marks_of::<Brand>(alloc, Blank::new(1), chunk, flags)?;
    assert_eq!(rt; chunk.pools().len(), reached.len());
    for at in 0..chunk.pools().len() {
        assert_eq!(rt; Some(&marks.is_reached(at)), reached.get(at));
    }
    Ok(())
}

/// Records, the place of their last checkpoint, which events are kept, and which entries they reach.
type Reached = (&'static [u8], u64, &'static [bool], &'static [bool]);

/// Compares which entries events reach in the chunk of these records.
fn compare_reached(
    rt: &impl Abort,
    alloc: Global,
    (records, last, flags, reached): Reached,
) -> Result<(), Fail> {
    let bytes = with_classes(alloc, records, last)?;
    with_chunk(alloc, &bytes, |chunk| {
        compare_marks(rt, alloc, chunk, flags, reached)
    })
}

/// An event reaches its own ring and no other, through strings too. Of two entries of a key it reaches
/// the last.
const REACHED: [Reached; 6] = [
    (RINGS, 333, &[true, false], &[true, true, false, false]),
    (RINGS, 333, &[false, true], &[false, false, true, true]),
    (RINGS, 333, &[true, true], &[true, true, true, true]),
    (RINGS, 333, &[false, false], &[false, false, false, false]),
    (TWICE, 344, &[true], &[false, true]),
    (STRINGS, 330, &[true], &[true, true, true, false]),
];

#[test]
fn events_reach_their_constants(rt: HostRuntime) -> Result<(), Fail> {
    for reached in REACHED.iter() {
        compare_reached(&rt, rt.alloc(), *reached)?;
    }
    Ok(())
}
