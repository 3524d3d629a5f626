//! Rewritten events.
ghost use Rattle.std.specs.Prelude.{◌≡◌, ◌≤◌, ◌++◌, Some, false, slice_get, IfSome, OnOk};
ghost use Rattle.jfr_frame.specs.Records.{IsRecord, record_end};
ghost use Rattle.jfr_value.specs.Nodes.{IsValue};
ghost use Rattle.jfr_chunk.specs.Parts.{events_of};
ghost use Rattle.jfr_chunk.specs.Indexed.{event_at};
ghost use Rattle.jfr_rewrite.specs.Rewrite.{event_bytes, event_tail};
ghost use Rattle.jfr_rewrite.specs.Rewritten.{CarriesTail};
ghost use Rattle.jfr_rewrite.specs.Writing.{Wrote, changed_within};

use crate::copying::{Changing, put_changed};
use crate::fault::WriteFault;
use crate::rewriter::Rewriter;
use crate::size::put_size;
use jfr_base::NoMemory;
use jfr_chunk::{Chunk, Event};

/// Appends an event of the chunk, rewritten.
fn put_event<R: Rewriter>(
    out: &mut Vec<u8>,
    scratch: &mut Vec<u8>,
    chunk: &Chunk<'_>,
    event: Event<'_>,
    rewriting: &R,
) -> Result<(), WriteFault>
    requires suits { R.suits rewriting.now chunk.now }
    requires of_chunk { event.node.bytes.now ≡ chunk.now.bytes }
    requires record { IsRecord chunk.now.bytes event.frame }
    requires value { IsValue chunk.now.classes event.node }
    requires array { event.node.shape.array ≡ false }
    requires constant { event.node.shape.constant ≡ false }
    requires start { event.node.at ≡ event.frame.body }
    requires within { event.node.end ≤ record_end event.frame }
    requires listed { slice_get (events_of chunk.now) event.number ≡ Some (event_at event) }
    ensures { Wrote result (λ done. out.new.items ≡ out.old.items ++ event_bytes (R.rewrite rewriting.now) chunk.now (event_at event.entry)) (CarriesTail (R.rewrite rewriting.now) event.entry.frame (event_tail (R.rewrite rewriting.now) chunk.now (event_at event.entry))) }
{
    let start = out.len();
    put_fields(out, chunk, event, rewriting)?;
    put_size(out, scratch, start, event.frame, rewriting)
}

/// Appends the record of an event with its changed fields, but with its old size, which `put_size` replaces.
fn put_fields<R: Rewriter>(
    out: &mut Vec<u8>,
    chunk: &Chunk<'_>,
    event: Event<'_>,
    rewriting: &R,
) -> Result<(), NoMemory>
    requires suits { R.suits rewriting.now chunk.now }
    requires of_chunk { event.node.bytes.now ≡ chunk.now.bytes }
    requires record { IsRecord chunk.now.bytes event.frame }
    requires value { IsValue chunk.now.classes event.node }
    requires start { event.node.at ≡ event.frame.body }
    requires within { event.node.end ≤ record_end event.frame }
    requires listed { slice_get (events_of chunk.now) event.number ≡ Some (event_at event) }
    ensures ok { OnOk result (out.new.items ≡ out.old.items ++ changed_within (R.rewrite rewriting.now).change chunk.now (event_at event.entry).node event.entry.frame.at (record_end event.entry.frame)) }
{
    if rewriting.put_event(out, chunk, event)? {
        return Ok(());
    }
    let frame = event.frame;
    let changing = Changing { chunk, rewriting };
    put_changed(out, &changing, event.node, frame.at, frame.end())
}

/// Appends the event of the chunk with this number, if there is one, rewritten.
pub(crate) fn put_chunk_event<R: Rewriter>(
    out: &mut Vec<u8>,
    scratch: &mut Vec<u8>,
    chunk: &Chunk<'_>,
    number: usize,
    rewriting: &R,
) -> Result<(), WriteFault>
    requires suits { R.suits rewriting.now chunk.now }
    ensures { IfSome (slice_get (events_of chunk.now) number) (λ e. Wrote result (λ done. out.new.items ≡ out.old.items ++ event_bytes (R.rewrite rewriting.now) chunk.now e) (CarriesTail (R.rewrite rewriting.now) e.record_of (event_tail (R.rewrite rewriting.now) chunk.now e))) }
{
    chunk.parts_are_valid();
    match chunk.event(number) {
        Some(event) => put_event(out, scratch, chunk, event, rewriting),
        None => Ok(()),
    }
}
