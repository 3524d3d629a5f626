//! The texts to which names of fields lead.
ghost use Rattle.std.specs.Prelude.{◌≡◌, IfOk};
ghost use Rattle.std.specs.List.{filter_map};
ghost use Rattle.jfr_chunk.specs.Parts.{events_of};
ghost use Rattle.jfr_chunk.specs.Paths.{named_text};

use jfr_base::{NoMemory, Words};
use jfr_chunk::Chunk;
use jfr_path::named;
use std::alloc::Global;

/// The texts to which names of fields lead from the chunk's events, in the order of the events. The names
/// `eventThread` and `javaName`, say, lead to the Java name of an event's thread. Events from which the names
/// lead to no text are passed over.
pub fn texts_of(alloc: Global, chunk: &Chunk<'_>, names: &Words) -> Result<Words, NoMemory>
    ensures exact { IfOk result (λ texts. texts ≡ filter_map (λ event. named_text chunk.now event.node names.now) (events_of chunk.now)) }
{
    let mut texts = Words::new(alloc);
    for number in 0..chunk.event_count() {
        let event = chunk.known_event(number);
        if let Some(text) = named(alloc, chunk, &event, names)? {
            texts.push_text(text)?;
        }
    }
    Ok(texts)
}
