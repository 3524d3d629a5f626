//! Masked chunks.
ghost use Rattle.std.specs.Prelude.{◌≡◌, ◌<◌, ◌≤◌, ◌^◌, length, option_map, Err, IfOk, OnOk};
ghost use Rattle.jfr_chunk.specs.Parts.{events_of};
ghost use Rattle.jfr_chunk.specs.Reach.{kept_by};
ghost use Rattle.jfr_rewrite.specs.Rewrite.{rewritten};
ghost use Rattle.jfr_rewrite.specs.Writing.{AreSomeOf, with_metadata};
ghost use Rattle.jfr_mask.specs.declared.fault.MaskFault.TheVariants.{TooLong};
ghost use Rattle.jfr_mask.specs.Maskers.{KnowsPlain, masking_of, rewrite_by};
ghost use Rattle.jfr_mask.specs.MaskOf.{dictionary_after, mask_of};
ghost use Rattle.jfr_mask.specs.Noted.{HasListed, HasNoted};

use crate::left::{Left, left_of};
use crate::masker::Masker;
use crate::numbering::Numbering;
use crate::plain::PlainClasses;
use crate::texts::MaskedStrings;
use crate::{Dictionary, Known, MaskFault, MaskedFields};
use jfr_chunk::{Chunk, Kept};
use jfr_filter::{Filter, Patterns};
use jfr_output::slim_metadata;
use jfr_rewrite::{RewriteSource, WriteFault, sizes_are_carried, write_chunk};
use std::alloc::Global;

/// A masked chunk is below this length.
const LIMIT: usize = 1 << 30;

/// What is masked in a recording.
#[derive(Clone, Copy)]
pub struct MaskOptions<'m> {
    /// The patterns of the masked fields.
    pub strings: &'m Patterns,
    /// The patterns of the fields that aren't masked although `strings` matches them.
    pub except: Option<&'m Patterns>,
    /// The texts that are shown as they are.
    pub known: &'m Known,
    /// Names the event classes that are described even without events. It doesn't choose the events.
    pub filter: &'m Filter,
}

/// Masks a chunk: writes the kept events and what they reach, with pseudonyms in the masked strings, in the memory of a
/// vector, whose items are dropped. The dictionary is that after the chunks before, and gets the texts of this one. If
/// memory runs out or the masked chunk would have 2^30 bytes, it may have some or all of them.
pub fn mask_chunk<'m>(
    alloc: Global,
    memory: Vec<u8>,
    chunk: &'m Chunk<'m>,
    kept: &'m Kept,
    options: MaskOptions<'m>,
    dictionary: &mut Dictionary,
) -> Result<Vec<u8>, MaskFault>
    requires { length kept.now ≡ length (events_of chunk.now) }
    ensures ok { IfOk result (λ out. out.items ≡ mask_of (masking_of options.entry) dictionary.old chunk.now (kept_by chunk.now kept.now)) }
    ensures below { IfOk result (λ out. length out.items < 2 ^ 30) }
    ensures dictionary { OnOk result (dictionary.new ≡ dictionary_after (masking_of options.entry) dictionary.old chunk.now (kept_by chunk.now kept.now)) }
    ensures too_long { result ≡ Err TooLong → 2 ^ 30 ≤ length (mask_of (masking_of options.entry) dictionary.old chunk.now (kept_by chunk.now kept.now)) }
{
    let masked = MaskedFields::of(alloc, options.strings, options.except, chunk.classes())?;
    let plain = PlainClasses::of(alloc, &masked, chunk.classes())?;
    let Left { entries, events } = left_of(alloc, chunk, kept, &masked, &plain)?;
    let strings = MaskedStrings {
        chunk: &*chunk,
        masked: &masked,
        plain: &plain,
    };
    let known = options.known;
    let numbering = Numbering {
        alloc,
        strings,
        known,
        kept: &*kept,
        events: &events,
    };
    let noted = numbering.number_chunk(dictionary, &entries)?;
    let metadata = slim_metadata(alloc, chunk, kept, options.filter)?;
    let masker = Masker {
        alloc,
        strings,
        known,
        dictionary,
        kept: &*kept,
        events: &events,
        noted: &noted,
    };
    let source = RewriteSource {
        chunk: &*chunk,
        kept: &*kept,
        metadata: metadata.as_deref(),
        entries: &entries,
        rewriting: &masker,
    };
    put_masked(alloc, memory, source)
}

/// Writes the masked chunk, if it is below the limit.
fn put_masked(
    alloc: Global,
    memory: Vec<u8>,
    source: RewriteSource<'_, Masker<'_, '_>>,
) -> Result<Vec<u8>, MaskFault>
    requires chunk { source.chunk.now ≡ source.rewriting.now.strings.chunk.now }
    requires plain { KnowsPlain source.rewriting.now.strings }
    requires noted { HasNoted source.rewriting.now }
    requires listed { HasListed source.rewriting.now }
    requires entries { AreSomeOf source.chunk.now source.entries.now }
    ensures ok { IfOk result (λ out. out.items ≡ rewritten (with_metadata (rewrite_by source.entry.rewriting.now) (option_map (λ s. s.now) source.entry.metadata)) source.entry.chunk.now (kept_by source.entry.chunk.now source.entry.kept.now) source.entry.entries.now) }
    ensures below { IfOk result (λ out. length out.items < 2 ^ 30) }
    ensures too_long { result ≡ Err TooLong → 2 ^ 30 ≤ length (rewritten (with_metadata (rewrite_by source.entry.rewriting.now) (option_map (λ s. s.now) source.entry.metadata)) source.entry.chunk.now (kept_by source.entry.chunk.now source.entry.kept.now) source.entry.entries.now) }
{
    sizes_are_carried();
    match write_chunk(alloc, memory, source) {
        Ok(out) => below_limit(out),
        Err(WriteFault::TooLong) => Err(MaskFault::TooLong),
        Err(WriteFault::Memory) => Err(MaskFault::Memory),
    }
}

/// The bytes, if they are below the limit.
fn below_limit(out: Vec<u8>) -> Result<Vec<u8>, MaskFault>
    ensures ok { IfOk result (λ same. same.items ≡ out.items) }
    ensures below { IfOk result (λ same. length same.items < 2 ^ 30) }
    ensures too_long { result ≡ Err TooLong → 2 ^ 30 ≤ length out.items }
{
    if out.len() < LIMIT {
        Ok(out)
    } else {
        Err(MaskFault::TooLong)
    }
}
