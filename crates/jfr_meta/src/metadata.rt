//! Reading a metadata record.
ghost use Rattle.std.specs.Prelude.{◌≤◌, IfOk, IfErr};
ghost use Rattle.jfr_frame.specs.Records.{IsRecord};
ghost use Rattle.jfr_meta.specs.Answers.{IfFlawed};
ghost use Rattle.jfr_meta.specs.Described.{IsMetadata, IsMetadataFlaw};
ghost use Rattle.jfr_meta.specs.Written.{depth};

use crate::Element;
use crate::body::read_body;
use crate::described::describe;
use jfr_base::{ReadFault, Words};
use jfr_frame::Framed;
use jfr_layout::Classes;
use std::alloc::Global;

/// The contents of a metadata record (docs/FORMAT.md, Metadata).
#[derive(Drop)]
pub struct Metadata {
    /// When its writing began, in ticks.
    pub start: u64,
    /// How long its writing took, in ticks.
    pub duration: u64,
    /// The number that the recorder gave the metadata; any is accepted.
    pub id: u64,
    /// The table of strings, as texts.
    pub strings: Words,
    /// The tree of elements. Names and attributes are indices into the table.
    pub root: Element,
    /// The classes that the tree describes.
    pub classes: Classes,
}

/// Reads the metadata record of a chunk, and the classes that it describes.
///
/// Four things are checked, in this order: the body can be read from left to right, to its end; the tree
/// has an element for the classes; the attributes of class and field elements are good; and the classes are
/// sound, by the stages of `Classes::make`. The flaw is the first one in this order. In the body and in the
/// attributes it is the leftmost, and in the classes the first of the first stage that has one.
///
/// `Flawed` exactly if the record is refused, with one of the reasons from number 13, `Short`, to 25,
/// `InlineDeep`; `Memory` if memory runs out.
pub fn read_metadata(alloc: Global, chunk: &[u8], frame: &Framed) -> Result<Metadata, ReadFault>
    requires { IsRecord chunk.now frame.now }
    ensures ok { IfOk result (λ m. IsMetadata chunk.now frame.now (record { start = m.start; duration = m.duration; id = m.id; strings = m.strings; root = m.root }) m.classes) }
    ensures shallow { IfOk result (λ m. depth m.root ≤ 16) }
    ensures refused { IfErr result (IfFlawed (IsMetadataFlaw chunk.now frame.now)) }
{
    let body = read_body(alloc, chunk, frame.body, frame.at + frame.size)?;
    let classes = describe(alloc, &body.strings, &body.root)?;
    Ok(Metadata {
        start: body.start,
        duration: body.duration,
        id: body.id,
        strings: body.strings,
        root: body.root,
        classes,
    })
}
