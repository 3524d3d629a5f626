//! Making the receipt of a chunk, or of its scrub.
ghost use Rattle.std.specs.Prelude.{◌≡◌, ◌∷◌, ◌++◌, length, OnOk, IfOk};
ghost use Rattle.std.specs.List.{flat_map};
ghost use Rattle.jfr_base.specs.Integer.{spell};
ghost use Rattle.jfr_chunk.specs.Reach.{kept_by};
ghost use Rattle.jfr_chunk.specs.Metas.{Names};
ghost use Rattle.jfr_laws.specs.Laws.{IsKept};
ghost use Rattle.jfr_verify.specs.Ranks.{ranked_bytes};
ghost use Rattle.jfr_verify.specs.Receipts.{line_bytes, parent_kind, parent_number, receipt_of};

use crate::compact::CompactLine;
use crate::ranks::{ranked, ranks_of};
use crate::walk::{kept_lines_in, lines_in};
use crate::{Line, Parent};
use jfr_base::{NoMemory, push_var};
use jfr_chunk::{Chunk, Kept};
use std::alloc::{AllocError, Global};
use std::marker::Model;

/// A receipt of a chunk. Contracts see its bytes.
#[derive(Drop)]
pub struct Receipt {
    bytes: Vec<u8>,
}

impl Model for Receipt {
    ghost use Rattle.std.specs.Prelude.{List, ℕ};

    ghost Value = { List ℕ };

    ghost view = { λ r. r.bytes.items };
}

impl Receipt {
    /// The bytes of the receipt. Allocates nothing.
    pub fn bytes(&self) -> &[u8]
        ensures { result.now ≡ self.now }
    {
        self.bytes.as_slice()
    }
}

/// The receipt of a chunk: the number of lines, then for each entry that events reach, directly or through
/// other entries, a line with the first parent that refers to it. Each integer has its shortest form.
pub fn receipt_of(alloc: Global, chunk: &Chunk<'_>) -> Result<Receipt, NoMemory>
    ensures ok { IfOk result (λ receipt. receipt ≡ receipt_of chunk.now) }
{
    let lines = lines_in(alloc, chunk)?;
    let mut bytes = Vec::new(alloc);
    push_var(&mut bytes, lines.items.len() as u64)?;
    push_lines(&mut bytes, &lines.items)?;
    Ok(Receipt { bytes })
}

/// The receipt of the scrub of a chunk in which these events are kept, whichever classes it describes. It is
/// made from the chunk itself; the scrub isn't needed.
pub fn receipt_of_scrub(alloc: Global, chunk: &Chunk<'_>, kept: &Kept) -> Result<Receipt, NoMemory>
    ensures ok { IfOk result (λ receipt. (names : Names) (scrub : IsKept names chunk.now (kept_by chunk.now kept.now)) → receipt ≡ receipt_of scrub.parts) }
{
    chunk.parts_are_valid();
    let lines = kept_lines_in(alloc, chunk, kept)?;
    let ranks = ranks_of(alloc, &lines.flags)?;
    let mut bytes = Vec::new(alloc);
    push_var(&mut bytes, lines.items.len() as u64)?;
    push_ranked(&mut bytes, &lines.items, &ranks)?;
    Ok(Receipt { bytes })
}

/// Appends lines with the ranks of their entries.
fn push_ranked(out: &mut Vec<u8>, lines: &[CompactLine], ranks: &[u32]) -> Result<(), AllocError>
    ensures ok { OnOk result (out.new.items ≡ out.old.items ++ flat_map (ranked_bytes ranks.now) lines.now) }
{
    for compact_line in lines {
        push_line(out, ranked(compact_line.line(), ranks))?;
    }
    Ok(())
}

/// Appends lines.
fn push_lines(out: &mut Vec<u8>, lines: &[CompactLine]) -> Result<(), AllocError>
    ensures ok { OnOk result (out.new.items ≡ out.old.items ++ flat_map line_bytes lines.now) }
{
    for compact_line in lines {
        push_line(out, compact_line.line())?;
    }
    Ok(())
}

/// Appends a line: the number of its entry, and its parent.
fn push_line(out: &mut Vec<u8>, line: Line) -> Result<(), AllocError>
    ensures ok { OnOk result (out.new.items ≡ out.old.items ++ line_bytes line) }
{
    push_var(out, line.entry as u64)?;
    push_parent(out, line.parent)
}

/// Appends a parent: the byte of its kind and its number.
fn push_parent(out: &mut Vec<u8>, parent: Parent) -> Result<(), AllocError>
    ensures ok { OnOk result (out.new.items ≡ out.old.items ++ parent_kind parent ∷ spell (parent_number parent)) }
{
    let (kind, number) = match parent {
        Parent::OfEvent(number) => (0, number),
        Parent::OfEntry(number) => (1, number),
    };
    out.push(kind)?;
    push_var(out, number as u64)
}
