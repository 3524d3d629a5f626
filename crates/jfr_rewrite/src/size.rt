//! The size of a record that was written.
ghost use Rattle.std.specs.Prelude.{◌≡◌, ◌↔◌, ◌<◌, ◌≤◌, ◌+◌, ◌-◌, ◌++◌, length, take, drop, IsTrue, OnOk};
ghost use Rattle.jfr_base.specs.Integer.{FitsIn, spell_in};
ghost use Rattle.jfr_rewrite.specs.Rewrite.{resized};
ghost use Rattle.jfr_rewrite.specs.Rewritten.{CarriesTail};
ghost use Rattle.jfr_rewrite.specs.Writing.{Wrote};

use crate::fault::WriteFault;
use crate::rewriter::Rewriter;
use jfr_base::{NoMemory, push_in, write_in};
use jfr_frame::Framed;

/// Puts the size of the record from `start` on in place of the old size, in its new width. Where the width stays, no
/// other byte moves; `scratch` holds the bytes that do.
#[inline]
pub(crate) fn put_size<R: Rewriter>(
    out: &mut Vec<u8>,
    scratch: &mut Vec<u8>,
    start: usize,
    frame: Framed,
    rewriting: &R,
) -> Result<(), WriteFault>
    requires size { (1 ≤ frame.type_at - frame.at) × (frame.type_at - frame.at ≤ 9) }
    requires within { start + (frame.type_at - frame.at) ≤ length out.old.items }
    ensures { Wrote result (λ done. (out.new.items ≡ take start out.old.items ++ resized (R.rewrite rewriting.now) frame (drop (start + (frame.type_at - frame.at)) out.old.items)) × (start < length out.new.items)) (CarriesTail (R.rewrite rewriting.now) frame (drop (start + (frame.type_at - frame.at)) out.old.items)) }
{
    let room = frame.type_at - frame.at;
    let rest = out.len() - start - room;
    let width = rewriting.width(frame, rest);
    let size = width + rest;
    if !fits(size as u64, width) {
        return Err(WriteFault::TooLong);
    }
    if width == room {
        put_in_place(out, start, width);
        return Ok(());
    }
    replace_size(out, scratch, start, room, width)?;
    Ok(())
}

/// Whether the integer can be spelled in this many bytes.
#[inline]
fn fits(value: u64, count: usize) -> bool
    requires { (1 ≤ count) × (count ≤ 9) }
    ensures { IsTrue result ↔ FitsIn value count }
{
    count == 9 || value >> (7 * count) == 0
}

/// Writes the number of bytes from offset `from` on into the first `count` of them.
#[inline]
fn put_in_place(out: &mut Vec<u8>, from: usize, count: usize)
    requires count { (1 ≤ count) × (count ≤ 9) }
    requires within { from + count ≤ length out.old.items }
    requires fits { FitsIn (length out.old.items - from) count }
    ensures { out.new.items ≡ take from out.old.items ++ (spell_in count (length out.old.items - from) ++ drop (from + count) out.old.items) }
{
    if count == 1 {
        out[from] = (out.len() - from) as u8;
        return;
    }
    if count == 2 {
        put_two_bytes(out, from);
        return;
    }
    let mut spelled = [0; 9];
    write_in((out.len() - from) as u64, count, &mut spelled);
    out[from..from + count].copy_from_slice(&spelled[..count]);
}

/// As `put_in_place`, for two bytes, which most sizes have that need more than one.
#[inline]
fn put_two_bytes(out: &mut Vec<u8>, from: usize)
    requires within { from + 2 ≤ length out.old.items }
    requires fits { length out.old.items - from < 16384 }
    ensures { out.new.items ≡ take from out.old.items ++ (spell_in 2 (length out.old.items - from) ++ drop (from + 2) out.old.items) }
{
    let size = out.len() - from;
    out[from] = (size % 128 + 128) as u8;
    out[from + 1] = (size / 128) as u8;
}

/// Writes the number of bytes of the record from offset `from` on in `width` bytes in the place of the first `room`.
#[inline(never)]
fn replace_size(
    out: &mut Vec<u8>,
    scratch: &mut Vec<u8>,
    from: usize,
    room: usize,
    width: usize,
) -> Result<(), NoMemory>
    requires width { (1 ≤ width) × (width ≤ 9) }
    requires within { from + room ≤ length out.old.items }
    requires fits { FitsIn (width + (length out.old.items - from - room)) width }
    ensures ok { OnOk result (out.new.items ≡ take from out.old.items ++ (spell_in width (width + (length out.old.items - from - room)) ++ drop (from + room) out.old.items)) }
{
    scratch.clear();
    scratch.extend_from_slice(&out[from + room..])?;
    out.truncate(from);
    push_in(out, (width + scratch.len()) as u64, width)?;
    out.extend_from_slice(scratch)?;
    Ok(())
}
