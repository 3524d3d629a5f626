//! In how many bytes the sizes of masked records are spelled. These don't depend on the old widths, which say how long
//! the masked texts were.
ghost use Rattle.std.specs.Prelude.{◌≡◌, ◌≤◌};
ghost use Rattle.jfr_rewrite.specs.Rewrite.{fewest, fewest_or_five};

use jfr_frame::{CHECKPOINT_TYPE, Framed};

/// The size of a checkpoint has five bytes, as the JVM writes it.
const CHECKPOINT_WIDTH: usize = 5;

/// In how many bytes the size of a record is spelled, given the record as it was and the number of bytes after the size.
pub(crate) fn width_of(frame: Framed, rest: usize) -> usize
    ensures exact { result ≡ fewest_or_five frame rest }
    ensures range { (1 ≤ result) × (result ≤ 9) }
{
    if frame.type_id == CHECKPOINT_TYPE {
        return CHECKPOINT_WIDTH;
    }
    fewest(rest)
}

/// The fewest bytes that can spell a size, which counts them and the bytes after it; n bytes spell sizes below 128^n.
fn fewest(rest: usize) -> usize
    ensures exact { result ≡ fewest rest }
    ensures range { (1 ≤ result) × (result ≤ 5) }
{
    if rest < 127 {
        return 1;
    }
    if rest < 16_382 {
        return 2;
    }
    if rest < 2_097_149 {
        return 3;
    }
    if rest < 268_435_452 {
        return 4;
    }
    5
}
