//! Compressed integers at the end of a vector.
ghost use Rattle.std.specs.Prelude.{◌≡◌, ◌++◌, ◌≤◌, OnOk};
ghost use Rattle.jfr_base.specs.Integer.{FitsIn, spell, spell_in};

use crate::{write_in, write_var};
use std::alloc::AllocError;

/// Appends the shortest spelling of a value.
#[inline]
pub fn push_var(out: &mut Vec<u8>, value: u64) -> Result<(), AllocError>
    ensures ok { OnOk result (out.new.items ≡ out.old.items ++ spell value) }
{
    if value < 128 {
        out.push(value as u8)?;
        return Ok(());
    }
    push_long(out, value)
}

/// Appends the shortest spelling of any value. It is out of line, since most integers have one byte.
#[inline(never)]
fn push_long(out: &mut Vec<u8>, value: u64) -> Result<(), AllocError>
    ensures ok { OnOk result (out.new.items ≡ out.old.items ++ spell value) }
{
    let mut spelled = [0; 9];
    let len = write_var(value, &mut spelled);
    out.extend_from_slice(&spelled[..len])
}

/// Appends the spelling of a value in `count` bytes.
pub fn push_in(out: &mut Vec<u8>, value: u64, count: usize) -> Result<(), AllocError>
    requires count { (1 ≤ count) × (count ≤ 9) }
    requires fits { FitsIn value count }
    ensures ok { OnOk result (out.new.items ≡ out.old.items ++ spell_in count value) }
{
    let mut spelled = [0; 9];
    write_in(value, count, &mut spelled);
    out.extend_from_slice(&spelled[..count])
}
