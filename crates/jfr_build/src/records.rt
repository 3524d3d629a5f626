//! The records of events.
ghost use Rattle.std.specs.Prelude.{◌≡◌, ◌≤◌, ◌<◌, ◌^◌, ◌++◌, false, length, IfOk, MatchOption, None, OnOk};
ghost use Rattle.jfr_base.specs.Integer.{FitsIn, spell_in};
ghost use Rattle.jfr_build.specs.Built.{AppendsIf, event_record, events_of, line_event};
ghost use Rattle.jfr_build.specs.LineValues.{first_bad_value, is_bad_value};

use crate::line::BuildLine;
use crate::line_values::known_value;
use crate::lines::NumberedLine;
use crate::value_bytes::ValueBytes;
use jfr_base::{NoMemory, push_var, var_len, write_in};
use jfr_layout::Classes;
use std::alloc::{AllocError, Global};

/// The number of bytes that the size of a record takes.
pub const SIZE_LEN: usize = 5;

/// A chunk has fewer bytes than this.
pub const CHUNK_LIMIT: usize = 1 << 30;

/// Appends the size of a record, in five bytes.
pub fn push_size(out: &mut Vec<u8>, size: u64) -> Result<(), AllocError>
    requires { FitsIn size 5 }
    ensures ok { OnOk result (out.new.items ≡ out.old.items ++ spell_in 5 size) }
{
    let mut spelled = [0; 9];
    write_in(size, SIZE_LEN, &mut spelled);
    out.extend_from_slice(&spelled[..SIZE_LEN])
}

/// The records of all events. `None` only if they take 2^30 bytes or more.
pub fn events_of(
    alloc: Global,
    classes: &Classes,
    lines: &[NumberedLine<'_>],
) -> Result<Option<Vec<u8>>, NoMemory>
    requires good { first_bad_value classes.now lines.now ≡ None }
    ensures exact { IfOk result (λ found. MatchOption found (2 ^ 30 ≤ length (events_of classes.now lines.now)) (λ events. events.items ≡ events_of classes.now lines.now)) }
{
    let mut events = Vec::new(alloc);
    let mut value = ValueBytes::new(alloc);
    for line in lines {
        if !push_event(&mut events, classes, &line.line, &mut value)? {
            return Ok(None);
        }
    }
    Ok(Some(events))
}

/// Appends the record of the line, if it is an event. `false` only if the record takes 2^30 bytes or more.
fn push_event(
    events: &mut Vec<u8>,
    classes: &Classes,
    line: &BuildLine<'_>,
    value: &mut ValueBytes,
) -> Result<bool, NoMemory>
    requires good { is_bad_value classes.now line.now ≡ false }
    ensures exact { IfOk result (λ fits. AppendsIf fits (line_event classes.now line.now) events.old.items events.new.items) }
{
    let BuildLine::Record { class, .. } = line else {
        return Ok(true);
    };
    known_value(classes, line, value)?;
    push_record(events, *class, value.as_slice())
}

/// Appends the record of an event. `false` only if it takes 2^30 bytes or more.
fn push_record(events: &mut Vec<u8>, class: u64, value: &[u8]) -> Result<bool, NoMemory>
    ensures exact { IfOk result (λ fits. AppendsIf fits (event_record class value.now) events.old.items events.new.items) }
{
    if value.len() >= CHUNK_LIMIT {
        return Ok(false);
    }
    let size = SIZE_LEN + var_len(class) + value.len();
    push_size(events, size as u64)?;
    push_var(events, class)?;
    events.extend_from_slice(value)?;
    Ok(true)
}
