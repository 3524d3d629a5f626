//! The events. A random draw decides the class and the node of each.
ghost use Rattle.std.specs.Prelude.{◌≡◌, ◌≤◌, ◌++◌, OnOk};
ghost use Rattle.jfr_sample.specs.Sample.{event_by, event_a, event_b, events_to, next_draw};

use crate::spelled::push_size;
use jfr_base::{push_var, var_len};
use jfr_outside::NoMemory;

/// The id of the event class `t.A`.
const CLASS_A: u64 = 8;

/// The id of the event class `t.B`.
const CLASS_B: u64 = 9;

/// The length of the longest event: a size of four bytes, the class in one, and two integers below 2^21.
pub const EVENT_LEN: usize = 11;

/// Draws below this give a `t.A`, the others a `t.B`.
const HALF: u32 = 1 << 31;

/// The draw that follows this one (a linear congruential generator).
fn next_draw(draw: u32) -> u32
    ensures { result ≡ next_draw draw }
{
    let next = (1_664_525 * u64::from(draw) + 1_013_904_223) % (1 << 32);
    next as u32
}

/// Adds all events, in order.
pub fn push_events(into: &mut Vec<u8>, seed: u32, events: u32) -> Result<(), NoMemory>
    requires some { 1 ≤ events }
    requires most { events ≤ 1000000 }
    ensures { OnOk result (into.new.items ≡ into.old.items ++ events_to seed events events) }
{
    let mut draw = seed;
    for count in 0..events {
        draw = next_draw(draw);
        push_event(into, events, count + 1, draw)?;
    }
    Ok(())
}

/// Adds the event with this number, whose class and node follow from the draw.
fn push_event(into: &mut Vec<u8>, events: u32, number: u32, draw: u32) -> Result<(), NoMemory>
    requires { 1 ≤ events }
    ensures { OnOk result (into.new.items ≡ into.old.items ++ event_by events number draw) }
{
    let key = 1 + u64::from(draw / 256 % events);
    if draw < HALF {
        push_a(into, u64::from(number), key)
    } else {
        push_b(into, key)
    }
}

/// Adds a `t.A` with this number and the node with this key.
fn push_a(into: &mut Vec<u8>, number: u64, key: u64) -> Result<(), NoMemory>
    ensures { OnOk result (into.new.items ≡ into.old.items ++ event_a number key) }
{
    push_size(into, var_len(CLASS_A) + var_len(number) + var_len(key))?;
    push_var(into, CLASS_A)?;
    push_var(into, number)?;
    push_var(into, key)?;
    Ok(())
}

/// Adds a `t.B` with the node with this key.
fn push_b(into: &mut Vec<u8>, key: u64) -> Result<(), NoMemory>
    ensures { OnOk result (into.new.items ≡ into.old.items ++ event_b key) }
{
    push_size(into, var_len(CLASS_B) + var_len(key))?;
    push_var(into, CLASS_B)?;
    push_var(into, key)?;
    Ok(())
}
