//! A sink for commands that write no text.
use jfr_outside::{Fault, Sink};

/// A sink that accepts every byte and keeps none, for a command that writes only to its place.
#[derive(Drop)]
pub struct Discard;

impl Sink for Discard {
    ghost use Rattle.std.specs.Prelude.{None};

    ghost state = { λ _. record { written = None; faults = 0 } };

    fn write(&mut self, _bytes: &[u8]) -> Result<(), Fault> {
        Ok(())
    }
}
