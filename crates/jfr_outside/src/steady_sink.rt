//! A sink in memory that never fails.
ghost use Rattle.std.specs.Prelude.{◌≡◌, [], Some, IsOkUnless};
ghost use Rattle.jfr_outside.specs.Counts.{Counts};
ghost use Rattle.jfr_outside.specs.SteadySink.{state_of};
ghost use Rattle.jfr_outside.specs.World.{IsAfterAppend, added};
ghost use Rattle.jfr_outside.specs.declared.fault.Fault.TheVariants.{Memory};

use crate::{Fault, Sink};
use std::alloc::Global;

/// A sink in memory that never fails. Contracts see its bytes, and its count of faults is always 0.
#[derive(Drop)]
pub struct SteadySink {
    bytes: Vec<u8>,
}

impl SteadySink {
    /// A sink without bytes.
    pub fn new(alloc: Global) -> SteadySink
        ensures { (state_of result).written ≡ Some [] }
    {
        SteadySink {
            bytes: Vec::new(alloc),
        }
    }

    /// The bytes that were written.
    pub fn bytes(&self) -> &[u8]
        ensures { (state_of self.now).written ≡ Some result.now }
    {
        self.bytes.as_slice()
    }
}

impl Sink for SteadySink {
    ghost state = { λ s. state_of s };

    fn write(&mut self, bytes: &[u8]) -> Result<(), Fault>
        ensures contents { IsAfterAppend result (state_of self.old).written (state_of self.new).written bytes.now added }
        ensures faults { Counts result (state_of self.old).faults (state_of self.new).faults }
        ensures steady { IsOkUnless result Memory }
    {
        self.bytes.extend_from_slice(bytes)?;
        Ok(())
    }
}
