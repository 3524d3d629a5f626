//! A sink in memory whose writes can be made to fail.
ghost use Rattle.std.specs.Prelude.{◌≡◌, [], ◌∷◌, ◌++◌, Some, IfSome, OnOk, OnErr, IsErrOf, IsOkUnless};
ghost use Rattle.jfr_outside.specs.Counts.{Counts};
ghost use Rattle.jfr_outside.specs.MemorySink.{state_of, scripts_of};
ghost use Rattle.jfr_outside.specs.Calls.{KeepsPrefix};
ghost use Rattle.jfr_outside.specs.Scripts.{kept, after_call, IsDue};
ghost use Rattle.jfr_outside.specs.World.{IsAfterAppend, added};
ghost use Rattle.jfr_outside.specs.declared.fault.Fault.TheVariants.{Failed, Memory};
ghost use Rattle.jfr_outside.specs.declared.script.Call.TheVariants.{Append};

use crate::script::Scripts;
use crate::{Call, Fault, Sink, SteadySink};
use jfr_base::NoMemory;
use std::alloc::Global;

/// A sink in memory. Contracts see its bytes. It fails only if a script says so.
#[derive(Drop)]
pub struct MemorySink {
    sink: SteadySink,
    scripts: Scripts,
    faults: u64,
}

impl MemorySink {
    /// A sink without bytes and scripts, with no faults.
    pub fn new(alloc: Global) -> MemorySink
        ensures contents { (state_of result).written ≡ Some [] }
        ensures faults { (state_of result).faults ≡ 0 }
        ensures scripts { scripts_of result ≡ [] }
    {
        MemorySink {
            sink: SteadySink::new(alloc),
            scripts: Scripts::new(alloc),
            faults: 0,
        }
    }

    /// The bytes that were written.
    pub fn bytes(&self) -> &[u8]
        ensures { (state_of self.now).written ≡ Some result.now }
    {
        self.sink.bytes()
    }

    /// Makes the nth write from now on fail, counted from 1, with at most `keep` of its bytes kept. With 0 no
    /// write fails.
    pub fn fail(&mut self, nth: u64, keep: usize) -> Result<(), NoMemory>
        ensures contents { state_of self.new ≡ state_of self.old }
        ensures ok { OnOk result (scripts_of self.new ≡ scripts_of self.old ++ record { call = Append; left = nth; keep = keep } ∷ []) }
        ensures unchanged { OnErr result (scripts_of self.new ≡ scripts_of self.old) }
    {
        self.scripts.add(Call::Append, nth, keep)
    }
}

impl Sink for MemorySink {
    ghost state = { λ s. state_of s };

    fn write(&mut self, bytes: &[u8]) -> Result<(), Fault>
        ensures contents { IsAfterAppend result (state_of self.old).written (state_of self.new).written bytes.now added }
        ensures faults { Counts result (state_of self.old).faults (state_of self.new).faults }

        // A write fails exactly if a script says so, and keeps no more bytes than that script allows.
        ensures due { IsDue Append (scripts_of self.old) → IsErrOf result Failed }
        ensures cause { IsErrOf result Failed → IsDue Append (scripts_of self.old) }
        ensures keeps { IfSome (kept Append (scripts_of self.old)) (λ keep. KeepsPrefix keep (state_of self.old).written (state_of self.new).written bytes.now added) }
        ensures steady { scripts_of self.old ≡ [] → IsOkUnless result Memory }
        ensures scripts { scripts_of self.new ≡ after_call Append (scripts_of self.old) }
    {
        match self.scripts.pass(Call::Append) {
            Some(keep) => {
                let kept = &bytes[..keep.min(bytes.len())];
                let _ = self.sink.write(kept);
                self.faults = self.faults.saturating_add(1);
                Err(Fault::Failed)
            }
            None => self.sink.write(bytes),
        }
    }
}
