//! A place in memory that fails only for stated causes.
ghost use Rattle.std.specs.Prelude.{◌≡◌, ◌≤◌, ◌<◌, ◌↔◌, [], length, take, Some, None, true, IsSome, IfSome, IfOk, OnOk, OnErr, IsErrOf, option_map, string_bytes};
ghost use Rattle.std.specs.Option.{ForSome};
ghost use Rattle.jfr_outside.specs.Held.{files_of, IsHeld};
ghost use Rattle.jfr_outside.specs.World.{file, put, empty_world, bytes_in, slice_of, opened, taken, shut, created, appended, finished, unchanged, IsListing, IsAfterCall, IsAfterAppend};
ghost use Rattle.jfr_outside.specs.Calls.{CountsRead, CountsWrite, KeepsPrefix};
ghost use Rattle.jfr_outside.specs.Counts.{Rose};
ghost use Rattle.jfr_outside.specs.declared.fault.Fault.TheVariants.{Failed};

use crate::files::{FileMap, file_in, grow_file, join, names_in, set_file};
use crate::source::Source;
use crate::{Fault, Place};
use jfr_base::{NoMemory, Words};
use std::alloc::Global;
use std::collections::BTreeMap;

/// A place in memory that is always steady. Contracts see its whole state.
#[derive(Drop)]
pub struct SteadyPlace {
    alloc: Global,
    files: FileMap,
    input: Option<Source>,
    output: Option<String>,
    most: usize,
    read_faults: u64,
    write_faults: u64,
    ghost moves: { 0 < most },
    ghost output_is_there: { ForSome output (λ name. IsHeld (files_of files) (string_bytes name)) },
}

impl SteadyPlace {
    ghost use Rattle.jfr_outside.specs.SteadyPlace.{state_of, most_of};

    /// A place without files, with nothing open and no faults.
    pub fn new(alloc: Global) -> SteadyPlace
        ensures contents { (state_of result).contents ≡ Some empty_world }
        ensures reads { (state_of result).read_faults ≡ 0 }
        ensures writes { (state_of result).write_faults ≡ 0 }
        ensures steady { (state_of result).steady ≡ true }
        ensures most { most_of result ≡ usize.MAX }
    {
        SteadyPlace {
            alloc,
            files: BTreeMap::new(alloc),
            input: None,
            output: None,
            most: usize::MAX,
            read_faults: 0,
            write_faults: 0,
        }
    }

    /// Sets a file to these bytes, whether it existed before or not.
    pub fn put(&mut self, name: &str, bytes: &[u8]) -> Result<(), NoMemory>
        ensures ok { OnOk result (state_of self.new ≡ record (state_of self.old) { contents = option_map (put name.now bytes.now) (state_of self.old).contents }) }
        ensures unchanged { OnErr result (state_of self.new ≡ state_of self.old) }
        ensures most { most_of self.new ≡ most_of self.old }
    {
        set_file(self.alloc, &mut self.files, name, bytes)?;
        Ok(())
    }

    /// The bytes of a file, if it exists.
    pub fn file(&self, name: &str) -> Option<&[u8]>
        ensures { IfSome (state_of self.now).contents (λ w. slice_of result ≡ file w name.now) }
    {
        file_in(&self.files, name)
    }

    /// Limits each read from now on to `size` bytes.
    pub fn cut(&mut self, size: usize)
        requires { 1 ≤ size }
        ensures most { most_of self.new ≡ size }
        ensures unchanged { state_of self.new ≡ state_of self.old }
    {
        self.most = size;
    }

    /// Fails a call that opens an input: then no input is open.
    pub(crate) fn refuse_input(&mut self) -> Fault
        ensures failed { result ≡ Failed }
        ensures contents { (state_of self.new).contents ≡ option_map shut (state_of self.old).contents }
        ensures rose { Rose (state_of self.old).read_faults (state_of self.new).read_faults }
        ensures reads { (state_of self.old).read_faults ≤ (state_of self.new).read_faults }
        ensures writes { (state_of self.new).write_faults ≡ (state_of self.old).write_faults }
        ensures most { most_of self.new ≡ most_of self.old }
    {
        self.input = None;
        self.refuse_read()
    }

    /// Fails a read: the input is unchanged.
    pub(crate) fn refuse_read(&mut self) -> Fault
        ensures failed { result ≡ Failed }
        ensures contents { (state_of self.new).contents ≡ (state_of self.old).contents }
        ensures rose { Rose (state_of self.old).read_faults (state_of self.new).read_faults }
        ensures reads { (state_of self.old).read_faults ≤ (state_of self.new).read_faults }
        ensures writes { (state_of self.new).write_faults ≡ (state_of self.old).write_faults }
        ensures most { most_of self.new ≡ most_of self.old }
    {
        self.read_faults = self.read_faults.saturating_add(1);
        Fault::Failed
    }

    /// Fails a call that creates or finishes an output: then no output is open.
    pub(crate) fn refuse_output(&mut self) -> Fault
        ensures failed { result ≡ Failed }
        ensures contents { (state_of self.new).contents ≡ option_map finished (state_of self.old).contents }
        ensures reads { (state_of self.new).read_faults ≡ (state_of self.old).read_faults }
        ensures rose { Rose (state_of self.old).write_faults (state_of self.new).write_faults }
        ensures writes { (state_of self.old).write_faults ≤ (state_of self.new).write_faults }
        ensures most { most_of self.new ≡ most_of self.old }
    {
        self.output = None;
        self.write_faults = self.write_faults.saturating_add(1);
        Fault::Failed
    }

    /// Fails an append: the output keeps at most `keep` of the bytes, and none of them if memory runs out.
    pub(crate) fn refuse_append(&mut self, bytes: &[u8], keep: usize) -> Fault
        ensures failed { result ≡ Failed }
        ensures contents { KeepsPrefix keep (state_of self.old).contents (state_of self.new).contents bytes.now appended }
        ensures reads { (state_of self.new).read_faults ≡ (state_of self.old).read_faults }
        ensures rose { Rose (state_of self.old).write_faults (state_of self.new).write_faults }
        ensures writes { (state_of self.old).write_faults ≤ (state_of self.new).write_faults }
        ensures most { most_of self.new ≡ most_of self.old }
    {
        self.write_faults = self.write_faults.saturating_add(1);
        if let Some(name) = &self.output {
            let kept = &bytes[..keep.min(bytes.len())];
            let _ = grow_file(&mut self.files, name.as_str(), kept);
        }
        Fault::Failed
    }

    /// Fails an append of pieces: the output keeps at most `keep` of their bytes, and none of them if memory
    /// runs out.
    pub(crate) fn refuse_pieces(&mut self, pieces: &[&[u8]], keep: usize) -> Fault
        ensures failed { result ≡ Failed }
        ensures contents { KeepsPrefix keep (state_of self.old).contents (state_of self.new).contents (bytes_in pieces.now) appended }
        ensures reads { (state_of self.new).read_faults ≡ (state_of self.old).read_faults }
        ensures rose { Rose (state_of self.old).write_faults (state_of self.new).write_faults }
        ensures writes { (state_of self.old).write_faults ≤ (state_of self.new).write_faults }
        ensures most { most_of self.new ≡ most_of self.old }
    {
        match join(self.alloc, pieces) {
            Ok(bytes) => self.refuse_append(&bytes, keep),
            Err(_) => self.refuse_append(&[], 0),
        }
    }
}

impl Place for SteadyPlace {
    ghost use Rattle.jfr_outside.specs.SteadyPlace.{state_of, most_of};

    ghost state = { λ p. state_of p };

    fn open_input(&mut self, name: &str) -> Result<(), Fault>
        ensures contents { IsAfterCall result (state_of self.old).contents (state_of self.new).contents (λ _. opened name.now) shut }
        ensures there { OnOk result (IfSome (state_of self.old).contents (λ w. IsSome (file w name.now))) }
        ensures counted { CountsRead result (state_of self.old) (state_of self.new) }
        ensures steady { IsErrOf result Failed → IfSome (state_of self.old).contents (λ w. file w name.now ≡ None) }
        ensures most { most_of self.new ≡ most_of self.old }
    {
        match file_in(&self.files, name) {
            Some(bytes) => {
                let bytes = Vec::from_slice(self.alloc, bytes)?;
                self.input = Some(Source::new(bytes));
                Ok(())
            }
            None => Err(self.refuse_input()),
        }
    }

    fn read(&mut self, into: &mut [u8]) -> Result<usize, Fault>
        requires { 0 < length into.old }
        ensures bound { IfOk result (λ n. n ≤ length into.new) }
        ensures contents { IsAfterCall result (state_of self.old).contents (state_of self.new).contents taken unchanged }
        ensures bytes { IfOk result (λ n. IfSome (state_of self.old).contents (λ w. IfSome w.input (λ left. (n ≤ length left) × (take n into.new ≡ take n left)))) }
        ensures end { IfOk result (λ n. IfSome (state_of self.old).contents (λ w. IfSome w.input (λ left. (n ≡ 0) ↔ (left ≡ [])))) }
        ensures open { OnOk result (IfSome (state_of self.old).contents (λ w. IsSome w.input)) }
        ensures counted { CountsRead result (state_of self.old) (state_of self.new) }
        ensures steady { IsErrOf result Failed → IfSome (state_of self.old).contents (λ w. w.input ≡ None) }
        ensures cut { IfOk result (λ n. n ≤ most_of self.old) }
        ensures most { most_of self.new ≡ most_of self.old }
    {
        match &mut self.input {
            Some(source) => Ok(source.take_into(self.most, into)),
            None => Err(self.refuse_read()),
        }
    }

    fn shut_input(&mut self)
        ensures contents { (state_of self.new).contents ≡ option_map shut (state_of self.old).contents }
        ensures reads { (state_of self.new).read_faults ≡ (state_of self.old).read_faults }
        ensures writes { (state_of self.new).write_faults ≡ (state_of self.old).write_faults }
        ensures same { (state_of self.new).steady ≡ (state_of self.old).steady }
        ensures most { most_of self.new ≡ most_of self.old }
    {
        self.input = None;
    }

    fn create_output(&mut self, name: &str) -> Result<(), Fault>
        ensures contents { IsAfterCall result (state_of self.old).contents (state_of self.new).contents (λ _. created name.now) finished }
        ensures was_new { OnOk result (IfSome (state_of self.old).contents (λ w. (file w name.now ≡ None) × (w.output ≡ None))) }
        ensures counted { CountsWrite result (state_of self.old) (state_of self.new) }
        ensures steady { IsErrOf result Failed → IfSome (state_of self.old).contents (λ w. (file w name.now ≡ None) → IsSome w.output) }
        ensures most { most_of self.new ≡ most_of self.old }
    {
        if self.output.is_some() || file_in(&self.files, name).is_some() {
            return Err(self.refuse_output());
        }
        let output = String::from_str(self.alloc, name)?;
        set_file(self.alloc, &mut self.files, name, &[])?;
        self.output = Some(output);
        Ok(())
    }

    fn append(&mut self, bytes: &[u8]) -> Result<(), Fault>
        ensures contents { IsAfterAppend result (state_of self.old).contents (state_of self.new).contents bytes.now appended }
        ensures open { OnOk result (IfSome (state_of self.old).contents (λ w. IsSome w.output)) }
        ensures counted { CountsWrite result (state_of self.old) (state_of self.new) }
        ensures steady { IsErrOf result Failed → IfSome (state_of self.old).contents (λ w. w.output ≡ None) }
        ensures most { most_of self.new ≡ most_of self.old }
    {
        match &self.output {
            Some(name) => Ok(grow_file(&mut self.files, name.as_str(), bytes)?),
            None => Err(self.refuse_append(bytes, 0)),
        }
    }

    fn append_pieces(&mut self, pieces: &[&[u8]]) -> Result<(), Fault>
        ensures contents { IsAfterAppend result (state_of self.old).contents (state_of self.new).contents (bytes_in pieces.now) appended }
        ensures open { OnOk result (IfSome (state_of self.old).contents (λ w. IsSome w.output)) }
        ensures counted { CountsWrite result (state_of self.old) (state_of self.new) }
        ensures steady { IsErrOf result Failed → IfSome (state_of self.old).contents (λ w. w.output ≡ None) }
        ensures most { most_of self.new ≡ most_of self.old }
    {
        let bytes = join(self.alloc, pieces)?;
        self.append(&bytes)
    }

    fn finish_output(&mut self) -> Result<(), Fault>
        ensures contents { IsAfterCall result (state_of self.old).contents (state_of self.new).contents (λ _. finished) finished }
        ensures open { OnOk result (IfSome (state_of self.old).contents (λ w. IsSome w.output)) }
        ensures counted { CountsWrite result (state_of self.old) (state_of self.new) }
        ensures steady { IsErrOf result Failed → IfSome (state_of self.old).contents (λ w. w.output ≡ None) }
        ensures most { most_of self.new ≡ most_of self.old }
    {
        if self.output.is_some() {
            self.output = None;
            Ok(())
        } else {
            Err(self.refuse_output())
        }
    }

    fn list(&mut self, alloc: Global, folder: &str) -> Result<Words, Fault>
        ensures contents { IsAfterCall result (state_of self.old).contents (state_of self.new).contents (λ _. unchanged) unchanged }
        ensures names { IfOk result (λ names. IfSome (state_of self.old).contents (λ w. IsListing folder.now w.files names)) }
        ensures counted { CountsRead result (state_of self.old) (state_of self.new) }
        ensures steady { IsErrOf result Failed → ⊥ }
        ensures most { most_of self.new ≡ most_of self.old }
    {
        match names_in(alloc, &self.files, folder) {
            Ok(names) => Ok(names),
            Err(_) => Err(Fault::Memory),
        }
    }
}
