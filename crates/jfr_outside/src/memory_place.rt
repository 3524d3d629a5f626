//! A place in memory whose calls can be made to fail.
ghost use Rattle.std.specs.Prelude.{◌≡◌, ◌≤◌, ◌<◌, ◌↔◌, ◌⊎◌, [], ◌∷◌, ◌++◌, length, take, Some, None, true, false, IsTrue, IsSome, IfSome, IfOk, OnOk, OnErr, IsErrOf, option_map};
ghost use Rattle.jfr_outside.specs.MemoryPlace.{state_of, scripts_of, most_of};
ghost use Rattle.jfr_outside.specs.World.{file, put, empty_world, bytes_in, slice_of, opened, taken, shut, created, appended, finished, unchanged, IsListing, IsAfterCall, IsAfterAppend};
ghost use Rattle.jfr_outside.specs.Calls.{CountsRead, CountsWrite, KeepsPrefix};
ghost use Rattle.jfr_outside.specs.Scripts.{kept, after_call, IsDue};
ghost use Rattle.jfr_outside.specs.declared.fault.Fault.TheVariants.{Failed};
ghost use Rattle.jfr_outside.specs.declared.script.Call.TheVariants.{Open, Read, Create, Append, Finish, List as Listing};

use crate::script::Scripts;
use crate::{Call, Fault, Place, SteadyPlace};
use jfr_base::{NoMemory, Words};
use std::alloc::Global;

/// A place in memory. Contracts see its whole state. It fails if a script says so, and otherwise only for the
/// causes of a steady place; it is steady exactly if it has no scripts.
#[derive(Drop)]
pub struct MemoryPlace {
    place: SteadyPlace,
    scripts: Scripts,
}

impl MemoryPlace {
    /// A place without files, with nothing open and no faults.
    pub fn new(alloc: Global) -> MemoryPlace
        ensures contents { (state_of result).contents ≡ Some empty_world }
        ensures reads { (state_of result).read_faults ≡ 0 }
        ensures writes { (state_of result).write_faults ≡ 0 }
        ensures steady { (state_of result).steady ≡ true }

        ensures scripts { scripts_of result ≡ [] }
        ensures most { most_of result ≡ usize.MAX }
    {
        MemoryPlace {
            place: SteadyPlace::new(alloc),
            scripts: Scripts::new(alloc),
        }
    }

    /// Sets a file to these bytes, whether it existed before or not.
    pub fn put(&mut self, name: &str, bytes: &[u8]) -> Result<(), NoMemory>
        ensures ok { OnOk result (state_of self.new ≡ record (state_of self.old) { contents = option_map (put name.now bytes.now) (state_of self.old).contents }) }
        ensures unchanged { OnErr result (state_of self.new ≡ state_of self.old) }
        ensures scripts { scripts_of self.new ≡ scripts_of self.old }
        ensures most { most_of self.new ≡ most_of self.old }
    {
        self.place.put(name, bytes)
    }

    /// The bytes of a file, if it exists.
    pub fn file(&self, name: &str) -> Option<&[u8]>
        ensures { IfSome (state_of self.now).contents (λ w. slice_of result ≡ file w name.now) }
    {
        self.place.file(name)
    }

    /// Limits each read from now on to `size` bytes.
    pub fn cut(&mut self, size: usize)
        requires { 1 ≤ size }
        ensures most { most_of self.new ≡ size }
        ensures unchanged { state_of self.new ≡ state_of self.old }
        ensures scripts { scripts_of self.new ≡ scripts_of self.old }
    {
        self.place.cut(size);
    }

    /// Makes the nth call of this kind from now on fail, counted from 1. If it is an append, the output keeps
    /// at most `keep` of its bytes. With 0 no call fails, but the place is no longer steady.
    pub fn fail(&mut self, call: Call, nth: u64, keep: usize) -> Result<(), NoMemory>
        ensures ok { OnOk result (state_of self.new ≡ record (state_of self.old) { steady = false }) }
        ensures scripts { OnOk result (scripts_of self.new ≡ scripts_of self.old ++ record { call = call; left = nth; keep = keep } ∷ []) }
        ensures unchanged { OnErr result ((state_of self.new ≡ state_of self.old) × (scripts_of self.new ≡ scripts_of self.old)) }
        ensures most { most_of self.new ≡ most_of self.old }
    {
        self.scripts.add(call, nth, keep)
    }
}

// In each contract the first clauses are the trait's. Those after the blank line state when the call fails: if a
// script says so, and otherwise only for the causes of a steady place.
impl Place for MemoryPlace {
    ghost state = { λ p. state_of p };

    fn open_input(&mut self, name: &str) -> Result<(), Fault>
        ensures contents { IsAfterCall result (state_of self.old).contents (state_of self.new).contents (λ _. opened name.now) shut }
        ensures there { OnOk result (IfSome (state_of self.old).contents (λ w. IsSome (file w name.now))) }
        ensures counted { CountsRead result (state_of self.old) (state_of self.new) }
        ensures steady { IsTrue (state_of self.old).steady → IsErrOf result Failed → IfSome (state_of self.old).contents (λ w. file w name.now ≡ None) }

        ensures due { IsDue Open (scripts_of self.old) → IsErrOf result Failed }
        ensures cause { IsErrOf result Failed → IsDue Open (scripts_of self.old) ⊎ IfSome (state_of self.old).contents (λ w. file w name.now ≡ None) }
        ensures scripts { scripts_of self.new ≡ after_call Open (scripts_of self.old) }
        ensures most { most_of self.new ≡ most_of self.old }
    {
        match self.scripts.pass(Call::Open) {
            Some(_) => Err(self.place.refuse_input()),
            None => self.place.open_input(name),
        }
    }

    fn read(&mut self, into: &mut [u8]) -> Result<usize, Fault>
        requires { 0 < length into.old }
        ensures bound { IfOk result (λ n. n ≤ length into.new) }
        ensures contents { IsAfterCall result (state_of self.old).contents (state_of self.new).contents taken unchanged }
        ensures bytes { IfOk result (λ n. IfSome (state_of self.old).contents (λ w. IfSome w.input (λ left. (n ≤ length left) × (take n into.new ≡ take n left)))) }
        ensures end { IfOk result (λ n. IfSome (state_of self.old).contents (λ w. IfSome w.input (λ left. (n ≡ 0) ↔ (left ≡ [])))) }
        ensures open { OnOk result (IfSome (state_of self.old).contents (λ w. IsSome w.input)) }
        ensures counted { CountsRead result (state_of self.old) (state_of self.new) }
        ensures steady { IsTrue (state_of self.old).steady → IsErrOf result Failed → IfSome (state_of self.old).contents (λ w. w.input ≡ None) }
        ensures cut { IfOk result (λ n. n ≤ most_of self.old) }

        ensures due { IsDue Read (scripts_of self.old) → IsErrOf result Failed }
        ensures cause { IsErrOf result Failed → IsDue Read (scripts_of self.old) ⊎ IfSome (state_of self.old).contents (λ w. w.input ≡ None) }
        ensures scripts { scripts_of self.new ≡ after_call Read (scripts_of self.old) }
        ensures most { most_of self.new ≡ most_of self.old }
    {
        match self.scripts.pass(Call::Read) {
            Some(_) => Err(self.place.refuse_read()),
            None => self.place.read(into),
        }
    }

    fn shut_input(&mut self)
        ensures contents { (state_of self.new).contents ≡ option_map shut (state_of self.old).contents }
        ensures reads { (state_of self.new).read_faults ≡ (state_of self.old).read_faults }
        ensures writes { (state_of self.new).write_faults ≡ (state_of self.old).write_faults }
        ensures same { (state_of self.new).steady ≡ (state_of self.old).steady }
        ensures scripts { scripts_of self.new ≡ scripts_of self.old }
        ensures most { most_of self.new ≡ most_of self.old }
    {
        self.place.shut_input();
    }

    fn create_output(&mut self, name: &str) -> Result<(), Fault>
        ensures contents { IsAfterCall result (state_of self.old).contents (state_of self.new).contents (λ _. created name.now) finished }
        ensures was_new { OnOk result (IfSome (state_of self.old).contents (λ w. (file w name.now ≡ None) × (w.output ≡ None))) }
        ensures counted { CountsWrite result (state_of self.old) (state_of self.new) }
        ensures steady { IsTrue (state_of self.old).steady → IsErrOf result Failed → IfSome (state_of self.old).contents (λ w. (file w name.now ≡ None) → IsSome w.output) }

        ensures due { IsDue Create (scripts_of self.old) → IsErrOf result Failed }
        ensures cause { IsErrOf result Failed → IsDue Create (scripts_of self.old) ⊎ IfSome (state_of self.old).contents (λ w. (file w name.now ≡ None) → IsSome w.output) }
        ensures scripts { scripts_of self.new ≡ after_call Create (scripts_of self.old) }
        ensures most { most_of self.new ≡ most_of self.old }
    {
        match self.scripts.pass(Call::Create) {
            Some(_) => Err(self.place.refuse_output()),
            None => self.place.create_output(name),
        }
    }

    fn append(&mut self, bytes: &[u8]) -> Result<(), Fault>
        ensures contents { IsAfterAppend result (state_of self.old).contents (state_of self.new).contents bytes.now appended }
        ensures open { OnOk result (IfSome (state_of self.old).contents (λ w. IsSome w.output)) }
        ensures counted { CountsWrite result (state_of self.old) (state_of self.new) }
        ensures steady { IsTrue (state_of self.old).steady → IsErrOf result Failed → IfSome (state_of self.old).contents (λ w. w.output ≡ None) }

        ensures keeps { IfSome (kept Append (scripts_of self.old)) (λ keep. KeepsPrefix keep (state_of self.old).contents (state_of self.new).contents bytes.now appended) }
        ensures due { IsDue Append (scripts_of self.old) → IsErrOf result Failed }
        ensures cause { IsErrOf result Failed → IsDue Append (scripts_of self.old) ⊎ IfSome (state_of self.old).contents (λ w. w.output ≡ None) }
        ensures scripts { scripts_of self.new ≡ after_call Append (scripts_of self.old) }
        ensures most { most_of self.new ≡ most_of self.old }
    {
        match self.scripts.pass(Call::Append) {
            Some(keep) => Err(self.place.refuse_append(bytes, keep)),
            None => self.place.append(bytes),
        }
    }

    fn append_pieces(&mut self, pieces: &[&[u8]]) -> Result<(), Fault>
        ensures contents { IsAfterAppend result (state_of self.old).contents (state_of self.new).contents (bytes_in pieces.now) appended }
        ensures open { OnOk result (IfSome (state_of self.old).contents (λ w. IsSome w.output)) }
        ensures counted { CountsWrite result (state_of self.old) (state_of self.new) }
        ensures steady { IsTrue (state_of self.old).steady → IsErrOf result Failed → IfSome (state_of self.old).contents (λ w. w.output ≡ None) }

        ensures keeps { IfSome (kept Append (scripts_of self.old)) (λ keep. KeepsPrefix keep (state_of self.old).contents (state_of self.new).contents (bytes_in pieces.now) appended) }
        ensures due { IsDue Append (scripts_of self.old) → IsErrOf result Failed }
        ensures cause { IsErrOf result Failed → IsDue Append (scripts_of self.old) ⊎ IfSome (state_of self.old).contents (λ w. w.output ≡ None) }
        ensures scripts { scripts_of self.new ≡ after_call Append (scripts_of self.old) }
        ensures most { most_of self.new ≡ most_of self.old }
    {
        match self.scripts.pass(Call::Append) {
            Some(keep) => Err(self.place.refuse_pieces(pieces, keep)),
            None => self.place.append_pieces(pieces),
        }
    }

    fn finish_output(&mut self) -> Result<(), Fault>
        ensures contents { IsAfterCall result (state_of self.old).contents (state_of self.new).contents (λ _. finished) finished }
        ensures open { OnOk result (IfSome (state_of self.old).contents (λ w. IsSome w.output)) }
        ensures counted { CountsWrite result (state_of self.old) (state_of self.new) }
        ensures steady { IsTrue (state_of self.old).steady → IsErrOf result Failed → IfSome (state_of self.old).contents (λ w. w.output ≡ None) }

        ensures due { IsDue Finish (scripts_of self.old) → IsErrOf result Failed }
        ensures cause { IsErrOf result Failed → IsDue Finish (scripts_of self.old) ⊎ IfSome (state_of self.old).contents (λ w. w.output ≡ None) }
        ensures scripts { scripts_of self.new ≡ after_call Finish (scripts_of self.old) }
        ensures most { most_of self.new ≡ most_of self.old }
    {
        match self.scripts.pass(Call::Finish) {
            Some(_) => Err(self.place.refuse_output()),
            None => self.place.finish_output(),
        }
    }

    fn list(&mut self, alloc: Global, folder: &str) -> Result<Words, Fault>
        ensures contents { IsAfterCall result (state_of self.old).contents (state_of self.new).contents (λ _. unchanged) unchanged }
        ensures names { IfOk result (λ names. IfSome (state_of self.old).contents (λ w. IsListing folder.now w.files names)) }
        ensures counted { CountsRead result (state_of self.old) (state_of self.new) }
        ensures steady { IsTrue (state_of self.old).steady → IsErrOf result Failed → ⊥ }

        ensures due { IsDue Listing (scripts_of self.old) → IsErrOf result Failed }
        ensures cause { IsErrOf result Failed → IsDue Listing (scripts_of self.old) }
        ensures scripts { scripts_of self.new ≡ after_call Listing (scripts_of self.old) }
        ensures most { most_of self.new ≡ most_of self.old }
    {
        match self.scripts.pass(Call::List) {
            Some(_) => Err(self.place.refuse_read()),
            None => self.place.list(alloc, folder),
        }
    }
}
