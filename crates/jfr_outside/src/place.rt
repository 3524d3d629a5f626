//! A place: files, with at most one open input and one open output.
ghost use Rattle.std.specs.Prelude.{◌≡◌, ◌<◌, ◌≤◌, ◌↔◌, [], length, take, None, IsTrue, IsSome, IfSome, IfOk, OnOk, IsErrOf, option_map};
ghost use Rattle.jfr_outside.specs.World.{State, file, bytes_in, opened, shut, taken, created, appended, finished, unchanged, IsListing, IsAfterCall, IsAfterAppend};
ghost use Rattle.jfr_outside.specs.Counts.{Counts};
ghost use Rattle.jfr_outside.specs.declared.fault.Fault.TheVariants.{Failed};

use crate::Fault;
use jfr_base::Words;
use std::alloc::Global;

/// Files by name, with at most one open input and one open output.
///
/// Contracts see a place as its `state`: its files, input and output, if it lets contracts see them; how
/// often reads and writes failed; and whether it is steady. A steady place fails only for the causes that the
/// clauses `steady` name.
pub trait Place {
    ghost state: { Self → State };

    /// Opens a file as the input. Fails if there is no such file; after a failure no input is open.
    fn open_input(&mut self, name: &str) -> Result<(), Fault>
        ensures contents { IsAfterCall result (state self.old).contents (state self.new).contents (λ _. opened name.now) shut }
        ensures there { OnOk result (IfSome (state self.old).contents (λ w. IsSome (file w name.now))) }

        ensures reads { Counts result (state self.old).read_faults (state self.new).read_faults }
        ensures writes { (state self.new).write_faults ≡ (state self.old).write_faults }
        ensures same { (state self.new).steady ≡ (state self.old).steady }
        ensures steady { IsTrue (state self.old).steady → IsErrOf result Failed → IfSome (state self.old).contents (λ w. file w name.now ≡ None) };

    /// Reads the next bytes of the input into the front of `into`, and returns how many: 0 exactly at the end
    /// of the input. Fails if no input is open.
    fn read(&mut self, into: &mut [u8]) -> Result<usize, Fault>
        requires { 0 < length into.old }
        ensures bound { IfOk result (λ n. n ≤ length into.new) }
        ensures contents { IsAfterCall result (state self.old).contents (state self.new).contents taken unchanged }
        ensures bytes { IfOk result (λ n. IfSome (state self.old).contents (λ w. IfSome w.input (λ left. (n ≤ length left) × (take n into.new ≡ take n left)))) }
        ensures end { IfOk result (λ n. IfSome (state self.old).contents (λ w. IfSome w.input (λ left. (n ≡ 0) ↔ (left ≡ [])))) }
        ensures open { OnOk result (IfSome (state self.old).contents (λ w. IsSome w.input)) }

        ensures reads { Counts result (state self.old).read_faults (state self.new).read_faults }
        ensures writes { (state self.new).write_faults ≡ (state self.old).write_faults }
        ensures same { (state self.new).steady ≡ (state self.old).steady }
        ensures steady { IsTrue (state self.old).steady → IsErrOf result Failed → IfSome (state self.old).contents (λ w. w.input ≡ None) };

    /// Closes the input, if one is open.
    fn shut_input(&mut self)
        ensures contents { (state self.new).contents ≡ option_map shut (state self.old).contents }
        ensures reads { (state self.new).read_faults ≡ (state self.old).read_faults }
        ensures writes { (state self.new).write_faults ≡ (state self.old).write_faults }
        ensures same { (state self.new).steady ≡ (state self.old).steady };

    /// Creates an empty file and opens it as the output. Fails if the file exists, or if an output is open.
    /// After a failure no output is open.
    fn create_output(&mut self, name: &str) -> Result<(), Fault>
        ensures contents { IsAfterCall result (state self.old).contents (state self.new).contents (λ _. created name.now) finished }
        ensures was_new { OnOk result (IfSome (state self.old).contents (λ w. (file w name.now ≡ None) × (w.output ≡ None))) }

        ensures reads { (state self.new).read_faults ≡ (state self.old).read_faults }
        ensures writes { Counts result (state self.old).write_faults (state self.new).write_faults }
        ensures same { (state self.new).steady ≡ (state self.old).steady }
        ensures steady { IsTrue (state self.old).steady → IsErrOf result Failed → IfSome (state self.old).contents (λ w. (file w name.now ≡ None) → IsSome w.output) };

    /// Adds bytes at the end of the output; on failure, a prefix of them. Fails if no output is open.
    fn append(&mut self, bytes: &[u8]) -> Result<(), Fault>
        ensures contents { IsAfterAppend result (state self.old).contents (state self.new).contents bytes.now appended }
        ensures open { OnOk result (IfSome (state self.old).contents (λ w. IsSome w.output)) }

        ensures reads { (state self.new).read_faults ≡ (state self.old).read_faults }
        ensures writes { Counts result (state self.old).write_faults (state self.new).write_faults }
        ensures same { (state self.new).steady ≡ (state self.old).steady }
        ensures steady { IsTrue (state self.old).steady → IsErrOf result Failed → IfSome (state self.old).contents (λ w. w.output ≡ None) };

    /// Adds the pieces at the end of the output, one after another; on failure, a prefix of all their bytes.
    fn append_pieces(&mut self, pieces: &[&[u8]]) -> Result<(), Fault>
        ensures contents { IsAfterAppend result (state self.old).contents (state self.new).contents (bytes_in pieces.now) appended }
        ensures open { OnOk result (IfSome (state self.old).contents (λ w. IsSome w.output)) }

        ensures reads { (state self.new).read_faults ≡ (state self.old).read_faults }
        ensures writes { Counts result (state self.old).write_faults (state self.new).write_faults }
        ensures same { (state self.new).steady ≡ (state self.old).steady }
        ensures steady { IsTrue (state self.old).steady → IsErrOf result Failed → IfSome (state self.old).contents (λ w. w.output ≡ None) };

    /// Finishes the output, which keeps its bytes. Fails if no output is open. After a failure no output is
    /// open.
    fn finish_output(&mut self) -> Result<(), Fault>
        ensures contents { IsAfterCall result (state self.old).contents (state self.new).contents (λ _. finished) finished }
        ensures open { OnOk result (IfSome (state self.old).contents (λ w. IsSome w.output)) }

        ensures reads { (state self.new).read_faults ≡ (state self.old).read_faults }
        ensures writes { Counts result (state self.old).write_faults (state self.new).write_faults }
        ensures same { (state self.new).steady ≡ (state self.old).steady }
        ensures steady { IsTrue (state self.old).steady → IsErrOf result Failed → IfSome (state self.old).contents (λ w. w.output ≡ None) };

    /// The names of the files directly in a folder, without the folder, each once and in any order. Fails if
    /// a name isn't UTF-8.
    fn list(&mut self, alloc: Global, folder: &str) -> Result<Words, Fault>
        ensures contents { IsAfterCall result (state self.old).contents (state self.new).contents (λ _. unchanged) unchanged }
        ensures names { IfOk result (λ names. IfSome (state self.old).contents (λ w. IsListing folder.now w.files names)) }

        ensures reads { Counts result (state self.old).read_faults (state self.new).read_faults }
        ensures writes { (state self.new).write_faults ≡ (state self.old).write_faults }
        ensures same { (state self.new).steady ≡ (state self.old).steady }
        ensures steady { IsTrue (state self.old).steady → IsErrOf result Failed → ⊥ };
}
