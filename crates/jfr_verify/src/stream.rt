//! Checking a whole output against its input.
ghost use Rattle.std.specs.Prelude.{◌≡◌, None, List, IfSome, IsTrue};
ghost use Rattle.std.specs.Slice.Iter.{iter_rest};
ghost use Rattle.jfr_outside.specs.World.{file};
ghost use Rattle.jfr_outside.specs.Counts.{Rose};
ghost use Rattle.jfr_header.specs.Taking.{IsKept, IfContentsKnown};
ghost use Rattle.jfr_chunk.specs.Parts.{Parts};
ghost use Rattle.jfr_verify.specs.Comparing.{HasOutputs, InputRead};
ghost use Rattle.jfr_verify.specs.Faults.{Counts};
ghost use Rattle.jfr_verify.specs.Outputs.{AllWhole};
ghost use Rattle.jfr_verify.specs.Verdicts.{AllVerified, AreScrubs, HasNoVerdict, IfDecided, IfVerified, IsVerifiedOrMemory, LacksOne, VerdictIn, VerdictOf, three};

use crate::Verdict;
use crate::comparer::Comparer;
use crate::opening::open;
use crate::outputs::read_outputs;
use jfr_chunk::Buffers;
use jfr_file::read_file;
use jfr_filter::Filter;
use jfr_header::Cut;
use jfr_outside::Place;
use std::alloc::Global;

/// All receipts together have fewer bytes than this.
const RECEIPT_LIMIT: usize = 1 << 40;

/// The names of the files to check.
#[derive(Clone, Copy)]
struct Names<'n> {
    input: &'n str,
    output: &'n str,
    receipt: &'n str,
}

/// Reads the input, and compares each of its chunks.
fn compare_input<P: Place>(
    alloc: Global,
    place: &mut P,
    name: &str,
    comparer: &mut Comparer<'_>,
) -> Verdict
    requires { AllWhole (iter_rest comparer.old.outputs) }
    ensures contents { (qs : List Parts) → HasOutputs comparer.old qs → IfContentsKnown (P.state place.old) (P.state place.new)
        (InputRead comparer.old.filter.now name.now qs comparer.old.receipts.now result) }
    ensures unchanged { IfContentsKnown (P.state place.old) (P.state place.new) IsKept }
    ensures counts { Counts result (P.state place.old) (P.state place.new) }
    ensures steady { IsTrue (P.state place.old).steady → result ≡ Verdict.ReadFault → IfSome (P.state place.old).contents (λ w. file w name.now ≡ None) }
{
    let mut cutter = match open(alloc, place, name) {
        Ok(cutter) => cutter,
        Err(verdict) => return verdict,
    };
    'chunks: loop {
        match cutter.next(place) {
            Cut::Chunk => {}
            Cut::End => return comparer.end(cutter.number()),
            Cut::Refused(refusal) => return Verdict::Refused(refusal),
            Cut::Failed => return Verdict::ReadFault,
            Cut::Memory => return Verdict::Memory,
        }
        match comparer.compare(cutter.bytes(), cutter.number()) {
            Ok(()) => {}
            Err(verdict) => return verdict,
        }
    }
}

/// As `verify_stream`, whose other clauses follow from these.
fn verify_files<P: Place>(
    alloc: Global,
    place: &mut P,
    names: Names<'_>,
    filter: &Filter,
) -> Verdict
    ensures contents { IfContentsKnown (P.state place.old) (P.state place.new) (VerdictIn filter.now names.entry.input.now names.entry.output.now names.entry.receipt.now result) }
    ensures counts { Counts result (P.state place.old) (P.state place.new) }
    ensures undecided { IsTrue (P.state place.old).steady → result ≡ Verdict.ReadFault → IfSome (P.state place.old).contents (λ w. HasNoVerdict filter.now (three names.entry.input.now names.entry.output.now names.entry.receipt.now w)) }
{
    let receipts = match read_file(alloc, place, names.receipt, RECEIPT_LIMIT) {
        Ok(receipts) => receipts,
        Err(fault) => return Verdict::of_receipts(fault),
    };
    let mut buffers = Buffers::new(alloc);
    let outputs = match read_outputs(alloc, place, names.output, &mut buffers) {
        Ok(outputs) => outputs,
        Err(verdict) => return verdict,
    };
    let mut comparer = Comparer::new(alloc, filter, &outputs, &receipts, buffers);
    compare_input(alloc, place, names.input, &mut comparer)
}

/// Checks that an output means the same as its input with the events that the filter keeps, by the receipts of
/// the output's chunks, one after another. It reads the receipts whole, then the output, whose chunks it keeps,
/// and then the input, chunk by chunk, until the first doubt.
pub fn verify_stream<P: Place>(
    alloc: Global,
    place: &mut P,
    input: &str,
    output: &str,
    receipt: &str,
    filter: &Filter,
) -> Verdict
    // The verdict is the right one, unless a read failed or memory ran out.
    ensures exact { IfDecided result (IfSome (P.state place.old).contents (λ w. VerdictOf filter.now (three input.now output.now receipt.now w) result)) }

    // If it is Verified, each chunk of the output means the same as one of the input, whoever made it.
    ensures verified { IfVerified result (λ count. IfSome (P.state place.old).contents (λ w. AllVerified filter.now (three input.now output.now receipt.now w) count)) }

    // The output of a scrub is verified with its own receipts.
    ensures complete { IfSome (P.state place.old).contents (λ w. AreScrubs filter.now (three input.now output.now receipt.now w)
        → (Rose (P.state place.old).read_faults (P.state place.new).read_faults → ⊥) → IsVerifiedOrMemory result) }

    // Only the input of the place changes, and after a read fault the count of failed reads.
    ensures unchanged { IfContentsKnown (P.state place.old) (P.state place.new) IsKept }
    ensures counts { Counts result (P.state place.old) (P.state place.new) }

    // On a steady place no read fails if a verdict is right, and so none if the three files exist.
    ensures undecided { IsTrue (P.state place.old).steady → result ≡ Verdict.ReadFault → IfSome (P.state place.old).contents (λ w. HasNoVerdict filter.now (three input.now output.now receipt.now w)) }
    ensures steady { IsTrue (P.state place.old).steady → result ≡ Verdict.ReadFault → IfSome (P.state place.old).contents (λ w. LacksOne (three input.now output.now receipt.now w)) }
{
    let names = Names {
        input,
        output,
        receipt,
    };
    verify_files(alloc, place, names, filter)
}
