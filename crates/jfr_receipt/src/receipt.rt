//! Writing the receipts of a recording's scrub.
ghost use Rattle.std.specs.Prelude.{◌≡◌, ◌≢◌, ℕ, List, None};
ghost use Rattle.jfr_header.specs.Fronts.{Whole};
ghost use Rattle.jfr_plan.specs.Clauses.{over, Ran, CanCreate};
ghost use Rattle.jfr_plan.specs.Effects.{without_sink};
ghost use Rattle.jfr_chunk.specs.Refusal.{refusal_of};
ghost use Rattle.jfr_receipt.specs.Receipting.{IsReceipted, receipting, scrub_receipt};

use jfr_base::ReadFault;
use jfr_chunk::{Buffers, Chunk};
use jfr_filter::Filter;
use jfr_header::Ending;
use jfr_outside::{NoMemory, Place};
use jfr_path::choose;
use jfr_plan::{Make, make_stream};
use jfr_verify::{Receipt, kept_is_passed, receipt_of_scrub};
use std::alloc::Global;
use std::mem;

/// Makes the receipt of each chunk's scrub with a filter, without making the scrub. `buffers` holds the memory of
/// the last chunk whose receipt was made, which the next chunk uses again.
#[derive(Drop)]
struct Receipts<'f> {
    filter: &'f Filter,
    buffers: Buffers,
    receipt: Option<Receipt>,
}

impl<'f> Make for Receipts<'f> {
    ghost use Rattle.std.specs.Prelude.{ℕ, List, IsSome, unwrap_or, []};
    ghost use Rattle.jfr_chunk.specs.Refusal.{refusal_of};
    ghost use Rattle.jfr_receipt.specs.Receipting.{scrub_receipt};

    ghost refusal = { λ _ chunk. refusal_of chunk };

    ghost becomes = { λ s chunk. scrub_receipt s.filter.now chunk };

    ghost holds = { λ s chunk. IsSome s.receipt };

    ghost last = { λ s chunk. unwrap_or s.receipt [] };

    fn make(&mut self, alloc: Global, chunk: &[u8]) -> Result<(), ReadFault> {
        let buffers = mem::replace(&mut self.buffers, Buffers::new(alloc));
        let chunk = Chunk::read_in(alloc, buffers, chunk)?;
        let kept = choose(alloc, &chunk, self.filter)?;
        self.receipt = Some(receipt_of_scrub(alloc, &chunk, &kept)?);
        self.buffers = chunk.into_buffers();
        Ok(())
    }

    fn pieces<'c>(&'c self, alloc: Global, _chunk: &'c [u8]) -> Result<Vec<&'c [u8]>, NoMemory> {
        let Some(receipt) = &self.receipt else {
            unreachable!()
        };
        let mut pieces = Vec::with_capacity(alloc, 1)?;
        pieces.push(receipt.bytes())?;
        Ok(pieces)
    }
}

/// Writes the receipts of a recording's scrub: opens the input, creates the receipt file, appends the receipt
/// of each chunk by one call, and finishes the file after the last.
pub fn receipt_stream<P: Place>(
    alloc: Global,
    place: &mut P,
    input: &str,
    receipt: &str,
    filter: &Filter,
) -> Ending
    // Each receipt passes the checks of `verify` with its chunk and the chunk's scrub. This holds of every accepted
    // chunk, whatever the result is.
    ensures each { (c : List ℕ) → Whole c → refusal_of c ≡ None → IsReceipted filter.now c (scrub_receipt filter.now c) }

    ensures ran { Ran (over (receipting filter.now receipt.now) input.now) result
        (without_sink (P.state place.old)) (without_sink (P.state place.new)) }

    // If the output can be created, there is no write fault.
    ensures can_create { CanCreate receipt.now (P.state place.old)
        → (result ≢ Ending.WriteFault) × ((P.state place.new).write_faults ≡ (P.state place.old).write_faults) }
{
    kept_is_passed();
    make_stream(
        alloc,
        place,
        Receipts {
            filter,
            buffers: Buffers::new(alloc),
            receipt: None,
        },
        input,
        receipt,
    )
}
