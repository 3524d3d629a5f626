//! The command that cuts a recording into parts.
ghost use Rattle.std.specs.Prelude.{◌≡◌, ◌≢◌};
ghost use Rattle.jfr_plan.specs.Ends.{TooMany};
ghost use Rattle.jfr_plan.specs.Effects.{without_sink};
ghost use Rattle.jfr_plan.specs.Clauses.{over, Ended, Ran};
ghost use Rattle.jfr_split.specs.Parts.{IsUsable};
ghost use Rattle.jfr_split.specs.Splits.{splitting};
ghost use Rattle.jfr_split.specs.Clauses.{CanCreateAll};

use crate::SplitRule;
use crate::part::{Part, next_part};
use crate::writing::{Split, close_part, write_chunk};
use jfr_header::Ending;
use jfr_outside::{Place, Sink};
use jfr_plan::{Discard, Position, Stage, run_stage};
use std::alloc::Global;

/// The stage that writes each chunk to its part.
#[derive(Drop)]
struct Splitting<'a> {
    split: Split<'a>,
    part: Part,
    ghost usable: { IsUsable split.rule.now },
}

impl Stage for Splitting<'_> {
    ghost use Rattle.std.specs.Prelude.{◌≡◌};
    ghost use Rattle.jfr_split.specs.Splits.{splitting};
    ghost use Rattle.jfr_split.specs.Parts.{part_of};

    ghost rule = { λ s. splitting s.split.rule.now s.split.file.now };

    ghost seen = { λ s before. part_of s.split.rule.now before ≡ s.part };

    fn opened<P: Place, O: Sink>(&self, _place: &mut P, _out: &mut O) -> Result<(), Ending> {
        Ok(())
    }

    fn chunk<P: Place, O: Sink>(
        &mut self,
        place: &mut P,
        _out: &mut O,
        chunk: &[u8],
        _number: u64,
    ) -> Result<(), Ending> {
        write_chunk(self.split, place, &self.part, chunk)?;
        self.part = next_part(self.split.rule, &self.part, chunk);
        Ok(())
    }

    fn end<P: Place, O: Sink>(&self, place: &mut P, _out: &mut O) -> Result<(), Ending> {
        close_part(place, &self.part)
    }
}

/// Cuts a recording into parts: opens the file, and writes each chunk that was read whole to its part.
/// Before the first chunk of a part is written, the previous part is finished and the new one is created;
/// at the recording's end the last part is finished. A chunk that would begin one part more than the rule
/// allows ends the command.
pub fn disassemble<P: Place>(alloc: Global, place: &mut P, file: &str, rule: &SplitRule) -> Ending
    requires { IsUsable rule.now }

    ensures ran { Ran (over (splitting rule.now file.now) file.now) result
        (without_sink (P.state place.old)) (without_sink (P.state place.new)) }
    ensures too_many { result ≡ Ending.TooManyParts
        → Ended (over (splitting rule.now file.now) file.now) TooMany
        (without_sink (P.state place.old)) (without_sink (P.state place.new)) }

    // If the outputs can be created, there is no write fault.
    ensures can_create { CanCreateAll (splitting rule.now file.now) file.now (P.state place.old)
        → (result ≢ Ending.WriteFault) × ((P.state place.new).write_faults ≡ (P.state place.old).write_faults) }
{
    let mut stage = Splitting {
        split: Split { alloc, file, rule },
        part: Part::none(),
    };
    let mut at = Position::first(alloc);
    run_stage(place, &mut Discard, &mut stage, file, &mut at)
}
