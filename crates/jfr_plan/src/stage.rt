//! The loop over the chunks of an input.
ghost use Rattle.std.specs.Prelude.{◌≡◌, ◌<◌, ◌+◌, ◌^◌, ℕ, List, ◌∷◌, [], ◌++◌, length, Option, OnOk, IfSome, false, true};
ghost use Rattle.jfr_outside.specs.World.{World, IfKnown};
ghost use Rattle.jfr_header.specs.Fronts.{Whole};
ghost use Rattle.jfr_plan.specs.Ends.{command_end};
ghost use Rattle.jfr_plan.specs.Effects.{outside};
ghost use Rattle.jfr_plan.specs.Rules.{Rule, Goes};
ghost use Rattle.jfr_plan.specs.Outcomes.{After, OutcomeOf, Tallied};
ghost use Rattle.jfr_plan.specs.Parts.{IsAfterPart, PartTallied};
ghost use Rattle.jfr_plan.specs.Goings.{Staged, IsAt, IsPast};

use crate::Position;
use jfr_header::{Cut, Ending};
use jfr_outside::{Place, Sink};

/// A command over an input: what it does when the input is open, for each chunk, and at the end.
///
/// If a call returns `Err`, the command ends with this ending. No call reads from the input.
pub trait Stage {
    // What the command does.
    ghost rule: { Self → Rule };

    // The stage's state is that after these chunks.
    ghost seen: { Self → List (List ℕ) → Type 0 };

    /// Does what the command does when the input is open.
    fn opened<P: Place, O: Sink>(&self, place: &mut P, out: &mut O) -> Result<(), Ending>
        ensures contents { IsAfterPart (Goes (rule self.now).opens) result
            (outside (P.state place.old) (O.state out.old))
            (outside (P.state place.new) (O.state out.new)) }
        ensures counts { PartTallied (rule self.now).target result
            (outside (P.state place.old) (O.state out.old))
            (outside (P.state place.new) (O.state out.new)) };

    /// Does what the command does for the next chunk. Chunks are numbered from 1.
    fn chunk<P: Place, O: Sink>(
        &mut self,
        place: &mut P,
        out: &mut O,
        chunk: &[u8],
        number: u64,
    ) -> Result<(), Ending>
        requires whole { Whole chunk.now }
        requires number { number < 17000000000 }
        ensures rule { rule self.new ≡ rule self.old }
        ensures seen { (before : List (List ℕ)) → seen self.old before → number ≡ length before + 1
            → OnOk result (seen self.new (before ++ chunk.now ∷ [])) }
        ensures contents { (before : List (List ℕ)) → seen self.old before → number ≡ length before + 1
            → IsAfterPart ((rule self.old).asks before chunk.now) result
            (outside (P.state place.old) (O.state out.old))
            (outside (P.state place.new) (O.state out.new)) }
        ensures counts { PartTallied (rule self.old).target result
            (outside (P.state place.old) (O.state out.old))
            (outside (P.state place.new) (O.state out.new)) };

    /// Does what the command does at the input's end.
    fn end<P: Place, O: Sink>(&self, place: &mut P, out: &mut O) -> Result<(), Ending>
        ensures contents { (before : List (List ℕ)) → seen self.now before
            → IsAfterPart (Goes ((rule self.now).ends before)) result
            (outside (P.state place.old) (O.state out.old))
            (outside (P.state place.new) (O.state out.new)) }
        ensures counts { PartTallied (rule self.now).target result
            (outside (P.state place.old) (O.state out.old))
            (outside (P.state place.new) (O.state out.new)) };
}

/// Runs the stage over the open input to its end, and moves the position past it.
fn run_chunks<P: Place, O: Sink, S: Stage>(
    place: &mut P,
    out: &mut O,
    stage: &mut S,
    at: &mut Position,
) -> Ending
    requires first { at.old.given ≡ false }
    requires live { at.old.live ≡ true }
    ensures contents { (earlier : List (List ℕ)) (input : List ℕ) (b : Option World) (o : Option (List ℕ))
        → IfKnown b (P.state place.old).contents
        (Staged (S.rule stage.old) earlier (S.seen stage.old) input at.old.start at.old.number false o (O.state out.old).written)
        → IfKnown b (P.state place.new).contents
        (OutcomeOf (P.state place.old).steady (S.rule stage.old) earlier input o (O.state out.new).written (command_end result)) }
    ensures later { (earlier : List (List ℕ)) (input : List ℕ) (b : Option World) (o : Option (List ℕ))
        → IfKnown b (P.state place.old).contents
        (Staged (S.rule stage.old) earlier (S.seen stage.old) input at.old.start at.old.number false o (O.state out.old).written)
        → result ≡ Ending.Done
        → IfSome b (IsPast (S.seen stage.new) earlier input at.new.start at.new.number) }
    ensures rule { S.rule stage.new ≡ S.rule stage.old }
    ensures counts { Tallied (S.rule stage.old).target (command_end result)
        (outside (P.state place.old) (O.state out.old))
        (outside (P.state place.new) (O.state out.new)) }
{
    'chunks: loop {
        match at.next(place) {
            Cut::Chunk => {}
            Cut::End => match stage.end(place, out) {
                Ok(()) => return Ending::Done,
                Err(ending) => return ending,
            },
            Cut::Refused(refusal) => return Ending::Refused(refusal),
            Cut::Failed => return Ending::ReadFault,
            Cut::Memory => return Ending::Memory,
        }
        match stage.chunk(place, out, at.bytes(), at.number()) {
            Ok(()) => {}
            Err(ending) => return ending,
        }
    }
}

/// Runs a stage over one input. The position is that of the input's first chunk in the recording: the first
/// position, or the one after the earlier files that `assemble` joins. After `Done` it is that of the next
/// chunk; after any other ending nothing is promised about it.
pub fn run_stage<P: Place, O: Sink, S: Stage>(
    place: &mut P,
    out: &mut O,
    stage: &mut S,
    input: &str,
    at: &mut Position,
) -> Ending
    ensures contents { (earlier : List (List ℕ)) → S.seen stage.old earlier → IsAt earlier at.old.start at.old.number
        → After (S.rule stage.old) earlier input.now (command_end result)
        (outside (P.state place.old) (O.state out.old))
        (outside (P.state place.new) (O.state out.new)) }
    ensures later { (earlier : List (List ℕ)) → S.seen stage.old earlier → IsAt earlier at.old.start at.old.number
        → result ≡ Ending.Done
        → IfSome (P.state place.old).contents (IsPast (S.seen stage.new) earlier input.now at.new.start at.new.number) }
    ensures rule { S.rule stage.new ≡ S.rule stage.old }
    ensures counts { Tallied (S.rule stage.old).target (command_end result)
        (outside (P.state place.old) (O.state out.old))
        (outside (P.state place.new) (O.state out.new)) }
{
    match place.open_input(input) {
        Ok(()) => {}
        Err(fault) => return Ending::of_read(fault),
    }
    match stage.opened(place, out) {
        Ok(()) => {}
        Err(ending) => return ending,
    }
    at.begin_input();
    run_chunks(place, out, stage, at)
}
