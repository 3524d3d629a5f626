//! Effects on a place, and the endings after them.
ghost use Rattle.std.specs.Prelude.{◌∷◌, []};
ghost use Rattle.jfr_plan.specs.Effects.{Create, Append, Finish, writes};
ghost use Rattle.jfr_plan.specs.Parts.{IsPlaceAfter, PlaceCounts};

use jfr_header::Ending;
use jfr_outside::Place;

/// Creates a new file as the output.
pub fn create_output<P: Place>(place: &mut P, name: &str) -> Result<(), Ending>
    ensures contents { IsPlaceAfter (Create name.now ∷ []) result (P.state place.old) (P.state place.new) }
    ensures counts { PlaceCounts result (P.state place.old) (P.state place.new) }
{
    place.create_output(name).map_err(Ending::of_write)
}

/// Appends these bytes to the output.
pub fn append_output<P: Place>(place: &mut P, bytes: &[u8]) -> Result<(), Ending>
    ensures contents { IsPlaceAfter (Append bytes.now ∷ []) result (P.state place.old) (P.state place.new) }
    ensures counts { PlaceCounts result (P.state place.old) (P.state place.new) }
{
    place.append(bytes).map_err(Ending::of_write)
}

/// Finishes the output.
pub fn finish_output<P: Place>(place: &mut P) -> Result<(), Ending>
    ensures contents { IsPlaceAfter (Finish ∷ []) result (P.state place.old) (P.state place.new) }
    ensures counts { PlaceCounts result (P.state place.old) (P.state place.new) }
{
    place.finish_output().map_err(Ending::of_write)
}

/// Writes a new file with these bytes.
pub fn write_file<P: Place>(place: &mut P, name: &str, bytes: &[u8]) -> Result<(), Ending>
    ensures contents { IsPlaceAfter (writes name.now bytes.now) result (P.state place.old) (P.state place.new) }
    ensures counts { PlaceCounts result (P.state place.old) (P.state place.new) }
{
    create_output(place, name)?;
    append_output(place, bytes)?;
    finish_output(place)
}
