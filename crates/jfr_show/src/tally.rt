//! Counts of events by the name of their class.
ghost use Rattle.std.specs.Prelude.{◌≡◌, ◌+◌, ◌^◌, ◌<◌, ◌++◌, OnErr, OnOk};
ghost use Rattle.jfr_show.specs.Counting.{AddsTally, FitsUnder, both};
ghost use Rattle.jfr_show.specs.Held.{tallies_in};
ghost use Rattle.jfr_show.specs.Totals.{tally_line, tally_lines};

use crate::TextBuilder;
use jfr_base::NoMemory;
use std::alloc::Global;
use std::collections::BTreeMap;

/// The number of events, and the bytes of their records together.
#[derive(Clone, Copy, Debug)]
pub(crate) struct Tally {
    pub events: u64,
    pub bytes: u64,
}

impl Tally {
    /// The tally of the events of both.
    fn plus(self, other: Tally) -> Tally
        requires events { self.events + other.events < 2 ^ 64 }
        requires bytes { self.bytes + other.bytes < 2 ^ 64 }
        ensures { result ≡ both self other }
    {
        Tally {
            events: self.events + other.events,
            bytes: self.bytes + other.bytes,
        }
    }
}

/// Tallies by the names of classes.
pub(crate) type TallyMap = BTreeMap<String, Tally>;

/// Adds a tally to that of a name. An empty tally adds no name.
pub(crate) fn add_tally(
    alloc: Global,
    tallies: &mut TallyMap,
    name: &str,
    tally: Tally,
) -> Result<(), NoMemory>
    requires { FitsUnder (tallies_in tallies.old) name.now tally }
    ensures ok { OnOk result (AddsTally (tallies_in tallies.old) name.now tally (tallies_in tallies.new)) }
    ensures unchanged { OnErr result (tallies_in tallies.new ≡ tallies_in tallies.old) }
{
    if tally.events == 0 {
        return Ok(());
    }
    match tallies.get_mut(name) {
        Some(kept) => *kept = kept.plus(tally),
        None => {
            tallies.insert(String::from_str(alloc, name)?, tally)?;
        }
    }
    Ok(())
}

/// Adds a line for each name to a text, in the order of the names' bytes.
pub(crate) fn show_tallies(tallies: &TallyMap, out: &mut TextBuilder) -> Result<(), NoMemory>
    ensures ok { OnOk result (out.new ≡ out.old ++ tally_lines (tallies_in tallies.now)) }
{
    for (name, tally) in tallies.iter() {
        show_tally(name.as_str(), *tally, out)?;
    }
    Ok(())
}

/// Adds the line with a name and its tally.
fn show_tally(name: &str, tally: Tally, out: &mut TextBuilder) -> Result<(), NoMemory>
    ensures ok { OnOk result (out.new ≡ out.old ++ tally_line (name.now, tally)) }
{
    out.push_str(name)?;
    out.push_ascii(" ")?;
    out.push_number(tally.events)?;
    out.push_ascii(" ")?;
    out.push_number(tally.bytes)?;
    out.push_ascii("\n")
}
