//! The numbers of a chunk's texts, so that each text is looked up only once, and each text to which a constant leads is
//! made only once.
ghost use Rattle.std.specs.Prelude.{◌≡◌, ◌≢◌, ◌↔◌, ◌<◌, ◌^◌, get_or, replicate, IfOk, IfSome, IsTrue};
ghost use Rattle.std.specs.Str.{chars};
ghost use Rattle.jfr_mask.specs.Noted.{nothing, noted_as};
ghost use Rattle.jfr_mask.specs.Pseudonyms.{pseudonym};
ghost use Rattle.jfr_mask.specs.Written.{shown_bytes};

use crate::Shown;
use crate::shown::is_descriptor;
use jfr_base::NoMemory;
use std::alloc::Global;

/// The pseudonym of a text, or nothing. A chunk can have millions, so each takes few bytes.
#[derive(Clone, Copy)]
pub(crate) struct Noted {
    /// The number of the text in the dictionary, from 1, or 0 for nothing.
    number: u32,
    /// Whether the text begins as a method's descriptor does.
    descriptor: bool,
}

/// No text, or one that is shown as it is, or one whose number isn't noted.
pub(crate) const NOTHING: Noted = Noted {
    number: 0,
    descriptor: false,
};

impl Noted {
    /// The pseudonym of a text with this number. Of a number of more than 32 bits, nothing is noted.
    pub(crate) fn of(text: &str, number: u64) -> Noted
        ensures { result ≡ noted_as (chars text.now) number }
    {
        match u32::try_from(number) {
            Ok(number) => Noted {
                number,
                descriptor: is_descriptor(text),
            },
            Err(_) => NOTHING,
        }
    }

    /// Whether it is a pseudonym, and not nothing.
    pub(crate) fn is_pseudonym(self) -> bool
        ensures { IsTrue result ↔ (self.number ≢ 0) }
    {
        self.number != 0
    }

    /// What is shown for the text, if its pseudonym is noted.
    pub(crate) fn shown(self) -> Option<Shown<'static>>
        ensures shown { IfSome result (λ shown. (self.number ≢ 0) × (shown_bytes shown ≡ pseudonym self.descriptor self.number)) }
        ensures fits { self.number < 2 ^ 32 }
    {
        if !self.is_pseudonym() {
            return None;
        }
        Some(Shown::Pseudonym {
            descriptor: self.descriptor,
            number: u64::from(self.number),
        })
    }
}

/// The pseudonyms of the texts to which a chunk's entries lead, by the number of the entry, and of the masked strings of
/// its events, by the number of the string. Not all are noted.
#[derive(Drop)]
pub(crate) struct NotedTexts {
    pub(crate) entries: Vec<Noted>,
    pub(crate) strings: Vec<Noted>,
}

impl NotedTexts {
    /// Nothing is noted for this many entries and strings.
    pub(crate) fn new(alloc: Global, entries: usize, strings: usize) -> Result<NotedTexts, NoMemory>
        ensures entries { IfOk result (λ noted. noted.entries.items ≡ replicate entries nothing) }
        ensures strings { IfOk result (λ noted. noted.strings.items ≡ replicate strings nothing) }
    {
        let entries = vec![in alloc; NOTHING; entries]?;
        let strings = vec![in alloc; NOTHING; strings]?;
        Ok(NotedTexts { entries, strings })
    }

    /// What is noted for the entry with this number.
    pub(crate) fn entry(&self, number: usize) -> Noted
        ensures { result ≡ get_or self.now.entries.items number nothing }
    {
        noted_at(&self.entries, number)
    }

    /// What is noted for the string with this number.
    pub(crate) fn string(&self, number: usize) -> Noted
        ensures { result ≡ get_or self.now.strings.items number nothing }
    {
        noted_at(&self.strings, number)
    }
}

/// What is noted under a number.
fn noted_at(noted: &[Noted], number: usize) -> Noted
    ensures { result ≡ get_or noted.now number nothing }
{
    match noted.get(number) {
        Some(noted) => *noted,
        None => NOTHING,
    }
}
