//! Numbers for the names of fields, so that long names are not compared again and again.
ghost use Rattle.std.specs.Prelude.{◌≡◌, ℕ, List, Some, IfOk, OnOk};
ghost use Rattle.jfr_meta.specs.Attributes.{text_at};
ghost use Rattle.jfr_meta.specs.Names.{AreNumbers, Grow, number_of};

use crate::attributes::text_at;
use jfr_base::{NoMemory, Words};
use std::alloc::Global;
use std::collections::BTreeMap;

/// Numbers for strings of the table. Two strings have the same number exactly if their texts are equal: the
/// number is the index of the first string with this text that was looked up. Many classes may use the same
/// long strings as names of fields; each string is compared with others only once.
#[derive(Drop)]
pub(crate) struct NameNumbers<'a> {
    by_index: BTreeMap<u64, u64>,
    by_text: BTreeMap<&'a str, u64>,
}

impl<'a> NameNumbers<'a> {
    /// No string has been looked up yet. It allocates nothing.
    pub(crate) fn new(alloc: Global) -> NameNumbers<'a>
        ensures { (texts : List (List ℕ)) → AreNumbers texts result }
    {
        NameNumbers {
            by_index: BTreeMap::new(alloc),
            by_text: BTreeMap::new(alloc),
        }
    }

    /// The number of the string with this index.
    pub(crate) fn number(&mut self, strings: &'a Words, index: u64) -> Result<u64, NoMemory>
        requires { AreNumbers strings.now self.old }
        ensures number { IfOk result (λ number. number_of self.new (text_at strings.now index) ≡ Some number) }
        ensures grow { OnOk result (Grow strings.now self.old self.new) }
    {
        if let Some(number) = self.by_index.get(&index) {
            return Ok(*number);
        }
        let number = self.number_by_text(strings, index)?;
        self.by_index.insert(index, number)?;
        Ok(number)
    }

    /// The number of the text with this index. A new text gets the index as its number.
    fn number_by_text(&mut self, strings: &'a Words, index: u64) -> Result<u64, NoMemory>
        requires { AreNumbers strings.now self.old }
        ensures number { IfOk result (λ number. number_of self.new (text_at strings.now index) ≡ Some number) }
        ensures grow { OnOk result (Grow strings.now self.old self.new) }
    {
        let text = text_at(strings, index);
        if let Some(number) = self.by_text.get(text) {
            return Ok(*number);
        }
        self.by_text.insert(text, index)?;
        Ok(index)
    }
}
