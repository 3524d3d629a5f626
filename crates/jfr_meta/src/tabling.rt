//! Building a new table of strings from the strings of an old one.
ghost use Rattle.std.specs.Prelude.{◌≡◌, [], ◌∷◌, ℕ, List, IfOk, OnOk};
ghost use Rattle.jfr_meta.specs.NewTables.{IsTable, Tabled, number_in};

use crate::attributes::text_at;
use crate::values::shared_text;
use jfr_base::{NoMemory, Words};
use std::alloc::Global;
use std::collections::BTreeMap;

/// A table of strings in which each text occurs once. A text is added when it is first looked up. Each string
/// of the old table is compared by its text only once, however often it is used, and no text is copied.
#[derive(Drop)]
pub(crate) struct NewTable<'a> {
    words: Words,
    /// For each index of the old table, the index in the new one; `None` until it is first looked up.
    numbers: Vec<Option<u64>>,
    by_text: BTreeMap<&'a str, u64>,
}

impl<'a> NewTable<'a> {
    /// An empty table, with room for the numbers of all strings of the old one.
    pub(crate) fn new(alloc: Global, strings: &Words) -> Result<NewTable<'a>, NoMemory>
        ensures table { IfOk result (λ table. (texts : List (List ℕ)) → IsTable texts table) }
        ensures words { IfOk result (λ table. table.words ≡ []) }
    {
        let numbers = vec![in alloc; None; strings.len()]?;
        Ok(NewTable {
            words: Words::new(alloc),
            numbers,
            by_text: BTreeMap::new(alloc),
        })
    }

    /// The index, in this table, of the string with an index in the old table. Adds the text if it isn't in
    /// this table yet. An index past the end of the old table has no place to keep its number, so its text is
    /// looked up each time.
    pub(crate) fn number(
        &mut self,
        alloc: Global,
        strings: &'a Words,
        index: u64,
    ) -> Result<u64, NoMemory>
        requires { IsTable strings.now self.old }
        ensures number { IfOk result (λ number. number ≡ number_in self.new.words strings.now index) }
        ensures tabled { OnOk result (Tabled strings.now (index ∷ []) self.old self.new) }
    {
        if let Some(Some(number)) = self.numbers.get(index as usize) {
            return Ok(*number);
        }
        let number = self.number_by_text(alloc, strings, index)?;
        if let Some(place) = self.numbers.get_mut(index as usize) {
            *place = Some(number);
        }
        Ok(number)
    }

    /// As `number`, for a string whose index wasn't looked up before: compares the text.
    fn number_by_text(
        &mut self,
        alloc: Global,
        strings: &'a Words,
        index: u64,
    ) -> Result<u64, NoMemory>
        requires { IsTable strings.now self.old }
        ensures number { IfOk result (λ number. number ≡ number_in self.new.words strings.now index) }
        ensures tabled { OnOk result (Tabled strings.now (index ∷ []) self.old self.new) }
    {
        let text = text_at(strings, index);
        if let Some(number) = self.by_text.get(text) {
            return Ok(*number);
        }
        let number = self.words.len() as u64;
        let shared = shared_text(alloc, strings, index)?;
        self.words.push_text(shared)?;
        self.by_text.insert(text, number)?;
        Ok(number)
    }

    /// The strings of the table.
    pub(crate) fn words(&self) -> &Words
        ensures { result.now ≡ self.now.words }
    {
        &self.words
    }
}
