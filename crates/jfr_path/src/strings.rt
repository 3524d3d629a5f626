//! Matching the strings that name classes, each only once.
ghost use Rattle.std.specs.Prelude.{◌≡◌, IfOk, map};
ghost use Rattle.jfr_filter.specs.Filters.{allows_texts, some_matches};
ghost use Rattle.jfr_meta.specs.Attributes.{text_at};
ghost use Rattle.jfr_path.specs.Strings.{matches_of};

use jfr_base::{NoMemory, Words};
use jfr_filter::{Filter, Side};
use std::alloc::Global;
use std::collections::BTreeMap;
use std::marker::Model;

/// An include and an exclude option of a filter, with the results of matching strings of the metadata's
/// table. The results are kept by the index of the string. Many classes may share a long string, which is
/// then matched only once. Contracts see the filter, the options and the strings.
#[derive(Drop)]
pub(crate) struct StringVerdicts<'c> {
    filter: &'c Filter,
    include: Side,
    exclude: Side,
    strings: &'c Words,
    matches: BTreeMap<u64, (bool, bool)>,
}

impl<'c> Model for StringVerdicts<'c> {
    ghost use Rattle.std.specs.Coded.{codes};
    ghost use Rattle.jfr_path.specs.Strings.{AreMatches, Options};

    ghost Value = { Options };

    ghost view = { λ t. record { filter = t.filter.now; include = t.include; exclude = t.exclude; strings = t.strings.now } };

    ghost invariant = { λ t. AreMatches (record { filter = t.filter.now; include = t.include; exclude = t.exclude; strings = t.strings.now }) t.matches };
}

impl<'c> StringVerdicts<'c> {
    /// The two options, without results yet. It allocates nothing.
    pub(crate) fn new(
        alloc: Global,
        filter: &'c Filter,
        include: Side,
        exclude: Side,
        strings: &'c Words,
    ) -> StringVerdicts<'c>
        ensures { result ≡ record { filter = filter.now; include = include; exclude = exclude; strings = strings.now } }
    {
        StringVerdicts {
            filter,
            include,
            exclude,
            strings,
            matches: BTreeMap::new(alloc),
        }
    }

    /// Whether a pattern of the include option, and whether one of the exclude option, matches the string
    /// with this index.
    fn matches(&mut self, index: u64) -> Result<(bool, bool), NoMemory>
        ensures ok { IfOk result (λ found. found ≡ matches_of self.old index) }
        ensures same { self.new ≡ self.old }
    {
        if let Some(found) = self.matches.get(&index) {
            return Ok(*found);
        }
        let text = self.strings.get(index as usize).unwrap_or("");
        let found = (
            self.filter.matches(self.include, text),
            self.filter.matches(self.exclude, text),
        );
        self.matches.insert(index, found)?;
        Ok(found)
    }

    /// Whether a pattern of the include option matches the string with this index.
    pub(crate) fn includes(&mut self, index: u64) -> Result<bool, NoMemory>
        ensures ok { IfOk result (λ included. included ≡ some_matches self.old.filter self.old.include (text_at self.old.strings index)) }
        ensures same { self.new ≡ self.old }
    {
        let (included, _) = self.matches(index)?;
        Ok(included)
    }

    /// Whether the options allow the strings with these indices.
    pub(crate) fn allow(&mut self, indices: &[u64]) -> Result<bool, NoMemory>
        ensures ok { IfOk result (λ allowed. allowed ≡ allows_texts self.old.filter self.old.include self.old.exclude (map (text_at self.old.strings) indices.now)) }
        ensures same { self.new ≡ self.old }
    {
        let mut included = !self.filter.has(self.include);
        for index in indices {
            let (included_by, excluded_by) = self.matches(*index)?;
            if excluded_by {
                return Ok(false);
            }
            included = included || included_by;
        }
        Ok(included)
    }
}
