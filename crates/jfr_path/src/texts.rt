//! Matching the names of threads, each only once.
ghost use Rattle.std.specs.Prelude.{◌≡◌, IfOk, option_and_then};
ghost use Rattle.std.specs.Str.{chars};
ghost use Rattle.jfr_chunk.specs.Parts.{AreParts};
ghost use Rattle.jfr_chunk.specs.Paths.{named_field, text_of};
ghost use Rattle.jfr_text.specs.Spans.{content_of};
ghost use Rattle.jfr_text.specs.Strings as strings;
ghost use Rattle.jfr_value.specs.Nodes.{IsValue, node_of};
ghost use Rattle.jfr_path.specs.Threads.{allows_thread_at, allows_if_named};

use crate::following::{MOST_FOLLOWED, follow_keys, follow_references, named_field};
use crate::steps::string_of;
use jfr_base::NoMemory;
use jfr_chunk::Chunk;
use jfr_filter::Filter;
use jfr_text::{StringSpan, text_of};
use jfr_value::Node;
use std::alloc::Global;
use std::collections::BTreeMap;
use std::marker::Model;

/// A filter's verdicts on the names of threads. A verdict is kept by the offsets at which the string starts
/// and ends. Many threads may share a long string, which is then read and matched only once. Contracts see
/// the filter and the chunk.
#[derive(Drop)]
pub(crate) struct TextVerdicts<'c, 'a> {
    alloc: Global,
    filter: &'c Filter,
    chunk: &'c Chunk<'a>,
    verdicts: BTreeMap<(usize, usize), Option<bool>>,
}

impl<'c, 'a> Model for TextVerdicts<'c, 'a> {
    ghost use Rattle.std.specs.Coded.{codes};
    ghost use Rattle.jfr_meta.specs.Trees.{tree_code};
    ghost use Rattle.jfr_path.specs.Threads.{AreTextVerdicts, Asked};

    ghost Value = { Asked };

    ghost coded = { Prim.hlevel (codes, tree_code) };

    ghost view = { λ t. record { filter = t.filter.now; chunk = t.chunk.now } };

    ghost invariant = { λ t. AreTextVerdicts t.filter.now t.chunk.now t.verdicts };
}

impl<'c, 'a> TextVerdicts<'c, 'a> {
    /// No verdicts yet. It allocates nothing.
    pub(crate) fn new(
        alloc: Global,
        chunk: &'c Chunk<'a>,
        filter: &'c Filter,
    ) -> TextVerdicts<'c, 'a>
        ensures filter { result.filter ≡ filter.now }
        ensures chunk { result.chunk ≡ chunk.now }
    {
        TextVerdicts {
            alloc,
            filter,
            chunk,
            verdicts: BTreeMap::new(alloc),
        }
    }

    /// The chunk of the names.
    pub(crate) fn chunk(&self) -> &'c Chunk<'a>
        ensures { result.now ≡ self.now.chunk }
    {
        self.chunk
    }

    /// Whether the filter allows the thread that a value leads to: by its Java name if that has a text, else
    /// by its name in the operating system.
    pub(crate) fn allows_thread_at(&mut self, thread: &Node<'a>) -> Result<bool, NoMemory>
        requires parts { AreParts self.old.chunk }
        requires value { IsValue self.old.chunk.classes thread.now }
        requires of_chunk { thread.now.bytes.now ≡ self.old.chunk.bytes }
        ensures ok { IfOk result (λ allowed. allowed ≡ allows_thread_at self.old.filter self.old.chunk (node_of thread.now)) }
        ensures same { self.new ≡ self.old }
    {
        let holder = follow_references(self.chunk, thread, MOST_FOLLOWED);
        if let Some(allowed) = self.allows_by(&holder, "javaName")? {
            return Ok(allowed);
        }
        if let Some(allowed) = self.allows_by(&holder, "osName")? {
            return Ok(allowed);
        }
        Ok(self.filter.allows_thread(None))
    }

    /// Whether the filter allows a thread by its field with this name; `None` exactly if this leads to no
    /// text.
    fn allows_by(&mut self, holder: &Node<'a>, field: &str) -> Result<Option<bool>, NoMemory>
        requires parts { AreParts self.old.chunk }
        requires value { IsValue self.old.chunk.classes holder.now }
        requires of_chunk { holder.now.bytes.now ≡ self.old.chunk.bytes }
        ensures ok { IfOk result (λ said. said ≡ allows_if_named self.old.filter (option_and_then (text_of self.old.chunk) (named_field self.old.chunk (chars field.now) (node_of holder.now)))) }
        ensures same { self.new ≡ self.old }
    {
        match named_field(self.chunk, holder, field) {
            Some(name) => self.allows_text(&name),
            None => Ok(None),
        }
    }

    /// Whether the filter allows a thread whose name is this value; `None` exactly if this leads to no text.
    /// For all values that lead to the same string, its text is made once and matched once.
    fn allows_text(&mut self, name: &Node<'a>) -> Result<Option<bool>, NoMemory>
        requires parts { AreParts self.old.chunk }
        requires value { IsValue self.old.chunk.classes name.now }
        requires of_chunk { name.now.bytes.now ≡ self.old.chunk.bytes }
        ensures ok { IfOk result (λ said. said ≡ allows_if_named self.old.filter (text_of self.old.chunk (node_of name.now))) }
        ensures same { self.new ≡ self.old }
    {
        let last = follow_keys(self.chunk, name);
        let Some(span) = string_of(self.chunk, &last) else {
            return Ok(None);
        };
        let place = (last.at, last.end);
        if let Some(said) = self.verdicts.get(&place) {
            return Ok(*said);
        }
        let said = allows_string(self.alloc, self.filter, &span)?;
        self.verdicts.insert(place, said)?;
        Ok(said)
    }
}

/// Whether the filter allows a thread whose name is this string; `None` exactly if this has no text.
fn allows_string(
    alloc: Global,
    filter: &Filter,
    span: &StringSpan<'_>,
) -> Result<Option<bool>, NoMemory>
    ensures { IfOk result (λ said. said ≡ allows_if_named filter.now (strings.text_of (content_of span.now))) }
{
    match text_of(alloc, span)? {
        Some(text) => Ok(Some(filter.allows_thread(Some(text.as_str())))),
        None => Ok(None),
    }
}
