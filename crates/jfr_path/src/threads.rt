//! A filter's verdicts on the threads of a chunk.
ghost use Rattle.std.specs.Prelude.{◌≡◌, IfOk, IfSome};
ghost use Rattle.jfr_chunk.specs.Parts.{AreParts};
ghost use Rattle.jfr_value.specs.Nodes.{IsValue, node_of};
ghost use Rattle.jfr_path.specs.Threads.{IsReferenceTo, allows_thread_at};

use crate::following::is_reference;
use crate::texts::TextVerdicts;
use jfr_base::NoMemory;
use jfr_chunk::Chunk;
use jfr_filter::Filter;
use jfr_value::{Node, target};
use std::alloc::Global;
use std::collections::BTreeMap;
use std::marker::Model;

/// A filter's verdicts on the threads of a chunk. A verdict is kept by the class and the key of the reference
/// to the thread. Contracts see the filter and the chunk.
#[derive(Drop)]
pub(crate) struct ThreadVerdicts<'c, 'a> {
    texts: TextVerdicts<'c, 'a>,
    verdicts: BTreeMap<(u64, u64), bool>,
}

impl<'c, 'a> Model for ThreadVerdicts<'c, 'a> {
    ghost use Rattle.std.specs.Coded.{codes};
    ghost use Rattle.jfr_meta.specs.Trees.{tree_code};
    ghost use Rattle.jfr_path.specs.Threads.{AreVerdicts, Asked};

    ghost Value = { Asked };

    ghost coded = { Prim.hlevel (codes, tree_code) };

    ghost view = { λ t. t.texts };

    ghost invariant = { λ t. AreVerdicts t.texts.filter t.texts.chunk t.verdicts };
}

impl<'c, 'a> ThreadVerdicts<'c, 'a> {
    /// No verdicts yet. It allocates nothing.
    pub(crate) fn new(
        alloc: Global,
        chunk: &'c Chunk<'a>,
        filter: &'c Filter,
    ) -> ThreadVerdicts<'c, 'a>
        ensures filter { result.filter ≡ filter.now }
        ensures chunk { result.chunk ≡ chunk.now }
    {
        ThreadVerdicts {
            texts: TextVerdicts::new(alloc, chunk, filter),
            verdicts: BTreeMap::new(alloc),
        }
    }

    /// Whether the filter allows the thread that a value leads to. For all references with the same class and
    /// key this is found once.
    pub(crate) fn allows(&mut self, thread: &Node<'a>) -> Result<bool, NoMemory>
        requires parts { AreParts self.old.chunk }
        requires value { IsValue self.old.chunk.classes thread.now }
        requires of_chunk { thread.now.bytes.now ≡ self.old.chunk.bytes }
        ensures ok { IfOk result (λ allowed. allowed ≡ allows_thread_at self.old.filter self.old.chunk (node_of thread.now)) }
        ensures same { self.new ≡ self.old }
    {
        let Some(target) = referred(self.texts.chunk(), thread) else {
            return self.texts.allows_thread_at(thread);
        };
        if let Some(allowed) = self.verdicts.get(&target) {
            return Ok(*allowed);
        }
        let allowed = self.texts.allows_thread_at(thread)?;
        self.verdicts.insert(target, allowed)?;
        Ok(allowed)
    }
}

/// The class and the key of a reference; `None` if the value isn't a reference.
fn referred(chunk: &Chunk<'_>, node: &Node<'_>) -> Option<(u64, u64)>
    requires value { IsValue chunk.now.classes node.now }
    requires of_chunk { node.now.bytes.now ≡ chunk.now.bytes }
    ensures { IfSome result (λ target. IsReferenceTo chunk.now target (node_of node.now)) }
{
    if !is_reference(node) {
        return None;
    }
    target(chunk.classes(), node)
}
