//! Reading parts of a chunk that are known to be there. These calls can't fail.
ghost use Rattle.std.specs.Prelude.{◌≡◌, ◌+◌, ◌≤◌, ◌<◌, ◌^◌, length, true, slice_range, Some, Ok, IsSome, IsOk, IfSome, option_map};
ghost use Rattle.jfr_base.specs.Formats.{int_at, run};
ghost use Rattle.jfr_text.specs.Spans.{content_of};
ghost use Rattle.jfr_text.specs.Strings.{string_format};
ghost use Rattle.jfr_value.specs.Nodes.{IsValue, node_of};
ghost use Rattle.jfr_pool.specs.Entries.{entry_node, in_force};

use jfr_base::{Var, known_integer};
use jfr_chunk::Chunk;
use jfr_text::{StringSpan, known_string};
use jfr_value::Node;

/// The integer that starts at `at`.
#[inline(always)]
pub(crate) fn integer_at(chunk: &Chunk<'_>, at: usize) -> Var
    requires within { at ≤ length chunk.now.bytes }
    requires holds { IsSome (int_at chunk.now.bytes at (length chunk.now.bytes)) }
    ensures { int_at chunk.now.bytes at (length chunk.now.bytes) ≡ Some result }
{
    let bytes = chunk.bytes();
    known_integer(bytes, at, bytes.len())
}

/// The string that starts at `at`.
#[inline(always)]
pub(crate) fn string_at<'a>(chunk: &Chunk<'a>, at: usize) -> StringSpan<'a>
    requires within { at ≤ length chunk.now.bytes }
    requires holds { IsOk (run (string_format true) chunk.now.bytes (length chunk.now.bytes) at) }
    ensures { run (string_format true) chunk.now.bytes (length chunk.now.bytes) at ≡ Ok (record { value = content_of result; place = result.end }) }
{
    let bytes = chunk.bytes();
    known_string(bytes, at, bytes.len())
}

/// The `count` bytes that start at `at`.
#[inline(always)]
pub(crate) fn bytes_at<'a>(chunk: &Chunk<'a>, at: usize, count: usize) -> &'a [u8]
    requires { at + count ≤ length chunk.now.bytes }
    ensures exact { result.now ≡ slice_range chunk.now.bytes at (at + count) }
    ensures fits { at + count < 2 ^ 64 }
{
    &chunk.bytes()[at..at + count]
}

/// The value of the entry in force for a class and a key; `None` exactly if there is no such entry.
#[inline(always)]
pub(crate) fn constant<'a>(chunk: &Chunk<'a>, class: u64, key: u64) -> Option<Node<'a>>
    ensures exact { option_map node_of result ≡ option_map entry_node (in_force chunk.now.entries (class, key)) }
    ensures bytes { IfSome result (λ node. node.bytes.now ≡ chunk.now.bytes) }
    ensures value { IfSome result (IsValue chunk.now.classes) }
{
    let number = chunk.pools().entry(class, key)?;
    chunk.entry_node(number)
}
