//! Which entries of the input have copies in the output.
ghost use Rattle.std.specs.Prelude.{◌≡◌, ◌≤◌, length, slice_range, IfOk};
ghost use Rattle.std.specs.Str.{bytes_eq};
ghost use Rattle.jfr_value.specs.Nodes.{node_bytes, node_of};
ghost use Rattle.jfr_verify.specs.Checks.{MarksOfCopies, next_copy};

use jfr_base::NoMemory;
use jfr_chunk::Chunk;
use jfr_value::Node;
use std::alloc::Global;

/// Marks on the entries of the input that have copies in the output, in order; `None` exactly
/// if the entries of the output aren't copies of entries in force of the input, in order.
pub(crate) fn marks_of_copies(
    alloc: Global,
    a: &Chunk<'_>,
    b: &Chunk<'_>,
) -> Result<Option<Vec<bool>>, NoMemory>
    ensures { IfOk result (MarksOfCopies a.now b.now) }
{
    let mut marks = Vec::new(alloc);
    marks.resize(a.pools().len(), false)?;
    let mut from = 0;
    for number in 0..b.pools().len() {
        let Some(original) = copy_at(a, b, number, from) else {
            return Ok(None);
        };
        marks[original] = true;
        from = original + 1;
    }
    Ok(Some(marks))
}

/// The number of the entry in force of the input that entry `number` of the output is a copy of; `None` if
/// there is none or its number is below `from`.
fn copy_at(a: &Chunk<'_>, b: &Chunk<'_>, number: usize, from: usize) -> Option<usize>
    ensures { result ≡ next_copy a.now b.now number from }
{
    let copy = b.pools().get(number)?;
    let original = a.pools().entry(copy.class, copy.key)?;
    if original < from {
        return None;
    }
    let entry = a.pools().get(original)?;
    if entry.checkpoint != copy.checkpoint {
        return None;
    }
    let one = a.entry_node(original)?;
    let other = b.entry_node(number)?;
    if same_bytes(&one, &other) {
        return Some(original);
    }
    None
}

/// Whether two nodes have equal bytes.
fn same_bytes(one: &Node<'_>, other: &Node<'_>) -> bool
    requires one { (one.now.at ≤ one.now.end) × (one.now.end ≤ length one.now.bytes.now) }
    requires other { (other.now.at ≤ other.now.end) × (other.now.end ≤ length other.now.bytes.now) }
    ensures { result ≡ bytes_eq (node_bytes one.now.bytes.now (node_of one.now)) (node_bytes other.now.bytes.now (node_of other.now)) }
{
    one.bytes[one.at..one.end] == other.bytes[other.at..other.end]
}
