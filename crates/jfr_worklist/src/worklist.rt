//! The worklist: marks, and the numbers in the order in which they were marked.
ghost use Rattle.std.specs.Prelude.{◌≡◌, ◌+◌, ◌<◌, ◌≤◌, [], ◌∷◌, ◌++◌, false, true, length, replicate, slice_set, vec_len, vec_capacity, IfOk};
ghost use Rattle.jfr_worklist.specs.Worklists.{marked_count, ordered};

use jfr_base::NoMemory;
use std::alloc::Global;

/// The numbers below a bound that a walk has met, each once, in the order in which it met them.
///
/// The walk itself keeps a position in `order`: the numbers from there on have not been visited yet. `new`
/// allocates all memory, so a walk can't fail.
#[derive(Drop)]
pub struct Worklist {
    /// For each number, whether it is marked.
    pub flags: Vec<bool>,
    /// The marked numbers, in the order in which they were marked.
    pub order: Vec<usize>,
    ghost room: { length flags.items ≤ vec_capacity order },
    ghost each: { vec_len order ≡ marked_count flags.items },
}

impl Worklist {
    /// A worklist for the numbers below `count`, with no number marked.
    pub fn new(alloc: Global, count: usize) -> Result<Worklist, NoMemory>
        ensures { IfOk result (λ list. list.flags.items ≡ replicate count false) }
    {
        let order = Vec::with_capacity(alloc, count)?;
        let mut flags = Vec::new(alloc);
        flags.resize(count, false)?;
        Ok(Worklist { flags, order })
    }

    /// Marks this number, and adds it to the order unless it was marked before.
    pub fn put(&mut self, number: usize)
        requires { number < length self.old.flags.items }
        ensures flags { self.new.flags.items ≡ slice_set self.old.flags.items number true }
        ensures order { self.new.order.items ≡ ordered self.old.flags.items self.old.order.items number }
    {
        if !self.flags[number] {
            self.flags[number] = true;
            push_within(&mut self.order, number);
        }
    }
}

/// Pushes onto a vector with spare capacity, which can't fail.
fn push_within(list: &mut Vec<usize>, number: usize)
    requires { vec_len list.old < vec_capacity list.old }
    ensures items { list.new.items ≡ list.old.items ++ number ∷ [] }
    ensures len { vec_len list.new ≡ vec_len list.old + 1 }
    ensures capacity { vec_capacity list.old ≤ vec_capacity list.new }
{
    match list.push(number) {
        Ok(()) => {}
        Err(_) => unreachable!(),
    }
}
