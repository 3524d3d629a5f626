//! What the lines of a receipt claim: for each entry a parent that refers to it. A claim is confirmed by
//! looking at what the parent refers to.
ghost use Rattle.std.specs.Prelude.{◌≡◌, ◌<◌, [], ◌∷◌, false, length, replicate, IfOk};
ghost use Rattle.jfr_worklist.specs.Marks.{marked_at};
ghost use Rattle.jfr_verify.specs.Claims.{children, is_parent_of, same_parent};

use crate::Parent;
use jfr_base::NoMemory;
use std::alloc::Global;

/// The claimed parents of a chunk's entries.
#[derive(Drop)]
pub(crate) struct Claims {
    /// For each entry, its claimed parent.
    pub parents: Vec<Parent>,
    /// For each entry, whether its claimed parent is known to refer to it.
    pub confirmed: Vec<bool>,
    /// The current parent: the one whose references are being visited.
    pub parent: Parent,
}

impl Claims {
    /// These claims, none of them confirmed.
    pub fn new(alloc: Global, parents: Vec<Parent>) -> Result<Claims, NoMemory>
        ensures parents { IfOk result (λ claims. claims.parents.items ≡ parents.items) }
        ensures confirmed { IfOk result (λ claims. claims.confirmed.items ≡ replicate (length parents.items) false) }
    {
        let mut confirmed = Vec::new(alloc);
        confirmed.resize(parents.len(), false)?;
        Ok(Claims {
            parents,
            confirmed,
            parent: Parent::OfEvent(0),
        })
    }

    /// Records that the current parent, `parent`, refers to entry `number`. This confirms the entry's claim
    /// if the current parent is its claimed parent.
    pub fn put(&mut self, number: usize)
        requires { number < length self.old.confirmed.items }
        ensures confirmed { self.new.confirmed.items ≡ marked_at self.old.confirmed.items (children self.old.parents.items self.old.parent (number ∷ [])) }
        ensures parents { self.new.parents.items ≡ self.old.parents.items }
        ensures parent { self.new.parent ≡ self.old.parent }
    {
        if is_parent_of(&self.parents, self.parent, number) {
            self.confirmed[number] = true;
        }
    }
}

/// Whether this is the claimed parent of entry `number`.
fn is_parent_of(parents: &[Parent], parent: Parent, number: usize) -> bool
    ensures { result ≡ is_parent_of parents.now parent number }
{
    match parents.get(number) {
        Some(claimed) => same_parent(parent, *claimed),
        None => false,
    }
}

/// Whether two parents are the same.
fn same_parent(one: Parent, other: Parent) -> bool
    ensures { result ≡ same_parent one other }
{
    match (one, other) {
        (Parent::OfEvent(a), Parent::OfEvent(b)) => a == b,
        (Parent::OfEntry(a), Parent::OfEntry(b)) => a == b,
        _ => false,
    }
}
