//! A worklist: the numbers that a walk has met, and the order in which it visits them.
//!
//! A walk over a graph with numbered nodes first puts the roots into the list. Then it takes the numbers in
//! the order of the list, and for each puts the numbers to which it leads. `specs/Marks.antt` defines which
//! numbers are marked at the end, `specs/Worklists.antt` in which order they were marked. The lemmas of
//! `proofs/SweepLaws.antt` and `proofs/WalkLaws.antt` show that these are exactly the numbers to which the
//! roots lead.
#![tactic(auto)]

mod worklist;

pub use worklist::Worklist;
