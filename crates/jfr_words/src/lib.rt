//! What the words of the command line ask for.
//!
//! `read_words` reads an `Order`. Read `specs/Words.antt` first: the order that a list of words gives.
#![tactic(auto)]

mod filter;
mod filter_option;
mod json;
pub mod laws;
mod mask;
mod name;
mod number;
mod order;
mod patterns;
mod print;
mod sample;
mod scrub;
mod split;
mod stacks;
mod unread;
mod words;

pub use order::{Order, WordsFault};
pub use words::read_words;
