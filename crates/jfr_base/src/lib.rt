//! What every layer uses: compressed integers, decimal numbers, the language of formats, and the reasons for
//! which a recording is refused.
//!
//! Read `specs/Integer.antt` first, and then `specs/Formats.antt`.
#![tactic(auto)]

mod decimal;
mod flaw;
mod header;
mod integer;
pub mod laws;
mod memory;
mod push;
mod reason;
mod text;
mod words;

pub use decimal::decimal_number;
pub use flaw::{Flaw, ReadFault, Refusal};
pub use header::HEADER_LEN;
pub use integer::{
    SHORT_GROUPS, Short, Var, known_integer, read_short, read_var, read_within, signed, var_len,
    write_in, write_var,
};
pub use memory::NoMemory;
pub use push::{push_in, push_var};
pub use reason::Reason;
pub use text::Text;
pub use words::Words;
