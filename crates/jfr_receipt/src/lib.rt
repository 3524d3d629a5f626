//! Writing receipts: for each chunk of a recording, the receipt of its scrub.
//!
//! `receipt_stream` is the entry point, and `scrubs_have_receipts` the law that `verify` is promised to accept
//! what it writes. Read `specs/Receipting.antt` first. What a receipt is, and how it is
//! checked, is in jfr_verify.
#![tactic(auto)]

mod laws;
mod receipt;

pub use laws::scrubs_have_receipts;
pub use receipt::receipt_stream;
