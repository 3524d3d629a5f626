//! Tests of masked chunks, as tables.
#![tactic(auto)]

#[cfg(test)]
mod chunks;
