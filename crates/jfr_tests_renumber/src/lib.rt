//! Tests of recordings with new keys, as tables.
#![tactic(auto)]

#[cfg(test)]
mod chunks;
#[cfg(test)]
mod streams;
