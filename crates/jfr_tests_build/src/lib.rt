//! Tests of the builder, as tables. The expected bytes and lines come from other programs.
#![tactic(auto)]

#[cfg(test)]
mod chunks;
#[cfg(test)]
mod refusals;
