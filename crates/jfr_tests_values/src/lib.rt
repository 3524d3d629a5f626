//! Tests of classes, values and constant pools, as tables.
#![tactic(auto)]

#[cfg(test)]
mod classes;
#[cfg(test)]
mod layout;
#[cfg(test)]
mod pool;
#[cfg(test)]
mod value;
#[cfg(test)]
mod visit;
