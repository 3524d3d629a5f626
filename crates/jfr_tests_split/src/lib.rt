//! Tests of cutting recordings into parts and of joining them, as tables.
#![tactic(auto)]

#[cfg(test)]
mod joins;
#[cfg(test)]
mod part_names;
#[cfg(test)]
mod places;
#[cfg(test)]
mod recordings;
#[cfg(test)]
mod splits;
