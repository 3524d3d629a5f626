//! Tests of the top call, as tables, over places in memory.
#![tactic(auto)]

#[cfg(test)]
mod builds;
#[cfg(test)]
mod checks;
#[cfg(test)]
mod classes;
#[cfg(test)]
mod commands;
#[cfg(test)]
mod constants;
#[cfg(test)]
mod contents;
#[cfg(test)]
mod descriptions;
#[cfg(test)]
mod faults;
#[cfg(test)]
mod filters;
#[cfg(test)]
mod jdk;
#[cfg(test)]
mod masks;
#[cfg(test)]
mod outputs;
#[cfg(test)]
mod parts;
#[cfg(test)]
mod pieces;
#[cfg(test)]
mod places;
#[cfg(test)]
mod plays;
#[cfg(test)]
mod runs;
#[cfg(test)]
mod scrubs;
#[cfg(test)]
mod stacks;
