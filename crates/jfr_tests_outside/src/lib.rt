//! Tests of places and sinks, also of real files, of how a recording is cut, and of the loop over its chunks, as tables.
#![tactic(auto)]

#[cfg(test)]
mod header;
#[cfg(test)]
mod outside;
#[cfg(test)]
mod places;
#[cfg(test)]
mod plan;
#[cfg(test)]
mod real_files;
