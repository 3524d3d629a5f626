//! Tests of the calls on whole chunks, as tables: reading, paths, choice, windows, reach and scrubbing, and of the
//! libraries above them, the example and the sample.
#![tactic(auto)]

#[cfg(test)]
mod choice;
#[cfg(test)]
mod class_names;
#[cfg(test)]
mod example;
#[cfg(test)]
mod paths;
#[cfg(test)]
mod pieces;
#[cfg(test)]
mod reach;
#[cfg(test)]
mod reading;
#[cfg(test)]
mod samples;
#[cfg(test)]
mod slim_metadata;
#[cfg(test)]
mod windows;
