//! Tests of the words of the command line, as one table.
#![tactic(auto)]

#[cfg(test)]
mod words;
