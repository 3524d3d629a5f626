//! Tests of receipts and of their checker, as tables. The answers come from another program.
#![tactic(auto)]

#[cfg(test)]
mod answers;
#[cfg(test)]
mod outputs;
#[cfg(test)]
mod places;
#[cfg(test)]
mod receipts;
#[cfg(test)]
mod streams;
