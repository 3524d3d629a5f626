//! Tests of the texts of events, in lines and as JSON, of the totals of recordings and of the metadata, on
//! whole chunks.
#![tactic(auto)]

#[cfg(test)]
mod events;
#[cfg(test)]
mod json;
#[cfg(test)]
mod kinds;
#[cfg(test)]
mod metadata;
#[cfg(test)]
mod shown;
#[cfg(test)]
mod totals;
