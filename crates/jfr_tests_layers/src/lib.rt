//! Tests of integers, strings, filters, masks and metadata, as tables.
#![tactic(auto)]

#[cfg(test)]
mod base;
#[cfg(test)]
mod filter;
#[cfg(test)]
mod mask;
#[cfg(test)]
mod meta;
#[cfg(test)]
mod text;
