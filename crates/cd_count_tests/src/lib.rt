//! Tests of count plans, beside the crate that they test.
#![tactic(auto)]

#[cfg(test)]
mod recount;
#[cfg(test)]
mod stores;
#[cfg(test)]
mod tests;
