//! Tests of opening a store, beside the crate that they test.
#![tactic(auto)]

#[cfg(test)]
mod damages;
#[cfg(test)]
mod stores;
#[cfg(test)]
mod tests;
