//! Tests of a migration, beside the crate that they test.
#![tactic(auto)]

#[cfg(test)]
mod tests;
