//! Tests of records, beside the crate that they test.
#![tactic(auto)]

#[cfg(test)]
mod tests;
