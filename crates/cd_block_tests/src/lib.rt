//! Tests of names of blocks, descriptions, lineage and expiry, beside the crate that they test.
#![tactic(auto)]

#[cfg(test)]
mod tests;
