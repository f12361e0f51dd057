//! Tests of Merkle updates and of prepared values, beside the crates that they test, whose proofs are dear.
#![tactic(auto)]

#[cfg(test)]
mod bags;
#[cfg(test)]
mod merged;
#[cfg(test)]
mod tests;
