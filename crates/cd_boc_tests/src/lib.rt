//! Tests of the reader and the writer of bags of cells, beside the crates that they test, whose proofs are dear.
#![tactic(auto)]

#[cfg(test)]
mod export;
#[cfg(test)]
mod reading;
