//! Tests of the generator of feeds by its public call.
#![tactic(auto)]

#[cfg(test)]
mod vectors;
