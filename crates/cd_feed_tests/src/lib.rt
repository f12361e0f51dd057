//! Tests of feeds.
#![tactic(auto)]

#[cfg(test)]
mod reading;
