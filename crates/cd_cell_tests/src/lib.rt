//! Tests of cells by their public calls alone.
#![tactic(auto)]

#[cfg(test)]
mod bags;
#[cfg(test)]
mod faces;
#[cfg(test)]
mod levels;
