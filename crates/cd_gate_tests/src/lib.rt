//! Tests of the gate, over a small list of numbers: they start threads.
#![tactic(auto)]

#[cfg(test)]
mod numbers;
#[cfg(test)]
mod tests;
