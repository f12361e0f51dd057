//! Tests of the shared core: they start threads.
#![tactic(auto)]

#[cfg(test)]
mod stores;
#[cfg(test)]
mod tests;
