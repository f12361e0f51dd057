//! Tests of the top call: what it leaves in a keeper, and what comes of a source, a sink and a keeper that fail.
#![tactic(auto)]

#[cfg(test)]
mod exports;
#[cfg(test)]
mod tests;
