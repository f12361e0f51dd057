//! Tests of the words: a table of lines, values, paths and pages.
#![tactic(auto)]

#[cfg(test)]
mod tests;
