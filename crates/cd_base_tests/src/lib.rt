//! Tests of what every crate stands on: bytes, checksums, sources and sinks, beside the crate that they test.
#![tactic(auto)]

#[cfg(test)]
mod tests;
