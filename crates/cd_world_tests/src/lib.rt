//! Tests of cd_world, beside it so that it is proved once.
#![tactic(auto)]

#[cfg(test)]
mod tests;
