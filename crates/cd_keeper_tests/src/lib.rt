//! Tests of cd_keeper, beside it so that it is proved once.
#![tactic(auto)]

#[cfg(test)]
mod tests;
