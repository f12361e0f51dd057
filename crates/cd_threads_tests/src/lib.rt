//! Tests of the command `run` by the call on threads, with hold-ups that let merges pass in one order alone.
#![tactic(auto)]

#[cfg(test)]
mod feeds;
#[cfg(test)]
mod tests;
#[cfg(test)]
mod turnstile;
