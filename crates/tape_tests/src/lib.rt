//! Tests of the crates up to a tape: worked calls, texts, sinks that fail, and calls with ample memory.
//!
//! They stand in a crate of their own, since a crate with tests is proved once more with them. It has no other code.
#![tactic(auto)]

#[cfg(test)]
mod tests;
