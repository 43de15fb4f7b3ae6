//! Tests of owned, borrowed and lazy documents and of known keys: worked calls, texts, and calls with ample memory.
//!
//! They stand in a crate of their own, since a crate with tests is proved once more with them. It has no other code.
#![tactic(auto)]

#[cfg(test)]
mod tests;
