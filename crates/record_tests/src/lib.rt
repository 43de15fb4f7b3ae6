//! Tests of scripts, of the record engine and of the program: worked rows, texts, and readers and writers that fail.
//!
//! They stand in a crate of their own, since a crate with tests is proved once more with them. It has no other code.
#![tactic(auto)]

#[cfg(test)]
mod tests;
