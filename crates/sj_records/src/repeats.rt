//! The rule for repeated keys.

/// Whether a document that repeats a key is refused. A document repeats a key if two members of one object have it.
#[derive(Clone, Copy, Debug, PartialEq, Eq)]
pub enum Repeats {
    /// The script runs on the document. Its form says which of the members with equal keys are there.
    Keep,
    /// The script doesn't run. The record of the line names the first member whose key stands earlier in its object.
    Refuse,
}
