//! Paths into a document.

/// One part of a path.
#[derive(Debug, Drop)]
pub enum PathPart {
    /// Selects the first member of an object with this key.
    Key(String),
    /// Selects the item of an array at this index, from 0.
    Item(u64),
}
