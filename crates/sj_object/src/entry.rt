//! Pairs of a key and a value.

use std::alloc::AllocError;
use thiserror::Error;

/// A pair of a key and a value, as an object stores it.
#[derive(Debug, Drop)]
pub struct Entry<K, V> {
    /// The key.
    pub key: K,
    /// Its value.
    pub value: V,
}

/// A pair that an object had no memory for. It is handed back.
#[derive(Debug, Drop, Error)]
#[error("Refused")]
pub struct Refused<K, V> {
    /// The key that was handed in.
    pub key: K,
    /// The value that was handed in.
    pub value: V,
}

/// The pair is dropped.
impl<K: Drop, V: Drop> From<Refused<K, V>> for AllocError {
    fn from(_refused: Refused<K, V>) -> AllocError {
        AllocError
    }
}
