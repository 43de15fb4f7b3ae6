//! Errors of writes by a known key.
ghost use Rattle.std.specs.Prelude.{◌≡◌};
ghost use Rattle.sj_keys.specs.declared.error.KnownKeyError.TheVariants.{Memory};

use sj_base::ValueType;
use std::alloc::AllocError;
use thiserror::Error;

/// A write by a known key that was refused. Port of `simd_json::known_key::Error`.
#[derive(Clone, Copy, Debug, PartialEq, Eq, Error)]
pub enum KnownKeyError {
    /// The target isn't an object, but of this type.
    #[error("NotAnObject")]
    NotAnObject(ValueType),
    /// An allocation failed.
    #[error("Memory")]
    Memory,
}

impl From<AllocError> for KnownKeyError {
    ghost from_gives = { λ _ e. e ≡ Memory };

    fn from(_error: AllocError) -> KnownKeyError {
        KnownKeyError::Memory
    }
}
