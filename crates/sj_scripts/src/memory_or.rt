//! Lack of memory, or another reason.
ghost use Rattle.std.specs.Prelude.{◌≡◌};
ghost use Rattle.sj_scripts.specs.declared.memory_or.MemoryOr.TheVariants.{Memory};
ghost use Rattle.sj_scripts.specs.inside.ReadErrors.{IsReadError};

use sj_base::{Error, ErrorType};
use std::alloc::{AllocError, AllocFailed};

/// Why a call gives no value: an allocation failed, or there is the reason `T`.
#[derive(Debug, Drop, thiserror::Error)]
pub enum MemoryOr<T> {
    /// An allocation failed.
    #[error("Memory")]
    Memory,
    /// What the call was given is refused, for this reason.
    #[error("Refused")]
    Refused(T),
}

impl<T> From<AllocError> for MemoryOr<T> {
    ghost from_gives = { λ _ e. e ≡ Memory };

    fn from(_e: AllocError) -> MemoryOr<T> {
        MemoryOr::Memory
    }
}

impl<T, U: Drop> From<AllocFailed<U>> for MemoryOr<T> {
    ghost from_gives = { λ _ e. e ≡ Memory };

    fn from(_e: AllocFailed<U>) -> MemoryOr<T> {
        MemoryOr::Memory
    }
}

/// The error of a call that reads a text.
impl From<Error> for MemoryOr<Error> {
    ghost from_gives = { IsReadError };

    fn from(error: Error) -> MemoryOr<Error> {
        match error.error() {
            ErrorType::OutOfMemory => MemoryOr::Memory,
            _ => MemoryOr::Refused(error),
        }
    }
}
