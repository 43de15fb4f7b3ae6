//! Errors of typed reads, of changes to a value, and of writes to a sink.
ghost use Rattle.std.specs.Prelude.{◌≡◌};
ghost use Rattle.sj_base.specs.declared.fault.AccessError.TheVariants.{Memory};

use crate::static_node::ValueType;
use std::alloc::AllocError;
use thiserror::Error;

/// A read that the value doesn't answer: it is of another type, or an integer that doesn't fit. Port of
/// `value_trait::TryTypeError`.
#[derive(Clone, Copy, Debug, PartialEq, Eq, Error)]
#[error("TryTypeError")]
pub struct TryTypeError {
    /// The type that was asked for: `I64` for each signed type of integers, `U64` for each unsigned one. It can be that of the
    /// value, where an integer doesn't fit.
    pub expected: ValueType,
    /// The type of the value.
    pub got: ValueType,
}

/// A change that was refused. Port of `value_trait::AccessError`.
#[derive(Clone, Copy, Debug, PartialEq, Eq, Error)]
pub enum AccessError {
    /// The value isn't an object.
    #[error("NotAnObject")]
    NotAnObject,
    /// The value isn't an array.
    #[error("NotAnArray")]
    NotAnArray,
    /// An allocation failed.
    #[error("Memory")]
    Memory,
}

impl From<AllocError> for AccessError {
    ghost from_gives = { λ _ e. e ≡ Memory };

    fn from(_error: AllocError) -> AccessError {
        AccessError::Memory
    }
}

/// A write to a sink that failed, was interrupted, or took no byte.
///
/// The bytes that the sink took before stay written, and the write isn't repeated.
#[derive(Clone, Copy, Debug, PartialEq, Eq, Error)]
#[error("WriteFault")]
pub struct WriteFault;
