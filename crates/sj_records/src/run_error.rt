//! Why a run stops.
ghost use Rattle.std.specs.Prelude.{◌≡◌};
ghost use Rattle.sj_records.specs.declared.run_error.RunError.TheVariants.{Memory};

use std::alloc::AllocError;
use thiserror::Error;

/// The error of `run`, `run_with` and `run_within`. Only whole records are written before it, except before `Write`.
#[derive(Clone, Copy, Debug, PartialEq, Eq, Error)]
pub enum RunError {
    /// An allocation failed. The records of the first k lines that a line feed ended are written, for some k.
    #[error("Memory")]
    Memory,
    /// A write failed, was interrupted or took no byte. A prefix of the output is written.
    #[error("Write")]
    Write,
    /// A read failed other than by an interruption. The records of the lines that a line feed ended are written.
    #[error("Read")]
    Read,
    /// The reader gave no end within 2^62 reads, or as many as `run_within` is given. What is written is as for `Read`.
    #[error("TooManyReads")]
    TooManyReads,
}

impl From<AllocError> for RunError {
    ghost from_gives = { λ _ e. e ≡ Memory };

    fn from(_e: AllocError) -> RunError {
        RunError::Memory
    }
}
