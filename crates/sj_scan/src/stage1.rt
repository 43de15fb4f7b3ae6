//! The trait of scans and their errors.
ghost use Rattle.std.specs.Prelude.{◌≡◌, ◌≢◌, ◌≤◌, IfErr, length, vec_capacity};
ghost use Rattle.sj_scan.specs.declared.stage1.ScanFault.TheVariants.{Memory};
ghost use Rattle.sj_scan.specs.Scan.{Scans};

use std::alloc::AllocError;
use thiserror::Error;

/// An error of a scan. A text that fails several tests gives the first of them, in the order of the variants.
#[derive(Clone, Copy, Debug, PartialEq, Eq, Error)]
pub enum ScanFault {
    /// The text is not UTF-8.
    #[error("Utf8")]
    Utf8,
    /// A string has no closing quote.
    #[error("Unclosed")]
    Unclosed,
    /// A string holds a byte below 0x20.
    #[error("Control")]
    Control,
    /// The text is empty or only whitespace.
    #[error("NoToken")]
    NoToken,
    /// There was no memory for the positions. It may come in place of any answer where `out` has to grow.
    #[error("Memory")]
    Memory,
}

impl From<AllocError> for ScanFault {
    ghost from_gives = { λ _ fault. fault ≡ Memory };

    fn from(_error: AllocError) -> ScanFault {
        ScanFault::Memory
    }
}

/// Finds the positions of a text. Port of `simd_json::Stage1Parse`.
pub trait Stage1 {
    /// Replaces the contents of `out` with the positions of a text.
    ///
    /// Positions are offsets in bytes, in rising order. The text has at most `u32::MAX` bytes, which the caller tests
    /// first: `bytes.len() <= u32::MAX as usize`.
    ///
    /// The capacity of `out` never shrinks. Where it is at least the length of the text in bytes, `Memory` doesn't come.
    ///
    /// # Errors
    ///
    /// `Utf8`, `Unclosed`, `Control` or `NoToken` if the text fails that test and none before it, `Memory` if there is
    /// no memory for the positions. `out` is then empty.
    fn scan(&mut self, bytes: &[u8], out: &mut Vec<u32>) -> Result<(), ScanFault>
        requires { length bytes.now ≤ 4294967295 }
        ensures scans { Scans bytes.now result out.new.items }

        // A text has no more positions than bytes.
        ensures room { length bytes.now ≤ vec_capacity out.old → IfErr result (λ fault. fault ≢ Memory) }
        ensures capacity { vec_capacity out.old ≤ vec_capacity out.new };
}
