//! Reading a file to its end.
ghost use Rattle.std.specs.Prelude.{◌≡◌, ◌++◌, ℕ, List, IfSome, OnOk, OnErr};
ghost use Rattle.std.specs.Io.KnownBytes.{Consumes, IsAtEnd};
ghost use Rattle.records_program.specs.Fault.{IsLoadFault};
ghost use Rattle.records_program.specs.declared.load.LoadFault.TheVariants.{Memory};

use std::alloc::AllocError;
use std::io::{ErrorKind, Read};
use std::rt::Files;
use std::{fs, io};
use thiserror::Error;

/// Why a file could not be loaded. It is displayed as its variant's name.
#[derive(Clone, Copy, Debug, PartialEq, Eq, Error)]
pub enum LoadFault {
    /// An allocation failed.
    #[error("Memory")]
    Memory,
    /// The file could not be opened or read, or gave no end within 2^62 reads.
    #[error("Unreadable")]
    Unreadable,
}

impl From<AllocError> for LoadFault {
    ghost from_gives = { λ _ fault. fault ≡ Memory };

    fn from(_error: AllocError) -> LoadFault {
        LoadFault::Memory
    }
}

/// `Memory` for an error of that kind, and `Unreadable` for any other.
impl From<io::Error> for LoadFault {
    ghost from_gives = { IsLoadFault };

    fn from(error: io::Error) -> LoadFault {
        if error.kind() == ErrorKind::OutOfMemory {
            LoadFault::Memory
        } else {
            LoadFault::Unreadable
        }
    }
}

/// The most reads of one file.
const MAX_READS: u64 = 1 << 62;

/// The most bytes that one read gives.
const PIECE_LEN: usize = 4096;

/// Returns the bytes of the file of this name.
///
/// # Errors
///
/// `Memory` if an allocation failed, and `Unreadable` if the file can't be opened or read, or gives no end within 2^62 reads.
pub fn read_file<R: Files + AllocGlobal>(rt: &R, name: &str) -> Result<Vec<u8>, LoadFault> {
    let mut file = fs::open(rt, name)?;
    let mut bytes = Vec::new(rt.alloc());
    read_rest(&mut file, &mut bytes, MAX_READS)?;
    Ok(bytes)
}

/// Appends all bytes up to the reader's end, by at most `max_reads` reads. An interrupted read is tried again.
///
/// # Errors
///
/// `Memory` if an allocation failed, and `Unreadable` if a read failed, or none of `max_reads` reads gave the end. What was appended
/// until then stays in `bytes`. A piece that was read but could not be appended is lost.
pub fn read_rest<R: Read>(
    reader: &mut R,
    bytes: &mut Vec<u8>,
    max_reads: u64,
) -> Result<(), LoadFault>
    ensures bytes { OnOk result (IfSome (R.remaining reader.old) (λ xs. bytes.new.items ≡ bytes.old.items ++ xs)) }
    ensures end { OnOk result (IsAtEnd (R.remaining reader.new)) }
    ensures partial { OnErr result ((appended lost : List ℕ) × (bytes.new.items ≡ bytes.old.items ++ appended)
        × Consumes (R.remaining reader.old) (R.remaining reader.new) (appended ++ lost)) }
{
    let mut piece = [0; PIECE_LEN];
    for _ in 0..max_reads {
        match reader.read(&mut piece) {
            Ok(0) => return Ok(()),
            Ok(taken) => bytes.extend_from_slice(&piece[..taken])?,
            Err(error) if error.kind() == ErrorKind::Interrupted => {}
            // Also with the kind `OutOfMemory`: a read takes no memory of this program.
            Err(_) => return Err(LoadFault::Unreadable),
        }
    }
    Err(LoadFault::Unreadable)
}
