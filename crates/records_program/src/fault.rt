//! Why the program fails, with its line on standard error and its exit status.
ghost use Rattle.std.specs.Prelude.{◌≡◌};
ghost use Rattle.records_program.specs.Fault.{line_of, status_of, of_load, of_run};
ghost use Rattle.records_program.specs.declared.fault.Fault.TheVariants.{Memory};

use crate::load::LoadFault;
use sj_records::RunError;
use std::alloc::AllocError;
use thiserror::Error;

/// Why the program fails. It is displayed as its variant's name; [`Fault::line`] has what the program says of it.
#[derive(Debug, Drop, Error)]
pub enum Fault {
    /// An allocation failed.
    #[error("Memory")]
    Memory,
    /// Standard input could not be read to its end.
    #[error("Read")]
    Read,
    /// Standard output could not be written or flushed.
    #[error("Write")]
    Write,
    /// The arguments are refused, with this text: that of `clap`, of one line or more.
    #[error("Arguments")]
    Arguments(String),
    /// The file with the script could not be read.
    #[error("Unreadable")]
    Unreadable,
    /// The script is refused, with this line and its line feed.
    #[error("Script")]
    Script(Vec<u8>),
}

impl Fault {
    /// Returns the exit status: 1 if memory, the input or the output failed, else 2.
    pub fn status(&self) -> u8
        ensures { result ≡ status_of self.now }
    {
        match self {
            Fault::Memory | Fault::Read | Fault::Write => 1,
            Fault::Arguments(_) | Fault::Unreadable | Fault::Script(_) => 2,
        }
    }

    /// Returns the text for standard error: a line with its line feed, or the text that the fault comes with.
    pub fn line(&self) -> &[u8]
        ensures { result.now ≡ line_of self.now }
    {
        match self {
            Fault::Memory => b"records: memory\n",
            Fault::Read => b"records: read\n",
            Fault::Write => b"records: write\n",
            Fault::Arguments(text) => text.as_bytes(),
            Fault::Unreadable => b"records: cannot read script\n",
            Fault::Script(line) => line,
        }
    }
}

impl From<AllocError> for Fault {
    ghost from_gives = { λ _ f. f ≡ Memory };

    fn from(_error: AllocError) -> Fault {
        Fault::Memory
    }
}

impl From<LoadFault> for Fault {
    ghost from_gives = { λ l f. f ≡ of_load l };

    fn from(fault: LoadFault) -> Fault {
        match fault {
            LoadFault::Memory => Fault::Memory,
            LoadFault::Unreadable => Fault::Unreadable,
        }
    }
}

impl From<RunError> for Fault {
    ghost from_gives = { λ e f. f ≡ of_run e };

    fn from(error: RunError) -> Fault {
        match error {
            RunError::Memory => Fault::Memory,
            RunError::Read | RunError::TooManyReads => Fault::Read,
            RunError::Write => Fault::Write,
        }
    }
}
