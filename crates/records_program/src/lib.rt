//! The program `records`, over the words, the file, the input and the outputs that it is given.
//!
//! [`program::program`] parses the words, reads the script and runs it on the input. Its contract has the exit status, what
//! is left on the output, and what is reported, for each way to end.
#![tactic(auto)]

mod arguments;
mod counted;
mod fault;
mod load;
pub mod program;

pub use arguments::command_line;
pub use fault::Fault;
pub use load::{LoadFault, read_file, read_rest};
