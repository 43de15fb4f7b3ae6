//! Stage one of reading JSON: it finds the positions of a text, the byte offsets at which its tokens begin.
//!
//! A quote is real, which means that it opens or closes a string, unless an odd number of backslashes stands directly before it.
//! Outside strings a token begins, valid JSON or not, at each operator, at each real quote that opens a string, and at any other
//! byte that is no whitespace and stands first, or after whitespace, an operator or a real quote.
//! A scan also tests the text as a whole: it must be UTF-8, with each string closed, no control character in a string, and
//! at least one token.
//!
//! [`Stage1`] is the contract of every scan. [`BlockScan`] is the fast one, [`PlainScan`] the reference implementation.
#![tactic(auto)]

mod block_scan;
mod classes;
mod end;
mod masks;
mod plain;
mod push;
mod stage1;

pub use block_scan::BlockScan;
pub use plain::PlainScan;
pub use stage1::{ScanFault, Stage1};
