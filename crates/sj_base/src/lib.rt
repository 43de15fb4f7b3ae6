//! Types that the crates of this project share, and the printing of JSON text.
//!
//! The definitions of what a JSON text means, and of what is printed, stand in this crate's `specs`.
#![tactic(auto)]

mod buffer;
mod decimal;
mod error;
mod fault;
mod integer;
pub mod laws;
mod layout;
mod number;
mod output;
mod place;
mod put;
mod reads;
mod scalar;
mod static_node;
mod stream;
mod trace;
mod try_copy;

pub use buffer::TextBuffer;
pub use decimal::{Decimal, DecimalBuf, DecimalCow};
pub use error::{Error, ErrorType};
pub use fault::{AccessError, TryTypeError, WriteFault};
pub use integer::JsonInteger;
pub use layout::{Container, Layout};
pub use number::{is_whole, split_minus};
pub use output::Output;
pub use put::{print_text, put_break, put_int, put_string, put_text, whole_or_none};
pub use reads::Reads;
pub use scalar::Scalar;
pub use static_node::{StaticNode, ValueType};
pub use stream::{Counted, Sink, Source};
pub use trace::Trace;
pub use try_copy::TryCopy;

/// The limit of nesting, in levels, of calls that aren't given one. A scalar has depth 0, an empty array or object depth 1.
pub const DEFAULT_MAX_DEPTH: usize = 1024;

/// The least number of bytes that must follow the text in a padded input.
pub const INPUT_PADDING: usize = 64;
