//! One module for each subject.
//!
//! What a test owns is handed to `drop`, which is proved once. For a value that goes out of scope the drop of each of its variants
//! is proved, at each place where the function returns.
mod counts;
mod filter;
mod nodes;
mod objects;
mod repeats;
mod scans;
mod shared;
mod tapes;

use std::alloc::Global;
use std::fmt::{Debug, Display};
use std::process::Abort;

// Fails unless both are equal. It is proved once, where an `assert_eq!` is proved together with all that its test holds.
fn expect_eq<T: PartialEq + Debug + Drop>(rt: &impl Abort, found: T, expected: T) {
    assert_eq!(rt; found, expected);
}

// The same of a row of a table, which it names.
fn expect_at<T: PartialEq + Debug + Drop>(rt: &impl Abort, row: &str, found: T, expected: T) {
    assert_eq!(rt; found, expected, "at {row}");
}

// Fails, and says what was wanted, unless it holds.
fn expect_that(rt: &impl Abort, wanted: &str, holds: bool) {
    assert!(rt; holds, "{wanted}");
}

// Fails unless these bytes are the text.
fn expect_bytes(rt: &impl Abort, found: Vec<u8>, text: &str) {
    expect_eq(rt, found.as_slice(), text.as_bytes());
}

// Whether a call hands out something.
fn is_there<T: Drop>(found: Option<T>) -> bool {
    found.is_some()
}

// Fails unless this is the text.
fn expect_text(rt: &impl Abort, found: String, text: &str) {
    expect_eq(rt, found.as_str(), text);
}

// Fails unless this is the value's `Debug` text.
fn expect_debug(rt: &impl Abort, alloc: Global, value: &impl Debug, text: &str) {
    expect_text(
        rt,
        format!(in alloc; "{value:?}").expect(rt, "memory"),
        text,
    );
}

// Fails unless this is how the value is displayed.
fn expect_shown(rt: &impl Abort, alloc: Global, value: &impl Display, text: &str) {
    expect_text(rt, format!(in alloc; "{value}").expect(rt, "memory"), text);
}
