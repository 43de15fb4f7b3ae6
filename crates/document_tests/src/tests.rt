//! Documents: read, edited, copied, converted, compared and shown; known keys; and lazy values.
//!
//! What a test owns is handed to `drop`, which is proved once. For a value that goes out of scope the drop of each of its variants
//! is proved, at each place where the function returns.
mod cookbook;
mod copies;
mod depths;
mod keys;
mod lazy;
mod members;
mod owned;
mod slices;
mod texts;
mod values;

use sj_object::ObjectKey;
use sj_owned::{Literal, OwnedValue, Value, to_owned_value};
use sj_reads::ValueAsScalar;
use sj_values::{BorrowedValue, to_borrowed_value};
use std::alloc::Global;
use std::borrow::CowStr;
use std::fmt::Debug;
use std::process::Abort;

// Fails unless both are equal. It is proved once, where an `assert_eq!` is proved together with all that its test holds.
fn expect_eq<T: PartialEq + Debug + Drop>(rt: &impl Abort, found: T, expected: T) {
    assert_eq!(rt; found, expected);
}

// The same of a row of a table, which it names.
fn expect_at<T: PartialEq + Debug + Drop>(rt: &impl Abort, row: &str, found: T, expected: T) {
    assert_eq!(rt; found, expected, "at {row}");
}

// Fails, and says what was wanted, unless it holds.
fn expect_that(rt: &impl Abort, wanted: &str, holds: bool) {
    assert!(rt; holds, "{wanted}");
}

// Fails unless these bytes are the text.
fn expect_bytes(rt: &impl Abort, found: Vec<u8>, text: &str) {
    expect_eq(rt, found.as_slice(), text.as_bytes());
}

// Whether a call hands out nothing.
fn is_nothing<T: Drop>(found: Option<T>) -> bool {
    found.is_none()
}

// Whether a call succeeds.
fn is_made<T: Drop, E: Drop>(made: Result<T, E>) -> bool {
    made.is_ok()
}

// The number that a call hands out.
fn number_in<T: ValueAsScalar + Drop>(value: Option<T>) -> Option<u64> {
    value?.as_u64()
}

// Whether a value equals another one, which is dropped.
fn is_equal<T: PartialEq + Drop>(value: &T, other: T) -> bool {
    *value == other
}

// Puts a value in the place of another one, which is dropped.
fn overwrite<T: Drop>(old: &mut T, value: T) {
    *old = value;
}

// Whether a value is this text, as a part of the input.
fn is_borrowed_text(value: Option<&BorrowedValue<'_>>, text: &str) -> bool {
    matches!(value, Some(Value::String(CowStr::Borrowed(found))) if *found == text)
}

// The owned document of a text.
fn owned_of(rt: &impl Abort, alloc: Global, json: &str) -> OwnedValue {
    let mut text = json.as_bytes().to_vec(alloc).expect(rt, "memory");
    to_owned_value(alloc, &mut text).expect(rt, "a document")
}

// The borrowed document of a text.
fn borrowed_of<'v>(rt: &impl Abort, alloc: Global, text: &'v mut [u8]) -> BorrowedValue<'v> {
    to_borrowed_value(alloc, text).expect(rt, "a document")
}

// Fails unless this is the compact text of the document.
fn expect_text<K: ObjectKey, D: Literal>(
    rt: &impl Abort,
    alloc: Global,
    value: &Value<K, D>,
    text: &str,
) {
    let mut out = Vec::new(alloc);
    value.encode(&mut out).expect(rt, "memory");
    expect_bytes(rt, out, text);
}

// The same of a document that was made for this check.
fn expect_made<K: ObjectKey + Drop, D: Literal + Drop>(
    rt: &impl Abort,
    alloc: Global,
    value: Value<K, D>,
    text: &str,
) {
    expect_text(rt, alloc, &value, text);
}

// The array with one more item.
fn with_item<K: ObjectKey + Drop, D: Literal + Drop>(
    rt: &impl Abort,
    mut items: Value<K, D>,
    item: Value<K, D>,
) -> Value<K, D> {
    items.push(item).expect(rt, "memory");
    items
}

// The object with one more member.
fn with_member<K: ObjectKey + Drop, D: Literal + Drop>(
    rt: &impl Abort,
    mut object: Value<K, D>,
    key: K,
    value: Value<K, D>,
) -> Value<K, D> {
    object.insert(key, value).expect(rt, "memory");
    object
}
