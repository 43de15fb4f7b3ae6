//! Of `sj_owned`: copies and conversions, with ample memory.
use super::{
    expect_made, expect_text, expect_that, is_borrowed_text, is_nothing, with_item, with_member,
};
use sj_base::{Decimal, DecimalCow, StaticNode, TryCopy};
use sj_owned::{OwnedValue, Value, from_borrowed};
use std::alloc::Global;
use std::borrow::CowStr;
use std::process::Abort;

type Borrowed<'v> = Value<CowStr<'v>, DecimalCow<'v>>;

const TEXT: &str = r#"{"s":"x","a":[1.50,-1,{}]}"#;

// The document of that text.
fn borrowed(rt: &impl Abort, alloc: Global) -> Borrowed<'static> {
    let literal = Decimal::new("1.50").expect(rt, "a literal");
    let literal = Value::Decimal(DecimalCow::Borrowed(literal));
    let items = with_item(rt, Value::array(alloc), literal);
    let items = with_item(rt, items, Value::Static(StaticNode::I64(-1)));
    let items = with_item(rt, items, Value::object(alloc));
    let text = Value::String(CowStr::Borrowed("x"));
    let value = with_member(rt, Value::object(alloc), CowStr::Borrowed("s"), text);
    with_member(rt, value, CowStr::Borrowed("a"), items)
}

// Looks for a document whose string is borrowed, and writes to it.
fn expect_copy(rt: &impl Abort, alloc: Global, copy: &mut Borrowed<'_>) {
    expect_text(rt, alloc, copy, TEXT);
    expect_that(
        rt,
        "a borrowed string",
        is_borrowed_text(copy.get("s"), "x"),
    );
    let old = copy.remove("s").expect(rt, "an object");
    expect_that(rt, "the string", !is_nothing(old));
}

// A write to a copy leaves the document as it is.
#[test]
fn copies(rt: HostRuntime) {
    let alloc = rt.alloc();
    let value = borrowed(&rt, alloc);
    let mut copy = value.try_clone().expect(&rt, "memory");
    expect_copy(&rt, alloc, &mut copy);
    drop(copy);
    expect_made(&rt, alloc, value, TEXT);
}

fn is_owned_text(value: Option<&Borrowed<'_>>) -> bool {
    matches!(value, Some(Value::String(CowStr::Owned(_))))
}

// The string of the copy is its own.
#[test]
fn static_copy(rt: HostRuntime) {
    let alloc = rt.alloc();
    let value = borrowed(&rt, alloc);
    let copy = value.clone_static(alloc).expect(&rt, "memory");
    expect_that(&rt, "an owned string", is_owned_text(copy.get("s")));
    expect_made(&rt, alloc, copy, TEXT);
    expect_made(&rt, alloc, value, TEXT);
}

// The document of that text, as an owned one.
fn owned(rt: &impl Abort, alloc: Global) -> OwnedValue {
    from_borrowed(alloc, borrowed(rt, alloc)).expect(rt, "memory")
}

// That one, as a borrowed one.
fn converted_back(rt: &impl Abort, alloc: Global) -> Borrowed<'static> {
    Value::from_owned(alloc, owned(rt, alloc)).expect(rt, "memory")
}

// Makes a document borrow nothing, and looks for its text.
fn expect_into_static(rt: &impl Abort, alloc: Global, value: Borrowed<'_>) {
    let value = value.into_static(alloc).expect(rt, "memory");
    expect_made(rt, alloc, value, TEXT);
}

// To an owned document, back, and to one that borrows nothing.
#[test]
fn conversions(rt: HostRuntime) {
    let alloc = rt.alloc();
    expect_made(&rt, alloc, owned(&rt, alloc), TEXT);
    expect_made(&rt, alloc, converted_back(&rt, alloc), TEXT);
    expect_into_static(&rt, alloc, borrowed(&rt, alloc));
    expect_into_static(&rt, alloc, converted_back(&rt, alloc));
}
