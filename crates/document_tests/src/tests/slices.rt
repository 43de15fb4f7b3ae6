//! Of `sj_values`: borrowed documents that are built of the nodes of a view.
use super::{expect_eq, expect_made, expect_that, number_in};
use sj_parse::to_tape;
use sj_tape::{Node, Value};
use sj_values::{BorrowSliceDeserializer, BorrowedValue};
use std::alloc::Global;
use std::process::Abort;

// The next value, which isn't the end.
fn next_value<'v>(
    rt: &impl Abort,
    alloc: Global,
    values: &mut BorrowSliceDeserializer<'_, 'v>,
) -> BorrowedValue<'v> {
    assert!(rt; !values.is_at_end());
    values.parse(alloc).expect(rt, "memory")
}

// Takes the next node, which isn't the end, and is an array of three items.
fn expect_array(rt: &impl Abort, values: &mut BorrowSliceDeserializer<'_, '_>) {
    assert!(rt; !values.is_at_end());
    let is_array = matches!(values.next_(), Node::Array { len: 3, .. });
    expect_that(rt, "an array", is_array);
}

// Takes the nodes and values of [1,{"k":2,"k":3},"s"] in turn.
fn expect_in_turn(rt: &impl Abort, alloc: Global, values: &mut BorrowSliceDeserializer<'_, '_>) {
    expect_array(rt, values);
    expect_eq(rt, number_in(Some(next_value(rt, alloc, values))), Some(1));
    expect_made(rt, alloc, next_value(rt, alloc, values), r#"{"k":2}"#);
    expect_made(rt, alloc, next_value(rt, alloc, values), r#""s""#);
    expect_that(rt, "the end", values.is_at_end());
}

// The value of a part of a tape, and a view without nodes.
#[test]
fn values_of_a_view(rt: HostRuntime) {
    let alloc = rt.alloc();
    let mut text = *br#"{"skip":0,"a":[1,{"k":2,"k":3},"s"]}"#;
    let tape = to_tape(alloc, &mut text).expect(&rt, "a tape");
    let view = tape.as_value().get("a").expect(&rt, "a member");
    expect_in_turn(&rt, alloc, &mut BorrowSliceDeserializer::from_tape(view));
    let is_at_end = BorrowSliceDeserializer::from_tape(Value::null()).is_at_end();
    expect_that(&rt, "the end", is_at_end);
}
