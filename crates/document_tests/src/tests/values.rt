//! Of `sj_owned` and `sj_values`: documents that are read from bytes, with ample memory.
use super::{borrowed_of, expect_eq, expect_made, expect_that, is_borrowed_text, owned_of};
use sj_base::{DecimalBuf, DecimalCow, ErrorType, ValueType};
use sj_owned::{
    OwnedDeserializer, OwnedValue, Value, build_tape, build_value, deserialize,
    deserialize_with_buffers, to_owned_value_with_buffers,
};
use sj_parse::{Buffers, Deserializer, to_tape};
use sj_reads::ValueAsScalar;
use sj_values::{BorrowDeserializer, BorrowedValue, to_borrowed_value_with_buffers};
use std::alloc::Global;
use std::borrow::CowStr;
use std::process::Abort;

#[test]
fn read_by_their_own_buffers(rt: HostRuntime) {
    let alloc = rt.alloc();
    let value = owned_of(&rt, alloc, r#"{"a":1,"a":2}"#);
    expect_made(&rt, alloc, value, r#"{"a":1}"#);
    let mut text = *b"[1.50]";
    let value = deserialize::<OwnedValue, String>(alloc, &mut text).expect(&rt, "a document");
    expect_made(&rt, alloc, value, "[1.50]");
    let mut text = *br#"{"some": ["key", "value", 2]}"#;
    let value = borrowed_of(&rt, alloc, &mut text);
    expect_made(&rt, alloc, value, r#"{"some":["key","value",2]}"#);
}

// As neither an owned nor a borrowed document: its texts may be borrowed, and its literals are owned.
#[test]
fn read_with_owned_literals(rt: HostRuntime) {
    let alloc = rt.alloc();
    let mut text = *br#"{"a":["x",1.50],"b":null,"a":2}"#;
    let value = deserialize::<Value<CowStr<'_>, DecimalBuf>, CowStr<'_>>(alloc, &mut text);
    let document = r#"{"a":["x",1.50],"b":null}"#;
    expect_made(&rt, alloc, value.expect(&rt, "a document"), document);
}

// A document can be built of a tape, which stays, or of one that is handed over.
#[test]
fn built_of_a_tape(rt: HostRuntime) {
    let alloc = rt.alloc();
    let mut text = *br#"{"a":[1.50,"x"],"a":2}"#;
    let tape = to_tape(alloc, &mut text).expect(&rt, "a tape");
    let document = r#"{"a":[1.50,"x"]}"#;
    let value = build_value::<OwnedValue, String>(alloc, tape.as_value());
    expect_made(&rt, alloc, value.expect(&rt, "memory"), document);
    let value = build_tape::<OwnedValue, String>(alloc, tape);
    expect_made(&rt, alloc, value.expect(&rt, "memory"), document);
}

fn expect_owned(rt: &impl Abort, alloc: Global, buffers: &mut Buffers) {
    let mut text = *br#"["a"]"#;
    let value = to_owned_value_with_buffers(alloc, &mut text, buffers).expect(rt, "a document");
    expect_made(rt, alloc, value, r#"["a"]"#);
}

fn expect_borrowed(rt: &impl Abort, alloc: Global, buffers: &mut Buffers) {
    let mut text = *br#"["\u0061"]"#;
    let value = to_borrowed_value_with_buffers(alloc, &mut text, buffers).expect(rt, "a document");
    expect_made(rt, alloc, value, r#"["a"]"#);
}

fn expect_built(rt: &impl Abort, alloc: Global, buffers: &mut Buffers) {
    let mut text = *b"7";
    let value = deserialize_with_buffers::<OwnedValue, String>(alloc, &mut text, buffers);
    expect_made(rt, alloc, value.expect(rt, "a document"), "7");
}

fn expect_refused(rt: &impl Abort, alloc: Global, buffers: &mut Buffers) {
    let mut text = *b"[[]]";
    let error = to_owned_value_with_buffers(alloc, &mut text, buffers).err();
    expect_eq(rt, error.expect(rt, "an error").error(), ErrorType::Syntax);
}

// One after the other in the same buffers, of one level.
#[test]
fn read_by_buffers(rt: HostRuntime) {
    let alloc = rt.alloc();
    let mut buffers = Buffers::with_max_depth(alloc, 0, 1).expect(&rt, "memory");
    expect_owned(&rt, alloc, &mut buffers);
    expect_borrowed(&rt, alloc, &mut buffers);
    expect_built(&rt, alloc, &mut buffers);
    expect_refused(&rt, alloc, &mut buffers);
    drop(buffers);
}

// Looks for the documents that are left, one after the other.
fn expect_parts(
    rt: &impl Abort,
    alloc: Global,
    values: &mut OwnedDeserializer<'_>,
    parts: &[&str],
) {
    for part in parts {
        assert!(rt; !values.is_at_end());
        expect_made(rt, alloc, values.parse(alloc).expect(rt, "memory"), part);
    }
    expect_that(rt, "the end", values.is_at_end());
}

// Steps over a node, which isn't the end.
fn skip(rt: &impl Abort, nodes: &mut Deserializer<'_>) {
    assert!(rt; !nodes.is_at_end());
    nodes.next_();
}

// Behind the object and its first key.
#[test]
fn taken_from_a_tape(rt: HostRuntime) {
    let alloc = rt.alloc();
    let mut text = *br#"{"a":[1,{}],"b":2}"#;
    let mut nodes = Deserializer::from_slice(alloc, &mut text).expect(&rt, "a tape");
    skip(&rt, &mut nodes);
    skip(&rt, &mut nodes);
    let mut values = OwnedDeserializer::from_deserializer(nodes);
    expect_parts(&rt, alloc, &mut values, &["[1,{}]", r#""b""#, "2"]);
}

// The only document of a tape, as it is borrowed.
fn only_part<'v>(
    rt: &impl Abort,
    alloc: Global,
    values: &mut BorrowDeserializer<'v>,
) -> BorrowedValue<'v> {
    assert!(rt; !values.is_at_end());
    let part = values.parse(alloc).expect(rt, "memory");
    expect_that(rt, "the end", values.is_at_end());
    part
}

#[test]
fn borrowed_from_a_tape(rt: HostRuntime) {
    let alloc = rt.alloc();
    let mut text = *br#"{"a":1,"a":2}"#;
    let nodes = Deserializer::from_slice(alloc, &mut text).expect(&rt, "a tape");
    let mut values = BorrowDeserializer::from_deserializer(nodes);
    let part = only_part(&rt, alloc, &mut values);
    drop(values);
    expect_made(&rt, alloc, part, r#"{"a":1}"#);
}

// The integers of the array have the carriers of their tokens.
fn expect_carrier(rt: &impl Abort, value: &BorrowedValue<'_>, place: usize, kind: ValueType) {
    let item = value.get_idx(place).expect(rt, "an item");
    expect_eq(rt, item.value_type(), kind);
}

// Each text of it is a part of the input.
fn expect_parts_of_input(rt: &impl Abort, value: &BorrowedValue<'_>) {
    for &place in &[2, 3] {
        let text = value.get_idx(place);
        expect_that(rt, "a borrowed text", is_borrowed_text(text, "a"));
    }
    let literal = value.get_idx(4);
    expect_that(rt, "a borrowed literal", is_borrowed_literal(literal));
}

fn is_borrowed_literal(value: Option<&BorrowedValue<'_>>) -> bool {
    matches!(value, Some(Value::Decimal(DecimalCow::Borrowed(_))))
}

fn is_borrowed_key(key: &CowStr<'_>) -> bool {
    matches!(key, CowStr::Borrowed(_))
}

// So is each key.
fn expect_keys_as_they_stand(rt: &impl Abort, value: &BorrowedValue<'_>) {
    let members = value.as_object().expect(rt, "an object");
    for key in members.keys() {
        expect_that(rt, "a borrowed key", is_borrowed_key(key));
    }
}

#[test]
fn read_as_they_stand(rt: HostRuntime) {
    let mut text = *br#"[5,-5,"a","\u0061",1.5,-0]"#;
    let value = borrowed_of(&rt, rt.alloc(), &mut text);
    expect_carrier(&rt, &value, 0, ValueType::U64);
    expect_carrier(&rt, &value, 1, ValueType::I64);
    expect_carrier(&rt, &value, 5, ValueType::I64);
    expect_parts_of_input(&rt, &value);
    drop(value);
    let mut text = *br#"{"a":1,"\u0062":2}"#;
    let value = borrowed_of(&rt, rt.alloc(), &mut text);
    expect_keys_as_they_stand(&rt, &value);
    drop(value);
}

// An integer that no carrier holds is a literal, and no integer read gives it.
fn expect_literal(rt: &impl Abort, value: &OwnedValue, text: &str) {
    expect_eq(rt, value.value_type(), ValueType::Decimal);
    expect_eq(rt, value.as_i128(), None);
    expect_eq(rt, value.as_u128(), None);
    let literal = value.as_decimal().expect(rt, "a literal");
    expect_eq(rt, literal.as_str(), text);
}

#[test]
fn read_as_a_literal(rt: HostRuntime) {
    let text = "18446744073709551616";
    let value = owned_of(&rt, rt.alloc(), text);
    expect_literal(&rt, &value, text);
    drop(value);
}
