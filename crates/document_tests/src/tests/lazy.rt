//! Of `sj_lazy`: worked rows, and each call with ample memory.
ghost use Rattle.std.specs.Prelude.{◌≡◌, Some, OnOk, OnErr};
ghost use Rattle.sj_lazy.specs.Contents.{own_document};

use super::{
    borrowed_of, expect_at, expect_bytes, expect_eq, expect_that, is_equal, is_made, number_in,
};
use sj_base::{AccessError, StaticNode, TryCopy, TryTypeError, ValueType};
use sj_lazy::{Held, LazyComparand, Value};
use sj_owned::{OwnedValue, SameAs};
use sj_parse::to_tape;
use sj_reads::{ValueAsScalar, ValueGetScalar};
use sj_tape::Tape;
use sj_values::{BorrowedValue, to_borrowed_value};
use std::alloc::{AllocError, Global};
use std::borrow::CowStr;
use std::collections::HashMap;
use std::process::Abort;
use std::test::Fail;

fn bytes(alloc: Global, text: &str) -> Result<Vec<u8>, AllocError> {
    text.as_bytes().to_vec(alloc)
}

// The lazy value of a tape that isn't empty.
fn lazy<'t, 'i>(tape: &'t Tape<'i>) -> Result<Value<'t, 't, 'i>, Fail> {
    if tape.is_empty() {
        return Err(Fail::new("no document"));
    }
    Ok(Value::from_tape(tape.as_value()))
}

// The tape of a text.
fn tape_of<'i>(rt: &impl Abort, alloc: Global, text: &'i mut [u8]) -> Tape<'i> {
    to_tape(alloc, text).expect(rt, "a tape")
}

// The lazy value of a tape, where it isn't empty.
fn lazy_of<'t, 'i>(rt: &impl Abort, tape: &'t Tape<'i>) -> Value<'t, 't, 'i> {
    if tape.is_empty() {
        panic!(rt; "no document");
    }
    Value::from_tape(tape.as_value())
}

// Makes the value a document.
fn upgrade(rt: &impl Abort, alloc: Global, value: &mut Value<'_, '_, '_>) {
    value.value_mut(alloc).expect(rt, "memory");
}

// Fails unless this is the compact text of the value.
fn try_expect_text(
    rt: &impl Abort,
    alloc: Global,
    value: &Value<'_, '_, '_>,
    text: &str,
) -> Result<(), AllocError> {
    let mut out = Vec::new(alloc);
    value.encode(&mut out)?;
    expect_bytes(rt, out, text);
    Ok(())
}

// The same where there is memory.
fn expect_text(rt: &impl Abort, alloc: Global, value: &Value<'_, '_, '_>, text: &str) {
    try_expect_text(rt, alloc, value, text).expect(rt, "memory");
}

// The same of a value that isn't used again.
fn expect_made(rt: &impl Abort, alloc: Global, value: Value<'_, '_, '_>, text: &str) {
    expect_text(rt, alloc, &value, text);
}

// The same of the member that `get` finds.
fn expect_member(rt: &impl Abort, alloc: Global, value: &Value<'_, '_, '_>, key: &str, text: &str) {
    expect_made(rt, alloc, value.get(key).expect(rt, "a member"), text);
}

// Fails unless the value is displayed like this.
fn expect_shown(rt: &impl Abort, alloc: Global, value: &Value<'_, '_, '_>, shown: &str) {
    let text = value.to_string(alloc).expect(rt, "memory");
    expect_eq(rt, text.as_str(), shown);
}

// Whether a value is a tape or a document.
fn expect_form(rt: &impl Abort, value: &Value<'_, '_, '_>, is_tape: bool) {
    expect_eq(rt, value.is_tape(), is_tape);
    expect_eq(rt, value.is_value(), !is_tape);
}

fn insert_new(rt: &impl Abort, alloc: Global, value: &mut Value<'_, '_, '_>) {
    let inserted = value.insert(alloc, CowStr::Borrowed("new"), BorrowedValue::from(42u64));
    expect_that(rt, "a new key", answers_nothing(inserted));
}

// Inserts a member into {"key": "value", "snot": 42}.
fn expect_inserted(rt: &impl Abort, alloc: Global, value: &mut Value<'_, '_, '_>) {
    expect_member(rt, alloc, value, "key", r#""value""#);
    expect_form(rt, value, true);
    insert_new(rt, alloc, value);
    expect_form(rt, value, false);
    expect_member(rt, alloc, value, "key", r#""value""#);
    expect_member(rt, alloc, value, "new", "42");
}

#[test]
fn upgrade_on_insert(rt: HostRuntime) {
    let mut text = *br#"{"key": "value", "snot": 42}"#;
    let tape = tape_of(&rt, rt.alloc(), &mut text);
    let mut value = lazy_of(&rt, &tape);
    expect_inserted(&rt, rt.alloc(), &mut value);
    expect_made(
        &rt,
        rt.alloc(),
        value,
        r#"{"key":"value","snot":42,"new":42}"#,
    );
}

fn type_error(expected: ValueType, got: ValueType) -> TryTypeError {
    TryTypeError { expected, got }
}

// The members of {"snot": 1, "badger":[2, 2.5]}, by their types.
fn expect_typed(rt: &impl Abort, value: &Value<'_, '_, '_>) {
    expect_eq(rt, value.get_u64("snot"), Some(1));
    expect_eq(rt, value.get_i8("badger"), None);
    let number_met = type_error(ValueType::String, ValueType::U64);
    expect_eq(rt, value.try_get_str("snot"), Err(number_met));
    expect_eq(rt, value.try_get_bool("x"), Ok(None));
}

#[test]
fn typed_reads(rt: HostRuntime) {
    let mut text = *br#"{"snot": 1, "badger":[2, 2.5]}"#;
    let tape = tape_of(&rt, rt.alloc(), &mut text);
    let value = lazy_of(&rt, &tape);
    expect_typed(&rt, &value);
    drop(value);
    let mut text = *b"[]";
    let tape = tape_of(&rt, rt.alloc(), &mut text);
    let value = lazy_of(&rt, &tape);
    let array_met = type_error(ValueType::Object, ValueType::Array);
    expect_eq(&rt, value.try_get_bool("x"), Err(array_met));
    drop(value);
}

// The type of an item of [5,-5,1.5,"a"].
fn expect_type(rt: &impl Abort, value: &Value<'_, '_, '_>, place: usize, kind: ValueType) {
    let item = value.get_idx(place).expect(rt, "an item");
    expect_eq(rt, item.value_type(), kind);
    drop(item);
}

// The types of all.
fn expect_types(rt: &impl Abort, value: &Value<'_, '_, '_>) {
    expect_type(rt, value, 0, ValueType::U64);
    expect_type(rt, value, 1, ValueType::I64);
    expect_type(rt, value, 2, ValueType::Decimal);
    expect_type(rt, value, 3, ValueType::String);
}

// An upgrade leaves each integer in its carrier.
#[test]
fn upgrade_keeps_types(rt: HostRuntime) {
    let mut text = *br#"[5,-5,1.5,"a"]"#;
    let tape = tape_of(&rt, rt.alloc(), &mut text);
    let mut value = lazy_of(&rt, &tape);
    expect_types(&rt, &value);
    upgrade(&rt, rt.alloc(), &mut value);
    expect_that(&rt, "a document", value.is_value());
    expect_types(&rt, &value);
    drop(value);
}

// Writes to the value 7, which has no parts.
fn expect_no_parts(rt: &impl Abort, alloc: Global, value: &mut Value<'_, '_, '_>) {
    expect_that(rt, "no array", answers_nothing(value.as_array_mut(alloc)));
    expect_that(rt, "a document", value.is_value());
    expect_that(rt, "no object", answers_nothing(value.as_object_mut(alloc)));
    expect_that(rt, "no member", answers_nothing(value.get_mut(alloc, "a")));
    expect_that(rt, "no item", answers_nothing(value.get_idx_mut(alloc, 0)));
}

// Takes parts away from it.
fn expect_nothing_taken(rt: &impl Abort, alloc: Global, value: &mut Value<'_, '_, '_>) {
    let refused = fault_of(value.remove(alloc, "a"));
    expect_eq(rt, refused, Some(AccessError::NotAnObject));
    let refused = fault_of(value.pop(alloc));
    expect_eq(rt, refused, Some(AccessError::NotAnArray));
}

fn fault_of<T: Drop, E: Drop>(made: Result<T, E>) -> Option<E> {
    made.err()
}

// A write that is refused drops repeated members too.
fn expect_repeat_dropped(rt: &impl Abort, alloc: Global, value: &mut Value<'_, '_, '_>) {
    expect_text(rt, alloc, value, r#"{"a":1,"a":2}"#);
    let pushed = value.push(alloc, BorrowedValue::from(0u64));
    expect_eq(rt, pushed, Err(AccessError::NotAnArray));
    expect_text(rt, alloc, value, r#"{"a":1}"#);
}

#[test]
fn refused_writes(rt: HostRuntime) {
    let mut text = *b"7";
    let tape = tape_of(&rt, rt.alloc(), &mut text);
    let mut value = lazy_of(&rt, &tape);
    expect_no_parts(&rt, rt.alloc(), &mut value);
    expect_nothing_taken(&rt, rt.alloc(), &mut value);
    drop(value);
    let mut text = *br#"{"a":1,"a":2}"#;
    let tape = tape_of(&rt, rt.alloc(), &mut text);
    let mut value = lazy_of(&rt, &tape);
    expect_repeat_dropped(&rt, rt.alloc(), &mut value);
    drop(value);
}

// The calls that lend a part for writing.
#[derive(Clone, Copy, Debug)]
enum Lending {
    ValueMut,
    AsArrayMut,
    AsObjectMut,
    GetMut,
    GetIdxMut,
}

const LENDINGS: [Lending; 5] = [
    Lending::ValueMut,
    Lending::AsArrayMut,
    Lending::AsObjectMut,
    Lending::GetMut,
    Lending::GetIdxMut,
];

impl Lending {
    // Makes the call, and returns whether there was memory for it.
    fn is_made(self, value: &mut Value<'_, '_, '_>, alloc: Global) -> bool {
        match self {
            Lending::ValueMut => is_made(value.value_mut(alloc)),
            Lending::AsArrayMut => is_made(value.as_array_mut(alloc)),
            Lending::AsObjectMut => is_made(value.as_object_mut(alloc)),
            Lending::GetMut => is_made(value.get_mut(alloc, "b")),
            Lending::GetIdxMut => is_made(value.get_idx_mut(alloc, 0)),
        }
    }
}

// Compares what such a call left, and names both.
fn expect_of_call(rt: &impl Abort, call: Lending, text: &str, found: bool, expected: bool) {
    assert_eq!(rt; found, expected, "{call:?} on {text}");
}

// Fails where a call lacked memory, once all else has been looked at.
fn expect_made_call(is_made: bool) -> Result<(), Fail> {
    if is_made {
        Ok(())
    } else {
        Err(Fail::new("no memory"))
    }
}

// Makes one of these calls on the tape of a text, which leaves the document of another one.
fn expect_upgraded(
    rt: &impl Abort,
    alloc: Global,
    call: Lending,
    value: &mut Value<'_, '_, '_>,
    text: &str,
    left: &str,
) -> Result<(), Fail> {
    let is_made = call.is_made(value, alloc);
    expect_of_call(rt, call, text, value.is_value(), is_made);
    expect_of_call(rt, call, text, value.is_tape(), !is_made);
    try_expect_text(rt, alloc, value, if is_made { left } else { text })?;
    expect_made_call(is_made)
}

// Makes each of them.
fn expect_all_upgraded(
    rt: &impl Abort,
    alloc: Global,
    tape: &Tape<'_>,
    text: &str,
    left: &str,
) -> Result<(), Fail> {
    for call in LENDINGS {
        let mut value = lazy(tape)?;
        let made = expect_upgraded(rt, alloc, call, &mut value, text, left);
        drop(value);
        made?;
    }
    Ok(())
}

// Each of these calls as the first one on a tape, whatever it finds. If the upgrade lacks memory, as
// `oracle/memory.sh` has it, the tape stays.
#[test]
fn first_writes(rt: HostRuntime) -> Result<(), Fail> {
    for &(text, left) in &[
        (r#"{"a":1,"a":2}"#, r#"{"a":1}"#),
        (r#"[{"a":1,"a":2}]"#, r#"[{"a":1}]"#),
        ("7", "7"),
    ] {
        let mut json = bytes(rt.alloc(), text)?;
        let tape = to_tape(rt.alloc(), &mut json)?;
        expect_all_upgraded(&rt, rt.alloc(), &tape, text, left)?;
    }
    Ok(())
}

// The parts of {"a":[1,2],"s":"x"}.
fn expect_parts(rt: &impl Abort, value: &Value<'_, '_, '_>) {
    let items = value.get_array("a").expect(rt, "an array");
    expect_eq(rt, items.len(), 2);
    let string = value.get("s").expect(rt, "a member").into_string();
    let copied = string.expect(rt, "memory").expect(rt, "a string");
    expect_eq(rt, copied.as_str(), "x");
}

// Reads the parts of that document, and removes one.
fn expect_removed(rt: &impl Abort, alloc: Global, value: &mut Value<'_, '_, '_>) {
    expect_parts(rt, value);
    expect_that(rt, "an object", is_made(value.remove(alloc, "a")));
    expect_text(rt, alloc, value, r#"{"s":"x"}"#);
}

// Whether `into_owned` gives a document of its own.
fn owns_document(value: Value<'_, '_, '_>, alloc: Global) -> bool {
    let owned = value.into_owned(alloc);
    let is_owned = matches!(owned, Ok(Value::Value(Held::Owned(_))));
    drop(owned);
    is_owned
}

// A value that borrows the document.
fn held<'b, 'i>(document: &'b BorrowedValue<'i>) -> Value<'b, 'b, 'i> {
    Value::Value(Held::Borrowed(document))
}

// Writes to a value that borrows the document {"a":[1,2],"s":"x"}, and makes others.
fn expect_original(rt: &impl Abort, alloc: Global, document: &BorrowedValue<'_>) {
    let mut value = held(document);
    expect_removed(rt, alloc, &mut value);
    drop(value);
    expect_made(rt, alloc, held(document), r#"{"a":[1,2],"s":"x"}"#);
    expect_that(rt, "an owner", owns_document(held(document), alloc));
}

// The original of a document that is only borrowed stays as it is.
#[test]
fn borrowed_document(rt: HostRuntime) {
    let alloc = rt.alloc();
    let mut text = *br#"{"a":[1,2],"s":"x"}"#;
    let document = borrowed_of(&rt, alloc, &mut text);
    expect_original(&rt, alloc, &document);
    drop(document);
}

// Makes one of these calls on a value that borrows a document.
fn expect_copied(
    rt: &impl Abort,
    alloc: Global,
    call: Lending,
    value: &mut Value<'_, '_, '_>,
) -> Result<(), Fail> {
    let is_made = call.is_made(value, alloc);
    let is_owned = matches!(value, Value::Value(Held::Owned(_)));
    expect_of_call(rt, call, "a borrowed document", is_owned, is_made);
    try_expect_text(rt, alloc, value, r#"{"a":[1,2],"s":"x"}"#)?;
    expect_made_call(is_made)
}

// The same for each call.
fn expect_all_copied(
    rt: &impl Abort,
    alloc: Global,
    document: &BorrowedValue<'_>,
) -> Result<(), Fail> {
    for call in LENDINGS {
        let mut value = held(document);
        let made = expect_copied(rt, alloc, call, &mut value);
        drop(value);
        made?;
    }
    Ok(())
}

// Each call that lends a part for writing, as the first one on such a value. If the copy lacks memory, as
// `oracle/memory.sh` has it, the value goes on borrowing the document.
#[test]
fn first_writes_to_copies(rt: HostRuntime) -> Result<(), Fail> {
    let alloc = rt.alloc();
    let mut text = *br#"{"a":[1,2],"s":"x"}"#;
    let document = to_borrowed_value(alloc, &mut text)?;
    let copied = expect_all_copied(&rt, alloc, &document);
    drop(document);
    copied
}

// Appends a null and takes the last item away again, which is to be that null.
fn push_and_pop_null(rt: &impl Abort, alloc: Global, value: &mut Value<'_, '_, '_>) {
    let pushed = value.push(alloc, BorrowedValue::null());
    expect_eq(rt, pushed, Ok(()));
    let popped = value.pop(alloc).expect(rt, "an array");
    expect_that(rt, "a null", is_null_in(popped));
}

fn is_null_in<T: ValueAsScalar + Drop>(item: Option<T>) -> bool {
    matches!(item, Some(item) if item.is_null())
}

// The number that is removed from the second item.
fn removed_number(rt: &impl Abort, alloc: Global, value: &mut Value<'_, '_, '_>) -> Option<u64> {
    let item = value.get_idx_mut(alloc, 1).expect(rt, "memory");
    let removed = item.expect(rt, "an item").remove("b");
    number_in(removed.expect(rt, "an object"))
}

fn clear_items(rt: &impl Abort, alloc: Global, value: &mut Value<'_, '_, '_>) {
    let items = value.as_array_mut(alloc).expect(rt, "memory");
    items.expect(rt, "an array").clear();
}

#[test]
fn writes_to_items(rt: HostRuntime) {
    let mut text = *br#"[1,{"b":2}]"#;
    let tape = tape_of(&rt, rt.alloc(), &mut text);
    let mut value = lazy_of(&rt, &tape);
    push_and_pop_null(&rt, rt.alloc(), &mut value);
    expect_eq(&rt, removed_number(&rt, rt.alloc(), &mut value), Some(2));
    expect_text(&rt, rt.alloc(), &value, "[1,{}]");
    clear_items(&rt, rt.alloc(), &mut value);
    expect_made(&rt, rt.alloc(), value, "[]");
}

// A write through `value_mut`. Its clauses say what is left.
fn put_document<'i>(
    alloc: Global,
    value: &mut Value<'_, '_, 'i>,
    document: BorrowedValue<'i>,
) -> Result<(), AllocError>
    ensures written { OnOk result (own_document value.new ≡ Some document.entry) }
    ensures refused { OnErr result (value.new ≡ value.old) }
{
    *value.value_mut(alloc)? = document;
    Ok(())
}

// Inserts a null under a new key.
fn insert_null(rt: &impl Abort, alloc: Global, value: &mut Value<'_, '_, '_>) {
    let members = value.as_object_mut(alloc).expect(rt, "memory");
    let members = members.expect(rt, "an object");
    let inserted = members.insert(CowStr::Borrowed("k"), BorrowedValue::null());
    expect_that(rt, "a new key", answers_nothing(inserted));
}

fn answers_nothing<T: Drop, E: Drop>(answer: Result<Option<T>, E>) -> bool {
    matches!(answer, Ok(None))
}

fn write_true(rt: &impl Abort, alloc: Global, value: &mut Value<'_, '_, '_>) {
    let member = value.get_mut(alloc, "k").expect(rt, "memory");
    *member.expect(rt, "a member") = BorrowedValue::from(true);
}

// Makes the value {"k":true}.
fn write_members(rt: &impl Abort, alloc: Global, value: &mut Value<'_, '_, '_>) {
    let put = put_document(alloc, value, BorrowedValue::object(alloc));
    expect_eq(rt, put, Ok(()));
    insert_null(rt, alloc, value);
    write_true(rt, alloc, value);
    expect_text(rt, alloc, value, r#"{"k":true}"#);
}

// Looks for the tape of {"a":1,"a":2}, which is no document.
fn expect_left(
    rt: &impl Abort,
    alloc: Global,
    value: &Value<'_, '_, '_>,
) -> Result<bool, AllocError> {
    expect_that(rt, "a tape", value.is_tape());
    try_expect_text(rt, alloc, value, r#"{"a":1,"a":2}"#)?;
    Ok(false)
}

fn keeps_the_first<T: ValueGetScalar + Drop>(document: T) -> bool {
    document.get_u8("a") == Some(1)
}

// Makes the value a document of its own with the first member, or returns `false` where that lacks memory and the value comes back
// as it was.
fn becomes_document(
    rt: &impl Abort,
    alloc: Global,
    value: Value<'_, '_, '_>,
) -> Result<bool, AllocError> {
    match value.into_value(alloc) {
        Ok(document) => {
            expect_that(rt, "the first member", keeps_the_first(document));
            Ok(true)
        }
        Err(value) => expect_left(rt, alloc, &value),
    }
}

// A tape that repeats a key becomes a document. If that lacks memory, as `oracle/memory.sh` has it, it comes back.
#[test]
fn value_of_a_tape(rt: HostRuntime) -> Result<(), Fail> {
    let alloc = rt.alloc();
    let mut text = bytes(alloc, r#"{"a":1,"a":2}"#)?;
    let tape = to_tape(alloc, &mut text)?;
    expect_made_call(becomes_document(&rt, alloc, lazy(&tape)?)?)
}

#[test]
fn writes_to_members(rt: HostRuntime) {
    let mut value = Value::null();
    write_members(&rt, rt.alloc(), &mut value);
}

// Looks for a tape, and for the indented text of the member of {"o":{"k":null}}.
fn expect_indented(rt: &impl Abort, alloc: Global, value: &Value<'_, '_, '_>) {
    expect_that(rt, "a tape", value.is_tape());
    let mut out = Vec::new(alloc);
    let member = value.get("o").expect(rt, "a member");
    member.encode_pp(&mut out).expect(rt, "memory");
    drop(member);
    expect_bytes(rt, out, "{\n  \"k\": null\n}");
}

// Looks for a tape of that text.
fn expect_kept_tape(rt: &impl Abort, alloc: Global, value: Value<'_, '_, '_>) {
    match value.into_owned(alloc) {
        Ok(kept) => expect_indented(rt, alloc, &kept),
        Err(_) => panic!(rt; "no value"),
    }
}

// A copy of a tape is that tape.
#[test]
fn copies(rt: HostRuntime) {
    let mut text = *br#"{"o":{"k":null}}"#;
    let tape = tape_of(&rt, rt.alloc(), &mut text);
    let mut value = lazy_of(&rt, &tape);
    let copy = value.try_clone().expect(&rt, "memory");
    upgrade(&rt, rt.alloc(), &mut value);
    expect_kept_tape(&rt, rt.alloc(), copy);
    let copy = value.try_clone().expect(&rt, "memory");
    drop(value);
    expect_made(&rt, rt.alloc(), copy, r#"{"o":{"k":null}}"#);
}

// The same of what a call makes that can lack memory.
fn expect_some(
    rt: &impl Abort,
    alloc: Global,
    made: Result<Value<'_, '_, '_>, AllocError>,
    text: &str,
) {
    expect_made(rt, alloc, made.expect(rt, "memory"), text);
}

#[test]
fn made_of_others(rt: HostRuntime) {
    let alloc = rt.alloc();
    expect_that(&rt, "a tape", Value::null().is_tape());
    expect_that(&rt, "null", Value::default().is_null());
    expect_made(&rt, alloc, Value::array(alloc), "[]");
    expect_made(&rt, alloc, Value::object(alloc), "{}");
    expect_some(&rt, alloc, Value::array_with_capacity(alloc, 1), "[]");
    expect_some(&rt, alloc, Value::object_with_capacity(alloc, 1), "{}");
    expect_made(&rt, alloc, Value::from(StaticNode::I64(-1)), "-1");
    expect_made(&rt, alloc, Value::from("x"), r#""x""#);
    expect_made(&rt, alloc, Value::from(Some(true)), "true");
    expect_some(&rt, alloc, Value::from_text(alloc, "y"), r#""y""#);
}

// Adds a key to a map.
fn put<V: Drop>(
    alloc: Global,
    map: &mut HashMap<String, V>,
    key: &str,
    value: V,
) -> Result<(), AllocError> {
    map.insert(String::from_str(alloc, key)?, value)?;
    Ok(())
}

// A map of one key.
fn map_of<V: Drop>(rt: &impl Abort, alloc: Global, key: &str, value: V) -> HashMap<String, V> {
    let mut map = HashMap::new(alloc);
    put(alloc, &mut map, key, value).expect(rt, "memory");
    map
}

#[test]
fn made_of_containers(rt: HostRuntime) {
    let alloc = rt.alloc();
    let list = Vec::from_slice(alloc, &[1u8, 2]).expect(&rt, "memory");
    expect_some(&rt, alloc, Value::from_list(alloc, list), "[1,2]");
    expect_some(&rt, alloc, Value::from_values(alloc, 0u8..2), "[0,1]");
    let pairs = Vec::from_array(alloc, [(CowStr::Borrowed("a"), 1u8)]).expect(&rt, "memory");
    expect_some(&rt, alloc, Value::from_pairs(alloc, pairs), r#"{"a":1}"#);
    let map = map_of(&rt, alloc, "k", BorrowedValue::null());
    expect_some(&rt, alloc, Value::from_map(alloc, map), r#"{"k":null}"#);
    let owned = OwnedValue::from(3u8);
    expect_some(&rt, alloc, Value::from_owned(alloc, owned), "3");
}

// A tape equals the document of the same bytes, which keeps the first of two equal keys.
#[test]
fn equal_to_its_document(rt: HostRuntime) {
    let mut texts = *br#"{"a":1,"a":2}{"a":1,"a":2}"#;
    let half = texts.len() / 2;
    let (left, right) = texts.split_at_mut(half);
    let tape = tape_of(&rt, rt.alloc(), left);
    let value = lazy_of(&rt, &tape);
    let document = borrowed_of(&rt, rt.alloc(), right);
    expect_that(&rt, "the document", is_equal(&value, Value::from(document)));
}

// Compares a tape with another value, and then its document.
fn expect_same<T: LazyComparand>(
    rt: &impl Abort,
    alloc: Global,
    json: &str,
    value: &mut Value<'_, '_, '_>,
    other: &T,
    of_tape: bool,
    of_document: bool,
) {
    expect_at(rt, json, value.same_as(other), of_tape);
    expect_that(rt, "a tape", value.is_tape());
    upgrade(rt, alloc, value);
    expect_at(rt, json, value.same_as(other), of_document);
}

// The same of the value of a text.
fn same_as<T: LazyComparand>(
    rt: &impl Abort,
    alloc: Global,
    json: &str,
    other: &T,
    of_tape: bool,
    of_document: bool,
) {
    let mut text = bytes(alloc, json).expect(rt, "memory");
    let tape = tape_of(rt, alloc, &mut text);
    let mut value = lazy_of(rt, &tape);
    expect_same(rt, alloc, json, &mut value, other, of_tape, of_document);
    drop(value);
}

// Each key of the map is sought in the object. A repeated key of a tape counts as a member, and is none of the document.
#[test]
fn same_as_maps(rt: HostRuntime) {
    let alloc = rt.alloc();
    let mut map = map_of(&rt, alloc, "a", 1i32);
    for (json, of_tape, of_document) in &[
        (r#"{"a":1}"#, true, true),
        (r#"{"a":2}"#, false, false),
        (r#"{"b":1}"#, false, false),
        (r#"{"a":1,"b":1}"#, false, false),
        (r#"{"a":1,"a":1}"#, false, true),
        ("[1]", false, false),
    ] {
        same_as(&rt, alloc, json, &map, *of_tape, *of_document);
    }
    put(alloc, &mut map, "b", 2).expect(&rt, "memory");
    same_as(&rt, alloc, r#"{"b":2,"a":1}"#, &map, true, true);
    same_as(&rt, alloc, r#"{"a":1,"a":1}"#, &map, false, false);
}

// Fails unless the value of a text is displayed like this, as a tape and as a document.
fn expect_both_shown(rt: &impl Abort, alloc: Global, json: &str, of_tape: &str, of_document: &str) {
    let mut text = bytes(alloc, json).expect(rt, "memory");
    let tape = tape_of(rt, alloc, &mut text);
    let mut value = lazy_of(rt, &tape);
    expect_shown(rt, alloc, &value, of_tape);
    upgrade(rt, alloc, &mut value);
    expect_shown(rt, alloc, &value, of_document);
    drop(value);
}

#[test]
fn shown_values(rt: HostRuntime) {
    let alloc = rt.alloc();
    for (json, of_tape, of_document) in &[
        ("null", "null", "null"),
        (" -1 ", "-1", "-1"),
        ("1.50", "1.50", "1.50"),
        (r#""a\n\"b""#, "a\n\"b", "a\n\"b"),
        ("[ ]", "[]", "[]"),
        (
            r#"[1, "x\n", {"k": null}]"#,
            r#"[1,"x\n",{"k":null}]"#,
            r#"[1,"x\n",{"k":null}]"#,
        ),
        (r#"{"a": 1, "a": 2}"#, r#"{"a":1,"a":2}"#, r#"{"a":1}"#),
    ] {
        expect_both_shown(&rt, alloc, json, of_tape, of_document);
    }
    expect_shown(&rt, alloc, &Value::null(), "null");
}
