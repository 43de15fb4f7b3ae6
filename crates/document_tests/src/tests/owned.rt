//! Of `sj_owned`: worked rows, reads and edits with ample memory.
ghost use Rattle.std.specs.Prelude.{◌≡◌, [], ◌∷◌, IsSome};
ghost use Rattle.sj_base.specs.Path.{key, place, put};
ghost use Rattle.sj_owned.specs.Lends.{item_set, member_set};
ghost use Rattle.sj_owned.specs.Parts.{item_of, member_of};
ghost use Rattle.sj_owned.specs.Views.{value_tree};

use super::{
    expect_at, expect_bytes, expect_eq, expect_made, expect_text, expect_that, is_equal,
    is_nothing, number_in, overwrite, owned_of, with_item, with_member,
};
use sj_base::{AccessError, Decimal, DecimalBuf, DecimalCow, StaticNode};
use sj_object::ObjectKey;
use sj_owned::{
    Literal, MutableValue, OwnedValue as Value, SameAs, Value as Document, to_owned_value,
};
use sj_reads::{ValueAsScalar, ValueGetScalar};
use std::alloc::Global;
use std::borrow::CowStr;
use std::collections::HashMap;
use std::process::Abort;
use std::test::Fail;

fn string(rt: &impl Abort, alloc: Global, text: &str) -> String {
    String::from_str(alloc, text).expect(rt, "memory")
}

fn text(rt: &impl Abort, alloc: Global, text: &str) -> Value {
    Value::String(string(rt, alloc, text))
}

fn number(n: u64) -> Value {
    Value::Static(StaticNode::U64(n))
}

const SAMPLE: &str = r#"{"n":1,"s":"x","a":[1],"o":{}}"#;

// Whether a value, which is dropped, is the same as one of another type.
fn is_same<T: SameAs<U> + Drop, U>(value: T, other: &U) -> bool {
    value.same_as(other)
}

// A write to a member of any value. Its clause says what is left.
fn write_member<T: MutableValue>(target: &mut T, name: &str, value: T::Part)
where
    T::Part: Drop,
    requires { IsSome (T.member target.old name.now) }
    ensures { target.new ≡ member_set T.Members.with_value T.of_object target.old (T.object target.old) name.now value }
{
    if let Some(found) = target.get_mut(name) {
        *found = value;
    }
}

// A write to a member of a document. Its clause speaks of the tree.
fn write_by_key<K: ObjectKey + Drop, D: Literal + Drop>(
    document: &mut Document<K, D>,
    name: &str,
    value: Document<K, D>,
)
    requires { IsSome (member_of K.text document.old name.now) }
    ensures { value_tree K.text D.literal document.new
        ≡ put (value_tree K.text D.literal document.old) (key name.now ∷ []) (value_tree K.text D.literal value) }
{
    write_member(document, name, value);
}

// A write to an item of any value.
fn write_item<T: MutableValue>(target: &mut T, index: usize, value: T::Part)
where
    T::Part: Drop,
    requires { IsSome (T.item target.old index) }
    ensures { target.new ≡ item_set T.of_array target.old (T.array target.old) index value }
{
    if let Some(found) = target.get_idx_mut(index) {
        *found = value;
    }
}

// A write to an item of a document.
fn write_by_index<K: ObjectKey + Drop, D: Literal + Drop>(
    document: &mut Document<K, D>,
    index: usize,
    value: Document<K, D>,
)
    requires { IsSome (item_of document.old index) }
    ensures { value_tree K.text D.literal document.new
        ≡ put (value_tree K.text D.literal document.old) (place index ∷ []) (value_tree K.text D.literal value) }
{
    write_item(document, index, value);
}

// The README shows this test.
#[test]
fn read_and_edit(rt: HostRuntime) -> Result<(), Fail> {
    let alloc = rt.alloc();
    let mut text = br#"{"name": "passwd", "tags": ["base"], "size": 3044}"#.to_vec(alloc)?;
    let mut package = to_owned_value(alloc, &mut text)?;
    let tags = package.get_mut("tags").ok_or("no tags")?;
    tags.push(Value::from_text(alloc, "admin")?)?;
    package.insert(String::from_str(alloc, "essential")?, Value::from(true))?;
    package.remove("size")?;
    let mut out = Vec::new(alloc);
    package.encode(&mut out)?;
    assert_eq!(rt;
        out.as_slice(),
        br#"{"name":"passwd","tags":["base","admin"],"essential":true}"#.as_slice()
    );
    Ok(())
}

// Puts a member into an object that has no such key.
fn put_new(rt: &impl Abort, alloc: Global, object: &mut Value, key: &str, value: Value) {
    let old = object.insert(string(rt, alloc, key), value);
    expect_that(rt, "a new member", is_nothing(old.expect(rt, "memory")));
}

// Makes the empty object {"key":[{"other":"value"}]}.
fn edit_by_index(rt: &impl Abort, alloc: Global, o: &mut Value) {
    put_new(rt, alloc, o, "key", Value::array(alloc));
    o.get("key").expect(rt, "a key");
    o["key"].push(Value::object(alloc)).expect(rt, "memory");
    let items = o.get("key").expect(rt, "a key");
    items.get_idx(0).expect(rt, "an item");
    put_new(
        rt,
        alloc,
        &mut o["key"][0],
        "other",
        text(rt, alloc, "value"),
    );
}

#[test]
fn owned_edit_by_index(rt: HostRuntime) {
    let alloc = rt.alloc();
    let mut o = Value::object(alloc);
    edit_by_index(&rt, alloc, &mut o);
    expect_made(&rt, alloc, o, r#"{"key":[{"other":"value"}]}"#);
}

// Writes to the middle one of three items, and to a member between two others.
fn write_among_others(rt: &impl Abort, o: &mut Value) {
    let items = o.get("b").expect(rt, "a member");
    items.get_idx(1).expect(rt, "an item");
    overwrite(&mut o["b"][1], number(6));
    o.get("c").expect(rt, "a member");
    overwrite(&mut o["c"], number(7));
}

#[test]
fn others_stay(rt: HostRuntime) {
    let alloc = rt.alloc();
    let mut o = owned_of(&rt, alloc, r#"{"a":1,"b":[2,3,4],"c":5,"d":8}"#);
    write_among_others(&rt, &mut o);
    expect_made(&rt, alloc, o, r#"{"a":1,"b":[2,6,4],"c":7,"d":8}"#);
}

// Looks in the sample for parts that it doesn't have.
fn expect_nothing_lent(rt: &impl Abort, v: &mut Value) {
    expect_that(rt, "no member", is_nothing(v.get_mut("x")));
    expect_that(rt, "no item", is_nothing(v.get_idx_mut(0)));
    let items = v.get_mut("a").expect(rt, "items");
    expect_that(rt, "no member of an array", is_nothing(items.get_mut("n")));
    expect_that(rt, "one item alone", is_nothing(items.get_idx_mut(1)));
}

// A document that has nothing to lend stays as it is.
#[test]
fn nothing_to_lend(rt: HostRuntime) {
    let alloc = rt.alloc();
    let mut v = owned_of(&rt, alloc, SAMPLE);
    expect_nothing_lent(&rt, &mut v);
    expect_made(&rt, alloc, v, SAMPLE);
}

// Puts a member into the empty object, and replaces it twice.
fn put_and_replace(rt: &impl Abort, alloc: Global, v: &mut Value) {
    put_new(rt, alloc, v, "key", number(1));
    let old = v.insert(string(rt, alloc, "key"), number(2));
    expect_eq(rt, number_in(old.expect(rt, "memory")), Some(1));
    v.get("key").expect(rt, "a key");
    overwrite(&mut v["key"], number(3));
}

// Removes that member, which is there once.
fn expect_removed(rt: &impl Abort, v: &mut Value) {
    let old = v.remove("key").expect(rt, "an object");
    expect_eq(rt, number_in(old), Some(3));
    let old = v.remove("key").expect(rt, "an object");
    expect_that(rt, "no member", is_nothing(old));
}

#[test]
fn owned_insert_remove(rt: HostRuntime) {
    let mut v = Value::object(rt.alloc());
    put_and_replace(&rt, rt.alloc(), &mut v);
    expect_removed(&rt, &mut v);
    drop(v);
}

// Writes to a null.
fn expect_refused(rt: &impl Abort, alloc: Global, null: &mut Value) {
    let refused = null.insert(string(rt, alloc, "key"), number(1));
    expect_eq(rt, refused.err(), Some(AccessError::NotAnObject));
    let refused = null.push(number(1));
    expect_eq(rt, refused.err(), Some(AccessError::NotAnArray));
}

#[test]
fn refused_writes(rt: HostRuntime) {
    let mut null = Value::null();
    expect_refused(&rt, rt.alloc(), &mut null);
    drop(null);
}

// Writes to the number of the sample.
fn write_to_member(rt: &impl Abort, v: &mut Value) {
    v.get("n").expect(rt, "a member");
    write_by_key(v, "n", number(4));
    expect_eq(rt, v.get_u64("n"), Some(4));
}

// Writes to the item of [null].
fn write_to_item(rt: &impl Abort, alloc: Global, items: &mut Value) {
    overwrite(items.get_idx_mut(0).expect(rt, "an item"), number(1));
    expect_text(rt, alloc, items, "[1]");
    items.get_idx(0).expect(rt, "an item");
    write_by_index(items, 0, number(5));
    expect_text(rt, alloc, items, "[5]");
}

// Writes through what `get_mut` and `get_idx_mut` lend.
#[test]
fn written_parts(rt: HostRuntime) {
    let alloc = rt.alloc();
    let mut v = owned_of(&rt, alloc, SAMPLE);
    write_to_member(&rt, &mut v);
    drop(v);
    let mut items = with_item(&rt, Value::array(alloc), Value::null());
    write_to_item(&rt, alloc, &mut items);
    drop(items);
}

// {"a":[1]}, in containers that were made with room.
fn with_room(rt: &impl Abort, alloc: Global) -> Value {
    let items = Value::array_with_capacity(alloc, 1).expect(rt, "memory");
    let items = with_item(rt, items, number(1));
    let object = Value::object_with_capacity(alloc, 1).expect(rt, "memory");
    with_member(rt, object, string(rt, alloc, "a"), items)
}

#[test]
fn room_and_lines(rt: HostRuntime) {
    let v = with_room(&rt, rt.alloc());
    let mut out = b"> ".to_vec(rt.alloc()).expect(&rt, "memory");
    v.encode_pp(&mut out).expect(&rt, "memory");
    drop(v);
    expect_bytes(&rt, out, "> {\n  \"a\": [\n    1\n  ]\n}");
}

// Puts two items into the empty array.
fn push_two(rt: &impl Abort, alloc: Global, v: &mut Value) {
    v.push(text(rt, alloc, "zero")).expect(rt, "memory");
    v.push(number(1)).expect(rt, "memory");
    let item = v.get_idx(1).expect(rt, "an item");
    expect_eq(rt, item.as_u64(), Some(1));
}

fn pop(rt: &impl Abort, v: &mut Value) -> Option<Value> {
    v.pop().expect(rt, "an array")
}

// Takes back what that array holds.
fn pop_all(rt: &impl Abort, alloc: Global, v: &mut Value) {
    expect_eq(rt, number_in(pop(rt, v)), Some(1));
    let zero = pop(rt, v).expect(rt, "an item");
    expect_made(rt, alloc, zero, r#""zero""#);
    expect_that(rt, "no item", is_nothing(pop(rt, v)));
}

#[test]
fn owned_push_pop(rt: HostRuntime) {
    let mut v = Value::array(rt.alloc());
    push_two(&rt, rt.alloc(), &mut v);
    pop_all(&rt, rt.alloc(), &mut v);
    drop(v);
}

// An object of these members.
fn numbers(rt: &impl Abort, alloc: Global, members: &[(&str, u64)]) -> Value {
    let mut object = Value::object(alloc);
    for (name, value) in members {
        put_new(rt, alloc, &mut object, name, number(*value));
    }
    object
}

fn decimal(rt: &impl Abort, alloc: Global, text: &str) -> Value {
    let literal = Decimal::new(text).expect(rt, "a decimal");
    Value::Decimal(DecimalBuf::new(alloc, literal).expect(rt, "memory"))
}

// {"b":2,"a":1}
fn back(rt: &impl Abort, alloc: Global) -> Value {
    numbers(rt, alloc, &[("b", 2), ("a", 1)])
}

#[test]
fn equal_in_any_order(rt: HostRuntime) {
    let alloc = rt.alloc();
    let there = numbers(&rt, alloc, &[("a", 1), ("b", 2)]);
    let is_same = is_equal(&there, back(&rt, alloc));
    expect_made(&rt, alloc, there, r#"{"a":1,"b":2}"#);
    expect_that(&rt, "an equal object", is_same);
    expect_made(&rt, alloc, back(&rt, alloc), r#"{"b":2,"a":1}"#);
}

// An array of this decimal.
fn array_of_decimal(rt: &impl Abort, alloc: Global, text: &str) -> Value {
    with_item(rt, Value::array(alloc), decimal(rt, alloc, text))
}

#[test]
fn unequal_decimals(rt: HostRuntime) {
    let alloc = rt.alloc();
    let long = array_of_decimal(&rt, alloc, "1.50");
    let short = array_of_decimal(&rt, alloc, "1.5");
    let is_same = is_equal(&long, short);
    drop(long);
    expect_that(&rt, "another number", !is_same);
}

#[test]
fn same_as_others(rt: HostRuntime) {
    let alloc = rt.alloc();
    let borrowed: Document<CowStr<'_>, DecimalCow<'_>> = Document::from("x");
    let value = text(&rt, alloc, "x");
    let is_same_text = is_same(value, &borrowed);
    drop(borrowed);
    expect_that(&rt, "the same text", is_same_text);
    let value = Value::from_text(alloc, "x").expect(&rt, "memory");
    expect_that(&rt, "the same str", is_same(value, &"x"));
    expect_that(&rt, "the same number", is_same(Value::from(1u8), &1i128));
}

// The later value of a key takes the place of the first.
fn object_of_pairs(rt: &impl Abort, alloc: Global) -> Value {
    let pairs = [
        (string(rt, alloc, "a"), 1u8),
        (string(rt, alloc, "b"), 2),
        (string(rt, alloc, "a"), 3),
    ];
    let pairs = Vec::from_array(alloc, pairs).expect(rt, "memory");
    Value::from_pairs(alloc, pairs).expect(rt, "memory")
}

fn insert_into(rt: &impl Abort, map: &mut HashMap<String, Value>, key: String, value: Value) {
    let old: Result<_, _> = map.insert(key, value);
    old.expect(rt, "memory");
}

// {"b":2,"a":3}
fn sample_map(rt: &impl Abort, alloc: Global) -> HashMap<String, Value> {
    let mut map = HashMap::new(alloc);
    insert_into(rt, &mut map, string(rt, alloc, "b"), Value::from(2i8));
    insert_into(rt, &mut map, string(rt, alloc, "a"), Value::from(3usize));
    map
}

// Of pairs and of a map, whose members go by their keys.
#[test]
fn made_of_pairs(rt: HostRuntime) {
    let alloc = rt.alloc();
    expect_made(&rt, alloc, object_of_pairs(&rt, alloc), r#"{"a":3,"b":2}"#);
    let map = sample_map(&rt, alloc);
    let is_same_map = is_same(object_of_pairs(&rt, alloc), &map);
    let object = Value::from_map(alloc, map).expect(&rt, "memory");
    expect_made(&rt, alloc, object, r#"{"a":3,"b":2}"#);
    expect_that(&rt, "the same members", is_same_map);
}

// 404 pairs.
fn many_pairs(rt: &impl Abort, alloc: Global) -> Vec<(String, u32)> {
    let mut pairs = Vec::new(alloc);
    for number in 0..400u32 {
        let key = format!(in alloc; "{number}").expect(rt, "memory");
        pairs.push((key, number)).expect(rt, "memory");
    }
    for &(key, number) in &[("BB", 400), ("Aa", 401), ("399", 402), ("BB", 403)] {
        let key = string(rt, alloc, key);
        pairs.push((key, number)).expect(rt, "memory");
    }
    pairs
}

// Looks up numbers of those pairs.
fn expect_numbers(rt: &impl Abort, object: &Value) {
    expect_eq(rt, object.as_object().expect(rt, "an object").len(), 402);
    for &(key, number) in &[
        ("0", 0),
        ("398", 398),
        ("399", 402),
        ("Aa", 401),
        ("BB", 403),
    ] {
        expect_at(rt, key, object.get_u32(key), Some(number));
    }
}

// More pairs than are looked up one by one. Keys with the same hash, `Aa` and `BB`, are told apart.
#[test]
fn made_of_many_pairs(rt: HostRuntime) {
    let alloc = rt.alloc();
    let object = Value::from_pairs(alloc, many_pairs(&rt, alloc)).expect(&rt, "memory");
    expect_numbers(&rt, &object);
    drop(object);
}

// Of a list and of values.
#[test]
fn made_of_lists(rt: HostRuntime) {
    let alloc = rt.alloc();
    let list = Vec::from_array(alloc, [Some(1u8), None]).expect(&rt, "memory");
    let list = Value::from_list(alloc, list).expect(&rt, "memory");
    expect_made(&rt, alloc, list, "[1,null]");
    let list = Vec::from_array(alloc, [1u64]).expect(&rt, "memory");
    let values = Vec::from_array(alloc, [1i64]).expect(&rt, "memory");
    let values = Value::from_values(alloc, values).expect(&rt, "memory");
    expect_that(&rt, "the same list", is_same(values, &list));
}

// Fails unless the document is displayed like this.
fn expect_shown(rt: &impl Abort, alloc: Global, value: Value, shown: &str) {
    let found = value.to_string(alloc).expect(rt, "memory");
    drop(value);
    expect_eq(rt, found.as_str(), shown);
}

#[test]
fn shown_documents(rt: HostRuntime) {
    let alloc = rt.alloc();
    expect_shown(&rt, alloc, owned_of(&rt, alloc, SAMPLE), SAMPLE);
    expect_shown(&rt, alloc, text(&rt, alloc, "x\n"), "x\n");
}
