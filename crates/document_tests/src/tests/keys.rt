//! Of `sj_keys`: worked rows, look-ups and writes by known keys. `oracle/memory.sh` refuses memory to the tests `made_for_...`, to
//! show what stands then.
ghost use Rattle.std.specs.Prelude.{◌≡◌, [], ◌∷◌, IsSome};
ghost use Rattle.std.specs.Cow.{cow_str_bytes};
ghost use Rattle.sj_base.specs.Path.{key as name, put};
ghost use Rattle.sj_owned.specs.Parts.{member_of};
ghost use Rattle.sj_owned.specs.Views.{value_tree};

use super::{
    borrowed_of, expect_eq, expect_made, expect_text, expect_that, is_nothing, number_in,
    overwrite, owned_of,
};
use sj_base::{TryCopy, ValueType};
use sj_keys::{KnownKey, KnownKeyError, KnownKeyTarget, KnownKeyTargetMut};
use sj_object::Object;
use sj_owned::{FromString, Literal, OwnedValue, Value as Document};
use sj_reads::{ValueAsScalar, ValueGetScalar};
use sj_values::BorrowedValue;
use std::alloc::Global;
use std::borrow::CowStr;
use std::process::Abort;
use std::test::Fail;

// A write to a member, of which a caller knows what it leaves of any target.
fn write<T: KnownKeyTargetMut>(target: &mut T, key: &KnownKey<'_>, value: T::Output)
where
    T::Output: Drop,
    requires { IsSome (T.member target.old (cow_str_bytes key.now)) }
    ensures { target.new ≡ T.with_value target.old (cow_str_bytes key.now) value }
{
    if let Some(found) = target.get_known_mut(key) {
        *found = value;
    }
}

// The same of the tree of a document.
fn write_document<K: FromString + Drop, D: Literal + Drop>(
    document: &mut Document<K, D>,
    key: &KnownKey<'_>,
    value: Document<K, D>,
)
    requires { IsSome (member_of K.text document.old (cow_str_bytes key.now)) }
    ensures { value_tree K.text D.literal document.new
        ≡ put (value_tree K.text D.literal document.old) (name (cow_str_bytes key.now) ∷ []) (value_tree K.text D.literal value) }
{
    write(document, key, value);
}

// The number at a key, which the value is put at if it is new.
fn number_at<'v>(
    alloc: Global,
    document: &mut BorrowedValue<'v>,
    key: &KnownKey<'_>,
    value: BorrowedValue<'v>,
) -> Result<Option<u64>, KnownKeyError> {
    let found = key.lookup_or_insert_mut(alloc, document, move || value)?;
    Ok(found.as_u64())
}

// Looks up a key of {"key":1}, and one that is new.
fn expect_numbers(rt: &impl Abort, alloc: Global, document: &mut BorrowedValue<'_>) {
    for &(key, value, wanted) in &[("key", 2u64, 1), ("cake", 3, 3), ("cake", 4, 3)] {
        let key = KnownKey::from(key);
        let found = number_at(alloc, document, &key, BorrowedValue::from(value));
        expect_eq(rt, found, Ok(Some(wanted)));
    }
}

#[test]
fn lookup_or_insert(rt: HostRuntime) {
    let mut text = *br#"{"key":1}"#;
    let mut document = borrowed_of(&rt, rt.alloc(), &mut text);
    expect_numbers(&rt, rt.alloc(), &mut document);
    expect_made(&rt, rt.alloc(), document, r#"{"key":1,"cake":3}"#);
}

// Writes through what a look-up of a document returns.
fn put(rt: &impl Abort, alloc: Global, document: &mut OwnedValue, key: &str, number: u8) {
    let key = KnownKey::from(key);
    let found = key.lookup_or_insert_mut(alloc, document, || OwnedValue::null());
    overwrite(found.expect(rt, "memory"), OwnedValue::from(number));
}

// Writes through what a look-up of its object returns.
fn put_member(rt: &impl Abort, alloc: Global, document: &mut OwnedValue, key: &str, number: u8) {
    let members = document.as_object_mut().expect(rt, "an object");
    let key = KnownKey::from(key);
    let found = key.map_lookup_or_insert_mut(alloc, members, || OwnedValue::null());
    overwrite(found.expect(rt, "memory"), OwnedValue::from(number));
}

// Of a key that is there and of one that is new.
#[test]
fn written_where_looked_up(rt: HostRuntime) {
    let mut document = owned_of(&rt, rt.alloc(), r#"{"a":1}"#);
    put(&rt, rt.alloc(), &mut document, "a", 2);
    put(&rt, rt.alloc(), &mut document, "b", 3);
    expect_text(&rt, rt.alloc(), &document, r#"{"a":2,"b":3}"#);
    put_member(&rt, rt.alloc(), &mut document, "a", 4);
    put_member(&rt, rt.alloc(), &mut document, "c", 5);
    expect_made(&rt, rt.alloc(), document, r#"{"a":4,"b":3,"c":5}"#);
}

// Looks up a key where it isn't an object's.
fn expect_not_found(rt: &impl Abort, alloc: Global, null: &mut BorrowedValue<'_>) {
    let key = KnownKey::from("key");
    let refused = number_at(alloc, null, &key, BorrowedValue::from(true));
    let null_met = KnownKeyError::NotAnObject(ValueType::Null);
    expect_eq(rt, refused.err(), Some(null_met));
}

#[test]
fn look_up_in_no_object(rt: HostRuntime) {
    let mut value = BorrowedValue::from(true);
    let key = KnownKey::from("b");
    let is_absent = is_nothing(key.lookup_mut(&mut value));
    drop(value);
    expect_that(&rt, "no member", is_absent);
    let mut null = BorrowedValue::null();
    expect_not_found(&rt, rt.alloc(), &mut null);
    drop(null);
}

// Whether a copy of a key, which is dropped, equals another one. Unlike `is_equal` it takes keys of two lifetimes.
fn is_copy(copy: KnownKey<'_>, key: &KnownKey<'_>) -> bool {
    copy == *key
}

// The same with the other one dropped.
fn is_key(key: &KnownKey<'_>, other: KnownKey<'_>) -> bool {
    *key == other
}

// Compares keys of the text "Aa" with each other.
fn expect_equal_keys(rt: &impl Abort, key: &KnownKey<'_>, owned: &KnownKey<'_>) {
    expect_that(rt, "equal keys", *key == *owned);
    let same = KnownKey::from(CowStr::Borrowed("Aa"));
    expect_that(rt, "an equal key", is_key(owned, same));
    let copy = key.try_clone().expect(rt, "memory");
    expect_that(rt, "an equal copy", is_copy(copy, key));
    let copy = owned.try_clone().expect(rt, "memory");
    expect_that(rt, "an equal copy of the other", is_copy(copy, key));
}

// Compares them with others, and looks for their texts. "Aa" and "BB" have the same hash.
fn expect_texts(rt: &impl Abort, key: &KnownKey<'_>, owned: &KnownKey<'_>) {
    expect_that(rt, "a key unlike BB", !is_key(key, KnownKey::from("BB")));
    expect_that(rt, "a key of text", !is_key(key, KnownKey::from("")));
    let CowStr::Borrowed("Aa") = key.key() else {
        panic!(rt; "another text");
    };
    let CowStr::Owned(text) = owned.key() else {
        panic!(rt; "a borrowed text");
    };
    expect_eq(rt, text.as_str(), "Aa");
}

#[test]
fn keys(rt: HostRuntime) {
    let text = String::from_str(rt.alloc(), "Aa").expect(&rt, "memory");
    let owned = KnownKey::from(text);
    let key = KnownKey::from("Aa");
    expect_equal_keys(&rt, &key, &owned);
    expect_texts(&rt, &key, &owned);
    drop(owned);
    drop(key);
}

// Writes to the member "b" of {"a":1,"b":2}.
fn expect_written(rt: &impl Abort, document: &mut BorrowedValue<'_>, key: &KnownKey<'_>) {
    key.lookup(document).expect(rt, "a member");
    write_document(document, key, BorrowedValue::from(3u8));
    expect_eq(rt, document.get_u64("b"), Some(3));
    let member = key.lookup_mut(document).expect(rt, "a member");
    overwrite(member, BorrowedValue::from(4u8));
    expect_eq(rt, document.get_u64("b"), Some(4));
}

// The same through its object, which doesn't have the other key.
fn expect_written_in_object(
    rt: &impl Abort,
    document: &mut BorrowedValue<'_>,
    key: &KnownKey<'_>,
    other: &KnownKey<'_>,
) {
    let members = document.as_object_mut().expect(rt, "an object");
    let member = key.map_lookup_mut(members).expect(rt, "a member");
    overwrite(member, BorrowedValue::from(5u8));
    expect_that(rt, "no member", is_nothing(other.map_lookup_mut(members)));
    expect_eq(rt, document.get_u64("b"), Some(5));
}

fn expect_all_written(rt: &impl Abort, document: &mut BorrowedValue<'_>) {
    let key = KnownKey::from("b");
    expect_written(rt, document, &key);
    expect_written_in_object(rt, document, &key, &KnownKey::from("c"));
}

#[test]
fn written_members(rt: HostRuntime) {
    let mut text = *br#"{"a":1,"b":2}"#;
    let mut document = borrowed_of(&rt, rt.alloc(), &mut text);
    expect_all_written(&rt, &mut document);
    drop(document);
}

// Inserts a member, and returns what it replaces.
fn insert(
    rt: &impl Abort,
    alloc: Global,
    document: &mut OwnedValue,
    key: &str,
    value: OwnedValue,
) -> Option<OwnedValue> {
    let inserted = KnownKey::from(key).insert(alloc, document, value);
    inserted.expect(rt, "memory")
}

// Inserts the members "b" and "a" into an empty object.
fn expect_new(rt: &impl Abort, alloc: Global, document: &mut OwnedValue) {
    let old = insert(rt, alloc, document, "b", OwnedValue::from(1u8));
    expect_that(rt, "a new member", is_nothing(old));
    let old = insert(rt, alloc, document, "a", OwnedValue::null());
    expect_that(rt, "another new member", is_nothing(old));
}

// Replaces the first of them twice, and inserts a third one into the object itself.
fn expect_replaced(rt: &impl Abort, alloc: Global, document: &mut OwnedValue) {
    let old = insert(rt, alloc, document, "b", OwnedValue::from(2u8));
    expect_eq(rt, number_in(old), Some(1));
    let members = document.as_object_mut().expect(rt, "an object");
    let old = KnownKey::from("b").map_insert(alloc, members, OwnedValue::from(3u8));
    expect_eq(rt, number_in(old.expect(rt, "memory")), Some(2));
    let old = KnownKey::from("c").map_insert(alloc, members, OwnedValue::from(4u8));
    expect_that(rt, "a third member", is_nothing(old.expect(rt, "memory")));
}

#[test]
fn inserted_members(rt: HostRuntime) {
    let mut document = OwnedValue::object(rt.alloc());
    expect_new(&rt, rt.alloc(), &mut document);
    expect_replaced(&rt, rt.alloc(), &mut document);
    expect_made(&rt, rt.alloc(), document, r#"{"b":3,"a":null,"c":4}"#);
}

#[test]
fn insert_into_no_object(rt: HostRuntime) {
    let mut number = OwnedValue::from(7u8);
    let key = KnownKey::from("b");
    let refused = key.insert(rt.alloc(), &mut number, OwnedValue::null());
    let number_met = KnownKeyError::NotAnObject(ValueType::U64);
    expect_eq(&rt, refused.err(), Some(number_met));
    expect_eq(&rt, number_in(Some(number)), Some(7));
}

// Looks up keys of the empty object, each of which is put there with the number of its call if it is new.
fn put_new_keys(
    rt: &impl Abort,
    alloc: Global,
    object: &mut Object<String, u64>,
) -> Result<(), Fail> {
    let mut calls = 0u64;
    for &(text, wanted) in &[("key", 1), ("cake", 2), ("key", 1)] {
        let calls_before = calls;
        let before = format!(in alloc; "{object:?}")?;
        let with = || {
            calls = calls.wrapping_add(1);
            calls
        };
        match KnownKey::from(text).map_lookup_or_insert_mut(alloc, object, with) {
            Ok(found) => expect_eq(rt, *found, wanted),
            Err(error) => {
                expect_eq(rt, error, KnownKeyError::Memory);
                expect_eq(rt, calls, calls_before);
                expect_eq(rt, format!(in alloc; "{object:?}")?, before);
                return Err(Fail::new("no memory"));
            }
        }
    }
    expect_eq(rt, calls, 2);
    expect_eq(rt, object.len(), 2);
    Ok(())
}

// A closure is called for a new key alone, and not where there is no memory.
#[test]
fn made_for_new_keys(rt: HostRuntime) -> Result<(), Fail> {
    let mut object = Object::new(rt.alloc());
    let put = put_new_keys(&rt, rt.alloc(), &mut object);
    drop(object);
    put
}

// Looks up the member, and returns its number and how often the closure was called then. Where there is no memory, it wasn't
// called again, and the document is the same as before.
fn number_of_call(
    rt: &impl Abort,
    alloc: Global,
    document: &mut OwnedValue,
    before: &OwnedValue,
    key: &KnownKey<'_>,
    calls: u64,
) -> Result<(Option<u64>, u64), Fail> {
    let mut calls_now = calls;
    let with = || {
        calls_now = calls_now.wrapping_add(1);
        OwnedValue::from(calls_now)
    };
    match key.lookup_or_insert_mut(alloc, document, with) {
        Ok(found) => {
            let number = found.as_u64();
            Ok((number, calls_now))
        }
        Err(error) => {
            expect_eq(rt, error, KnownKeyError::Memory);
            expect_eq(rt, calls_now, calls);
            expect_eq(rt, &*document, before);
            Err(Fail::new("no memory"))
        }
    }
}

// The same of the members of a document.
fn put_new_members(rt: &impl Abort, alloc: Global, document: &mut OwnedValue) -> Result<(), Fail> {
    let mut calls = 0u64;
    for &(text, wanted) in &[("key", 1), ("cake", 2), ("key", 1)] {
        let key = KnownKey::from(text);
        let before = document.try_clone()?;
        let found = number_of_call(rt, alloc, document, &before, &key, calls);
        drop(before);
        let (number, calls_now) = found?;
        expect_eq(rt, number, Some(wanted));
        calls = calls_now;
    }
    expect_eq(rt, calls, 2);
    Ok(())
}

#[test]
fn made_for_new_members(rt: HostRuntime) -> Result<(), Fail> {
    let mut document = OwnedValue::object(rt.alloc());
    let put = put_new_members(&rt, rt.alloc(), &mut document);
    drop(document);
    put
}

// Six blocks, one for each binary digit of `number`, highest first. All of them have one hash.
fn colliding_key(rt: &impl Abort, alloc: Global, number: u64) -> String {
    let mut key = String::new(alloc);
    for place in 0..6u32 {
        let digit = number >> (5 - place) & 1;
        key.push_str(if digit == 0 { "Aa" } else { "BB" })
            .expect(rt, "memory");
    }
    key
}

// Puts forty keys into the empty object, each with its number.
fn put_forty(rt: &impl Abort, alloc: Global, object: &mut Object<String, u64>) {
    for number in 0..40u64 {
        object
            .insert(colliding_key(rt, alloc, number), number)
            .expect(rt, "memory");
    }
}

// Looks up one of these keys, or one that isn't there.
fn expect_number(rt: &impl Abort, object: &Object<String, u64>, key: &str, expected: Option<&u64>) {
    let known = KnownKey::from(key);
    expect_eq(rt, known.lookup(object), expected);
    expect_eq(rt, known.map_lookup(object), expected);
    expect_eq(rt, object.get(key), expected);
}

// Looks up each of these keys, and one that isn't there.
fn expect_forty(rt: &impl Abort, alloc: Global, object: &Object<String, u64>) {
    for number in 0..40u64 {
        let key = colliding_key(rt, alloc, number);
        expect_number(rt, object, &key, Some(&number));
    }
    expect_number(rt, object, &colliding_key(rt, alloc, 40), None);
}

#[test]
fn forty_equal_hashes(rt: HostRuntime) {
    let mut object = Object::new(rt.alloc());
    put_forty(&rt, rt.alloc(), &mut object);
    expect_forty(&rt, rt.alloc(), &object);
    drop(object);
}

#[test]
fn shown_errors(rt: HostRuntime) {
    for &(error, text) in &[
        (KnownKeyError::NotAnObject(ValueType::Array), "NotAnObject"),
        (KnownKeyError::Memory, "Memory"),
    ] {
        let shown = error.to_string(rt.alloc()).expect(&rt, "memory");
        expect_eq(&rt, shown.as_str(), text);
    }
}
