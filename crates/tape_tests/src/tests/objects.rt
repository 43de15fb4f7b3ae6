//! Of `sj_object`: worked rows, and calls with ample memory.
use super::{expect_at, expect_debug, expect_eq, expect_shown, expect_text, expect_that};
use sj_base::{StaticNode, TryCopy};
use sj_object::{
    CopyKey, Iter, MakeKey, Members, NotSoRandomState, Object, ObjectHasher, ObjectKey, Refused,
    hash_key,
};
use std::alloc::{AllocError, Global};
use std::borrow::CowStr;
use std::fmt::Debug;
use std::process::Abort;
use std::test::Fail;

fn object_of<'de, K: MakeKey<'de> + Debug + Drop, V: Copy + Debug + Drop>(
    rt: &impl Abort,
    alloc: Global,
    pairs: &[(&'de str, V)],
) -> Object<K, V> {
    let mut object = Object::new(alloc);
    for (text, value) in pairs {
        let key = K::from_text(alloc, text).expect(rt, "memory");
        object.insert(key, *value).expect(rt, "memory");
    }
    object
}

fn copy_of<K: CopyKey + Drop, V: TryCopy + PartialEq + Drop>(
    rt: &impl Abort,
    object: &Object<K, V>,
) -> Object<K, V> {
    let copy = object.try_clone().expect(rt, "memory");
    expect_that(rt, "an equal copy", copy == *object);
    copy
}

fn text(rt: &impl Abort, alloc: Global, text: &str) -> String {
    String::from_str(alloc, text).expect(rt, "memory")
}

// Inserts a pair, and returns the value that it replaces.
fn insert(
    rt: &impl Abort,
    alloc: Global,
    object: &mut Object<String, u64>,
    key: &str,
    value: u64,
) -> Option<u64> {
    object
        .insert(text(rt, alloc, key), value)
        .expect(rt, "memory")
}

// Inserts three values into the empty object, of which the last replaces the first.
fn expect_replaced(rt: &impl Abort, alloc: Global, object: &mut Object<String, u64>) {
    expect_that(rt, "an empty object", object.is_empty());
    expect_eq(rt, insert(rt, alloc, object, "a", 1), None);
    expect_eq(rt, insert(rt, alloc, object, "b", 2), None);
    expect_eq(rt, insert(rt, alloc, object, "a", 3), Some(1));
}

// What is in that object.
fn expect_two(rt: &impl Abort, object: &Object<String, u64>) {
    expect_eq(rt, object.len(), 2);
    expect_eq(rt, object.get("a"), Some(&3));
    expect_eq(rt, object.get("b"), Some(&2));
    expect_that(rt, "a key", object.contains_key("a"));
    expect_that(rt, "no empty key", !object.contains_key(""));
}

// Removes one of its two pairs.
fn expect_removed(rt: &impl Abort, object: &mut Object<String, u64>) {
    expect_eq(rt, object.remove("a"), Some(3));
    expect_eq(rt, object.remove("a"), None);
    expect_eq(rt, object.len(), 1);
    expect_eq(rt, object.get("a"), None);
    expect_eq(rt, object.get("b"), Some(&2));
}

#[test]
fn replaced_in_place(rt: HostRuntime) {
    let mut object = Object::with_capacity(rt.alloc(), 2).expect(&rt, "memory");
    expect_replaced(&rt, rt.alloc(), &mut object);
    expect_two(&rt, &object);
    expect_removed(&rt, &mut object);
    drop(object);
}

// An object with room for as many pairs as another one has takes pairs whose keys are known to be new.
#[test]
fn new_pairs(rt: HostRuntime) {
    let object = object_of::<String, u64>(&rt, rt.alloc(), &[("a", 1), ("b", 2)]);
    let mut other = object.emptied().expect(&rt, "memory");
    expect_that(&rt, "an empty object", other.is_empty());
    other
        .push_new(text(&rt, rt.alloc(), "b"), 3)
        .expect(&rt, "memory");
    expect_eq(&rt, other.len(), 1);
    expect_eq(&rt, other.get("b"), Some(&3));
    drop((object, other));
}

fn show(rt: &impl Abort, shown: &mut String, key: &str, value: u64) {
    write!(shown, "{key}{value} ").expect(rt, "memory");
}

// Appends what an iterator by reference gives.
fn show_pairs(rt: &impl Abort, shown: &mut String, pairs: Iter<'_, String, u64>) {
    for (key, value) in pairs {
        show(rt, shown, key, *value);
    }
}

// Appends the keys in their order.
fn show_keys(rt: &impl Abort, shown: &mut String, object: &Object<String, u64>) {
    for key in object.keys() {
        shown.push_str(key).expect(rt, "memory");
    }
}

// Appends the values.
fn show_values(rt: &impl Abort, shown: &mut String, object: &Object<String, u64>) {
    for value in object.values() {
        show(rt, shown, "", *value);
    }
}

// Appends the pairs as they are handed out.
fn show_taken(rt: &impl Abort, shown: &mut String, object: Object<String, u64>) {
    for (key, value) in object {
        show(rt, shown, &key, value);
    }
}

// The pairs b2 and a5, by each iterator.
fn expect_pairs(rt: &impl Abort, alloc: Global, object: Object<String, u64>) {
    let mut shown = String::new(alloc);
    show_pairs(rt, &mut shown, object.iter());
    show_pairs(rt, &mut shown, (&object).into_iter());
    show_keys(rt, &mut shown, &object);
    show_values(rt, &mut shown, &object);
    show_taken(rt, &mut shown, object);
    expect_text(rt, shown, "b2 a5 b2 a5 ba2 5 b2 a5 ");
}

#[test]
fn pairs_in_order(rt: HostRuntime) {
    let mut object: Object<String, u64> = object_of(&rt, rt.alloc(), &[("b", 2), ("a", 1)]);
    if let Some(value) = object.get_mut("a") {
        *value = 5;
    }
    expect_eq(&rt, object.get_mut("d"), None);
    expect_debug(&rt, rt.alloc(), &object, r#"{"b": 2, "a": 5}"#);
    expect_pairs(&rt, rt.alloc(), object);
}

// Members show their pairs as the object does that is made of them.
#[test]
fn debug_of_members(rt: HostRuntime) {
    let mut members = Members::with_capacity(rt.alloc(), 1).expect(&rt, "memory");
    members.make_room().expect(&rt, "memory");
    members.push_reserved(CowStr::Borrowed("b"), 2u64);
    expect_debug(&rt, rt.alloc(), &members, r#"{"b": 2}"#);
}

// The keys k0 to k32, without k0 if `first` is 1, each with its number as its value.
fn put_numbered(rt: &impl Abort, alloc: Global, object: &mut Object<String, u64>, first: u64) {
    for i in first..33 {
        let key = format!(in alloc; "k{i}").expect(rt, "memory");
        object.insert(key, i).expect(rt, "memory");
    }
}

// The order of these keys, where the first stands after the others.
fn expect_order(rt: &impl Abort, alloc: Global, object: &Object<String, u64>) {
    let mut keys = String::new(alloc);
    show_keys(rt, &mut keys, object);
    let order =
        "k1k2k3k4k5k6k7k8k9k10k11k12k13k14k15k16k17k18k19k20k21k22k23k24k25k26k27k28k29k30k31k32k0";
    expect_text(rt, keys, order);
}

// One of these keys is removed and put back after the others.
fn expect_at_the_end(rt: &impl Abort, alloc: Global, object: &mut Object<String, u64>) {
    expect_eq(rt, object.remove("k0"), Some(0));
    expect_eq(rt, object.get("k32"), Some(&32));
    expect_eq(rt, object.len(), 32);
    expect_eq(rt, insert(rt, alloc, object, "k0", 7), None);
    expect_order(rt, alloc, object);
}

// The next one is removed and put back before them.
fn expect_at_the_front(rt: &impl Abort, alloc: Global, object: &mut Object<String, u64>) {
    expect_eq(rt, object.remove("k1"), Some(1));
    expect_eq(rt, object.place("k1"), None);
    insert_first(rt, alloc, object, "k1", 9);
    expect_eq(rt, object.get("k0"), Some(&7));
    expect_eq(rt, object.place("k1"), Some(0));
}

// Puts a key before the others, of which it must not be one.
fn insert_first(
    rt: &impl Abort,
    alloc: Global,
    object: &mut Object<String, u64>,
    key: &str,
    value: u64,
) {
    let key = text(rt, alloc, key);
    if object.contains_key(&key) {
        panic!(rt; "{key} is there");
    }
    object.insert_at(0, key, value).expect(rt, "memory");
}

// Removes the keys k1 to k4.
fn expect_four_removed(rt: &impl Abort, object: &mut Object<String, u64>) {
    for (key, value) in &[("k1", 9), ("k2", 2), ("k3", 3), ("k4", 4)] {
        expect_eq(rt, object.remove(key), Some(*value));
    }
}

#[test]
fn places(rt: HostRuntime) {
    let mut object = Object::new(rt.alloc());
    put_numbered(&rt, rt.alloc(), &mut object, 0);
    expect_at_the_end(&rt, rt.alloc(), &mut object);
    expect_at_the_front(&rt, rt.alloc(), &mut object);
    expect_four_removed(&rt, &mut object);
    expect_eq(&rt, object.get("k0"), Some(&7));
    drop(object);
}

// Looks up the keys k0 to k32.
fn expect_numbered(rt: &impl Abort, alloc: Global, object: &Object<String, u64>) {
    for i in 0..33 {
        let key = format!(in alloc; "k{i}").expect(rt, "memory");
        expect_eq(rt, object.get(&key), Some(&i));
    }
}

// The 33rd pair goes before the others.
#[test]
fn table_made_by_insert_at(rt: HostRuntime) {
    let mut object = Object::new(rt.alloc());
    put_numbered(&rt, rt.alloc(), &mut object, 1);
    insert_first(&rt, rt.alloc(), &mut object, "k0", 0);
    expect_numbered(&rt, rt.alloc(), &object);
    drop(object);
}

// What comes back of a pair that is refused, and what the object is.
fn expect_refused(
    rt: &impl Abort,
    object: &Object<CowStr<'_>, usize>,
    pair: Refused<CowStr<'_>, usize>,
    text: &str,
    place: usize,
) {
    expect_eq(rt, pair.key.as_ref(), text);
    expect_eq(rt, pair.value, place);
    expect_eq(rt, object.len(), place);
    expect_eq(rt, object.place(text), None);
    expect_eq(rt, place, 32);
}

// A refused pair comes back, and the object is as it was, as `oracle/memory.sh` shows: the 33rd pair needs memory
// for the table, and the one before it none.
#[test]
fn refused_pairs(rt: HostRuntime) -> Result<(), Fail> {
    let mut object: Object<CowStr, usize> = Object::with_capacity(rt.alloc(), 40)?;
    let keys = "a b c d e f g h i j k l m n o p q r s t u v w x y z aa ab ac ad ae af ag ah";
    for (place, text) in keys.split(' ').enumerate() {
        if let Err(pair) = object.insert(CowStr::Borrowed(text), place) {
            expect_refused(&rt, &object, pair, text, place);
            return Err(Fail::new("no memory"));
        }
    }
    expect_eq(&rt, object.len(), 34);
    expect_eq(&rt, object.get("ah"), Some(&33));
    Ok(())
}

#[test]
fn refused(rt: HostRuntime) {
    let pair = Refused { key: "a", value: 1 };
    expect_shown(&rt, rt.alloc(), &pair, "Refused");
}

// The lengths of the iterators over one pair by reference.
fn expect_lengths(rt: &impl Abort, object: &Object<String, u64>) {
    expect_eq(rt, object.iter().len(), 1);
    expect_eq(rt, object.iter().size_hint(), (1, Some(1)));
    expect_eq(rt, object.keys().len(), 1);
    expect_eq(rt, object.values().len(), 1);
}

// What one of them gives.
fn expect_one_pair(rt: &impl Abort, object: &Object<String, u64>) {
    let mut pairs = object.iter();
    expect_that(rt, "a pair", is_pair(pairs.next()));
    expect_that(rt, "one pair alone", !is_pair(pairs.next()));
    expect_that(rt, "nothing behind it", !is_pair(pairs.next()));
}

fn is_pair(pair: Option<(&String, &u64)>) -> bool {
    pair.is_some()
}

// The same of the iterator that hands it out.
fn expect_one_taken(rt: &impl Abort, object: Object<String, u64>) {
    let mut pairs = object.into_iter();
    expect_eq(rt, pairs.len(), 1);
    expect_eq(rt, pairs.size_hint(), (1, Some(1)));
    expect_that(rt, "a pair", pairs.next().is_some());
    expect_that(rt, "one pair alone", pairs.next().is_none());
    expect_that(rt, "nothing behind it", pairs.next().is_none());
}

#[test]
fn ended_iterators(rt: HostRuntime) {
    let object = object_of(&rt, rt.alloc(), &[("a", 1)]);
    expect_lengths(&rt, &object);
    expect_one_pair(&rt, &object);
    expect_one_taken(&rt, object);
}

// Whether an object is equal to one of these pairs.
fn expect_equal(
    rt: &impl Abort,
    alloc: Global,
    object: &Object<String, u64>,
    pairs: &[(&str, u64)],
    is_equal: bool,
) {
    let other = object_of(rt, alloc, pairs);
    expect_eq(rt, *object == other, is_equal);
}

// An object of the pairs a1 and b2, with others.
fn expect_equal_as_map(rt: &impl Abort, alloc: Global, object: &Object<String, u64>) {
    expect_equal(rt, alloc, object, &[("b", 2), ("a", 1)], true);
    expect_equal(rt, alloc, object, &[("a", 1), ("b", 3)], false);
    expect_equal(rt, alloc, object, &[("a", 1), ("c", 2)], false);
    expect_equal(rt, alloc, object, &[("a", 1)], false);
    expect_equal(rt, alloc, object, &[("a", 1), ("b", 2), ("c", 3)], false);
}

#[test]
fn equal_as_maps(rt: HostRuntime) {
    let object = object_of(&rt, rt.alloc(), &[("a", 1), ("b", 2)]);
    expect_equal_as_map(&rt, rt.alloc(), &object);
    drop(object);
}

fn is_borrowed_null(pair: Option<(&CowStr<'_>, &StaticNode)>) -> bool {
    matches!(pair, Some((CowStr::Borrowed("b"), StaticNode::Null)))
}

// The first pair of the copy of an object, of which one pair is then removed.
fn expect_copy(rt: &impl Abort, mut copy: Object<CowStr<'_>, StaticNode>) {
    expect_that(rt, "the first pair", is_borrowed_null(copy.iter().next()));
    expect_eq(rt, copy.remove("a"), Some(StaticNode::I64(-1)));
    expect_eq(rt, copy.len(), 1);
    drop(copy);
}

#[test]
fn copies(rt: HostRuntime) {
    let pairs = [("b", StaticNode::Null), ("a", StaticNode::I64(-1))];
    let object = object_of(&rt, rt.alloc(), &pairs);
    expect_copy(&rt, copy_of(&rt, &object));
    expect_eq(&rt, object.len(), 2);
    drop(object);
}

#[test]
fn hashes(rt: HostRuntime) {
    for (text, hash) in &[("", 0), ("a", 97), ("Aa", 2112), ("BB", 2112)] {
        expect_at(&rt, text, hash_key(text), *hash);
        let hasher: ObjectHasher = NotSoRandomState::default();
        expect_at(&rt, text, hasher.hash_text(text), *hash);
    }
    let text = "a longer key, so that the hash wraps";
    expect_eq(&rt, hash_key(text), 16192448537463894838);
}

// Six blocks, one for each binary digit of `number`, highest first.
pub(super) fn colliding_key(alloc: Global, number: u64) -> Result<String, AllocError> {
    let mut key = String::new(alloc);
    for place in 0..6u32 {
        let digit = number >> (5 - place) & 1;
        key.push_str(if digit == 0 { "Aa" } else { "BB" })?;
    }
    Ok(key)
}

// Puts forty keys of one hash into the empty object, each with its number.
fn put_forty(rt: &impl Abort, alloc: Global, object: &mut Object<String, u64>) {
    let hash = hash_key("AaAaAaAaAaAa");
    for number in 0..40 {
        let key = colliding_key(alloc, number).expect(rt, "memory");
        expect_eq(rt, hash_key(key.as_str()), hash);
        let hash = hash_key(key.as_str());
        let replaced = object.insert_hashed(hash, key, number);
        expect_eq(rt, replaced.expect(rt, "memory"), None);
    }
}

// The values 1 to 39 in their order.
fn expect_rest(rt: &impl Abort, object: &Object<String, u64>) {
    let mut number = 1u64;
    for value in object.values() {
        expect_eq(rt, *value, number);
        number = number.wrapping_add(1);
    }
}

// Removes the first of forty keys, and writes to the last by its hash.
fn expect_forty(rt: &impl Abort, object: &mut Object<String, u64>) {
    let key = "BBAaAaBBBBBB";
    expect_eq(rt, object.get_hashed(hash_key(key), key), Some(&39));
    expect_eq(rt, object.remove("AaAaAaAaAaAa"), Some(0));
    expect_eq(rt, object.len(), 39);
    expect_rest(rt, object);
    if let Some(value) = object.get_hashed_mut(hash_key(key), key) {
        *value = 0;
    }
    expect_eq(rt, object.get(key), Some(&0));
}

#[test]
fn forty_equal_hashes(rt: HostRuntime) {
    let mut object = Object::new(rt.alloc());
    put_forty(&rt, rt.alloc(), &mut object);
    expect_forty(&rt, &mut object);
    drop(object);
}

// Looks up a key, which is put there with the number of the call if it is new.
fn number_of_call(
    rt: &impl Abort,
    object: &mut Object<CowStr<'static>, u64>,
    calls: &mut u64,
    text: &'static str,
) -> u64 {
    let with = || {
        *calls = calls.wrapping_add(1);
        *calls
    };
    let found = object.get_or_insert_hashed(hash_key(text), CowStr::Borrowed(text), with);
    *found.expect(rt, "memory")
}

fn expect_made_once(rt: &impl Abort, object: &mut Object<CowStr<'static>, u64>) {
    let mut calls = 0u64;
    expect_eq(rt, number_of_call(rt, object, &mut calls, "key"), 1);
    expect_eq(rt, number_of_call(rt, object, &mut calls, "cake"), 2);
    expect_eq(rt, number_of_call(rt, object, &mut calls, "key"), 1);
    expect_eq(rt, calls, 2);
    expect_eq(rt, object.len(), 2);
}

#[test]
fn made_once(rt: HostRuntime) {
    let mut object = Object::new(rt.alloc());
    expect_made_once(&rt, &mut object);
    drop(object);
}
