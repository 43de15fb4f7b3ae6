//! Worked rows of scripts that read and write, in each form.
use super::runs::Row;
use super::{FORMS, LIMIT, expect_eq, script_of};
use sj_owned::to_owned_value;
use sj_records::{Command, Document, Form, Undo};
use std::alloc::{AllocError, Global};
use std::process::Abort;

// A script, a line and its record, the same in each form.
pub(super) const WORKED: [(&str, &str, &str); 11] = [
    (
        r#"[["get",["a",18446744073709551615]],["get",[0]],["get",["a","0"]]]"#,
        r#"{"a":[1]}"#,
        r#"{"replies":[[],[],[]],"document":{"a":[1]}}"#,
    ),
    (
        r#"[["get",["key"]],["insert",[],"new",42],["get",["new"]]]"#,
        r#"{"key": "value", "snot": 42}"#,
        r#"{"replies":[["value"],[],[42]],"document":{"key":"value","snot":42,"new":42}}"#,
    ),
    (
        r#"[["type",[]]]"#,
        "null",
        r#"{"replies":["null"],"document":null}"#,
    ),
    (
        r#"[["insert",[],"x",{"a":1,"a":2}]]"#,
        "{}",
        r#"{"replies":[[]],"document":{"x":{"a":1}}}"#,
    ),
    (
        r#"[["contains",[],"b"],["contains",["a"],"b"],["type",["a",1]],["keys",[]],["keys",["a"]],["len",["b"]],["pop",["a"]],["remove",[],"b"],["remove",[],"b"],["set",["a",0],2.50],["type",["a",0]],["get",["z"]],["len",["z"]]]"#,
        r#"{"a":[1,"x"],"b":null}"#,
        r#"{"replies":[true,false,"string",["a","b"],"NotAnObject","NotAContainer",["x"],[null],[],[1],"decimal",[],"NoSuchPath"],"document":{"a":[2.50]}}"#,
    ),
    (
        r#"[["set",[],[1,2]],["type",[]],["set",[5],0],["pop",[]]]"#,
        "{}",
        r#"{"replies":[[{}],"array","NoSuchPath",[2]],"document":[1]}"#,
    ),
    (
        r#"[["insert",["o","i",1],"s","t\u0001"],["set",["o","i",1,"s"],"é"],["push",["o","i"],[{"k":1.50}]],["get",["o"]],["remove",["o"],"i"]]"#,
        r#"{"o":{"i":[0,{}]}}"#,
        r#"{"replies":[[],["t\u0001"],[],[{"i":[0,{"s":"é"},[{"k":1.50}]]}],[[0,{"s":"é"},[{"k":1.50}]]]],"document":{"o":{}}}"#,
    ),
    (
        r#"[["type",[0]],["type",[1]],["type",[2]],["type",[3]],["type",[4]],["type",[5]],["type",[6]],["type",[7]],["type",[8]]]"#,
        r#"[null,true,-1,1,1.0,"",[],{}]"#,
        r#"{"replies":["null","bool","integer","integer","decimal","string","array","object","NoSuchPath"],"document":[null,true,-1,1,1.0,"",[],{}]}"#,
    ),
    (
        r#"[["type",[0]],["type",[1]]]"#,
        "[-9223372036854775809,-9223372036854775808]",
        r#"{"replies":["decimal","integer"],"document":[-9223372036854775809,-9223372036854775808]}"#,
    ),
    (
        r#"[["contains",["x"],"k"],["keys",["x"]],["remove",["x"],"k"],["remove",["a"],"k"],["push",["x"],1],["pop",["x"]],["pop",["a"]]]"#,
        r#"{"a":1}"#,
        r#"{"replies":["NoSuchPath","NoSuchPath","NoSuchPath","NotAnObject","NoSuchPath","NoSuchPath","NotAnArray"],"document":{"a":1}}"#,
    ),
    ("[]", "1\r", r#"{"replies":[],"document":1}"#),
];

#[test]
fn worked_scripts(rt: HostRuntime) {
    for (script, line, record) in &WORKED {
        Row::new(script, line, record).check(&rt, rt.alloc(), &FORMS);
    }
}

// A script, a line in which a key stands twice, its record where only the first member is kept, and that of the form `Lazy`.
pub(super) const REPEATED_KEYS: [(&str, &str, &str, &str); 6] = [
    (
        r#"[["get",["a"]]]"#,
        r#"{"a":1,"a":2}"#,
        r#"{"replies":[[1]],"document":{"a":1}}"#,
        r#"{"replies":[[1]],"document":{"a":1,"a":2}}"#,
    ),
    (
        "[]",
        r#"{"a":1,"\u0061":2}"#,
        r#"{"replies":[],"document":{"a":1}}"#,
        r#"{"replies":[],"document":{"a":1,"a":2}}"#,
    ),
    (
        "[]",
        r#"[{"\u0061":{"b":1,"\u0062":2},"c":3,"a":4}]"#,
        r#"{"replies":[],"document":[{"a":{"b":1},"c":3}]}"#,
        r#"{"replies":[],"document":[{"a":{"b":1,"b":2},"c":3,"a":4}]}"#,
    ),
    (
        r#"[["get",["a"]],["get",["b"]]]"#,
        r#"{"a":1,"a":2}"#,
        r#"{"replies":[[1],[]],"document":{"a":1}}"#,
        r#"{"replies":[[1],[]],"document":{"a":1,"a":2}}"#,
    ),
    (
        r#"[["len",[]],["push",[],0],["len",[]]]"#,
        r#"{"a":1,"a":2}"#,
        r#"{"replies":[1,"NotAnArray",1],"document":{"a":1}}"#,
        r#"{"replies":[2,"NotAnArray",1],"document":{"a":1}}"#,
    ),
    (
        r#"[["keys",[]],["remove",[],"a"],["keys",[]]]"#,
        r#"{"a":1,"a":2}"#,
        r#"{"replies":[["a"],[1],[]],"document":{}}"#,
        r#"{"replies":[["a","a"],[1],[]],"document":{}}"#,
    ),
];

// Each form, with the record that it gives of such a line.
pub(super) fn by_form<'a>(kept: &'a str, lazy: &'a str) -> [(Form, &'a str); 3] {
    [
        (Form::Owned, kept),
        (Form::Borrowed, kept),
        (Form::Lazy, lazy),
    ]
}

#[test]
fn repeated_keys(rt: HostRuntime) {
    for (script, line, kept, lazy) in &REPEATED_KEYS {
        for (form, record) in &by_form(kept, lazy) {
            Row::new(script, line, record).check(&rt, rt.alloc(), &[*form]);
        }
    }
}

// A script, a line, a limit of levels and the record. Path, kind and depth are tested in this order, and the value's levels
// count.
pub(super) const LIMITS: [(&str, &str, usize, &str); 4] = [
    (
        r#"[["push",[],[]]]"#,
        "[]",
        1,
        r#"{"replies":["TooDeep"],"document":[]}"#,
    ),
    (
        r#"[["push",[],[]],["push",[0],[]],["push",[0],7]]"#,
        "[]",
        2,
        r#"{"replies":[[],"TooDeep",[]],"document":[[7]]}"#,
    ),
    (
        r#"[["insert",["a"],"k",[[]]],["insert",["x"],"k",1],["set",["a"],[]],["insert",[],"k",[]],["push",["a"],[]]]"#,
        r#"{"a":1}"#,
        1,
        r#"{"replies":["NotAnObject","NoSuchPath","TooDeep","TooDeep","NotAnArray"],"document":{"a":1}}"#,
    ),
    (
        r#"[["set",[],[]],["set",[],8],["push",[],1]]"#,
        "7",
        0,
        r#"{"replies":["TooDeep",[7],"NotAnArray"],"document":8}"#,
    ),
];

#[test]
fn depth_limits(rt: HostRuntime) {
    for (script, line, depth, record) in &LIMITS {
        let row = Row {
            depth: *depth,
            ..Row::new(script, line, record)
        };
        row.check(&rt, rt.alloc(), &FORMS);
    }
}

// Appends a member whose key has six blocks, one for each binary digit of `number`, highest first.
fn put_member(alloc: Global, out: &mut String, number: u8, value: u8) -> Result<(), AllocError> {
    out.push('"')?;
    for place in 0..6u8 {
        let is_one = number >> (5 - place) & 1 == 1;
        out.push_str(if is_one { "BB" } else { "Aa" })?;
    }
    let value = format!(in alloc; r#"":{value}"#)?;
    out.push_str(&value)
}

// An object of the members from `first` to 39.
pub(super) fn forty(alloc: Global, first: u8) -> Result<String, AllocError> {
    let mut text = String::from_str(alloc, "{")?;
    for number in first..40u8 {
        if number > first {
            text.push(',')?;
        }
        put_member(alloc, &mut text, number, number)?;
    }
    text.push('}')?;
    Ok(text)
}

#[test]
fn forty_equal_hashes(rt: HostRuntime) {
    let alloc = rt.alloc();
    let line = forty(alloc, 0).expect(&rt, "memory");
    let left = forty(alloc, 1).expect(&rt, "memory");
    let record = format!(in alloc; r#"{{"replies":[[39],[0],39],"document":{left}}}"#).expect(
        &rt, "memory",
    );
    let script = r#"[["get",["BBAaAaBBBBBB"]],["remove",[],"AaAaAaAaAaAa"],["len",[]]]"#;
    Row::new(script, &line, &record).check_with_reloads(&rt, alloc, &FORMS);
}

// The first of them is taken out, and comes back to its place.
#[test]
fn forty_equal_hashes_undone(rt: HostRuntime) {
    let alloc = rt.alloc();
    let line = forty(alloc, 0).expect(&rt, "memory");
    let record = format!(in alloc; r#"{{"replies":[[0],true,[0],[39]],"document":{line}}}"#).expect(
        &rt, "memory",
    );
    let script =
        r#"[["remove",[],"AaAaAaAaAaAa"],["undo"],["get",["AaAaAaAaAaAa"]],["get",["BBAaAaBBBBBB"]]]"#;
    Row::new(script, &line, &record).check(&rt, alloc, &FORMS);
}

// The object with all its members a second time, with other values.
fn doubled(rt: &impl Abort, alloc: Global, object: &str) -> String {
    let members = object.strip_suffix('}').expect(rt, "an object");
    let mut line = String::from_str(alloc, members).expect(rt, "memory");
    for number in 0..40u8 {
        line.push(',').expect(rt, "memory");
        put_member(alloc, &mut line, number, number + 100).expect(rt, "memory");
    }
    line.push('}').expect(rt, "memory");
    line
}

#[test]
fn forty_equal_hashes_twice(rt: HostRuntime) {
    let alloc = rt.alloc();
    let once = forty(alloc, 0).expect(&rt, "memory");
    let line = doubled(&rt, alloc, &once);
    let script = r#"[["len",[]],["get",["AaAaAaAaAaAa"]]]"#;
    let kept = format!(in alloc; r#"{{"replies":[40,[0]],"document":{once}}}"#).expect(
        &rt, "memory",
    );
    Row::new(script, &line, &kept).check(&rt, alloc, &[Form::Owned, Form::Borrowed]);
    let whole = format!(in alloc; r#"{{"replies":[80,[0]],"document":{line}}}"#).expect(
        &rt, "memory",
    );
    Row::new(script, &line, &whole).check(&rt, alloc, &[Form::Lazy]);
}

// A write call on a document appends its reply, and hands out an inverse if that is asked for.
fn expect_write(rt: &impl Abort, alloc: Global, command: &Command, undo: Undo) {
    let Command::Insert(path, key, value) = command else {
        panic!(rt; "another command");
    };
    let mut text = *br#"{"a":{"k":"old"}}"#;
    let mut document = to_owned_value(alloc, &mut text).expect(rt, "a document");
    let mut out = b"> ".to_vec(alloc).expect(rt, "memory");
    let inverse = Document::insert(&mut document, path, key, value, LIMIT, undo, &mut out);
    let has_inverse = inverse.expect(rt, "memory").is_some();
    expect_eq(rt, has_inverse, undo == Undo::Possible);
    expect_eq(rt, out.as_slice(), br#"> ["old"]"#.as_slice());
}

#[test]
fn write_call(rt: HostRuntime) {
    let alloc = rt.alloc();
    let script = script_of(alloc, r#"[["insert",["a"],"k",["new"]]]"#).expect(&rt, "a script");
    assert_eq!(rt; script.len(), 1);
    expect_write(&rt, alloc, script.command(0), Undo::Possible);
    expect_write(&rt, alloc, script.command(0), Undo::Impossible);
}
