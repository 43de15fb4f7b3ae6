//! Writes that are taken back: worked rows.
use super::FORMS;
use super::runs::{Row, Run};
use sj_records::Form;

#[test]
fn worked_undo(rt: HostRuntime) {
    for (script, line, record) in &[
        (
            r#"[["remove",[],"a"],["reload"],["insert",[],"c",3],["undo"],["undo"],["undo"]]"#,
            r#"{"a":1,"b":2}"#,
            r#"{"replies":[[1],true,[],true,true,false],"document":{"a":1,"b":2}}"#,
        ),
        (r#"[["undo"]]"#, "7", r#"{"replies":[false],"document":7}"#),
        (
            r#"[["remove",[],"b"],["undo"]]"#,
            r#"{"a":1,"b":[{}],"c":3}"#,
            r#"{"replies":[[[{}]],true],"document":{"a":1,"b":[{}],"c":3}}"#,
        ),
        (
            r#"[["insert",["a"],"b",2],["undo"],["insert",["a"],"c",2],["undo"]]"#,
            r#"{"a":{"b":1.50}}"#,
            r#"{"replies":[[1.50],true,[],true],"document":{"a":{"b":1.50}}}"#,
        ),
        (
            r#"[["push",["a"],[]],["undo"],["pop",["a"]],["undo"],["set",["a",0],{}],["undo"]]"#,
            r#"{"a":["x"]}"#,
            r#"{"replies":[[],true,["x"],true,["x"],true],"document":{"a":["x"]}}"#,
        ),
        (
            r#"[["set",[],[1]],["push",[],2],["set",[0],null],["undo"],["undo"],["undo"]]"#,
            r#""x""#,
            r#"{"replies":[["x"],[],[1],true,true,true],"document":"x"}"#,
        ),
    ] {
        Row::new(script, line, record).check_with_reloads(&rt, rt.alloc(), &FORMS);
    }
}

// A write that found nothing can be taken back, and one that was refused can't.
#[test]
fn undone_without_change(rt: HostRuntime) {
    for (script, line, record) in &[
        (
            r#"[["remove",[],"z"],["pop",["a"]],["undo"],["undo"],["undo"]]"#,
            r#"{"a":[]}"#,
            r#"{"replies":[[],[],true,true,false],"document":{"a":[]}}"#,
        ),
        (
            r#"[["insert",[],"b",1],["push",[],1],["set",["z"],1],["remove",["a"],"b"],["undo"],["undo"]]"#,
            r#"{"a":[]}"#,
            r#"{"replies":[[],"NotAnArray","NoSuchPath","NotAnObject",true,false],"document":{"a":[]}}"#,
        ),
    ] {
        Row::new(script, line, record).check_with_reloads(&rt, rt.alloc(), &FORMS);
    }
}

// A document of the form `Lazy` drops repeated keys at its first write, and keeps none of them when that is taken back.
#[test]
fn undone_repeats(rt: HostRuntime) {
    for (form, record) in &[
        (
            Form::Owned,
            r#"{"replies":[false,1,[1],true],"document":{"a":1}}"#,
        ),
        (
            Form::Borrowed,
            r#"{"replies":[false,1,[1],true],"document":{"a":1}}"#,
        ),
        (
            Form::Lazy,
            r#"{"replies":[false,2,[1],true],"document":{"a":1}}"#,
        ),
    ] {
        let script = r#"[["undo"],["len",[]],["remove",[],"a"],["undo"]]"#;
        let line = r#"{"a":1,"a":2}"#;
        Row::new(script, line, record).check_with_reloads(&rt, rt.alloc(), &[*form]);
    }
}

// Thirteen commands, of which four are writes that aren't refused, and thirteen times `undo`.
#[test]
fn thirteen_undone(rt: HostRuntime) {
    let script = concat!(
        r#"[["contains",[],"b"],["contains",["a"],"b"],["type",["a",1]],["keys",[]],["keys",["a"]],["len",["b"]],"#,
        r#"["pop",["a"]],["remove",[],"b"],["remove",[],"b"],["set",["a",0],2.50],["type",["a",0]],["get",["z"]],"#,
        r#"["len",["z"]],["undo"],["undo"],["undo"],["undo"],["undo"],["undo"],["undo"],["undo"],["undo"],["undo"],"#,
        r#"["undo"],["undo"],["undo"]]"#
    );
    let record = concat!(
        r#"{"replies":[true,false,"string",["a","b"],"NotAnObject","NotAContainer",["x"],[null],[],[1],"decimal",[],"#,
        r#""NoSuchPath",true,true,true,true,false,false,false,false,false,false,false,false,false],"#,
        r#""document":{"a":[1,"x"],"b":null}}"#
    );
    let line = r#"{"a":[1,"x"],"b":null}"#;
    Row::new(script, line, record).check(&rt, rt.alloc(), &FORMS);
}

// No line takes back a write of the line before.
#[test]
fn undone_by_line(rt: HostRuntime) {
    let script = r#"[["undo"],["push",[],1]]"#;
    let stream = "[]\n[0]\n{}\n";
    let records = r#"{"replies":[false,[]],"document":[1]}
{"replies":[false,[]],"document":[0,1]}
{"replies":[false,"NotAnArray"],"document":{}}
"#;
    Run::new(script, stream.as_bytes()).expect(&rt, rt.alloc(), &FORMS, records);
}
