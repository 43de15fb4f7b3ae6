//! Reloads: worked rows, and what stays the same with a reload at each place of a script.
use super::runs::{Row, Run};
use super::writes::{LIMITS, REPEATED_KEYS, WORKED, by_form};
use super::{FORMS, LIMIT};
use sj_owned::{OwnedValue, to_owned_value};
use sj_records::Form;
use std::alloc::{AllocError, Global};
use std::process::Abort;
use std::str;

const RELOADS: [&str; 2] = [r#"["reload"]"#, r#"["reload_pp"]"#];

#[test]
fn worked_reloads(rt: HostRuntime) {
    for (script, line, depth, record) in &[
        (
            r#"[["reload_pp"],["remove",[],"a"],["reload"]]"#,
            r#"{"a":1.0e5,"b":"\u001F"}"#,
            LIMIT,
            r#"{"replies":[true,[1.0e5],true],"document":{"b":"\u001f"}}"#,
        ),
        (
            r#"[["reload"]]"#,
            "7",
            0,
            r#"{"replies":[true],"document":7}"#,
        ),
        (
            r#"[["reload"],["push",[],7],["get",[0]]]"#,
            "[-0, 1.50]",
            LIMIT,
            r#"{"replies":[true,[],[0]],"document":[0,1.50,7]}"#,
        ),
        (
            r#"[["push",[],[]],["reload"],["push",[0],[]],["reload_pp"],["set",[],[8]]]"#,
            "[]",
            2,
            r#"{"replies":[[],true,"TooDeep",true,[[[]]]],"document":[8]}"#,
        ),
    ] {
        let row = Row {
            depth: *depth,
            ..Row::new(script, line, record)
        };
        row.check_with_reloads(&rt, rt.alloc(), &FORMS);
    }
}

// A reload of repeated keys leaves them as the form has them.
#[test]
fn reloaded_repeats(rt: HostRuntime) {
    for (form, record) in &[
        (Form::Owned, r#"{"replies":[true,1],"document":{"a":1}}"#),
        (Form::Borrowed, r#"{"replies":[true,1],"document":{"a":1}}"#),
        (
            Form::Lazy,
            r#"{"replies":[true,2],"document":{"a":1,"a":2}}"#,
        ),
    ] {
        let script = r#"[["reload"],["len",[]]]"#;
        let line = r#"{"a":1,"a":2}"#;
        Row::new(script, line, record).check_with_reloads(&rt, rt.alloc(), &[*form]);
    }
}

// A reload reads under the run's limit of levels.
#[test]
fn deep_reload(rt: HostRuntime) {
    let alloc = rt.alloc();
    let mut line = String::new(alloc);
    for bracket in &['[', ']'] {
        for _ in 0..LIMIT + 1 {
            line.push(*bracket).expect(&rt, "memory");
        }
    }
    let record = format!(in alloc; r#"{{"replies":[true],"document":{line}}}"#).expect(
        &rt, "memory",
    );
    let script = r#"[["reload_pp"]]"#;
    let row = Row {
        depth: LIMIT + 1,
        ..Row::new(script, &line, &record)
    };
    row.check(&rt, alloc, &FORMS);
}

fn put_item(text: &mut String, item: &str) -> Result<(), AllocError> {
    if text.len() > 1 {
        text.push(',')?;
    }
    text.push_str(item)
}

// Appends an item that is printed.
fn put_value(rt: &impl Abort, alloc: Global, text: &mut String, item: &OwnedValue) {
    let mut shown = Vec::new(alloc);
    item.encode(&mut shown).expect(rt, "memory");
    let shown = str::from_utf8(&shown).expect(rt, "a text");
    put_item(text, shown).expect(rt, "memory");
}

// Appends the items, and one more at this place.
fn put_items(
    rt: &impl Abort,
    alloc: Global,
    text: &mut String,
    array: &OwnedValue,
    place: usize,
    item: &str,
) {
    let items = array.as_array().expect(rt, "an array");
    for (at, other) in items.iter().enumerate() {
        if at == place {
            put_item(text, item).expect(rt, "memory");
        }
        put_value(rt, alloc, text, other);
    }
    if place >= items.len() {
        put_item(text, item).expect(rt, "memory");
    }
}

// The text of an array with one more item, at this place.
fn with_item(
    rt: &impl Abort,
    alloc: Global,
    array: &OwnedValue,
    place: usize,
    item: &str,
) -> String {
    let mut text = String::from_str(alloc, "[").expect(rt, "memory");
    put_items(rt, alloc, &mut text, array, place, item);
    text.push(']').expect(rt, "memory");
    text
}

fn read(rt: &impl Abort, alloc: Global, text: &str) -> OwnedValue {
    let mut bytes = text.as_bytes().to_vec(alloc).expect(rt, "memory");
    to_owned_value(alloc, &mut bytes).expect(rt, "a document")
}

// The record with the reply of a reload at this place.
fn with_reply(rt: &impl Abort, alloc: Global, record: &str, place: usize) -> String {
    let parts = record.split_once(r#","document":"#);
    let (front, document) = parts.expect(rt, "a document");
    let replies = front.strip_prefix(r#"{"replies":"#);
    let replies = read(rt, alloc, replies.expect(rt, "replies"));
    let replies = with_item(rt, alloc, &replies, place, "true");
    format!(in alloc; r#"{{"replies":{replies},"document":{document}"#).expect(rt, "memory")
}

fn len(rt: &impl Abort, array: &OwnedValue) -> usize {
    array.as_array().expect(rt, "an array").len()
}

impl Row<'_> {
    // Looks for the record with a reload of each kind at each place of the script.
    pub(super) fn check_reloads(self, rt: &impl Abort, alloc: Global, forms: &[Form]) {
        let commands = read(rt, alloc, self.script);
        for reload in &RELOADS {
            for place in 0..=len(rt, &commands) {
                let script = with_item(rt, alloc, &commands, place, reload);
                let record = with_reply(rt, alloc, self.record, place);
                let row = Row {
                    script: &script,
                    record: &record,
                    ..self
                };
                row.check(rt, alloc, forms);
            }
        }
    }

    // The same, and without a reload.
    pub(super) fn check_with_reloads(self, rt: &impl Abort, alloc: Global, forms: &[Form]) {
        self.check(rt, alloc, forms);
        self.check_reloads(rt, alloc, forms);
    }
}

#[test]
fn reloads_change_nothing(rt: HostRuntime) {
    for (script, line, record) in &WORKED {
        Row::new(script, line, record).check_reloads(&rt, rt.alloc(), &FORMS);
    }
    for (script, line, depth, record) in &LIMITS {
        let row = Row {
            depth: *depth,
            ..Row::new(script, line, record)
        };
        row.check_reloads(&rt, rt.alloc(), &FORMS);
    }
}

// In a last line that no line feed ends.
#[test]
fn reloads_in_an_unended_line(rt: HostRuntime) {
    for (script, records) in &[
        (
            r#"[["reload"],["type",[]]]"#,
            "{\"replies\":[true,\"null\"],\"document\":null}\n",
        ),
        (
            r#"[["type",[]],["reload"]]"#,
            "{\"replies\":[\"null\",true],\"document\":null}\n",
        ),
        (
            r#"[["reload_pp"],["type",[]]]"#,
            "{\"replies\":[true,\"null\"],\"document\":null}\n",
        ),
        (
            r#"[["type",[]],["reload_pp"]]"#,
            "{\"replies\":[\"null\",true],\"document\":null}\n",
        ),
    ] {
        let run = Run::new(script, b"null");
        run.expect_by(&rt, rt.alloc(), &[1, 65536], &FORMS, records);
    }
}

// Where a key stands twice, in each form.
#[test]
fn reloads_keep_repeats(rt: HostRuntime) {
    for (script, line, kept, lazy) in &REPEATED_KEYS {
        for (form, record) in &by_form(kept, lazy) {
            Row::new(script, line, record).check_reloads(&rt, rt.alloc(), &[*form]);
        }
    }
}

// Neither the texts of earlier lines nor faulty lines show in later records.
#[test]
fn reloads_of_lines(rt: HostRuntime) {
    let script = r#"[["reload_pp"],["push",[],"x"],["reload"],["reload_pp"],["pop",[]]]"#;
    let stream = r#"["a long text that is printed first"]
[1]
[1,]
[]
{"a":1}
"#;
    let records =
        r#"{"replies":[true,[],true,true,["x"]],"document":["a long text that is printed first"]}
{"replies":[true,[],true,true,["x"]],"document":[1]}
{"error":"InternalError","index":3,"character":"]"}
{"replies":[true,[],true,true,["x"]],"document":[]}
{"replies":[true,"NotAnArray",true,true,"NotAnArray"],"document":{"a":1}}
"#;
    let run = Run::new(script, stream.as_bytes());
    run.expect_by(&rt, rt.alloc(), &[1, 65536], &FORMS, records);
}
