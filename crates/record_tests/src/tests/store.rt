//! A document that scripts edit one after another. docs/LIBRARY.md has it.

use super::{LIMIT, expect_at, expect_eq, script_of};
use sj_owned::{OwnedValue, to_owned_value};
use sj_records::{Command, Document, Inverse, Script, Undo, apply};
use std::alloc::{AllocError, Global};
use std::process::Abort;

// A document, and what takes its writes back, the newest last.
#[derive(Drop)]
struct Store {
    document: OwnedValue,
    history: Vec<Inverse>,
}

impl Store {
    // Runs the script, and appends the reply to each command and a line feed. Reloads are passed over.
    fn run(&mut self, script: &Script, out: &mut Vec<u8>) -> Result<(), AllocError> {
        let Store { document, history } = self;
        for command in script.commands() {
            match command {
                Command::Reload | Command::ReloadPp => {}
                _ => {
                    apply(document, history, command, LIMIT, Undo::Possible, out)?;
                    out.push(b'\n')?;
                }
            }
        }
        Ok(())
    }
}

// Looks for the replies to a script, and for the document after it.
fn expect_run(
    rt: &impl Abort,
    alloc: Global,
    store: &mut Store,
    script: &str,
    replies: &str,
    document: &str,
) {
    let commands = script_of(alloc, script).expect(rt, "a script");
    let mut out = Vec::new(alloc);
    expect_eq(rt, store.run(&commands, &mut out), Ok(()));
    expect_at(rt, &script, out.as_slice(), replies.as_bytes());
    out.clear();
    store.document.encode(&mut out).expect(rt, "memory");
    expect_at(rt, &script, out.as_slice(), document.as_bytes());
}

// Writes of an earlier script are taken back by a later one.
#[test]
fn scripts_on_one_document(rt: HostRuntime) {
    let alloc = rt.alloc();
    let mut text = *br#"{"port": 80, "hosts": ["a"]}"#;
    let mut store = Store {
        document: to_owned_value(alloc, &mut text).expect(&rt, "a document"),
        history: Vec::new(alloc),
    };
    for (script, replies, document) in &[
        (
            r#"[["push",["hosts"],"b"],["set",["port"],443]]"#,
            "[]\n[80]\n",
            r#"{"port":443,"hosts":["a","b"]}"#,
        ),
        (
            r#"[["undo"],["get",["port"]],["remove",[],"hosts"]]"#,
            "true\n[80]\n[[\"a\",\"b\"]]\n",
            r#"{"port":80}"#,
        ),
        (
            r#"[["undo"],["undo"],["undo"]]"#,
            "true\ntrue\nfalse\n",
            r#"{"port":80,"hosts":["a"]}"#,
        ),
    ] {
        expect_run(&rt, alloc, &mut store, script, replies, document);
    }
    drop(store);
}

// A write is taken back by what it hands out, without a history.
#[test]
fn write_taken_back(rt: HostRuntime) {
    let alloc = rt.alloc();
    let mut text = *br#"{"hosts": ["a"]}"#;
    let mut store = Store {
        document: to_owned_value(alloc, &mut text).expect(&rt, "a document"),
        history: Vec::new(alloc),
    };
    let written = r#"{"hosts":["a","b"]}"#;
    expect_run(
        &rt,
        alloc,
        &mut store,
        r#"[["push",["hosts"],"b"]]"#,
        "[]\n",
        written,
    );
    let inverse = store.history.pop().expect(&rt, "an inverse");
    expect_eq(&rt, store.document.take_back(alloc, inverse), Ok(true));
    expect_run(&rt, alloc, &mut store, "[]", "", r#"{"hosts":["a"]}"#);
    drop(store);
}
