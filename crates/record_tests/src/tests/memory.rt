//! Runs that lack memory, as `oracle/memory.sh` makes them lack it: it refuses each of their requests in turn. The records of the
//! first lines stand then, whole. With enough memory those of all lines do.
use super::readers::{Pieces, run_by};
use super::writes::forty;
use super::{FORMS, LIMIT, script_of};
use sj_records::{Form, Repeats, RunError};
use std::alloc::Global;
use std::process::Abort;
use std::test::Fail;

// The forty members without the bracket that closes them.
fn members(alloc: Global) -> Result<String, Fail> {
    let object = forty(alloc, 0)?;
    Ok(String::from_str(alloc, object.strip_suffix('}').ok_or("no object")?)?)
}

// A line by itself, one that repeats a key, and one whose keys have one hash.
fn lines(alloc: Global) -> Result<String, Fail> {
    let members = members(alloc)?;
    let front = r#"{"key": "value", "snot": 42}"#;
    let repeats = r#"{"a":1,"a":2}"#;
    Ok(format!(in alloc; "{front}\n{repeats}\n{members}}}\n")?)
}

// Looks at what a run left: all records, or those of the first lines.
fn expect_first(rt: &impl Abort, ended: Result<(), RunError>, written: &[u8], records: &[u8]) {
    if ended.is_ok() {
        assert!(rt; written == records);
        return;
    }
    assert_eq!(rt; ended, Err(RunError::Memory));
    assert!(rt; records.starts_with(written) && written.len() < records.len());
    assert!(rt; written.is_empty() || written.ends_with(b"\n"));
}

// Runs the script on these lines, into an output that has room for all records.
fn check(
    rt: &impl Abort,
    alloc: Global,
    form: Form,
    script: &str,
    stream: &str,
    records: &str,
) -> Result<(), Fail> {
    let script = script_of(alloc, script).ok().ok_or("no script")?;
    let mut output = Vec::with_capacity(alloc, records.len())?;
    let input = Pieces::new(stream.as_bytes(), 65536);
    let keep = Repeats::Keep;
    let ended = run_by(alloc, input, &mut output, &script, LIMIT, form, keep);
    expect_first(rt, ended, &output, records.as_bytes());
    ended.ok().ok_or("no memory")?;
    Ok(())
}

// The records of these lines, which differ in the reply to `get` and in the document.
fn records(alloc: Global, replies: [&str; 3], front: &str, member: &str) -> Result<String, Fail> {
    let [first, second, third] = replies;
    let members = members(alloc)?;
    Ok(format!(in alloc;
        "{{\"replies\":{first},\"document\":{front}{member}}}}}\n{{\"replies\":{second},\"document\":{{\"a\":1{member}}}}}\n{{\"replies\":{third},\"document\":{members}{member}}}}}\n"
    )?)
}

#[test]
fn edits_without_memory(rt: HostRuntime) -> Result<(), Fail> {
    let alloc = rt.alloc();
    let script = r#"[["get",["key"]],["insert",[],"new",42],["get",["new"]]]"#;
    let found = r#"[["value"],[],[42]]"#;
    let absent = "[[],[],[42]]";
    let front = r#"{"key":"value","snot":42"#;
    let records = records(alloc, [found, absent, absent], front, r#","new":42"#)?;
    for form in FORMS {
        check(&rt, alloc, form, script, &lines(alloc)?, &records)?;
    }
    Ok(())
}

#[test]
fn reloads_without_memory(rt: HostRuntime) -> Result<(), Fail> {
    let alloc = rt.alloc();
    let script = r#"[["reload"],["push",[],0],["insert",[],"z",[1]],["remove",[],"z"],["undo"]]"#;
    let replies = r#"[true,"NotAnArray",[],[[1]],true]"#;
    let front = r#"{"key":"value","snot":42"#;
    let records = records(alloc, [replies; 3], front, r#","z":[1]"#)?;
    for form in FORMS {
        check(&rt, alloc, form, script, &lines(alloc)?, &records)?;
    }
    Ok(())
}
