//! Runs that use the same buffers, one after the other.

use super::readers::Pieces;
use super::{FORMS, expect_at, expect_eq, script_of};
use sj_base::Counted;
use sj_parse::Buffers;
use sj_records::{Form, Repeats, RunError, Script, run_with};
use std::alloc::Global;
use std::io::{Read, Write};
use std::process::Abort;

fn run_with_on<I: Read + Drop, O: Write + Drop>(
    alloc: Global,
    input: I,
    output: &mut O,
    script: &Script,
    form: Form,
    buffers: &mut Buffers,
) -> Result<(), RunError> {
    let mut source = Counted::new(input);
    let mut sink = Counted::new(output);
    let keep = Repeats::Keep;
    let result = run_with(alloc, &mut source, &mut sink, script, form, buffers, keep);
    let _ = source.into_inner();
    let _ = sink.into_inner();
    result
}

// Looks for the records of a stream in one form, in these buffers.
fn expect_with(
    rt: &impl Abort,
    alloc: Global,
    buffers: &mut Buffers,
    form: Form,
    script: &str,
    stream: &str,
    records: &str,
) {
    let script = script_of(alloc, script).expect(rt, "a script");
    let mut output = Vec::new(alloc);
    let input = Pieces::new(stream.as_bytes(), 65536);
    let result = run_with_on(alloc, input, &mut output, &script, form, buffers);
    expect_eq(rt, result, Ok(()));
    expect_at(rt, &(stream, form), output.as_slice(), records.as_bytes());
}

// Two runs of three lines, with a run of no line after each.
fn run_twice(rt: &impl Abort, alloc: Global, form: Form) {
    let mut buffers = Buffers::with_max_depth(alloc, 0, 1).expect(rt, "memory");
    let script = r#"[["push",[],[]],["push",[],3]]"#;
    let records = r#"{"replies":["TooDeep",[]],"document":[1,2,3]}
{"error":"Syntax","index":0,"character":"["}
{"replies":["TooDeep",[]],"document":[3]}
"#;
    for _ in 0..2 {
        let stream = "[1, 2]\n[\n[]";
        expect_with(rt, alloc, &mut buffers, form, script, stream, records);
        expect_with(rt, alloc, &mut buffers, form, "[]", "", "");
    }
    expect_eq(rt, buffers.max_depth(), 1);
}

#[test]
fn streams_in_the_same_buffers(rt: HostRuntime) {
    for form in &FORMS {
        run_twice(&rt, rt.alloc(), *form);
    }
}

// Looks for the record of a reload of repeated keys, and for the positions after it.
fn expect_positions(rt: &impl Abort, alloc: Global, form: Form, record: &str, positions: &[u32]) {
    let mut buffers = Buffers::new(alloc, 0).expect(rt, "memory");
    let script = r#"[["reload"],["len",[]]]"#;
    let line = r#"{"a":1,"a":2}"#;
    expect_with(rt, alloc, &mut buffers, form, script, line, record);
    expect_at(rt, &form, buffers.structural_indexes(), positions);
}

// The positions are those of the text that was read last, which is that of the reload.
#[test]
fn positions_behind_a_reload(rt: HostRuntime) {
    let alloc = rt.alloc();
    let kept = "{\"replies\":[true,1],\"document\":{\"a\":1}}\n";
    for form in &[Form::Owned, Form::Borrowed] {
        expect_positions(&rt, alloc, *form, kept, &[0, 1, 4, 5, 6]);
    }
    let whole = "{\"replies\":[true,2],\"document\":{\"a\":1,\"a\":2}}\n";
    let positions = [0, 1, 4, 5, 6, 7, 10, 11, 12];
    expect_positions(&rt, alloc, Form::Lazy, whole, &positions);
}
