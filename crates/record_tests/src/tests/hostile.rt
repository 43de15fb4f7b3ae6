//! Lines that are made to mislead a reader of blocks, of levels or of hashes, by readers that give few bytes a read.
use super::rows::{ACROSS_BLOCKS, ROWS};
use super::runs::Run;
use super::writes::forty;
use super::{FORMS, LIMIT, MOST_SPACES, Stream, expect_eq, expect_that, record_of, split_row};
use sj_records::Form;
use std::alloc::Global;
use std::process::Abort;

// The most bytes that a reader gives a read.
const STEPS: [usize; 3] = [1, 2, 63];

const UNCLOSED: &str = r#"{"error":"Syntax","index":0,"character":null}"#;

const NOT_UTF8: &str = r#"{"error":"InvalidUtf8","index":0,"character":null}"#;

fn check(rt: &impl Abort, alloc: Global, lines: &Stream, depth: usize) {
    for step in &STEPS {
        lines.check(rt, alloc, depth, *step);
    }
}

// Adds an array of one string, of so many letters and then these bytes. Its record is the fault, or has the line as document.
fn add_string(
    rt: &impl Abort,
    alloc: Global,
    lines: &mut Stream,
    letters: usize,
    end: &[u8],
    fault: Option<&str>,
) {
    let mut line = Vec::from_slice(alloc, b"[\"").expect(rt, "memory");
    for _ in 0..letters {
        line.push(b'a').expect(rt, "memory");
    }
    line.extend_from_slice(end).expect(rt, "memory");
    line.extend_from_slice(b"\"]").expect(rt, "memory");
    match fault {
        Some(fault) => lines.add(rt, 0, &line, fault),
        None => {
            let text = std::str::from_utf8(&line).unwrap_or("no text");
            let record = record_of(rt, alloc, text);
            lines.add(rt, 0, &line, &record);
        }
    }
}

// Runs of backslashes that end at each byte of two blocks and at the first ones of a third: an odd one escapes the quote.
#[test]
fn runs_of_backslashes(rt: HostRuntime) {
    let alloc = rt.alloc();
    let mut lines = Stream::new(alloc);
    for letters in 0..=MOST_SPACES {
        for (end, fault) in &[
            (r"", None),
            (r"\", Some(UNCLOSED)),
            (r"\\", None),
            (r"\\\", Some(UNCLOSED)),
            (r"\\\\", None),
            (r"\\\\\", Some(UNCLOSED)),
        ] {
            add_string(&rt, alloc, &mut lines, letters, end.as_bytes(), *fault);
        }
    }
    check(&rt, alloc, &lines, LIMIT);
}

// A control character, a character of two bytes, and half of it.
#[test]
fn bytes_at_the_edges_of_blocks(rt: HostRuntime) {
    let alloc = rt.alloc();
    let mut lines = Stream::new(alloc);
    for letters in 0..=MOST_SPACES {
        add_string(&rt, alloc, &mut lines, letters, b"\x1f", Some(UNCLOSED));
        add_string(&rt, alloc, &mut lines, letters, b"\xc3\xa9", None);
        add_string(&rt, alloc, &mut lines, letters, b"\xc3", Some(NOT_UTF8));
    }
    check(&rt, alloc, &lines, LIMIT);
}

// So many arrays, each in the one before.
pub(super) fn nested(rt: &impl Abort, alloc: Global, levels: usize) -> Vec<u8> {
    let mut line = Vec::new(alloc);
    line.resize(levels, b'[').expect(rt, "memory");
    for _ in 0..levels {
        line.push(b']').expect(rt, "memory");
    }
    line
}

// As many levels as the limit allows, and one more.
fn check_limit(rt: &impl Abort, alloc: Global, depth: u16) {
    let depth = usize::from(depth);
    let mut lines = Stream::new(alloc);
    if depth > 0 {
        let line = nested(rt, alloc, depth);
        let text = std::str::from_utf8(&line).expect(rt, "a text");
        lines.add(rt, 0, &line, &record_of(rt, alloc, text));
    }
    let record = format!(in alloc;
        r#"{{"error":"Syntax","index":{depth},"character":"["}}"#
    ).expect(rt, "memory");
    lines.add(rt, 0, &nested(rt, alloc, depth + 1), &record);
    check(rt, alloc, &lines, depth);
}

#[test]
fn levels_at_the_limit(rt: HostRuntime) {
    for depth in &[0, 1, 2, 1024] {
        check_limit(&rt, rt.alloc(), *depth);
    }
}

// The members `k0` to the one before `end`, with values from 0 on.
fn put_members(rt: &impl Abort, alloc: Global, out: &mut String, end: usize) {
    for number in 0..end {
        if number > 0 {
            out.push(',').expect(rt, "memory");
        }
        let member = format!(in alloc; r#""k{number}":{number}"#).expect(rt, "memory");
        out.push_str(&member).expect(rt, "memory");
    }
}

// About 32 keys, and the first one once more.
#[test]
fn first_key_again(rt: HostRuntime) {
    let alloc = rt.alloc();
    for count in 31..=34usize {
        let mut members = String::new(alloc);
        put_members(&rt, alloc, &mut members, count);
        let line = format!(in alloc; r#"{{{members},"k0":-1}}"#).expect(&rt, "memory");
        let kept = format!(in alloc; "{{\"replies\":[],\"document\":{{{members}}}}}\n").expect(
            &rt, "memory",
        );
        let run = Run::new("[]", line.as_bytes());
        run.expect_by(&rt, alloc, &STEPS, &[Form::Owned, Form::Borrowed], &kept);
    }
}

// A line that is cut after each of its bytes.
const CUT: &str = r#"
 => {"error":"Eof","index":0,"character":null}
{ => {"error":"Syntax","index":0,"character":"{"}
{" => {"error":"Syntax","index":0,"character":null}
{"a => {"error":"Syntax","index":0,"character":null}
{"a" => {"error":"Syntax","index":1,"character":"\""}
{"a": => {"error":"Syntax","index":4,"character":":"}
{"a":[ => {"error":"Syntax","index":5,"character":"["}
{"a":[1 => {"error":"Syntax","index":6,"character":"1"}
{"a":[1] => {"error":"Syntax","index":7,"character":"]"}
{"a":[1]} => {"replies":[],"document":{"a":[1]}}"#;

#[test]
fn cut_line(rt: HostRuntime) {
    let alloc = rt.alloc();
    let mut lines = Stream::new(alloc);
    for row in CUT.lines().skip(1) {
        let (line, record) = split_row(&rt, row);
        lines.add(&rt, 0, line.as_bytes(), record);
    }
    check(&rt, alloc, &lines, LIMIT);
}

// Worked lines that are neither among `ROWS` nor among `ACROSS_BLOCKS`.
const MORE_LINES: [&[u8]; 15] = [
    br#"{"key": "value", "snot": 42}"#,
    br#"{"a":1,"a":2}"#,
    b"7",
    b"null",
    b"{}",
    b"\"\xff",
    b"1\r",
    br#"{"the_answer": 42}"#,
    br#"{"a":[1,"x"],"b":null}"#,
    br#"{"key":1}"#,
    br#"{"1":time}"#,
    b"[null, new]",
    b"[1,[2,3],4]",
    br#"{"some": ["key", "value", 2]}"#,
    br#"{"snot": 1, "badger":[2, 2.5]}"#,
];

// Adds the line once for each of its lengths, cut there.
fn add_cuts(rt: &impl Abort, stream: &mut Vec<u8>, line: &[u8]) {
    for end in 0..=line.len() {
        let cut = line.get(..end).unwrap_or_default();
        stream.extend_from_slice(cut).expect(rt, "memory");
        stream.push(b'\n').expect(rt, "memory");
    }
}

// The worked lines, each cut after each of its bytes.
fn cuts(rt: &impl Abort, alloc: Global) -> Vec<u8> {
    let mut stream = Vec::new(alloc);
    for row in ROWS.lines().skip(1) {
        let (line, _) = split_row(rt, row);
        add_cuts(rt, &mut stream, line.as_bytes());
    }
    for line in &ACROSS_BLOCKS {
        add_cuts(rt, &mut stream, line.as_bytes());
    }
    for line in &MORE_LINES {
        add_cuts(rt, &mut stream, line);
    }
    let object = forty(alloc, 0).expect(rt, "memory");
    add_cuts(rt, &mut stream, object.as_bytes());
    stream
}

fn line_feeds(bytes: &[u8]) -> usize {
    bytes.iter().filter(|byte| **byte == b'\n').count()
}

// Looks for one record a line, whatever a read gives.
fn check_cuts(rt: &impl Abort, alloc: Global, run: Run<'_>, form: Form) {
    let whole = run.output(rt, alloc, form);
    expect_eq(rt, line_feeds(&whole), line_feeds(run.stream));
    for step in &STEPS {
        let records = Run { step: *step, ..run }.output(rt, alloc, form);
        expect_that(rt, "the same records", records == whole);
    }
}

// Each line that is cut gives one record.
#[test]
fn cut_lines(rt: HostRuntime) {
    let stream = cuts(&rt, rt.alloc());
    for form in &FORMS {
        check_cuts(&rt, rt.alloc(), Run::new("[]", &stream), *form);
    }
}
