//! Worked lines, each with its record under the empty script and under a reload.
use super::{LIMIT, MOST_SPACES, Stream, record_of, split_row};
use std::alloc::Global;
use std::process::Abort;

// Each row is a line and its record.
pub(super) const ROWS: &str = r#"
time => {"error":"ExpectedTrue","index":0,"character":"t"}
[true, falsy] => {"error":"ExpectedFalse","index":7,"character":"f"}
 => {"error":"Eof","index":0,"character":null}
["\ud83d\ude00","\u0041"] => {"replies":[],"document":["😀","A"]}
["\ud83d"] => {"error":"InvalidUnicodeCodepoint","index":2,"character":"\\"}
[1,] => {"error":"InternalError","index":3,"character":"]"}
{"a":1,} => {"error":"ExpectedObjectKey","index":7,"character":"}"}
1 2 => {"error":"TrailingData","index":0,"character":"1"}
[] 1 => {"error":"InternalError","index":1,"character":"]"}
[18446744073709551615,-9223372036854775808] => {"replies":[],"document":[18446744073709551615,-9223372036854775808]}
[18446744073709551616] => {"replies":[],"document":[18446744073709551616]}
[18446744073709551616x] => {"error":"InvalidNumber","index":1,"character":"1"}
"a => {"error":"Syntax","index":0,"character":null}
{"a":[1 => {"error":"Syntax","index":6,"character":"1"}
[1, => {"error":"Syntax","index":2,"character":","}
["\"\\\/\b\f\n\r\t\u001F"] => {"replies":[],"document":["\"\\/\b\f\n\r\t\u001f"]}
["a\qb"] => {"error":"InvalidEscape","index":3,"character":"\\"}
["\u12G4"] => {"error":"InvalidUnicodeEscape","index":2,"character":"\\"}
[01] => {"error":"InvalidNumber","index":1,"character":"0"}
["a"b] => {"error":"ExpectedArrayComma","index":4,"character":"b"}
["aaaaaaaaaaaaaaaaaaaaaaaaaaaaaaaaaaaaaaaaaaaaaaaaaaaaaaaaaaaaa"b] => {"error":"ExpectedArrayComma","index":64,"character":"b"}
[                                                              12] => {"replies":[],"document":[12]}
\" => {"error":"InternalError","index":0,"character":"\\"}
[true"a"] => {"error":"ExpectedTrue","index":1,"character":"t"}
[1"a"] => {"error":"InvalidNumber","index":1,"character":"1"}
[-0, 1.50] => {"replies":[],"document":[0,1.50]}"#;

// Lines whose strings end at the edge of a block of 64 bytes. In the first, bytes 63 and 64 are backslashes, and a bracket
// stands in the string after them. In the second, byte 63 is a backslash and byte 64 the quote that it escapes.
pub(super) const ACROSS_BLOCKS: [&str; 2] = [
    r#"["aaaaaaaaaaaaaaaaaaaaaaaaaaaaaaaaaaaaaaaaaaaaaaaaaaaaaaaaaaaaa\\]"]"#,
    r#"["aaaaaaaaaaaaaaaaaaaaaaaaaaaaaaaaaaaaaaaaaaaaaaaaaaaaaaaaaaaaa\"]"]"#,
];

// Many lines with their records, in order and in reverse order.
#[derive(Drop)]
struct Streams {
    all: Stream,
    reversed: Stream,
}

// Looks for the record of a line by itself, and adds both to the streams.
fn check_row(rt: &impl Abort, alloc: Global, streams: &mut Streams, line: &[u8], record: &str) {
    let mut one = Stream::new(alloc);
    one.add(rt, 0, line, record);
    for step in &[1, 63, 65536] {
        one.check(rt, alloc, LIMIT, *step);
    }
    streams.all.add(rt, 0, line, record);
    streams.reversed.put_first(rt, alloc, line, record);
}

// Looks for the records of each line by itself.
fn check_rows(rt: &impl Abort, alloc: Global) -> Streams {
    let mut streams = Streams {
        all: Stream::new(alloc),
        reversed: Stream::new(alloc),
    };
    for row in ROWS.lines().skip(1) {
        let (line, record) = split_row(rt, row);
        check_row(rt, alloc, &mut streams, line.as_bytes(), record);
    }
    for line in &ACROSS_BLOCKS {
        let record = record_of(rt, alloc, line);
        check_row(rt, alloc, &mut streams, line.as_bytes(), &record);
    }
    let not_utf8 = r#"{"error":"InvalidUtf8","index":0,"character":null}"#;
    check_row(rt, alloc, &mut streams, b"\"\xff", not_utf8);
    streams
}

// Each line by itself, and all in one stream, in order and in reverse order.
#[test]
fn of_worked_lines(rt: HostRuntime) {
    let streams = check_rows(&rt, rt.alloc());
    for step in &[1, 63, 65536] {
        streams.all.check(&rt, rt.alloc(), LIMIT, *step);
        streams.reversed.check(&rt, rt.alloc(), LIMIT, *step);
    }
    streams.all.check_reloads(&rt, rt.alloc(), LIMIT);
}

// Adds a line after each number of spaces up to 130, with the same record.
fn add_behind_spaces(rt: &impl Abort, lines: &mut Stream, line: &[u8], record: &str) {
    for spaces in 1..=MOST_SPACES {
        lines.add(rt, spaces, line, record);
    }
}

// Those lines that are documents.
#[test]
fn of_documents_behind_spaces(rt: HostRuntime) {
    let alloc = rt.alloc();
    let mut lines = Stream::new(alloc);
    for row in ROWS.lines().skip(1) {
        let (line, record) = split_row(&rt, row);
        if record.starts_with(r#"{"replies""#) {
            add_behind_spaces(&rt, &mut lines, line.as_bytes(), record);
        }
    }
    for line in &ACROSS_BLOCKS {
        let record = record_of(&rt, alloc, line);
        add_behind_spaces(&rt, &mut lines, line.as_bytes(), &record);
    }
    lines.check(&rt, alloc, LIMIT, 65536);
}

// Under limits of few levels.
#[test]
fn of_limits(rt: HostRuntime) {
    for (depth, line, record) in &[
        (0, "[]", r#"{"error":"Syntax","index":0,"character":"["}"#),
        (0, "7", r#"{"replies":[],"document":7}"#),
        (1, "[[]]", r#"{"error":"Syntax","index":1,"character":"["}"#),
        (2, "[[]]", r#"{"replies":[],"document":[[]]}"#),
    ] {
        let mut lines = Stream::new(rt.alloc());
        lines.add(&rt, 0, line.as_bytes(), record);
        lines.check(&rt, rt.alloc(), *depth, 65536);
        lines.check_reloads(&rt, rt.alloc(), *depth);
    }
}

// Two lines under the limit of no level, in one stream: in order, and in reverse order.
#[test]
fn of_the_limit_zero(rt: HostRuntime) {
    let alloc = rt.alloc();
    let mut lines = Stream::new(alloc);
    let mut reversed = Stream::new(alloc);
    for (line, record) in &[
        ("[]", r#"{"error":"Syntax","index":0,"character":"["}"#),
        ("7", r#"{"replies":[],"document":7}"#),
    ] {
        lines.add(&rt, 0, line.as_bytes(), record);
        reversed.put_first(&rt, alloc, line.as_bytes(), record);
    }
    lines.check(&rt, alloc, 0, 65536);
    reversed.check(&rt, alloc, 0, 65536);
}
