//! Documents of lines: numbers and texts as they are kept and printed.
use super::{LIMIT, MOST_SPACES, Stream, record_of, split_row};
use std::alloc::Global;
use std::process::Abort;

// Documents and their compact texts.
const DOCUMENTS: &str = r#"
null => null
true => true
false => false
-0 => 0
-7 => -7
18446744073709551615 => 18446744073709551615
-9223372036854775808 => -9223372036854775808
1.50 => 1.50
-0e0 => -0e0
1E+5 => 1E+5
[ 0.0 , -0.10e-07 , 1e999999 ] => [0.0,-0.10e-07,1e999999]
18446744073709551616.0 => 18446744073709551616.0
18446744073709551616 => 18446744073709551616
-9223372036854775809 => -9223372036854775809
[-18446744073709551615,1000000000000000000000000000000] => [-18446744073709551615,1000000000000000000000000000000]
{"a":-1.0E-0} => {"a":-1.0E-0}
"\u00e9\n\/" => "é\n/"
"\"\\\/\b\f\n\r\t" => "\"\\/\b\f\n\r\t"
"\u0000\u0008\u0009\u000A\u000b\u000C\u000d\u001F\u0022\u005c" => "\u0000\b\t\n\u000b\f\r\u001f\"\\"
{ "\u0061\"" : [ ] , "" : { } } => {"a\"":[],"":{}}"#;

// The same with characters that can't be seen in a table.
const UNSEEN_DOCUMENTS: [(&str, &str); 5] = [
    (r#""\u0020\u007f\u0080\u07FF""#, "\" \u{7f}\u{80}\u{7ff}\""),
    (
        r#""\u0800\ud7ff\uE000\uffff""#,
        "\"\u{800}\u{d7ff}\u{e000}\u{ffff}\"",
    ),
    (r#""\ud800\udc00\uDBFF\uDFFF""#, "\"\u{10000}\u{10ffff}\""),
    (
        "\"\u{7f}\u{e9}\u{20ac}\u{1f600}\"",
        "\"\u{7f}\u{e9}\u{20ac}\u{1f600}\"",
    ),
    ("\t[1 ,2\r, {} ]\t\r", "[1,2,{}]"),
];

// Looks for the record of a document by itself, and after 1 to 130 spaces.
fn check_document(rt: &impl Abort, alloc: Global, line: &str, text: &str) {
    let record = record_of(rt, alloc, text);
    let mut lines = Stream::new(alloc);
    for spaces in 0..=MOST_SPACES {
        lines.add(rt, spaces, line.as_bytes(), &record);
        if spaces == 0 {
            lines.check(rt, alloc, LIMIT, 65536);
        }
    }
    lines.check(rt, alloc, LIMIT, 65536);
}

#[test]
fn in_compact_form(rt: HostRuntime) {
    for row in DOCUMENTS.lines().skip(1) {
        let (line, text) = split_row(&rt, row);
        check_document(&rt, rt.alloc(), line, text);
    }
    for (line, text) in &UNSEEN_DOCUMENTS {
        check_document(&rt, rt.alloc(), line, text);
    }
}
