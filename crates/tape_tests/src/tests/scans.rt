//! Of `sj_scan`: worked positions, the two scans beside each other, and the display texts of faults.
use super::objects::colliding_key;
use super::{expect_at, expect_eq, expect_shown};
use sj_scan::{BlockScan, PlainScan, ScanFault, Stage1};
use std::alloc::{AllocError, Global};
use std::process::Abort;

// Scans into a vector with old contents.
fn scanned_by<S: Stage1 + Drop>(
    rt: &impl Abort,
    alloc: Global,
    mut scan: S,
    bytes: &[u8],
) -> Result<Vec<u32>, ScanFault> {
    let mut out = Vec::from_slice(alloc, &[7, 5]).expect(rt, "memory");
    // A condition of `scan`.
    let _len = u32::try_from(bytes.len()).expect(rt, "a length in range");
    scan.scan(bytes, &mut out)?;
    Ok(out)
}

// The answer of both scans, which is to be the same.
fn scanned(rt: &impl Abort, alloc: Global, bytes: &[u8]) -> Result<Vec<u32>, ScanFault> {
    let plain = scanned_by(rt, alloc, PlainScan, bytes);
    let block = scanned_by(rt, alloc, BlockScan, bytes);
    expect_eq(rt, &plain, &block);
    block
}

#[test]
fn positions(rt: HostRuntime) {
    let rows: &[(&str, &[u32])] = &[
        (r#"["a\"b", tru]"#, &[0, 1, 7, 9, 12]),
        (r#""a"b"#, &[0, 3]),
    ];
    for (text, positions) in rows {
        let found = scanned(&rt, rt.alloc(), text.as_bytes()).expect(&rt, "positions");
        expect_at(&rt, text, found.as_slice(), positions);
    }
}

// Texts with something to find near the end of a block, once they stand after spaces, and the lines of the worked rows but
// the object of forty members, which `forty_members` makes.
const TEXTS: &str = r#"1
""
 "\\\"" 
\\"a"b
a\"b c
[tru e]nul
["a\"b", tru]
\
"\\\\","\\\""
\\\\\"\\"
a"b"c"
[true"a"]
["]"]"{,:}
{"key": "value", "snot": 42}
[["get",["key"]],["insert",[],"new",42],["get",["new"]]]
time
[true, falsy]
{"a":1,"a":2}
[-0, 1.50]
["aaaaaaaaaaaaaaaaaaaaaaaaaaaaaaaaaaaaaaaaaaaaaaaaaaaaaaaaaaaaa\\]"]
["aaaaaaaaaaaaaaaaaaaaaaaaaaaaaaaaaaaaaaaaaaaaaaaaaaaaaaaaaaaaa"b]
["aaaaaaaaaaaaaaaaaaaaaaaaaaaaaaaaaaaaaaaaaaaaaaaaaaaaaaaaaaaaa\"]"]
[                                                              12]
7
["\ud83d\ude00","\u0041"]
["\ud83d"]
[1,]
{"a":1,}
1 2
[] 1
[18446744073709551615,-9223372036854775808]
[18446744073709551616]
"a
{"a":[1
[1,
["\"\\\/\b\f\n\r\t\u001F"]
["a\qb"]
["\u12G4"]
[01]
["a"b]
{"a":[1,"x"],"b":null}
[["contains",[],"b"],["contains",["a"],"b"],["type",["a",1]],["keys",[]],["keys",["a"]],["len",["b"]]]
{"the_answer": 42}
{"1":time}
[null, new]
[1,[2,3],4]
{"some": ["key", "value", 2]}
{"snot": 1, "badger":[2, 2.5]}
{"x":{"a":1},"é":"€","😀":[[],{}]}
null
{}
{"key":1}
{:}[,]{:}[,]{:}[,]{:}[,]{:}[,]{:}[,]{:}[,]{:}[,]{:}[,]{:}[,]{:}[,]{:}[,]{:}[,]"#;

// Scans a text up to each of its bytes, after each number of spaces from 0 to 130, more than two blocks.
fn scan_prefixes(rt: &impl Abort, alloc: Global, text: &[u8]) {
    let mut spaced = Vec::new(alloc);
    spaced.resize(130, b' ').expect(rt, "memory");
    spaced.extend_from_slice(text).expect(rt, "memory");
    for end in 130..=spaced.len() {
        for start in 0..=130 {
            let _ = scanned(rt, alloc, &spaced[start..end]);
        }
    }
}

// An object of forty members, whose keys have one hash.
fn forty_members(alloc: Global) -> Result<String, AllocError> {
    let mut text = String::new(alloc);
    for number in 0..40u64 {
        let key = colliding_key(alloc, number)?;
        let opening = if number == 0 { '{' } else { ',' };
        let member = format!(in alloc; r#"{opening}"{key}":{number}"#)?;
        text.push_str(&member)?;
    }
    text.push('}')?;
    Ok(text)
}

#[test]
fn scans_agree(rt: HostRuntime) {
    for text in TEXTS.lines() {
        scan_prefixes(&rt, rt.alloc(), text.as_bytes());
    }
    let object = forty_members(rt.alloc()).expect(&rt, "memory");
    scan_prefixes(&rt, rt.alloc(), object.as_bytes());
    scan_prefixes(&rt, rt.alloc(), b"\"\xff");
    scan_prefixes(&rt, rt.alloc(), b"1\r");
}

#[test]
fn displayed_faults(rt: HostRuntime) {
    for (fault, text) in &[
        (ScanFault::Utf8, "Utf8"),
        (ScanFault::Unclosed, "Unclosed"),
        (ScanFault::Control, "Control"),
        (ScanFault::NoToken, "NoToken"),
        (ScanFault::Memory, "Memory"),
    ] {
        expect_shown(&rt, rt.alloc(), fault, text);
    }
}
