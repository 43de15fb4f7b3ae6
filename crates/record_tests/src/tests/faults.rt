//! The first fault of a line, kind by kind, and of the same line after spaces.
use super::{LIMIT, MOST_SPACES, Stream, split_row};
use std::alloc::{AllocError, Global};
use std::process::Abort;

// A fault of the whole line has no place.
fn record_of_fault(
    alloc: Global,
    kind: &str,
    place: Option<(usize, &str)>,
) -> Result<String, AllocError> {
    match place {
        Some((index, character)) => format!(in alloc;
            r#"{{"error":"{kind}","index":{index},"character":"{character}"}}"#
        ),
        None => format!(in alloc; r#"{{"error":"{kind}","index":0,"character":null}}"#),
    }
}

// Looks for the record of a line, and for its records after 1 to 130 spaces. The index moves along.
fn compare_line(
    rt: &impl Abort,
    alloc: Global,
    depth: usize,
    line: &[u8],
    kind: &str,
    place: Option<(u16, &str)>,
) {
    let mut lines = Stream::new(alloc);
    for spaces in 0..=MOST_SPACES {
        let moved = match place {
            Some((index, character)) => Some((usize::from(index) + spaces, character)),
            None => None,
        };
        let record = record_of_fault(alloc, kind, moved).expect(rt, "memory");
        lines.add(rt, spaces, line, &record);
        if spaces == 0 {
            lines.check(rt, alloc, depth, 65536);
        }
    }
    lines.check(rt, alloc, depth, 65536);
}

// The kind of a fault, and its index and character where it has a place.
fn split_fault<'a>(rt: &impl Abort, fault: &'a str) -> (&'a str, Option<(u16, &'a str)>) {
    let Some((kind, place)) = fault.split_once(' ') else {
        return (fault, None);
    };
    let (index, character) = place.split_once(' ').expect(rt, "a character");
    let index = index.parse().expect(rt, "an index");
    (kind, Some((index, character)))
}

// Compares the rows of a table, which begins with a line feed. A row is a line, ` => `, and the kind, the index and the
// character of its first fault, with the character written as in a JSON string. A fault of the whole line has its kind alone.
fn compare(rt: &impl Abort, alloc: Global, depth: usize, table: &str) {
    for row in table.lines().skip(1) {
        let (line, fault) = split_row(rt, row);
        let (kind, place) = split_fault(rt, fault);
        compare_line(rt, alloc, depth, line.as_bytes(), kind, place);
    }
}

// Tests on all bytes of a line, in the order UTF-8, closed strings, control characters in them, a token at all.
const OF_WHOLE_LINES: &str = r#"
"a => Syntax
" => Syntax
[1] "a => Syntax
"a\" => Syntax
["a\\\"] => Syntax
["a\\"]" => Syntax
[\"a"] => Syntax
{"a => Syntax
time "a => Syntax
 => Eof
  => Eof"#;

// A byte that begins no value, as the root, after a colon and after a comma in an array.
const WHERE_NO_VALUE_BEGINS: &str = r#"
: => InternalError 0 :
] => InternalError 0 ]
}, => InternalError 0 }
\" => InternalError 0 \\
True => InternalError 0 T
+1 => InternalError 0 +
.5 => InternalError 0 .
/ => InternalError 0 /
é => InternalError 0 Ã
😀 => InternalError 0 ð
{"a":] => InternalError 5 ]
{"a":} => InternalError 5 }
{"a":,"b":1} => InternalError 5 ,
{"a": :1} => InternalError 6 :
{"a":x} => InternalError 5 x
{"\u0061":'a'} => InternalError 10 '
[1,] => InternalError 3 ]
[1,,2] => InternalError 3 ,
[1,} => InternalError 3 }
[1,: => InternalError 3 :
[1, ÿ] => InternalError 4 Ã"#;

// After the bracket that begins an array, and after an item.
const IN_ARRAYS: &str = r#"
[,1] => ExpectedArrayContent 1 ,
[} => ExpectedArrayContent 1 }
[:] => ExpectedArrayContent 1 :
[True] => ExpectedArrayContent 1 T
[\] => ExpectedArrayContent 1 \\
[[1],[ é]] => ExpectedArrayContent 7 Ã
["a"b] => ExpectedArrayComma 4 b
["a""b"] => ExpectedArrayComma 4 \"
["\u0061":1] => ExpectedArrayComma 9 :
[1 "\q"] => ExpectedArrayComma 3 \"
[1 2] => ExpectedArrayComma 3 2
[1} => ExpectedArrayComma 2 }
[true false] => ExpectedArrayComma 6 f
[[]1] => ExpectedArrayComma 3 1
[{}{}] => ExpectedArrayComma 3 {
[[1]x => ExpectedArrayComma 4 x
[1.5 \] => ExpectedArrayComma 5 \\"#;

// Behind the brace that begins an object, a comma in an object, a key and a member.
const IN_OBJECTS: &str = r#"
{1:2} => ExpectedObjectContent 1 1
{] => ExpectedObjectContent 1 ]
{, => ExpectedObjectContent 1 ,
{ {}:1} => ExpectedObjectContent 2 {
{\"a"b":1} => ExpectedObjectContent 1 \\
{"a":1,} => ExpectedObjectKey 7 }
{"a":1,,} => ExpectedObjectKey 7 ,
{"a":1,2:3} => ExpectedObjectKey 7 2
{"a":1,["b"]} => ExpectedObjectKey 7 [
{"a":[{"b":"\n",null:1}]} => ExpectedObjectKey 16 n
{"a" 1} => ExpectedObjectColon 5 1
{"a"} => ExpectedObjectColon 4 }
{"a","b"} => ExpectedObjectColon 4 ,
{"a""b"} => ExpectedObjectColon 4 \"
{"a"[1]} => ExpectedObjectColon 4 [
{"a":1,"\u0062"=2} => ExpectedObjectColon 15 =
{"a":1 2} => ExpectedMapComma 7 2
{"a":1] => ExpectedMapComma 6 ]
{"a":1:2} => ExpectedMapComma 6 :
{"a":{}{}} => ExpectedMapComma 7 {
{"a":[]"b":1} => ExpectedMapComma 7 \"
{"a":"\"" "b"} => ExpectedMapComma 10 \""#;

// The fault stands at the last token.
const OF_LINES_CUT_SHORT: &str = r#"
[ => Syntax 0 [
{ => Syntax 0 {
[1 => Syntax 1 1
[-1.5e3 => Syntax 1 -
[1, => Syntax 2 ,
[true => Syntax 1 t
[[] => Syntax 2 ]
[{} => Syntax 2 }
[[[ => Syntax 2 [
["a" => Syntax 1 \"
["\ud83d\ude00" => Syntax 1 \"
["\u0041", => Syntax 9 ,
{"a" => Syntax 1 \"
{"a": => Syntax 4 :
{"a":1 => Syntax 5 1
{"a":1, => Syntax 6 ,
{"a":[1 => Syntax 6 1
{"a":[1] => Syntax 7 ]
{"a":{"b":1} => Syntax 11 }"#;

// The fault stands at the backslash of the first wrong escape.
const OF_ESCAPES: &str = r#"
"\q" => InvalidEscape 1 \\
["a\qb"] => InvalidEscape 3 \\
{"\q":1} => InvalidEscape 2 \\
["\U0041"] => InvalidEscape 2 \\
["\'"] => InvalidEscape 2 \\
["\0"] => InvalidEscape 2 \\
["\ "] => InvalidEscape 2 \\
["\é"] => InvalidEscape 2 \\
["\u0041\n\q" 1 => InvalidEscape 10 \\
["\n\q\u12"] => InvalidEscape 4 \\
["😀\q"] => InvalidEscape 6 \\
["\u"] => InvalidUnicodeEscape 2 \\
["\u12"] => InvalidUnicodeEscape 2 \\
["\u123"] => InvalidUnicodeEscape 2 \\
["\u12G4"] => InvalidUnicodeEscape 2 \\
["\u+123"] => InvalidUnicodeEscape 2 \\
["\u 123"] => InvalidUnicodeEscape 2 \\
["\u12é"] => InvalidUnicodeEscape 2 \\
["\u12\q"] => InvalidUnicodeEscape 2 \\
{"a":"\u0041\u004"} => InvalidUnicodeEscape 12 \\
["\ud83"] => InvalidUnicodeEscape 2 \\
["\ud83g\ude00"] => InvalidUnicodeEscape 2 \\"#;

// Halves of surrogate pairs. The fault stands at the high one's backslash, where there is one.
const OF_SURROGATES: &str = r#"
["\ud800"] => InvalidUnicodeCodepoint 2 \\
["\uDBFF"] => InvalidUnicodeCodepoint 2 \\
["\udc00"] => InvalidUnicodeCodepoint 2 \\
["\uDFFF"] => InvalidUnicodeCodepoint 2 \\
{"\ude00":1} => InvalidUnicodeCodepoint 2 \\
["\ud83d\u0041"] => InvalidUnicodeCodepoint 2 \\
["\ud83d\ue000"] => InvalidUnicodeCodepoint 2 \\
["\ud83d\uzzzz"] => InvalidUnicodeCodepoint 2 \\
["\ud83d\ude0"] => InvalidUnicodeCodepoint 2 \\
["\ud83d\n"] => InvalidUnicodeCodepoint 2 \\
["\ud83d\\ude00"] => InvalidUnicodeCodepoint 2 \\
["\ud83dx\ude00"] => InvalidUnicodeCodepoint 2 \\
["\ude00\ud83d"] => InvalidUnicodeCodepoint 2 \\
["\ud83d\ud83d\ude00"] => InvalidUnicodeCodepoint 2 \\
["\ud83d\ude00\ude00"] => InvalidUnicodeCodepoint 14 \\
["A\u0041\ud83d"] => InvalidUnicodeCodepoint 9 \\"#;

// A token is left after the root: the fault stands at a scalar, or at a container's closing bracket.
const BEHIND_THE_ROOT: &str = r#"
1 2 => TrailingData 0 1
-1.5] => TrailingData 0 -
true, => TrailingData 0 t
null null => TrailingData 0 n
false:x => TrailingData 0 f
"a"b => TrailingData 0 \"
"a""b" => TrailingData 0 \"
 "\n" 1 => TrailingData 1 \"
"\u0041" "\q" => TrailingData 0 \"
[] 1 => InternalError 1 ]
[], => InternalError 1 ]
{}{} => InternalError 1 }
[1]] => InternalError 2 ]
[[]] x => InternalError 3 ]
{"a":1}} => InternalError 6 }
[]"a" => InternalError 1 ]
["\u0041"] 1 => InternalError 9 ]
[]é => InternalError 1 ]"#;

// A line with two faults. The one of the earlier token is the answer, and a scalar, a string or a key is judged when its
// token is read.
const OF_TWO_THE_FIRST: &str = r#"
[01 02] => InvalidNumber 1 0
1x 2 => InvalidNumber 0 1
"\q" 1 => InvalidEscape 1 \\
{"\q" 1} => InvalidEscape 2 \\
{"a":"\ud83d" => InvalidUnicodeCodepoint 6 \\
[tru => ExpectedTrue 1 t
[1,2 3, => ExpectedArrayComma 5 3
{"a":[nul} => ExpectedNull 6 n
[] [ => InternalError 1 ]"#;

const OF_LITERALS: &str = r#"
t => ExpectedTrue 0 t
tru => ExpectedTrue 0 t
time => ExpectedTrue 0 t
tRUE => ExpectedTrue 0 t
true1 => ExpectedTrue 0 t
trueé => ExpectedTrue 0 t
[true\] => ExpectedTrue 1 t
[true"a"] => ExpectedTrue 1 t
{"1":time} => ExpectedTrue 5 t
[true, falsy] => ExpectedFalse 7 f
f => ExpectedFalse 0 f
[false,fals] => ExpectedFalse 7 f
{"\n":falsee} => ExpectedFalse 6 f
[false"a"] => ExpectedFalse 1 f
n => ExpectedNull 0 n
nul => ExpectedNull 0 n
[null, new] => ExpectedNull 7 n
[nullnull] => ExpectedNull 1 n
{"a":null"b":1} => ExpectedNull 5 n"#;

const OF_NUMBERS: &str = r#"
- => InvalidNumber 0 -
[-] => InvalidNumber 1 -
--1 => InvalidNumber 0 -
-a => InvalidNumber 0 -
-"1" => InvalidNumber 0 -
01 => InvalidNumber 0 0
[01] => InvalidNumber 1 0
[-00] => InvalidNumber 1 -
[01.5] => InvalidNumber 1 0
[1.] => InvalidNumber 1 1
[1.e5] => InvalidNumber 1 1
[1.5.2] => InvalidNumber 1 1
[2e] => InvalidNumber 1 2
[2e+] => InvalidNumber 1 2
[2E-,1] => InvalidNumber 1 2
[2e5.0] => InvalidNumber 1 2
0x10 => InvalidNumber 0 0
1_000 => InvalidNumber 0 1
[1"a"] => InvalidNumber 1 1
[1"]"] => InvalidNumber 1 1
[1\"] => InvalidNumber 1 1
{"a":[0,1x]} => InvalidNumber 8 1
[18446744073709551616x] => InvalidNumber 1 1
[-9223372036854775809-] => InvalidNumber 1 -
018446744073709551616 => InvalidNumber 0 0"#;

#[test]
fn of_each_kind(rt: HostRuntime) {
    for table in &[
        OF_WHOLE_LINES,
        WHERE_NO_VALUE_BEGINS,
        IN_ARRAYS,
        IN_OBJECTS,
        OF_LINES_CUT_SHORT,
        OF_LITERALS,
        OF_NUMBERS,
        OF_ESCAPES,
        OF_SURROGATES,
        BEHIND_THE_ROOT,
        OF_TWO_THE_FIRST,
    ] {
        compare(&rt, rt.alloc(), LIMIT, table);
    }
}

// The same tests, on bytes that can't be seen in a table.
const OF_UNSEEN_BYTES: [(&[u8], &str); 16] = [
    (b"\"\xff", "InvalidUtf8"),
    (b"\xff", "InvalidUtf8"),
    (b" \x80 ", "InvalidUtf8"),
    (b"[\"\xc3\"]", "InvalidUtf8"),
    (b"[\"\xc0\xaf\"]", "InvalidUtf8"),
    (b"[\"\xed\xa0\x80\"]", "InvalidUtf8"),
    (b"[\"\xf4\x90\x80\x80\"]", "InvalidUtf8"),
    (b"[\"\x1f\xff", "InvalidUtf8"),
    (b"time \xff", "InvalidUtf8"),
    (b"[1]\xc3", "InvalidUtf8"),
    (b"\"\x1f", "Syntax"),
    (b"\"\x1f\"", "Syntax"),
    (b"[\"a\",\"\x00\"]", "Syntax"),
    (b"{\"\t\":1}", "Syntax"),
    (b"time \"\r\"", "Syntax"),
    (b"\t \r", "Eof"),
];

#[test]
fn of_unseen_bytes(rt: HostRuntime) {
    for (line, kind) in &OF_UNSEEN_BYTES {
        compare_line(&rt, rt.alloc(), LIMIT, line, kind, None);
    }
}

// Characters that can't be seen in a table.
const OF_UNSEEN_CHARACTERS: [(&str, &str, u16, &str); 15] = [
    ("\u{0}", "InternalError", 0, r"\u0000"),
    ("\u{8}", "InternalError", 0, r"\b"),
    ("\u{b}", "InternalError", 0, r"\u000b"),
    ("\u{c}", "InternalError", 0, r"\f"),
    ("\u{1f}", "InternalError", 0, r"\u001f"),
    ("\u{7f}", "InternalError", 0, "\u{7f}"),
    ("\u{80}", "InternalError", 0, "\u{c2}"),
    ("\u{feff}1", "InternalError", 0, "\u{ef}"),
    ("\u{10ffff}", "InternalError", 0, "\u{f4}"),
    ("[\u{1}]", "ExpectedArrayContent", 1, r"\u0001"),
    ("{\"a\":null \u{a0}}", "ExpectedMapComma", 10, "\u{c2}"),
    ("[123 \t\r", "Syntax", 1, "1"),
    ("true\u{c}", "ExpectedTrue", 0, "t"),
    ("{\"a\":null\u{a0}}", "ExpectedNull", 5, "n"),
    ("9\u{663}", "InvalidNumber", 0, "9"),
];

#[test]
fn of_unseen_characters(rt: HostRuntime) {
    for (line, kind, index, character) in &OF_UNSEEN_CHARACTERS {
        let place = Some((*index, *character));
        compare_line(&rt, rt.alloc(), LIMIT, line.as_bytes(), kind, place);
    }
}

// The fault stands at the bracket that would nest too deep. A bracket that begins no value has another fault.
const NO_LEVELS: &str = r#"
[] => Syntax 0 [
{} => Syntax 0 {
[x => Syntax 0 [
1[ => TrailingData 0 1"#;

const ONE_LEVEL: &str = r#"
[[]] => Syntax 1 [
[[ => Syntax 1 [
[0, {}] => Syntax 4 {
{"a":[]} => Syntax 5 [
{"a":{}} => Syntax 5 {
[tru,[]] => ExpectedTrue 1 t
[1[ => ExpectedArrayComma 2 [
{[ => ExpectedObjectContent 1 [
{"a"{ => ExpectedObjectColon 4 {
{"a":1,{ => ExpectedObjectKey 7 {
{"a":1[ => ExpectedMapComma 6 [
[][ => InternalError 1 ]"#;

const TWO_LEVELS: &str = r#"
[[],[[]]] => Syntax 5 [
[0,{"a":[]}] => Syntax 8 [
{"a":[1],"\u0062":[2,{}]} => Syntax 21 {"#;

#[test]
fn of_depth(rt: HostRuntime) {
    for (depth, table) in &[(0, NO_LEVELS), (1, ONE_LEVEL), (2, TWO_LEVELS)] {
        compare(&rt, rt.alloc(), *depth, table);
    }
}
