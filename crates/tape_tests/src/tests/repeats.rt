//! The first repeated key of a tape.
use super::expect_at;
use sj_parse::to_tape;
use sj_tape::{Repeat, RepeatPart};
use std::alloc::Global;
use std::process::Abort;

fn push_part(rt: &impl Abort, path: &mut String, part: &RepeatPart<'_>) {
    let pushed = match part {
        RepeatPart::Key(key) => write!(path, "{key}/"),
        RepeatPart::Item(place) => write!(path, "{place}/"),
    };
    pushed.expect(rt, "memory");
}

// The path to a key that is repeated, and the key after it, with slashes between. Without one it is `none`.
fn path_of(rt: &impl Abort, alloc: Global, repeat: Option<Repeat<'_>>) -> String {
    let mut path = String::new(alloc);
    match repeat {
        Some(repeat) => {
            for part in &repeat.path {
                push_part(rt, &mut path, part);
            }
            path.push_str(repeat.key).expect(rt, "memory");
        }
        None => path.push_str("none").expect(rt, "memory"),
    }
    path
}

// Fails unless this is the path to the first key that a text repeats.
fn expect_repeat(rt: &impl Abort, alloc: Global, text: &str, expected: &str) {
    let mut bytes = Vec::from_slice(alloc, text.as_bytes()).expect(rt, "memory");
    let tape = to_tape(alloc, &mut bytes).expect(rt, "a tape");
    if tape.is_empty() {
        panic!(rt; "a tape without nodes");
    }
    let repeat = tape.as_value().first_repeat(alloc).expect(rt, "memory");
    let path = path_of(rt, alloc, repeat);
    expect_at(rt, text, path.as_str(), expected);
}

// The members `k0` to the one before `end`, and then a last one.
fn many_members(rt: &impl Abort, alloc: Global, end: usize, last: &str) -> String {
    let mut text = String::from_str(alloc, "{").expect(rt, "memory");
    for number in 0..end {
        write!(text, r#""k{number}":[{number}],"#).expect(rt, "memory");
    }
    write!(text, "{last}}}").expect(rt, "memory");
    text
}

#[test]
fn first_repeats(rt: HostRuntime) {
    let text = r#"[0,{"a":[{"":1,"b":[],"\u0062":2}],"a":3}]"#;
    expect_repeat(&rt, rt.alloc(), text, "1/a/0/b");
    expect_repeat(&rt, rt.alloc(), r#"{"a":{"a":[]},"":"a"}"#, "none");
}

// Objects of few members, whose keys are compared, and of many, whose keys are listed.
#[test]
fn repeats_among_many(rt: HostRuntime) {
    for end in &[1, 31, 32, 33, 46, 47, 48, 100] {
        for (last, path) in &[(r#""k0":{}"#, "k0"), (r#""k":{}"#, "none")] {
            let text = many_members(&rt, rt.alloc(), *end, last);
            expect_repeat(&rt, rt.alloc(), &text, path);
        }
    }
}
