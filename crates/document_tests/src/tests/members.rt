//! Of `sj_owned`: an object of so many members that their keys are looked up in a set while it is built.
use super::{borrowed_of, expect_eq, expect_made, owned_of};
use sj_owned::OwnedValue;
use sj_reads::ValueGetScalar;
use std::alloc::Global;
use std::process::Abort;

fn push(rt: &impl Abort, text: &mut String, part: &str) {
    text.push_str(part).expect(rt, "memory");
}

// An object of the members `k0` to `k1099`, and of two of them once more, if that is said.
fn members(rt: &impl Abort, alloc: Global, repeats: &str) -> String {
    let mut text = String::from_str(alloc, "{").expect(rt, "memory");
    for number in 0..1100u32 {
        let member = format!(in alloc; r#""k{number}":{number},"#).expect(rt, "memory");
        push(rt, &mut text, &member);
    }
    push(rt, &mut text, r#""z":[]"#);
    push(rt, &mut text, repeats);
    push(rt, &mut text, "}");
    text
}

// Looks for one of these members in a document.
fn expect_member(rt: &impl Abort, document: &OwnedValue, key: &str, number: u32) {
    expect_eq(rt, document.get_u32(key), Some(number));
}

#[test]
fn first_of_each_key(rt: HostRuntime) {
    let line = members(&rt, rt.alloc(), r#","k1099":-1,"k0":-1"#);
    let kept = members(&rt, rt.alloc(), "");
    let document = owned_of(&rt, rt.alloc(), &line);
    expect_member(&rt, &document, "k0", 0);
    expect_member(&rt, &document, "k700", 700);
    expect_member(&rt, &document, "k1099", 1099);
    expect_made(&rt, rt.alloc(), document, &kept);
    let mut text = line.as_bytes().to_vec(rt.alloc()).expect(&rt, "memory");
    let document = borrowed_of(&rt, rt.alloc(), &mut text);
    expect_made(&rt, rt.alloc(), document, &kept);
}
