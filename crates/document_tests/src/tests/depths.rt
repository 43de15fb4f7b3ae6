//! Of `sj_owned`: how many levels documents nest.
use super::{borrowed_of, expect_at, owned_of};
use sj_object::ObjectKey;
use sj_owned::{Literal, Value};
use std::process::Abort;

// Fails unless the document of a text nests so many levels.
fn expect_levels<K: ObjectKey + Drop, D: Literal + Drop>(
    rt: &impl Abort,
    json: &str,
    value: Value<K, D>,
    levels: usize,
) {
    expect_at(rt, json, value.depth().expect(rt, "memory"), levels);
}

// Owned and borrowed documents of one text.
#[test]
fn of_texts(rt: HostRuntime) {
    for &(json, levels) in &[("7", 0), ("[]", 1), ("{}", 1), (r#"[[1],{"a":[2]}]"#, 3)] {
        expect_levels(&rt, json, owned_of(&rt, rt.alloc(), json), levels);
        let mut text = json.as_bytes().to_vec(rt.alloc()).expect(&rt, "memory");
        let value = borrowed_of(&rt, rt.alloc(), &mut text);
        expect_levels(&rt, json, value, levels);
    }
}
