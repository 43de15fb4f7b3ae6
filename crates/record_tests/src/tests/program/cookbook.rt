//! The runs of docs/COOKBOOK.md.
use super::{Given, expect_of};
use std::alloc::Global;
use std::process::Abort;

const PACKAGE: &str =
    r#"{"package": "adduser", "version": "3.134", "architecture": "all", "installed_size": 686, "section": "admin", "depends": ["passwd"]}
"#;

// Each script, and the record of the package.
const RECIPES: [(&str, &str); 9] = [
    (
        r#"[["get",["package"]]]"#,
        r#"{"replies":[["adduser"]],"document":{"package":"adduser","version":"3.134","architecture":"all","installed_size":686,"section":"admin","depends":["passwd"]}}
"#,
    ),
    (
        r#"[["get",["depends",0]]]"#,
        r#"{"replies":[["passwd"]],"document":{"package":"adduser","version":"3.134","architecture":"all","installed_size":686,"section":"admin","depends":["passwd"]}}
"#,
    ),
    (
        r#"[["insert",[],"essential",true]]"#,
        r#"{"replies":[[]],"document":{"package":"adduser","version":"3.134","architecture":"all","installed_size":686,"section":"admin","depends":["passwd"],"essential":true}}
"#,
    ),
    (
        r#"[["set",["version"],"3.135"]]"#,
        r#"{"replies":[["3.134"]],"document":{"package":"adduser","version":"3.135","architecture":"all","installed_size":686,"section":"admin","depends":["passwd"]}}
"#,
    ),
    (
        r#"[["remove",[],"section"],["insert",[],"area","admin"]]"#,
        r#"{"replies":[["admin"],[]],"document":{"package":"adduser","version":"3.134","architecture":"all","installed_size":686,"depends":["passwd"],"area":"admin"}}
"#,
    ),
    (
        r#"[["push",["depends"],"libc6"]]"#,
        r#"{"replies":[[]],"document":{"package":"adduser","version":"3.134","architecture":"all","installed_size":686,"section":"admin","depends":["passwd","libc6"]}}
"#,
    ),
    (
        r#"[["remove",[],"depends"]]"#,
        r#"{"replies":[[["passwd"]]],"document":{"package":"adduser","version":"3.134","architecture":"all","installed_size":686,"section":"admin"}}
"#,
    ),
    (
        r#"[["len",["depends"]]]"#,
        r#"{"replies":[1],"document":{"package":"adduser","version":"3.134","architecture":"all","installed_size":686,"section":"admin","depends":["passwd"]}}
"#,
    ),
    (
        r#"[["keys",[]]]"#,
        r#"{"replies":[["package","version","architecture","installed_size","section","depends"]],"document":{"package":"adduser","version":"3.134","architecture":"all","installed_size":686,"section":"admin","depends":["passwd"]}}
"#,
    ),
];

const FAULTY: &str = r#"{"a":1}
{"a":tru}
{"a":2}
"#;

const FAULTS: &str = r#"{"replies":[],"document":{"a":1}}
{"error":"ExpectedTrue","index":5,"character":"t"}
{"replies":[],"document":{"a":2}}
"#;

fn expect_records(rt: &impl Abort, alloc: Global, script: &str, lines: &str, records: &str) {
    let given = Given {
        words: &["records", "script.json"],
        script: Ok(script),
    };
    expect_of(rt, alloc, given, lines.as_bytes(), (0, records, ""));
}

#[test]
fn recipes(rt: HostRuntime) {
    for (script, record) in &RECIPES {
        expect_records(&rt, rt.alloc(), script, PACKAGE, record);
    }
}

#[test]
fn faulty_lines(rt: HostRuntime) {
    expect_records(&rt, rt.alloc(), "[]", FAULTY, FAULTS);
}

// Each command of the README on `{"a":[1,2],"b":"x"}`, its reply, and the document after it.
const EXAMPLES: [(&str, &str, &str); 13] = [
    (r#"["get",["a",1]]"#, r#"[2]"#, r#"{"a":[1,2],"b":"x"}"#),
    (
        r#"["contains",[],"b"]"#,
        r#"true"#,
        r#"{"a":[1,2],"b":"x"}"#,
    ),
    (r#"["type",["a"]]"#, r#""array""#, r#"{"a":[1,2],"b":"x"}"#),
    (r#"["len",["a"]]"#, r#"2"#, r#"{"a":[1,2],"b":"x"}"#),
    (r#"["keys",[]]"#, r#"["a","b"]"#, r#"{"a":[1,2],"b":"x"}"#),
    (
        r#"["insert",[],"c",3]"#,
        r#"[]"#,
        r#"{"a":[1,2],"b":"x","c":3}"#,
    ),
    (r#"["remove",[],"b"]"#, r#"["x"]"#, r#"{"a":[1,2]}"#),
    (r#"["push",["a"],3]"#, r#"[]"#, r#"{"a":[1,2,3],"b":"x"}"#),
    (r#"["pop",["a"]]"#, r#"[2]"#, r#"{"a":[1],"b":"x"}"#),
    (
        r#"["set",["b"],null]"#,
        r#"["x"]"#,
        r#"{"a":[1,2],"b":null}"#,
    ),
    (r#"["undo"]"#, r#"false"#, r#"{"a":[1,2],"b":"x"}"#),
    (r#"["reload"]"#, r#"true"#, r#"{"a":[1,2],"b":"x"}"#),
    (r#"["reload_pp"]"#, r#"true"#, r#"{"a":[1,2],"b":"x"}"#),
];

fn expect_example(rt: &impl Abort, alloc: Global, command: &str, reply: &str, document: &str) {
    let line = r#"{"a":[1,2],"b":"x"}"#;
    let script = format!(in alloc; "[{command}]").expect(rt, "memory");
    let record = format!(in alloc; "{{\"replies\":[{reply}],\"document\":{document}}}\n");
    let record = record.expect(rt, "memory");
    expect_records(rt, alloc, &script, line, &record);
}

#[test]
fn examples_of_commands(rt: HostRuntime) {
    for (command, reply, document) in &EXAMPLES {
        expect_example(&rt, rt.alloc(), command, reply, document);
    }
}
