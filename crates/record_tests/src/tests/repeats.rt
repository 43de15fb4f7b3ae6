//! Lines that repeat a key, where that is refused.
use super::runs::Run;
use super::{FORMS, add_line, split_row};
use sj_records::Repeats;

// Each line, and its record under a script without commands.
const ROWS: &str = r#"{"a":{"x":1,"x":2},"a":3} => {"error":"RepeatedKey","path":["a"],"key":"x"}
{"a":1,"a":{"x":1,"x":2}} => {"error":"RepeatedKey","path":[],"key":"a"}
[1,{"k":0,"k":1}] => {"error":"RepeatedKey","path":[1],"key":"k"}
{"a":1,"a":tru} => {"error":"ExpectedTrue","index":11,"character":"t"}
{"a":{"a":1}} => {"replies":[],"document":{"a":{"a":1}}}
{"a":1,"\u0061":2} => {"error":"RepeatedKey","path":[],"key":"a"}
[[],{"\"":[0,{"\n":1,"\u000a":2}]}] => {"error":"RepeatedKey","path":[1,"\"",1],"key":"\n"}
{"":1,"":2} => {"error":"RepeatedKey","path":[],"key":""}
{"a":[{"b":1},{"b":1}],"b":"a"} => {"replies":[],"document":{"a":[{"b":1},{"b":1}],"b":"a"}}"#;

// One after the other, so that a refused line leaves no trace in the next.
#[test]
fn refused_lines(rt: HostRuntime) {
    let alloc = rt.alloc();
    let mut stream = String::new(alloc);
    let mut records = String::new(alloc);
    for row in ROWS.lines() {
        let (line, record) = split_row(&rt, row);
        add_line(&rt, &mut stream, line);
        add_line(&rt, &mut records, record);
    }
    let run = Run {
        repeats: Repeats::Refuse,
        ..Run::new("[]", stream.as_bytes())
    };
    run.expect(&rt, alloc, &FORMS, &records);
}

// A script doesn't run on a refused line. Of a value that it writes the first of repeated keys is kept.
#[test]
fn scripts_on_refused_lines(rt: HostRuntime) {
    let stream = r#"{"a":1,"a":2}
{"a":1,"b":{}}
"#;
    let records = r#"{"error":"RepeatedKey","path":[],"key":"a"}
{"replies":[[1],[{}],true,[{"c":3}],true],"document":{"a":2,"b":{}}}
"#;
    let script =
        r#"[["insert",[],"a",2],["set",["b"],{"c":3,"c":4}],["reload"],["get",["b"]],["undo"]]"#;
    let run = Run {
        repeats: Repeats::Refuse,
        ..Run::new(script, stream.as_bytes())
    };
    run.expect(&rt, rt.alloc(), &FORMS, records);
}
