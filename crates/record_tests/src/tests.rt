//! Worked lines and scripts, the display texts of errors, and the program.
mod documents;
mod faults;
mod hostile;
mod kept_buffers;
mod long_lines;
mod memory;
mod program;
mod readers;
mod reloads;
mod repeats;
mod rows;
mod runs;
mod store;
mod undo;
mod writes;

use hostile::nested;
use runs::Run;
use sj_base::{Error, ErrorType};
use sj_records::{CommandFault, Form, RunError, Script, ScriptFault};
use sj_scripts::MemoryOr;
use std::alloc::Global;
use std::fmt::{Debug, Display};
use std::process::Abort;

const LIMIT: usize = 1024;

// More than two blocks of 64 bytes.
const MOST_SPACES: usize = 130;

fn script_of(alloc: Global, text: &str) -> Result<Script, ScriptFault> {
    let mut bytes = Vec::from_slice(alloc, text.as_bytes())?;
    Script::read(alloc, &mut bytes)
}

const FORMS: [Form; 3] = [Form::Owned, Form::Borrowed, Form::Lazy];

// The two parts of a row of a table: a line, and what is wanted for it.
fn split_row<'a>(rt: &impl Abort, row: &'a str) -> (&'a str, &'a str) {
    row.split_once(" => ").expect(rt, "a row with ` => `")
}

// Fails unless both are equal. It is proved once, where an `assert_eq!` is proved together with all that its test holds.
fn expect_eq<T: PartialEq + Debug + Drop>(rt: &impl Abort, found: T, expected: T) {
    assert_eq!(rt; found, expected);
}

// The same of a row of a table or of a form, which it names.
fn expect_at<R: Debug, T: PartialEq + Debug + Drop>(
    rt: &impl Abort,
    row: &R,
    found: T,
    expected: T,
) {
    assert_eq!(rt; found, expected, "at {row:?}");
}

// Fails, and says what was wanted, unless it holds.
fn expect_that(rt: &impl Abort, wanted: &str, holds: bool) {
    assert!(rt; holds, "{wanted}");
}

fn add_line(rt: &impl Abort, text: &mut String, line: &str) {
    text.push_str(line).expect(rt, "memory");
    text.push('\n').expect(rt, "memory");
}

// The record of a line under the empty script.
fn record_of(rt: &impl Abort, alloc: Global, document: &str) -> String {
    format!(in alloc; r#"{{"replies":[],"document":{document}}}"#).expect(rt, "memory")
}

// A stream of lines, their records under the empty script, and those under a reload.
#[derive(Drop)]
struct Stream {
    bytes: Vec<u8>,
    records: String,
    reloaded: String,
}

impl Stream {
    fn new(alloc: Global) -> Stream {
        Stream {
            bytes: Vec::new(alloc),
            records: String::new(alloc),
            reloaded: String::new(alloc),
        }
    }

    // Adds a line after spaces, and its record.
    fn add(&mut self, rt: &impl Abort, spaces: usize, line: &[u8], record: &str) {
        for _ in 0..spaces {
            self.bytes.push(b' ').expect(rt, "memory");
        }
        self.bytes.extend_from_slice(line).expect(rt, "memory");
        self.bytes.push(b'\n').expect(rt, "memory");
        add_line(rt, &mut self.records, record);
        match record.strip_prefix(r#"{"replies":[]"#) {
            Some(document) => {
                let front = r#"{"replies":[true]"#;
                self.reloaded.push_str(front).expect(rt, "memory");
                add_line(rt, &mut self.reloaded, document);
            }
            None => add_line(rt, &mut self.reloaded, record),
        }
    }

    // Puts a line and its record before the others.
    fn put_first(&mut self, rt: &impl Abort, alloc: Global, line: &[u8], record: &str) {
        let mut all = Stream::new(alloc);
        all.add(rt, 0, line, record);
        all.bytes
            .extend_from_slice(&self.bytes)
            .expect(rt, "memory");
        all.records.push_str(&self.records).expect(rt, "memory");
        all.reloaded.push_str(&self.reloaded).expect(rt, "memory");
        *self = all;
    }

    // Looks for the records under the empty script, where the lines come in pieces of `step` bytes.
    fn check(&self, rt: &impl Abort, alloc: Global, depth: usize, step: usize) {
        let run = Run {
            step,
            depth,
            ..Run::new("[]", &self.bytes)
        };
        run.expect(rt, alloc, &FORMS, &self.records);
    }

    // Looks for the records under a reload of each kind.
    fn check_reloads(&self, rt: &impl Abort, alloc: Global, depth: usize) {
        for script in &[r#"[["reload"]]"#, r#"[["reload_pp"]]"#] {
            let run = Run {
                depth,
                ..Run::new(script, &self.bytes)
            };
            run.expect(rt, alloc, &FORMS, &self.reloaded);
        }
    }
}

// The record of each line under a script.
#[test]
fn records(rt: HostRuntime) {
    for (script, stream, records) in &[
        (
            r#"[["get",["key"]]]"#,
            r#"{"key": "value", "snot": 42}
"#,
            r#"{"replies":[["value"]],"document":{"key":"value","snot":42}}
"#,
        ),
        (
            r#"[["get",[1]]]"#,
            r#"[-0,[7]]
"#,
            r#"{"replies":[[[7]]],"document":[0,[7]]}
"#,
        ),
        (
            r#"[["get",[]],["get",[0,"k",1]]]"#,
            r#" [ {"k" : [true,false]} ] 
 
null"#,
            r#"{"replies":[[[{"k":[true,false]}]],[false]],"document":[{"k":[true,false]}]}
{"error":"Eof","index":0,"character":null}
{"replies":[[null],[]],"document":null}
"#,
        ),
        (
            r#"[["get",["package"]],["get",["depends",0]]]"#,
            r#"{"package": "adduser", "version": "3.134", "architecture": "all", "installed_size": 686, "section": "admin", "depends": ["passwd"]}
{"package": "alsa-topology-conf", "version": "1.2.5.1-2", "architecture": "all", "installed_size": 420, "section": "libs", "depends": []}
"#,
            r#"{"replies":[["adduser"],["passwd"]],"document":{"package":"adduser","version":"3.134","architecture":"all","installed_size":686,"section":"admin","depends":["passwd"]}}
{"replies":[["alsa-topology-conf"],[]],"document":{"package":"alsa-topology-conf","version":"1.2.5.1-2","architecture":"all","installed_size":420,"section":"libs","depends":[]}}
"#,
        ),
        (
            r#"[["type",[]]]"#,
            "null",
            r#"{"replies":["null"],"document":null}
"#,
        ),
    ] {
        let run = Run::new(script, stream.as_bytes());
        run.expect_by(&rt, rt.alloc(), &[1, 2, 65536], &FORMS, records);
    }
}

// What the empty script writes for streams that end with a line feed and without one.
#[test]
fn streams(rt: HostRuntime) {
    for (stream, records) in &[
        ("", ""),
        (
            "\n",
            r#"{"error":"Eof","index":0,"character":null}
"#,
        ),
        (
            "null",
            r#"{"replies":[],"document":null}
"#,
        ),
        (
            "1\r\n",
            r#"{"replies":[],"document":1}
"#,
        ),
        (
            "[1]\n[",
            r#"{"replies":[],"document":[1]}
{"error":"Syntax","index":0,"character":"["}
"#,
        ),
    ] {
        let run = Run::new("[]", stream.as_bytes());
        run.expect_by(&rt, rt.alloc(), &[1, 2, 65536], &FORMS, records);
    }
}

// Looks for the report of a script's fault, after what is there.
fn expect_refused(rt: &impl Abort, alloc: Global, script: &str, text: &str) {
    let fault = script_of(alloc, script).err().expect(rt, "a fault");
    let mut out = Vec::from_slice(alloc, b"is ").expect(rt, "memory");
    fault.put_fault(&mut out).expect(rt, "memory");
    expect_at(rt, &script, std::str::from_utf8(&out[3..]), Ok(text));
}

// A script nests at most 1024 levels. One that nests so many is read, and its command has no name.
#[test]
fn deep_scripts(rt: HostRuntime) {
    for (levels, text) in &[(1024, "command 0: NoName"), (1025, "Syntax at 1024")] {
        let script = nested(&rt, rt.alloc(), *levels);
        let script = std::str::from_utf8(&script).expect(&rt, "a text");
        expect_refused(&rt, rt.alloc(), script, text);
    }
}

// Each script that is refused, and the text of its first fault.
const REFUSED: &str = r#"
time => ExpectedTrue at 0
  => Eof at 0
["a => Syntax at 0
[["get",["\q"]]] => InvalidEscape at 10
{} => NotAnArray
[7] => command 0: NotAnArray
[[]] => command 0: NoName
[["redo"]] => command 0: UnknownName
[["get",[]],["frob",[]]] => command 1: UnknownName
[["type",[]],["frob",[]]] => command 1: UnknownName
[["get"]] => command 0: WrongCount
[["get",[-1],1]] => command 0: WrongCount
[["contains",1]] => command 0: WrongCount
[["set",[]]] => command 0: WrongCount
[["insert",1,2]] => command 0: WrongCount
[["pop",[],1]] => command 0: WrongCount
[["reload",[]]] => command 0: WrongCount
[["reload"],["reload_pp",1]] => command 1: WrongCount
[["get",[-1]]] => command 0: BadPath
[["get",[1.0]]] => command 0: BadPath
[["get",[18446744073709551616]]] => command 0: BadPath
[["remove",7,1]] => command 0: BadPath
[["set","a",1]] => command 0: BadPath
[["contains",[],1]] => command 0: BadKey
[["remove",[],null]] => command 0: BadKey
[["insert",[],1,2]] => command 0: BadKey"#;

#[test]
fn refused_scripts(rt: HostRuntime) {
    for row in REFUSED.lines().skip(1) {
        let (script, text) = split_row(&rt, row);
        expect_refused(&rt, rt.alloc(), script, text);
    }
}

// Fails unless this is how the error is displayed.
fn expect_display<E: Display>(rt: &impl Abort, alloc: Global, error: &E, text: &str) {
    let shown = format!(in alloc; "{error}").expect(rt, "memory");
    expect_eq(rt, shown.as_str(), text);
}

#[test]
fn display_texts(rt: HostRuntime) {
    for (error, text) in &[
        (RunError::Memory, "Memory"),
        (RunError::Write, "Write"),
        (RunError::Read, "Read"),
        (RunError::TooManyReads, "TooManyReads"),
    ] {
        expect_display(&rt, rt.alloc(), error, text);
    }
    for (error, text) in &[
        (MemoryOr::Memory, "Memory"),
        (MemoryOr::Refused(CommandFault::NoName), "Refused"),
    ] {
        expect_display(&rt, rt.alloc(), error, text);
    }
    let no_name = ScriptFault::Command {
        place: 0,
        fault: CommandFault::NoName,
    };
    for (fault, text) in &[
        (ScriptFault::Json(Error::generic(ErrorType::Eof)), "Json"),
        (ScriptFault::NotAnArray, "NotAnArray"),
        (no_name, "Command"),
        (ScriptFault::Memory, "Memory"),
    ] {
        expect_display(&rt, rt.alloc(), fault, text);
    }
    for (fault, text) in &[
        (CommandFault::NotAnArray, "NotAnArray"),
        (CommandFault::NoName, "NoName"),
        (CommandFault::UnknownName, "UnknownName"),
        (CommandFault::WrongCount, "WrongCount"),
        (CommandFault::BadPath, "BadPath"),
        (CommandFault::BadKey, "BadKey"),
    ] {
        expect_display(&rt, rt.alloc(), fault, text);
    }
}
