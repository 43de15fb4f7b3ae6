//! What no clause says: the texts of `clap`, that a run with enough memory ends well, which fault comes first, and that
//! the output is flushed.
mod cookbook;
mod system;

use super::readers::Pieces;
use super::{expect_display, expect_eq, expect_that};
use records_program::program::program;
use records_program::{Fault, LoadFault, read_rest};
use sj_base::Counted;
use std::alloc::Global;
use std::io;
use std::io::{ErrorKind, Read, Write};
use std::process::Abort;

const HELP: &str = "\
Runs a script on each JSON line of standard input, and writes a record for it

Usage: records [OPTIONS] <SCRIPT>

Arguments:
  <SCRIPT>  The file with the script, an array of commands

Options:
      --form <FORM>     The form of each document: owned, borrowed or lazy [default: owned]
      --depth <LEVELS>  The most levels that a document may nest, from 0 to 1024 [default: 1024]
      --repeats <RULE>  Whether the script runs on a document that repeats a key: keep or refuse [default: keep]
  -h, --help            Print help

Commands of a script:
  [\"get\", PATH]                 [value], or [] where PATH selects nothing
  [\"contains\", PATH, KEY]       whether the object has the key
  [\"type\", PATH]                null, bool, integer, decimal, string, array or object
  [\"len\", PATH]                 the number of items or members
  [\"keys\", PATH]                the keys of the object, in order
  [\"insert\", PATH, KEY, VALUE]  sets a member; [old value], or [] for a new key
  [\"remove\", PATH, KEY]         removes a member; [old value], or []
  [\"push\", PATH, VALUE]         appends an item; []
  [\"pop\", PATH]                 removes the last item; [item], or []
  [\"set\", PATH, VALUE]          replaces the value; [old value]
  [\"undo\"]                      takes back the newest write; true, or false if there is none
  [\"reload\"]                    prints the document and reads that text in its place; true, or false if it is too long
  [\"reload_pp\"]                 the same with the indented text

PATH is an array of keys and of indexes from 0; [] is the whole document.
A command that is refused has a word as its reply, such as \"NoSuchPath\".

Records, one for each line:
  {\"replies\":[REPLY,...],\"document\":VALUE}       a document, as it is after the commands
  {\"error\":KIND,\"index\":BYTE,\"character\":TEXT}   the first fault of a line that is no document
  {\"error\":\"RepeatedKey\",\"path\":PATH,\"key\":KEY}  a repeated key, with --repeats refuse
TEXT is null if the fault is one of the whole line.

Exit status: 0, or 1 if memory, the input or the output failed, or 2 if the arguments or the script are refused,
or SCRIPT can't be read.
";

const NO_SCRIPT: &str = "\
error: the following required arguments were not provided:
  <SCRIPT>

Usage: records <SCRIPT>

For more information, try '--help'.
";

const TAPE: &str = "\
error: invalid value 'tape' for '--form <FORM>'
  [possible values: owned, borrowed, lazy]

Usage: records [OPTIONS] <SCRIPT>

For more information, try '--help'.
";

const DROP: &str = "\
error: invalid value 'drop' for '--repeats <RULE>'
  [possible values: keep, refuse]

Usage: records [OPTIONS] <SCRIPT>

For more information, try '--help'.
";

const TOO_DEEP: &str = "\
error: invalid value '1025' for '--depth <LEVELS>': 1025 is not in 0..=1024

For more information, try '--help'.
";

const LINE: &str = "{\"key\": \"value\", \"snot\": 42}\n";

const SCRIPT: &str = r#"[["get",["key"]]]"#;

const RECORD: &str = "{\"replies\":[[\"value\"]],\"document\":{\"key\":\"value\",\"snot\":42}}\n";

// Takes so many bytes and then fails, as does its flush where `is_stuck`.
#[derive(Drop)]
struct Narrow {
    taken: Vec<u8>,
    room: usize,
    is_stuck: bool,
    is_flushed: bool,
}

impl Narrow {
    fn new(alloc: Global, room: usize, is_stuck: bool) -> Narrow {
        Narrow {
            taken: Vec::new(alloc),
            room,
            is_stuck,
            is_flushed: false,
        }
    }
}

impl Write for Narrow {
    fn write(&mut self, buf: &[u8]) -> io::Result<usize> {
        let taken = buf.len().min(self.room);
        if taken == 0 {
            return Err(io::Error::from(ErrorKind::Other));
        }
        self.taken.extend_from_slice(&buf[..taken])?;
        self.room -= taken;
        self.is_flushed = false;
        Ok(taken)
    }

    fn flush(&mut self) -> io::Result<()> {
        if self.is_stuck {
            return Err(io::Error::from(ErrorKind::Other));
        }
        self.is_flushed = true;
        Ok(())
    }
}

// What the program is given. Each file has the same script.
#[derive(Clone, Copy)]
struct Given<'a> {
    words: &'a [&'a str],
    script: Result<&'a str, LoadFault>,
}

impl<'a> Given<'a> {
    fn new(words: &'a [&'a str]) -> Given<'a> {
        Given {
            words,
            script: Ok(SCRIPT),
        }
    }

    fn load(&self, alloc: Global) -> Result<Vec<u8>, LoadFault> {
        let script = self.script?;
        Ok(Vec::from_slice(alloc, script.as_bytes())?)
    }
}

const RUN: &[&str] = &["records", "get.json"];

// The status of the program, and what it writes to `faults`.
fn run_program<I: Read + Drop>(
    alloc: Global,
    given: Given<'_>,
    input: I,
    output: &mut Narrow,
) -> (u8, Vec<u8>) {
    let mut faults = Counted::new(Vec::new(alloc));
    let load = |_name: &str| given.load(alloc);
    let status = program(alloc, given.words, load, input, output, &mut faults);
    (status, faults.into_inner())
}

// Runs the program, and looks for this status, output and line.
fn expect<I: Read + Drop>(
    rt: &impl Abort,
    alloc: Global,
    given: Given<'_>,
    input: I,
    output: &mut Narrow,
    want: (u8, &[u8], &str),
) {
    let (status, written, line) = want;
    let (found, faults) = run_program(alloc, given, input, output);
    expect_eq(rt, found, status);
    expect_eq(rt, output.taken.as_slice(), written);
    expect_eq(rt, faults.as_slice(), line.as_bytes());
}

// The same where the input is these bytes, and the output takes all.
fn expect_of(
    rt: &impl Abort,
    alloc: Global,
    given: Given<'_>,
    input: &[u8],
    want: (u8, &str, &str),
) {
    let (status, written, line) = want;
    let mut output = Narrow::new(alloc, usize::MAX, false);
    let want = (status, written.as_bytes(), line);
    expect(rt, alloc, given, input, &mut output, want);
}

// Looks for a line of an error, whatever it says.
fn expect_error(rt: &impl Abort, alloc: Global, words: &[&str]) {
    let mut output = Narrow::new(alloc, usize::MAX, false);
    let input: &[u8] = b"";
    let (status, faults) = run_program(alloc, Given::new(words), input, &mut output);
    expect_eq(rt, status, 2);
    expect_that(rt, "an error", faults.starts_with(b"error: "));
    expect_that(rt, "whole lines", faults.ends_with(b"\n"));
    expect_that(rt, "no output", output.taken.is_empty());
}

#[test]
fn refuses_arguments(rt: HostRuntime) {
    let words: [&[&str]; 3] = [
        &["records", "a.json", "b.json"],
        &["records", "--frob", "a.json"],
        &["records", "--version"],
    ];
    for words in &words {
        expect_error(&rt, rt.alloc(), words);
    }
    let texts: [(&[&str], &str); 5] = [
        (&["records"], NO_SCRIPT),
        (&["records_cli"], NO_SCRIPT),
        (&["records", "--form", "tape", "a.json"], TAPE),
        (&["records", "--repeats", "drop", "a.json"], DROP),
        (&["records", "--depth", "1025", "a.json"], TOO_DEEP),
    ];
    for (words, text) in &texts {
        expect_of(&rt, rt.alloc(), Given::new(words), b"", (2, "", *text));
    }
}

// Looks for the help, with the script and the input left alone.
fn expect_help(rt: &impl Abort, alloc: Global, words: &[&str]) {
    let mut input = Pieces::new(LINE.as_bytes(), usize::MAX);
    input.failure = Some(ErrorKind::Other);
    let mut output = Narrow::new(alloc, usize::MAX, false);
    let given = Given {
        words,
        script: Err(LoadFault::Memory),
    };
    let want = (0, HELP.as_bytes(), "");
    expect(rt, alloc, given, &mut input, &mut output, want);
    expect_eq(rt, input.bytes.len(), LINE.len());
    expect_that(rt, "a flush", output.is_flushed);
}

#[test]
fn helps(rt: HostRuntime) {
    for words in &[
        ["records", "--help"],
        ["records", "-h"],
        ["out/records_cli", "--help"],
    ] {
        expect_help(&rt, rt.alloc(), words);
    }
}

// Looks for the first bytes of a text, in an output that fails after them.
fn expect_write_fault(
    rt: &impl Abort,
    alloc: Global,
    given: Given<'_>,
    input: &[u8],
    output: &mut Narrow,
    text: &str,
) {
    let written = text
        .as_bytes()
        .get(..output.room)
        .expect(rt, "no more room");
    expect(
        rt,
        alloc,
        given,
        input,
        output,
        (1, written, "records: write\n"),
    );
}

#[test]
fn help_cannot_be_written(rt: HostRuntime) {
    for (room, is_stuck) in &[(5, false), (HELP.len(), true)] {
        let mut output = Narrow::new(rt.alloc(), *room, *is_stuck);
        let given = Given::new(&["records", "--help"]);
        expect_write_fault(&rt, rt.alloc(), given, b"", &mut output, HELP);
    }
}

#[test]
fn refuses_scripts(rt: HostRuntime) {
    for (script, status, line) in &[
        (Err(LoadFault::Memory), 1, "records: memory\n"),
        (
            Err(LoadFault::Unreadable),
            2,
            "records: cannot read script\n",
        ),
        (Ok("{}"), 2, "records: script: NotAnArray\n"),
        (
            Ok(r#"[["frob"]]"#),
            2,
            "records: script: command 0: UnknownName\n",
        ),
        (
            Ok(r#"[["get"]]"#),
            2,
            "records: script: command 0: WrongCount\n",
        ),
        (Ok(r#"["a"#), 2, "records: script: Syntax at 0\n"),
        (
            Ok(r#"[["get",[01]]]"#),
            2,
            "records: script: InvalidNumber at 9\n",
        ),
    ] {
        let given = Given {
            words: RUN,
            script: *script,
        };
        expect_of(
            &rt,
            rt.alloc(),
            given,
            LINE.as_bytes(),
            (*status, "", *line),
        );
    }
}

// Looks for the records of lines, and for the flush after them.
fn expect_flushed(rt: &impl Abort, alloc: Global, lines: &str, records: &str) {
    let mut output = Narrow::new(alloc, usize::MAX, false);
    let want = (0, records.as_bytes(), "");
    expect(
        rt,
        alloc,
        Given::new(RUN),
        lines.as_bytes(),
        &mut output,
        want,
    );
    expect_that(rt, "a flush", output.is_flushed);
}

#[test]
fn writes_records(rt: HostRuntime) {
    let alloc = rt.alloc();
    let lines = format!(in alloc; "{LINE}{LINE}").expect(&rt, "memory");
    let records = format!(in alloc; "{RECORD}{RECORD}").expect(&rt, "memory");
    expect_flushed(&rt, alloc, "", "");
    expect_flushed(&rt, alloc, LINE, RECORD);
    expect_flushed(&rt, alloc, &lines, &records);
}

// Looks for the records before an input's failure, which are flushed where they can be.
fn expect_read_fault(rt: &impl Abort, alloc: Global, bytes: &[u8], step: usize, is_stuck: bool) {
    let mut input = Pieces::new(bytes, step);
    input.failure = Some(ErrorKind::Other);
    let mut output = Narrow::new(alloc, usize::MAX, is_stuck);
    let want = (1, RECORD.as_bytes(), "records: read\n");
    expect(rt, alloc, Given::new(RUN), input, &mut output, want);
    expect_eq(rt, output.is_flushed, !is_stuck);
}

#[test]
fn input_fails_in_mid_stream(rt: HostRuntime) {
    let bytes = format!(in rt.alloc(); "{LINE}[1").expect(&rt, "memory");
    for (step, is_stuck) in &[(65536, false), (1, false), (65536, true)] {
        expect_read_fault(&rt, rt.alloc(), bytes.as_bytes(), *step, *is_stuck);
    }
}

#[test]
fn output_fails(rt: HostRuntime) {
    for room in 0..=RECORD.len() {
        let mut output = Narrow::new(rt.alloc(), room, true);
        let given = Given::new(RUN);
        expect_write_fault(&rt, rt.alloc(), given, LINE.as_bytes(), &mut output, RECORD);
    }
}

#[test]
fn display_texts(rt: HostRuntime) {
    for (fault, text) in &[
        (LoadFault::Memory, "Memory"),
        (LoadFault::Unreadable, "Unreadable"),
    ] {
        expect_display(&rt, rt.alloc(), fault, text);
    }
    for (fault, text) in &[
        (Fault::Memory, "Memory"),
        (Fault::Read, "Read"),
        (Fault::Write, "Write"),
        (Fault::Arguments(String::new(rt.alloc())), "Arguments"),
        (Fault::Unreadable, "Unreadable"),
        (Fault::Script(Vec::new(rt.alloc())), "Script"),
    ] {
        expect_display(&rt, rt.alloc(), fault, text);
    }
}

// Reads three bytes, a failure and their end in at most so many reads.
fn expect_read(
    rt: &impl Abort,
    alloc: Global,
    kind: Option<ErrorKind>,
    reads: u64,
    want: Result<(), LoadFault>,
) {
    let mut bytes = Vec::new(alloc);
    let mut slow = Pieces::new(b"abc", 1);
    slow.failure = kind;
    expect_eq(rt, read_rest(&mut slow, &mut bytes, reads), want);
    expect_eq(rt, bytes.as_slice(), b"abc".as_slice());
}

#[test]
fn reads_to_the_end(rt: HostRuntime) {
    for (kind, reads, want) in &[
        (None, 4, Ok(())),
        (None, 3, Err(LoadFault::Unreadable)),
        (Some(ErrorKind::Other), 9, Err(LoadFault::Unreadable)),
        (Some(ErrorKind::OutOfMemory), 9, Err(LoadFault::Unreadable)),
        (Some(ErrorKind::Interrupted), 5, Ok(())),
        (Some(ErrorKind::Interrupted), 4, Err(LoadFault::Unreadable)),
    ] {
        expect_read(&rt, rt.alloc(), *kind, *reads, *want);
    }
}

#[test]
fn takes_forms_and_depths(rt: HostRuntime) {
    let alloc = rt.alloc();
    let too_deep = "{\"error\":\"Syntax\",\"index\":1,\"character\":\"[\"}\n";
    for (form, document) in &[
        ("owned", "{\"a\":1}"),
        ("borrowed", "{\"a\":1}"),
        ("lazy", "{\"a\":1,\"a\":2}"),
    ] {
        let records = format!(in alloc;
            "{{\"replies\":[[]],\"document\":{document}}}\n{too_deep}"
        ).expect(&rt, "memory");
        let words = ["records", "--form", *form, "--depth", "1", "get.json"];
        let lines = b"{\"a\":1,\"a\":2}\n[[]]\n";
        expect_of(&rt, alloc, Given::new(&words), lines, (0, &records, ""));
    }
}

#[test]
fn takes_rules_for_repeated_keys(rt: HostRuntime) {
    let kept = "{\"replies\":[[]],\"document\":{\"a\":1}}\n";
    let refused = "{\"error\":\"RepeatedKey\",\"path\":[],\"key\":\"a\"}\n";
    for (rule, record) in &[("keep", kept), ("refuse", refused)] {
        let words = ["records", "get.json", "--repeats", *rule];
        let given = Given::new(&words);
        expect_of(
            &rt,
            rt.alloc(),
            given,
            br#"{"a":1,"a":2}"#,
            (0, *record, ""),
        );
    }
}
