//! Of `sj_tape`: which worked lists of nodes are a document, the worked indented text, and sinks that refuse.
ghost use Rattle.std.specs.Prelude.{◌≡◌, ◌≢◌, []};
ghost use Rattle.sj_tape.specs.Views.{tape_nodes};

use super::tapes::{expect_answer, expect_items, put_document};
use super::{expect_at, expect_bytes, expect_eq, expect_that};
use sj_base::{Counted, StaticNode, WriteFault};
use sj_reads::ValueAsScalar;
use sj_tape::{Node, Tape, Value};
use std::alloc::Global;
use std::io;
use std::io::{ErrorKind, Write};
use std::process::Abort;

// The nodes that the words stand for: `[len,count` an array, `{len,count` an object, `null` and numbers themselves, and
// other words strings. A number with a minus is an `I64`.
fn nodes_of<'i>(rt: &impl Abort, alloc: Global, words: &'i str) -> Vec<Node<'i>> {
    let mut nodes = Vec::new(alloc);
    for word in words.split_whitespace() {
        nodes.push(node_of(rt, word)).expect(rt, "memory");
    }
    nodes
}

fn node_of<'i>(rt: &impl Abort, word: &'i str) -> Node<'i> {
    if let Some(sizes) = word.strip_prefix('[') {
        let (len, count) = sizes_of(rt, sizes);
        return Node::Array { len, count };
    }
    if let Some(sizes) = word.strip_prefix('{') {
        let (len, count) = sizes_of(rt, sizes);
        return Node::Object { len, count };
    }
    scalar_of(word)
}

fn sizes_of(rt: &impl Abort, sizes: &str) -> (usize, usize) {
    let (len, count) = sizes.split_once(',').expect(rt, "a count");
    (
        len.parse().expect(rt, "a length"),
        count.parse().expect(rt, "a count"),
    )
}

fn scalar_of(word: &str) -> Node<'_> {
    if word == "null" {
        return Node::Static(StaticNode::Null);
    }
    if let Ok(number) = word.parse() {
        return Node::Static(StaticNode::U64(number));
    }
    match word.parse() {
        Ok(number) => Node::Static(StaticNode::I64(number)),
        Err(_) => Node::String(word),
    }
}

// Creates a tape that must be accepted.
fn tape_of<'i>(rt: &impl Abort, alloc: Global, words: &'i str) -> Tape<'i>
    ensures { tape_nodes result ≢ [] }
{
    Tape::new(nodes_of(rt, alloc, words)).expect(rt, "a tape")
}

// Fails unless this is the compact text of the document. The text is empty where the nodes are no document.
fn expect_document(rt: &impl Abort, alloc: Global, words: &str, text: &str) {
    let mut out = Vec::new(alloc);
    if let Some(tape) = Tape::new(nodes_of(rt, alloc, words)) {
        put_document(rt, &mut out, &tape);
    }
    expect_at(rt, words, out.as_slice(), text.as_bytes());
}

#[test]
fn preorders_of_one_document(rt: HostRuntime) {
    for (words, text) in &[
        ("[3,5 1 [2,2 2 3 4", "[1,[2,3],4]"),
        ("[3,4 1 [2,2 2 3 4", ""),
        ("{1,2 a null", r#"{"a":null}"#),
        ("{1,2 1 null", ""),
        ("null null", ""),
        ("-7", "-7"),
        ("", ""),
    ] {
        expect_document(&rt, rt.alloc(), words, text);
    }
}

// The views of a tape that is made of nodes answer as those of one that was read.
#[test]
fn views_of_nodes(rt: HostRuntime) {
    let items = tape_of(&rt, rt.alloc(), "[3,5 1 [2,2 2 3 4");
    expect_items(&rt, rt.alloc(), items.as_value());
    let answer = tape_of(&rt, rt.alloc(), "{1,2 the_answer 42");
    expect_answer(&rt, rt.alloc(), answer.as_value());
}

#[test]
fn document_null(rt: HostRuntime) {
    let tape = Tape::null(rt.alloc()).expect(&rt, "memory");
    expect_that(&rt, "null", tape.as_value().is_null());
}

#[test]
fn indented_text(rt: HostRuntime) {
    let tape = tape_of(&rt, rt.alloc(), "{2,6 a [2,2 1 {0,0 b [0,0");
    let mut out = Vec::new(rt.alloc());
    tape.as_value().encode_pp(&mut out).expect(&rt, "memory");
    let text = "{\n  \"a\": [\n    1,\n    {}\n  ],\n  \"b\": []\n}";
    expect_bytes(&rt, out, text);
}

// Takes one byte a write, and `room` in all. Then it fails with the kind, or takes nothing where there is none.
#[derive(Drop)]
struct Narrow {
    taken: Vec<u8>,
    room: usize,
    refusal: Option<ErrorKind>,
}

impl Write for Narrow {
    fn write(&mut self, buf: &[u8]) -> io::Result<usize> {
        let taken = buf.len().min(1).min(self.room);
        if taken == 0 {
            return match self.refusal {
                Some(kind) => Err(io::Error::from(kind)),
                None => Ok(0),
            };
        }
        self.taken.extend_from_slice(&buf[..taken])?;
        self.room -= taken;
        Ok(taken)
    }

    fn flush(&mut self) -> io::Result<()> {
        Ok(())
    }
}

// Fails unless the write ends with a fault after the first three bytes of the value.
fn expect_no_room(
    rt: &impl Abort,
    alloc: Global,
    value: &Value<'_, '_>,
    refusal: Option<ErrorKind>,
) {
    let mut output = Narrow {
        taken: Vec::new(alloc),
        room: 3,
        refusal,
    };
    let mut sink = Counted::new(&mut output);
    let result = value.write(&mut sink);
    let _ = sink.into_inner();
    expect_eq(rt, result, Err(WriteFault));
    expect_bytes(rt, output.taken, r#"{"a"#);
}

#[test]
fn sinks_that_refuse(rt: HostRuntime) {
    let tape = tape_of(&rt, rt.alloc(), "{1,2 a null");
    let value = tape.as_value();
    expect_no_room(&rt, rt.alloc(), &value, Some(ErrorKind::Other));
    expect_no_room(&rt, rt.alloc(), &value, Some(ErrorKind::Interrupted));
    expect_no_room(&rt, rt.alloc(), &value, None);
}
