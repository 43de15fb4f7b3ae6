//! Of `sj_parse` and `sj_tape`: worked reads of tapes, tapes that are printed into one buffer, and that there is memory for
//! what is asked.
use super::{expect_at, expect_bytes, expect_eq, expect_that, is_there};
use sj_base::{Error, ErrorType, TextBuffer, TryTypeError, ValueType};
use sj_parse::{
    Buffers, Deserializer, codepoint_to_utf8, fill_tape, fill_tape_by, fill_tape_padded, to_tape,
    to_tape_with_buffers,
};
use sj_scan::PlainScan;
use sj_tape::{Array, Tape, Value};
use std::alloc::{AllocError, Global};
use std::process::Abort;
use std::test::Fail;

// Appends the compact text of a tape's document.
pub(super) fn put_document(rt: &impl Abort, out: &mut Vec<u8>, tape: &Tape<'_>) {
    if tape.is_empty() {
        panic!(rt; "no document");
    }
    tape.as_value().encode(out).expect(rt, "memory");
}

// Fails unless this is the compact text of the value.
fn expect_value(rt: &impl Abort, alloc: Global, value: Value<'_, '_>, text: &str) {
    let mut out = Vec::new(alloc);
    value.encode(&mut out).expect(rt, "memory");
    expect_bytes(rt, out, text);
}

// Fails unless this is the compact text of the tape's document.
fn expect_document(rt: &impl Abort, alloc: Global, tape: &Tape<'_>, text: &str) {
    let mut out = Vec::new(alloc);
    put_document(rt, &mut out, tape);
    expect_bytes(rt, out, text);
}

// The README prints this test.
#[test]
fn member_of_a_text(rt: HostRuntime) -> Result<(), Fail> {
    let mut text = br#"{"name": "passwd", "size": 3044}"#.to_vec(rt.alloc())?;
    let tape = to_tape(rt.alloc(), &mut text)?;
    let size = tape.as_value().get("size").ok_or("no member")?;
    let mut out = Vec::new(rt.alloc());
    size.encode(&mut out)?;
    assert!(rt; out.as_slice() == b"3044".as_slice());
    Ok(())
}

// Fails unless this is the compact text of the value, printed into a buffer that has printed other texts.
fn expect_printed(rt: &impl Abort, buffer: &mut TextBuffer, value: Value<'_, '_>, text: &str) {
    buffer.clear();
    value.print(buffer).expect(rt, "memory");
    expect_eq(rt, buffer.as_bytes(), text.as_bytes());
}

// A buffer that is kept has nothing of a longer text that was printed before.
#[test]
fn texts_in_one_buffer(rt: HostRuntime) {
    let mut text = *br#"[{"name": "passwd"}, [1, 2]]"#;
    let tape = to_tape(rt.alloc(), &mut text).expect(&rt, "a tape");
    let mut buffer = TextBuffer::new(Vec::new(rt.alloc()));
    expect_printed(
        &rt,
        &mut buffer,
        tape.as_value(),
        r#"[{"name":"passwd"},[1,2]]"#,
    );
    let item = tape.as_value().get_idx(1).expect(&rt, "an item");
    expect_printed(&rt, &mut buffer, item, "[1,2]");
    drop((tape, buffer));
}

fn expect_item(rt: &impl Abort, alloc: Global, array: &Array<'_, '_>, index: usize, text: &str) {
    let item = array.get(index).expect(rt, "an item");
    expect_value(rt, alloc, item, text);
}

// The items of [1,[2,3],4].
pub(super) fn expect_items(rt: &impl Abort, alloc: Global, value: Value<'_, '_>) {
    let array = value.as_array().expect(rt, "an array");
    expect_item(rt, alloc, &array, 0, "1");
    expect_item(rt, alloc, &array, 1, "[2,3]");
    expect_item(rt, alloc, &array, 2, "4");
    expect_that(rt, "no fourth item", !is_there(array.get(3)));
}

#[test]
fn items_of_a_tape(rt: HostRuntime) {
    let mut text = *b"[1,[2,3],4]";
    let tape = to_tape(rt.alloc(), &mut text).expect(&rt, "a tape");
    expect_items(&rt, rt.alloc(), tape.as_value());
}

// The member of a value that is an object.
fn member<'t, 'i>(rt: &impl Abort, value: Value<'t, 'i>, key: &str) -> Option<Value<'t, 'i>> {
    value.try_get(key).expect(rt, "an object")
}

// The members of {"the_answer": 42}.
pub(super) fn expect_answer(rt: &impl Abort, alloc: Global, value: Value<'_, '_>) {
    let found = member(rt, value, "the_answer").expect(rt, "a member");
    expect_value(rt, alloc, found, "42");
    let absent = member(rt, value, "does_not_exist");
    expect_that(rt, "no member", !is_there(absent));
    let no_array = TryTypeError {
        expected: ValueType::Array,
        got: ValueType::Object,
    };
    expect_eq(rt, value.try_get_idx(0).err(), Some(no_array));
}

#[test]
fn by_key(rt: HostRuntime) {
    let mut text = *br#"{"the_answer": 42}"#;
    let tape = to_tape(rt.alloc(), &mut text).expect(&rt, "a tape");
    expect_answer(&rt, rt.alloc(), tape.as_value());
}

// Fails unless this is the first fault of a text.
fn expect_fault(rt: &impl Abort, alloc: Global, text: &str, fault: Error) {
    let mut bytes = text.as_bytes().to_vec(alloc).expect(rt, "memory");
    let found = to_tape(alloc, &mut bytes).err();
    expect_at(rt, text, found, Some(fault));
}

#[test]
fn first_faults(rt: HostRuntime) {
    let no_true = Error::at(ErrorType::ExpectedTrue, 5, b't');
    expect_fault(&rt, rt.alloc(), r#"{"1":time}"#, no_true);
    let no_null = Error::at(ErrorType::ExpectedNull, 7, b'n');
    expect_fault(&rt, rt.alloc(), "[null, new]", no_null);
}

#[test]
fn nodes_of_a_text(rt: HostRuntime) {
    let mut text = *b"[1]";
    let nodes = Deserializer::from_slice(rt.alloc(), &mut text).expect(&rt, "nodes");
    expect_document(&rt, rt.alloc(), &nodes.into_tape(), "[1]");
}

#[test]
fn nodes_with_buffers(rt: HostRuntime) {
    let mut text = *b"[1]";
    let mut buffers = Buffers::with_max_depth(rt.alloc(), 3, 1).expect(&rt, "memory");
    let nodes = Deserializer::from_slice_with_buffers(rt.alloc(), &mut text, &mut buffers);
    let tape = nodes.expect(&rt, "nodes").into_tape();
    expect_document(&rt, rt.alloc(), &tape, "[1]");
}

#[test]
fn tape_with_buffers(rt: HostRuntime) {
    let mut text = *b"[1]";
    let mut buffers = Buffers::new(rt.alloc(), 3).expect(&rt, "memory");
    let tape = to_tape_with_buffers(rt.alloc(), &mut text, &mut buffers);
    expect_document(&rt, rt.alloc(), &tape.expect(&rt, "a tape"), "[1]");
}

#[test]
fn filled_tape(rt: HostRuntime) {
    let mut first = *b"[1]";
    let mut second = *b"[2]";
    let mut buffers = Buffers::new(rt.alloc(), 3).expect(&rt, "memory");
    let mut tape = Tape::empty(rt.alloc());
    fill_tape(&mut first, &mut buffers, &mut tape).expect(&rt, "a tape");
    expect_document(&rt, rt.alloc(), &tape, "[1]");
    fill_tape_by(&mut PlainScan, &mut second, &mut buffers, &mut tape).expect(&rt, "a tape");
    expect_document(&rt, rt.alloc(), &tape, "[2]");
}

// Two hundred bytes of brackets.
fn nested(alloc: Global) -> Result<Vec<u8>, AllocError> {
    let mut text = Vec::new(alloc);
    text.resize(100, b'[')?;
    text.resize(200, b']')?;
    Ok(text)
}

// Reads a text a second time into the room of the first, which takes no memory. If the first reading lacks memory, as
// `oracle/memory.sh` has it, the tape is empty, and the buffers can be used again.
#[test]
fn second_text_of_a_kind(rt: HostRuntime) -> Result<(), Fail> {
    let (mut first, mut second) = (nested(rt.alloc())?, nested(rt.alloc())?);
    let mut third = *b"[1]";
    let mut buffers = Buffers::new(rt.alloc(), 0)?;
    let mut tape = Tape::empty(rt.alloc());
    if let Err(error) = fill_tape(&mut first, &mut buffers, &mut tape) {
        expect_eq(&rt, error, Error::generic(ErrorType::OutOfMemory));
        expect_that(&rt, "an empty tape", tape.is_empty());
        fill_tape(&mut third, &mut buffers, &mut tape)?;
        if tape.is_empty() {
            return Err(Fail::new("no document"));
        }
        let mut out = Vec::new(rt.alloc());
        tape.as_value().encode(&mut out)?;
        expect_eq(&rt, out.as_slice(), b"[1]".as_slice());
        return Err(Fail::new("no memory"));
    }
    let second = fill_tape(&mut second, &mut buffers, &mut tape);
    expect_eq(&rt, second, Ok(()));
    Ok(())
}

// [] with bytes after it, each of which is `byte`, `size` bytes in all.
fn padded(alloc: Global, size: usize, byte: u8) -> Result<Vec<u8>, AllocError> {
    let mut text = b"[]".to_vec(alloc)?;
    text.resize(size, byte)?;
    Ok(text)
}

// Reads [] with 64 of these bytes after it.
fn expect_empty_array(rt: &impl Abort, alloc: Global, buffers: &mut Buffers, byte: u8) {
    let mut text = padded(alloc, 66, byte).expect(rt, "memory");
    let mut tape = Tape::empty(alloc);
    fill_tape_padded(&mut text, 2, buffers, &mut tape).expect(rt, "a tape");
    expect_document(rt, alloc, &tape, "[]");
}

#[test]
fn padding_of_any_bytes(rt: HostRuntime) {
    let mut buffers = Buffers::new(rt.alloc(), 2).expect(&rt, "memory");
    for byte in b" \"\\]x\0\xff" {
        expect_empty_array(&rt, rt.alloc(), &mut buffers, *byte);
    }
}

// Fails unless a length is refused like this.
fn expect_no_length(
    rt: &impl Abort,
    alloc: Global,
    buffers: &mut Buffers,
    size: usize,
    len: usize,
    kind: ErrorType,
) {
    let mut text = padded(alloc, size, b' ').expect(rt, "memory");
    let mut tape = Tape::empty(alloc);
    let fault = fill_tape_padded(&mut text, len, buffers, &mut tape).err();
    expect_eq(rt, fault, Some(Error::generic(kind)));
}

#[test]
fn lengths_that_are_refused(rt: HostRuntime) {
    let mut buffers = Buffers::new(rt.alloc(), 2).expect(&rt, "memory");
    for &(size, len, kind) in &[
        (65, 2, ErrorType::InsufficientPadding),
        (66, 70, ErrorType::InsufficientPadding),
        (66, 4294967296, ErrorType::InputTooLarge),
    ] {
        expect_no_length(&rt, rt.alloc(), &mut buffers, size, len, kind);
    }
}

#[test]
fn codepoints(rt: HostRuntime) {
    for (cp, len, bytes) in &[
        (0x20ac, 3, [0xe2, 0x82, 0xac, 0]),
        (0xd800, 0, [0; 4]),
        (0x110000, 0, [0; 4]),
    ] {
        let mut out = [0; 4];
        expect_eq(&rt, codepoint_to_utf8(*cp, &mut out), *len);
        expect_eq(&rt, out, *bytes);
    }
}
