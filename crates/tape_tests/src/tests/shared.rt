//! Of `sj_base` and `sj_reads`: printed texts, the display texts of errors, worked rows, and that there is memory for what
//! is asked.
use super::{expect_at, expect_bytes, expect_debug, expect_eq, expect_shown, expect_that};
use sj_base::{
    AccessError, Counted, Decimal, DecimalBuf, DecimalCow, Error, ErrorType, Layout, Reads, Scalar,
    StaticNode, TextBuffer, Trace, TryCopy, TryTypeError, ValueType, WriteFault, print_text,
    put_break, put_int, put_string, put_text,
};
use sj_reads::ValueAsScalar;
use std::alloc::{AllocError, Global};
use std::borrow::CowStr;
use std::mem::size_of;
use std::process::Abort;

fn expect_string(rt: &impl Abort, alloc: Global, string: &str, text: &str) {
    let mut out = Vec::new(alloc);
    put_string(&mut out, string).expect(rt, "memory");
    expect_bytes(rt, out, text);
}

#[test]
fn strings(rt: HostRuntime) {
    for (string, text) in &[
        ("", r#""""#),
        ("a\"b\\\n\u{e9}", r#""a\"b\\\né""#),
        ("\u{1f}/\u{7f}", "\"\\u001f/\u{7f}\""),
    ] {
        expect_string(&rt, rt.alloc(), string, text);
    }
}

// The text of a scalar, by both printers.
fn expect_scalar(rt: &impl Abort, alloc: Global, scalar: &Scalar<'_>, text: &str) {
    let mut out = Vec::new(alloc);
    put_text(&mut out, scalar).expect(rt, "memory");
    expect_bytes(rt, out, text);
    let mut buffer = TextBuffer::new(Vec::new(alloc));
    print_text(&mut buffer, scalar).expect(rt, "memory");
    expect_bytes(rt, buffer.into_vec(), text);
}

#[test]
fn scalars(rt: HostRuntime) {
    let alloc = rt.alloc();
    expect_scalar(&rt, alloc, &Scalar::Static(StaticNode::Null), "null");
    expect_scalar(&rt, alloc, &Scalar::Static(StaticNode::Bool(true)), "true");
    expect_scalar(&rt, alloc, &Scalar::Static(StaticNode::I64(-3)), "-3");
    expect_scalar(&rt, alloc, &Scalar::Text("a\"b"), r#""a\"b""#);
    let literal = Decimal::new("1.50").expect(&rt, "a decimal");
    expect_scalar(&rt, alloc, &Scalar::Literal(literal), "1.50");
}

// The pieces alone: no value stands after the key, and no item in the list.
fn put_pieces(out: &mut Vec<u8>) -> Result<(), AllocError> {
    let mut object = Layout::Indented(0).open_object(out)?;
    object.key("a", out)?;
    object.close(out)?;
    let mut list = Layout::Compact.open_list(out)?;
    list.next(out)?;
    list.close(out)
}

// An integer, a line's beginning, and layouts.
#[test]
fn pieces(rt: HostRuntime) {
    let mut out = Vec::new(rt.alloc());
    put_int(&mut out, i64::MIN).expect(&rt, "memory");
    put_break(&mut out, 2).expect(&rt, "memory");
    put_pieces(&mut out).expect(&rt, "memory");
    let text = "-9223372036854775808\n    {\n  \"a\": \n}[]";
    expect_bytes(&rt, out, text);
}

#[test]
fn error_texts(rt: HostRuntime) {
    let alloc = rt.alloc();
    let error = Error::at(ErrorType::ExpectedTrue, 5, b't');
    expect_shown(&rt, alloc, &error, "ExpectedTrue at character 5 ('t')");
    let met = TryTypeError {
        expected: ValueType::I64,
        got: ValueType::Bool,
    };
    expect_shown(&rt, alloc, &met, "TryTypeError");
    for (fault, text) in &[
        (AccessError::NotAnObject, "NotAnObject"),
        (AccessError::NotAnArray, "NotAnArray"),
        (AccessError::Memory, "Memory"),
    ] {
        expect_shown(&rt, alloc, fault, text);
    }
    expect_shown(&rt, alloc, &WriteFault, "WriteFault");
}

// A buffer shows its text, and not the room behind it.
#[test]
fn debug_of_buffer(rt: HostRuntime) {
    let mut buffer = TextBuffer::new(Vec::new(rt.alloc()));
    print_text(&mut buffer, &Scalar::Static(StaticNode::I64(-3))).expect(&rt, "memory");
    expect_debug(&rt, rt.alloc(), &buffer, "TextBuffer([45, 51])");
}

fn copy_of<T: TryCopy>(rt: &impl Abort, value: &T) -> T {
    value.try_clone().expect(rt, "memory")
}

#[test]
fn integers_and_types(rt: HostRuntime) {
    expect_eq(&rt, StaticNode::I64(5), StaticNode::U64(5));
    let copy = copy_of(&rt, &StaticNode::I64(5));
    expect_eq(&rt, copy.value_type(), ValueType::I64);
    let too_large = TryTypeError {
        expected: ValueType::U64,
        got: ValueType::U64,
    };
    expect_eq(&rt, StaticNode::U64(300).try_as_u8(), Err(too_large));
    let no_integer = TryTypeError {
        expected: ValueType::I64,
        got: ValueType::Bool,
    };
    expect_eq(&rt, StaticNode::Bool(true).try_as_i32(), Err(no_integer));
}

// The text of a copy of a literal of its own, and of a copy of what holds that.
fn expect_copies(rt: &impl Abort, owned: DecimalBuf, text: &str) {
    expect_eq(rt, copy_of(rt, &owned).as_decimal().as_str(), text);
    let cow = DecimalCow::Owned(owned);
    expect_eq(rt, copy_of(rt, &cow).as_decimal().as_str(), text);
}

// A literal of its own is copied, by itself and in what holds it.
fn expect_literal(rt: &impl Abort, alloc: Global, text: &str) {
    let literal = Decimal::new(text).expect(rt, "a decimal");
    let owned = DecimalBuf::new(alloc, literal).expect(rt, "memory");
    expect_copies(rt, owned, text);
}

#[test]
fn decimals(rt: HostRuntime) {
    for text in &[
        "1.50",
        "-0e0",
        "1E+5",
        "18446744073709551616",
        "-9223372036854775809",
    ] {
        expect_literal(&rt, rt.alloc(), text);
    }
    for text in &[
        "1",
        "-0",
        "18446744073709551615",
        "-9223372036854775808",
        "018446744073709551616",
        "01.5",
        "1.",
        ".5",
        "1e",
        "+1.5",
        "",
    ] {
        expect_at(&rt, text, Decimal::new(text).is_none(), true);
    }
}

// The text of a copy of a text of its own, and of a copy of what holds that.
fn expect_text_copies(rt: &impl Abort, text: String) {
    expect_eq(rt, copy_of(rt, &text).as_str(), "text");
    let owned = CowStr::Owned(text);
    expect_eq(rt, copy_of(rt, &owned).as_str(), "text");
}

fn is_borrowed_text(text: CowStr<'_>) -> bool {
    matches!(text, CowStr::Borrowed("text"))
}

#[test]
fn copies_of_texts(rt: HostRuntime) {
    let text = String::from_str(rt.alloc(), "text").expect(&rt, "memory");
    expect_text_copies(&rt, text);
    let copy = copy_of(&rt, &CowStr::Borrowed("text"));
    expect_that(&rt, "a borrowed copy", is_borrowed_text(copy));
}

#[test]
fn counts_take_no_room(rt: HostRuntime) {
    expect_eq(&rt, size_of::<Counted<u64>>(), size_of::<u64>());
    expect_eq(&rt, size_of::<Trace>(), 0);
    expect_eq(&rt, size_of::<Reads<'_, u32>>(), size_of::<&[u32]>());
}
