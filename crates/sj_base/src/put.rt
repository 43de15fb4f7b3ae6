//! JSON text of strings, integers and scalars.
//!
//! The `put_` functions append to a vector, all of the text or nothing. [`print_text`] appends to any [`Output`]. If that fails,
//! what it leaves is what [`Output::put`] leaves.
ghost use Rattle.std.specs.Prelude.{◌≡◌, ◌*◌, ◌<◌, OnOk, OnErr, take, flat_map, replicate};
ghost use Rattle.sj_base.specs.Output.{Prints, AppendsOrLeaves};
ghost use Rattle.std.specs.Char.{digit_char};
ghost use Rattle.sj_base.specs.Tree.{integer};
ghost use Rattle.sj_base.specs.Scalar.{scalar_tree};
ghost use Rattle.sj_base.specs.Text.{escaped, quoted, text, line_break};

use crate::integer::JsonInteger;
use crate::output::Output;
use crate::place::plain_len;
use crate::scalar::Scalar;
use crate::static_node::StaticNode;
use itoa::Buffer;
use std::alloc::AllocError;

static SPACES: [u8; 64] = [b' '; 64];

/// Appends the string between quotes, with an escape for each quote, each backslash and each character below U+0020.
///
/// # Errors
///
/// `AllocError` if there is no memory for the text. Nothing is then appended.
pub fn put_string(out: &mut Vec<u8>, text: &str) -> Result<(), AllocError>
    ensures { AppendsOrLeaves result out.old.items out.new.items (quoted text.now) }
{
    let start = out.len();
    let printed = print_string(out, text);
    whole_or_none(out, start, printed)
}

/// Appends the integer in decimal digits, with a minus if it is negative.
///
/// # Errors
///
/// `AllocError` if there is no memory for the text. Nothing is then appended.
pub fn put_int<I: JsonInteger>(out: &mut Vec<u8>, n: I) -> Result<(), AllocError>
    ensures { AppendsOrLeaves result out.old.items out.new.items (text (integer (I.number n))) }
{
    let start = out.len();
    let printed = print_int(out, n);
    whole_or_none(out, start, printed)
}

/// Appends the text of the scalar.
///
/// # Errors
///
/// `AllocError` if there is no memory for the text. Nothing is then appended.
pub fn put_text(out: &mut Vec<u8>, scalar: &Scalar<'_>) -> Result<(), AllocError>
    ensures { AppendsOrLeaves result out.old.items out.new.items (text (scalar_tree scalar.now)) }
{
    let start = out.len();
    let printed = print_text(out, scalar);
    whole_or_none(out, start, printed)
}

/// Appends a line feed and two spaces for each level.
///
/// # Errors
///
/// `AllocError` if there is no memory for the text. Nothing is then appended.
pub fn put_break(out: &mut Vec<u8>, level: usize) -> Result<(), AllocError>
    ensures { AppendsOrLeaves result out.old.items out.new.items (line_break level) }
{
    let start = out.len();
    let printed = print_break(out, level);
    whole_or_none(out, start, printed)
}

/// Truncates `out` to `start` bytes if printing failed, and returns the result of the printing.
///
/// # Errors
///
/// The error of the printing. `out` then has its first `start` bytes.
#[inline(always)]
pub fn whole_or_none(
    out: &mut Vec<u8>,
    start: usize,
    printed: Result<(), AllocError>,
) -> Result<(), AllocError>
    ensures same { result ≡ printed }
    ensures ok { OnOk result (out.new.items ≡ out.old.items) }
    ensures err { OnErr result (out.new.items ≡ take start out.old.items) }
{
    if printed.is_err() {
        out.truncate(start);
    }
    printed
}

/// Prints the text of the scalar.
///
/// # Errors
///
/// The fault of the output, which leaves of the text what [`Output::put`] does.
#[inline(always)]
pub fn print_text<O: Output>(out: &mut O, scalar: &Scalar<'_>) -> Result<(), O::Fault>
    ensures { Prints O.appends O.begins result out.old out.new (text (scalar_tree scalar.now)) }
{
    match scalar {
        Scalar::Static(StaticNode::Null) => print_word(out, b"null"),
        Scalar::Static(StaticNode::Bool(true)) => print_word(out, b"true"),
        Scalar::Static(StaticNode::Bool(false)) => print_word(out, b"false"),
        Scalar::Static(StaticNode::I64(n)) => print_int(out, *n),
        Scalar::Static(StaticNode::U64(n)) => print_int(out, *n),
        Scalar::Text(text) => print_string(out, text),
        Scalar::Literal(literal) => out.put(literal.as_str().as_bytes()),
    }
}

#[inline(always)]
pub(crate) fn print_string<O: Output>(out: &mut O, text: &str) -> Result<(), O::Fault>
    ensures { Prints O.appends O.begins result out.old out.new (quoted text.now) }
{
    if out.put_plain(text.as_bytes())? {
        return Ok(());
    }
    print_pieces(out, text)
}

/// Prints the string between quotes, in as many pieces as its escapes ask for.
#[inline(never)]
pub(crate) fn print_pieces<O: Output>(out: &mut O, text: &str) -> Result<(), O::Fault>
    ensures { Prints O.appends O.begins result out.old out.new (quoted text.now) }
{
    out.put(b"\"")?;
    print_runs(out, text.as_bytes())?;
    out.put(b"\"")
}

#[inline(always)]
pub(crate) fn print_break<O: Output>(out: &mut O, level: usize) -> Result<(), O::Fault>
    ensures { Prints O.appends O.begins result out.old out.new (line_break level) }
{
    out.put(b"\n")?;
    print_indent(out, level)
}

/// Prints two spaces for each level, those of up to 32 levels at once.
fn print_indent<O: Output>(out: &mut O, level: usize) -> Result<(), O::Fault>
    ensures { Prints O.appends O.begins result out.old out.new (replicate (2 * level) 0x20) }
{
    let mut left = level;
    while left > 0 {
        let levels = left.min(32);
        out.put(&SPACES[..2 * levels])?;
        left -= levels;
    }
    Ok(())
}

/// This and `print_int` are calls, so that `print_text` stays small enough to be inlined.
#[inline(never)]
fn print_word<O: Output>(out: &mut O, word: &[u8]) -> Result<(), O::Fault>
    ensures { Prints O.appends O.begins result out.old out.new word.now }
{
    out.put(word)
}

#[inline(never)]
fn print_int<O: Output, I: JsonInteger>(out: &mut O, n: I) -> Result<(), O::Fault>
    ensures { Prints O.appends O.begins result out.old out.new (text (integer (I.number n))) }
{
    let mut buffer = Buffer::new();
    out.put(buffer.format(n).as_bytes())
}

/// Bytes that need no escape are copied in runs.
fn print_runs<O: Output>(out: &mut O, text: &[u8]) -> Result<(), O::Fault>
    ensures { Prints O.appends O.begins result out.old out.new (flat_map escaped text.now) }
{
    let mut rest = text;
    loop {
        let (run, behind) = rest.split_at(plain_len(rest));
        out.put(run)?;
        match behind.split_first() {
            None => return Ok(()),
            Some((byte, others)) => {
                print_escape(out, *byte)?;
                rest = others;
            }
        }
    }
}

fn print_escape<O: Output>(out: &mut O, byte: u8) -> Result<(), O::Fault>
    ensures { Prints O.appends O.begins result out.old out.new (escaped byte) }
{
    match byte {
        b'"' => out.put(b"\\\""),
        b'\\' => out.put(b"\\\\"),
        0x08 => out.put(b"\\b"),
        b'\t' => out.put(b"\\t"),
        b'\n' => out.put(b"\\n"),
        0x0c => out.put(b"\\f"),
        b'\r' => out.put(b"\\r"),
        0x00..=0x0f => out.put(&[b'\\', b'u', b'0', b'0', b'0', hex_digit(byte)]),
        0x10..=0x1f => { out.put(&[b'\\', b'u', b'0', b'0', b'1', hex_digit(byte - 0x10)]) }
        _ => out.put(&[byte]),
    }
}

fn hex_digit(n: u8) -> u8
    requires { n < 16 }
    ensures { result ≡ digit_char n }
{
    if n < 10 { b'0' + n } else { b'a' + (n - 10) }
}
