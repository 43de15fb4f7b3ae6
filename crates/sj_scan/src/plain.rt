//! The scan that reads one byte at a time, the reference for faster ones.
ghost use Rattle.std.specs.Prelude.{◌≡◌, ℕ, List, [], ◌∷◌, ◌≤◌, length, vec_capacity, IsOk, IfOk, OnOk};
ghost use Rattle.std.specs.Str.{is_utf8};
ghost use Rattle.sj_scan.specs.Positions.{is_whitespace, is_operator, is_real_quote, is_position, positions};
ghost use Rattle.sj_scan.specs.Scan.{is_control};
ghost use Rattle.sj_scan.specs.inside.End.{Ends};
ghost use Rattle.sj_scan.specs.inside.State.{Follows};

use crate::end::End;
use crate::stage1::{ScanFault, Stage1};
use simdutf8::basic::from_utf8;
use std::alloc::AllocError;

/// A scan that reads one byte at a time.
#[derive(Clone, Copy, Debug, Default)]
pub struct PlainScan;

impl Stage1 for PlainScan {
    fn scan(&mut self, bytes: &[u8], out: &mut Vec<u32>) -> Result<(), ScanFault> {
        out.clear();
        match find_positions(bytes, out) {
            Ok(end) => end.answer(out),
            Err(error) => {
                out.clear();
                Err(error.into())
            }
        }
    }
}

/// After an error `out` holds some of the positions.
fn find_positions(bytes: &[u8], out: &mut Vec<u32>) -> Result<End, AllocError>
    requires empty { out.old.items ≡ [] }
    requires short { length bytes.now ≤ 4294967295 }
    ensures positions { OnOk result (out.new.items ≡ positions bytes.now) }
    ensures end { IfOk result (Ends bytes.now) }
    ensures room { length bytes.now ≤ vec_capacity out.old → IsOk result }
    ensures capacity { vec_capacity out.old ≤ vec_capacity out.new }
{
    let mut state = State::start();
    let mut has_control = false;
    for (place, byte) in bytes.iter().enumerate() {
        if state.is_position(*byte) {
            out.push(place as u32)?;
        }
        has_control |= state.is_control(*byte);
        state = state.next(*byte);
    }
    Ok(End {
        is_utf8: is_utf8(bytes),
        inside: state.inside,
        has_control,
    })
}

/// What the tests at a place need to know of the bytes before it.
#[derive(Clone, Copy)]
struct State {
    /// The run of backslashes directly before has odd length.
    odd_backslashes: bool,
    /// A string is open.
    inside: bool,
    /// Nothing, whitespace, an operator or a real quote stands directly before.
    separated: bool,
}

impl State {
    fn start() -> State
        ensures { Follows [] result }
    {
        State {
            odd_backslashes: false,
            inside: false,
            separated: true,
        }
    }

    fn is_real_quote(self, byte: u8) -> bool
        ensures { (before : List ℕ) → Follows before self → result ≡ is_real_quote before byte }
    {
        byte == b'"' && !self.odd_backslashes
    }

    fn is_position(self, byte: u8) -> bool
        ensures { (before : List ℕ) → Follows before self → result ≡ is_position before byte }
    {
        !self.inside
            && !is_whitespace(byte)
            && (is_operator(byte) || self.is_real_quote(byte) || self.separated)
    }

    fn is_control(self, byte: u8) -> bool
        ensures { (before : List ℕ) → Follows before self → result ≡ is_control before byte }
    {
        byte < b' ' && self.inside
    }

    fn next(self, byte: u8) -> State
        ensures { (before : List ℕ) → Follows before self → Follows (byte ∷ before) result }
    {
        let is_real_quote = self.is_real_quote(byte);
        State {
            odd_backslashes: (byte == b'\\') & !self.odd_backslashes,
            inside: self.inside ^ is_real_quote,
            separated: is_whitespace(byte) | is_operator(byte) | is_real_quote,
        }
    }
}

fn is_whitespace(byte: u8) -> bool
    ensures { result ≡ is_whitespace byte }
{
    matches!(byte, b' ' | b'\t' | b'\n' | b'\r')
}

fn is_operator(byte: u8) -> bool
    ensures { result ≡ is_operator byte }
{
    matches!(byte, b'{' | b'}' | b'[' | b']' | b':' | b',')
}

fn is_utf8(bytes: &[u8]) -> bool
    ensures { result ≡ is_utf8 bytes.now }
{
    from_utf8(bytes).is_ok()
}
