//! A vector of bytes as an output that is faster than the vector itself.
ghost use Rattle.std.specs.Prelude.{◌≡◌, ◌+◌, ◌≤◌, ◌<◌, ◌++◌, ℕ, List, [], length, OnOk};
ghost use Rattle.sj_base.specs.inside.OutputLaws.{lists_continue};

use crate::output::Output;
use crate::place::{place_plain_key, place_quoted, place_text};
use std::alloc::AllocError;
use std::fmt::{self, Debug};

/// The first step, in bytes.
const FIRST_STEP: usize = 256;

/// The longest step, in bytes.
const LAST_STEP: usize = 4096;

static ZEROS: [u8; LAST_STEP] = [0; LAST_STEP];

/// A text that is printed, in a vector whose room is initialized ahead, so that a piece is stored by a test and a copy.
///
/// A buffer that is kept prints many texts, one after the other, and has its room initialized once.
#[derive(Drop)]
pub struct TextBuffer {
    bytes: Vec<u8>,
    len: usize,
    /// How many bytes of room are initialized next. It doubles up to `LAST_STEP`, so that a short text doesn't pay for the room of
    /// a long one.
    step: usize,
    ghost within: { len ≤ length bytes.items },
    ghost step_fits: { (0 < step) × (step ≤ 4096) },
}

impl TextBuffer {
    ghost use Rattle.sj_base.specs.Buffer.{buffer_text, buffer_room};

    /// Creates a buffer whose text is the bytes of a vector, to append to. Takes no memory.
    pub fn new(bytes: Vec<u8>) -> TextBuffer
        ensures { buffer_text result ≡ bytes.items }
    {
        let len = bytes.len();
        TextBuffer {
            bytes,
            len,
            step: FIRST_STEP,
        }
    }

    /// Returns the text.
    pub fn as_bytes(&self) -> &[u8]
        ensures { result.now ≡ buffer_text self.now }
    {
        &self.bytes[..self.len]
    }

    /// Empties the text. Its room is kept, and stays initialized.
    pub fn clear(&mut self)
        ensures text { buffer_text self.new ≡ [] }
        ensures room { buffer_room self.new ≡ buffer_room self.old }
    {
        self.len = 0;
    }

    /// Returns the vector of the text. Takes no memory.
    pub fn into_vec(self) -> Vec<u8>
        ensures { result.items ≡ buffer_text self }
    {
        let mut bytes = self.bytes;
        bytes.truncate(self.len);
        bytes
    }

    #[inline(always)]
    fn reserve(&mut self, additional: usize) -> Result<(), AllocError>
        ensures text { buffer_text self.new ≡ buffer_text self.old }
        ensures len { self.new.len ≡ self.old.len }
        ensures ok { OnOk result (self.new.len + additional ≤ length self.new.bytes.items) }
    {
        if additional <= self.bytes.len() - self.len {
            return Ok(());
        }
        self.grow(additional)
    }

    #[cold]
    #[inline(never)]
    fn grow(&mut self, additional: usize) -> Result<(), AllocError>
        ensures text { buffer_text self.new ≡ buffer_text self.old }
        ensures len { self.new.len ≡ self.old.len }
        ensures ok { OnOk result (self.new.len + additional ≤ length self.new.bytes.items) }
    {
        while self.bytes.len() - self.len < additional {
            // A vector that has room is not moved.
            let room = self.bytes.capacity() - self.bytes.len();
            let step = if room == 0 {
                self.step
            } else {
                self.step.min(room)
            };
            self.bytes.extend_from_slice(&ZEROS[..step])?;
            self.step = (self.step * 2).min(LAST_STEP);
        }
        Ok(())
    }
}

/// Shows the text, without the room behind it.
impl Debug for TextBuffer {
    fn fmt<W: fmt::Write>(&self, f: &mut fmt::Formatter<W>) -> fmt::Result {
        f.debug_tuple("TextBuffer").field(&self.as_bytes()).finish()
    }
}

/// An append fails if there is no memory for the bytes.
impl Output for TextBuffer {
    ghost use Rattle.sj_base.specs.Buffer.{buffer_text};

    type Fault = AllocError;

    ghost appends = { λ old new bytes. buffer_text new ≡ buffer_text old ++ bytes };

    ghost begins = { λ old new bytes. (taken rest : List ℕ) × (bytes ≡ taken ++ rest) × (buffer_text new ≡ buffer_text old ++ taken) };

    ghost laws = { lists_continue buffer_text };

    #[inline(always)]
    fn put(&mut self, bytes: &[u8]) -> Result<(), AllocError> {
        self.reserve(bytes.len())?;
        place_text(self.bytes.as_mut_slice(), self.len, bytes);
        self.len += bytes.len();
        Ok(())
    }

    #[inline(always)]
    fn put_plain(&mut self, text: &[u8]) -> Result<bool, AllocError> {
        self.reserve(text.len() + 2)?;
        let plain = place_quoted(self.bytes.as_mut_slice(), self.len, text);
        if plain {
            self.len += text.len() + 2;
        }
        Ok(plain)
    }

    #[inline(always)]
    fn put_plain_key(&mut self, with_comma: bool, key: &[u8]) -> Result<bool, AllocError> {
        // A comma, two quotes and a colon.
        self.reserve(key.len() + 4)?;
        let plain = place_plain_key(self.bytes.as_mut_slice(), self.len, with_comma, key);
        if plain {
            self.len += usize::from(with_comma) + key.len() + 3;
        }
        Ok(plain)
    }
}
