//! Readers and writers whose contracts count their calls.
ghost use Rattle.std.specs.Prelude.{◌≡◌, ℕ, ◌+◌, List, Option, length, IfOk, IfErr};
ghost use Rattle.std.specs.Io.{ReadsAtMost, WritesAtMost};
ghost use Rattle.std.specs.Io.KnownBytes.{ReadConsumes, WriteAppends};
ghost use Rattle.sj_base.specs.Calls.{Calls, no_calls, CountsOk, CountsErr};

use crate::trace::Trace;
use std::io;
use std::io::{ErrorKind, Read, Write};
use std::marker::Model;

/// A reader of bytes whose contract also counts the calls that were made, failed, were interrupted or gave no byte.
pub trait Source {
    // The bytes that later reads will give, where they are known.
    ghost remaining: { Self → Option (List ℕ) };

    // The calls of `read` so far.
    ghost calls: { Self → Calls };

    /// Reads some bytes into the front of `buf`, and returns their number (`std::io::Read::read`).
    ///
    /// If `buf` isn't empty, 0 means the end of the input.
    ///
    /// # Errors
    ///
    /// The error of the reader. No byte is then read.
    fn read(&mut self, buf: &mut [u8]) -> io::Result<usize>
        ensures bound { ReadsAtMost result buf.new }
        ensures bytes { ReadConsumes (remaining self.old) (remaining self.new) result buf.new }
        ensures made { (calls self.new).made ≡ (calls self.old).made + 1 }
        ensures ok_counts { IfOk result (CountsOk (calls self.old) (calls self.new) buf.new) }
        ensures err_counts { IfErr result (CountsErr (calls self.old) (calls self.new)) };
}

/// A writer of bytes whose contract also counts the calls that were made, failed, were interrupted or took no byte.
pub trait Sink {
    // The bytes that were written so far, where they are known.
    ghost contents: { Self → Option (List ℕ) };

    // The calls of `write` so far.
    ghost calls: { Self → Calls };

    /// Writes some bytes from the front of `buf`, and returns their number (`std::io::Write::write`).
    ///
    /// If `buf` isn't empty, 0 means that the writer took no byte. As an [`Output`](crate::Output) a sink fails then.
    ///
    /// # Errors
    ///
    /// The error of the writer. No byte is then written.
    fn write(&mut self, buf: &[u8]) -> io::Result<usize>
        ensures bound { WritesAtMost result buf.now }
        ensures bytes { WriteAppends (contents self.old) (contents self.new) result buf.now }
        ensures made { (calls self.new).made ≡ (calls self.old).made + 1 }
        ensures ok_counts { IfOk result (CountsOk (calls self.old) (calls self.new) buf.now) }
        ensures err_counts { IfErr result (CountsErr (calls self.old) (calls self.new)) };
}

/// Four lists of calls: all that were made, those that failed, those that were interrupted, and those that moved no byte. The entry
/// of a call is the number of bytes that it moved.
#[derive(Debug, Drop)]
struct Tally {
    made: Trace,
    failed: Trace,
    interrupted: Trace,
    empty: Trace,
}

impl Model for Tally {
    ghost Value = { Calls };

    ghost view = { λ t. record { made = length t.made.list; failed = length t.failed.list; interrupted = length t.interrupted.list; empty = length t.empty.list } };
}

impl Tally {
    fn new() -> Tally
        ensures { result ≡ no_calls }
    {
        Tally {
            made: Trace::new(),
            failed: Trace::new(),
            interrupted: Trace::new(),
            empty: Trace::new(),
        }
    }

    fn add_ok(&mut self, buf: &[u8], n: usize)
        ensures { CountsOk self.old self.new buf.now n }
    {
        self.made = self.made.then(n);
        if n == 0 && !buf.is_empty() {
            self.empty = self.empty.then(0);
        }
    }

    fn add_err(&mut self, e: &io::Error)
        ensures made { self.new.made ≡ self.old.made + 1 }
        ensures counts { CountsErr self.old self.new e.now }
    {
        self.made = self.made.then(0);
        if e.kind() == ErrorKind::Interrupted {
            self.interrupted = self.interrupted.then(0);
        } else {
            self.failed = self.failed.then(0);
        }
    }
}

/// A reader as a [`Source`], or a writer as a [`Sink`]. The counts take no room at run time.
#[derive(Debug, Drop)]
pub struct Counted<T> {
    inner: T,
    tally: Tally,
}

impl<T> Counted<T> {
    /// Wraps a reader or a writer, with no call counted.
    pub fn new(inner: T) -> Counted<T>
        ensures inner { result.inner ≡ inner }
        ensures tally { result.tally ≡ no_calls }
    {
        let tally = Tally::new();
        Counted { inner, tally }
    }

    /// Returns the reader or the writer, and drops the counts.
    pub fn into_inner(self) -> T
        ensures { result ≡ self.inner }
    {
        let Counted { inner, tally: _ } = self;
        inner
    }
}

impl<T: Read> Source for Counted<T> {
    ghost remaining = { λ c. T.remaining c.inner };

    ghost calls = { λ c. c.tally };

    fn read(&mut self, buf: &mut [u8]) -> io::Result<usize> {
        let result = self.inner.read(buf);
        match &result {
            Ok(n) => self.tally.add_ok(buf, *n),
            Err(e) => self.tally.add_err(e),
        }
        result
    }
}

impl<T: Write> Sink for Counted<T> {
    ghost contents = { λ c. T.contents c.inner };

    ghost calls = { λ c. c.tally };

    fn write(&mut self, buf: &[u8]) -> io::Result<usize> {
        let result = self.inner.write(buf);
        match &result {
            Ok(n) => self.tally.add_ok(buf, *n),
            Err(e) => self.tally.add_err(e),
        }
        result
    }
}
