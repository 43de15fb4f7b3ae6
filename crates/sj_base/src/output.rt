//! What text is printed to, as a vector, a buffer or a sink.
ghost use Rattle.std.specs.Prelude.{◌≡◌, List, ℕ, [], ◌++◌, if◌then◌else◌, IfOk, OnErr};
ghost use Rattle.sj_base.specs.Output.{Continues, Prints, WritesAll, WritesPrefix};
ghost use Rattle.sj_base.specs.Layout.{compact_key};
ghost use Rattle.sj_base.specs.Text.{quoted};
ghost use Rattle.sj_base.specs.inside.OutputLaws.{vectors_continue, sinks_continue};

use crate::fault::WriteFault;
use crate::stream::Sink;
use std::alloc::AllocError;

/// An output that bytes are appended to, as a vector of bytes, a [`TextBuffer`](crate::TextBuffer) or any [`Sink`].
pub trait Output {
    /// The error of an append.
    type Fault;

    // The second state is the first with all of the bytes appended.
    ghost appends: { Self → Self → List ℕ → Type 0 };

    // The second state is what a fault may leave of appending the bytes.
    ghost begins: { Self → Self → List ℕ → Type 0 };

    /// Appends the bytes.
    ///
    /// # Errors
    ///
    /// The fault of the output. What it leaves is said by the impl: in a vector, a buffer or a sink, a prefix of the bytes is
    /// appended.
    fn put(&mut self, bytes: &[u8]) -> Result<(), Self::Fault>
        ensures { Prints appends begins result self.old self.new bytes.now };

    /// Appends the text between quotes and returns `true`, or appends nothing and returns `false`.
    ///
    /// `true` is for texts in which no byte needs an escape. An output that has no faster way than [`put`](Output::put)
    /// returns `false` for each text.
    ///
    /// # Errors
    ///
    /// The fault of the output, which leaves of the text between quotes what [`put`](Output::put) does.
    fn put_plain(&mut self, text: &[u8]) -> Result<bool, Self::Fault>
        ensures ok { IfOk result (λ done. appends self.old self.new (if done then quoted text.now else [])) }
        ensures err { OnErr result (begins self.old self.new (quoted text.now)) }
    {
        Ok(false)
    }

    /// Appends the key between quotes, with a comma before it if `with_comma` and a colon after it, and returns `true`, or
    /// appends nothing and returns `false`.
    ///
    /// This is what stands before a member's value in the compact layout. `true` is for keys in which no byte needs an
    /// escape, as with [`put_plain`](Output::put_plain). After `false` the key is printed by [`put`](Output::put) alone.
    ///
    /// # Errors
    ///
    /// The fault of the output, which leaves of the comma, the key and the colon what [`put`](Output::put) does.
    fn put_plain_key(&mut self, with_comma: bool, key: &[u8]) -> Result<bool, Self::Fault>
        ensures ok { IfOk result (λ done. appends self.old self.new (if done then compact_key with_comma key.now else [])) }
        ensures err { OnErr result (begins self.old self.new (compact_key with_comma key.now)) }
    {
        Ok(false)
    }

    ghost laws: { Continues appends begins };
}

/// An append fails if there is no memory for the bytes.
impl Output for Vec<u8> {
    type Fault = AllocError;

    ghost appends = { λ old new bytes. new.items ≡ old.items ++ bytes };

    ghost begins = { λ old new bytes. (taken rest : List ℕ) × (bytes ≡ taken ++ rest) × (new.items ≡ old.items ++ taken) };

    ghost laws = { vectors_continue };

    #[inline(always)]
    fn put(&mut self, bytes: &[u8]) -> Result<(), AllocError> {
        self.extend_from_slice(bytes)
    }
}

/// An append calls [`Sink::write`] until all bytes are taken. It fails at the first write that fails, is interrupted or
/// takes no byte, and doesn't repeat that write.
impl<W: Sink> Output for W {
    type Fault = WriteFault;

    ghost appends = { λ old new bytes. WritesAll (W.contents old) (W.contents new) (W.calls old) (W.calls new) bytes };

    ghost begins = { λ old new bytes. WritesPrefix (W.contents old) (W.contents new) (W.calls old) (W.calls new) bytes };

    ghost laws = { sinks_continue W.contents W.calls };

    fn put(&mut self, bytes: &[u8]) -> Result<(), WriteFault> {
        let mut rest = bytes;
        while !rest.is_empty() {
            match self.write(rest) {
                Ok(0) | Err(_) => return Err(WriteFault),
                Ok(taken) => rest = &rest[taken..],
            }
        }
        Ok(())
    }
}
