//! Layouts of JSON text: what stands around the items of a list and the members of an object.
//!
//! An encoder opens a container, asks it for what stands before each item or key, and closes it:
//!
//! ```text
//! let mut list = layout.open_list(out)?;
//! for item in items {
//!     list.next(out)?;
//!     print_value(item, list.inside(), out)?;
//! }
//! list.close(out)
//! ```
ghost use Rattle.std.specs.Prelude.{◌≡◌, ◌+◌, ◌<◌, ◌^◌, [], ◌∷◌, ◌++◌, IfOk, OnErr, if◌then◌else◌};
ghost use Rattle.sj_base.specs.Output.{Prints};
ghost use Rattle.sj_base.specs.Text.{quoted};
ghost use Rattle.sj_base.specs.Layout.{level_of, inside, line_start, colon, opened_list, opened_object, filled, before_next, before_value, end_text};

use crate::output::Output;
use crate::put::{print_break, print_pieces, print_string};

/// A layout of JSON text.
#[derive(Clone, Copy, Debug)]
pub enum Layout {
    /// The whole text on one line, without whitespace between tokens.
    Compact,
    /// Each item and each member on a line of its own, with two spaces a level before it. The field is the level of the
    /// line that the value begins on.
    Indented(usize),
}

impl Layout {
    /// Prints the opening bracket of a list. The level has to be below `usize::MAX`. [`Layout::Compact`] has none.
    ///
    /// # Errors
    ///
    /// The fault of the output, which leaves of the bracket what [`Output::put`] does.
    #[inline(always)]
    pub fn open_list<O: Output>(self, out: &mut O) -> Result<Container, O::Fault>
        requires { level_of self + 1 < 2 ^ 64 }
        ensures container { IfOk result (λ c. c ≡ opened_list self) }
        ensures printed { Prints O.appends O.begins result out.old out.new (0x5b ∷ []) }
    {
        out.put(b"[")?;
        Ok(Container {
            layout: self,
            inside: self.inside(),
            closing: b']',
            is_empty: true,
        })
    }

    /// Prints the opening bracket of an object. The level has to be below `usize::MAX`, as for [`Layout::open_list`].
    ///
    /// # Errors
    ///
    /// The fault of the output, which leaves of the bracket what [`Output::put`] does.
    #[inline(always)]
    pub fn open_object<O: Output>(self, out: &mut O) -> Result<Container, O::Fault>
        requires { level_of self + 1 < 2 ^ 64 }
        ensures container { IfOk result (λ c. c ≡ opened_object self) }
        ensures printed { Prints O.appends O.begins result out.old out.new (0x7b ∷ []) }
    {
        out.put(b"{")?;
        Ok(Container {
            layout: self,
            inside: self.inside(),
            closing: b'}',
            is_empty: true,
        })
    }

    #[inline(always)]
    fn inside(self) -> Layout
        requires { level_of self + 1 < 2 ^ 64 }
        ensures { result ≡ inside self }
    {
        match self {
            Layout::Compact => Layout::Compact,
            Layout::Indented(level) => Layout::Indented(level + 1),
        }
    }

    #[inline(always)]
    fn print_line_start<O: Output>(self, out: &mut O) -> Result<(), O::Fault>
        ensures { Prints O.appends O.begins result out.old out.new (line_start self) }
    {
        match self {
            Layout::Compact => Ok(()),
            Layout::Indented(level) => print_break(out, level),
        }
    }

    #[inline(always)]
    fn print_key<O: Output>(self, key: &str, out: &mut O) -> Result<(), O::Fault>
        ensures { Prints O.appends O.begins result out.old out.new (quoted key.now ++ colon self) }
    {
        self.print_quoted_key(key, out)?;
        self.print_colon(out)
    }

    /// Prints the key between quotes. In the compact layout `put_plain_key` has declined it, so `put_plain` isn't asked.
    #[inline(always)]
    fn print_quoted_key<O: Output>(self, key: &str, out: &mut O) -> Result<(), O::Fault>
        ensures { Prints O.appends O.begins result out.old out.new (quoted key.now) }
    {
        match self {
            Layout::Compact => print_pieces(out, key),
            Layout::Indented(_) => print_string(out, key),
        }
    }

    #[inline(always)]
    fn print_colon<O: Output>(self, out: &mut O) -> Result<(), O::Fault>
        ensures { Prints O.appends O.begins result out.old out.new (colon self) }
    {
        match self {
            Layout::Compact => out.put(b":"),
            Layout::Indented(_) => out.put(b": "),
        }
    }
}

/// A list or an object whose opening bracket is printed.
#[derive(Clone, Copy, Debug)]
pub struct Container {
    layout: Layout,
    inside: Layout,
    closing: u8,
    is_empty: bool,
}

impl Container {
    /// Returns the layout of the items and of the members' values.
    #[inline(always)]
    pub fn inside(&self) -> Layout
        ensures { result ≡ self.now.inside }
    {
        self.inside
    }

    /// Prints what stands before the next item of a list: the comma after an earlier item, and the start of its line.
    ///
    /// # Errors
    ///
    /// The fault of the output, which leaves of this text what [`Output::put`] does. The container counts as not empty then.
    #[inline(always)]
    pub fn next<O: Output>(&mut self, out: &mut O) -> Result<(), O::Fault>
        ensures container { self.new ≡ filled self.old }
        ensures printed { Prints O.appends O.begins result out.old out.new (before_next self.old) }
    {
        let printed = self.print_separator(out);
        self.is_empty = false;
        printed?;
        self.inside.print_line_start(out)
    }

    /// Prints what stands before the value of an object's next member: the comma after an earlier member, the start of
    /// the line, the key and the colon.
    ///
    /// # Errors
    ///
    /// The fault of the output, which leaves of this text what [`Output::put`] does. The container counts as not empty then.
    #[inline(always)]
    pub fn key<O: Output>(&mut self, key: &str, out: &mut O) -> Result<(), O::Fault>
        ensures container { self.new ≡ filled self.old }
        ensures printed { Prints O.appends O.begins result out.old out.new (before_value self.old key.now) }
    {
        match self.print_plain_key(key, out) {
            Ok(false) => {
                self.next(out)?;
                self.inside.print_key(key, out)
            }
            printed => {
                self.is_empty = false;
                printed.map(drop)
            }
        }
    }

    /// Prints what `key` prints and returns `true`, or prints nothing and returns `false`. It is for the compact layout, and for
    /// keys that the output has a fast way for.
    #[inline(always)]
    fn print_plain_key<O: Output>(&self, key: &str, out: &mut O) -> Result<bool, O::Fault>
        ensures ok { IfOk result (λ done. O.appends out.old out.new (if done then before_value self.now key.now else [])) }
        ensures err { OnErr result (O.begins out.old out.new (before_value self.now key.now)) }
    {
        match self.inside {
            Layout::Compact => out.put_plain_key(!self.is_empty, key.as_bytes()),
            Layout::Indented(_) => Ok(false),
        }
    }

    /// Prints the closing bracket, on a line of its own unless the container is empty or the layout is compact.
    ///
    /// # Errors
    ///
    /// The fault of the output, which leaves of this text what [`Output::put`] does.
    #[inline(always)]
    pub fn close<O: Output>(self, out: &mut O) -> Result<(), O::Fault>
        ensures { Prints O.appends O.begins result out.old out.new (end_text self) }
    {
        self.print_last_line_start(out)?;
        out.put(&[self.closing])
    }

    #[inline(always)]
    fn print_separator<O: Output>(&self, out: &mut O) -> Result<(), O::Fault>
        ensures { Prints O.appends O.begins result out.old out.new (if self.now.is_empty then [] else 0x2c ∷ []) }
    {
        if self.is_empty { Ok(()) } else { out.put(b",") }
    }

    #[inline(always)]
    fn print_last_line_start<O: Output>(&self, out: &mut O) -> Result<(), O::Fault>
        ensures { Prints O.appends O.begins result out.old out.new (if self.now.is_empty then [] else line_start self.now.layout) }
    {
        if self.is_empty {
            Ok(())
        } else {
            self.layout.print_line_start(out)
        }
    }
}
