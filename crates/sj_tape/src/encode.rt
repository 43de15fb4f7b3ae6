//! Encoders: the JSON text of a value, appended to a vector or written to a sink.
ghost use Rattle.std.specs.Prelude.{◌≡◌, ◌+◌, ◌<◌, ◌^◌, length};
ghost use Rattle.sj_base.specs.Tree.{list, object};
ghost use Rattle.sj_base.specs.Text.{text, pretty};
ghost use Rattle.sj_base.specs.Layout.{level_of, laid_out};
ghost use Rattle.sj_base.specs.Output.{AppendsOrLeaves, Prints, Writes};
ghost use Rattle.sj_tape.specs.Listing.{listing};
ghost use Rattle.sj_tape.specs.Views.{value_tree, array_items, object_members};

use crate::array::Array;
use crate::object::Object;
use crate::value::Value;
use sj_base::{Layout, Output, Sink, TextBuffer, WriteFault, print_text, whole_or_none};
use sj_reads::ValueAsScalar;
use std::alloc::AllocError;
use std::mem;

#[cycle(print)]
#[inline(always)]
fn print_value<O: Output>(
    value: &Value<'_, '_>,
    layout: Layout,
    out: &mut O,
) -> Result<(), O::Fault>
    requires { level_of layout + length (listing (value_tree value.now)) < 2 ^ 64 }
    ensures { Prints O.appends O.begins result out.old out.new (laid_out layout (value_tree value.now)) }
{
    if let Some(items) = value.as_array() {
        return print_items(items, layout, out);
    }
    if let Some(members) = value.as_object() {
        return print_members(members, layout, out);
    }
    match value.as_scalar() {
        Some(scalar) => print_text(out, &scalar),
        // A value that isn't a container is a scalar.
        None => unreachable!(),
    }
}

#[cycle(print)]
fn print_items<O: Output>(items: Array<'_, '_>, layout: Layout, out: &mut O) -> Result<(), O::Fault>
    requires { level_of layout + length (listing (list (array_items items))) < 2 ^ 64 }
    ensures { Prints O.appends O.begins result out.old out.new (laid_out layout (list (array_items items.entry))) }
{
    let mut list = layout.open_list(out)?;
    let mut rest = items;
    while let Some((item, behind)) = rest.split_first() {
        list.next(out)?;
        print_value(&item, list.inside(), out)?;
        rest = behind;
    }
    list.close(out)
}

#[cycle(print)]
fn print_members<O: Output>(
    members: Object<'_, '_>,
    layout: Layout,
    out: &mut O,
) -> Result<(), O::Fault>
    requires { level_of layout + length (listing (object (object_members members))) < 2 ^ 64 }
    ensures { Prints O.appends O.begins result out.old out.new (laid_out layout (object (object_members members.entry))) }
{
    let mut object = layout.open_object(out)?;
    let mut rest = members;
    while let Some((key, value, behind)) = rest.split_first() {
        object.key(key, out)?;
        print_value(&value, object.inside(), out)?;
        rest = behind;
    }
    object.close(out)
}

/// The outermost level is 0, and each level of nesting is a node, so every level fits a `usize`.
fn print<O: Output>(value: Value<'_, '_>, layout: Layout, out: &mut O) -> Result<(), O::Fault>
    requires { level_of layout ≡ 0 }
    ensures { Prints O.appends O.begins result out.old out.new (laid_out layout (value_tree value.entry)) }
{
    print_value(&value, layout, out)
}

/// Appends the text, or nothing.
fn append(value: Value<'_, '_>, layout: Layout, out: &mut Vec<u8>) -> Result<(), AllocError>
    requires { level_of layout ≡ 0 }
    ensures { AppendsOrLeaves result out.old.items out.new.items (laid_out layout (value_tree value.entry)) }
{
    let start = out.len();
    let alloc = *out.allocator();
    let mut text = TextBuffer::new(mem::replace(out, Vec::new(alloc)));
    let printed = print(value, layout, &mut text);
    *out = text.into_vec();
    whole_or_none(out, start, printed)
}

impl Value<'_, '_> {
    /// Appends the compact text of the value to `out`. Port of `value_trait::Writable::encode`.
    ///
    /// The recursion is as deep as the value nests.
    ///
    /// # Errors
    ///
    /// `AllocError` if there is no memory for the text. Nothing is then appended.
    pub fn encode(&self, out: &mut Vec<u8>) -> Result<(), AllocError>
        ensures { AppendsOrLeaves result out.old.items out.new.items (text (value_tree self.now)) }
    {
        append(*self, Layout::Compact, out)
    }

    /// Appends the text of the value to `out`, with each item and member on a line of its own, indented by two spaces a
    /// level. Port of `value_trait::Writable::encode_pp`.
    ///
    /// The recursion is as deep as the value nests.
    ///
    /// # Errors
    ///
    /// `AllocError` if there is no memory for the text. Nothing is then appended.
    pub fn encode_pp(&self, out: &mut Vec<u8>) -> Result<(), AllocError>
        ensures { AppendsOrLeaves result out.old.items out.new.items (pretty (value_tree self.now)) }
    {
        append(*self, Layout::Indented(0), out)
    }

    /// Prints the compact text of the value to any output.
    ///
    /// The recursion is as deep as the value nests.
    ///
    /// # Errors
    ///
    /// The fault of the output, which leaves of the text what [`Output::put`] does.
    pub fn print<O: Output>(&self, out: &mut O) -> Result<(), O::Fault>
        ensures { Prints O.appends O.begins result out.old out.new (text (value_tree self.now)) }
    {
        print(*self, Layout::Compact, out)
    }

    /// Writes the compact text of the value to `writer`. Port of `value_trait::Writable::write`.
    ///
    /// Each piece, down to a comma or a quote, is a write of its own, so a file or a pipe wants a buffer in between. The recursion
    /// is as deep as the value nests.
    ///
    /// # Errors
    ///
    /// `WriteFault` if a write fails, is interrupted or takes no byte. A prefix of the text is then written.
    pub fn write<W: Sink>(&self, writer: &mut W) -> Result<(), WriteFault>
        ensures { Writes W.contents W.calls result writer.old writer.new (text (value_tree self.now)) }
    {
        print(*self, Layout::Compact, writer)
    }

    /// Writes the text of the value to `writer`, with each item and member on a line of its own, indented by two spaces a
    /// level. Port of `value_trait::Writable::write_pp`.
    ///
    /// Each piece, down to a comma or a quote, is a write of its own, so a file or a pipe wants a buffer in between. The recursion
    /// is as deep as the value nests.
    ///
    /// # Errors
    ///
    /// `WriteFault` if a write fails, is interrupted or takes no byte. A prefix of the text is then written.
    pub fn write_pp<W: Sink>(&self, writer: &mut W) -> Result<(), WriteFault>
        ensures { Writes W.contents W.calls result writer.old writer.new (pretty (value_tree self.now)) }
    {
        print(*self, Layout::Indented(0), writer)
    }
}
