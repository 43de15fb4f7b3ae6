//! Encoders: the JSON text of a document, appended to a vector.
ghost use Rattle.std.specs.Prelude.{ℕ, List, ◌+◌, ◌<◌, ◌^◌, OnOk};
ghost use Rattle.sj_base.specs.Output.{Prints, AppendsOrLeaves};
ghost use Rattle.sj_base.specs.Text.{text, pretty};
ghost use Rattle.sj_base.specs.Tree.{list, object};
ghost use Rattle.sj_base.specs.Layout.{level_of, laid_out};
ghost use Rattle.sj_owned.specs.Views.{value_tree, items_view, members_view};
ghost use Rattle.sj_owned.specs.inside.Refusals.{refuses_all};

use crate::literal::Literal;
use crate::value::Value;
use sj_base::{Layout, Output, Scalar, TextBuffer, print_text, whole_or_none};
use sj_object::{Object, ObjectKey};
use std::alloc::AllocError;
use std::mem;

/// An output whose calls may end with a fault before anything is appended.
pub(crate) trait Refuses: Output<Fault = AllocError> {
    ghost refuses: { (old : Self) (bytes : List ℕ) → Self.begins old old bytes };
}

impl Refuses for TextBuffer {
    ghost refuses = { refuses_all };
}

/// Ends with an error if the number of the next level would overflow. A text that deep would have more bytes than memory can hold.
#[inline(always)]
fn test_level(layout: Layout) -> Result<(), AllocError>
    ensures { OnOk result (level_of layout + 1 < 2 ^ 64) }
{
    match layout {
        Layout::Indented(usize::MAX) => Err(AllocError),
        _ => Ok(()),
    }
}

#[cycle(print)]
pub(crate) fn print_value<K: ObjectKey, D: Literal, O: Refuses>(
    value: &Value<K, D>,
    layout: Layout,
    out: &mut O,
) -> Result<(), AllocError>
    ensures { Prints O.appends O.begins result out.old out.new (laid_out layout (value_tree K.text D.literal value.now)) }
{
    match value {
        Value::Static(scalar) => print_text(out, &Scalar::Static(*scalar)),
        Value::Decimal(literal) => print_text(out, &Scalar::Literal(literal.as_decimal())),
        Value::String(string) => print_text(out, &Scalar::Text(string.as_text())),
        Value::Array(items) => print_items(items, layout, out),
        Value::Object(members) => print_members(members, layout, out),
    }
}

#[cycle(print)]
fn print_items<K: ObjectKey, D: Literal, O: Refuses>(
    items: &[Value<K, D>],
    layout: Layout,
    out: &mut O,
) -> Result<(), AllocError>
    ensures { Prints O.appends O.begins result out.old out.new (laid_out layout (list (items_view K.text D.literal items.now))) }
{
    test_level(layout)?;
    let mut list = layout.open_list(out)?;
    for item in items {
        list.next(out)?;
        print_value(item, list.inside(), out)?;
    }
    list.close(out)
}

#[cycle(print)]
fn print_members<K: ObjectKey, D: Literal, O: Refuses>(
    members: &Object<K, Value<K, D>>,
    layout: Layout,
    out: &mut O,
) -> Result<(), AllocError>
    ensures { Prints O.appends O.begins result out.old out.new (laid_out layout (object (members_view K.text D.literal members.now))) }
{
    test_level(layout)?;
    let mut object = layout.open_object(out)?;
    for (key, value) in members.iter() {
        object.key(key.as_text(), out)?;
        print_value(value, object.inside(), out)?;
    }
    object.close(out)
}

/// Appends the text, or nothing.
fn append<K: ObjectKey, D: Literal>(
    value: &Value<K, D>,
    layout: Layout,
    out: &mut Vec<u8>,
) -> Result<(), AllocError>
    ensures { AppendsOrLeaves result out.old.items out.new.items (laid_out layout (value_tree K.text D.literal value.now)) }
{
    let start = out.len();
    let alloc = *out.allocator();
    let mut text = TextBuffer::new(mem::replace(out, Vec::new(alloc)));
    let printed = print_value(value, layout, &mut text);
    *out = text.into_vec();
    whole_or_none(out, start, printed)
}

impl<K: ObjectKey, D: Literal> Value<K, D> {
    /// Appends the compact text of the value to `out`. Port of `value_trait::Writable::encode`.
    ///
    /// The recursion is as deep as the value nests.
    ///
    /// # Errors
    ///
    /// `AllocError` if there is no memory for the text. Nothing is then appended.
    pub fn encode(&self, out: &mut Vec<u8>) -> Result<(), AllocError>
        ensures { AppendsOrLeaves result out.old.items out.new.items (text (value_tree K.text D.literal self.now)) }
    {
        append(self, Layout::Compact, out)
    }

    /// Appends the text of the value to `out`, with each item and member on a line of its own, indented by two spaces a
    /// level. Port of `value_trait::Writable::encode_pp`.
    ///
    /// The recursion is as deep as the value nests.
    ///
    /// # Errors
    ///
    /// `AllocError` if there is no memory for the text. Nothing is then appended.
    pub fn encode_pp(&self, out: &mut Vec<u8>) -> Result<(), AllocError>
        ensures { AppendsOrLeaves result out.old.items out.new.items (pretty (value_tree K.text D.literal self.now)) }
    {
        append(self, Layout::Indented(0), out)
    }
}
