//! Lazy values as text to be shown.
ghost use Rattle.std.specs.Prelude.{Some};
ghost use Rattle.std.specs.Fmt.{WritesOnOk};
ghost use Rattle.sj_base.specs.Text.{text as text_of};
ghost use Rattle.sj_lazy.specs.Views.{lazy_tree};
ghost use Rattle.sj_tape.specs.Views.{value_tree};
ghost use Rattle.sj_owned.specs.Display.{shown};

use crate::compare::document_of;
use crate::value::Value;
use sj_owned::FormatterOutput;
use sj_tape::Value as TapeValue;
use std::fmt;

/// A lazy value is shown as a document is: a string without quotes, and any other scalar as its JSON text. An array or an
/// object is shown as its compact JSON text, with a tape's repeated keys.
///
/// The recursion is as deep as the value nests.
impl fmt::Display for Value<'_, '_, '_> {
    ghost output = { λ v. Some (shown (lazy_tree v)) };

    fn fmt<W: fmt::Write>(&self, f: &mut fmt::Formatter<W>) -> fmt::Result {
        match self {
            Value::Tape(view) => match view.into_scalar() {
                Some(scalar) => write!(f, "{}", document_of(scalar)),
                None => show(view, f),
            },
            Value::Value(held) => write!(f, "{}", held.as_document()),
        }
    }
}

fn show<W: fmt::Write>(view: &TapeValue<'_, '_>, f: &mut fmt::Formatter<W>) -> fmt::Result
    ensures { WritesOnOk W.write_str_gives f.old result (text_of (value_tree view.now)) f.new }
{
    match view.print(&mut FormatterOutput { formatter: f }) {
        Ok(()) => Ok(()),
        Err(_) => Err(fmt::Error),
    }
}
