//! Documents as text to be shown.
ghost use Rattle.std.specs.Prelude.{⊤, Some};
ghost use Rattle.std.specs.Fmt.{WritesOnOk};
ghost use Rattle.sj_base.specs.Text.{text as text_of};
ghost use Rattle.sj_owned.specs.Display.{shown, Shows};
ghost use Rattle.sj_owned.specs.Views.{value_tree};
ghost use Rattle.sj_owned.specs.inside.Shown.{shows_continue};

use crate::encode::{Refuses, print_value};
use crate::literal::Literal;
use crate::value::Value;
use sj_base::{Layout, Output};
use sj_object::ObjectKey;
use std::alloc::AllocError;
use std::fmt;

/// A formatter as an [`Output`], for impls of `Display` that show JSON text.
#[derive(Drop)]
pub struct FormatterOutput<'f, W: fmt::Write> {
    /// The formatter that the text goes to.
    pub formatter: &'f mut fmt::Formatter<W>,
}

/// An append fails with an `AllocError` if the formatter does, or if the bytes aren't UTF-8. What the formatter has taken then is
/// unspecified.
impl<W: fmt::Write> Output for FormatterOutput<'_, W> {
    type Fault = AllocError;

    ghost appends = { Shows W.write_str_gives };

    ghost begins = { λ old new bytes. ⊤ };

    ghost laws = { shows_continue W.write_str_gives };

    fn put(&mut self, bytes: &[u8]) -> Result<(), AllocError> {
        let Ok(text) = str::from_utf8(bytes) else {
            return Err(AllocError);
        };
        match self.formatter.write_str(text) {
            Ok(()) => Ok(()),
            Err(_) => Err(AllocError),
        }
    }
}

impl<W: fmt::Write> Refuses for FormatterOutput<'_, W> {
    ghost refuses = { λ old bytes. tt };
}

/// A string is shown without quotes, and any other scalar as its JSON text. An array or an object is shown as its compact
/// JSON text.
///
/// The recursion is as deep as the value nests.
impl<K: ObjectKey, D: Literal> fmt::Display for Value<K, D> {
    ghost output = { λ v. Some (shown (value_tree K.text D.literal v)) };

    fn fmt<W: fmt::Write>(&self, f: &mut fmt::Formatter<W>) -> fmt::Result {
        match self {
            Value::Static(node) => write!(f, "{node}"),
            Value::Decimal(literal) => f.write_str(literal.as_decimal().as_str()),
            Value::String(string) => f.write_str(string.as_text()),
            Value::Array(_) | Value::Object(_) => show(self, f),
        }
    }
}

fn show<K: ObjectKey, D: Literal, W: fmt::Write>(
    value: &Value<K, D>,
    f: &mut fmt::Formatter<W>,
) -> fmt::Result
    ensures { WritesOnOk W.write_str_gives f.old result (text_of (value_tree K.text D.literal value.now)) f.new }
{
    match print_value(
        value,
        Layout::Compact,
        &mut FormatterOutput { formatter: f },
    ) {
        Ok(()) => Ok(()),
        Err(_) => Err(fmt::Error),
    }
}
