//! Encoders: the JSON text of a lazy value, appended to a vector.
ghost use Rattle.sj_base.specs.Output.{AppendsOrLeaves};
ghost use Rattle.sj_base.specs.Text.{text, pretty};

use crate::value::Value;
use std::alloc::AllocError;

impl Value<'_, '_, '_> {
    ghost use Rattle.sj_lazy.specs.Views.{lazy_tree};

    /// Appends the compact text of the value to `out`, with the repeated keys of a tape. Port of `value_trait::Writable::encode`.
    ///
    /// The recursion is as deep as the value nests.
    ///
    /// # Errors
    ///
    /// `AllocError` if there is no memory for the text. Nothing is then appended.
    pub fn encode(&self, out: &mut Vec<u8>) -> Result<(), AllocError>
        ensures { AppendsOrLeaves result out.old.items out.new.items (text (lazy_tree self.now)) }
    {
        match self {
            Value::Tape(view) => view.encode(out),
            Value::Value(held) => held.as_document().encode(out),
        }
    }

    /// Appends the text of the value to `out`, with the repeated keys of a tape, and with each item and member on a line of its
    /// own, indented by two spaces a level. Port of `value_trait::Writable::encode_pp`.
    ///
    /// The recursion is as deep as the value nests.
    ///
    /// # Errors
    ///
    /// `AllocError` if there is no memory for the text. Nothing is then appended.
    pub fn encode_pp(&self, out: &mut Vec<u8>) -> Result<(), AllocError>
        ensures { AppendsOrLeaves result out.old.items out.new.items (pretty (lazy_tree self.now)) }
    {
        match self {
            Value::Tape(view) => view.encode_pp(out),
            Value::Value(held) => held.as_document().encode_pp(out),
        }
    }
}
