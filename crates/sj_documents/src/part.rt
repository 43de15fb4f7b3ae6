//! Parts of documents, as the commands of a script read them.
ghost use Rattle.std.specs.Prelude.{◌≡◌, pos, is_some, ok_or, option_map, codes};
ghost use Rattle.std.specs.Iterator.{IsFinite};
ghost use Rattle.sj_base.specs.Path.{child, key as key_part};
ghost use Rattle.sj_base.specs.Scalar.{scalar_tree};
ghost use Rattle.sj_base.specs.Text.{text};
ghost use Rattle.sj_base.specs.Tree.{Tree, integer};
ghost use Rattle.sj_owned.specs.Views.{value_tree};
ghost use Rattle.sj_tape.specs.Views.{value_tree as view_tree};
ghost use Rattle.sj_documents.specs.Step.{count, type_name};
ghost use Rattle.sj_scripts.specs.Script.{part_view};
ghost use Rattle.sj_base.specs.Output.{AppendsOrLeaves};
ghost use Rattle.sj_documents.specs.inside.Documents.{PutsKeys, PutsEach};

use sj_base::{Layout, Scalar, StaticNode, print_text};
use sj_object::ObjectKey;
use sj_owned::{Literal, Value};
use sj_reads::ValueAsScalar;
use sj_scripts::PathPart;
use sj_tape::Value as TapeValue;
use std::alloc::AllocError;

/// A part of a document, in one of the forms.
pub(crate) trait Part: Copy {
    ghost tree: { Self → Tree };

    /// Returns the part that one step of a path selects.
    fn child(self, step: &PathPart) -> Option<Self>
        ensures { option_map tree result ≡ child (tree self) (part_view step.now) };

    /// Returns `true` if the part is an object with this key.
    fn contains_key(self, key: &str) -> bool
        ensures { result ≡ is_some (child (tree self) (key_part key.now)) };

    /// Returns the word for the part's type.
    fn type_name(self) -> &'static str
        ensures { result.now ≡ type_name (tree self) };

    /// Returns the number of items or members, or `None` if the part has neither.
    fn count(self) -> Option<usize>
        ensures { ok_or (option_map (λ n. integer (pos n)) result) (codes "NotAContainer") ≡ count (tree self) };

    /// Appends an array of the keys in order, or returns `None` if the part isn't an object. After an error a part of the array
    /// may stay.
    fn put_keys(self, out: &mut Vec<u8>) -> Option<Result<(), AllocError>>
        ensures { PutsKeys (tree self) result out.old.items out.new.items };

    /// Appends the compact text.
    fn put(self, out: &mut Vec<u8>) -> Result<(), AllocError>
        ensures { AppendsOrLeaves result out.old.items out.new.items (text (tree self)) };
}

/// A part of a document that was built.
impl<K: ObjectKey, D: Literal> Part for &Value<K, D> {
    ghost tree = { λ d. value_tree K.text D.literal d.now };

    fn child(self, step: &PathPart) -> Option<Self> {
        match step {
            PathPart::Key(name) => self.get(name),
            PathPart::Item(place) => self.get_idx(*place as usize),
        }
    }

    fn contains_key(self, key: &str) -> bool {
        Value::contains_key(self, key)
    }

    fn type_name(self) -> &'static str {
        match self.as_scalar() {
            Some(scalar) => scalar_name(&scalar),
            None if self.is_array() => "array",
            None => "object",
        }
    }

    fn count(self) -> Option<usize> {
        match self {
            Value::Array(items) => Some(items.len()),
            Value::Object(members) => Some(members.len()),
            _ => None,
        }
    }

    fn put_keys(self, out: &mut Vec<u8>) -> Option<Result<(), AllocError>> {
        let keys = self.as_object()?.keys();
        Some(put_keys(keys.map(|key| key.as_text()), out))
    }

    fn put(self, out: &mut Vec<u8>) -> Result<(), AllocError> {
        self.encode(out)
    }
}

/// A part of a tape.
impl Part for TapeValue<'_, '_> {
    ghost tree = { view_tree };

    fn child(self, step: &PathPart) -> Option<Self> {
        match step {
            PathPart::Key(name) => self.get(name),
            PathPart::Item(place) => self.get_idx(*place as usize),
        }
    }

    fn contains_key(self, key: &str) -> bool {
        TapeValue::contains_key(&self, key)
    }

    fn type_name(self) -> &'static str {
        match self.as_scalar() {
            Some(scalar) => scalar_name(&scalar),
            None if self.is_array() => "array",
            None => "object",
        }
    }

    fn count(self) -> Option<usize> {
        match self.as_array() {
            Some(items) => Some(items.len()),
            None => Some(self.as_object()?.len()),
        }
    }

    fn put_keys(self, out: &mut Vec<u8>) -> Option<Result<(), AllocError>> {
        Some(put_keys(self.as_object()?.keys(), out))
    }

    fn put(self, out: &mut Vec<u8>) -> Result<(), AllocError> {
        self.encode(out)
    }
}

fn scalar_name(scalar: &Scalar<'_>) -> &'static str
    ensures { result.now ≡ type_name (scalar_tree scalar.now) }
{
    match scalar {
        Scalar::Static(StaticNode::Null) => "null",
        Scalar::Static(StaticNode::Bool(_)) => "bool",
        Scalar::Static(StaticNode::I64(_) | StaticNode::U64(_)) => "integer",
        Scalar::Literal(_) => "decimal",
        Scalar::Text(_) => "string",
    }
}

/// Appends an array of the keys. After an error a part of it may stay.
fn put_keys<'k, I: Iterator<Item = &'k str> + Drop>(
    keys: I,
    out: &mut Vec<u8>,
) -> Result<(), AllocError>
    requires can { I.can_next keys }
    requires ends { IsFinite (I.remaining keys) }
    ensures { PutsEach I.next_gives keys result out.old.items out.new.items }
{
    let mut list = Layout::Compact.open_list(out)?;
    for key in keys {
        list.next(out)?;
        print_text(out, &Scalar::Text(key))?;
    }
    list.close(out)
}
