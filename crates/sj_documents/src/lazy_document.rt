//! Documents in the form `Lazy`.
ghost use Rattle.std.specs.Prelude.{◌≡◌, true};
ghost use Rattle.sj_lazy.specs.Contents.{contents, is_tape};
ghost use Rattle.sj_lazy.specs.Views.{lazy_tree};
ghost use Rattle.sj_tape.specs.Views.{value_tree as view_tree};
ghost use Rattle.sj_documents.specs.Step.{from_write};
ghost use Rattle.sj_documents.specs.inside.LazyDocuments.{RepeatsNoKey};

use crate::document::Document;
use crate::inverse::{Inverse, Undo, WriteResult};
use crate::reads::{contains_at, find, len_at, put_answer, put_found, put_keys_at, type_at};
use sj_lazy::Value as LazyValue;
use sj_scripts::{PathPart, ScriptValue};
use sj_tape::Value as TapeValue;
use std::alloc::{AllocError, Global};

/// A document in the form `Lazy`: a value of a tape until the first write call, refused or not, or the first `take_back`, and from
/// then on a document that keeps only the first of members with equal keys. A call that has no memory for the document leaves the
/// tape.
#[derive(Debug, Drop)]
pub struct LazyDocument<'t, 'i> {
    value: LazyValue<'t, 't, 'i>,
    ghost repeats_no_key: { RepeatsNoKey value },
}

impl<'t, 'i> LazyDocument<'t, 'i> {
    /// Creates a document that is this value of a tape. Builds nothing.
    pub fn new(value: TapeValue<'t, 'i>) -> LazyDocument<'t, 'i>
        ensures tree { lazy_tree result.value ≡ view_tree value.entry }
        ensures tape { is_tape (contents result.value) ≡ true }
    {
        LazyDocument {
            value: LazyValue::from_tape(value),
        }
    }
}

/// The form `Lazy`.
impl Document for LazyDocument<'_, '_> {
    ghost tree = { λ d. lazy_tree d.value };

    ghost keeping = { from_write };

    fn get(&self, path: &[PathPart], out: &mut Vec<u8>) -> Result<(), AllocError> {
        match &self.value {
            LazyValue::Tape(view) => put_found(find(*view, path), out),
            LazyValue::Value(held) => Document::get(held.as_document(), path, out),
        }
    }

    fn contains(&self, path: &[PathPart], key: &str, out: &mut Vec<u8>) -> Result<(), AllocError> {
        match &self.value {
            LazyValue::Tape(view) => put_answer(contains_at(*view, path, key), out),
            LazyValue::Value(held) => Document::contains(held.as_document(), path, key, out),
        }
    }

    fn type_of(&self, path: &[PathPart], out: &mut Vec<u8>) -> Result<(), AllocError> {
        match &self.value {
            LazyValue::Tape(view) => put_answer(type_at(*view, path), out),
            LazyValue::Value(held) => Document::type_of(held.as_document(), path, out),
        }
    }

    fn len(&self, path: &[PathPart], out: &mut Vec<u8>) -> Result<(), AllocError> {
        match &self.value {
            LazyValue::Tape(view) => put_answer(len_at(*view, path), out),
            LazyValue::Value(held) => Document::len(held.as_document(), path, out),
        }
    }

    fn keys(&self, path: &[PathPart], out: &mut Vec<u8>) -> Result<(), AllocError> {
        match &self.value {
            LazyValue::Tape(view) => put_keys_at(*view, path, out),
            LazyValue::Value(held) => Document::keys(held.as_document(), path, out),
        }
    }

    fn insert(
        &mut self,
        path: &[PathPart],
        key: &str,
        value: &ScriptValue,
        depth: usize,
        undo: Undo,
        out: &mut Vec<u8>,
    ) -> WriteResult {
        let document = self.value.value_mut(*out.allocator())?;
        Document::insert(document, path, key, value, depth, undo, out)
    }

    fn remove(
        &mut self,
        path: &[PathPart],
        key: &str,
        undo: Undo,
        out: &mut Vec<u8>,
    ) -> WriteResult {
        let document = self.value.value_mut(*out.allocator())?;
        Document::remove(document, path, key, undo, out)
    }

    fn push(
        &mut self,
        path: &[PathPart],
        value: &ScriptValue,
        depth: usize,
        undo: Undo,
        out: &mut Vec<u8>,
    ) -> WriteResult {
        let document = self.value.value_mut(*out.allocator())?;
        Document::push(document, path, value, depth, undo, out)
    }

    fn pop(&mut self, path: &[PathPart], undo: Undo, out: &mut Vec<u8>) -> WriteResult {
        let document = self.value.value_mut(*out.allocator())?;
        Document::pop(document, path, undo, out)
    }

    fn set_at(
        &mut self,
        path: &[PathPart],
        value: &ScriptValue,
        depth: usize,
        undo: Undo,
        out: &mut Vec<u8>,
    ) -> WriteResult {
        let document = self.value.value_mut(*out.allocator())?;
        Document::set_at(document, path, value, depth, undo, out)
    }

    fn take_back(&mut self, alloc: Global, inverse: Inverse) -> Result<bool, AllocError> {
        // The value that is put back has to be known to repeat no key.
        inverse.change.walk()?;
        let document = self.value.value_mut(alloc)?;
        Document::take_back(document, alloc, inverse)
    }

    fn text(&self, out: &mut Vec<u8>) -> Result<(), AllocError> {
        self.value.encode(out)
    }

    fn pretty(&self, out: &mut Vec<u8>) -> Result<(), AllocError> {
        self.value.encode_pp(out)
    }
}
