//! Documents: their reads and writes by paths, and the replies to them.
ghost use Rattle.std.specs.Prelude.{◌≡◌, ◌++◌, option_map, IfOk, OnErr};
ghost use Rattle.sj_base.specs.Tree.{Tree};
ghost use Rattle.sj_base.specs.Path.{at};
ghost use Rattle.sj_base.specs.Text.{text, pretty};
ghost use Rattle.sj_owned.specs.Views.{value_tree};
ghost use Rattle.sj_documents.specs.Step.{Keeping, from_start, base, reply_of, contains_reply, type_reply, len_reply, keys_reply};
ghost use Rattle.sj_documents.specs.Step.{fits, fits_below, insertion, removal, pushing, popping, setting};
ghost use Rattle.sj_scripts.specs.Values.{owned_tree};
ghost use Rattle.sj_documents.specs.Inverse.{found_of, drop_item, place_at, insertion_back, removal_back, popping_back, setting_back};
ghost use Rattle.sj_documents.specs.Inverses.{change_view, Settles, TakesBack};
ghost use Rattle.sj_documents.specs.inside.Documents.{rewrite_of, back_of};
ghost use Rattle.sj_scripts.specs.Script.{path_view};
ghost use Rattle.sj_base.specs.Output.{AppendsOrLeaves};

use crate::edit::{ScriptText, Write, edit_at, is_within, is_within_below};
use crate::inverse::{Inverse, Undo, WriteResult};
use crate::reads::{contains_at, find, len_at, put_answer, put_found, put_keys_at, type_at};
use sj_base::put_string;
use sj_object::ObjectKey;
use sj_owned::{Literal, OwnedValue, Value};
use sj_scripts::{MemoryOr, PathPart, ScriptValue};
use std::alloc::{AllocError, Global};

/// A document in one of the forms that a run keeps it in: owned, borrowed, or lazy as [`LazyDocument`](crate::LazyDocument). A
/// call that takes `out` appends to it, and on an error appends nothing. The recursion is as deep as the document or the
/// value nests.
///
/// The write calls are `insert`, `remove`, `push`, `pop` and `set_at`. Those that take `depth` refuse a value that would nest
/// more levels than that in the document. With `Undo::Possible` each returns what takes the write back, or `None` if it is
/// refused. With `Undo::Impossible` it returns `None`, refused or not. After an error the document is unchanged, or the write has
/// been made in full, or, in the form `Lazy`, only the repeated members have been dropped. No inverse is handed out then, also
/// where the write has been made.
pub trait Document {
    // The tree that the document stands for.
    ghost tree: { Self → Tree };

    // From when on it keeps only the first of members with equal keys.
    ghost keeping: { Keeping };

    /// Appends the reply to the command `get`: an array of the value that the path selects, or an empty array.
    ///
    /// # Errors
    ///
    /// `AllocError` if there is no memory for the reply.
    fn get(&self, path: &[PathPart], out: &mut Vec<u8>) -> Result<(), AllocError>
        ensures { AppendsOrLeaves result out.old.items out.new.items
            (text (reply_of (at (tree self.now) (path_view path.now)))) };

    /// Appends the reply to the command `contains`: whether the path selects an object with this key, or `"NoSuchPath"`.
    ///
    /// # Errors
    ///
    /// `AllocError` if there is no memory for the reply.
    fn contains(&self, path: &[PathPart], key: &str, out: &mut Vec<u8>) -> Result<(), AllocError>
        ensures { AppendsOrLeaves result out.old.items out.new.items
            (text (contains_reply (tree self.now) (path_view path.now) key.now)) };

    /// Appends the reply to the command `type`: the type of the value that the path selects, or `"NoSuchPath"`.
    ///
    /// # Errors
    ///
    /// `AllocError` if there is no memory for the reply.
    fn type_of(&self, path: &[PathPart], out: &mut Vec<u8>) -> Result<(), AllocError>
        ensures { AppendsOrLeaves result out.old.items out.new.items
            (text (type_reply (tree self.now) (path_view path.now))) };

    /// Appends the reply to the command `len`: the number of items or members, or `"NoSuchPath"` or `"NotAContainer"`.
    ///
    /// # Errors
    ///
    /// `AllocError` if there is no memory for the reply.
    fn len(&self, path: &[PathPart], out: &mut Vec<u8>) -> Result<(), AllocError>
        ensures { AppendsOrLeaves result out.old.items out.new.items
            (text (len_reply (tree self.now) (path_view path.now))) };

    /// Appends the reply to the command `keys`: an array of the keys in order, or `"NoSuchPath"` or `"NotAnObject"`.
    ///
    /// # Errors
    ///
    /// `AllocError` if there is no memory for the reply.
    fn keys(&self, path: &[PathPart], out: &mut Vec<u8>) -> Result<(), AllocError>
        ensures { AppendsOrLeaves result out.old.items out.new.items
            (text (keys_reply (tree self.now) (path_view path.now))) };

    /// Replaces the value of a key in the object that the path selects, or adds a member at the end. Appends the reply to the
    /// command `insert`.
    ///
    /// # Errors
    ///
    /// `AllocError` if there is no memory for the copy of the value, the new member, the inverse, the reply or, in the form
    /// `Lazy`, the document that is built.
    fn insert(
        &mut self,
        path: &[PathPart],
        key: &str,
        value: &ScriptValue,
        depth: usize,
        undo: Undo,
        out: &mut Vec<u8>,
    ) -> WriteResult
        ensures { Settles undo result out.old.items out.new.items keeping (tree self.old) (tree self.new) (path_view path.now)
            (insertion (fits_below (path_view path.now) (owned_tree value.now.value) depth) key.now (owned_tree value.now.value))
            (insertion_back key.now) };

    /// Takes the member of a key out of the object that the path selects. Appends the reply to the command `remove`.
    ///
    /// # Errors
    ///
    /// `AllocError` if there is no memory for the inverse, the reply or, in the form `Lazy`, the document that is built.
    fn remove(&mut self, path: &[PathPart], key: &str, undo: Undo, out: &mut Vec<u8>) -> WriteResult
        ensures { Settles undo result out.old.items out.new.items keeping (tree self.old) (tree self.new) (path_view path.now)
            (removal key.now)
            (removal_back (place_at (base (tree self.old) keeping) (path_view path.now) key.now) key.now) };

    /// Adds an item at the end of the array that the path selects. Appends the reply to the command `push`.
    ///
    /// # Errors
    ///
    /// `AllocError` if there is no memory for the copy of the value, the new item, the inverse, the reply or, in the form `Lazy`,
    /// the document that is built.
    fn push(
        &mut self,
        path: &[PathPart],
        value: &ScriptValue,
        depth: usize,
        undo: Undo,
        out: &mut Vec<u8>,
    ) -> WriteResult
        ensures { Settles undo result out.old.items out.new.items keeping (tree self.old) (tree self.new) (path_view path.now)
            (pushing (fits_below (path_view path.now) (owned_tree value.now.value) depth) (owned_tree value.now.value))
            (λ _. drop_item) };

    /// Takes the last item out of the array that the path selects. Appends the reply to the command `pop`.
    ///
    /// # Errors
    ///
    /// `AllocError` if there is no memory for the inverse, the reply or, in the form `Lazy`, the document that is built.
    fn pop(&mut self, path: &[PathPart], undo: Undo, out: &mut Vec<u8>) -> WriteResult
        ensures { Settles undo result out.old.items out.new.items keeping (tree self.old) (tree self.new) (path_view path.now)
            popping popping_back };

    /// Replaces the value that the path selects. Appends the reply to the command `set`.
    ///
    /// # Errors
    ///
    /// `AllocError` if there is no memory for the copy of the value, the inverse, the reply or, in the form `Lazy`, the document
    /// that is built.
    fn set_at(
        &mut self,
        path: &[PathPart],
        value: &ScriptValue,
        depth: usize,
        undo: Undo,
        out: &mut Vec<u8>,
    ) -> WriteResult
        ensures { Settles undo result out.old.items out.new.items keeping (tree self.old) (tree self.new) (path_view path.now)
            (setting (fits (path_view path.now) (owned_tree value.now.value) depth) (owned_tree value.now.value))
            setting_back };

    /// Takes a write back: makes the change of its inverse, and returns `true`. Returns `false` if the change can't be made.
    /// The document is then as it was or, in the form `Lazy`, without repeated members. The inverse is dropped.
    ///
    /// # Errors
    ///
    /// `AllocError` if there is no memory for the member, item or part that is put or, in the form `Lazy`, for the document that
    /// is built. The document is unchanged, or the change has been made in full, or, in the form `Lazy`, only the repeated
    /// members have been dropped. The inverse is dropped.
    fn take_back(&mut self, alloc: Global, inverse: Inverse) -> Result<bool, AllocError>
        ensures { TakesBack result keeping (tree self.old) (tree self.new) (path_view inverse.path.items) (change_view inverse.change) };

    /// Appends the compact text.
    ///
    /// # Errors
    ///
    /// `AllocError` if there is no memory for the text.
    fn text(&self, out: &mut Vec<u8>) -> Result<(), AllocError>
        ensures { AppendsOrLeaves result out.old.items out.new.items (text (tree self.now)) };

    /// Appends the indented text.
    ///
    /// # Errors
    ///
    /// `AllocError` if there is no memory for the text.
    fn pretty(&self, out: &mut Vec<u8>) -> Result<(), AllocError>
        ensures { AppendsOrLeaves result out.old.items out.new.items (pretty (tree self.now)) };
}

/// The forms `Owned` and `Borrowed`.
impl<K: ScriptText<D> + Drop, D: Literal + Drop> Document for Value<K, D> {
    ghost tree = { value_tree K.text D.literal };

    ghost keeping = { from_start };

    fn get(&self, path: &[PathPart], out: &mut Vec<u8>) -> Result<(), AllocError> {
        put_found(find(self, path), out)
    }

    fn contains(&self, path: &[PathPart], key: &str, out: &mut Vec<u8>) -> Result<(), AllocError> {
        put_answer(contains_at(self, path, key), out)
    }

    fn type_of(&self, path: &[PathPart], out: &mut Vec<u8>) -> Result<(), AllocError> {
        put_answer(type_at(self, path), out)
    }

    fn len(&self, path: &[PathPart], out: &mut Vec<u8>) -> Result<(), AllocError> {
        put_answer(len_at(self, path), out)
    }

    fn keys(&self, path: &[PathPart], out: &mut Vec<u8>) -> Result<(), AllocError> {
        put_keys_at(self, path, out)
    }

    fn insert(
        &mut self,
        path: &[PathPart],
        key: &str,
        value: &ScriptValue,
        depth: usize,
        undo: Undo,
        out: &mut Vec<u8>,
    ) -> WriteResult {
        let fits = is_within_below(path, value.depth(), depth);
        let value = value.value();
        make_write(self, path, Write::Insert { key, value, fits }, undo, out)
    }

    fn remove(
        &mut self,
        path: &[PathPart],
        key: &str,
        undo: Undo,
        out: &mut Vec<u8>,
    ) -> WriteResult {
        let place = match undo {
            Undo::Possible => place_at(self, path, key),
            Undo::Impossible => 0,
        };
        make_write(self, path, Write::Remove { key, place }, undo, out)
    }

    fn push(
        &mut self,
        path: &[PathPart],
        value: &ScriptValue,
        depth: usize,
        undo: Undo,
        out: &mut Vec<u8>,
    ) -> WriteResult {
        let fits = is_within_below(path, value.depth(), depth);
        let value = value.value();
        make_write(self, path, Write::Push { value, fits }, undo, out)
    }

    fn pop(&mut self, path: &[PathPart], undo: Undo, out: &mut Vec<u8>) -> WriteResult {
        make_write(self, path, Write::Pop, undo, out)
    }

    fn set_at(
        &mut self,
        path: &[PathPart],
        value: &ScriptValue,
        depth: usize,
        undo: Undo,
        out: &mut Vec<u8>,
    ) -> WriteResult {
        let fits = is_within(path, value.depth(), depth);
        let value = value.value();
        make_write(self, path, Write::Set { value, fits }, undo, out)
    }

    fn take_back(&mut self, alloc: Global, inverse: Inverse) -> Result<bool, AllocError> {
        let Inverse { path, change } = inverse;
        match edit_at(alloc, self, &path, change) {
            Ok(_) => Ok(true),
            Err(MemoryOr::Refused(_)) => Ok(false),
            Err(MemoryOr::Memory) => Err(AllocError),
        }
    }

    fn text(&self, out: &mut Vec<u8>) -> Result<(), AllocError> {
        self.encode(out)
    }

    fn pretty(&self, out: &mut Vec<u8>) -> Result<(), AllocError> {
        self.encode_pp(out)
    }
}

/// Makes a write and appends its reply. With `Undo::Possible` returns what takes it back, unless it is refused.
fn make_write<K: ScriptText<D> + Drop, D: Literal + Drop>(
    document: &mut Value<K, D>,
    path: &[PathPart],
    write: Write<'_>,
    undo: Undo,
    out: &mut Vec<u8>,
) -> WriteResult
    ensures { Settles undo result out.old.items out.new.items from_start (value_tree K.text D.literal document.old) (value_tree K.text D.literal document.new)
        (path_view path.now) (rewrite_of write.entry) (back_of write.entry) }
{
    let alloc = *out.allocator();
    let found = match edit_at(alloc, document, path, write) {
        Ok(found) => found,
        Err(MemoryOr::Refused(refusal)) => {
            put_string(out, refusal.name())?;
            return Ok(None);
        }
        Err(MemoryOr::Memory) => return Err(AllocError),
    };
    match undo {
        Undo::Possible => {
            let found = own_found(alloc, found)?;
            let inverse = put_write_reply(path, write, found, out)?;
            Ok(Some(inverse))
        }
        Undo::Impossible => {
            put_taken(found, out)?;
            Ok(None)
        }
    }
}

/// Appends the reply to a write that was made. `found`, the value that it replaced or took out, is dropped.
fn put_taken<K: ScriptText<D> + Drop, D: Literal + Drop>(
    found: Option<Value<K, D>>,
    out: &mut Vec<u8>,
) -> Result<(), AllocError>
    ensures { AppendsOrLeaves result out.old.items out.new.items (text (reply_of (option_map (value_tree K.text D.literal) found))) }
{
    put_found(found.as_ref(), out)
}

/// Appends the reply to a write that was made, and returns what takes it back. `found` is the value that it replaced or took out.
fn put_write_reply(
    path: &[PathPart],
    write: Write<'_>,
    found: Option<OwnedValue>,
    out: &mut Vec<u8>,
) -> Result<Inverse, AllocError>
    ensures path { IfOk result (λ inverse. path_view inverse.path.items ≡ path_view path.now) }
    ensures change { IfOk result (λ inverse. change_view inverse.change ≡ back_of write.entry (option_map owned_tree found)) }
    ensures reply { IfOk result (λ inverse. out.new.items ≡ out.old.items ++ text (reply_of (found_of (change_view inverse.change)))) }
    ensures unchanged { OnErr result (out.new.items ≡ out.old.items) }
{
    let alloc = *out.allocator();
    let change = write.inverse(alloc, found)?;
    let inverse = Inverse::new(alloc, path, change)?;
    put_found(inverse.change.found(), out)?;
    Ok(inverse)
}

fn own_found<K: ScriptText<D> + Drop, D: Literal + Drop>(
    alloc: Global,
    found: Option<Value<K, D>>,
) -> Result<Option<OwnedValue>, AllocError>
    ensures { IfOk result (λ owned. option_map owned_tree owned ≡ option_map (value_tree K.text D.literal) found) }
{
    match found {
        Some(mut value) => Ok(Some(K::take_owned(alloc, &mut value)?)),
        None => Ok(None),
    }
}

/// Returns the place, from 0, of a key in the object that the path selects, or the number of members if the key isn't there.
/// Returns 0 if the path selects no object.
fn place_at<K: ObjectKey, D: Literal>(document: &Value<K, D>, path: &[PathPart], key: &str) -> usize
    ensures { result ≡ place_at (value_tree K.text D.literal document.now) (path_view path.now) key.now }
{
    let Some(part) = find(document, path) else {
        return 0;
    };
    match part.as_object() {
        Some(members) => members.place(key).unwrap_or(members.len()),
        None => 0,
    }
}
