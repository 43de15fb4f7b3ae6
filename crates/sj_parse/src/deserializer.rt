//! A tape whose nodes are taken one by one.
ghost use Rattle.std.specs.Prelude.{◌≡◌, ◌≢◌, ◌↔◌, ◌+◌, ◌<◌, ◌≤◌, List, [], ◌∷◌, ◌++◌, Some, Err, IsTrue, IfOk, drop, length, slice_get};
ghost use Rattle.sj_base.specs.Tree.{IsValidTree};
ghost use Rattle.sj_base.specs.Spelling.{longest};
ghost use Rattle.sj_base.specs.declared.TheConstants.{DEFAULT_MAX_DEPTH};
ghost use Rattle.sj_base.specs.declared.error.ErrorType.TheVariants.{InputTooLarge};
ghost use Rattle.sj_tape.specs.Listing.{listing};
ghost use Rattle.sj_tape.specs.Nodes.{entries};
ghost use Rattle.sj_tape.specs.Views.{tape_nodes, value_nodes, value_tree};
ghost use Rattle.sj_parse.specs.Fault.{generic, fault};
ghost use Rattle.sj_parse.specs.Answers.{Answers, Leaves, buffer_texts, buffer_positions, buffer_limit, buffer_room, buffer_levels, deserializer_nodes, deserializer_next};

use crate::Result;
use crate::buffers::Buffers;
use crate::reading::{to_tape, to_tape_with_buffers};
use sj_tape::{Node, Tape, Value};
use std::alloc::Global;

/// A tape, and the index of the node that is taken next. Port of `simd_json::Deserializer`.
#[derive(Debug, Drop)]
pub struct Deserializer<'de> {
    tape: Tape<'de>,
    next: usize,
}

impl<'de> Deserializer<'de> {
    /// Reads a text by [`to_tape`], and creates a deserializer before its first node. Port of
    /// `simd_json::Deserializer::from_slice`.
    ///
    /// # Errors
    ///
    /// Those of [`to_tape`].
    pub fn from_slice(alloc: Global, s: &'de mut [u8]) -> Result<Deserializer<'de>>
        ensures answers { Answers deserializer_nodes s.entry.now DEFAULT_MAX_DEPTH (fault s.entry.now DEFAULT_MAX_DEPTH) result }
        ensures not_empty { IfOk result (λ d. deserializer_nodes d ≢ []) }
        ensures start { IfOk result (λ d. deserializer_next d ≡ 0) }
        ensures too_large { longest < length s.entry.now → result ≡ Err (generic InputTooLarge) }
    {
        Ok(Deserializer::from_tape(to_tape(alloc, s)?))
    }

    /// Reads a text by [`to_tape_with_buffers`], and creates a deserializer before its first node. Port of
    /// `simd_json::Deserializer::from_slice_with_buffers`.
    ///
    /// # Errors
    ///
    /// Those of [`to_tape_with_buffers`].
    pub fn from_slice_with_buffers(
        alloc: Global,
        s: &'de mut [u8],
        buffers: &mut Buffers,
    ) -> Result<Deserializer<'de>>
        ensures answers { let limit = buffer_limit buffers.old in
            Answers deserializer_nodes s.entry.now limit (fault s.entry.now limit) result }
        ensures not_empty { IfOk result (λ d. deserializer_nodes d ≢ []) }
        ensures start { IfOk result (λ d. deserializer_next d ≡ 0) }
        ensures too_large { longest < length s.entry.now → result ≡ Err (generic InputTooLarge) }
        ensures scanned { length s.entry.now ≤ longest → Leaves s.entry.now result (buffer_positions buffers.new) }
        ensures not_scanned { longest < length s.entry.now → buffer_positions buffers.new ≡ buffer_positions buffers.old }
        ensures texts { buffer_texts buffers.new ≡ buffer_texts buffers.old ++ length s.entry.now ∷ [] }
        ensures limit { buffer_limit buffers.new ≡ buffer_limit buffers.old }
        ensures room { buffer_room buffers.old ≤ buffer_room buffers.new }
        ensures levels { buffer_levels buffers.old ≤ buffer_levels buffers.new }
        ensures bound { IfOk result (λ d. length (deserializer_nodes d) ≤ length (buffer_positions buffers.new)) }
    {
        Ok(Deserializer::from_tape(to_tape_with_buffers(alloc, s, buffers)?))
    }

    /// Creates a deserializer before the first node of a tape. Takes no memory. Port of
    /// `simd_json::Deserializer::from_tape`.
    pub fn from_tape(tape: Tape<'de>) -> Deserializer<'de>
        ensures nodes { deserializer_nodes result ≡ tape_nodes tape.entry }
        ensures start { deserializer_next result ≡ 0 }
    {
        Deserializer { tape, next: 0 }
    }

    /// Returns the tape, with all its nodes. Takes no memory. Port of `simd_json::Deserializer::into_tape`.
    pub fn into_tape(self) -> Tape<'de>
        ensures { tape_nodes result ≡ deserializer_nodes self.entry }
    {
        let Deserializer { tape, .. } = self;
        tape
    }

    /// Goes back before the first node. Port of `simd_json::Deserializer::restart`.
    pub fn restart(&mut self)
        ensures nodes { deserializer_nodes self.new ≡ deserializer_nodes self.old }
        ensures start { deserializer_next self.new ≡ 0 }
    {
        self.next = 0;
    }

    /// Returns `true` if no node is left.
    pub fn is_at_end(&self) -> bool
        ensures { IsTrue result ↔ (length (deserializer_nodes self.now) ≤ deserializer_next self.now) }
    {
        self.next >= self.tape.nodes().len()
    }

    /// Returns the next node, and goes past it. A node has to be left, which [`Deserializer::is_at_end`] tells. Port of
    /// `simd_json::Deserializer::next_`.
    pub fn next_(&mut self) -> Node<'de>
        requires { deserializer_next self.old < length (deserializer_nodes self.old) }
        ensures node { slice_get (deserializer_nodes self.old) (deserializer_next self.old) ≡ Some result }
        ensures nodes { deserializer_nodes self.new ≡ deserializer_nodes self.old }
        ensures next { deserializer_next self.new ≡ deserializer_next self.old + 1 }
    {
        let node = self.tape.nodes()[self.next];
        self.next += 1;
        node
    }

    /// Returns `true` if the tape has no nodes, and so no document.
    pub fn is_empty(&self) -> bool
        ensures { IsTrue result ↔ (deserializer_nodes self.now ≡ []) }
    {
        self.tape.is_empty()
    }

    /// Returns a view of the whole document. There has to be one, which [`Deserializer::is_empty`] tells. Port of
    /// `simd_json::Deserializer::as_value`.
    pub fn as_value(&self) -> Value<'_, 'de>
        requires { deserializer_nodes self.now ≢ [] }
        ensures nodes { value_nodes result ≡ deserializer_nodes self.now }
        ensures is_valid { IsValidTree (value_tree result) }
    {
        self.tape.as_value()
    }

    /// Returns a view of the value whose first node comes next, and doesn't go past it. A node has to be left, which
    /// [`Deserializer::is_at_end`] tells. The key of a member has a node of its own, a string.
    pub fn next_value(&self) -> Value<'_, 'de>
        requires { deserializer_next self.now < length (deserializer_nodes self.now) }
        ensures nodes { (rest : List Node) × (drop (deserializer_next self.now) (deserializer_nodes self.now) ≡ value_nodes result ++ rest) }
        ensures listed { entries (value_nodes result) ≡ listing (value_tree result) }
    {
        self.tape.value_at(self.next)
    }

    /// Goes past the next `count` nodes. So many have to be left, as those of [`Deserializer::next_value`] are.
    pub fn skip(&mut self, count: usize)
        requires { deserializer_next self.old + count ≤ length (deserializer_nodes self.old) }
        ensures nodes { deserializer_nodes self.new ≡ deserializer_nodes self.old }
        ensures next { deserializer_next self.new ≡ deserializer_next self.old + count }
    {
        self.next += count;
    }
}
