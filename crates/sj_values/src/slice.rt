//! Borrowed documents that are built, one after another, from the nodes of a view.
ghost use Rattle.std.specs.Prelude.{◌≡◌, ◌↔◌, ◌+◌, ◌<◌, ◌≤◌, Some, IsTrue, IfOk, OnErr, length, slice_get};
ghost use Rattle.std.specs.Cow.{cow_str_bytes};
ghost use Rattle.sj_base.specs.Scalar.{decimal_cow_text};
ghost use Rattle.sj_tape.specs.Views.{value_nodes};
ghost use Rattle.sj_build.specs.Steps.{Takes};
ghost use Rattle.sj_owned.specs.Views.{value_tree};

use crate::borrowed::Value;
use sj_owned::build_value;
use sj_tape::{Node, Value as TapeValue};
use std::alloc::{AllocError, Global};
use std::borrow::CowStr;

/// Builds borrowed documents, one after another, from the nodes of a view of a tape. Port of
/// `simd_json::value::borrowed::BorrowSliceDeserializer`, which reads a slice of nodes.
#[derive(Debug, Drop)]
pub struct BorrowSliceDeserializer<'t, 'v> {
    view: TapeValue<'t, 'v>,
    next: usize,
}

impl<'t, 'v> BorrowSliceDeserializer<'t, 'v> {
    ghost use Rattle.sj_values.specs.Slices.{slice_nodes, slice_next};

    /// Creates a deserializer before the first node of a view. Takes no memory.
    ///
    /// [`TapeValue::null`] has no node, so nothing is left of it.
    pub fn from_tape(view: TapeValue<'t, 'v>) -> BorrowSliceDeserializer<'t, 'v>
        ensures nodes { slice_nodes result ≡ value_nodes view.entry }
        ensures start { slice_next result ≡ 0 }
    {
        BorrowSliceDeserializer { view, next: 0 }
    }

    /// Returns `true` if no node is left.
    pub fn is_at_end(&self) -> bool
        ensures { IsTrue result ↔ (length (slice_nodes self.now) ≤ slice_next self.now) }
    {
        self.next >= self.view.nodes().len()
    }

    /// Returns the next node, and goes past it. A node has to be left, which [`BorrowSliceDeserializer::is_at_end`] tells.
    pub fn next_(&mut self) -> Node<'v>
        requires { slice_next self.old < length (slice_nodes self.old) }
        ensures node { slice_get (slice_nodes self.old) (slice_next self.old) ≡ Some result }
        ensures nodes { slice_nodes self.new ≡ slice_nodes self.old }
        ensures next { slice_next self.new ≡ slice_next self.old + 1 }
    {
        let node = self.view.nodes()[self.next];
        self.next += 1;
        node
    }

    /// Builds the value whose first node comes next, and goes past its nodes. Of members with equal keys the first one is
    /// kept. If a key comes next, it is read as a string. A node has to be left, which
    /// [`BorrowSliceDeserializer::is_at_end`] tells.
    ///
    /// # Errors
    ///
    /// `AllocError` if there is no memory for it. The same node comes next then.
    pub fn parse(&mut self, alloc: Global) -> Result<Value<'v>, AllocError>
        requires { slice_next self.old < length (slice_nodes self.old) }
        ensures value { IfOk result (λ v. Takes (slice_nodes self.old) (slice_next self.old)
            (value_tree cow_str_bytes decimal_cow_text v) (slice_next self.new)) }
        ensures nodes { slice_nodes self.new ≡ slice_nodes self.old }
        ensures unchanged { OnErr result (slice_next self.new ≡ slice_next self.old) }
    {
        let end = self.view.nodes().len();
        let view = self.view.value_at(self.next);
        let count = view.nodes().len();
        prove!(count <= end - self.next);
        let value = build_value::<Value<'v>, CowStr<'v>>(alloc, view)?;
        self.next += count;
        Ok(value)
    }
}
