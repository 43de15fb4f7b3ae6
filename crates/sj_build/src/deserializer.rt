//! Values that are built of the nodes of a tape, one after another.
ghost use Rattle.std.specs.Prelude.{◌≡◌, ◌↔◌, ◌<◌, ◌≤◌, IsTrue, IfOk, OnErr, length};
ghost use Rattle.sj_parse.specs.Answers.{deserializer_nodes, deserializer_next};
ghost use Rattle.sj_build.specs.Steps.{Takes};

use crate::build::build_value;
use crate::built::BuildValue;
use sj_object::MakeKey;
use sj_parse::Deserializer;
use std::alloc::{AllocError, Global};
use std::marker::PhantomData;

/// Builds values of the type `V` of the nodes of a tape, one after another. Port of
/// `simd_json::value::ValueDeserializer`.
#[derive(Debug, Drop)]
pub struct ValueDeserializer<'de, V, K> {
    nodes: Deserializer<'de>,
    built: PhantomData<(V, K)>,
}

impl<'de, V: BuildValue<'de, K> + Drop, K: MakeKey<'de> + Drop> ValueDeserializer<'de, V, K> {
    ghost use Rattle.sj_build.specs.Deserializers.{left};

    /// Creates a deserializer that begins with the next node of the given one. Takes no memory.
    pub fn from_deserializer(nodes: Deserializer<'de>) -> ValueDeserializer<'de, V, K>
        ensures { left result ≡ nodes.entry }
    {
        ValueDeserializer {
            nodes,
            built: PhantomData,
        }
    }

    /// Returns `true` if no node is left.
    pub fn is_at_end(&self) -> bool
        ensures { IsTrue result ↔ (length (deserializer_nodes (left self.now)) ≤ deserializer_next (left self.now)) }
    {
        self.nodes.is_at_end()
    }

    /// Builds the value whose first node comes next, and goes past its nodes. Of members with equal keys the first one is
    /// kept. If a key comes next, it is read as a string. A node has to be left, which [`ValueDeserializer::is_at_end`] tells.
    ///
    /// # Errors
    ///
    /// `AllocError` if there is no memory for the value, or to build it. The same node comes next then.
    pub fn parse(&mut self, alloc: Global) -> Result<V, AllocError>
        requires { deserializer_next (left self.old) < length (deserializer_nodes (left self.old)) }
        ensures value { IfOk result (λ v. Takes (deserializer_nodes (left self.old)) (deserializer_next (left self.old))
            (V.tree v) (deserializer_next (left self.new))) }
        ensures nodes { deserializer_nodes (left self.new) ≡ deserializer_nodes (left self.old) }
        ensures unchanged { OnErr result (deserializer_next (left self.new) ≡ deserializer_next (left self.old)) }
    {
        let view = self.nodes.next_value();
        let count = view.nodes().len();
        let value = build_value(alloc, view)?;
        self.nodes.skip(count);
        Ok(value)
    }
}
