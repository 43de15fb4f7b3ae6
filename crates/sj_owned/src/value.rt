//! The type of documents, and how new ones are made.
ghost use Rattle.std.specs.Prelude.{◌≡◌, ◌≤◌, [], Some, IfOk, IfSome, is_some, vec_capacity};

use crate::literal::Literal;
use sj_base::{StaticNode, ValueType};
use sj_object::{Object, ObjectKey};
use std::alloc::{AllocError, Global};

/// A JSON document. Strings and keys are of the type `K`, and decimal literals of the type `D`.
///
/// An object keeps its members in insertion order.
#[derive(Debug, Drop)]
pub enum Value<K: ObjectKey, D> {
    /// Null, a boolean or an integer.
    Static(StaticNode),
    /// A number with a fraction or an exponent, or an integer below -2^63 or above 2^64 - 1.
    Decimal(D),
    /// A string.
    String(K),
    /// An array.
    Array(Vec<Value<K, D>>),
    /// An object.
    Object(Object<K, Value<K, D>>),
}

impl<K: ObjectKey, D: Literal> Value<K, D> {
    ghost use Rattle.sj_owned.specs.Views.{value_kind, array_inside, items_inside, members_inside};

    /// Creates a null.
    pub fn null() -> Self
        ensures { result ≡ Value.Static StaticNode.Null }
    {
        Value::Static(StaticNode::Null)
    }

    /// Creates an array without items. Allocates nothing.
    pub fn array(alloc: Global) -> Self
        ensures { items_inside result ≡ Some [] }
    {
        Value::Array(Vec::new(alloc))
    }

    /// Creates an object without members. Allocates nothing.
    pub fn object(alloc: Global) -> Self
        ensures { members_inside result ≡ Some [] }
    {
        Value::Object(Object::new(alloc))
    }

    /// Creates an array without items that has room for this many.
    ///
    /// # Errors
    ///
    /// `AllocError` if there is no memory for that room.
    pub fn array_with_capacity(alloc: Global, capacity: usize) -> Result<Self, AllocError>
        ensures empty { IfOk result (λ v. items_inside v ≡ Some []) }
        ensures room { IfOk result (λ v. IfSome (array_inside v) (λ vs. capacity ≤ vec_capacity vs)) }
    {
        Ok(Value::Array(Vec::with_capacity(alloc, capacity)?))
    }

    /// Creates an object without members that has room for this many. The hash table isn't made yet: the 33rd member still needs
    /// memory.
    ///
    /// # Errors
    ///
    /// `AllocError` if there is no memory for that room.
    pub fn object_with_capacity(alloc: Global, capacity: usize) -> Result<Self, AllocError>
        ensures { IfOk result (λ v. members_inside v ≡ Some []) }
    {
        Ok(Value::Object(Object::with_capacity(alloc, capacity)?))
    }

    /// Returns the type, which tells an `I64` from a `U64`.
    pub fn value_type(&self) -> ValueType
        ensures { result ≡ value_kind self.now }
    {
        match self {
            Value::Static(scalar) => scalar.value_type(),
            Value::Decimal(_) => ValueType::Decimal,
            Value::String(_) => ValueType::String,
            Value::Array(_) => ValueType::Array,
            Value::Object(_) => ValueType::Object,
        }
    }

    /// Returns `true` if the value is an array.
    pub fn is_array(&self) -> bool
        ensures { result ≡ is_some (items_inside self.now) }
    {
        matches!(self, Value::Array(_))
    }

    /// Returns `true` if the value is an object.
    pub fn is_object(&self) -> bool
        ensures { result ≡ is_some (members_inside self.now) }
    {
        matches!(self, Value::Object(_))
    }
}

/// The default is a null.
impl<K: ObjectKey, D: Literal> Default for Value<K, D> {
    ghost use Rattle.sj_base.specs.declared.static_node.StaticNode.TheVariants.{Null};
    ghost use Rattle.sj_owned.specs.declared.value.Value.{Static};

    ghost is_default = { λ v. v ≡ Static Null };

    fn default() -> Value<K, D> {
        Value::null()
    }
}
