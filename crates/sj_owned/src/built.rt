//! Documents as values that are built from a tape.
ghost use Rattle.std.specs.Prelude.{◌≡◌, Ok, IsOk, IfOk, map};
ghost use Rattle.sj_base.specs.Tree.{decimal, string, list, object};
ghost use Rattle.sj_base.specs.Scalar.{static_tree, decimal_text};
ghost use Rattle.sj_object.specs.Members.{member_pairs, AreMembers};
ghost use Rattle.sj_build.specs.Trees.{items_of, members_of, on_values};
ghost use Rattle.sj_owned.specs.Views.{value_tree};
ghost use Rattle.sj_owned.specs.declared.value.Value.{Static};

use crate::literal::MakeLiteral;
use crate::value::Value;
use sj_base::{Decimal, StaticNode};
use sj_build::BuildValue;
use sj_object::{MakeKey, Members, Object};
use std::alloc::{AllocError, Global};

impl<'de, K: MakeKey<'de>, D: MakeLiteral<'de>> BuildValue<'de, K> for Value<K, D> {
    ghost tree = { value_tree K.text D.literal };

    fn from_static(_alloc: Global, scalar: StaticNode) -> Result<Value<K, D>, AllocError>
        ensures tree { IfOk result (λ v. value_tree K.text D.literal v ≡ static_tree scalar) }
        ensures value { result ≡ Ok (Static scalar) }
    {
        Ok(Value::Static(scalar))
    }

    fn from_decimal(alloc: Global, literal: Decimal<'de>) -> Result<Value<K, D>, AllocError>
        ensures { IfOk result (λ v. value_tree K.text D.literal v ≡ decimal (decimal_text literal.entry)) }
    {
        Ok(Value::Decimal(D::from_decimal(alloc, literal)?))
    }

    fn from_text(alloc: Global, text: &'de str) -> Result<Value<K, D>, AllocError>
        ensures { IfOk result (λ v. value_tree K.text D.literal v ≡ string text.now) }
    {
        Ok(Value::String(K::from_text(alloc, text)?))
    }

    fn from_array(_alloc: Global, items: Vec<Value<K, D>>) -> Result<Value<K, D>, AllocError>
        ensures tree { IfOk result (λ v. value_tree K.text D.literal v ≡ list (items_of (map (value_tree K.text D.literal) items.items))) }
        ensures succeeds { IsOk result }
    {
        Ok(Value::Array(items))
    }

    fn from_object(
        _alloc: Global,
        members: Members<K, Value<K, D>>,
    ) -> Result<Value<K, D>, AllocError>
        requires { AreMembers K.text members }
        ensures tree { IfOk result (λ v. value_tree K.text D.literal v ≡ object (members_of K.text (on_values (value_tree K.text D.literal) (member_pairs members)))) }
        ensures succeeds { IsOk result }
    {
        Ok(Value::Object(Object::from_members(members)))
    }
}
