//! Reads of the parts of a document, with the names of the traits of `value_trait`.
ghost use Rattle.std.specs.Prelude.{◌≡◌, None, is_some, option_map, option_and_then, option_copied, ok_or};
ghost use Rattle.sj_base.specs.Containers.{scalar_in};
ghost use Rattle.sj_base.specs.Path.{key, place, child};
ghost use Rattle.sj_reads.specs.Reads.{mismatch};
ghost use Rattle.sj_reads.specs.Views.{ok_map};

use crate::literal::Literal;
use crate::value::Value;
use sj_base::{Scalar, TryTypeError, ValueType};
use sj_object::{Object, ObjectKey};
use sj_reads::{HasMembers, HasScalar, Member, TypedValue};

impl<K: ObjectKey, D: Literal> Value<K, D> {
    ghost use Rattle.sj_owned.specs.Views.{value_tree, value_kind, items_inside, members_inside};
    ghost use Rattle.sj_owned.specs.Parts.{text_inside, item_of, member_of, try_item, try_value, read_part};

    /// Returns the items, or `None` if the value isn't an array. Port of `value_trait::ValueAsArray::as_array`.
    #[inline(always)]
    pub fn as_array(&self) -> Option<&Vec<Value<K, D>>>
        ensures { option_map (λ v. v.now.items) result ≡ items_inside self.now }
    {
        match self {
            Value::Array(items) => Some(items),
            _ => None,
        }
    }

    /// Returns the members, or `None` if the value isn't an object. Port of `value_trait::ValueAsObject::as_object`.
    #[inline(always)]
    pub fn as_object(&self) -> Option<&Object<K, Value<K, D>>>
        ensures { option_map (λ o. o.now) result ≡ members_inside self.now }
    {
        match self {
            Value::Object(members) => Some(members),
            _ => None,
        }
    }

    /// Returns the items.
    ///
    /// # Errors
    ///
    /// `TryTypeError` if the value isn't an array. The expected type is `Array`.
    pub fn try_as_array(&self) -> Result<&Vec<Value<K, D>>, TryTypeError>
        ensures { ok_map (λ v. v.now.items) result
            ≡ ok_or (items_inside self.now) (mismatch ValueType.Array (value_kind self.now)) }
    {
        match self.as_array() {
            Some(items) => Ok(items),
            None => Err(self.mismatch(ValueType::Array)),
        }
    }

    /// Returns the members.
    ///
    /// # Errors
    ///
    /// `TryTypeError` if the value isn't an object. The expected type is `Object`.
    pub fn try_as_object(&self) -> Result<&Object<K, Value<K, D>>, TryTypeError>
        ensures { ok_map (λ o. o.now) result
            ≡ ok_or (members_inside self.now) (mismatch ValueType.Object (value_kind self.now)) }
    {
        match self.as_object() {
            Some(members) => Ok(members),
            None => Err(self.mismatch(ValueType::Object)),
        }
    }

    /// Returns the value of the member with this key, or `None` if there is none or the value isn't an object.
    pub fn get(&self, name: &str) -> Option<&Value<K, D>>
        ensures value { option_copied result ≡ member_of K.text self.now name.now }
        ensures tree { option_map (λ v. value_tree K.text D.literal v.now) result
            ≡ child (value_tree K.text D.literal self.now) (key name.now) }
    {
        match self {
            Value::Object(members) => members.get(name),
            _ => None,
        }
    }

    /// Returns `true` if the value is an object with a member of this key.
    pub fn contains_key(&self, name: &str) -> bool
        ensures { result ≡ is_some (child (value_tree K.text D.literal self.now) (key name.now)) }
    {
        self.get(name).is_some()
    }

    /// Returns the item at this index, or `None` if there is none or the value isn't an array.
    pub fn get_idx(&self, index: usize) -> Option<&Value<K, D>>
        ensures value { option_copied result ≡ item_of self.now index }
        ensures tree { option_map (λ v. value_tree K.text D.literal v.now) result
            ≡ child (value_tree K.text D.literal self.now) (place index) }
    {
        match self {
            Value::Array(items) => items.get(index),
            _ => None,
        }
    }

    /// Returns the items of the array in the member with this key, or `None` if there is none, it isn't an array, or the value
    /// isn't an object.
    pub fn get_array(&self, name: &str) -> Option<&Vec<Value<K, D>>>
        ensures { option_map (λ v. v.now.items) result
            ≡ option_and_then items_inside (member_of K.text self.now name.now) }
    {
        self.get(name)?.as_array()
    }

    /// Returns the members of the object in the member with this key, or `None` if there is none, it isn't an object, or the value
    /// isn't one.
    pub fn get_object(&self, name: &str) -> Option<&Object<K, Value<K, D>>>
        ensures { option_map (λ o. o.now) result
            ≡ option_and_then members_inside (member_of K.text self.now name.now) }
    {
        self.get(name)?.as_object()
    }

    /// Returns the value of the member with this key, or `None` if there is none.
    ///
    /// # Errors
    ///
    /// `TryTypeError` if the value isn't an object. The expected type is `Object`.
    pub fn try_get(&self, name: &str) -> Result<Option<&Value<K, D>>, TryTypeError>
        ensures { ok_map option_copied result ≡ try_value K.text self.now name.now }
    {
        match self.as_object() {
            Some(members) => Ok(members.get(name)),
            None => Err(self.mismatch(ValueType::Object)),
        }
    }

    /// Returns the item at this index, or `None` if there is none.
    ///
    /// # Errors
    ///
    /// `TryTypeError` if the value isn't an array. The expected type is `Array`.
    pub fn try_get_idx(&self, index: usize) -> Result<Option<&Value<K, D>>, TryTypeError>
        ensures { ok_map option_copied result ≡ try_item self.now index }
    {
        match self.as_array() {
            Some(items) => Ok(items.get(index)),
            None => Err(self.mismatch(ValueType::Array)),
        }
    }

    /// Returns the items of the array in the member with this key, or `None` if there is none.
    ///
    /// # Errors
    ///
    /// `TryTypeError` if the value isn't an object, with the expected type `Object`, or if the member isn't an array, with
    /// `Array`.
    pub fn try_get_array(&self, name: &str) -> Result<Option<&Vec<Value<K, D>>>, TryTypeError>
        ensures { ok_map (option_map (λ v. v.now.items)) result
            ≡ read_part items_inside ValueType.Array (try_value K.text self.now name.now) }
    {
        match self.try_get(name)? {
            Some(member) => Ok(Some(member.try_as_array()?)),
            None => Ok(None),
        }
    }

    /// Returns the members of the object in the member with this key, or `None` if there is none.
    ///
    /// # Errors
    ///
    /// `TryTypeError` if the value or the member isn't an object. The expected type is `Object`.
    pub fn try_get_object(
        &self,
        name: &str,
    ) -> Result<Option<&Object<K, Value<K, D>>>, TryTypeError>
        ensures { ok_map (option_map (λ o. o.now)) result
            ≡ read_part members_inside ValueType.Object (try_value K.text self.now name.now) }
    {
        match self.try_get(name)? {
            Some(member) => Ok(Some(member.try_as_object()?)),
            None => Ok(None),
        }
    }

    /// Returns the string, or `None` if the value isn't a string. Port of `value_trait::ValueIntoString::into_string`.
    pub fn into_string(self) -> Option<K>
    where
        K: Drop,
        D: Drop,
        ensures { result ≡ text_inside self }
    {
        match self {
            Value::String(text) => Some(text),
            other => nothing_of(other),
        }
    }

    /// Returns the items, or `None` if the value isn't an array. Port of `value_trait::ValueIntoArray::into_array`.
    pub fn into_array(self) -> Option<Vec<Value<K, D>>>
    where
        K: Drop,
        D: Drop,
        ensures { option_map (λ v. v.items) result ≡ items_inside self }
    {
        match self {
            Value::Array(list) => Some(list),
            other => nothing_of(other),
        }
    }

    /// Returns the members, or `None` if the value isn't an object. Port of `value_trait::ValueIntoObject::into_object`.
    pub fn into_object(self) -> Option<Object<K, Value<K, D>>>
    where
        K: Drop,
        D: Drop,
        ensures { result ≡ members_inside self }
    {
        match self {
            Value::Object(object) => Some(object),
            other => nothing_of(other),
        }
    }

    fn mismatch(&self, expected: ValueType) -> TryTypeError
        ensures { result ≡ mismatch expected (value_kind self.now) }
    {
        TryTypeError {
            expected,
            got: self.value_type(),
        }
    }
}

/// Drops the value and returns `None`.
fn nothing_of<T: Drop, P>(_value: T) -> Option<P>
    ensures { result ≡ None }
{
    None
}

impl<K: ObjectKey, D: Literal> TypedValue for Value<K, D> {
    ghost use Rattle.sj_owned.specs.Views.{value_kind};

    ghost kind = { value_kind };

    fn value_type(&self) -> ValueType {
        Value::value_type(self)
    }
}

impl<K: ObjectKey, D: Literal> HasScalar for Value<K, D> {
    ghost use Rattle.sj_owned.specs.Views.{value_tree};

    ghost scalar = { λ v. scalar_in (value_tree K.text D.literal v) };

    fn scalar(&self) -> Option<Scalar<'_>> {
        match self {
            Value::Static(scalar) => Some(Scalar::Static(*scalar)),
            Value::Decimal(literal) => Some(Scalar::Literal(literal.as_decimal())),
            Value::String(string) => Some(Scalar::Text(string.as_text())),
            Value::Array(_) | Value::Object(_) => None,
        }
    }
}

impl<K: ObjectKey, D: Literal> HasMembers for Value<K, D> {
    ghost use Rattle.sj_owned.specs.Parts.{member_seen};

    ghost member = { member_seen K.text D.literal };

    fn try_member(&self, key: &str) -> Result<Option<Member<'_>>, TryTypeError> {
        match self.try_get(key)? {
            Some(member) => Ok(Some(Member {
                kind: member.value_type(),
                scalar: member.scalar(),
            })),
            None => Ok(None),
        }
    }
}
