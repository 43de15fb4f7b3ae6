//! Reads of the parts of a lazy value, with the names of the traits of `value_trait`. They build nothing.
ghost use Rattle.std.specs.Prelude.{◌≡◌, false, is_some, option_map, option_and_then, ok_or, IfSome, IfOk};
ghost use Rattle.sj_base.specs.Containers.{items_in, members_in, scalar_in};
ghost use Rattle.sj_base.specs.Path.{key, place, child, member_at, item_at};
ghost use Rattle.sj_reads.specs.Reads.{mismatch};
ghost use Rattle.sj_reads.specs.Views.{ok_map};

use crate::array::Array;
use crate::held::Held;
use crate::object::Object;
use crate::value::Value;
use sj_base::{Scalar, TryTypeError, ValueType};
use sj_reads::{HasMembers, HasScalar, Member, TypedValue};

impl<'t, 'i> Value<'_, 't, 'i> {
    ghost use Rattle.sj_lazy.specs.ByName.{read_found};
    ghost use Rattle.sj_lazy.specs.Contents.{contents};
    ghost use Rattle.sj_lazy.specs.Parts.{array_items, array_contents, array_in, object_members, object_contents, object_in, part_of, try_member, try_item};
    ghost use Rattle.sj_lazy.specs.Upgrade.{owns};
    ghost use Rattle.sj_lazy.specs.Views.{lazy_tree, lazy_kind};

    /// Returns the items, or `None` if the value isn't an array.
    pub fn as_array(&self) -> Option<Array<'_, 't, 'i>>
        ensures tree { option_map array_items result ≡ items_in (lazy_tree self.now) }
        ensures part { option_map array_contents result ≡ array_in (contents self.now) }
    {
        match self {
            Value::Tape(view) => Some(Array::Tape(view.as_array()?)),
            Value::Value(held) => Some(Array::Value(held.as_document().as_array()?)),
        }
    }

    /// Returns the members, or `None` if the value isn't an object.
    pub fn as_object(&self) -> Option<Object<'_, 't, 'i>>
        ensures tree { option_map object_members result ≡ members_in (lazy_tree self.now) }
        ensures part { option_map object_contents result ≡ object_in (contents self.now) }
    {
        match self {
            Value::Tape(view) => Some(Object::Tape(view.as_object()?)),
            Value::Value(held) => Some(Object::Value(held.as_document().as_object()?)),
        }
    }

    /// Returns `true` if the value is an array.
    pub fn is_array(&self) -> bool
        ensures { result ≡ is_some (items_in (lazy_tree self.now)) }
    {
        self.as_array().is_some()
    }

    /// Returns `true` if the value is an object.
    pub fn is_object(&self) -> bool
        ensures { result ≡ is_some (members_in (lazy_tree self.now)) }
    {
        self.as_object().is_some()
    }

    /// Returns the value of the first member with this key, or `None` if there is none or the value isn't an object.
    ///
    /// In a tape, it skips the members before it one by one.
    pub fn get(&self, name: &str) -> Option<Value<'_, 't, 'i>>
        ensures tree { option_map lazy_tree result ≡ child (lazy_tree self.now) (key name.now) }
        ensures part { option_map contents result ≡ part_of (contents self.now) (key name.now) }
        ensures held { IfSome result (λ v. owns v ≡ false) }
    {
        match self {
            Value::Tape(view) => Value::of_tape(view.get(name)),
            Value::Value(held) => Value::of_document(held.as_document().get(name)),
        }
    }

    /// Returns `true` if the value is an object with a member of this key.
    pub fn contains_key(&self, name: &str) -> bool
        ensures { result ≡ is_some (child (lazy_tree self.now) (key name.now)) }
    {
        is_there(self.get(name))
    }

    /// Returns the item at this index, or `None` if there is none or the value isn't an array.
    ///
    /// In a tape, it skips the items before it one by one.
    pub fn get_idx(&self, index: usize) -> Option<Value<'_, 't, 'i>>
        ensures tree { option_map lazy_tree result ≡ child (lazy_tree self.now) (place index) }
        ensures part { option_map contents result ≡ part_of (contents self.now) (place index) }
        ensures held { IfSome result (λ v. owns v ≡ false) }
    {
        match self {
            Value::Tape(view) => Value::of_tape(view.get_idx(index)),
            Value::Value(held) => Value::of_document(held.as_document().get_idx(index)),
        }
    }

    /// Returns the items.
    ///
    /// # Errors
    ///
    /// `TryTypeError` if the value isn't an array. The expected type is `Array`.
    pub fn try_as_array(&self) -> Result<Array<'_, 't, 'i>, TryTypeError>
        ensures tree { ok_map array_items result
            ≡ ok_or (items_in (lazy_tree self.now)) (mismatch ValueType.Array (lazy_kind self.now)) }
        ensures part { ok_map array_contents result
            ≡ ok_or (array_in (contents self.now)) (mismatch ValueType.Array (lazy_kind self.now)) }
    {
        match self.as_array() {
            Some(items) => Ok(items),
            None => Err(self.mismatch(ValueType::Array)),
        }
    }

    /// Returns the members.
    ///
    /// # Errors
    ///
    /// `TryTypeError` if the value isn't an object. The expected type is `Object`.
    pub fn try_as_object(&self) -> Result<Object<'_, 't, 'i>, TryTypeError>
        ensures tree { ok_map object_members result
            ≡ ok_or (members_in (lazy_tree self.now)) (mismatch ValueType.Object (lazy_kind self.now)) }
        ensures part { ok_map object_contents result
            ≡ ok_or (object_in (contents self.now)) (mismatch ValueType.Object (lazy_kind self.now)) }
    {
        match self.as_object() {
            Some(members) => Ok(members),
            None => Err(self.mismatch(ValueType::Object)),
        }
    }

    /// Returns the value of the first member with this key, or `None` if there is none.
    ///
    /// # Errors
    ///
    /// `TryTypeError` if the value isn't an object. The expected type is `Object`.
    pub fn try_get(&self, name: &str) -> Result<Option<Value<'_, 't, 'i>>, TryTypeError>
        ensures tree { ok_map (option_map lazy_tree) result
            ≡ ok_or (option_map (λ ms. member_at ms name.now) (members_in (lazy_tree self.now)))
            (mismatch ValueType.Object (lazy_kind self.now)) }
        ensures part { ok_map (option_map contents) result ≡ try_member (contents self.now) name.now }
        ensures held { IfOk result (λ found. IfSome found (λ v. owns v ≡ false)) }
    {
        match self.as_object() {
            Some(members) => Ok(members.get(name)),
            None => Err(self.mismatch(ValueType::Object)),
        }
    }

    /// Returns the item at this index, or `None` if there is none.
    ///
    /// # Errors
    ///
    /// `TryTypeError` if the value isn't an array. The expected type is `Array`.
    pub fn try_get_idx(&self, index: usize) -> Result<Option<Value<'_, 't, 'i>>, TryTypeError>
        ensures tree { ok_map (option_map lazy_tree) result
            ≡ ok_or (option_map (λ ts. item_at ts index) (items_in (lazy_tree self.now)))
            (mismatch ValueType.Array (lazy_kind self.now)) }
        ensures part { ok_map (option_map contents) result ≡ try_item (contents self.now) index }
        ensures held { IfOk result (λ found. IfSome found (λ v. owns v ≡ false)) }
    {
        match self.as_array() {
            Some(items) => Ok(items.get(index)),
            None => Err(self.mismatch(ValueType::Array)),
        }
    }

    /// Returns the items of the array in the first member with this key, or `None` if there is none, it isn't an array, or the
    /// value isn't an object.
    pub fn get_array(&self, name: &str) -> Option<Array<'_, 't, 'i>>
        ensures { option_map array_contents result ≡ option_and_then array_in (part_of (contents self.now) (key name.now)) }
    {
        match self {
            Value::Tape(view) => Some(Array::Tape(view.get_array(name)?)),
            Value::Value(held) => Some(Array::Value(held.as_document().get_array(name)?)),
        }
    }

    /// Returns the members of the object in the first member with this key, or `None` if there is none, it isn't an object, or
    /// the value isn't one.
    pub fn get_object(&self, name: &str) -> Option<Object<'_, 't, 'i>>
        ensures { option_map object_contents result ≡ option_and_then object_in (part_of (contents self.now) (key name.now)) }
    {
        match self {
            Value::Tape(view) => Some(Object::Tape(view.get_object(name)?)),
            Value::Value(held) => Some(Object::Value(held.as_document().get_object(name)?)),
        }
    }

    /// Returns the items of the array in the first member with this key, or `None` if there is none.
    ///
    /// # Errors
    ///
    /// `TryTypeError` if the value isn't an object, with the expected type `Object`, or if the member isn't an array, with
    /// `Array`.
    pub fn try_get_array(&self, name: &str) -> Result<Option<Array<'_, 't, 'i>>, TryTypeError>
        ensures { ok_map (option_map array_contents) result
            ≡ read_found array_in ValueType.Array (try_member (contents self.now) name.now) }
    {
        let Some(member) = self.try_get(name)? else {
            return Ok(None);
        };
        let mismatch = member.mismatch(ValueType::Array);
        match member.into_array() {
            Some(array) => Ok(Some(array)),
            None => Err(mismatch),
        }
    }

    /// Returns the members of the object in the first member with this key, or `None` if there is none.
    ///
    /// # Errors
    ///
    /// `TryTypeError` if the value or the member isn't an object. The expected type is `Object`.
    pub fn try_get_object(&self, name: &str) -> Result<Option<Object<'_, 't, 'i>>, TryTypeError>
        ensures { ok_map (option_map object_contents) result
            ≡ read_found object_in ValueType.Object (try_member (contents self.now) name.now) }
    {
        let Some(member) = self.try_get(name)? else {
            return Ok(None);
        };
        let mismatch = member.mismatch(ValueType::Object);
        match member.into_object() {
            Some(object) => Ok(Some(object)),
            None => Err(mismatch),
        }
    }

    fn mismatch(&self, expected: ValueType) -> TryTypeError
        ensures { result ≡ mismatch expected (lazy_kind self.now) }
    {
        TryTypeError {
            expected,
            got: self.value_type(),
        }
    }
}

impl<'b, 't, 'i> Value<'b, 't, 'i> {
    ghost use Rattle.sj_lazy.specs.Contents.{contents};
    ghost use Rattle.sj_lazy.specs.Parts.{array_contents, array_in, object_contents, object_in};
    ghost use Rattle.sj_lazy.specs.Upgrade.{owns};

    /// As `as_array`, for a value that owns no document. The items borrow from the tape or the document, and not from the
    /// value.
    fn into_array(self) -> Option<Array<'b, 't, 'i>>
        requires { owns self ≡ false }
        ensures { option_map array_contents result ≡ array_in (contents self.entry) }
    {
        match self {
            Value::Tape(view) => Some(Array::Tape(view.as_array()?)),
            Value::Value(Held::Borrowed(document)) => Some(Array::Value(document.as_array()?)),
            Value::Value(Held::Owned(_)) => unreachable!(),
        }
    }

    /// As `as_object`, for a value that owns no document. The members borrow from the tape or the document, and not from the
    /// value.
    fn into_object(self) -> Option<Object<'b, 't, 'i>>
        requires { owns self ≡ false }
        ensures { option_map object_contents result ≡ object_in (contents self.entry) }
    {
        match self {
            Value::Tape(view) => Some(Object::Tape(view.as_object()?)),
            Value::Value(Held::Borrowed(document)) => Some(Object::Value(document.as_object()?)),
            Value::Value(Held::Owned(_)) => unreachable!(),
        }
    }
}

/// Returns `true` if there is a value, and drops it.
pub(crate) fn is_there<T: Drop>(found: Option<T>) -> bool
    ensures { result ≡ is_some found }
{
    found.is_some()
}

impl TypedValue for Value<'_, '_, '_> {
    ghost use Rattle.sj_lazy.specs.Views.{lazy_kind};

    ghost kind = { lazy_kind };

    fn value_type(&self) -> ValueType {
        Value::value_type(self)
    }
}

impl HasScalar for Value<'_, '_, '_> {
    ghost use Rattle.sj_lazy.specs.Views.{lazy_tree};

    ghost scalar = { λ v. scalar_in (lazy_tree v) };

    fn scalar(&self) -> Option<Scalar<'_>> {
        match self {
            Value::Tape(view) => view.scalar(),
            Value::Value(held) => held.as_document().scalar(),
        }
    }
}

impl HasMembers for Value<'_, '_, '_> {
    ghost use Rattle.sj_lazy.specs.ByName.{member_seen};

    ghost member = { λ v k. member_seen (contents v) k };

    ghost use Rattle.sj_lazy.specs.Contents.{contents};

    fn try_member(&self, key: &str) -> Result<Option<Member<'_>>, TryTypeError> {
        match self {
            Value::Tape(view) => view.try_member(key),
            Value::Value(held) => held.as_document().try_member(key),
        }
    }
}
