//! Edits of a document, with the names of the traits of `value_trait`.
ghost use Rattle.std.specs.Prelude.{◌≡◌, ◌<◌, ◌≤◌, [], ◌∷◌, ◌++◌, Some, IsSome, IfSome, IsNone, IsOk, is_ok, if◌then◌else◌, IfOk, IfErr, OnOk, OnErr, option_map, ok_or, vec_len, vec_capacity};
ghost use Rattle.sj_object.specs.Pairs.{value_at, put_key, drop_key};

use crate::literal::Literal;
use crate::value::Value;
use sj_base::AccessError;
use sj_object::{Object, ObjectKey};

impl<K: ObjectKey, D: Literal> Value<K, D> {
    ghost use Rattle.sj_owned.specs.Views.{value_tree, array_inside, items_inside, members_inside};
    ghost use Rattle.sj_owned.specs.Parts.{member_of};
    ghost use Rattle.sj_owned.specs.Edits.{with_member, without_member, with_item, without_last, refusal, last_of, before_last};

    /// Replaces the value of this key and returns the old one. A new key goes last, and the result is `None`. Port of
    /// `value_trait::MutableObject::insert`.
    ///
    /// Replacing a value needs no memory.
    ///
    /// # Errors
    ///
    /// `NotAnObject` if the value isn't an object. Otherwise `Memory` if there is no memory for a new member. The document
    /// is unchanged, and the key and the value are dropped.
    pub fn insert(&mut self, key: K, value: Value<K, D>) -> Result<Option<Value<K, D>>, AccessError>
    where
        K: Drop,
        D: Drop,
        ensures members { OnOk result (members_inside self.new
            ≡ option_map (λ es. put_key K.text es key value) (members_inside self.old)) }
        ensures tree { OnOk result (Some (value_tree K.text D.literal self.new)
            ≡ with_member (value_tree K.text D.literal self.old) (K.text key) (value_tree K.text D.literal value)) }
        ensures replaced { IfOk result (λ old. old ≡ member_of K.text self.old (K.text key)) }
        ensures succeeds { IsSome (member_of K.text self.old (K.text key)) → IsOk result }
        ensures err { IfErr result (λ e. e ≡ refusal AccessError.NotAnObject (members_inside self.old)) }
        ensures unchanged { OnErr result (self.new ≡ self.old) }
    {
        match self {
            Value::Object(members) => match members.insert(key, value) {
                Ok(old) => Ok(old),
                Err(pair) => {
                    drop(pair);
                    Err(AccessError::Memory)
                }
            },
            _ => {
                drop((key, value));
                Err(AccessError::NotAnObject)
            }
        }
    }

    /// Removes the member of this key and returns its value, or `None` if there is none. The members after it close up. Port of
    /// `value_trait::MutableObject::remove`.
    ///
    /// # Errors
    ///
    /// `NotAnObject` if the value isn't an object. The document is unchanged.
    pub fn remove(&mut self, key: &str) -> Result<Option<Value<K, D>>, AccessError>
    where
        K: Drop,
        ensures value { result
            ≡ ok_or (option_map (λ es. value_at K.text es key.now) (members_inside self.old)) AccessError.NotAnObject }
        ensures members { OnOk result (members_inside self.new
            ≡ option_map (λ es. drop_key K.text es key.now) (members_inside self.old)) }
        ensures tree { OnOk result (Some (value_tree K.text D.literal self.new)
            ≡ without_member (value_tree K.text D.literal self.old) key.now) }
        ensures unchanged { OnErr result (self.new ≡ self.old) }
    {
        match self {
            Value::Object(members) => Ok(members.remove(key)),
            _ => Err(AccessError::NotAnObject),
        }
    }

    /// Appends the value as the last item. Port of `value_trait::MutableArray::push`.
    ///
    /// # Errors
    ///
    /// `NotAnArray` if the value isn't an array. Otherwise `Memory` if the array has no room for one more item, and there is no
    /// memory for it. The document is unchanged, and the value is dropped.
    pub fn push(&mut self, value: Value<K, D>) -> Result<(), AccessError>
    where
        K: Drop,
        D: Drop,
        ensures items { items_inside self.new
            ≡ option_map (λ vs. if is_ok result then vs ++ value ∷ [] else vs) (items_inside self.old) }
        ensures tree { OnOk result (Some (value_tree K.text D.literal self.new)
            ≡ with_item (value_tree K.text D.literal self.old) (value_tree K.text D.literal value)) }
        ensures err { IfErr result (λ e. e ≡ refusal AccessError.NotAnArray (items_inside self.old)) }
        ensures unchanged { OnErr result (value_tree K.text D.literal self.new ≡ value_tree K.text D.literal self.old) }
        ensures other { IsNone (items_inside self.old) → self.new ≡ self.old }
        ensures room { IfSome (array_inside self.old) (λ vs. vec_len vs < vec_capacity vs → IsOk result) }
        ensures grows { IfSome (array_inside self.old) (λ vs. IfSome (array_inside self.new) (λ ws. vec_capacity vs ≤ vec_capacity ws)) }
    {
        match self {
            Value::Array(items) => match items.push(value) {
                Ok(()) => Ok(()),
                Err(_) => Err(AccessError::Memory),
            },
            _ => {
                drop(value);
                Err(AccessError::NotAnArray)
            }
        }
    }

    /// Removes the last item and returns it, or `None` if there is none. Port of `value_trait::MutableArray::pop`.
    ///
    /// # Errors
    ///
    /// `NotAnArray` if the value isn't an array. The document is unchanged.
    pub fn pop(&mut self) -> Result<Option<Value<K, D>>, AccessError>
        ensures value { result ≡ ok_or (option_map last_of (items_inside self.old)) AccessError.NotAnArray }
        ensures items { OnOk result (items_inside self.new ≡ option_map before_last (items_inside self.old)) }
        ensures tree { OnOk result (Some (value_tree K.text D.literal self.new)
            ≡ without_last (value_tree K.text D.literal self.old)) }
        ensures unchanged { OnErr result (self.new ≡ self.old) }
    {
        match self {
            Value::Array(items) => Ok(items.pop()),
            _ => Err(AccessError::NotAnArray),
        }
    }
}
