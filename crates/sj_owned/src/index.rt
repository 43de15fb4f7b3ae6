//! Parts of a document by `[]`.
ghost use Rattle.std.specs.Prelude.{◌≡◌, Some, IsSome};

use crate::lend::MutableValue;
use crate::literal::Literal;
use crate::value::Value;
use sj_object::ObjectKey;
use std::ops::{Index, IndexMut};

/// The value of the member with this key, which has to be there. [`Value::get`] tests that.
impl<K: ObjectKey, D: Literal> Index<&str> for Value<K, D> {
    type Output = Value<K, D>;

    ghost use Rattle.sj_owned.specs.Parts.{member_of};

    ghost can_index = { λ v name. IsSome (member_of K.text v name.now) };

    ghost index_gives = { λ v name found. member_of K.text v name.now ≡ Some found };

    fn index(&self, name: &str) -> &Value<K, D> {
        self.get(name).unwrap()
    }
}

/// The value of the member with this key, which has to be there. [`Value::get`] tests that.
///
/// The contract doesn't say what a write leaves of the document; that of [`MutableValue::get_mut`] does.
impl<K: ObjectKey, D: Literal> IndexMut<&str> for Value<K, D> {
    ghost use Rattle.sj_owned.specs.Parts.{member_of};

    fn index_mut(&mut self, name: &str) -> &mut Value<K, D>
        requires { IsSome (member_of K.text self.old name.now) }
        ensures { member_of K.text self.old name.now ≡ Some result.now }
    {
        self.get_mut(name).unwrap()
    }
}

/// The item at this index, which has to be there. [`Value::get_idx`] tests that.
impl<K: ObjectKey, D: Literal> Index<usize> for Value<K, D> {
    type Output = Value<K, D>;

    ghost use Rattle.sj_owned.specs.Parts.{item_of};

    ghost can_index = { λ v index. IsSome (item_of v index) };

    ghost index_gives = { λ v index found. item_of v index ≡ Some found };

    fn index(&self, index: usize) -> &Value<K, D> {
        self.get_idx(index).unwrap()
    }
}

/// The item at this index, which has to be there. [`Value::get_idx`] tests that.
///
/// The contract doesn't say what a write leaves of the document; that of [`MutableValue::get_idx_mut`] does.
impl<K: ObjectKey, D: Literal> IndexMut<usize> for Value<K, D> {
    ghost use Rattle.sj_owned.specs.Parts.{item_of};

    fn index_mut(&mut self, index: usize) -> &mut Value<K, D>
        requires { IsSome (item_of self.old index) }
        ensures { item_of self.old index ≡ Some result.now }
    {
        self.get_idx_mut(index).unwrap()
    }
}
