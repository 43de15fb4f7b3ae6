//! Comparisons of objects as maps.
ghost use Rattle.sj_object.specs.Compare.{same_pairs};
ghost use Rattle.sj_object.specs.inside.Comparing.{same_pairs-symm, same_pairs-trans};

use crate::key::ObjectKey;
use crate::object::Object;

/// Two objects are equal if they have the same keys, each with equal values. The order of the pairs doesn't count.
impl<K: ObjectKey, V: PartialEq> PartialEq for Object<K, V> {
    ghost eq = { same_pairs K.text V.eq };

    ghost laws = { let v = V.laws in record { symm = same_pairs-symm K.text V.eq v.symm; trans = same_pairs-trans K.text V.eq v.trans } };

    fn eq(&self, other: &Object<K, V>) -> bool {
        if self.len() != other.len() {
            return false;
        }
        for entry in self.entries() {
            match other.get(entry.key.as_text()) {
                Some(value) => {
                    if entry.value != *value {
                        return false;
                    }
                }
                None => return false,
            }
        }
        true
    }
}
