//! Types that are built of the parts of a document.
ghost use Rattle.std.specs.Prelude.{◌≡◌, IfOk, map};
ghost use Rattle.sj_base.specs.Tree.{Tree, decimal, string, list, object};
ghost use Rattle.sj_base.specs.Scalar.{static_tree, decimal_text};
ghost use Rattle.sj_object.specs.Members.{member_pairs, AreMembers};
ghost use Rattle.sj_build.specs.Trees.{items_of, members_of, on_values};

use sj_base::{Decimal, StaticNode};
use sj_object::{Members, ObjectKey};
use std::alloc::{AllocError, Global};

/// A type that is built of the parts of a document. Keys are of the type `K`, and texts may be borrowed from an input that
/// lives as long as `'de`.
pub trait BuildValue<'de, K: ObjectKey>: Sized {
    // The tree that a value stands for.
    ghost tree: { Self → Tree };

    /// Builds a null, a boolean or an integer.
    ///
    /// # Errors
    ///
    /// `AllocError` if there is no memory for it.
    fn from_static(alloc: Global, scalar: StaticNode) -> Result<Self, AllocError>
        ensures { IfOk result (λ v. tree v ≡ static_tree scalar) };

    /// Builds a number with a fraction or an exponent, or an integer below -2^63 or above 2^64 - 1.
    ///
    /// # Errors
    ///
    /// `AllocError` if there is no memory for it.
    fn from_decimal(alloc: Global, literal: Decimal<'de>) -> Result<Self, AllocError>
        ensures { IfOk result (λ v. tree v ≡ decimal (decimal_text literal.entry)) };

    /// Builds a string.
    ///
    /// # Errors
    ///
    /// `AllocError` if there is no memory for it.
    fn from_text(alloc: Global, text: &'de str) -> Result<Self, AllocError>
        ensures { IfOk result (λ v. tree v ≡ string text.now) };

    /// Builds an array of its items.
    ///
    /// # Errors
    ///
    /// `AllocError` if there is no memory for it. The items are dropped.
    fn from_array(alloc: Global, items: Vec<Self>) -> Result<Self, AllocError>
        ensures { IfOk result (λ v. tree v ≡ list (items_of (map tree items.items))) };

    /// Builds an object of its members.
    ///
    /// # Errors
    ///
    /// `AllocError` if there is no memory for it. The members are dropped.
    fn from_object(alloc: Global, members: Members<K, Self>) -> Result<Self, AllocError>
        requires { AreMembers K.text members }
        ensures { IfOk result (λ v. tree v ≡ object (members_of K.text (on_values tree (member_pairs members)))) };
}
