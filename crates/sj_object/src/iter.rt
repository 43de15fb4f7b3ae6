//! Iterators over objects.
ghost use Rattle.std.specs.Prelude.{◌≡◌, IfSome, Some, length, map};
ghost use Rattle.std.specs.Iterator.{YieldsFirstBy, YieldsFirstRef, UpTo, item_count};
ghost use Rattle.std.specs.Iterator.SizeHint.{IsWithinCount};

use crate::entry::Entry;
use std::iter::{ExactSizeIterator, FusedIterator};
use std::vec;

/// An iterator over the pairs of an object in insertion order. After the last pair it returns `None` at each call.
#[derive(Debug, Drop)]
pub struct Iter<'a, K, V> {
    rest: &'a [Entry<K, V>],
}

impl<'a, K, V> Iter<'a, K, V> {
    ghost use Rattle.sj_object.specs.Iterators.{entries_left};

    pub(crate) fn new(entries: &'a [Entry<K, V>]) -> Self
        ensures { entries_left result ≡ entries.now }
    {
        Iter { rest: entries }
    }
}

impl<'a, K, V> Iterator for Iter<'a, K, V> {
    type Item = (&'a K, &'a V);

    ghost use Rattle.sj_object.specs.Iterators.{entries_left, pair_entry};

    ghost next_gives = { YieldsFirstBy pair_entry entries_left };

    ghost remaining = { item_count entries_left };

    fn next(&mut self) -> Option<(&'a K, &'a V)> {
        let (first, rest) = self.rest.split_first()?;
        self.rest = rest;
        Some((&first.key, &first.value))
    }

    fn size_hint(&self) -> (usize, Option<usize>)
        ensures lower { IsWithinCount result.0 (item_count entries_left self.now) }
        ensures upper { IfSome result.1 (UpTo (item_count entries_left self.now)) }
        ensures exact { result ≡ (length (entries_left self.now), Some (length (entries_left self.now))) }
    {
        let len = self.len();
        (len, Some(len))
    }
}

impl<K, V> ExactSizeIterator for Iter<'_, K, V> {
    fn len(&self) -> usize {
        self.rest.len()
    }
}

impl<K, V> FusedIterator for Iter<'_, K, V> {}

/// An iterator over the keys of an object in insertion order. After the last key it returns `None` at each call.
#[derive(Debug, Drop)]
pub struct Keys<'a, K, V> {
    pairs: Iter<'a, K, V>,
}

impl<'a, K, V> Keys<'a, K, V> {
    ghost use Rattle.sj_object.specs.Iterators.{entries_left, keys_left};

    pub(crate) fn new(pairs: Iter<'a, K, V>) -> Self
        ensures { keys_left result ≡ map (λ e. e.key) (entries_left pairs.entry) }
    {
        Keys { pairs }
    }
}

impl<'a, K, V> Iterator for Keys<'a, K, V> {
    type Item = &'a K;

    ghost use Rattle.sj_object.specs.Iterators.{keys_left};

    ghost next_gives = { YieldsFirstRef keys_left };

    ghost remaining = { item_count keys_left };

    fn next(&mut self) -> Option<&'a K> {
        let (key, _) = self.pairs.next()?;
        Some(key)
    }

    fn size_hint(&self) -> (usize, Option<usize>)
        ensures lower { IsWithinCount result.0 (item_count keys_left self.now) }
        ensures upper { IfSome result.1 (UpTo (item_count keys_left self.now)) }
        ensures exact { result ≡ (length (keys_left self.now), Some (length (keys_left self.now))) }
    {
        self.pairs.size_hint()
    }
}

impl<K, V> ExactSizeIterator for Keys<'_, K, V> {
    fn len(&self) -> usize {
        self.pairs.len()
    }
}

impl<K, V> FusedIterator for Keys<'_, K, V> {}

/// An iterator over the values of an object in insertion order. After the last value it returns `None` at each call.
#[derive(Debug, Drop)]
pub struct Values<'a, K, V> {
    pairs: Iter<'a, K, V>,
}

impl<'a, K, V> Values<'a, K, V> {
    ghost use Rattle.sj_object.specs.Iterators.{entries_left, values_left};

    pub(crate) fn new(pairs: Iter<'a, K, V>) -> Self
        ensures { values_left result ≡ map (λ e. e.value) (entries_left pairs.entry) }
    {
        Values { pairs }
    }
}

impl<'a, K, V> Iterator for Values<'a, K, V> {
    type Item = &'a V;

    ghost use Rattle.sj_object.specs.Iterators.{values_left};

    ghost next_gives = { YieldsFirstRef values_left };

    ghost remaining = { item_count values_left };

    fn next(&mut self) -> Option<&'a V> {
        let (_, value) = self.pairs.next()?;
        Some(value)
    }

    fn size_hint(&self) -> (usize, Option<usize>)
        ensures lower { IsWithinCount result.0 (item_count values_left self.now) }
        ensures upper { IfSome result.1 (UpTo (item_count values_left self.now)) }
        ensures exact { result ≡ (length (values_left self.now), Some (length (values_left self.now))) }
    {
        self.pairs.size_hint()
    }
}

impl<K, V> ExactSizeIterator for Values<'_, K, V> {
    fn len(&self) -> usize {
        self.pairs.len()
    }
}

impl<K, V> FusedIterator for Values<'_, K, V> {}

/// An iterator that takes an object apart into its pairs in insertion order. After the last pair it returns `None` at
/// each call.
#[derive(Debug, Drop)]
pub struct IntoIter<K, V> {
    entries: vec::IntoIter<Entry<K, V>>,
}

impl<K, V> IntoIter<K, V> {
    ghost use Rattle.sj_object.specs.Iterators.{owned_left};

    pub(crate) fn new(entries: Vec<Entry<K, V>>) -> Self
        ensures { owned_left result ≡ entries.items }
    {
        IntoIter {
            entries: entries.into_iter(),
        }
    }
}

impl<K: Drop, V: Drop> Iterator for IntoIter<K, V> {
    type Item = (K, V);

    ghost use Rattle.sj_object.specs.Iterators.{owned_left, owned_entry};

    ghost next_gives = { YieldsFirstBy owned_entry owned_left };

    ghost remaining = { item_count owned_left };

    fn next(&mut self) -> Option<(K, V)> {
        let Entry { key, value } = self.entries.next()?;
        Some((key, value))
    }

    fn size_hint(&self) -> (usize, Option<usize>)
        ensures lower { IsWithinCount result.0 (item_count owned_left self.now) }
        ensures upper { IfSome result.1 (UpTo (item_count owned_left self.now)) }
        ensures exact { result ≡ (length (owned_left self.now), Some (length (owned_left self.now))) }
    {
        let left = self.len();
        (left, Some(left))
    }
}

impl<K: Drop, V: Drop> ExactSizeIterator for IntoIter<K, V> {
    fn len(&self) -> usize {
        self.entries.len()
    }
}

impl<K: Drop, V: Drop> FusedIterator for IntoIter<K, V> {}
