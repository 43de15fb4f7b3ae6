//! A slice whose contracts list the places that were read.
ghost use Rattle.std.specs.Prelude.{◌≡◌, ◌^◌, ◌<◌, [], length, option_map, slice_get};

use crate::trace::Trace;
use std::fmt::{self, Debug};

/// A slice that is read one item at a time, and whose contracts list the places that were read.
///
/// A function that has a slice by a `&mut Reads` alone reads no item without its place in that list. The list takes no room
/// at run time.
#[derive(Drop)]
pub struct Reads<'p, T> {
    items: &'p [T],
    places: Trace,
    ghost fits: { length items.now < 2 ^ 64 },
}

impl<'p, T> Reads<'p, T> {
    ghost use Rattle.sj_base.specs.Reads.{noted, reads_items, reads_places};

    /// Wraps a slice of which no item was read.
    pub fn new(items: &'p [T]) -> Reads<'p, T>
        ensures items { reads_items result ≡ items.now }
        ensures places { reads_places result ≡ [] }
    {
        let places = Trace::new();
        Reads { items, places }
    }

    /// Returns the item at that place, or `None` if the slice ends before it. Such a place isn't listed.
    #[inline(always)]
    pub fn at(&mut self, place: usize) -> Option<&'p T>
        ensures item { option_map (λ item. item.now) result ≡ slice_get (reads_items self.old) place }
        ensures items { reads_items self.new ≡ reads_items self.old }
        ensures places { reads_places self.new ≡ noted (reads_items self.old) (reads_places self.old) place }
    {
        let item = self.items.get(place)?;
        self.places = self.places.then(place);
        Some(item)
    }
}

/// No item is shown, since [`Reads::at`] alone gives items.
impl<T> Debug for Reads<'_, T> {
    fn fmt<W: fmt::Write>(&self, f: &mut fmt::Formatter<W>) -> fmt::Result {
        f.debug_struct("Reads").finish_non_exhaustive()
    }
}
