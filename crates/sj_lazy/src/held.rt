//! Documents that are owned or borrowed.
ghost use Rattle.std.specs.Prelude.{◌≡◌};
ghost use Rattle.std.specs.Borrow.{sem};
ghost use Rattle.std.specs.Option.{option_copied_mut};
ghost use Rattle.sj_lazy.specs.Contents.{owned_in};
ghost use Rattle.sj_lazy.specs.Lends.{lends_owned};

use sj_values::BorrowedValue;

/// A document that is owned, or that belongs to another value. It stands in the place of `Cow` in the Rust crate.
///
/// In lazy values, `D` is a [`BorrowedValue`], and `B` is a reference to one.
#[derive(Debug, Drop)]
pub enum Held<B, D> {
    /// A document that another value owns.
    Borrowed(B),
    /// A document that the value owns.
    Owned(D),
}

impl<'i> Held<&BorrowedValue<'i>, BorrowedValue<'i>> {
    ghost use Rattle.sj_lazy.specs.Contents.{held_document};

    /// Borrows the document.
    pub fn as_document(&self) -> &BorrowedValue<'i>
        ensures { result.now ≡ held_document self.now }
    {
        match self {
            Held::Borrowed(document) => document,
            Held::Owned(document) => document,
        }
    }
}

impl<B, D> Held<B, D> {
    /// The document for writing, if it is owned.
    #[inline]
    pub(crate) fn owned_mut(&mut self) -> Option<&mut D>
        ensures* writes_back { sem 𝓛 (lends_owned B.row D.row self.entry result) }
        ensures value { option_copied_mut result ≡ owned_in self.old }
    {
        match self {
            Held::Owned(document) => Some(document),
            _ => None,
        }
    }
}
