//! Lists of numbers that stand in contracts alone.
ghost use Rattle.std.specs.Prelude.{◌≡◌, ℕ, List, [], ◌∷◌, ◌++◌};
ghost use Rattle.std.specs.Borrow.{ftrue};

use std::marker::Model;

/// Numbers that were noted, in order. They stand in contracts alone, and take no room at run time.
///
/// A value that has a trace in a private field, and adds to it where it does something, lets contracts speak of how often
/// that was done, as those of [`Reads`](crate::Reads) do.
#[derive(Debug, Drop)]
pub struct Trace {
    pub ghost list: { List ℕ },
}

impl Model for Trace {
    ghost also_owns = { λ _. ftrue };
}

impl Trace {
    /// Creates a trace with no number.
    pub fn new() -> Trace
        ensures { result.list ≡ [] }
    {
        Self::named()
    }

    /// Returns the trace with one more number.
    pub fn then(&self, number: usize) -> Trace
        ensures { result.list ≡ self.now.list ++ number ∷ [] }
    {
        self.following(number)
    }

    /// The same, with a name for the list.
    fn following(&self, number: usize) -> Trace
        ghost list: { List ℕ }
        requires { list ≡ self.now.list ++ number ∷ [] }
        ensures { result.list ≡ list }
    {
        Trace::named()
    }

    /// A trace of whichever list the caller names.
    fn named() -> Trace
        ghost list: { List ℕ }
        ensures { result.list ≡ list }
    {
        Trace {}
    }
}
