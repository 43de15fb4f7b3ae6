//! The forms of a line's document.

/// The form in which a line's document is kept while a script runs on it.
#[derive(Clone, Copy, Debug, PartialEq, Eq)]
pub enum Form {
    /// A document that owns its texts. Of members with equal keys only the first is kept.
    Owned,
    /// A document that borrows its texts from the line, or, after a reload, from the printed text. Of members with equal keys
    /// only the first is kept.
    Borrowed,
    /// The tape of the line, or, after a reload, of the printed text, until the next write command, refused or not, or the next
    /// `undo` that takes a write back. From then on it is a document as that of [`Form::Borrowed`]. The tape has all members with
    /// equal keys, and the document only the first.
    Lazy,
}
