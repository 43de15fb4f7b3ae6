//! Where the descent stops: faults that name a byte of the text.
ghost use Rattle.std.specs.Prelude.{◌≡◌, ◌==◌, if◌then◌else◌};
ghost use Rattle.sj_parse.specs.Fault.{error_type, descent_error};

use sj_base::{Error, ErrorType};

/// The kind of a [`DescentFault`]. Lack of memory is none of them.
///
/// The byte of the fault is the first of the token that is wrong, where nothing else is said. For the three kinds of escapes it
/// is the backslash of the bad escape, and for a pair of surrogates that of the first.
#[derive(Clone, Copy, Debug, PartialEq, Eq)]
pub enum DescentKind {
    /// A byte that begins no value, or a token after the root container. In the second case the byte is that container's
    /// closing bracket.
    InternalError,
    /// A container beyond the limit of levels, or a text that is cut short. In the second case the byte is the first of the
    /// last token.
    Syntax,
    /// Neither a value nor `]` after `[`.
    ExpectedArrayContent,
    /// Neither a key nor `}` after `{`.
    ExpectedObjectContent,
    /// No key after a comma in an object.
    ExpectedObjectKey,
    /// No colon after a key.
    ExpectedObjectColon,
    /// Neither a comma nor `]` after an item of an array.
    ExpectedArrayComma,
    /// Neither a comma nor `}` after a member of an object.
    ExpectedMapComma,
    /// A token that begins with `t` and isn't `true`.
    ExpectedTrue,
    /// A token that begins with `f` and isn't `false`.
    ExpectedFalse,
    /// A token that begins with `n` and isn't `null`.
    ExpectedNull,
    /// A token that begins as a number does, and is none.
    InvalidNumber,
    /// A backslash with an unknown letter after it.
    InvalidEscape,
    /// `\u` without four hexadecimal digits.
    InvalidUnicodeEscape,
    /// A surrogate that isn't part of a pair.
    InvalidUnicodeCodepoint,
    /// A token after the root scalar. The byte is the first of that scalar.
    TrailingData,
}

impl DescentKind {
    /// Returns the kind of an [`Error`] that has the same name.
    pub fn error_type(self) -> ErrorType
        ensures { result ≡ error_type self }
    {
        match self {
            DescentKind::InternalError => ErrorType::InternalError,
            DescentKind::Syntax => ErrorType::Syntax,
            DescentKind::ExpectedArrayContent => ErrorType::ExpectedArrayContent,
            DescentKind::ExpectedObjectContent => ErrorType::ExpectedObjectContent,
            DescentKind::ExpectedObjectKey => ErrorType::ExpectedObjectKey,
            DescentKind::ExpectedObjectColon => ErrorType::ExpectedObjectColon,
            DescentKind::ExpectedArrayComma => ErrorType::ExpectedArrayComma,
            DescentKind::ExpectedMapComma => ErrorType::ExpectedMapComma,
            DescentKind::ExpectedTrue => ErrorType::ExpectedTrue,
            DescentKind::ExpectedFalse => ErrorType::ExpectedFalse,
            DescentKind::ExpectedNull => ErrorType::ExpectedNull,
            DescentKind::InvalidNumber => ErrorType::InvalidNumber,
            DescentKind::InvalidEscape => ErrorType::InvalidEscape,
            DescentKind::InvalidUnicodeEscape => ErrorType::InvalidUnicodeEscape,
            DescentKind::InvalidUnicodeCodepoint => ErrorType::InvalidUnicodeCodepoint,
            DescentKind::TrailingData => ErrorType::TrailingData,
        }
    }
}

/// The first fault that the descent over the tokens of a text meets: its kind, and the byte that it is about.
#[derive(Clone, Copy, Debug, PartialEq, Eq, thiserror::Error)]
#[error("DescentFault")]
pub struct DescentFault {
    /// What is wrong.
    pub kind: DescentKind,
    /// Where the byte stands in the text, in bytes from 0. [`DescentKind`] says which byte it is.
    pub index: usize,
    /// The byte.
    pub byte: u8,
}

/// The error has the kind of the same name, the index, and the byte as its character.
impl From<DescentFault> for Error {
    ghost from_gives = { λ f e. e ≡ descent_error f };

    fn from(fault: DescentFault) -> Error {
        Error::at(fault.kind.error_type(), fault.index, fault.byte)
    }
}

/// The first fault of a descent: its kind, and the place of the byte that it is about, in bytes from the start.
#[derive(Clone, Copy, Debug)]
pub(crate) struct Stop {
    pub(crate) kind: DescentKind,
    pub(crate) place: usize,
}

impl Stop {
    /// The fault. It is about the first byte of the token that begins at `place`, or else about a backslash of it.
    pub(crate) fn fault(self, place: usize, first: u8) -> DescentFault
        ensures { result ≡ record { kind = self.kind; index = self.place; byte = if self.place == place then first else 0x5c } }
    {
        let byte = if self.place == place { first } else { b'\\' };
        DescentFault {
            kind: self.kind,
            index: self.place,
            byte,
        }
    }
}
