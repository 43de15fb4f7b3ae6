//! Errors of reading: what is wrong with a text, and where.
ghost use Rattle.std.specs.Prelude.{◌≡◌, ◌≢◌, ◌↔◌, Some, None, IsTrue};
ghost use Rattle.sj_base.specs.Names.{name_of, error_text};
ghost use Rattle.sj_base.specs.Classes.{class_of, io_class, eof_class, syntax_class, data_class};
ghost use Rattle.sj_base.specs.declared.error.ErrorType.TheVariants.{OutOfMemory};

use std::alloc::AllocError;
use std::fmt;

/// The kind of an [`Error`] (`simd_json::ErrorType` without payloads).
#[derive(Clone, Copy, Debug, PartialEq, Eq)]
pub enum ErrorType {
    /// Kept from `simd_json`; no function returns it.
    Unexpected,
    /// An input longer than `u32::MAX` bytes.
    InputTooLarge,
    /// A padded input with fewer than 64 bytes after its text, or one that ends within it.
    InsufficientPadding,
    /// Kept from `simd_json`; no function returns it.
    BadKeyType,
    /// Kept from `simd_json`; no function returns it.
    ExpectedArray,
    /// Neither a comma nor `]` after an item of an array.
    ExpectedArrayComma,
    /// Kept from `simd_json`; no function returns it.
    ExpectedBoolean,
    /// Kept from `simd_json`; no function returns it.
    ExpectedEnum,
    /// Kept from `simd_json`; no function returns it.
    ExpectedFloat,
    /// Kept from `simd_json`; no function returns it.
    ExpectedInteger,
    /// Kept from `simd_json`; no function returns it.
    ExpectedMap,
    /// No colon after a key.
    ExpectedObjectColon,
    /// Neither a comma nor `}` after a member of an object.
    ExpectedMapComma,
    /// Kept from `simd_json`; no function returns it.
    ExpectedMapEnd,
    /// A token that begins with `n` and isn't `null`.
    ExpectedNull,
    /// A token that begins with `t` and isn't `true`.
    ExpectedTrue,
    /// A token that begins with `f` and isn't `false`.
    ExpectedFalse,
    /// Kept from `simd_json`; no function returns it.
    ExpectedNumber,
    /// Kept from `simd_json`; no function returns it.
    ExpectedSigned,
    /// Kept from `simd_json`; no function returns it.
    ExpectedString,
    /// Kept from `simd_json`; no function returns it.
    ExpectedUnsigned,
    /// A byte that begins no value, or a token after the root container.
    InternalError,
    /// A backslash with an unknown letter after it.
    InvalidEscape,
    /// Kept from `simd_json`; no function returns it.
    InvalidExponent,
    /// A token that begins as a number does, and is none.
    InvalidNumber,
    /// An input that isn't UTF-8.
    InvalidUtf8,
    /// `\u` without four hexadecimal digits.
    InvalidUnicodeEscape,
    /// A surrogate that isn't part of a pair.
    InvalidUnicodeCodepoint,
    /// Kept from `simd_json`; no function returns it.
    KeyMustBeAString,
    /// Kept from `simd_json`; no function returns it.
    NoStructure,
    /// Kept from `simd_json`; no function returns it.
    Parser,
    /// An input without a token.
    Eof,
    /// Kept from `simd_json`; no function returns it.
    Serde,
    /// An unclosed string, a control character in a string, an input that ends too early, or too deep nesting.
    Syntax,
    /// A token after a root scalar.
    TrailingData,
    /// Kept from `simd_json`; no function returns it.
    UnexpectedCharacter,
    /// Kept from `simd_json`; no function returns it.
    UnterminatedString,
    /// Neither a value nor `]` after `[`.
    ExpectedArrayContent,
    /// Neither a key nor `}` after `{`.
    ExpectedObjectContent,
    /// No key after a comma in an object.
    ExpectedObjectKey,
    /// An allocation that failed.
    OutOfMemory,
}

impl ErrorType {
    /// Returns the name of the variant.
    pub fn name(self) -> &'static str
        ensures { result.now ≡ name_of self }
    {
        match self {
            ErrorType::Unexpected => "Unexpected",
            ErrorType::InputTooLarge => "InputTooLarge",
            ErrorType::InsufficientPadding => "InsufficientPadding",
            ErrorType::BadKeyType => "BadKeyType",
            ErrorType::ExpectedArray => "ExpectedArray",
            ErrorType::ExpectedArrayComma => "ExpectedArrayComma",
            ErrorType::ExpectedBoolean => "ExpectedBoolean",
            ErrorType::ExpectedEnum => "ExpectedEnum",
            ErrorType::ExpectedFloat => "ExpectedFloat",
            ErrorType::ExpectedInteger => "ExpectedInteger",
            ErrorType::ExpectedMap => "ExpectedMap",
            ErrorType::ExpectedObjectColon => "ExpectedObjectColon",
            ErrorType::ExpectedMapComma => "ExpectedMapComma",
            ErrorType::ExpectedMapEnd => "ExpectedMapEnd",
            ErrorType::ExpectedNull => "ExpectedNull",
            ErrorType::ExpectedTrue => "ExpectedTrue",
            ErrorType::ExpectedFalse => "ExpectedFalse",
            ErrorType::ExpectedNumber => "ExpectedNumber",
            ErrorType::ExpectedSigned => "ExpectedSigned",
            ErrorType::ExpectedString => "ExpectedString",
            ErrorType::ExpectedUnsigned => "ExpectedUnsigned",
            ErrorType::InternalError => "InternalError",
            ErrorType::InvalidEscape => "InvalidEscape",
            ErrorType::InvalidExponent => "InvalidExponent",
            ErrorType::InvalidNumber => "InvalidNumber",
            ErrorType::InvalidUtf8 => "InvalidUtf8",
            ErrorType::InvalidUnicodeEscape => "InvalidUnicodeEscape",
            ErrorType::InvalidUnicodeCodepoint => "InvalidUnicodeCodepoint",
            ErrorType::KeyMustBeAString => "KeyMustBeAString",
            ErrorType::NoStructure => "NoStructure",
            ErrorType::Parser => "Parser",
            ErrorType::Eof => "Eof",
            ErrorType::Serde => "Serde",
            ErrorType::Syntax => "Syntax",
            ErrorType::TrailingData => "TrailingData",
            ErrorType::UnexpectedCharacter => "UnexpectedCharacter",
            ErrorType::UnterminatedString => "UnterminatedString",
            ErrorType::ExpectedArrayContent => "ExpectedArrayContent",
            ErrorType::ExpectedObjectContent => "ExpectedObjectContent",
            ErrorType::ExpectedObjectKey => "ExpectedObjectKey",
            ErrorType::OutOfMemory => "OutOfMemory",
        }
    }
}

/// An error of reading: its kind, and the byte of the input that it is about. Port of `simd_json::Error`.
#[derive(Clone, Copy, Debug, PartialEq, Eq)]
pub struct Error {
    error: ErrorType,
    index: usize,
    character: Option<char>,
}

impl Error {
    /// Creates an error that is about no byte: its index is 0, and it has no character. Port of `simd_json::Error::generic`.
    pub fn generic(error: ErrorType) -> Error
        ensures { result ≡ record { error = error; index = 0; character = None } }
    {
        Error {
            error,
            index: 0,
            character: None,
        }
    }

    /// Creates an error about `byte`, which stands at `index`.
    ///
    /// The index counts bytes from 0. The character is the byte itself, U+0000 to U+00FF, also where the byte is a part
    /// of a longer UTF-8 sequence.
    pub fn at(error: ErrorType, index: usize, byte: u8) -> Error
        ensures { result ≡ record { error = error; index = index; character = Some byte } }
    {
        Error {
            error,
            index,
            character: Some(char::from(byte)),
        }
    }

    /// Returns the index of the byte in the input, in bytes from 0. It is 0 also if the error is about no byte. Port of
    /// `simd_json::Error::index`.
    pub fn index(&self) -> usize
        ensures { result ≡ self.now.index }
    {
        self.index
    }

    /// Returns the byte as a character, or `None` if the error is about no byte. Port of `simd_json::Error::character`.
    pub fn character(&self) -> Option<char>
        ensures { result ≡ self.now.character }
    {
        self.character
    }

    /// Returns the kind of the error. Port of `simd_json::Error::error`.
    pub fn error(&self) -> ErrorType
        ensures { result ≡ self.now.error }
    {
        self.error
    }

    /// Returns `true` if a read or a write failed. Port of `simd_json::Error::is_io`. No kind says so, so it returns `false`.
    pub fn is_io(&self) -> bool
        ensures { IsTrue result ↔ (class_of self.now.error ≡ io_class) }
    {
        false
    }

    /// Returns `true` if the input has no token. Port of `simd_json::Error::is_eof`.
    pub fn is_eof(&self) -> bool
        ensures { IsTrue result ↔ (class_of self.now.error ≡ eof_class) }
    {
        let Error { error, .. } = self;
        *error == ErrorType::Eof
    }

    /// Returns `true` if the input has tokens but is no JSON text, or nests deeper than the limit. Port of
    /// `simd_json::Error::is_syntax`.
    pub fn is_syntax(&self) -> bool
        ensures { IsTrue result ↔ (class_of self.now.error ≡ syntax_class) }
    {
        let Error { error, .. } = self;
        matches!(
            error,
            ErrorType::InternalError
                | ErrorType::Syntax
                | ErrorType::ExpectedArrayContent
                | ErrorType::ExpectedObjectContent
                | ErrorType::ExpectedObjectKey
                | ErrorType::ExpectedObjectColon
                | ErrorType::ExpectedArrayComma
                | ErrorType::ExpectedMapComma
                | ErrorType::ExpectedTrue
                | ErrorType::ExpectedFalse
                | ErrorType::ExpectedNull
                | ErrorType::InvalidNumber
                | ErrorType::InvalidEscape
                | ErrorType::InvalidUnicodeEscape
                | ErrorType::InvalidUnicodeCodepoint
                | ErrorType::TrailingData
                | ErrorType::InvalidUtf8
        )
    }

    /// Returns `true` if the error is in none of the other three classes, as `OutOfMemory` and `InputTooLarge` are. Port of
    /// `simd_json::Error::is_data`.
    pub fn is_data(&self) -> bool
        ensures class { IsTrue result ↔ (class_of self.now.error ≡ data_class) }
        // Each error is in exactly one of the four classes.
        ensures exactly_one { let class = class_of self.now.error in
            IsTrue result ↔ ((class ≢ io_class) × (class ≢ eof_class) × (class ≢ syntax_class)) }
    {
        !self.is_io() && !self.is_eof() && !self.is_syntax()
    }
}

/// The error is about no byte, and its kind is `OutOfMemory`.
impl From<AllocError> for Error {
    ghost from_gives = { λ _ e. e ≡ record { error = OutOfMemory; index = 0; character = None } };

    fn from(_error: AllocError) -> Error {
        Error::generic(ErrorType::OutOfMemory)
    }
}

/// The kind, the index, and the character if there is one: `ExpectedTrue at character 5 ('t')`.
impl fmt::Display for Error {
    ghost output = { λ e. Some (error_text e) };

    fn fmt<W: fmt::Write>(&self, f: &mut fmt::Formatter<W>) -> fmt::Result {
        let Error {
            error,
            index,
            character,
        } = self;
        let name = error.name();
        write!(f, "{name} at character {index}")?;
        if let Some(character) = character {
            write!(f, " ('{character}')")?;
        }
        Ok(())
    }
}

impl std::error::Error for Error {}
