//! Why a command is refused.
ghost use Rattle.std.specs.Prelude.{◌≡◌};
ghost use Rattle.sj_documents.specs.inside.Documents.{refusal_name};

/// Why a command is refused. Its reply is the name of the variant.
#[derive(Clone, Copy, Debug)]
pub(crate) enum Refusal {
    NoSuchPath,
    NotAnObject,
    NotAnArray,
    NotAContainer,
    TooDeep,
}

impl Refusal {
    pub(crate) fn name(self) -> &'static str
        ensures { result.now ≡ refusal_name self }
    {
        match self {
            Refusal::NoSuchPath => "NoSuchPath",
            Refusal::NotAnObject => "NotAnObject",
            Refusal::NotAnArray => "NotAnArray",
            Refusal::NotAContainer => "NotAContainer",
            Refusal::TooDeep => "TooDeep",
        }
    }
}
