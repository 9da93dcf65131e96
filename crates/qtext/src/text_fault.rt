ghost use Rattle.std.specs.Prelude.{◌≡◌};
ghost use Rattle.qtext.specs.TextFaults.{text_kind_number, text_kind_words};

use thiserror::Error;

/// What is wrong in a line of a text.
#[derive(Clone, Copy, Debug, PartialEq, Eq, Error)]
pub enum TextKind {
    /// The last line has no line end.
    #[error("cut")]
    Cut,
    /// A byte is neither a space nor one that prints.
    #[error("bad byte")]
    BadByte,
    /// A number is of another form or too large.
    #[error("bad number")]
    BadNumber,
    /// There is no caller, or one of another form.
    #[error("bad caller")]
    BadCred,
    /// There is no verb, or one that is not known.
    #[error("bad verb")]
    BadVerb,
    /// There are too few or too many arguments.
    #[error("word count")]
    WordCount,
    /// A path is empty, or a kind is none of `user`, `group` and, in edition 2, `project`.
    #[error("bad word")]
    BadWord,
    /// Data are not hexadecimal digits, two a byte.
    #[error("bad hex")]
    BadHex,
    /// There are more lines than a text may have.
    #[error("too many lines")]
    TooMany,
    /// There was not enough memory, whatever the text says.
    #[error("memory")]
    Memory,
    /// The first line of a journal is missing or of another form.
    #[error("bad head")]
    BadHead,
    /// What stands after the arguments of a journaled call is not `=>` and a reply.
    #[error("bad reply")]
    BadReply,
}

impl TextKind {
    /// The number under which it is reported.
    pub fn number(self) -> u32
        ensures { result ≡ text_kind_number self }
    {
        match self {
            TextKind::Cut => 31,
            TextKind::BadByte => 32,
            TextKind::BadNumber => 33,
            TextKind::BadCred => 34,
            TextKind::BadVerb => 35,
            TextKind::WordCount => 36,
            TextKind::BadWord => 37,
            TextKind::BadHex => 38,
            TextKind::TooMany => 39,
            TextKind::Memory => 40,
            TextKind::BadHead => 44,
            TextKind::BadReply => 45,
        }
    }

    /// The words that name it.
    pub fn words(self) -> &'static str
        ensures { result.now ≡ text_kind_words self }
    {
        match self {
            TextKind::Cut => "cut",
            TextKind::BadByte => "bad byte",
            TextKind::BadNumber => "bad number",
            TextKind::BadCred => "bad caller",
            TextKind::BadVerb => "bad verb",
            TextKind::WordCount => "word count",
            TextKind::BadWord => "bad word",
            TextKind::BadHex => "bad hex",
            TextKind::TooMany => "too many lines",
            TextKind::Memory => "memory",
            TextKind::BadHead => "bad head",
            TextKind::BadReply => "bad reply",
        }
    }
}

/// The first line at fault, counted from 1, with the first thing wrong in it. For out of memory it is line 0.
#[derive(Clone, Copy, Debug, PartialEq, Eq, Error)]
#[error("line {line}: {kind}")]
pub struct TextFault {
    pub line: u64,
    pub kind: TextKind,
}
