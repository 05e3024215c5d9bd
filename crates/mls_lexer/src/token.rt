//! What a token is, and what is wrong with a text that is no list of tokens.
ghost use Rattle.std.specs.Prelude.{◌≡◌};

use std::alloc::AllocFailed;
use thiserror::Error;

/// What a token is: a name, a number, a reserved word or a symbol.
#[derive(Clone, Copy, Debug, PartialEq, Eq)]
pub enum Kind {
    Name,
    Number,
    WordAnd,
    WordBool,
    WordBot,
    WordElse,
    WordFalse,
    WordFormat,
    WordFun,
    WordIf,
    WordImport,
    WordIn,
    WordInt,
    WordLet,
    WordRec,
    WordThen,
    WordTop,
    WordTrue,
    WordType,
    WordVal,
    Equals,
    DoubleEquals,
    Arrow,
    BraceLeft,
    BraceRight,
    ParenLeft,
    ParenRight,
    Comma,
    Dot,
    Colon,
    Plus,
    Minus,
    Star,
    Less,
    Bar,
    Amp,
}

/// A token of a text: the bytes from `start` up to `end`.
#[derive(Clone, Copy, Debug, PartialEq, Eq)]
pub struct Token {
    /// What it is.
    pub kind: Kind,
    /// The number of its first byte.
    pub start: usize,
    /// The number of the byte after its last one.
    pub end: usize,
}

/// Why a text has no tokens: its first fault, with the number of the byte at which it stands.
#[derive(Clone, Copy, Debug, PartialEq, Eq, Error)]
pub enum LexFault {
    /// A byte outside comments with which no token begins.
    #[error("a byte that begins no token, at {0}")]
    BadByte(usize),
    /// The first digit of a number above 9223372036854775807.
    #[error("a number above 9223372036854775807, at {0}")]
    BigNumber(usize),
    /// Memory was wanting.
    #[error("out of memory")]
    Memory,
}

impl<T: Drop> From<AllocFailed<T>> for LexFault {
    ghost use Rattle.mls_lexer.specs.declared.token.LexFault.TheVariants.{Memory};

    ghost from_gives = { λ _ fault. fault ≡ Memory };

    fn from(_e: AllocFailed<T>) -> LexFault {
        LexFault::Memory
    }
}
