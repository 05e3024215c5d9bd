//! What the text of a type is read as.
ghost use Rattle.std.specs.Prelude.{◌≡◌};

use mls_base::list::List;
use mls_base::memory::Memory;
use mls_book::book::{Book, NodeId};
use mls_lexer::token::{Kind, LexFault};
use std::alloc::AllocFailed;
use thiserror::Error;

/// What the text of a type is read as: the book of its tree, which is closed, its root, and how many variables it
/// has, which are numbered from 0 in the order of their first appearance.
#[derive(Drop)]
pub struct ReadScheme {
    pub book: Book,
    pub root: NodeId,
    pub vars: usize,
}

/// An environment by number: the schemes that names mean, each under its number from 0.
#[derive(Drop)]
pub struct Names {
    pub schemes: List<ReadScheme>,
}

/// The first fault of a text of a type, with its place in the text in bytes.
#[derive(Clone, Copy, Debug, PartialEq, Eq, Error)]
pub enum TypeFault {
    /// A byte outside comments with which no token begins.
    #[error("a byte that begins no token, at {0}")]
    BadByte(usize),
    /// The first digit of a number above 9223372036854775807.
    #[error("a number above 9223372036854775807, at {0}")]
    BigNumber(usize),
    /// The first token with which no type can go on.
    #[error("unexpected token in a type, at {0}")]
    Unexpected(usize, Kind),
    /// All tokens can go on, and they are no type.
    #[error("the type ends too early")]
    Ended,
    /// A `|` or `bot` in a negative place, or a `&` or `top` in a positive place.
    #[error("not a polar type, at {0}")]
    NotPolar(usize),
    /// A recursive name with no function and no record between it and its `rec`.
    #[error("unguarded recursion, at {0}")]
    Unguarded(usize),
    /// A recursive name whose place has another sign than that of its `rec`.
    #[error("contravariant recursion, at {0}")]
    Contravariant(usize),
    /// A label that an earlier field of the same record has.
    #[error("label given twice, at {0}")]
    DuplicateLabel(usize),
    /// Memory was wanting.
    #[error("out of memory")]
    Memory,
}

impl TypeFault {
    ghost use Rattle.mls_typetext.specs.FaultNumbers.{fault_number};
    ghost use Rattle.mls_typetext.specs.Stops.{fault_place};

    /// Its number in messages; want of memory has none, and gives 0.
    pub fn number(&self) -> usize
        ensures { result ≡ fault_number self.now }
    {
        match self {
            TypeFault::BadByte(_) => 1,
            TypeFault::BigNumber(_) => 2,
            TypeFault::Unexpected(_, _) => 10,
            TypeFault::Ended => 11,
            TypeFault::NotPolar(_) => 12,
            TypeFault::Unguarded(_) => 13,
            TypeFault::Contravariant(_) => 14,
            TypeFault::DuplicateLabel(_) => 15,
            TypeFault::Memory => 0,
        }
    }

    /// Its place in a text of this length, in bytes: that of the variant, and the end of the text for one that ends too
    /// early. For want of memory it is 0.
    pub fn place(&self, length: usize) -> usize
        ensures { result ≡ fault_place length self.now }
    {
        match self {
            TypeFault::BadByte(at) => *at,
            TypeFault::BigNumber(at) => *at,
            TypeFault::Unexpected(at, _) => *at,
            TypeFault::Ended => length,
            TypeFault::NotPolar(at) => *at,
            TypeFault::Unguarded(at) => *at,
            TypeFault::Contravariant(at) => *at,
            TypeFault::DuplicateLabel(at) => *at,
            TypeFault::Memory => 0,
        }
    }
}

impl From<Memory> for TypeFault {
    ghost use Rattle.mls_typetext.specs.declared.scheme.TypeFault.TheVariants.{Memory as WantOfMemory};

    ghost from_gives = { λ _ fault. fault ≡ WantOfMemory };

    fn from(_e: Memory) -> TypeFault {
        TypeFault::Memory
    }
}

impl<T: Drop> From<AllocFailed<T>> for TypeFault {
    ghost use Rattle.mls_typetext.specs.declared.scheme.TypeFault.TheVariants.{Memory as WantOfMemory};

    ghost from_gives = { λ _ fault. fault ≡ WantOfMemory };

    fn from(_e: AllocFailed<T>) -> TypeFault {
        TypeFault::Memory
    }
}

impl From<LexFault> for TypeFault {
    ghost use Rattle.mls_typetext.specs.Stops.{of_tokens};

    ghost from_gives = { λ e fault. fault ≡ of_tokens e };

    fn from(e: LexFault) -> TypeFault {
        match e {
            LexFault::BadByte(at) => TypeFault::BadByte(at),
            LexFault::BigNumber(at) => TypeFault::BigNumber(at),
            LexFault::Memory => TypeFault::Memory,
        }
    }
}
