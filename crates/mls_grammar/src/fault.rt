//! The first fault of the text of a module.
ghost use Rattle.std.specs.Prelude.{◌≡◌};

use mls_base::memory::Memory;
use mls_lexer::token::{Kind, LexFault};
use std::alloc::{AllocError, AllocFailed};
use thiserror::Error;

/// The first fault of a module, with its place in the text in bytes.
#[derive(Clone, Copy, Debug, PartialEq, Eq, Error)]
pub enum Fault {
    /// A byte outside comments with which no token begins.
    #[error("a byte that begins no token, at {0}")]
    BadByte(usize),
    /// The first digit of a number above 9223372036854775807.
    #[error("a number above 9223372036854775807, at {0}")]
    BigNumber(usize),
    /// The first token with which no module can go on.
    #[error("unexpected token, at {0}")]
    Unexpected(usize, Kind),
    /// All tokens can go on, and the text is no module.
    #[error("the text ends too early")]
    Ended,
    /// The first token of an expression of nesting 201.
    #[error("nesting above 200, at {0}")]
    TooDeep(usize),
    /// A name that an earlier binding has.
    #[error("name bound twice, at {0}")]
    DuplicateBinding(usize),
    /// A label that its record has already.
    #[error("label given twice, at {0}")]
    DuplicateLabel(usize),
    /// A module that is imported already.
    #[error("module imported twice, at {0}")]
    DuplicateImport(usize),
    /// A name without a meaning.
    #[error("unknown name, at {0}")]
    UnknownName(usize),
    /// Memory was wanting.
    #[error("out of memory")]
    Memory,
}

impl Fault {
    ghost use Rattle.mls_grammar.specs.Faults.{fault_number, fault_place};

    /// Its number in messages; want of memory has none, and gives 0.
    pub fn number(&self) -> usize
        ensures { result ≡ fault_number self.now }
    {
        match self {
            Fault::BadByte(_) => 1,
            Fault::BigNumber(_) => 2,
            Fault::Unexpected(_, _) => 3,
            Fault::Ended => 4,
            Fault::TooDeep(_) => 5,
            Fault::UnknownName(_) => 6,
            Fault::DuplicateBinding(_) => 7,
            Fault::DuplicateLabel(_) => 8,
            Fault::DuplicateImport(_) => 9,
            Fault::Memory => 0,
        }
    }

    /// Its place in a text of this length, in bytes: that of the variant, and the end of the text for one that ends too
    /// early. For want of memory it is 0.
    pub fn place(&self, length: usize) -> usize
        ensures { result ≡ fault_place length self.now }
    {
        match self {
            Fault::BadByte(at) => *at,
            Fault::BigNumber(at) => *at,
            Fault::Unexpected(at, _) => *at,
            Fault::Ended => length,
            Fault::TooDeep(at) => *at,
            Fault::UnknownName(at) => *at,
            Fault::DuplicateBinding(at) => *at,
            Fault::DuplicateLabel(at) => *at,
            Fault::DuplicateImport(at) => *at,
            Fault::Memory => 0,
        }
    }
}

impl From<Memory> for Fault {
    ghost use Rattle.mls_grammar.specs.declared.fault.Fault.{Fault};

    ghost from_gives = { λ _ fault. fault ≡ Fault.Memory };

    fn from(_e: Memory) -> Fault {
        Fault::Memory
    }
}

impl From<AllocError> for Fault {
    ghost use Rattle.mls_grammar.specs.declared.fault.Fault.{Fault};

    ghost from_gives = { λ _ fault. fault ≡ Fault.Memory };

    fn from(_e: AllocError) -> Fault {
        Fault::Memory
    }
}

impl<T: Drop> From<AllocFailed<T>> for Fault {
    ghost use Rattle.mls_grammar.specs.declared.fault.Fault.{Fault};

    ghost from_gives = { λ _ fault. fault ≡ Fault.Memory };

    fn from(_e: AllocFailed<T>) -> Fault {
        Fault::Memory
    }
}

impl From<LexFault> for Fault {
    ghost use Rattle.std.specs.Prelude.{◌≡◌};
    ghost use Rattle.mls_grammar.specs.FirstFaults.{of_tokens};

    ghost from_gives = { λ e fault. fault ≡ of_tokens e };

    fn from(e: LexFault) -> Fault {
        match e {
            LexFault::BadByte(at) => Fault::BadByte(at),
            LexFault::BigNumber(at) => Fault::BigNumber(at),
            LexFault::Memory => Fault::Memory,
        }
    }
}
