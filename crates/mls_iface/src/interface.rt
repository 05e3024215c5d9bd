//! What an interface declares.
ghost use Rattle.std.specs.Prelude.{◌≡◌};

use mls_base::list::List;
use mls_base::memory::Memory;
use mls_book::name::Name;
use mls_lexer::token::{Kind, LexFault};
use mls_typetext::scheme::{ReadScheme, TypeFault};
use std::alloc::AllocFailed;
use thiserror::Error;

/// What an interface declares, in the order of its text.
#[derive(Drop)]
pub struct Interface {
    pub vals: List<Val>,
}

/// A declaration: a name, its place in the text in bytes, and what its type is read as.
#[derive(Drop)]
pub struct Val {
    pub name: Name,
    pub at: usize,
    pub scheme: ReadScheme,
}

/// The first fault of a text of an interface, with its place in the text in bytes.
#[derive(Clone, Copy, Debug, PartialEq, Eq, Error)]
pub enum IfaceFault {
    /// A byte outside comments with which no token begins.
    #[error("a byte that begins no token, at {0}")]
    BadByte(usize),
    /// The first digit of a number above 9223372036854775807.
    #[error("a number above 9223372036854775807, at {0}")]
    BigNumber(usize),
    /// The first token with which no interface can go on.
    #[error("unexpected token in a type, at {0}")]
    Unexpected(usize, Kind),
    /// All tokens can go on, and they are no interface.
    #[error("the type ends too early")]
    Ended,
    /// A `|` or `bot` in a negative place, or a `&` or `top` in a positive place.
    #[error("not a polar type, at {0}")]
    NotPolar(usize),
    /// A recursive name with no function and no record between it and its `rec`.
    #[error("unguarded recursion, at {0}")]
    Unguarded(usize),
    /// A recursive name whose place has another sign than that of its `rec`.
    #[error("contravariant recursion, at {0}")]
    Contravariant(usize),
    /// A label that an earlier field of the same record has.
    #[error("label given twice, at {0}")]
    DuplicateLabel(usize),
    /// A name that an earlier declaration has.
    #[error("name declared twice, at {0}")]
    DuplicateVal(usize),
    /// Memory was wanting.
    #[error("out of memory")]
    Memory,
}

impl IfaceFault {
    ghost use Rattle.mls_iface.specs.FaultPlaces.{fault_number, fault_place};

    /// Its number in messages; want of memory has none, and gives 0.
    pub fn number(&self) -> usize
        ensures { result ≡ fault_number self.now }
    {
        match self {
            IfaceFault::BadByte(_) => 1,
            IfaceFault::BigNumber(_) => 2,
            IfaceFault::Unexpected(_, _) => 10,
            IfaceFault::Ended => 11,
            IfaceFault::NotPolar(_) => 12,
            IfaceFault::Unguarded(_) => 13,
            IfaceFault::Contravariant(_) => 14,
            IfaceFault::DuplicateLabel(_) => 15,
            IfaceFault::DuplicateVal(_) => 16,
            IfaceFault::Memory => 0,
        }
    }

    /// Its place in a text of this length, in bytes: that of the variant, and the end of the text for one that ends too
    /// early. For want of memory it is 0.
    pub fn place(&self, length: usize) -> usize
        ensures { result ≡ fault_place length self.now }
    {
        match self {
            IfaceFault::BadByte(at) => *at,
            IfaceFault::BigNumber(at) => *at,
            IfaceFault::Unexpected(at, _) => *at,
            IfaceFault::Ended => length,
            IfaceFault::NotPolar(at) => *at,
            IfaceFault::Unguarded(at) => *at,
            IfaceFault::Contravariant(at) => *at,
            IfaceFault::DuplicateLabel(at) => *at,
            IfaceFault::DuplicateVal(at) => *at,
            IfaceFault::Memory => 0,
        }
    }
}

impl From<Memory> for IfaceFault {
    ghost use Rattle.mls_iface.specs.declared.interface.IfaceFault.TheVariants.{Memory as WantOfMemory};

    ghost from_gives = { λ _ fault. fault ≡ WantOfMemory };

    fn from(_e: Memory) -> IfaceFault {
        IfaceFault::Memory
    }
}

impl<T: Drop> From<AllocFailed<T>> for IfaceFault {
    ghost use Rattle.mls_iface.specs.declared.interface.IfaceFault.TheVariants.{Memory as WantOfMemory};

    ghost from_gives = { λ _ fault. fault ≡ WantOfMemory };

    fn from(_e: AllocFailed<T>) -> IfaceFault {
        IfaceFault::Memory
    }
}

impl From<LexFault> for IfaceFault {
    ghost use Rattle.mls_iface.specs.Faults.{of_tokens};

    ghost from_gives = { λ e fault. fault ≡ of_tokens e };

    fn from(e: LexFault) -> IfaceFault {
        match e {
            LexFault::BadByte(at) => IfaceFault::BadByte(at),
            LexFault::BigNumber(at) => IfaceFault::BigNumber(at),
            LexFault::Memory => IfaceFault::Memory,
        }
    }
}

impl From<TypeFault> for IfaceFault {
    ghost use Rattle.mls_iface.specs.Faults.{of_type};

    ghost from_gives = { λ e fault. fault ≡ of_type e };

    fn from(e: TypeFault) -> IfaceFault {
        match e {
            TypeFault::BadByte(at) => IfaceFault::BadByte(at),
            TypeFault::BigNumber(at) => IfaceFault::BigNumber(at),
            TypeFault::Unexpected(at, kind) => IfaceFault::Unexpected(at, kind),
            TypeFault::Ended => IfaceFault::Ended,
            TypeFault::NotPolar(at) => IfaceFault::NotPolar(at),
            TypeFault::Unguarded(at) => IfaceFault::Unguarded(at),
            TypeFault::Contravariant(at) => IfaceFault::Contravariant(at),
            TypeFault::DuplicateLabel(at) => IfaceFault::DuplicateLabel(at),
            TypeFault::Memory => IfaceFault::Memory,
        }
    }
}
