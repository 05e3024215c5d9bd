//! The faults of the texts of derivations.
ghost use Rattle.std.specs.Prelude.{◌≡◌};

use mls_base::memory::Memory;
use thiserror::Error;

/// Why a text is read as no derivation.
#[derive(Clone, Copy, Debug, PartialEq, Eq, Error)]
pub enum DerivFault {
    /// The first line that is none of a derivation where it stands, counted from 1. Where the text ends early it is the
    /// number of its lines and one more.
    #[error("bad line")]
    BadLine(usize),
    /// Memory was wanting.
    #[error("out of memory")]
    Memory,
}

impl DerivFault {
    ghost use Rattle.mls_deriv.specs.FaultNumbers.{fault_number};

    /// Its number in messages; want of memory has none, and gives 0.
    pub fn number(&self) -> usize
        ensures { result ≡ fault_number self.now }
    {
        match self {
            DerivFault::BadLine(_) => 19,
            DerivFault::Memory => 0,
        }
    }
}

impl From<Memory> for DerivFault {
    ghost use Rattle.mls_deriv.specs.declared.fault.DerivFault.TheVariants.{Memory as WantOfMemory};

    ghost from_gives = { λ _ fault. fault ≡ WantOfMemory };

    fn from(_e: Memory) -> DerivFault {
        DerivFault::Memory
    }
}
