//! Why an expression has no scheme.
ghost use Rattle.std.specs.Prelude.{◌≡◌};

use mls_base::memory::Memory;
pub use mls_biunify::goal::HeadKind;
use mls_book::name::Name;

/// Why inference answers no scheme.
#[derive(Debug, Drop)]
pub enum InferFault {
    /// The expression has none.
    NoScheme(Site),
    /// Memory was wanting.
    Memory,
}

/// Where an expression fails: its first node in postorder that has no scheme, and why it has none.
#[derive(Debug, Drop)]
pub struct Site {
    /// The number of the node.
    pub node: usize,
    /// Of the first clash of its constraint over most general schemes of its parts.
    pub kind: SiteKind,
}

/// Why no type is below the one type and above the other.
#[derive(Debug, Drop)]
pub enum SiteKind {
    /// There is the one part where the other is wanted.
    Unlike(HeadKind, HeadKind),
    /// There is a record without the field of this label.
    Lacks(Name),
}

impl From<Memory> for InferFault {
    ghost use Rattle.mls_infer.specs.declared.fault.InferFault.TheVariants.{Memory as WantOfMemory};

    ghost from_gives = { λ _ e. e ≡ WantOfMemory };

    fn from(_e: Memory) -> InferFault {
        InferFault::Memory
    }
}
