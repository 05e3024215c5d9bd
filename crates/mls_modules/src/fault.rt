//! Why a module has no signature.
ghost use Rattle.std.specs.Prelude.{◌≡◌};

use mls_base::memory::Memory;
use mls_infer::fault::Site;

/// Why a module has no signature.
#[derive(Debug, Drop)]
pub enum ModuleFault {
    /// The first name without a meaning, by its place in the text in bytes.
    UnknownName(usize),
    /// The number of the first binding that has no scheme, and its first node in postorder that has none. The bindings
    /// before it have entries.
    NoScheme(usize, Site),
    /// Memory was wanting.
    Memory,
}

impl From<Memory> for ModuleFault {
    ghost use Rattle.mls_modules.specs.declared.fault.ModuleFault.TheVariants.{Memory as WantOfMemory};

    ghost from_gives = { λ _ e. e ≡ WantOfMemory };

    fn from(_e: Memory) -> ModuleFault {
        ModuleFault::Memory
    }
}
