//! The types of the names of the environment, as far as they were read.
ghost use Rattle.std.specs.Prelude.{OnOk};
ghost use Rattle.mls_iface.specs.Matches.{IsRead};
ghost use Rattle.mls_emit.specs.Drafts.{KnowsName};

use mls_automaton::scheme::Scheme;
use mls_base::memory::Memory;
use mls_scheme::read::scheme_of_read;
use mls_typetext::scheme::ReadScheme;
use std::alloc::Global;
use std::collections::BTreeMap;

/// The types of names of the environment by their numbers, as far as they were read.
pub(crate) type Schemes = BTreeMap<usize, Scheme>;

/// Makes the type of a name of the environment known, where it was not read before.
///
/// # Errors
///
/// `Memory` where memory is wanting.
pub(crate) fn know_type(
    alloc: Global,
    schemes: &mut Schemes,
    read: &ReadScheme,
    g: usize,
) -> Result<(), Memory>
    requires { IsRead read.now }
    ensures { OnOk result (KnowsName schemes.old schemes.new g read.now) }
{
    if schemes.contains_key(&g) {
        return Ok(());
    }
    let scheme = scheme_of_read(alloc, read)?;
    schemes.insert(g, scheme)?;
    Ok(())
}
