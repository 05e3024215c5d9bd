//! Simplified schemes.
ghost use Rattle.std.specs.Prelude.{IfOk};
ghost use Rattle.mls_automaton.specs.Schemes.{AreEquivalentSchemes, HaveSameBinders, IsScheme};
ghost use Rattle.mls_shape.specs.Simplified.{IsSimplified, Simplifies};

use crate::determinise::determinise;
use crate::drop::drop_redundant_flows;
use crate::minimise::minimise;
use mls_automaton::scheme::Scheme;
use mls_base::memory::Memory;
use std::alloc::Global;

/// The simplified scheme: deterministic, over the states alone that heads reach from its root and its binders, no two
/// of which are alike, and without redundant edges. It is made by `determinise`, `drop_redundant_flows` and `minimise`,
/// in this order. Heads reach each of its states then, so `keep_reachable` would leave it as it is.
///
/// # Errors
///
/// `Memory` where memory is wanting. The deterministic form may have exponentially many states.
pub fn simplify(alloc: Global, s: &Scheme) -> Result<Scheme, Memory>
    requires { IsScheme s.now }
    ensures steps { IfOk result (Simplifies s.now) }
    ensures scheme { IfOk result IsScheme }
    ensures equivalent { IfOk result (AreEquivalentSchemes s.now) }
    ensures binders { IfOk result (HaveSameBinders s.now) }
    ensures simplified { IfOk result IsSimplified }
{
    let deterministic = determinise(alloc, s)?;
    let dropped = drop_redundant_flows(alloc, &deterministic)?;
    let minimal = minimise(alloc, &dropped)?;
    Ok(minimal)
}
