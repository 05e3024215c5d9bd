//! Pairs that are kept of a list.
ghost use Rattle.std.specs.Prelude.{OnOk};
ghost use Rattle.mls_pairs.specs.steps.Rounds.{AddsKept};

use crate::pairs::Pairs;
use mls_base::memory::Memory;
use mls_deriv::claim::Pair;

/// Adds a pair where it is kept.
///
/// # Errors
///
/// `Memory` where memory is wanting.
pub(crate) fn add_kept(left: &mut Pairs, pair: Pair, is_kept: bool) -> Result<(), Memory>
    ensures { OnOk result (AddsKept is_kept pair left.old left.new) }
{
    if !is_kept {
        return Ok(());
    }
    left.push(pair)?;
    Ok(())
}
