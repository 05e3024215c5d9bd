//! Sums of numbers of nodes.
ghost use Rattle.std.specs.Prelude.{◌≡◌, ◌+◌, IfOk};

use mls_base::memory::Memory;

/// The sum. Where it does not fit, memory is wanting for so many nodes.
pub fn sum(first: usize, second: usize) -> Result<usize, Memory>
    ensures { IfOk result (λ all. all ≡ first + second) }
{
    match first.checked_add(second) {
        Some(all) => Ok(all),
        None => Err(Memory),
    }
}
