//! Sets of numbers as rising lists.
ghost use Rattle.std.specs.Prelude.{◌≡◌, ◌↔◌, ◌<◌, ◌++◌, Contains, IfOk, OnOk};
ghost use Rattle.mls_print.specs.steps.Rising.{AreRisingNumbers};

/// The numbers in rising order, each of them once.
pub fn rising(mut numbers: Vec<usize>) -> Vec<usize>
    ensures rising { AreRisingNumbers result.items }
    ensures members { (x : _) → Contains result.items x ↔ Contains numbers.items x }
{
    numbers.sort_unstable();
    numbers.dedup();
    numbers
}
