//! Sets of states as the keys of a map.
ghost use Rattle.std.specs.Prelude.{◌≡◌, ◌↔◌, Contains, bytes_eq, IfOk};
ghost use Rattle.std.proofs.Common.{rules};
ghost use Rattle.std.specs.Cmp.{partial_equiv_from_equiv};
ghost use Rattle.std.specs.Cmp.Lexicographic.{slice_cmp};
ghost use Rattle.std.specs.Cmp.Rules.{comparing};
ghost use Rattle.std.specs.Ordering.{nat_cmp, as_partial_cmp};
ghost use Rattle.std.proofs.lemmas.Cmp.{nat_list_cmp_total, nat_list_eq_equiv};
ghost use Rattle.mls_print.specs.steps.Rising.{AreRisingNumbers};

use crate::sets::rising;
use mls_base::memory::Memory;
use std::cmp::Ordering;
use std::marker::Model;

/// The members of a set, in rising order. Contracts see the list of them.
#[derive(Drop)]
pub struct Members {
    numbers: Vec<usize>,
}

impl Model for Members {
    ghost use Rattle.std.specs.Prelude.{List, ℕ};

    ghost Value = { List ℕ };

    ghost view = { λ m. m.numbers.items };
}

impl Members {
    /// The set of these numbers.
    pub fn of(numbers: Vec<usize>) -> Members
        ensures rising { AreRisingNumbers result }
        ensures members { (x : _) → Contains result x ↔ Contains numbers.items x }
    {
        Members {
            numbers: rising(numbers),
        }
    }

    /// The members once more, as a list.
    pub fn to_vec(&self) -> Result<Vec<usize>, Memory>
        ensures { IfOk result (λ numbers. numbers.items ≡ self.now) }
    {
        let numbers = self.numbers.clone()?;
        Ok(numbers)
    }
}

impl PartialEq for Members {
    ghost eq = { bytes_eq };

    ghost laws = { partial_equiv_from_equiv nat_list_eq_equiv };

    fn eq(&self, other: &Members) -> bool {
        self.numbers.as_slice() == other.numbers.as_slice()
    }
}

impl Eq for Members {
    ghost laws = { nat_list_eq_equiv };
}

/// Sets are ordered by their first members that differ.
impl Ord for Members {
    ghost cmp = { slice_cmp nat_cmp };

    ghost total = { nat_list_cmp_total };

    ghost matches_partial_cmp = { Prim.search (comparing, rules) };

    ghost matches_eq = { Prim.search (comparing, rules) };

    fn cmp(&self, other: &Members) -> Ordering {
        self.numbers.as_slice().cmp(&other.numbers.as_slice())
    }
}

impl PartialOrd for Members {
    ghost partial_cmp = { as_partial_cmp (slice_cmp nat_cmp) };

    ghost laws = { Prim.search (comparing, rules) };

    fn partial_cmp(&self, other: &Members) -> Option<Ordering> {
        Some(self.cmp(other))
    }
}
