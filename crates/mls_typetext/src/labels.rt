//! The labels of a record.
ghost use Rattle.std.specs.Prelude.{◌≡◌, [], not, All, IsTrue, IfOk, OnOk};
ghost use Rattle.std.specs.List.Sorted.{IsSorted};
ghost use Rattle.std.specs.Cmp.Lexicographic.{slice_cmp};
ghost use Rattle.std.specs.Ordering.{nat_cmp};
ghost use Rattle.std.specs.declared.cmp.Ordering.TheVariants.{Less};
ghost use Rattle.mls_typetext.specs.steps.LabelLists.{is_among, HasAdded};

use mls_base::memory::Memory;
use mls_book::name::Name;
use std::alloc::Global;
use std::collections::BTreeSet;
use std::marker::Model;

/// Labels that were given, each once. Contracts see them in a list. Labels mostly rise, and one that is above those
/// before it is new after one comparison.
#[derive(Drop)]
pub struct Labels {
    // Those that were above all that stood here before them.
    rising: Vec<Name>,
    others: BTreeSet<Name>,
}

impl Model for Labels {
    ghost use Rattle.std.specs.Prelude.{List, ℕ, ◌++◌};
    ghost use Rattle.std.specs.List.Sorted.{IsSorted};
    ghost use Rattle.std.specs.Cmp.Lexicographic.{slice_cmp};
    ghost use Rattle.std.specs.Ordering.{nat_cmp};

    ghost Value = { List (List ℕ) };

    ghost view = { λ labels. labels.rising.items ++ labels.others.keys };

    ghost invariant = { λ labels. IsSorted (slice_cmp nat_cmp) labels.rising.items };
}

impl Labels {
    /// No label.
    pub fn new(alloc: Global) -> Labels
        ensures { result ≡ [] }
    {
        Labels {
            rising: Vec::new(alloc),
            others: BTreeSet::new(alloc),
        }
    }

    /// Adds a label, and says whether it is new.
    pub fn add(&mut self, label: Name) -> Result<bool, Memory>
        ensures new { IfOk result (λ new. new ≡ not (is_among self.old label)) }
        ensures labels { OnOk result (HasAdded label self.old self.new) }
    {
        if is_above(self.rising.as_slice(), &label) {
            if self.others.contains(&label) {
                return Ok(false);
            }
            self.rising.push(label)?;
            return Ok(true);
        }
        if self.rising.binary_search(&label).is_ok() {
            return Ok(false);
        }
        Ok(self.others.insert(label)?)
    }

    /// Takes out all labels.
    pub fn clear(&mut self)
        ensures { self.new ≡ [] }
    {
        self.rising.clear();
        self.others.clear();
    }
}

// Whether a label is above all of these, which rise.
fn is_above(labels: &[Name], label: &Name) -> bool
    requires { IsSorted (slice_cmp nat_cmp) labels.now }
    ensures { IsTrue result → All (λ other. slice_cmp nat_cmp other label.now ≡ Less) labels.now }
{
    match labels.last() {
        Some(last) => *last < *label,
        None => true,
    }
}
