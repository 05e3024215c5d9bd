//! Names that were given before.
ghost use Rattle.std.specs.Prelude.{◌≡◌, [], ◌∷◌, not, All, IsTrue, IfOk, OnOk, bytes_eq};
ghost use Rattle.std.specs.List.{list_any};
ghost use Rattle.std.specs.List.Sorted.{IsSorted};
ghost use Rattle.std.specs.declared.cmp.Ordering.TheVariants.{Less};
ghost use Rattle.mls_reader.specs.steps.GivenTwice.{HasSameNames};
ghost use Rattle.mls_reader.specs.steps.Spellings.{spelling_cmp};

use crate::spelling::Spelling;
use mls_base::memory::Memory;
use std::alloc::Global;
use std::collections::BTreeSet;
use std::marker::Model;

/// Names that were given, each once. Contracts see them in a list. Names mostly rise, and one that is above those before
/// it is new after one comparison.
#[derive(Drop)]
pub struct Names<'a> {
    // Those that were above all that stood here before them.
    rising: Vec<Spelling<'a>>,
    others: BTreeSet<Spelling<'a>>,
}

impl<'a> Model for Names<'a> {
    ghost use Rattle.std.specs.Prelude.{List, ℕ, ◌++◌};
    ghost use Rattle.std.specs.List.Sorted.{IsSorted};
    ghost use Rattle.mls_reader.specs.steps.Spellings.{spelling_cmp};

    ghost Value = { List (List ℕ) };

    ghost view = { λ names. names.rising.items ++ names.others.keys };

    ghost invariant = { λ names. IsSorted spelling_cmp names.rising.items };
}

impl<'a> Names<'a> {
    /// No name.
    pub fn new(alloc: Global) -> Names<'a>
        ensures { result ≡ [] }
    {
        Names {
            rising: Vec::new(alloc),
            others: BTreeSet::new(alloc),
        }
    }

    /// Adds a name, and says whether it is new.
    pub fn add(&mut self, name: Spelling<'a>) -> Result<bool, Memory>
        ensures new { IfOk result (λ new. new ≡ not (list_any (bytes_eq name.entry) self.old)) }
        ensures names { OnOk result (HasSameNames (name.entry ∷ self.old) self.new) }
    {
        if is_above(self.rising.as_slice(), &name) {
            if self.others.contains(&name) {
                return Ok(false);
            }
            self.rising.push(name)?;
            return Ok(true);
        }
        if self.rising.binary_search(&name).is_ok() {
            return Ok(false);
        }
        Ok(self.others.insert(name)?)
    }
}

// Whether a name is above all of these, which rise.
fn is_above(names: &[Spelling], name: &Spelling) -> bool
    requires { IsSorted spelling_cmp names.now }
    ensures { IsTrue result → All (λ other. spelling_cmp other name.now ≡ Less) names.now }
{
    match names.last() {
        Some(last) => *last < *name,
        None => true,
    }
}
