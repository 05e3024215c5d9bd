//! Labels as the keys of a map, and what a map has for them.
ghost use Rattle.std.specs.Prelude.{◌≡◌, ◌++◌, ◌∷◌, [], bytes_eq, length, IfOk, OnOk};
ghost use Rattle.std.specs.List.{flat_map};
ghost use Rattle.std.proofs.Common.{rules};
ghost use Rattle.std.specs.Cmp.{partial_equiv_from_equiv};
ghost use Rattle.std.specs.Cmp.Lexicographic.{slice_cmp};
ghost use Rattle.std.specs.Cmp.Rules.{comparing};
ghost use Rattle.std.specs.Ordering.{nat_cmp, as_partial_cmp};
ghost use Rattle.std.proofs.lemmas.Cmp.{nat_list_cmp_total, nat_list_eq_equiv};

use mls_automaton::state_set::StateSet;
use mls_base::memory::Memory;
use mls_book::name::Name;
use std::alloc::Global;
use std::cmp::Ordering;
use std::marker::Model;

/// A label. Labels are ordered by their bytes, and contracts see these.
#[derive(Drop)]
pub struct Label<'a> {
    name: &'a Name,
}

impl<'a> Model for Label<'a> {
    ghost use Rattle.std.specs.Prelude.{List, ℕ};

    ghost Value = { List ℕ };

    ghost view = { λ l. l.name.now };
}

impl<'a> Label<'a> {
    /// The label of this name.
    pub fn new(name: &'a Name) -> Label<'a>
        ensures { result ≡ name.now }
    {
        Label { name }
    }

    /// Its name.
    pub fn name(&self) -> &'a Name
        ensures { result.now ≡ self.now }
    {
        self.name
    }
}

impl<'a> PartialEq for Label<'a> {
    ghost eq = { bytes_eq };

    ghost laws = { partial_equiv_from_equiv nat_list_eq_equiv };

    fn eq(&self, other: &Label<'a>) -> bool {
        self.name.bytes() == other.name.bytes()
    }
}

impl<'a> Eq for Label<'a> {
    ghost laws = { nat_list_eq_equiv };
}

impl<'a> Ord for Label<'a> {
    ghost cmp = { slice_cmp nat_cmp };

    ghost total = { nat_list_cmp_total };

    ghost matches_partial_cmp = { Prim.search (comparing, rules) };

    ghost matches_eq = { Prim.search (comparing, rules) };

    fn cmp(&self, other: &Label<'a>) -> Ordering {
        self.name.bytes().cmp(&other.name.bytes())
    }
}

impl<'a> PartialOrd for Label<'a> {
    ghost partial_cmp = { as_partial_cmp (slice_cmp nat_cmp) };

    ghost laws = { Prim.search (comparing, rules) };

    fn partial_cmp(&self, other: &Label<'a>) -> Option<Ordering> {
        Some(self.cmp(other))
    }
}

/// The sets that several records have at one label. Contracts see their lists.
#[derive(Drop)]
pub struct LabelSets<'a> {
    sets: Vec<&'a StateSet>,
}

impl<'a> Model for LabelSets<'a> {
    ghost use Rattle.std.specs.Prelude.{List, ℕ, map};

    ghost Value = { List (List ℕ) };

    ghost view = { λ l. map (λ set. set.now) l.sets.items };
}

impl<'a> LabelSets<'a> {
    /// One set.
    pub fn one(alloc: Global, set: &'a StateSet) -> Result<LabelSets<'a>, Memory>
        ensures { IfOk result (λ sets. sets ≡ set.now ∷ []) }
    {
        let sets = vec![in alloc; set]?;
        Ok(LabelSets { sets })
    }

    /// One more set.
    pub fn push(&mut self, set: &'a StateSet) -> Result<(), Memory>
        ensures { OnOk result (self.new ≡ self.old ++ set.now ∷ []) }
    {
        self.sets.push(set)?;
        Ok(())
    }

    /// How many sets there are.
    pub fn len(&self) -> usize
        ensures { result ≡ length self.now }
    {
        self.sets.len()
    }

    /// The members of all sets, one set after the other.
    pub fn states(&self, alloc: Global) -> Result<Vec<usize>, Memory>
        ensures { IfOk result (λ states. states.items ≡ flat_map (λ set. set) self.now) }
    {
        let states = states_of(alloc, self.sets.as_slice())?;
        Ok(states)
    }
}

// The members of all sets, one set after the other.
fn states_of(alloc: Global, sets: &[&StateSet]) -> Result<Vec<usize>, Memory>
    ensures { IfOk result (λ states. states.items ≡ flat_map (λ set. set.now) sets.now) }
{
    let mut states = Vec::new(alloc);
    for set in sets {
        states.extend_from_slice(set.as_slice())?;
    }
    Ok(states)
}
