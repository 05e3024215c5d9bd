//! The states of a table that heads reach from some.
ghost use Rattle.std.specs.Prelude.{◌≡◌, ◌↔◌, ℕ, true, false, [], get_or, All, Contains, IfOk, OnOk};
ghost use Rattle.mls_automaton.specs.Reached.{HeadNames, InAnyField, InFunction, InRecord};
ghost use Rattle.mls_automaton.specs.declared.state_set.StateId.{StateId};
ghost use Rattle.mls_automaton.specs.steps.Searching.{InArms};
ghost use Rattle.mls_biunify.specs.Live.{IsReachedFrom};
ghost use Rattle.mls_biunify.specs.steps.Keeping.{FindsIn, InRoots};

use crate::marks::{Found, Marks};
use crate::table::Table;
use mls_automaton::automaton::{Arms, FieldSet, FieldSets, Head};
use mls_automaton::state_set::{StateId, StateSet};
use mls_base::memory::Memory;
use std::alloc::Global;
use std::collections::BTreeSet;

// The states that were found so far, and those of them whose heads are still to be looked at.
#[derive(Drop)]
pub struct Search<F> {
    pub found: F,
    work: Vec<usize>,
}

impl<F: Found> Search<F> {
    // Nothing was found.
    pub fn new(found: F, alloc: Global) -> Search<F>
        ensures found { result.found ≡ found }
        ensures work { result.work.items ≡ [] }
    {
        Search {
            found,
            work: Vec::new(alloc),
        }
    }

    // Finds a state.
    fn mark(&mut self, s: usize) -> Result<(), Memory>
        ensures { OnOk result (FindsIn F.members self.old self.new (λ j. j ≡ s)) }
    {
        let is_new = self.found.find(s)?;
        if !is_new {
            return Ok(());
        }
        self.work.push(s)?;
        Ok(())
    }

    // Finds the members of a set.
    fn mark_set(&mut self, set: &StateSet) -> Result<(), Memory>
        ensures { OnOk result (FindsIn F.members self.old self.new (Contains set.now)) }
    {
        for s in set.as_slice() {
            self.mark(*s)?;
        }
        Ok(())
    }

    // Finds the states of a domain and a codomain.
    fn mark_arms(&mut self, arms: &Arms) -> Result<(), Memory>
        ensures { OnOk result (FindsIn F.members self.old self.new (InArms arms.now)) }
    {
        self.mark_set(&arms.domain)?;
        self.mark_set(&arms.codomain)?;
        Ok(())
    }

    fn mark_function(&mut self, function: &Option<Arms>) -> Result<(), Memory>
        ensures { OnOk result (FindsIn F.members self.old self.new (InFunction function.now)) }
    {
        match function {
            None => Ok(()),
            Some(arms) => {
                self.mark_arms(arms)?;
                Ok(())
            }
        }
    }

    // Finds the states of fields.
    fn mark_fields(&mut self, fields: &[FieldSet]) -> Result<(), Memory>
        ensures { OnOk result (FindsIn F.members self.old self.new (InAnyField fields.now)) }
    {
        for field in fields {
            self.mark_set(&field.set)?;
        }
        Ok(())
    }

    fn mark_record(&mut self, fields: &Option<FieldSets>) -> Result<(), Memory>
        ensures { OnOk result (FindsIn F.members self.old self.new (InRecord fields.now)) }
    {
        match fields {
            None => Ok(()),
            Some(fields) => {
                self.mark_fields(fields.as_slice())?;
                Ok(())
            }
        }
    }

    // Finds the states that a head names.
    fn mark_head(&mut self, head: &Head) -> Result<(), Memory>
        ensures { OnOk result (FindsIn F.members self.old self.new (HeadNames head.now)) }
    {
        self.mark_function(&head.function)?;
        self.mark_record(&head.fields)?;
        Ok(())
    }

    // Finds the roots.
    fn mark_roots(&mut self, roots: &[StateId]) -> Result<(), Memory>
        ensures { OnOk result (FindsIn F.members self.old self.new (InRoots roots.now)) }
    {
        for root in roots {
            self.mark(root.0)?;
        }
        Ok(())
    }
}

// Finds the states that heads reach from the roots. It goes over these states alone.
fn walk<F: Found>(table: &Table, search: &mut Search<F>, roots: &[StateId]) -> Result<(), Memory>
    requires there { All (λ (root : StateId). get_or table.now.there root.0 false ≡ true) roots.now }
    requires found { F.members search.old.found ≡ [] }
    requires work { search.old.work.items ≡ [] }
    ensures { OnOk result ((s : ℕ)
        → Contains (F.members search.new.found) s ↔ IsReachedFrom table.now.automaton roots.now s) }
{
    let _limit = table.limit();
    search.mark_roots(roots)?;
    while let Some(s) = search.work.pop() {
        search.mark_head(table.head(StateId(s)))?;
    }
    Ok(())
}

// The states that heads reach from the roots.
pub fn reached(alloc: Global, table: &Table, roots: &[StateId]) -> Result<BTreeSet<usize>, Memory>
    requires { All (λ (root : StateId). get_or table.now.there root.0 false ≡ true) roots.now }
    ensures { IfOk result (λ found. (s : ℕ)
        → Contains found.keys s ↔ IsReachedFrom table.now.automaton roots.now s) }
{
    let mut search = Search::new(BTreeSet::new(alloc), alloc);
    walk(table, &mut search, roots)?;
    Ok(search.found)
}

// Marks the states that heads reach from the roots, and no others. What an earlier walk found goes first.
pub fn mark_reached(
    table: &Table,
    search: &mut Search<Marks>,
    roots: &[StateId],
) -> Result<(), Memory>
    requires { All (λ (root : StateId). get_or table.now.there root.0 false ≡ true) roots.now }
    ensures { OnOk result ((s : ℕ)
        → Contains search.new.found s ↔ IsReachedFrom table.now.automaton roots.now s) }
{
    search.found.clear();
    search.work.clear();
    walk(table, search, roots)?;
    Ok(())
}
