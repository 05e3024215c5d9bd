//! The states that heads reach from the root and the binders of a scheme.
ghost use Rattle.std.specs.Prelude.{◌≡◌, ◌↔◌, ◌<◌, ◌+◌, ◌*◌, true, false, length, get_or, Contains, IfOk, OnOk};
ghost use Rattle.mls_automaton.specs.Reached.{HeadNames, InAnyField, InFunction, InRecord};
ghost use Rattle.mls_automaton.specs.Schemes.{IsScheme};
ghost use Rattle.mls_automaton.specs.steps.Searching.{AreReached, Grows, InArms, InEntries, IsBelow, IsSearch};
ghost use Rattle.mls_automaton.specs.steps.Searching.{search_of};

use crate::automaton::{Arms, FieldSet, FieldSets, Head};
use crate::scheme::{EnvEntry, Scheme};
use crate::state_set::{StateId, StateSet};
use mls_base::memory::Memory;
use std::alloc::Global;

// The states that were found so far, and those of them whose heads are still to be looked at.
#[derive(Drop)]
struct Search {
    marks: Vec<bool>,
    work: Vec<usize>,
}

impl Search {
    // Finds a state.
    fn mark(&mut self, s: usize) -> Result<(), Memory>
        requires { s < length (search_of self.old).marks }
        ensures { OnOk result (Grows (search_of self.old) (search_of self.new) (λ j. j ≡ s)) }
    {
        if self.marks[s] {
            return Ok(());
        }
        self.work.push(s)?;
        self.marks[s] = true;
        Ok(())
    }

    // Finds the members of a set.
    fn mark_set(&mut self, set: &StateSet) -> Result<(), Memory>
        requires { IsBelow (Contains set.now) (length (search_of self.old).marks) }
        ensures { OnOk result (Grows (search_of self.old) (search_of self.new) (Contains set.now)) }
    {
        for s in set.as_slice() {
            self.mark(*s)?;
        }
        Ok(())
    }

    // Finds the states of a domain and a codomain.
    fn mark_arms(&mut self, arms: &Arms) -> Result<(), Memory>
        requires { IsBelow (InArms arms.now) (length (search_of self.old).marks) }
        ensures { OnOk result (Grows (search_of self.old) (search_of self.new) (InArms arms.now)) }
    {
        self.mark_set(&arms.domain)?;
        self.mark_set(&arms.codomain)?;
        Ok(())
    }

    fn mark_function(&mut self, function: &Option<Arms>) -> Result<(), Memory>
        requires { IsBelow (InFunction function.now) (length (search_of self.old).marks) }
        ensures { OnOk result (Grows (search_of self.old) (search_of self.new) (InFunction function.now)) }
    {
        match function {
            None => Ok(()),
            Some(arms) => {
                self.mark_arms(arms)?;
                Ok(())
            }
        }
    }

    // Finds the states of fields.
    fn mark_fields(&mut self, fields: &[FieldSet]) -> Result<(), Memory>
        requires { IsBelow (InAnyField fields.now) (length (search_of self.old).marks) }
        ensures { OnOk result (Grows (search_of self.old) (search_of self.new) (InAnyField fields.now)) }
    {
        for field in fields {
            self.mark_set(&field.set)?;
        }
        Ok(())
    }

    fn mark_record(&mut self, fields: &Option<FieldSets>) -> Result<(), Memory>
        requires { IsBelow (InRecord fields.now) (length (search_of self.old).marks) }
        ensures { OnOk result (Grows (search_of self.old) (search_of self.new) (InRecord fields.now)) }
    {
        match fields {
            None => Ok(()),
            Some(fields) => {
                self.mark_fields(fields.as_slice())?;
                Ok(())
            }
        }
    }

    // Finds the states that a head names.
    fn mark_head(&mut self, head: &Head) -> Result<(), Memory>
        requires { IsBelow (HeadNames head.now) (length (search_of self.old).marks) }
        ensures { OnOk result (Grows (search_of self.old) (search_of self.new) (HeadNames head.now)) }
    {
        self.mark_function(&head.function)?;
        self.mark_record(&head.fields)?;
        Ok(())
    }

    // Finds the states of binders.
    fn mark_entries(&mut self, entries: &[EnvEntry]) -> Result<(), Memory>
        requires { IsBelow (InEntries entries.now) (length (search_of self.old).marks) }
        ensures { OnOk result (Grows (search_of self.old) (search_of self.new) (InEntries entries.now)) }
    {
        for entry in entries {
            self.mark(entry.state.0)?;
        }
        Ok(())
    }
}

// Which states of the scheme heads reach.
pub fn reached(alloc: Global, scheme: &Scheme) -> Result<Vec<bool>, Memory>
    requires { IsScheme scheme.now }
    ensures { IfOk result (λ marks. AreReached scheme.now marks.items) }
{
    let mut search = begin(alloc, scheme)?;
    while let Some(s) = search.work.pop() {
        search.mark_head(scheme.automaton.head(StateId(s)))?;
    }
    Ok(search.marks)
}

// A search that has found the root and the states of the binders.
fn begin(alloc: Global, scheme: &Scheme) -> Result<Search, Memory>
    requires { IsScheme scheme.now }
    ensures { IfOk result (λ search. IsSearch scheme.now (search_of search)) }
{
    let mut search = Search {
        marks: vec![in alloc; false; scheme.automaton.len()]?,
        work: Vec::new(alloc),
    };
    search.mark(scheme.root.0)?;
    search.mark_entries(scheme.env.as_slice())?;
    Ok(search)
}
