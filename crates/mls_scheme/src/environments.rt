//! Two environments made into one.
ghost use Rattle.std.specs.Prelude.{◌≡◌, ◌<◌, ◌+◌, ◌++◌, ◌∷◌, ◌⊎◌, [], get_or, length, map, take, All, IfOk, OnOk};
ghost use Rattle.mls_automaton.specs.declared.scheme.EnvEntry.{EnvEntry};
ghost use Rattle.mls_automaton.specs.Environments.{BindersRise};
ghost use Rattle.mls_scheme.specs.declared.environments.Shared.{Shared};
ghost use Rattle.mls_scheme.specs.steps.Environments.{AreUnder, IsMeeting, IsMetEnv, entry_of, pair_of, raised_entry};

use mls_automaton::scheme::{Env, EnvEntry};
use mls_automaton::state_set::StateId;
use mls_base::memory::Memory;
use std::alloc::Global;
use std::cmp::Ordering;

// Two states that one binder has.
#[derive(Clone, Copy, Debug, PartialEq, Eq)]
pub struct Shared {
    pub first: StateId,
    pub second: StateId,
}

// The environment so far, and the two states of each binder of both. The new states of these binders are to have
// numbers from `start` on, in this order.
#[derive(Drop)]
pub struct Meeting {
    pub env: Env,
    pub shared: Vec<Shared>,
    pub start: usize,
}

// The entry at a place.
fn entry_at(entries: &[EnvEntry], i: usize) -> EnvEntry
    requires { i < length entries.now }
    ensures { (d : _) → result ≡ get_or entries.now i d }
{
    entries[i]
}

impl Meeting {
    // Adds an entry of one environment.
    fn add_one(&mut self, entry: EnvEntry) -> Result<(), Memory>
        requires { AreUnder self.old.env entry.binder }
        ensures env { OnOk result (self.new.env ≡ self.old.env ++ entry ∷ []) }
        ensures shared { OnOk result (self.new.shared.items ≡ self.old.shared.items) }
        ensures start { OnOk result (self.new.start ≡ self.old.start) }
    {
        self.env.push(entry)?;
        Ok(())
    }

    // Adds a binder of both.
    fn add_both(&mut self, one: EnvEntry, other: EnvEntry) -> Result<(), Memory>
        requires { AreUnder self.old.env one.binder }
        ensures env { OnOk result (self.new.env
            ≡ self.old.env ++ entry_of one.binder (self.old.start + length self.old.shared.items) ∷ []) }
        ensures shared { OnOk result (self.new.shared.items
            ≡ self.old.shared.items ++ pair_of one.state.0 other.state.0 ∷ []) }
        ensures start { OnOk result (self.new.start ≡ self.old.start) }
    {
        let number = self.start.checked_add(self.shared.len()).ok_or(Memory)?;
        self.shared.push(Shared {
            first: one.state,
            second: other.state,
        })?;
        self.env.push(EnvEntry {
            binder: one.binder,
            state: StateId(number),
        })?;
        Ok(())
    }

    // Adds what has the least binder of what is left of two environments, and answers what is left then.
    fn add_next(
        &mut self,
        first: &[EnvEntry],
        second: &[EnvEntry],
        i: usize,
        j: usize,
    ) -> Result<(usize, usize), Memory>
        requires first { BindersRise first.now }
        requires second { BindersRise second.now }
        requires meeting { IsMeeting first.now second.now i j self.old.start self.old.env self.old.shared.items }
        requires left { (i < length first.now) ⊎ (j < length second.now) }
        ensures meeting { IfOk result (λ next.
            IsMeeting first.now second.now next.0 next.1 self.old.start self.new.env self.new.shared.items) }
        ensures start { OnOk result (self.new.start ≡ self.old.start) }
        ensures more { IfOk result (λ next. i + j < next.0 + next.1) }
    {
        if j == second.len() {
            let entry = entry_at(first, i);
            self.add_one(entry)?;
            return Ok((i + 1, j));
        }
        if i == first.len() {
            let entry = entry_at(second, j);
            self.add_one(entry)?;
            return Ok((i, j + 1));
        }
        let one = entry_at(first, i);
        let other = entry_at(second, j);
        match one.binder.cmp(&other.binder) {
            Ordering::Less => {
                self.add_one(one)?;
                Ok((i + 1, j))
            }
            Ordering::Greater => {
                self.add_one(other)?;
                Ok((i, j + 1))
            }
            Ordering::Equal => {
                self.add_both(one, other)?;
                Ok((i + 1, j + 1))
            }
        }
    }
}

// The entry whose state stands at a number that is higher by this.
fn raise(entry: EnvEntry, up: usize) -> Result<EnvEntry, Memory>
    ensures { IfOk result (λ raised. raised ≡ raised_entry up entry) }
{
    let number = up.checked_add(entry.state.0).ok_or(Memory)?;
    Ok(EnvEntry {
        binder: entry.binder,
        state: StateId(number),
    })
}

// The environment with states at numbers that are higher by this.
pub fn raise_all(alloc: Global, env: &Env, up: usize) -> Result<Env, Memory>
    ensures { IfOk result (λ raised. raised ≡ map (raised_entry up) env.now) }
{
    let mut raised = Env::new(alloc);
    for entry in env.as_slice() {
        let entry = raise(*entry, up)?;
        raised.push(entry)?;
    }
    Ok(raised)
}

// Two environments made into one, where the states of binders of both are to have numbers from `start` on.
pub fn meet_envs(alloc: Global, first: &Env, second: &Env, start: usize) -> Result<Meeting, Memory>
    ensures { IfOk result (λ met. IsMetEnv first.now second.now start met.env met.shared.items) }
{
    let mut met = Meeting {
        env: Env::new(alloc),
        shared: Vec::new(alloc),
        start,
    };
    let first = first.as_slice();
    let second = second.as_slice();
    let mut i = 0;
    let mut j = 0;
    while i < first.len() || j < second.len() {
        (i, j) = met.add_next(first, second, i, j)?;
    }
    Ok(met)
}
