//! Why goals have no solution: the first clash over automata of the parts' own.

ghost use Rattle.std.specs.Prelude.{◌≡◌, ◌∷◌, [], All, IfOk};
ghost use Rattle.mls_automaton.specs.declared.automaton.Polarity.TheVariants.{Positive, Negative};
ghost use Rattle.mls_biunify.specs.Live.{IsLiveState};
ghost use Rattle.mls_infer.specs.Constraints.{HasStates, apply_constraint, choice_constraint, fix_constraint};
ghost use Rattle.mls_infer.specs.Constraints.{project_constraint};
ghost use Rattle.mls_infer.specs.Pending.{IsSameTable, OverAllSame, OverSame};
ghost use Rattle.mls_infer.specs.Posed.{IsGoalOf, constraint_of, scheme_in};
ghost use Rattle.mls_infer.specs.Regions.{part_over};
ghost use Rattle.mls_infer.specs.Solved.{TellsFirstClash};
ghost use Rattle.mls_infer.specs.Steps.{HasNoTypes};

use crate::constraints::{Constraints, Open};
use crate::rows::{application, conditional, projection, recursion};
use crate::solve::{NoSolution, solve};
use mls_automaton::scheme::EnvEntry;
use mls_automaton::state_set::StateId;
use mls_base::list::List;
use mls_base::memory::Memory;
use mls_biunify::live::Live;
use mls_book::name::Name;
use std::alloc::Global;

// The number of the binder of a recursion here, which has no other.
const BINDER: usize = 0;

// A part of its own over a copy of the table, without binders.
fn alone(alloc: Global, live: &Live, root: StateId) -> Result<Open, Memory>
    ensures same { IfOk result (λ part. IsSameTable live.now part.automaton) }
    ensures part { IfOk result (λ part. scheme_in part ≡ part_over part.automaton [] root) }
{
    let automaton = live.copied()?;
    Ok(Open {
        automaton,
        env: List::new(alloc),
        root,
    })
}

/// Of a function and an argument with these roots.
pub(crate) fn clash_of_application(
    alloc: Global,
    live: &Live,
    function: StateId,
    argument: StateId,
) -> NoSolution
    requires function { IsLiveState live.now Positive function.0 }
    requires argument { IsLiveState live.now Positive argument.0 }
    requires none { OverAllSame live.now (λ a. OverAllSame live.now (λ b.
        HasNoTypes (apply_constraint (part_over a [] function) (part_over b [] argument)))) }
    ensures { OverSame live.now (λ a. OverSame live.now (λ b.
        TellsFirstClash (apply_constraint (part_over a [] function) (part_over b [] argument)) result)) }
{
    let _is_live = live.ready();
    match applied(alloc, live, function, argument) {
        Ok(constraints) => told(alloc, constraints),
        Err(_) => NoSolution::Memory,
    }
}

fn applied(
    alloc: Global,
    live: &Live,
    function: StateId,
    argument: StateId,
) -> Result<Constraints, Memory>
    requires function { IsLiveState live.now Positive function.0 }
    requires argument { IsLiveState live.now Positive argument.0 }
    ensures constraint { IfOk result (λ c. OverSame live.now (λ a. OverSame live.now (λ b.
        constraint_of c ≡ apply_constraint (part_over a [] function) (part_over b [] argument)))) }
    ensures states { IfOk result (λ c. HasStates (constraint_of c).scheme) }
    ensures goals { IfOk result (λ c. All (IsGoalOf c.automaton) c.goals) }
{
    let first = alone(alloc, live, function)?;
    let second = alone(alloc, live, argument)?;
    let posed = application(alloc, first, &second)?;
    Ok(posed)
}

/// Of a record with this root.
pub(crate) fn clash_of_projection(
    alloc: Global,
    live: &Live,
    label: &Name,
    body: StateId,
) -> NoSolution
    requires body { IsLiveState live.now Positive body.0 }
    requires none { OverAllSame live.now (λ a. HasNoTypes (project_constraint label.now (part_over a [] body))) }
    ensures { OverSame live.now (λ a. TellsFirstClash (project_constraint label.now (part_over a [] body)) result) }
{
    let _is_live = live.ready();
    match projected(alloc, live, label, body) {
        Ok(constraints) => told(alloc, constraints),
        Err(_) => NoSolution::Memory,
    }
}

fn projected(alloc: Global, live: &Live, label: &Name, body: StateId) -> Result<Constraints, Memory>
    requires { IsLiveState live.now Positive body.0 }
    ensures constraint { IfOk result (λ c. OverSame live.now (λ a.
        constraint_of c ≡ project_constraint label.now (part_over a [] body))) }
    ensures states { IfOk result (λ c. HasStates (constraint_of c).scheme) }
    ensures goals { IfOk result (λ c. All (IsGoalOf c.automaton) c.goals) }
{
    let part = alone(alloc, live, body)?;
    let posed = projection(alloc, label, part)?;
    Ok(posed)
}

/// Of a condition and two branches with these roots.
pub(crate) fn clash_of_choice(
    alloc: Global,
    live: &Live,
    condition: StateId,
    first: StateId,
    second: StateId,
) -> NoSolution
    requires condition { IsLiveState live.now Positive condition.0 }
    requires first { IsLiveState live.now Positive first.0 }
    requires second { IsLiveState live.now Positive second.0 }
    requires none { OverAllSame live.now (λ a. OverAllSame live.now (λ b. OverAllSame live.now (λ c.
        HasNoTypes (choice_constraint (part_over a [] condition) (part_over b [] first) (part_over c [] second))))) }
    ensures { OverSame live.now (λ a. OverSame live.now (λ b. OverSame live.now (λ c. TellsFirstClash
        (choice_constraint (part_over a [] condition) (part_over b [] first) (part_over c [] second)) result))) }
{
    let _is_live = live.ready();
    match chosen(alloc, live, condition, first, second) {
        Ok(constraints) => told(alloc, constraints),
        Err(_) => NoSolution::Memory,
    }
}

fn chosen(
    alloc: Global,
    live: &Live,
    condition: StateId,
    first: StateId,
    second: StateId,
) -> Result<Constraints, Memory>
    requires condition { IsLiveState live.now Positive condition.0 }
    requires first { IsLiveState live.now Positive first.0 }
    requires second { IsLiveState live.now Positive second.0 }
    ensures constraint { IfOk result (λ c. OverSame live.now (λ x. OverSame live.now (λ y. OverSame live.now (λ z.
        constraint_of c ≡ choice_constraint (part_over x [] condition) (part_over y [] first)
        (part_over z [] second))))) }
    ensures states { IfOk result (λ c. HasStates (constraint_of c).scheme) }
    ensures goals { IfOk result (λ c. All (IsGoalOf c.automaton) c.goals) }
{
    let tested = alone(alloc, live, condition)?;
    let one = alone(alloc, live, first)?;
    let other = alone(alloc, live, second)?;
    let posed = conditional(alloc, tested, &one, &other)?;
    Ok(posed)
}

/// Of a body with this root, where its binder has this state.
pub(crate) fn clash_of_recursion(
    alloc: Global,
    live: &Live,
    root: StateId,
    state: StateId,
) -> NoSolution
    requires root { IsLiveState live.now Positive root.0 }
    requires state { IsLiveState live.now Negative state.0 }
    requires none { OverAllSame live.now (λ a. HasNoTypes (fix_constraint 0
        (part_over a (record { binder = 0; state = state } ∷ []) root))) }
    ensures { OverSame live.now (λ a. TellsFirstClash (fix_constraint 0
        (part_over a (record { binder = 0; state = state } ∷ []) root)) result) }
{
    let _is_live = live.ready();
    match fixed(alloc, live, root, state) {
        Ok(constraints) => told(alloc, constraints),
        Err(_) => NoSolution::Memory,
    }
}

fn fixed(alloc: Global, live: &Live, root: StateId, state: StateId) -> Result<Constraints, Memory>
    requires root { IsLiveState live.now Positive root.0 }
    requires state { IsLiveState live.now Negative state.0 }
    ensures constraint { IfOk result (λ c. OverSame live.now (λ a. constraint_of c ≡ fix_constraint 0
        (part_over a (record { binder = 0; state = state } ∷ []) root))) }
    ensures states { IfOk result (λ c. HasStates (constraint_of c).scheme) }
    ensures goals { IfOk result (λ c. All (IsGoalOf c.automaton) c.goals) }
{
    let mut body = alone(alloc, live, root)?;
    body.env.push(EnvEntry {
        binder: BINDER,
        state,
    })?;
    let posed = recursion(alloc, BINDER, body)?;
    Ok(posed)
}

// The first clash of constraints that have no solution.
fn told(alloc: Global, constraints: Constraints) -> NoSolution
    requires states { HasStates (constraint_of constraints).scheme }
    requires goals { All (IsGoalOf constraints.automaton) constraints.goals }
    requires none { HasNoTypes (constraint_of constraints) }
    ensures { TellsFirstClash (constraint_of constraints) result }
{
    match solve(alloc, constraints) {
        Ok(_) => unreachable!(),
        Err(none) => none,
    }
}
