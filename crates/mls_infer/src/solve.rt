//! Constraints are solved: the part with their types, or why there is none.
ghost use Rattle.std.specs.Prelude.{◌≡◌, All, IfErr, IfOk};
ghost use Rattle.mls_automaton.specs.Automata.{head_at};
ghost use Rattle.mls_automaton.specs.Models.{IsClosed};
ghost use Rattle.mls_solver.specs.Clashes.{Clashes, label_of};
ghost use Rattle.mls_solver.specs.Relations.{IsGoalOf};
ghost use Rattle.mls_infer.specs.Constraints.{HasStates};
ghost use Rattle.mls_infer.specs.Posed.{constraint_of, scheme_in};
ghost use Rattle.mls_infer.specs.Solved.{ClashesFirst, HasField, IsClashWithout, IsSolvedFor, TellsFirstClash};
ghost use Rattle.mls_infer.specs.Solved.{TellsKind};
ghost use Rattle.mls_infer.specs.Steps.{IsSolution};

use crate::constraints::{Constraints, Open};
use crate::fault::SiteKind;
use mls_automaton::automaton::{Automaton, Head};
use mls_base::memory::Memory;
use mls_biunify::goal::{Clash, ClashKind, Goal};
use mls_biunify::search::{first_clash_of, search};
use mls_biunify::settle::settle;
use mls_book::name::Name;
use std::alloc::Global;

/// Why constraints have no solution.
#[derive(Debug, Drop)]
pub enum NoSolution {
    /// Two types clash.
    Clash(SiteKind),
    /// Memory was wanting.
    Memory,
}

impl From<Memory> for NoSolution {
    ghost use Rattle.mls_infer.specs.declared.solve.NoSolution.TheVariants.{Memory as WantOfMemory};

    ghost from_gives = { λ _ e. e ≡ WantOfMemory };

    fn from(_e: Memory) -> NoSolution {
        NoSolution::Memory
    }
}

/// The part that has just the types of the constraints. Without goals it is that of the constraints themselves; else
/// their automaton is solved in place, in time that grows with the pairs that are related and the states at their
/// edges. A binder keeps the states that it has.
///
/// # Errors
///
/// `Clash` where the constraints have no types: the first of the clashes. `Memory` where memory is wanting.
pub(crate) fn solve(alloc: Global, c: Constraints) -> Result<Open, NoSolution>
    requires states { HasStates (constraint_of c).scheme }
    requires goals { All (IsGoalOf c.automaton) c.goals }
    ensures solution { IfOk result (λ o. IsSolution (constraint_of c) (scheme_in o)) }
    ensures none { IfErr result (IsClashWithout (constraint_of c)) }
    ensures first { IfErr result (TellsFirstClash (constraint_of c)) }
{
    if c.goals.is_empty() {
        return Ok(Open {
            automaton: c.automaton,
            env: c.env,
            root: c.root,
        });
    }
    let automaton = solved(alloc, c.automaton, c.goals.as_slice())?;
    Ok(Open {
        automaton,
        env: c.env,
        root: c.root,
    })
}

// The automaton, solved by the goals.
fn solved(alloc: Global, a: Automaton, goals: &[Goal]) -> Result<Automaton, NoSolution>
    requires closed { IsClosed a }
    requires goals { All (IsGoalOf a) goals.now }
    ensures ok { IfOk result (IsSolvedFor a goals.now) }
    ensures err { IfErr result (ClashesFirst a goals.now) }
{
    let mut a = a;
    let found = search(alloc, &a, goals)?;
    match first_clash_of(&found, &a) {
        Ok(()) => {
            settle(alloc, &found, &mut a)?;
            Ok(a)
        }
        Err(clash) => {
            let mismatch = told(&a, clash)?;
            Err(NoSolution::Clash(mismatch))
        }
    }
}

// The clash, without states.
fn told(a: &Automaton, clash: Clash) -> Result<SiteKind, Memory>
    requires { Clashes (head_at a.now clash.positive.0) (head_at a.now clash.negative.0) clash.kind }
    ensures { IfOk result (TellsKind (head_at a.now clash.negative.0) clash.kind) }
{
    match clash.kind {
        ClashKind::Unlike(first, second) => Ok(SiteKind::Unlike(first, second)),
        ClashKind::Lacks(i) => {
            let label = label_at(a.head(clash.negative), i)?;
            Ok(SiteKind::Lacks(label))
        }
    }
}

// The label of a field of a head.
fn label_at(head: &Head, i: usize) -> Result<Name, Memory>
    requires { HasField head.now.fields i }
    ensures { IfOk result (λ label. label ≡ label_of head.now.fields i) }
{
    match &head.fields {
        Some(fields) => {
            let label = fields.as_slice()[i].label.clone()?;
            Ok(label)
        }
        None => unreachable!(),
    }
}
