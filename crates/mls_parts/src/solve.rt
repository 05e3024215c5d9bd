//! The solved automaton of a constraint, and the pairs of states that solving relates.
ghost use Rattle.std.specs.Prelude.{◌≡◌, All, IfOk};
ghost use Rattle.mls_automaton.specs.Models.{IsClosed};
ghost use Rattle.mls_solver.specs.Relations.{IsGoal, IsGoalOf, IsRelated};
ghost use Rattle.mls_solver.specs.Rooms.{Holds, HoldsJust, HoldsStates};
ghost use Rattle.mls_solver.specs.Solved.{IsSolved};

use mls_automaton::automaton::Automaton;
use mls_base::memory::Memory;
use mls_solver::found::Found;
use mls_solver::goal::Goal;
use mls_solver::search::search;
use mls_solver::settle::settle;
use std::alloc::Global;

/// The related pairs of a constraint, and its solved automaton.
#[derive(Drop)]
pub struct Solution {
    pub found: Found,
    pub automaton: Automaton,
}

// The same automaton once more, in room for just its states.
fn copied(alloc: Global, a: &Automaton) -> Result<Automaton, Memory>
    ensures { IfOk result (λ copy. copy ≡ a.now) }
{
    let mut copy = Automaton::with_room(alloc, a.len())?;
    copy.append(a)?;
    Ok(copy)
}

/// Relates the states of the goals and of all that follows from these, and solves a copy of the automaton by them.
///
/// # Errors
///
/// `Memory` where memory is wanting.
pub fn solution_of(alloc: Global, a: &Automaton, goals: &[Goal]) -> Result<Solution, Memory>
    requires closed { IsClosed a.now }
    requires goals { All (IsGoalOf a.now) goals.now }
    ensures related { IfOk result (λ s. HoldsJust s.found (IsRelated a.now (IsGoal goals.now))) }
    ensures states { IfOk result (λ s. HoldsStates a.now s.found) }
    ensures solved { IfOk result (λ s. IsSolved a.now (Holds s.found) s.automaton) }
    ensures closed { IfOk result (λ s. IsClosed s.automaton) }
{
    let found = search(alloc, a, goals)?;
    let mut automaton = copied(alloc, a)?;
    settle(alloc, &found, &mut automaton)?;
    Ok(Solution { found, automaton })
}
