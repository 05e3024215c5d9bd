//! The automaton that is solved by the relation of a room.
ghost use Rattle.std.specs.Prelude.{◌≡◌, ℕ, ◌<◌, List, length, All, Contains, IfOk, OnOk};
ghost use Rattle.mls_automaton.specs.declared.automaton.Polarity.TheVariants.{Positive, Negative};
ghost use Rattle.mls_automaton.specs.declared.automaton.State.{State};
ghost use Rattle.mls_automaton.specs.Automata.{HasFlow, IsState, polarity_at, with_state};
ghost use Rattle.mls_automaton.specs.Heads.{combined};
ghost use Rattle.mls_automaton.specs.Models.{IsClosed};
ghost use Rattle.mls_solver.specs.declared.goal.Goal.{Goal};
ghost use Rattle.mls_solver.specs.Relations.{IsGoal};
ghost use Rattle.mls_solver.specs.Rooms.{Holds, HoldsStates};
ghost use Rattle.mls_solver.specs.Solutions.{HasInstancesUnder, IsSaturated};
ghost use Rattle.mls_solver.specs.Solved.{IsSolved, ReachesBy};
ghost use Rattle.mls_solver.specs.steps.Numbers.{ByOne, Inserts};
ghost use Rattle.mls_solver.specs.steps.Solving.{AddsFlows, AreMembers, AreSolvedTo, IsSolvedFlow, IsSolvedState};
ghost use Rattle.mls_solver.specs.steps.Solving.{IsTarget};

use crate::cells::Cells;
use crate::goal::is_state;
use crate::room::Room;
use mls_automaton::automaton::{Automaton, Polarity};
use mls_automaton::combine::combined_head;
use mls_automaton::state_set::StateId;
use mls_base::memory::Memory;
use std::alloc::Global;

/// The solved automaton of the relation that a room holds: the same states, with edges past related pairs and combined
/// heads. After `saturate` answered Ok on this automaton, its instances are exactly the instances under the goals.
///
/// A state costs its head, the pairs of the states at its edges, the size of the heads that are combined, times the
/// binary digits of their number, and the edges of the states whose heads go into its own, times those of their number.
///
/// # Errors
///
/// `Memory` where memory is wanting, and where there are more than 4294967296 states.
pub fn materialise(alloc: Global, room: &Room, a: &Automaton) -> Result<Automaton, Memory>
    requires closed { IsClosed a.now }
    requires states { HoldsStates a.now room.now }
    ensures solved { IfOk result (IsSolved a.now (Holds room.now)) }
    ensures closed { IfOk result IsClosed }
    ensures instances { IfOk result (λ solved. (goals : List Goal) → IsSaturated a.now goals room.now
        → HasInstancesUnder a.now (IsGoal goals) solved) }
{
    let mut marks = Cells::new(alloc, a.len())?;
    let mut solved = solved_states(&mut marks, alloc, room, a)?;
    add_flows(&mut solved, &mut marks, alloc, room, a)?;
    Ok(solved)
}

// The solved automaton without its edges.
fn solved_states(
    marks: &mut Cells,
    alloc: Global,
    room: &Room,
    a: &Automaton,
) -> Result<Automaton, Memory>
    requires closed { IsClosed a.now }
    requires states { HoldsStates a.now room.now }
    requires limit { marks.old.limit ≡ length a.now.states }
    ensures states { IfOk result (AreSolvedTo a.now (Holds room.now) (length a.now.states)) }
    ensures limit { marks.new.limit ≡ marks.old.limit }
{
    let mut solved = Automaton::new(alloc);
    for s in 0..a.len() {
        add_state(&mut solved, marks, alloc, room, a, StateId(s))?;
    }
    Ok(solved)
}

// Appends a state of the solved automaton.
fn add_state(
    solved: &mut Automaton,
    marks: &mut Cells,
    alloc: Global,
    room: &Room,
    a: &Automaton,
    s: StateId,
) -> Result<(), Memory>
    requires closed { IsClosed a.now }
    requires states { HoldsStates a.now room.now }
    requires in_range { s.0 < length a.now.states }
    requires limit { marks.old.limit ≡ length a.now.states }
    ensures limit { marks.new.limit ≡ marks.old.limit }
    ensures state { OnOk result ((state : State) × (solved.new ≡ with_state solved.old state)
        × IsSolvedState a.now (Holds room.now) s.0 state) }
{
    let polarity = a.polarity(s);
    let members = members(marks, alloc, room, a, s)?;
    let head = combined_head(alloc, a, polarity, members.as_slice())?;
    solved.state(polarity, head)?;
    Ok(())
}

// The states whose old heads go into the new head of a state.
fn members(
    marks: &mut Cells,
    alloc: Global,
    room: &Room,
    a: &Automaton,
    s: StateId,
) -> Result<Vec<usize>, Memory>
    requires closed { IsClosed a.now }
    requires states { HoldsStates a.now room.now }
    requires in_range { s.0 < length a.now.states }
    requires limit { marks.old.limit ≡ length a.now.states }
    ensures members { IfOk result (λ members. AreMembers a.now (Holds room.now) s.0 members.items) }
    ensures in_range { IfOk result (λ members. All (λ j. j < length a.now.states) members.items) }
    ensures limit { marks.new.limit ≡ marks.old.limit }
{
    marks.clear();
    marks.insert(s.0);
    mark_reaching(marks, room, a, s);
    let members = marked(alloc, marks)?;
    Ok(members)
}

// Marks the states whose old heads go into the new head of a state by an edge and a related pair.
fn mark_reaching(marks: &mut Cells, room: &Room, a: &Automaton, s: StateId)
    requires closed { IsClosed a.now }
    requires states { HoldsStates a.now room.now }
    requires in_range { s.0 < length a.now.states }
    requires limit { marks.old.limit ≡ length a.now.states }
    ensures { Inserts marks.old marks.new (ReachesBy a.now (Holds room.now) (polarity_at a.now s.0) s.0) }
{
    match a.polarity(s) {
        Polarity::Positive => mark_above_all(marks, room, a.partners(s).as_slice()),
        Polarity::Negative => mark_below_all(marks, room, a.partners(s).as_slice()),
    }
}

// Marks the states that are related to one of the negative ones.
fn mark_above_all(marks: &mut Cells, room: &Room, negatives: &[usize])
    requires { (p n : ℕ) → Holds room.now p n → p < marks.old.limit }
    ensures { Inserts marks.old marks.new (ByOne negatives.now (λ n p. Holds room.now p n)) }
{
    for n in negatives {
        room.mark_above(marks, StateId(*n));
    }
}

// Marks the states to which one of the positive ones is related.
fn mark_below_all(marks: &mut Cells, room: &Room, positives: &[usize])
    requires { (p n : ℕ) → Holds room.now p n → n < marks.old.limit }
    ensures { Inserts marks.old marks.new (ByOne positives.now (λ p n. Holds room.now p n)) }
{
    for p in positives {
        room.mark_below(marks, StateId(*p));
    }
}

// The marked numbers, in the order in which they came.
fn marked(alloc: Global, marks: &Cells) -> Result<Vec<usize>, Memory>
    ensures { IfOk result (λ numbers. numbers.items ≡ marks.now.members) }
{
    let mut numbers = Vec::new(alloc);
    for i in 0..marks.len() {
        numbers.push(marks.get(i))?;
    }
    Ok(numbers)
}

// Adds the edges of the solved automaton.
fn add_flows(
    solved: &mut Automaton,
    marks: &mut Cells,
    alloc: Global,
    room: &Room,
    a: &Automaton,
) -> Result<(), Memory>
    requires closed { IsClosed a.now }
    requires states { HoldsStates a.now room.now }
    requires old { AreSolvedTo a.now (Holds room.now) (length a.now.states) solved.old }
    requires limit { marks.old.limit ≡ length a.now.states }
    ensures { OnOk result (AddsFlows solved.old solved.new (IsSolvedFlow a.now (Holds room.now))) }
{
    for n in 0..a.len() {
        if is_state(a, StateId(n), Polarity::Negative) {
            add_flows_from(solved, marks, alloc, room, a, StateId(n))?;
        }
    }
    Ok(())
}

// Adds the edges from one state.
fn add_flows_from(
    solved: &mut Automaton,
    marks: &mut Cells,
    alloc: Global,
    room: &Room,
    a: &Automaton,
    n: StateId,
) -> Result<(), Memory>
    requires closed { IsClosed a.now }
    requires states { HoldsStates a.now room.now }
    requires negative { IsState a.now Negative n.0 }
    requires old { (p : _) (s : ℕ) → IsState a.now p s → IsState solved.old p s }
    requires size { length solved.old.states ≡ length a.now.states }
    requires limit { marks.old.limit ≡ length a.now.states }
    ensures flows { OnOk result (AddsFlows solved.old solved.new
        (λ m q. (m ≡ n.0) × IsSolvedFlow a.now (Holds room.now) n.0 q)) }
    ensures limit { marks.new.limit ≡ marks.old.limit }
{
    if a.partners(n).is_empty() {
        return Ok(());
    }
    let members = members(marks, alloc, room, a, n)?;
    marks.clear();
    mark_targets(marks, a, members.as_slice());
    let mut targets = marked(alloc, marks)?;
    targets.sort_unstable();
    add_flows_to(solved, n, targets.as_slice())
}

// Marks the states to which one of these negative states has an edge.
fn mark_targets(marks: &mut Cells, a: &Automaton, members: &[usize])
    requires closed { IsClosed a.now }
    requires limit { marks.old.limit ≡ length a.now.states }
    requires negative { All (IsState a.now Negative) members.now }
    ensures { Inserts marks.old marks.new (IsTarget a.now members.now) }
{
    for m in members {
        mark_partners(marks, a, StateId(*m));
    }
}

// Marks the states to which a negative state has an edge.
fn mark_partners(marks: &mut Cells, a: &Automaton, n: StateId)
    requires closed { IsClosed a.now }
    requires limit { marks.old.limit ≡ length a.now.states }
    requires negative { IsState a.now Negative n.0 }
    ensures { Inserts marks.old marks.new (HasFlow a.now n.0) }
{
    mark_all(marks, a.partners(n).as_slice());
}

// Marks these numbers.
fn mark_all(marks: &mut Cells, numbers: &[usize])
    requires { All (λ x. x < marks.old.limit) numbers.now }
    ensures { Inserts marks.old marks.new (Contains numbers.now) }
{
    for x in numbers {
        marks.insert(*x);
    }
}

// Adds an edge to each of these states.
pub(crate) fn add_flows_to(
    solved: &mut Automaton,
    n: StateId,
    targets: &[usize],
) -> Result<(), Memory>
    requires negative { IsState solved.old Negative n.0 }
    requires positive { All (IsState solved.old Positive) targets.now }
    ensures { OnOk result (AddsFlows solved.old solved.new (λ m q. (m ≡ n.0) × Contains targets.now q)) }
{
    for q in targets {
        solved.add_flow(n, StateId(*q))?;
    }
    Ok(())
}
