ghost use Rattle.std.specs.Prelude.{IsSome};

use crate::samples::{goals_of, sample as automaton};
use crate::tests_of_live::{insert, sample, settle};
use mls_automaton::automaton::Polarity;
use mls_automaton::state_set::{StateId, StateSet};
use mls_base::memory::Memory;
use mls_biunify::goal::{Clash, Goal, Refusal};
use mls_biunify::live::Live;
use std::alloc::Global;
use std::process::Abort;
use std::test::Fail;

// The goals under the numbers of a copy.
fn copied_goals(
    rt: &impl Abort,
    alloc: Global,
    goals: &[Goal],
    numbers: &StateSet,
) -> Result<Vec<Goal>, Memory> {
    let mut copied = Vec::new(alloc);
    for goal in goals {
        let (p, n) = (goal.positive.0, goal.negative.0);
        assert!(rt; p < numbers.len() && n < numbers.len());
        copied.push(Goal {
            positive: numbers.get(p),
            negative: numbers.get(n),
        })?;
    }
    Ok(copied)
}

fn are_related(live: &Live, p: StateId, n: StateId) -> bool
    requires { IsSome live.now.related }
{
    live.is_state(p, Polarity::Positive) && live.is_state(n, Polarity::Negative) && live.holds(p, n)
}

// The related pairs of a copy, under the numbers of the automaton.
fn shown_pairs(alloc: Global, live: &Live, numbers: &StateSet) -> Result<String, Memory>
    requires { IsSome live.now.related }
{
    let mut line = String::new(alloc);
    for p in 0..numbers.len() {
        for n in 0..numbers.len() {
            if are_related(live, numbers.get(p), numbers.get(n)) {
                write!(line, " {p}<{n}")?;
            }
        }
    }
    Ok(line)
}

// Adds a copy of an automaton to a table, and answers its numbers there and the goals under these.
fn absorbed(
    rt: &impl Abort,
    alloc: Global,
    live: &mut Live,
    text: &str,
    goals: &str,
) -> Result<(StateSet, Vec<Goal>), Memory> {
    let a = automaton(rt, alloc, text)?;
    let numbers = live.absorb(&a)?;
    let goals = goals_of(alloc, goals)?;
    let copied = copied_goals(rt, alloc, goals.as_slice(), &numbers)?;
    Ok((numbers, copied))
}

fn shown_clash(alloc: Global, clash: &Clash) -> Result<String, Memory> {
    Ok(format!(in alloc; "{} {:?}", clash.positive.0, clash.kind)?)
}

// The related pairs of a copy where these goals are solved, or the first clash.
fn related(
    rt: &impl Abort,
    alloc: Global,
    live: &mut Live,
    numbers: &StateSet,
    goals: &[Goal],
) -> Result<String, Memory> {
    live.reserve()?;
    assert!(rt; live.are_goals(goals));
    match live.solve(goals) {
        Ok(()) => shown_pairs(alloc, live, numbers),
        Err(Refusal::Clashing(clash)) => shown_clash(alloc, &clash),
        Err(Refusal::NoMemory) => Err(Memory),
    }
}

// Adds a copy of an automaton to a table with other states, and relates its goals.
fn copied(rt: &impl Abort, alloc: Global, text: &str, goals: &str) -> Result<String, Memory> {
    let mut live = sample(rt, alloc)?;
    let (numbers, goals) = absorbed(rt, alloc, &mut live, text, goals)?;
    related(rt, alloc, &mut live, &numbers, goals.as_slice())
}

#[test]
fn relates_a_copy(rt: HostRuntime) -> Result<(), Fail> {
    for (text, goals, found) in [
        ("+ + - - 2~1", "0<2 1<3", " 0<2 0<3 1<3"),
        (
            "+f>1 +f>0 -f>3 -f>4 -f>2",
            "0<2",
            " 0<2 0<3 0<4 1<2 1<3 1<4",
        ),
        // The numbers 0 to 3 are those of other states.
        ("+ +i -f>", "1<2", "5 Unlike(Int, Function)"),
    ] {
        let line = copied(&rt, rt.alloc(), text, goals)?;
        assert_eq!(rt; line.as_str(), found, "{text}");
    }
    Ok(())
}

// Adds a copy, relates its goals, and solves it.
fn settled(rt: &impl Abort, live: &mut Live, alloc: Global) -> Result<StateSet, Memory> {
    let (numbers, goals) = absorbed(rt, alloc, live, "+f2>1 + - - 2~1", "1<3")?;
    settle(rt, live, goals.as_slice())?;
    Ok(numbers)
}

// Keeps what heads reach from two states.
fn keep_two(rt: &impl Abort, live: &mut Live, p: StateId, n: StateId) -> Result<(), Memory> {
    assert!(rt; live.is_state(p, Polarity::Positive) && live.is_state(n, Polarity::Negative));
    live.keep(&[p, n])
}

fn has_states(rt: &impl Abort, live: &Live, numbers: &[usize]) -> Result<(), Memory> {
    let states = live.states()?;
    assert_eq!(rt; states.as_slice(), numbers);
    Ok(())
}

// A new state has the first number that is free, and where there is no goal it is not related.
fn relates_nothing(rt: &impl Abort, live: &mut Live, n: StateId) -> Result<(), Memory> {
    let id = insert(live, Polarity::Positive, false, true)?;
    assert_eq!(rt; id.0, 0);
    live.reserve()?;
    assert!(rt; live.ready());
    assert!(rt; live.are_goals(&[]));
    assert!(rt; live.solve(&[]).is_ok());
    assert!(rt; !are_related(live, id, n));
    Ok(())
}

#[test]
fn keeps_what_is_reached(rt: HostRuntime) -> Result<(), Fail> {
    let mut live = sample(&rt, rt.alloc())?;
    let numbers = settled(&rt, &mut live, rt.alloc())?;
    assert!(rt; numbers.len() == 4);
    // The first state names the second and the third one.
    keep_two(&rt, &mut live, numbers.get(0), numbers.get(2))?;
    has_states(&rt, &live, &[4, 5, 6])?;
    relates_nothing(&rt, &mut live, numbers.get(2))?;
    Ok(())
}
