//! Of the states of a copy in a table just those stay that are reached.
ghost use Rattle.std.specs.Prelude.{◌≡◌, ◌<◌, length, IfOk};
ghost use Rattle.mls_automaton.specs.Models.{IsClosed};
ghost use Rattle.mls_biunify.specs.Live.{numbers_in};

use mls_automaton::automaton::{Automaton, Polarity};
use mls_automaton::sample::automaton_of;
use mls_automaton::state_set::{StateId, StateSet};
use mls_base::memory::Memory;
use mls_biunify::live::Live;
use std::alloc::Global;
use std::process::Abort;
use std::test::Fail;

// The automaton of a text, which is one.
fn sample(rt: &impl Abort, alloc: Global, text: &str) -> Result<Automaton, Memory>
    ensures { IfOk result IsClosed }
{
    match automaton_of(alloc, text)? {
        Some(a) => Ok(a),
        None => panic!(rt; "no automaton: {text}"),
    }
}

// The states of these numbers.
fn states_of(alloc: Global, numbers: &StateSet) -> Result<Vec<StateId>, Memory>
    ensures { IfOk result (λ states. numbers_in states.items ≡ numbers.now) }
{
    let mut states = Vec::new(alloc);
    for s in numbers.as_slice() {
        states.push(StateId(*s))?;
    }
    Ok(states)
}

// Adds a copy of an automaton, of which only those states stay that heads reach from the first one. Answers the numbers
// of the copy, and the states that stay.
fn keep_first(
    alloc: Global,
    live: &mut Live,
    a: &Automaton,
) -> Result<(StateSet, Vec<StateId>), Memory>
    requires closed { IsClosed a.now }
    requires some { 0 < length a.now.states }
{
    let _before = live.ready();
    let numbers = live.absorb(a)?;
    let _after = live.ready();
    let states = states_of(alloc, &numbers)?;
    let root = numbers.get(0);
    let kept = live.keep_among(states, &[root])?;
    Ok((numbers, kept))
}

#[test]
fn reached_states_stay(rt: HostRuntime) -> Result<(), Fail> {
    let alloc = rt.alloc();
    // The first state names the second and the third one.
    let a = sample(&rt, alloc, "+f2>1 + - - 2~1")?;
    assert!(rt; a.len() > 0);
    let mut live = Live::new(alloc);
    let (others, _) = keep_first(alloc, &mut live, &a)?;
    let (numbers, kept) = keep_first(alloc, &mut live, &a)?;
    assert_eq!(rt; kept.len(), 3);
    assert!(rt; others.len() == 4 && numbers.len() == 4);
    assert!(rt; live.is_state(others.get(0), Polarity::Positive));
    assert!(rt; live.is_state(numbers.get(0), Polarity::Positive));
    assert!(rt; live.is_state(numbers.get(2), Polarity::Negative));
    assert!(rt; !live.is_state(numbers.get(3), Polarity::Negative));
    Ok(())
}
