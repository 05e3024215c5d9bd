//! Calls of what allocates in automata, heads and schemes.
use crate::tests_of_schemes::sample;
use mls_automaton::automaton::{Automaton, Head, Polarity};
use mls_automaton::combine::{combine_heads, combined_head};
use mls_automaton::sample::show_automaton;
use mls_automaton::scheme::{Env, EnvEntry};
use mls_automaton::state_set::{StateId, StateSet};
use std::test::Fail;

#[test]
fn sets_have_the_states_that_were_added(rt: HostRuntime) -> Result<(), Fail> {
    let mut first = StateSet::one(rt.alloc(), StateId(2))?;
    first.push(StateId(7))?;
    let mut second = StateSet::new(rt.alloc());
    second.insert(StateId(5))?;
    second.insert(StateId(2))?;
    let both = first.union(&second)?;
    assert_eq!(rt; both.as_slice(), [2, 5, 7].as_slice());
    Ok(())
}

#[test]
fn states_and_edges_are_added(rt: HostRuntime) -> Result<(), Fail> {
    let mut automaton = Automaton::new(rt.alloc());
    let negative = automaton.state(Polarity::Negative, Head::empty())?;
    let positive = automaton.state(Polarity::Positive, Head::empty())?;
    assert_eq!(rt; (negative.0, positive.0), (0, 1));
    automaton.add_flow(negative, positive)?;
    automaton.add_flow(negative, positive)?;
    assert_eq!(rt; automaton.flows().len(), 1);
    assert!(rt; automaton.has_flow(negative, positive));
    Ok(())
}

#[test]
fn binders_are_found(rt: HostRuntime) -> Result<(), Fail> {
    let mut env = Env::new(rt.alloc());
    env.push(EnvEntry {
        binder: 4,
        state: StateId(9),
    })?;
    assert_eq!(rt; env.get(4), Some(StateId(9)));
    assert_eq!(rt; env.get(5), None);
    Ok(())
}

#[test]
fn combined_records_unite_their_sets(rt: HostRuntime) -> Result<(), Fail> {
    let mut automaton = sample(&rt, rt.alloc(), "+{l:4} +i{l:1} + + + *0")?.automaton;
    assert!(rt; automaton.len() == 5);
    let (first, second) = (automaton.head(StateId(0)), automaton.head(StateId(1)));
    let both = combine_heads(rt.alloc(), Polarity::Positive, first, second)?;
    automaton.state(Polarity::Positive, both)?;
    let line = show_automaton(rt.alloc(), &automaton)?;
    assert_eq!(rt; line.as_str(), "+{l:4} +i{l:1} + + + +i{l:1,4}");
    Ok(())
}

#[test]
fn a_half_with_nothing_adds_nothing(rt: HostRuntime) -> Result<(), Fail> {
    let mut automaton = sample(&rt, rt.alloc(), "+{l:4} +i{l:1} + + + *0")?.automaton;
    assert!(rt; automaton.len() == 5 && automaton.is_closed());
    let members = [2, 3, 0, 1, 4];
    let all = combined_head(
        rt.alloc(),
        &automaton,
        Polarity::Positive,
        members.as_slice(),
    )?;
    automaton.state(Polarity::Positive, all)?;
    let line = show_automaton(rt.alloc(), &automaton)?;
    assert_eq!(rt; line.as_str(), "+{l:4} +i{l:1} + + + +i{l:1,4}");
    Ok(())
}
