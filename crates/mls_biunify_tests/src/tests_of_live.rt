ghost use Rattle.std.specs.Prelude.{IsSome};

use mls_automaton::automaton::{Head, Polarity};
use mls_automaton::sample::show_scheme;
use mls_automaton::state_set::StateId;
use mls_base::memory::Memory;
use mls_biunify::goal::{ClashKind, Goal, HeadKind, Refusal};
use mls_biunify::live::Live;
use std::alloc::Global;
use std::process::Abort;
use std::test::Fail;

// Adds a state whose head has these two parts.
pub(crate) fn insert(
    live: &mut Live,
    polarity: Polarity,
    boolean: bool,
    integer: bool,
) -> Result<StateId, Memory> {
    let mut head = Head::empty();
    head.boolean = boolean;
    head.integer = integer;
    live.insert(polarity, head)
}

// Adds an edge between states that are there.
fn link(rt: &impl Abort, live: &mut Live, n: usize, p: usize) -> Result<(), Memory> {
    let (n, p) = (StateId(n), StateId(p));
    assert!(rt; live.is_state(n, Polarity::Negative) && live.is_state(p, Polarity::Positive));
    live.edge(n, p)
}

// The states `+i - + -` and an edge from the second to the third.
pub(crate) fn sample(rt: &impl Abort, alloc: Global) -> Result<Live, Memory> {
    let mut live = Live::new(alloc);
    insert(&mut live, Polarity::Positive, false, true)?;
    insert(&mut live, Polarity::Negative, false, false)?;
    insert(&mut live, Polarity::Positive, false, false)?;
    insert(&mut live, Polarity::Negative, false, false)?;
    link(rt, &mut live, 1, 2)?;
    link(rt, &mut live, 1, 2)?;
    Ok(live)
}

// The goals that the first state is below the second one, and the third below the last one.
fn goals() -> [Goal; 2] {
    [goal(0, 1), goal(2, 3)]
}

fn goal(positive: usize, negative: usize) -> Goal {
    Goal {
        positive: StateId(positive),
        negative: StateId(negative),
    }
}

// Solves the table.
fn solve(rt: &impl Abort, live: &mut Live, goals: &[Goal]) -> Result<Result<(), Refusal>, Memory> {
    live.reserve()?;
    assert!(rt; live.ready());
    assert!(rt; live.are_goals(goals));
    Ok(live.solve(goals))
}

// Whether two states that are there are related.
fn related(rt: &impl Abort, live: &Live, p: usize, n: usize) -> bool
    requires { IsSome live.now.related }
{
    let (p, n) = (StateId(p), StateId(n));
    assert!(rt; live.is_state(p, Polarity::Positive) && live.is_state(n, Polarity::Negative));
    live.holds(p, n)
}

// Solves the table of the sample, and looks at the relation.
fn relate(rt: &impl Abort, live: &mut Live, goals: &[Goal]) -> Result<(), Memory> {
    live.reserve()?;
    assert!(rt; live.are_goals(goals));
    assert!(rt; live.solve(goals).is_ok());
    assert!(rt; related(rt, live, 0, 1) && related(rt, live, 2, 3));
    assert!(rt; related(rt, live, 0, 3) && !related(rt, live, 2, 1));
    Ok(())
}

#[test]
fn relates_along_an_edge(rt: HostRuntime) -> Result<(), Fail> {
    let mut live = sample(&rt, rt.alloc())?;
    relate(&rt, &mut live, &goals())?;
    Ok(())
}

// Solves and settles the table.
pub(crate) fn settle(rt: &impl Abort, live: &mut Live, goals: &[Goal]) -> Result<(), Memory> {
    live.reserve()?;
    assert!(rt; live.are_goals(goals));
    assert!(rt; live.solve(goals).is_ok());
    live.settle()
}

// Whether the scheme of a state that is there is this one.
fn shows(rt: &impl Abort, alloc: Global, live: &Live, s: usize, row: &str) -> Result<(), Memory> {
    assert!(rt; live.is_state(StateId(s), Polarity::Positive));
    let kept = live.freeze(StateId(s), &[])?;
    let line = show_scheme(alloc, &kept)?;
    assert_eq!(rt; line.as_str(), row);
    Ok(())
}

#[test]
fn settles(rt: HostRuntime) -> Result<(), Fail> {
    let mut live = sample(&rt, rt.alloc())?;
    settle(&rt, &mut live, &goals())?;
    assert!(rt; live.states()?.len() == 4);
    shows(&rt, rt.alloc(), &live, 2, "+i *0")?;
    Ok(())
}

#[test]
fn tells_the_first_clash(rt: HostRuntime) -> Result<(), Fail> {
    let mut live = sample(&rt, rt.alloc())?;
    let n = insert(&mut live, Polarity::Negative, true, false)?;
    match solve(&rt, &mut live, &[goal(0, 1), goal(2, n.0)])? {
        Err(Refusal::Clashing(clash)) => {
            let kind = ClashKind::Unlike(HeadKind::Int, HeadKind::Bool);
            assert_eq!(rt; clash.kind, kind);
        }
        _ => panic!(rt; "no clash"),
    }
    Ok(())
}

#[test]
fn lists_the_ends_of_edges(rt: HostRuntime) -> Result<(), Fail> {
    let mut live = sample(&rt, rt.alloc())?;
    link(&rt, &mut live, 3, 0)?;
    link(&rt, &mut live, 1, 0)?;
    assert!(rt; live.is_state(StateId(1), Polarity::Negative));
    assert_eq!(rt; live.after(StateId(1)).as_slice(), [0, 2].as_slice());
    Ok(())
}

#[test]
fn copies_the_table(rt: HostRuntime) -> Result<(), Fail> {
    let mut live = sample(&rt, rt.alloc())?;
    let copy = live.copied()?;
    insert(&mut live, Polarity::Positive, false, false)?;
    assert!(rt; copy.len() == 4);
    assert!(rt; copy.head(StateId(0)).integer && !copy.head(StateId(2)).integer);
    assert_eq!(rt; copy.polarity(StateId(3)), Polarity::Negative);
    assert_eq!(rt; copy.flows().len(), 1);
    Ok(())
}
