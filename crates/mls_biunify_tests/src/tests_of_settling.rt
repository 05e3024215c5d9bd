use crate::samples::{goals_of, sample};
use mls_automaton::sample::show_automaton;
use mls_base::memory::Memory;
use mls_biunify::goal::are_goals;
use mls_biunify::search::{first_clash_of, search};
use mls_biunify::settle::settle;
use std::alloc::Global;
use std::process::Abort;
use std::test::Fail;

// The automaton that is solved in place.
fn settled(rt: &impl Abort, alloc: Global, text: &str, goals: &str) -> Result<String, Memory> {
    let mut a = sample(rt, alloc, text)?;
    let goals = goals_of(alloc, goals)?;
    assert!(rt; are_goals(&a, goals.as_slice()));
    let found = search(alloc, &a, goals.as_slice())?;
    assert!(rt; first_clash_of(&found, &a).is_ok());
    settle(alloc, &found, &mut a)?;
    show_automaton(alloc, &a)
}

#[test]
fn solves_automata_in_place(rt: HostRuntime) -> Result<(), Fail> {
    for (text, goals, found) in [
        // A function whose argument comes back along an edge.
        (
            "+f1>0 - -f3>4 +i - + 4~5",
            "0<2",
            "+f1>0 - -f3>4 +i - +f1>0 4~5",
        ),
        ("+f1>0 - -f3>4 +i - + 4~5", "", "+f1>0 - -f3>4 +i - + 4~5"),
        // Two edges in a row give a third one, which comes last, and heads go along them.
        (
            "+i + + - - -i 3~1 4~2",
            "0<3 1<4 2<5",
            "+i +i +i -i -i -i 3~1 4~2 3~2",
        ),
        // Two edges that meet in both orders.
        (
            "+f>1 +f>0 -f>3 - 2~1 3~0",
            "0<2 1<3",
            "+f>0,1 +f>0,1 -f>3 -f>3 2~1 3~0 2~0 3~1",
        ),
        // A positive record has the labels that all have, a negative one those that one has.
        (
            "+{a:3;b:3} +{b:4;c:4} + + + - 5~2",
            "0<5 1<5",
            "+{a:3;b:3} +{b:4;c:4} +{b:3,4} + + - 5~2",
        ),
        (
            "+ - -{a:4} -{a:5;b:4} - - 1~0",
            "0<2 0<3",
            "+ -{a:4,5;b:4} -{a:4} -{a:5;b:4} - - 1~0",
        ),
    ] {
        let line = settled(&rt, rt.alloc(), text, goals)?;
        assert_eq!(rt; line.as_str(), found, "{text}");
    }
    Ok(())
}

// Whether the first clash is between these states.
fn clashes_at(
    rt: &impl Abort,
    alloc: Global,
    text: &str,
    goals: &str,
    positive: usize,
    negative: usize,
) -> Result<bool, Memory> {
    let a = sample(rt, alloc, text)?;
    let goals = goals_of(alloc, goals)?;
    assert!(rt; are_goals(&a, goals.as_slice()));
    let found = search(alloc, &a, goals.as_slice())?;
    match first_clash_of(&found, &a) {
        Ok(()) => Ok(false),
        Err(clash) => Ok(clash.positive.0 == positive && clash.negative.0 == negative),
    }
}

#[test]
fn finds_the_first_clash(rt: HostRuntime) -> Result<(), Fail> {
    let alloc = rt.alloc();
    assert!(rt; clashes_at(&rt, alloc, "+i -b", "0<1", 0, 1)?);
    assert!(rt; clashes_at(&rt, alloc, "+f1>2 - +i -f4>5 +b -b", "0<3", 2, 5)?);
    assert!(rt; !clashes_at(&rt, alloc, "+i -i", "0<1", 0, 1)?);
    Ok(())
}
