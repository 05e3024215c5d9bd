use crate::samples::{goals_of, sample};
use mls_automaton::sample::show_automaton;
use mls_base::memory::Memory;
use mls_biunify::goal::are_goals;
use mls_biunify::materialise::materialise;
use mls_biunify::room::Room;
use mls_biunify::saturate::saturate;
use std::alloc::Global;
use std::process::Abort;
use std::test::Fail;

// The automaton that is solved.
fn solved(rt: &impl Abort, alloc: Global, text: &str, goals: &str) -> Result<String, Memory> {
    let a = sample(rt, alloc, text)?;
    let goals = goals_of(alloc, goals)?;
    let mut room = Room::new(alloc, a.len(), a.len())?;
    assert!(rt; room.fits(&a) && are_goals(&a, goals.as_slice()));
    assert!(rt; saturate(&mut room, &a, goals.as_slice()).is_ok());
    let found = materialise(alloc, &room, &a)?;
    show_automaton(alloc, &found)
}

#[test]
fn solves_automata(rt: HostRuntime) -> Result<(), Fail> {
    for (text, goals, found) in [
        // A function whose argument comes back along an edge.
        (
            "+f1>0 - -f3>4 +i - + 4~5",
            "0<2",
            "+f1>0 - -f3>4 +i - +f1>0 4~5",
        ),
        ("+f1>0 - -f3>4 +i - + 4~5", "", "+f1>0 - -f3>4 +i - + 4~5"),
        // Two edges in a row give a third one, and heads go along them.
        (
            "+i + + - - -i 3~1 4~2",
            "0<3 1<4 2<5",
            "+i +i +i -i -i -i 3~1 3~2 4~2",
        ),
        // Two edges that meet in both orders; an edge that meets itself; functions with empty sets.
        (
            "+f>1 +f>0 -f>3 - 2~1 3~0",
            "0<2 1<3",
            "+f>0,1 +f>0,1 -f>3 -f>3 2~0 2~1 3~0 3~1",
        ),
        ("+f1>0 - 1~0", "0<1", "+f1>0 - 1~0"),
        ("+f> + - 2~1", "0<2", "+f> +f> - 2~1"),
        // A positive record has the labels that all have, a negative one those that one has.
        (
            "+{a:3;b:3} +{b:4;c:4} + + + - 5~2",
            "0<5 1<5",
            "+{a:3;b:3} +{b:4;c:4} +{b:3,4} + + - 5~2",
        ),
        (
            "+ - -{a:4} -{a:5;b:4} - - 1~0",
            "0<2 0<3",
            "+ -{a:4,5;b:4} -{a:4} -{a:5;b:4} - - 1~0",
        ),
    ] {
        let line = solved(&rt, rt.alloc(), text, goals)?;
        assert_eq!(rt; line.as_str(), found, "{text}");
    }
    Ok(())
}
