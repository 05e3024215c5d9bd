use crate::samples::{goals_of, sample};
use mls_base::memory::Memory;
use mls_biunify::goal::are_goals;
use mls_biunify::room::Room;
use mls_biunify::saturate::saturate;
use mls_biunify::search::{first_clash_of, search};
use mls_biunify::settle::settle;
use std::alloc::Global;
use std::process::Abort;
use std::test::Fail;

// Whether the search finds just the pairs that `saturate` finds, each once.
fn finds_the_same(rt: &impl Abort, alloc: Global, text: &str, goals: &str) -> Result<bool, Memory> {
    let a = sample(rt, alloc, text)?;
    let goals = goals_of(alloc, goals)?;
    let mut room = Room::new(alloc, a.len(), a.len())?;
    assert!(rt; room.fits(&a) && are_goals(&a, goals.as_slice()));
    let found = search(alloc, &a, goals.as_slice())?;
    let _ = saturate(&mut room, &a, goals.as_slice());
    for i in 0..found.len() {
        let (positive, negative) = found.pair(i);
        if !room.holds(positive, negative) {
            return Ok(false);
        }
    }
    Ok(found.len() == room.len())
}

#[test]
fn finds_what_saturate_finds(rt: HostRuntime) -> Result<(), Fail> {
    for (text, goals) in [
        ("+ -", ""),
        ("+ -", "0<1"),
        ("+ -", "0<1 0<1"),
        ("+f3> + -f1> -", "0<2"),
        ("+f>1 + -f1>3 -", "0<2"),
        ("+{a:1;b:1} + -{b:3} -", "0<2"),
        ("+{a:1} + -{} -", "0<2"),
        ("+ + - - 2~1", "0<2"),
        ("+ + - - 2~1", "0<2 1<3"),
        ("+ + - - 2~1", "1<3 0<2"),
        ("+ + - - 2~1", "0<2 0<3 1<3"),
        // Two edges in a row, with the goals in each order.
        ("+ + + - - - 3~1 4~2", "2<5 0<3 1<4"),
        ("+ + + - - - 3~1 4~2", "0<3 1<4 2<5"),
        ("+ + + - - - 3~1 4~2", "1<4 2<5 0<3"),
        ("+ + + - - - 3~1 4~2", "2<5 1<4 0<3"),
        // Edges in a ring, and an edge from the negative state of a pair to its positive one.
        ("+ + + - - - 3~1 4~2 5~0", "0<3 1<4 2<5"),
        ("+ - 1~0", "0<1"),
        // Heads that meet by way of edges.
        ("+f>1 +f>0 -f>3 -f>4 -f>2", "0<2"),
        ("+f3>0 +i + - -f1>5 - 5~2", "0<4"),
        ("+f1>0 - -f3>4 +i - + 4~5", "0<2"),
        ("+f>1 +f>0 -f>3 - 2~1 3~0", "0<2 1<3"),
        ("+{a:3;b:3} +{b:4;c:4} + + + - 5~2", "0<5 1<5"),
        ("+ - -{a:4} -{a:5;b:4} - - 1~0", "0<2 0<3"),
        // Pairs that clash are found all the same.
        ("+i -f>", "0<1"),
        ("+i + - -b 2~1", "0<2 1<3"),
    ] {
        assert!(rt;
            finds_the_same(&rt, rt.alloc(), text, goals)?,
            "{text}, {goals}"
        );
    }
    Ok(())
}

// The states of a chain: the positive state 2i and the negative state 2i + 1 with an edge to it, so many times, and a
// positive state at the end.
fn write_chain(text: &mut String, count: usize) -> Result<(), Memory> {
    for _ in 0..count {
        write!(text, "+ - ")?;
    }
    write!(text, "+i")?;
    for i in 0..count {
        let positive = i.saturating_mul(2);
        write!(text, " {}~{positive}", positive.saturating_add(1))?;
    }
    Ok(())
}

// The goals of a chain: each positive state but the first is below the negative one before it.
fn write_goals(text: &mut String, count: usize) -> Result<(), Memory> {
    for i in 0..count {
        let positive = i.saturating_mul(2);
        let (negative, next) = (positive.saturating_add(1), positive.saturating_add(2));
        write!(text, "{next}<{negative} ")?;
    }
    Ok(())
}

// Each positive state is related to all negative ones before it, and each of these pairs is come by in one way.
#[test]
fn a_long_chain(rt: HostRuntime) -> Result<(), Fail> {
    let alloc = rt.alloc();
    let mut text = String::new(alloc);
    write_chain(&mut text, 400)?;
    let mut goals = String::new(alloc);
    write_goals(&mut goals, 400)?;
    let mut a = sample(&rt, alloc, text.as_str())?;
    let goals = goals_of(alloc, goals.as_str())?;
    assert!(rt; are_goals(&a, goals.as_slice()));
    let found = search(alloc, &a, goals.as_slice())?;
    assert!(rt; found.len() == 80200);
    assert!(rt; first_clash_of(&found, &a).is_ok());
    settle(alloc, &found, &mut a)?;
    assert!(rt; a.flows().len() == 80200);
    Ok(())
}
