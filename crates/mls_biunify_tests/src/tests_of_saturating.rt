use crate::samples::{goals_of, sample};
use mls_automaton::state_set::StateId;
use mls_base::memory::Memory;
use mls_biunify::goal::{Clash, are_goals};
use mls_biunify::room::Room;
use mls_biunify::saturate::saturate;
use std::alloc::Global;
use std::process::Abort;
use std::test::Fail;

// Writes the pairs of states below this number that the room holds.
fn show_pairs(line: &mut String, room: &Room, states: usize) -> Result<(), Memory> {
    for p in 0..states {
        for n in 0..states {
            if room.holds(StateId(p), StateId(n)) {
                write!(line, " {p}<{n}")?;
            }
        }
    }
    Ok(())
}

fn show_clash(line: &mut String, clash: &Clash) -> Result<(), Memory> {
    let (p, n) = (clash.positive.0, clash.negative.0);
    write!(line, " | {p}<{n} {:?}", clash.kind)?;
    Ok(())
}

// The pairs that the room holds, and behind them the first clash, if there is one.
fn saturated(rt: &impl Abort, alloc: Global, text: &str, goals: &str) -> Result<String, Memory> {
    let a = sample(rt, alloc, text)?;
    let goals = goals_of(alloc, goals)?;
    let mut room = Room::new(alloc, a.len(), a.len())?;
    assert!(rt; room.fits(&a) && are_goals(&a, goals.as_slice()));
    let answer = saturate(&mut room, &a, goals.as_slice());
    let mut line = String::new(alloc);
    show_pairs(&mut line, &room, a.len())?;
    if let Err(clash) = answer {
        show_clash(&mut line, &clash)?;
    }
    Ok(line)
}

#[test]
fn relates_by_heads_and_edges(rt: HostRuntime) -> Result<(), Fail> {
    for (text, goals, found) in [
        // No goal; a goal between states without heads; the same goal twice.
        ("+ -", "", ""),
        ("+ -", "0<1", " 0<1"),
        ("+ -", "0<1 0<1", " 0<1"),
        // Domains are related the other way round.
        ("+f3> + -f1> -", "0<2", " 0<2 1<3"),
        // Codomains are related as the functions are, and empty sets give nothing.
        ("+f>1 + -f1>3 -", "0<2", " 0<2 1<3"),
        // Fields of a label that both have; the positive record may have more.
        ("+{a:1;b:1} + -{b:3} -", "0<2", " 0<2 1<3"),
        // A record without fields.
        ("+{a:1} + -{} -", "0<2", " 0<2"),
        // An edge; the pair of 0 and 3 by an edge and by a goal.
        ("+ + - - 2~1", "0<2", " 0<2"),
        ("+ + - - 2~1", "0<2 1<3", " 0<2 0<3 1<3"),
        ("+ + - - 2~1", "1<3 0<2", " 0<2 0<3 1<3"),
        ("+ + - - 2~1", "0<2 0<3 1<3", " 0<2 0<3 1<3"),
        // Two edges in a row.
        (
            "+ + + - - - 3~1 4~2",
            "2<5 0<3 1<4",
            " 0<3 0<4 0<5 1<4 1<5 2<5",
        ),
        // An edge from the negative state of a pair to its positive one.
        ("+ - 1~0", "0<1", " 0<1"),
        // Rows of two and of three states meet in all pairs.
        (
            "+f>1 +f>0 -f>3 -f>4 -f>2",
            "0<2",
            " 0<2 0<3 0<4 1<2 1<3 1<4",
        ),
        // The states 4 and 5 have an edge: what the head of state 0 names comes back to state 1.
        ("+f3>0 +i + - -f1>5 - 5~2", "0<4", " 0<4 0<5 1<3"),
    ] {
        let line = saturated(&rt, rt.alloc(), text, goals)?;
        assert_eq!(rt; line.as_str(), found, "{text}");
    }
    Ok(())
}

#[test]
fn tells_the_first_clash(rt: HostRuntime) -> Result<(), Fail> {
    for (text, goals, found) in [
        ("+i -f>", "0<1", " 0<1 | 0<1 Unlike(Int, Function)"),
        ("+i -f>", "", ""),
        // Like heads do not clash, nor does a head with none.
        ("+i +b -i -", "0<2 1<3", " 0<2 1<3"),
        ("+b -{}", "0<1", " 0<1 | 0<1 Unlike(Bool, Rcd)"),
        // Of several parts the first of the positive state, and then the first of the negative one.
        ("+bi -bf>", "0<1", " 0<1 | 0<1 Unlike(Bool, Function)"),
        // A label that is lacking: the first in byte order, whose number is told.
        ("+{b:} -{b:;c:;d:}", "0<1", " 0<1 | 0<1 Lacks(1)"),
        // Unlike parts come before labels, at whatever states.
        (
            "+{} +{} -{a:} -i",
            "0<2 1<3",
            " 0<2 1<3 | 1<3 Unlike(Rcd, Int)",
        ),
        // Of clashes of one kind the one with the least states.
        ("+i +i -b -b", "1<2 0<3", " 0<3 1<2 | 0<3 Unlike(Int, Bool)"),
        ("+i +i -b -b", "1<3 1<2", " 1<2 1<3 | 1<2 Unlike(Int, Bool)"),
        // Of labels the first in byte order, not the one with the least number.
        ("+{a:} -{c:} -{a:;b:}", "0<1 0<2", " 0<1 0<2 | 0<2 Lacks(1)"),
        // A clash that an edge brings.
        (
            "+i + - -b 2~1",
            "0<2 1<3",
            " 0<2 0<3 1<3 | 0<3 Unlike(Int, Bool)",
        ),
    ] {
        let line = saturated(&rt, rt.alloc(), text, goals)?;
        assert_eq!(rt; line.as_str(), found, "{text}");
    }
    Ok(())
}

// A room is used again: what it held before is gone.
#[test]
fn again(rt: HostRuntime) -> Result<(), Fail> {
    let alloc = rt.alloc();
    let a = sample(&rt, alloc, "+ -")?;
    let goals = goals_of(alloc, "0<1")?;
    let mut room = Room::new(alloc, 1, 1)?;
    assert!(rt; room.fits(&a) && are_goals(&a, goals.as_slice()));
    assert!(rt; saturate(&mut room, &a, goals.as_slice()).is_ok());
    assert!(rt; room.holds(StateId(0), StateId(1)));
    assert!(rt; !room.holds(StateId(1), StateId(0)));
    assert!(rt; !room.holds(StateId(0), StateId(7)));
    assert!(rt; saturate(&mut room, &a, &[]).is_ok());
    assert!(rt; !room.holds(StateId(0), StateId(1)));
    Ok(())
}

// Writes as many states from this number on, with a function to the next one, in a ring, or to the one before.
fn write_ring(
    text: &mut String,
    sign: char,
    first: usize,
    count: usize,
    step: usize,
) -> Result<(), Memory> {
    for i in 0..count {
        let next = first.saturating_add(i.saturating_add(step) % count);
        write!(text, " {sign}f>{next}")?;
    }
    Ok(())
}

// Two pairs of rings, of 500 and of 501 states, meet in all pairs: one pair in the order of the numbers, the other
// against it.
#[test]
fn rings(rt: HostRuntime) -> Result<(), Fail> {
    let alloc = rt.alloc();
    let mut text = String::new(alloc);
    write_ring(&mut text, '+', 0, 500, 1)?;
    write_ring(&mut text, '+', 500, 500, 499)?;
    write_ring(&mut text, '-', 1000, 501, 1)?;
    write_ring(&mut text, '-', 1501, 501, 500)?;
    let a = sample(&rt, alloc, text.as_str().trim_start())?;
    let goals = goals_of(alloc, "0<1000 500<1501")?;
    let mut room = Room::new(alloc, 1000, 1002)?;
    assert!(rt; room.fits(&a) && are_goals(&a, goals.as_slice()));
    assert!(rt; saturate(&mut room, &a, goals.as_slice()).is_ok());
    assert!(rt; room.len() == 501000);
    assert!(rt; is_full(&room, (0, 500), (1000, 1501)));
    assert!(rt; is_full(&room, (500, 1000), (1501, 2002)));
    Ok(())
}

// Whether each of the positive states is related to each of the negative ones.
fn is_full(room: &Room, positives: (usize, usize), negatives: (usize, usize)) -> bool {
    for p in positives.0..positives.1 {
        for n in negatives.0..negatives.1 {
            if !room.holds(StateId(p), StateId(n)) {
                return false;
            }
        }
    }
    true
}
