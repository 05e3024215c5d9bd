//! Small schemes, written as text, through each builder.
ghost use Rattle.std.specs.Prelude.{IfOk};
ghost use Rattle.mls_automaton.specs.Schemes.{IsScheme};

use mls_automaton::automaton::HeadKind;
use mls_automaton::sample::{scheme_of, show_automaton, show_scheme};
use mls_automaton::scheme::Scheme;
use mls_automaton::state_set::StateId;
use mls_base::memory::Memory;
use mls_scheme::absorb::absorb;
use mls_scheme::build::{constant, drop_binder, lambda_use};
use std::alloc::Global;
use std::process::Abort;
use std::test::Fail;

// Variables that are the types of these binders, and of the root.
const VARIABLE: &str = "- + 0~1 x3=0 *1";

const TWO_BINDERS: &str = "- + 0~1 x1=0 x2=0 *1";

const INTEGER: &str = "+i *0";

const IDENTITY: &str = "- + +f0>1 0~1 *2";

const INTO_ITSELF: &str = "+f>0 *0";
// Two functions from and to one another.
const CYCLE: &str = "-f1>0 +f0>1 x2=0 *1";

const NO_SETS: &str = "+f> *0";

const NO_FIELDS: &str = "+{} *0";

const TWO_FIELDS: &str = "+i + +{l:0;m:1} *2";
// No head and no binder names the first state, which has an edge.
const UNREACHED: &str = "- - + 0~2 1~2 x7=1 *2";
// What is asked of the binder is a record with a field.
const FIELD: &str = "-{l:1} - + 1~2 x5=0 *2";

const TWO_MEMBERS: &str = "- - + +f0,1>2 0~2 1~2 *3";

// The scheme of a text, which is one.
pub(crate) fn sample(rt: &impl Abort, alloc: Global, text: &str) -> Result<Scheme, Memory>
    ensures { IfOk result IsScheme }
{
    match scheme_of(alloc, text)? {
        Some(scheme) => Ok(scheme),
        None => panic!(rt; "no scheme: {text}"),
    }
}

#[test]
fn other_texts_are_no_schemes(rt: HostRuntime) -> Result<(), Fail> {
    for text in [
        "",
        "+",
        "+ * 0",
        "+ib *0",
        "- *0",
        "+ x0=0 *0",
        "- + x2=0 x1=0 *1",
        "+ + 0~1 *0",
        "+f>1 *0",
        "- +f>0 *1",
        "+f1,1> - *0",
        "- +{b:1;a:1} *1",
    ] {
        assert!(rt; scheme_of(rt.alloc(), text)?.is_none(), "{text}");
    }
    Ok(())
}

// A variable, and behind it a copy of the automaton of a text.
fn appended(rt: &impl Abort, alloc: Global, text: &str) -> Result<String, Memory> {
    let other = sample(rt, alloc, text)?.automaton.copy()?;
    let mut first = lambda_use(alloc, 3)?.automaton;
    assert_eq!(rt; first.append(&other)?, 2);
    show_automaton(alloc, &first)
}

#[test]
fn copies_stand_behind_a_variable(rt: HostRuntime) -> Result<(), Fail> {
    for (text, row) in [
        (VARIABLE, "- + - + 0~1 2~3"),
        (INTEGER, "- + +i 0~1"),
        (IDENTITY, "- + - + +f2>3 0~1 2~3"),
        (INTO_ITSELF, "- + +f>2 0~1"),
        (CYCLE, "- + -f3>2 +f2>3 0~1"),
        (NO_SETS, "- + +f> 0~1"),
        (NO_FIELDS, "- + +{} 0~1"),
        (TWO_FIELDS, "- + +i + +{l:2;m:3} 0~1"),
        (UNREACHED, "- + - - + 0~1 2~4 3~4"),
        (TWO_BINDERS, "- + - + 0~1 2~3"),
        (FIELD, "- + -{l:3} - + 0~1 3~4"),
        (TWO_MEMBERS, "- + - - + +f2,3>4 0~1 2~4 3~4"),
    ] {
        let line = appended(&rt, rt.alloc(), text)?;
        assert_eq!(rt; line.as_str(), row);
    }
    Ok(())
}

// What is reached of the scheme of a text.
fn reached(rt: &impl Abort, alloc: Global, text: &str) -> Result<String, Memory> {
    let kept = sample(rt, alloc, text)?.keep_reachable()?;
    show_scheme(alloc, &kept)
}

#[test]
fn reached_states_are_kept(rt: HostRuntime) -> Result<(), Fail> {
    for (text, row) in [
        (VARIABLE, VARIABLE),
        (INTEGER, INTEGER),
        (IDENTITY, IDENTITY),
        (INTO_ITSELF, INTO_ITSELF),
        (CYCLE, CYCLE),
        (NO_SETS, NO_SETS),
        (NO_FIELDS, NO_FIELDS),
        (TWO_FIELDS, TWO_FIELDS),
        (UNREACHED, "- + 0~1 x7=0 *1"),
        (TWO_BINDERS, TWO_BINDERS),
        (FIELD, FIELD),
        (TWO_MEMBERS, TWO_MEMBERS),
        // The use of a binder that was dropped.
        ("- + 0~1 *1", "+ *0"),
    ] {
        let line = reached(&rt, rt.alloc(), text)?;
        assert_eq!(rt; line.as_str(), row);
    }
    Ok(())
}

#[test]
fn schemes_take_others_into_them(rt: HostRuntime) -> Result<(), Fail> {
    for (into, from, place, row) in [
        (VARIABLE, VARIABLE, 3, "- + - + - 0~1 2~3 4~1 4~3 x3=4 *1"),
        (
            TWO_BINDERS,
            TWO_BINDERS,
            3,
            "- + - + - - 0~1 2~3 4~1 4~3 5~1 5~3 x1=4 x2=5 *1",
        ),
        (VARIABLE, INTEGER, 2, "- + +i 0~1 x3=0 *1"),
        (INTEGER, VARIABLE, 2, "+i - + 1~2 x3=1 *0"),
        (CYCLE, CYCLE, 3, "-f1>0 +f0>1 -f3>2 +f2>3 -f1,3>0,2 x2=4 *1"),
        (
            TWO_BINDERS,
            VARIABLE,
            3,
            "- + - + 0~1 2~3 x1=0 x2=0 x3=2 *1",
        ),
        (
            VARIABLE,
            TWO_BINDERS,
            3,
            "- + - + 0~1 2~3 x1=2 x2=2 x3=0 *1",
        ),
        (
            FIELD,
            FIELD,
            5,
            "-{l:1} - + -{l:4} - + -{l:1,4} 1~2 4~5 x5=6 *2",
        ),
        (NO_FIELDS, INTO_ITSELF, 1, "+{} +f>1 *0"),
        (
            UNREACHED,
            UNREACHED,
            5,
            "- - + - - + - 0~2 1~2 3~5 4~5 6~2 6~5 x7=6 *2",
        ),
        (IDENTITY, TWO_FIELDS, 5, "- + +f0>1 +i + +{l:3;m:4} 0~1 *2"),
        (TWO_MEMBERS, NO_SETS, 4, "- - + +f0,1>2 +f> 0~2 1~2 *3"),
    ] {
        let mut whole = sample(&rt, rt.alloc(), into)?;
        let other = sample(&rt, rt.alloc(), from)?;
        assert_eq!(rt; absorb(&mut whole, &other)?, StateId(place));
        let line = show_scheme(rt.alloc(), &whole)?;
        assert_eq!(rt; line.as_str(), row);
    }
    Ok(())
}

#[test]
fn binders_are_dropped(rt: HostRuntime) -> Result<(), Fail> {
    for (text, binder, state, row) in [
        (VARIABLE, 3, Some(StateId(0)), "- + 0~1 *1"),
        (VARIABLE, 4, None, VARIABLE),
        (INTO_ITSELF, 0, None, INTO_ITSELF),
        (CYCLE, 2, Some(StateId(0)), "-f1>0 +f0>1 *1"),
        (UNREACHED, 7, Some(StateId(1)), "- - + 0~2 1~2 *2"),
        (TWO_BINDERS, 1, Some(StateId(0)), "- + 0~1 x2=0 *1"),
        (TWO_BINDERS, 2, Some(StateId(0)), "- + 0~1 x1=0 *1"),
        (FIELD, 5, Some(StateId(0)), "-{l:1} - + 1~2 *2"),
    ] {
        let mut scheme = sample(&rt, rt.alloc(), text)?;
        assert_eq!(rt; drop_binder(&mut scheme, binder), state);
        let line = show_scheme(rt.alloc(), &scheme)?;
        assert_eq!(rt; line.as_str(), row);
    }
    Ok(())
}

#[test]
fn builders_give_small_schemes(rt: HostRuntime) -> Result<(), Fail> {
    let line = show_scheme(rt.alloc(), &lambda_use(rt.alloc(), 3)?)?;
    assert_eq!(rt; line.as_str(), VARIABLE);
    let line = show_scheme(rt.alloc(), &constant(rt.alloc(), HeadKind::Int)?)?;
    assert_eq!(rt; line.as_str(), INTEGER);
    Ok(())
}
