//! Small schemes as texts, their deterministic forms, and their classes of alike states.
ghost use Rattle.std.specs.Prelude.{IfOk};
ghost use Rattle.mls_automaton.specs.Models.{IsDeterministic};
ghost use Rattle.mls_automaton.specs.Schemes.{IsScheme};

use mls_automaton::sample::{scheme_of, show_scheme};
use mls_automaton::scheme::Scheme;
use mls_base::memory::Memory;
use mls_shape::determinise::determinise;
use mls_shape::minimise::minimise;
use std::alloc::Global;
use std::process::Abort;
use std::test::Fail;

// The scheme of a text, which is one.
pub(crate) fn sample(rt: &impl Abort, alloc: Global, text: &str) -> Result<Scheme, Memory>
    ensures { IfOk result IsScheme }
{
    match scheme_of(alloc, text)? {
        Some(scheme) => Ok(scheme),
        None => panic!(rt; "no scheme: {text}"),
    }
}

// The scheme of a text, which is one, and deterministic.
pub(crate) fn single(rt: &impl Abort, alloc: Global, text: &str) -> Result<Scheme, Memory>
    ensures scheme { IfOk result IsScheme }
    ensures deterministic { IfOk result (λ s. IsDeterministic s.automaton) }
{
    let scheme = sample(rt, alloc, text)?;
    assert!(rt; scheme.automaton.is_deterministic());
    Ok(scheme)
}

// The deterministic form of the scheme of the first text is the scheme of the second one.
fn is_determinised_to(
    rt: &impl Abort,
    alloc: Global,
    text: &str,
    expected: &str,
) -> Result<(), Memory> {
    let found = determinise(alloc, &sample(rt, alloc, text)?)?;
    assert_eq!(rt; show_scheme(alloc, &found)?.as_str(), expected, "{text}");
    Ok(())
}

// So is the scheme without alike states.
fn is_minimised_to(
    rt: &impl Abort,
    alloc: Global,
    text: &str,
    expected: &str,
) -> Result<(), Memory> {
    let found = minimise(alloc, &single(rt, alloc, text)?)?;
    assert_eq!(rt; show_scheme(alloc, &found)?.as_str(), expected, "{text}");
    Ok(())
}

// What joins of positive states and meets of negative ones have.
#[test]
fn sets_of_states_are_states(rt: HostRuntime) -> Result<(), Fail> {
    let alloc = rt.alloc();
    for (text, expected) in [
        (
            "+f3>1,2 +f3>4 +f6>5 -i +b +i -b *0",
            "+f1>2 -i +f3>4 -bi +bi *0",
        ),
        (
            "+f5,6>1,2 +{a:3;b:4} +{a:4} +b +i -{a:7} -{b:7} -i *0",
            "+f1>2 -{a:3;b:3} +{a:4} -i +bi *0",
        ),
        // Each part of a head; a root without one, and what is not reached.
        ("+bif1>2{a:3} - + + *0", "+bif1>2{a:3} - + + *0"),
        ("+ +i - -b 2~1 *0", "+ *0"),
        // Three joined records have the labels that all three have, and two may have none in common.
        (
            "+{r:1,2,3} +{a:4;b:5;c:4} +{b:4;c:5} +{a:5;c:4} +b +i *0",
            "+{r:1} +{c:2} +bi *0",
        ),
        ("+{r:1,2} +{a:3} +{b:3} + *0", "+{r:1} +{} *0"),
        // Three records that meet have all their labels.
        (
            "+f1,2,3> -{a:4} -{b:5} -{a:5} -b -i *0",
            "+f1>2 -{a:3;b:4} + -bi -i *0",
        ),
        // A member without a record takes no labels away.
        ("+{r:1,2} +{a:3} +i +b *0", "+{r:1} +i{a:2} +b *0"),
        ("+f1,2> -{a:3} -i -b *0", "+f1>2 -i{a:3} + -b *0"),
        // Functions that meet.
        (
            "+f1,2> -f3>4 -f5>6 +b -b +i -i *0",
            "+f1>2 -f3>4 + +bi -bi *0",
        ),
        // One set at two labels is one state, and alike states are two.
        ("+{a:1,2;b:1,2} +b +i *0", "+{a:1;b:1} +bi *0"),
        ("+{a:1;b:2} +i +i *0", "+{a:1;b:2} +i +i *0"),
        // Of empty sets there is one for each polarity.
        ("+f> *0", "+f1>2 - + *0"),
        ("+f>{a:;b:} *0", "+f1>2{a:2;b:2} - + *0"),
    ] {
        is_determinised_to(&rt, alloc, text, expected)?;
    }
    Ok(())
}

#[test]
fn cycles_edges_and_binders(rt: HostRuntime) -> Result<(), Fail> {
    let alloc = rt.alloc();
    for (text, expected) in [
        ("+f1>0,2 - +f1>0 *0", "+f1>2 - +f1>2 *0"),
        // Sets that grow along a cycle, and a cycle through domains.
        ("+{n:0,1} +{n:1,2} +{n:0} *0", "+{n:1} +{n:2} +{n:2} *0"),
        ("+f1> -f0> *0", "+f1>2 -f0>3 + - *0"),
        // Sets have the edges of their members, each once.
        ("+f1,2>3,4 - - + + 1~3 2~4 *0", "+f1>2 - + 1~2 *0"),
        ("+f1,2>3 - - + 1~3 2~3 *0", "+f1>2 - + 1~2 *0"),
        (
            "+f1>2{a:3;b:2,3} - + + 1~2 1~3 *0",
            "+f1>2{a:3;b:4} - + + + 1~2 1~3 1~4 *0",
        ),
        ("- +f0>1 0~1 *1", "+f1>0 - 1~0 *0"),
        // Binders have their own states, which a domain may have beside others.
        (
            "- - + +f0,1>2 +i 1~2 x4=1 *3",
            "+f2>3 - - + 1~3 2~3 x4=1 *0",
        ),
        ("- +f0>1 0~1 x2=0 x5=0 *1", "+f1>0 - 1~0 x2=1 x5=1 *0"),
        ("-i -b + x0=1 x7=0 *2", "+ -b -i x0=1 x7=2 *0"),
        ("-f1>2 +b -i + x3=0 *3", "+ -f2>3 +b -i x3=1 *0"),
    ] {
        is_determinised_to(&rt, alloc, text, expected)?;
    }
    Ok(())
}

#[test]
fn alike_states_are_one(rt: HostRuntime) -> Result<(), Fail> {
    let alloc = rt.alloc();
    for (text, expected) in [
        ("+f3>1 +f4>2 +f3>1 - - *0", "+f1>0 - *0"),
        (
            "+{a:1;b:2} +f3>5 +f4>5 - - + 3~5 4~5 *0",
            "+{a:1;b:1} +f2>3 - + 2~3 *0",
        ),
        ("+{a:1;b:2} +b +b *0", "+{a:1;b:1} +b *0"),
        ("+{a:1;b:2} +{c:1} +{c:2} *0", "+{a:1;b:1} +{c:1} *0"),
        // Chains that end alike, and rings.
        (
            "+{a:1;b:3} +{n:2} +i +{n:4} +i *0",
            "+{a:1;b:1} +{n:2} +i *0",
        ),
        (
            "+{a:1;b:4} +{l:2;r:3} +{l:3;r:3} +i +{l:5;r:6} +{l:3;r:6} +i *0",
            "+{a:1;b:1} +{l:2;r:3} +{l:3;r:3} +i *0",
        ),
        ("+{n:1} +{n:2} +{n:0} *0", "+{n:0} *0"),
        ("+{n:1} +i{n:2} +{n:3} +i{n:0} *0", "+{n:1} +i{n:0} *0"),
        ("-i +f0>2 +f3>2 -i *1", "-i +f0>1 *1"),
        ("+f1>4 -f2>5 +f3>4 -f0>5 + - *0", "+f1>2 -f0>3 + - *0"),
        // Partners that are the same, of positive states and of both.
        ("+f1>2{a:3} - + + 1~2 1~3 *0", "+f1>2{a:2} - + 1~2 *0"),
        (
            "+{a:1;b:2} +f3>5 +f4>6 - - + + 3~5 3~6 4~5 4~6 *0",
            "+{a:1;b:1} +f2>3 - + 2~3 *0",
        ),
        // The states of binders and the root.
        ("- - + x1=0 x2=1 *2", "- + x1=0 x2=0 *1"),
        ("+i +i *1", "+i *0"),
    ] {
        is_minimised_to(&rt, alloc, text, expected)?;
    }
    Ok(())
}

#[test]
fn other_states_stay_apart(rt: HostRuntime) -> Result<(), Fail> {
    let alloc = rt.alloc();
    for text in [
        "+{a:1;b:2} +f3>5 +f4>5 - - + 3~5 *0",
        // States that their places alone tell apart.
        "+{a:1;b:2} +{a:3;b:4} +{a:4;b:3} +{a:5;b:6} +{a:6;b:5} +i +b *0",
        "+{a:1;b:2} +{c:1} +{d:2} *0",
        "+{a:1;b:2} + +{c:1} *0",
        // Each part of a head, arms, and labels with the same bytes in a row.
        "+{a:1;b:2;c:3;d:4;e:5;g:6} + +b +i +f7>1 +{} +bi - *0",
        "+{x:1;y:2} +f3>5 +f4>5 -i -b + *0",
        "+{x:1;y:2} +f3>4 +f3>5 - +i +b *0",
        "+{x:1;y:2} +{a:3;b:3} +{ab:3} + *0",
        // A chain whose states are told apart one by one, chains that end otherwise, and a ring.
        "+{n:1} +{n:2} +{n:3} +{n:4} +i *0",
        "+{a:1;b:3} +{n:2} +i +{n:4} +b *0",
        "+{n:1} +{n:2} +i{n:0} *0",
        // Like heads with other partners.
        "+f1>2{a:3} - + + 1~2 *0",
        "+{a:1;b:2} +f3>5 +f4>6 - - + + 3~5 4~6 *0",
        "- - + 0~2 x1=0 x2=1 *2",
        // Both polarities, and what is not reached.
        "+f1>2 - + *0",
        "+i - +b *0",
    ] {
        let found = minimise(alloc, &single(&rt, alloc, text)?)?;
        assert_eq!(rt; show_scheme(alloc, &found)?.as_str(), text);
    }
    Ok(())
}

// A chain of records, each of which names the next state, and these states behind it.
fn chain(alloc: Global, records: usize, behind: &str) -> Result<String, Memory> {
    let mut text = String::new(alloc);
    for s in 0..records {
        text.push_str("+{n:")?;
        text.push_str(s.saturating_add(1).to_string(alloc)?.as_str())?;
        text.push_str("} ")?;
    }
    text.push_str(behind)?;
    Ok(text)
}

// More states than rounds alone are meant for: rings, of states that are alike and that one tells apart, and a chain
// whose states are told apart from its end.
#[test]
fn many_states_are_refined(rt: HostRuntime) -> Result<(), Fail> {
    let alloc = rt.alloc();
    let ring = chain(alloc, 20, "+{n:0} *0")?;
    is_minimised_to(&rt, alloc, ring.as_str(), "+{n:0} *0")?;
    for behind in ["+i *0", "+i{n:0} *0"] {
        let apart = chain(alloc, 20, behind)?;
        is_minimised_to(&rt, alloc, apart.as_str(), apart.as_str())?;
    }
    Ok(())
}
