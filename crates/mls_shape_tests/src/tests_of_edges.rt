//! Small schemes without their redundant edges, and simplified ones.
use crate::tests_of_shapes::{sample, single};
use mls_automaton::sample::show_scheme;
use mls_base::memory::Memory;
use mls_shape::drop::drop_redundant_flows;
use mls_shape::simplify::simplify;
use std::alloc::Global;
use std::process::Abort;
use std::test::Fail;

// Without its redundant edges the scheme of the first text is that of the second one.
fn is_dropped_to(rt: &impl Abort, alloc: Global, text: &str, expected: &str) -> Result<(), Memory> {
    let found = drop_redundant_flows(alloc, &single(rt, alloc, text)?)?;
    assert_eq!(rt; show_scheme(alloc, &found)?.as_str(), expected, "{text}");
    Ok(())
}

// The scheme of the first text is simplified to that of the second one.
fn is_simplified_to(
    rt: &impl Abort,
    alloc: Global,
    text: &str,
    expected: &str,
) -> Result<(), Memory> {
    let found = simplify(alloc, &sample(rt, alloc, text)?)?;
    assert_eq!(rt; show_scheme(alloc, &found)?.as_str(), expected, "{text}");
    Ok(())
}

#[test]
fn redundant_edges_are_dropped(rt: HostRuntime) -> Result<(), Fail> {
    let alloc = rt.alloc();
    for (text, expected) in [
        // One part that both have is enough.
        ("-b +b 0~1 x4=0 *1", "-b +b x4=0 *1"),
        ("-i +bi 0~1 x4=0 *1", "-i +bi x4=0 *1"),
        ("-b{} +bf0>1 0~1 *1", "-b{} +bf0>1 *1"),
        // Records and functions that contain themselves.
        ("-{a:0} +{a:1} 0~1 x4=0 *1", "-{a:0} +{a:1} x4=0 *1"),
        ("-{a:0;b:0} +{a:1} 0~1 *1", "-{a:0;b:0} +{a:1} *1"),
        ("-f1>0 +f0>1 0~1 x4=0 *1", "-f1>0 +f0>1 x4=0 *1"),
        (
            "-{a:2} +{a:3} -{a:0} +{a:4} +{a:1} 0~1 *1",
            "-{a:2} +{a:3} -{a:0} +{a:4} +{a:1} *1",
        ),
        // Functions by both arms.
        (
            "-f2>3 +f4>5 +i -b -i +b 0~1 *1",
            "-f2>3 +f4>5 +i -b -i +b *1",
        ),
        // By an edge further on, which stays where heads do not say it.
        (
            "-{a:2} +{a:3} - + 0~1 2~3 x4=0 *1",
            "-{a:2} +{a:3} - + 2~3 x4=0 *1",
        ),
        ("-f2>0 +f3>1 + - 0~1 3~2 *1", "-f2>0 +f3>1 + - 3~2 *1"),
        (
            "-{a:2} +{a:3} -{a:4} +{a:5} -i +b 0~1 2~3 4~5 *1",
            "-{a:2} +{a:3} -{a:4} +{a:5} -i +b 4~5 *1",
        ),
        (
            "-{a:2} +{a:3} -{a:4} +{a:5} -i +i 0~1 2~3 4~5 *1",
            "-{a:2} +{a:3} -{a:4} +{a:5} -i +i *1",
        ),
        // Two edges that say each other, and one of two.
        (
            "-{a:2} +{a:3} -{a:0} +{a:1} 0~1 2~3 *1",
            "-{a:2} +{a:3} -{a:0} +{a:1} *1",
        ),
        ("-b +b +i 0~1 0~2 *1", "-b +b +i 0~2 *1"),
        ("-b +b 0~1 x0=0 x4=0 *1", "-b +b x0=0 x4=0 *1"),
    ] {
        is_dropped_to(&rt, alloc, text, expected)?;
    }
    Ok(())
}

#[test]
fn other_edges_stay(rt: HostRuntime) -> Result<(), Fail> {
    let alloc = rt.alloc();
    for text in [
        "-b +i 0~1 x4=0 *1",
        "- +b 0~1 x4=0 *1",
        "-bf1>0 +i{} 0~1 *1",
        // A label that only the upper end has.
        "-{a:0} +{b:1} 0~1 x4=0 *1",
        "-{} +{a:1} 0~1 *1",
        // Fields, domains or codomains that are not below one another.
        "-{a:2} +{a:3} - + 0~1 x4=0 *1",
        "-{a:2} +{a:3} -i +b{a:1} 0~1 *1",
        "-f2>3 +f4>5 +i -b - +b 0~1 *1",
        "-f2>3 +f4>5 +i -b -i +i 0~1 *1",
        // No edge.
        "- + *1",
    ] {
        is_dropped_to(&rt, alloc, text, text)?;
    }
    Ok(())
}

#[test]
fn schemes_become_simple(rt: HostRuntime) -> Result<(), Fail> {
    let alloc = rt.alloc();
    for (text, expected) in [
        ("- + +f0>1 0~1 *2", "+f1>2 - + 1~2 *0"),
        // Joins and meets.
        ("+f1>2,3 -b +i +b *0", "+f1>2 -b +bi *0"),
        (
            "+{r:1,2,3} +{a:4;b:5;c:4} +{b:4;c:5} +{a:5;c:4} +b +i *0",
            "+{r:1} +{c:2} +bi *0",
        ),
        (
            "+f1,2,3> -{a:4} -{b:5} -{a:5} -b -i *0",
            "+f1>2 -{a:3;b:4} + -bi -i *0",
        ),
        ("+f1,2>3,4 - - + + 1~3 2~4 *0", "+f1>2 - + 1~2 *0"),
        // Cycles.
        ("+f1>0,2 - +f1>0 *0", "+f1>0 - *0"),
        ("+{n:0,1} +{n:1,2} +{n:0} *0", "+{n:0} *0"),
        ("+f1>4 -f2>5 +f3>4 -f0>5 + - *0", "+f1>2 -f0>3 + - *0"),
        // States that are alike without a redundant edge alone.
        (
            "+{a:1;b:2} +f3>5 +f4>6 -b -b +b +b 3~5 *0",
            "+{a:1;b:1} +f2>3 -b +b *0",
        ),
        // What is not reached.
        ("+i +b - 2~1 *0", "+i *0"),
        // Binders.
        ("- + +f0>1 0~1 x3=0 *2", "+f1>2 - + 1~2 x3=1 *0"),
        ("-i -i + x3=0 x5=1 *2", "+ -i x3=1 x5=1 *0"),
        ("- - + +f0,1>2 +i 1~2 x4=1 *3", "+f1>2 - + 1~2 x4=1 *0"),
        ("-{a:0} +{a:1} 0~1 x4=0 *1", "+{a:0} -{a:1} x4=1 *0"),
        (
            "-{a:2} +{a:3} - + 0~1 2~3 x4=0 *1",
            "+{a:2} -{a:3} + - 3~2 x4=1 *0",
        ),
    ] {
        is_simplified_to(&rt, alloc, text, expected)?;
    }
    Ok(())
}

#[test]
fn simple_schemes_do_not_change(rt: HostRuntime) -> Result<(), Fail> {
    let alloc = rt.alloc();
    for text in [
        "+ *0",
        "+bif1>2{} - + *0",
        "+f1>2 - + 1~2 *0",
        "+f1>2 - +i *0",
        "+f1>2{a:2;b:2} - + *0",
        "+{n:1} +{n:2} +{n:3} +{n:4} +i *0",
        "+{a:1;b:2} +f3>4 +f5>6 - + - + 3~4 *0",
        // A function of a function and of what it takes.
        "+f1>2 -f3>4 +f5>6 + - - + 4~3 4~6 5~3 *0",
        "+f1>0 - 1~0 x2=1 x5=1 *0",
        "+{a:2} -{a:3} + - 3~2 x4=1 *0",
    ] {
        is_simplified_to(&rt, alloc, text, text)?;
    }
    Ok(())
}
