//! Edges that are missing, types that contain themselves, and binders.
use crate::samples::answer;
use std::test::Fail;

#[test]
fn functions_and_edges(rt: HostRuntime) -> Result<(), Fail> {
    for (general, special, expected) in [
        // A function from state 0 to state 1, with an edge from the one to the other or without.
        ("- + +f0>1 0~1 *2", "- + +f0>1 0~1 *2", "yes 2+1"),
        ("- + +f0>1 0~1 *2", "- + +f0>1 *2", "root.cod (flow)"),
        ("- + +f0>1 *2", "- + +f0>1 0~1 *2", "yes 2+1"),
        ("- + +f0>1 0~1 *2", "-b +b +f0>1 *2", "yes 2+1"),
        ("- + +f0>1 0~1 *2", "-b +i +f0>1 *2", "root.cod (flow)"),
        ("- +b +f0>1 *2", "-b +b +f0>1 *2", "yes 2+1"),
        ("-b +b +f0>1 *2", "- + +f0>1 0~1 *2", "root.dom (bool)"),
        ("-b +b +f0>1 *2", "-b +i +f0>1 *2", "root.cod (bool)"),
        ("- +i +f0>1 0~1 *2", "- +b +f0>1 *2", "root.cod (int)"),
        ("-{a:0} + +f0>1 *2", "-{} + +f0>1 *2", "root.dom (field a)"),
        ("-{} + +f0>1 *2", "-{a:0} + +f0>1 *2", "yes 2+1"),
        ("-f1>0 + +f0>1 *2", "-f1>0 + +f0>1 0~1 *2", "yes 2+1"),
        // Heads of functions that contain themselves stand for an edge.
        ("- + +f0>1 0~1 *2", "-f1>0 +f0>1 +f0>1 *2", "yes 2+1"),
        // An edge of another argument is of no use.
        (
            "- - + +f1>2 +f0>3 0~2 *4",
            "- - + +f1>2 +f0>3 1~2 *4",
            "root.cod.cod (flow)",
        ),
        // A part that is missing far away comes before an edge that is missing near.
        (
            "- + +f0>1{a:3} +{b:4} +i 0~1 *2",
            "- + +f0>1{a:3} +{b:4} + *2",
            "root.{a}.{b} (int)",
        ),
    ] {
        let line = answer(&rt, rt.alloc(), general, special)?;
        assert_eq!(rt; line.as_str(), expected, "{general}");
    }
    Ok(())
}

#[test]
fn recursion_and_binders(rt: HostRuntime) -> Result<(), Fail> {
    for (general, special, expected) in [
        // Types that contain themselves, with the periods 1 and 2.
        ("-b +f0>1 *1", "-b +f0>2 +f0>1 *1", "yes 2+1"),
        ("-b +f0>2 +f0>1 *1", "-b +f0>1 *1", "yes 2+1"),
        ("-b +f0>1 *1", "-b +f0>2 +f3>1 -i *1", "root.cod.dom (bool)"),
        (
            "-b +f0>2 +f3>1 -i *1",
            "-b +f0>2 +f0>1 *1",
            "root.cod.dom (int)",
        ),
        // The periods 2 and 3, and 3 and 2.
        ("-b +f0>2 +f0>1 *1", "-b +f0>2 +f0>3 +f0>1 *1", "yes 6+1"),
        (
            "+{n:1} +i{n:0} *0",
            "+i{n:1} +i{n:2} +{n:0} *0",
            "root.{n}.{n}.{n}.{n}.{n} (int)",
        ),
        (
            "+{n:1} +{n:2} +i{n:0} *0",
            "+i{n:1} +{n:0} *0",
            "root.{n}.{n}.{n}.{n}.{n} (int)",
        ),
        // A domain that contains the function, unrolled once.
        (
            "+f1>2 -f0>3 + - *0",
            "+f1>4 -f2>5 +f3>4 -f0>5 + - *0",
            "yes 3+3",
        ),
        // A path through two domains.
        (
            "+b - -f0>1 + +f2>3 *4",
            "+ - -f0>1 + +f2>3 *4",
            "root.dom.dom (bool)",
        ),
        ("+ - -f0>1 + +f2>3 *4", "+b - -f0>1 + +f2>3 *4", "yes 3+2"),
        // An edge of a state that is paired with two.
        ("- +f0>1 0~1 *1", "- +f0>2 +f0>1 0~1 *1", "root.cod (flow)"),
        ("- +f0>1 0~1 *1", "- +f0>2 +f0>1 0~1 0~2 *1", "yes 2+1"),
        // Binders of the special scheme ask nothing of the general one, and their edges are of no use to it.
        ("+ *0", "- + 0~1 x4=0 *1", "yes 1+0"),
        ("- + +f0>1 *2", "- + +f0>1 0~1 x3=0 x4=0 *2", "yes 2+1"),
        (
            "- + +f0>1 0~1 *2",
            "- - + +f0>2 1~2 x0=1 *3",
            "root.cod (flow)",
        ),
    ] {
        let line = answer(&rt, rt.alloc(), general, special)?;
        assert_eq!(rt; line.as_str(), expected, "{general}");
    }
    Ok(())
}
