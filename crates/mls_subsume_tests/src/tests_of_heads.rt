//! Heads that one scheme has and another one lacks, and the first path to one.
use crate::samples::answer;
use std::test::Fail;

#[test]
fn heads_of_the_roots(rt: HostRuntime) -> Result<(), Fail> {
    for (general, special, expected) in [
        ("+ *0", "+ *0", "yes 1+0"),
        ("+ *0", "+b *0", "yes 1+0"),
        ("+b *0", "+b *0", "yes 1+0"),
        ("+b *0", "+i *0", "root (bool)"),
        ("+i *0", "+ *0", "root (int)"),
        ("+f1>2 - +b *0", "+i *0", "root (function)"),
        ("+f1>2 - +b *0", "+f1>2 - +b *0", "yes 2+1"),
        ("+{} *0", "+f1>2 - +b *0", "root (record)"),
        ("+{} *0", "+{} *0", "yes 1+0"),
        ("+{} *0", "+{a:1} +b *0", "root (field a)"),
        ("+{a:1} +b *0", "+{} *0", "yes 1+0"),
        ("+{c:1} +b *0", "+{a:1;b:2} +b +i *0", "root (field a)"),
        ("+{a:1;b:2} +b +i *0", "+{b:1} +i *0", "yes 2+0"),
        ("+{a:1} +b *0", "+{a:1} +i *0", "root.{a} (bool)"),
        // Of several reasons the first kind, and kinds before labels.
        ("+bif1>2{} - + *0", "+bf1>2 - + *0", "root (int)"),
        ("+i{} *0", "+{a:1} + *0", "root (int)"),
    ] {
        let line = answer(&rt, rt.alloc(), general, special)?;
        assert_eq!(rt; line.as_str(), expected, "{general}");
    }
    Ok(())
}

#[test]
fn each_kind_at_each_depth(rt: HostRuntime) -> Result<(), Fail> {
    for (general, special, expected) in [
        ("-b + +f0>1 *2", "- + +f0>1 *2", "root.dom (bool)"),
        ("- +i +f0>1 *2", "- + +f0>1 *2", "root.cod (int)"),
        ("+{a:1} +f2>0 - *0", "+{a:1} + *0", "root.{a} (function)"),
        ("-{} + +f0>1 *2", "-f1>0 + +f0>1 *2", "root.dom (record)"),
        (
            "+{a:1} +{b:2} +b *0",
            "+{a:1} +{b:2} +i *0",
            "root.{a}.{b} (bool)",
        ),
        (
            "- -i -f3>1 + +f2>3 *4",
            "- - -f3>1 + +f2>3 *4",
            "root.dom.cod (int)",
        ),
        (
            "- +f0>1 +f0>1 *2",
            "- + +f0>1 +f0>2 *3",
            "root.cod.cod (function)",
        ),
        (
            "- -{} + +f1>2 +f0>3 *4",
            "- -b + +f1>2 +f0>3 *4",
            "root.cod.dom (record)",
        ),
        (
            "+b - -f0>1 + +f2>3 +{a:4} *5",
            "+ - -f0>1 + +f2>3 +{a:4} *5",
            "root.{a}.dom.dom (bool)",
        ),
        (
            "-i -{a:0} -f3>1 + +f2>3 *4",
            "- -{a:0} -f3>1 + +f2>3 *4",
            "root.dom.cod.{a} (int)",
        ),
        (
            "- +f0>1 *1",
            "- + +f0>1 +f0>2 +f0>3 *4",
            "root.cod.cod.cod (function)",
        ),
        (
            "-{} +f0>2 + -f1>4 - +f3>2 *5",
            "-i +f0>2 + -f1>4 - +f3>2 *5",
            "root.dom.dom.dom (record)",
        ),
    ] {
        let line = answer(&rt, rt.alloc(), general, special)?;
        assert_eq!(rt; line.as_str(), expected, "{general}");
    }
    Ok(())
}

#[test]
fn labels_and_the_first_path(rt: HostRuntime) -> Result<(), Fail> {
    for (general, special, expected) in [
        // The least label, beside one that both have: of the special record where states are positive, and of the
        // general one where they are negative.
        ("+{b:1} + *0", "+{aB:1;a_:1;b:1} + *0", "root (field aB)"),
        ("+{a:1} + *0", "+{a:1;aa:1;b:1} + *0", "root (field aa)"),
        (
            "-{a:0;b:0;c:0} + +f0>1 *2",
            "-{b:0} + +f0>1 *2",
            "root.dom (field a)",
        ),
        ("-{b:0} + +f0>1 *2", "-{a:0;b:0;c:0} + +f0>1 *2", "yes 2+1"),
        (
            "+{a:1} +{b:0} *0",
            "+{a:1} +{b:0;c:0} *0",
            "root.{a} (field c)",
        ),
        (
            "-{x:1} -{y:0} + +f0>2 *3",
            "-{x:1} -{} + +f0>2 *3",
            "root.dom.{x} (field y)",
        ),
        // Of two paths the shorter one, whatever its reason and its steps.
        ("+{a:1} +b *0", "+{a:1;b:1} + *0", "root (field b)"),
        (
            "+b - -f0>1 + +i +f2>3{z:4} *5",
            "+ - -f0>1 + + +f2>3{z:4} *5",
            "root.{z} (int)",
        ),
        // Of two paths of one length the domain comes before the codomain, and this one before labels in byte order.
        ("-b +b +f0>1 *2", "- + +f0>1 *2", "root.dom (bool)"),
        (
            "- +b +i +f0>1{a:2} *3",
            "- + + +f0>1{a:2} *3",
            "root.cod (bool)",
        ),
        ("+{a:1;b:2} +i +b *0", "+{a:1;b:1} + *0", "root.{a} (int)"),
        // A pair that two paths lead to: the shorter path, and of two of one length the first.
        (
            "+{a:1;b:2} +{c:2} +b *0",
            "+{a:1;b:2} +{c:2} + *0",
            "root.{b} (bool)",
        ),
        (
            "+{a:1;b:2} +{d:3} +{c:3} +b *0",
            "+{a:1;b:2} +{d:3} +{c:3} + *0",
            "root.{a}.{d} (bool)",
        ),
    ] {
        let line = answer(&rt, rt.alloc(), general, special)?;
        assert_eq!(rt; line.as_str(), expected, "{general}");
    }
    Ok(())
}
