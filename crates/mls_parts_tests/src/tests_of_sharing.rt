//! Which uses of names share a copy.
use crate::lists::is_part_list;
use crate::samples::{no_types, scheme};
use mls_automaton::sample::show_automaton;
use mls_base::memory::Memory;
use mls_parts::posable::posed;
use mls_parts::pose::{KnownTypes, Posing};
use mls_term::term::{TermForm, TermNode, TermNodes};
use std::alloc::Global;
use std::process::Abort;
use std::test::Fail;

// Names 0 and 1, without an edge and with one.
fn two_types(rt: &impl Abort, alloc: Global) -> Result<KnownTypes, Memory> {
    let mut known = no_types(alloc);
    known.globals.insert(0, scheme(rt, alloc, "+i *0")?)?;
    known.globals.insert(1, scheme(rt, alloc, "- + 0~1 *1")?)?;
    Ok(known)
}

// So many nodes, which are uses of name 1 if they are among these, and else of name 0.
fn uses(alloc: Global, count: usize, edged: &[usize]) -> Result<TermNodes, Memory> {
    let mut nodes = TermNodes::new(alloc);
    for node in 0..count {
        let name = if edged.contains(&node) { 1 } else { 0 };
        nodes.push(TermNode {
            at: 0,
            form: TermForm::Global(name),
        })?;
    }
    Ok(nodes)
}

// Nodes 7 and 8, those from 10 to 74, and then 9, 75 and 76.
fn order(alloc: Global) -> Result<Vec<usize>, Memory> {
    let mut part = vec![in alloc; 7, 8]?;
    for node in 10..75 {
        part.push(node)?;
    }
    for node in [9, 75, 76] {
        part.push(node)?;
    }
    Ok(part)
}

// The constraint of these nodes in this order.
fn constraint(
    rt: &impl Abort,
    alloc: Global,
    nodes: &[TermNode],
    part: &[usize],
) -> Result<Posing, Memory> {
    let known = two_types(rt, alloc)?;
    assert!(rt; is_part_list(alloc, nodes, part)?);
    match posed(alloc, nodes, part, &[], &known) {
        Ok(posing) => Ok(posing),
        Err(_) => panic!(rt; "not posed"),
    }
}

// A copy of one state serves 65 uses: it is that of node 7, and then that of node 9. A type with an edge is copied for
// each.
#[test]
fn uses_share_a_copy(rt: HostRuntime) -> Result<(), Fail> {
    let alloc = rt.alloc();
    let nodes = uses(alloc, 77, &[8, 75])?;
    let part = order(alloc)?;
    let posing = constraint(&rt, alloc, nodes.as_slice(), part.as_slice())?;
    for (node, first) in [(7, 0), (8, 1), (9, 3), (75, 4), (76, 3)] {
        assert_eq!(rt; posing.copies.get(node), Some(&first));
    }
    for node in 10..75 {
        assert_eq!(rt; posing.copies.get(node), Some(&0));
    }
    let line = show_automaton(alloc, &posing.automaton)?;
    assert_eq!(rt; line.as_str(), "+i - + +i - + 1~2 4~5");
    Ok(())
}
