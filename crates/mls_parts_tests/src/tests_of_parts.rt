//! Small parts: whether they may be posed, their solutions, and the types of first parts.
ghost use Rattle.std.specs.Prelude.{IfOk};
ghost use Rattle.mls_automaton.specs.Models.{IsClosed};

use crate::lists::is_part_list;
use crate::samples::{no_types, scheme};
use mls_automaton::automaton::Automaton;
use mls_automaton::sample::{automaton_of, show_automaton, show_scheme};
use mls_automaton::state_set::StateId;
use mls_base::memory::Memory;
use mls_base::spelling::is_name;
use mls_book::name::Name;
use mls_parts::first_type::first_type_of;
use mls_parts::posable::posed;
use mls_parts::pose::KnownTypes;
use mls_parts::solve::solution_of;
use mls_solver::goal::{Goal, are_goals};
use mls_term::term::{Part, Parts, TermForm, TermNode, TermNodes};
use std::alloc::Global;
use std::process::Abort;
use std::test::Fail;

// The automaton of a text, which is one.
fn sample(rt: &impl Abort, alloc: Global, text: &str) -> Result<Automaton, Memory>
    ensures { IfOk result IsClosed }
{
    match automaton_of(alloc, text)? {
        Some(a) => Ok(a),
        None => panic!(rt; "no automaton: {text}"),
    }
}

// Global 0 has this type.
fn one_global(rt: &impl Abort, alloc: Global, text: &str) -> Result<KnownTypes, Memory> {
    let mut known = no_types(alloc);
    known.globals.insert(0, scheme(rt, alloc, text)?)?;
    Ok(known)
}

// The constraint of all nodes, and where the copies begin; or that these nodes may not be posed.
fn line_of(
    alloc: Global,
    forms: TermNodes,
    part: &[usize],
    known: &KnownTypes,
) -> Result<String, Memory> {
    let mut line = String::new(alloc);
    if !is_part_list(alloc, forms.as_slice(), part)? {
        line.push_str("no")?;
        return Ok(line);
    }
    match posed(alloc, forms.as_slice(), part, &[0], known) {
        Err(_) => line.push_str("no")?,
        Ok(posing) => {
            line = show_automaton(alloc, &posing.automaton)?;
            for node in 0..forms.as_slice().len() {
                if let Some(first) = posing.copies.get(node) {
                    write!(line, " {node}:{first}")?;
                }
            }
        }
    }
    Ok(line)
}

// Two nodes of these forms.
fn two(alloc: Global, first: TermForm, second: TermForm) -> Result<TermNodes, Memory> {
    let mut nodes = TermNodes::new(alloc);
    nodes.push(TermNode { at: 0, form: first })?;
    nodes.push(TermNode {
        at: 0,
        form: second,
    })?;
    Ok(nodes)
}

// `fun x -> x`, with its nodes in the wrong order, twice, past the end, and with a binder that is not around.
#[test]
fn poses_a_part(rt: HostRuntime) -> Result<(), Fail> {
    let alloc = rt.alloc();
    let known = no_types(alloc);
    let rows = [
        (0, [0, 1], "- + +f0>1 0~1"),
        (0, [1, 0], "no"),
        (0, [0, 0], "no"),
        (0, [0, 2], "no"),
        (1, [0, 1], "no"),
    ];
    for (binder, part, wanted) in rows {
        let nodes = two(alloc, TermForm::Bound(0), TermForm::Fun(binder, 0))?;
        let line = line_of(alloc, nodes, &part, &known)?;
        assert_eq!(rt; line.as_str(), wanted);
    }
    Ok(())
}

// A known type is copied where its binders are around, and no head names the state of one.
#[test]
fn poses_a_name(rt: HostRuntime) -> Result<(), Fail> {
    let alloc = rt.alloc();
    let rows = [
        ("- + +f0>1 0~1 *2", "- - + +f1>2 +i 1~2 0:1"),
        ("- + 0~1 x0=0 *1", "- - + +i 1~2 0~2 0:1"),
        ("- + 0~1 x1=0 *1", "no"),
        ("- +f0> x0=0 *1", "no"),
        ("- +f>1 0~1 x0=0 *1", "- - +f>2 +i 1~2 0~2 0:1"),
    ];
    for (text, wanted) in rows {
        let known = one_global(&rt, alloc, text)?;
        let nodes = two(alloc, TermForm::Global(0), TermForm::Number(3))?;
        let line = line_of(alloc, nodes, &[0, 1], &known)?;
        assert_eq!(rt; line.as_str(), wanted);
    }
    let nodes = two(alloc, TermForm::Inner(0), TermForm::Number(3))?;
    let line = line_of(alloc, nodes, &[0, 1], &no_types(alloc))?;
    assert_eq!(rt; line.as_str(), "no");
    Ok(())
}

// A record of node 0 at both of these labels.
fn record_of(rt: &impl Abort, alloc: Global, labels: [&[u8]; 2]) -> Result<TermForm, Memory> {
    let mut parts = Parts::new(alloc);
    for label in labels {
        assert!(rt; is_name(label));
        let label = Name::new(alloc, label)?;
        parts.push(Part { label, child: 0 })?;
    }
    Ok(TermForm::Make(parts))
}

#[test]
fn poses_a_record(rt: HostRuntime) -> Result<(), Fail> {
    let alloc = rt.alloc();
    let rows = [(b"a", "- +i +{a:1;b:1}"), (b"b", "no")];
    for (label, wanted) in rows {
        let make = record_of(&rt, alloc, [b"b", label])?;
        let nodes = two(alloc, TermForm::Number(1), make)?;
        let line = line_of(alloc, nodes, &[0, 1], &no_types(alloc))?;
        assert_eq!(rt; line.as_str(), wanted);
    }
    Ok(())
}

// What flows in at a state goes along its edge.
#[test]
fn solves_a_constraint(rt: HostRuntime) -> Result<(), Fail> {
    let alloc = rt.alloc();
    let a = sample(&rt, alloc, "+i - + 1~2")?;
    let goals = [Goal {
        positive: StateId(0),
        negative: StateId(1),
    }];
    assert!(rt; are_goals(&a, &goals));
    let solution = solution_of(alloc, &a, &goals)?;
    let line = show_automaton(alloc, &solution.automaton)?;
    assert_eq!(rt; line.as_str(), "+i - +i 1~2");
    assert_eq!(rt; solution.found.len(), 1);
    Ok(())
}

// Binders that have one state get one each, and so does a binder whose state a head names.
#[test]
fn gives_binders_their_own_states(rt: HostRuntime) -> Result<(), Fail> {
    let alloc = rt.alloc();
    let rows = [
        (
            "- - + 0~2 1~2",
            [(4, 0), (7, 1)],
            "+ - - - 1~0 2~0 3~0 x4=2 x7=3 *0",
        ),
        (
            "- - +f0>2 0~2",
            [(4, 0), (7, 1)],
            "+f1>0 - - - - 1~0 3~0 x4=3 x7=4 *0",
        ),
    ];
    for (text, binders, wanted) in rows {
        let solved = sample(&rt, alloc, text)?;
        let first = first_type_of(alloc, &solved, 2, &binders)?;
        let line = show_scheme(alloc, &first)?;
        assert_eq!(rt; line.as_str(), wanted);
    }
    let solved = sample(&rt, alloc, "- - +")?;
    assert!(rt; first_type_of(alloc, &solved, 2, &[(7, 0), (4, 1)]).is_err());
    assert!(rt; first_type_of(alloc, &solved, 0, &[]).is_err());
    assert!(rt; first_type_of(alloc, &solved, 2, &[(1, 2)]).is_err());
    Ok(())
}
