//! Small terms, posed node by node. An automaton is written as its states and its edges; behind it stand the goals.
ghost use Rattle.std.specs.Prelude.{IsTrue};
ghost use Rattle.mls_parts.specs.Posings.{CanPose};

use crate::samples::no_types;
use mls_automaton::automaton::{Automaton, Head, Polarity};
use mls_automaton::sample::show_automaton;
use mls_automaton::state_set::StateId;
use mls_base::memory::Memory;
use mls_base::spelling::is_name;
use mls_book::name::Name;
use mls_parts::numbers::NumberMap;
use mls_parts::pose::{Goals, KnownTypes, Needs, Posing, pose_part};
use mls_solver::goal::is_state;
use mls_term::term::TermForm;
use std::alloc::Global;
use std::process::Abort;
use std::test::Fail;

// A constraint with a state for binder 0.
fn one_binder(alloc: Global) -> Result<Posing, Memory> {
    let mut automaton = Automaton::new(alloc);
    let state = automaton.state(Polarity::Negative, Head::empty())?;
    let mut binders = NumberMap::new(alloc);
    binders.insert(0, state.0)?;
    Ok(Posing {
        automaton,
        goals: Goals::new(alloc),
        roots: NumberMap::new(alloc),
        binders,
        needs: Needs::new(alloc),
        copies: NumberMap::new(alloc),
        results: NumberMap::new(alloc),
    })
}

// Whether a node without names and parts may be posed.
fn can_pose(posing: &Posing, known: &KnownTypes, form: &TermForm) -> bool
    ensures { IsTrue result → CanPose known.now.globals known.now.lets posing.now form.now }
{
    match form {
        TermForm::Bound(x) => is_state(
            &posing.automaton,
            StateId(posing.binder(*x)),
            Polarity::Negative,
        ),
        TermForm::Inner(_) => false,
        TermForm::Global(_) => false,
        TermForm::Number(_) => true,
        TermForm::Truth(_) => true,
        TermForm::Fun(_, _) => true,
        TermForm::Apply(_, _) => true,
        TermForm::Make(_) => false,
        TermForm::Project(_, _) => true,
        TermForm::If(_, _, _) => true,
        TermForm::Let(_, _, _) => false,
        TermForm::Rec(_, _) => true,
    }
}

// The constraint of nodes of these forms, behind a state for binder 0.
fn posed(rt: &impl Abort, alloc: Global, forms: &[TermForm]) -> Result<String, Memory> {
    let known = no_types(alloc);
    let mut posing = one_binder(alloc)?;
    for node in 0..forms.len() {
        assert!(rt; can_pose(&posing, &known, &forms[node]));
        posing.pose_node(alloc, node, &forms[node], &known)?;
    }
    let mut line = show_automaton(alloc, &posing.automaton)?;
    for goal in posing.goals.as_slice() {
        write!(line, " {}<{}", goal.positive.0, goal.negative.0)?;
    }
    Ok(line)
}

// `fun x -> x`.
#[test]
fn poses_the_identity(rt: HostRuntime) -> Result<(), Fail> {
    let line = posed(&rt, rt.alloc(), &[TermForm::Bound(0), TermForm::Fun(0, 0)])?;
    assert_eq!(rt; line.as_str(), "- + +f0>1 0~1");
    Ok(())
}

// `fun f -> f 1`.
#[test]
fn poses_an_application(rt: HostRuntime) -> Result<(), Fail> {
    let forms = [
        TermForm::Bound(0),
        TermForm::Number(1),
        TermForm::Apply(0, 1),
        TermForm::Fun(0, 2),
    ];
    let line = posed(&rt, rt.alloc(), &forms)?;
    assert_eq!(rt; line.as_str(), "- + +i + - -f2>4 +f0>3 0~1 4~3 1<5");
    Ok(())
}

// `fun r -> r.a`.
#[test]
fn poses_a_projection(rt: HostRuntime) -> Result<(), Fail> {
    let alloc = rt.alloc();
    assert!(rt; is_name(b"a"));
    let label = Name::new(alloc, b"a")?;
    let forms = [TermForm::Bound(0), TermForm::Project(0, label)];
    let line = posed(&rt, alloc, &forms)?;
    assert_eq!(rt; line.as_str(), "- + + - -{a:3} 0~1 3~2 1<4");
    Ok(())
}

// `if true then 1 else 2`.
#[test]
fn poses_a_conditional(rt: HostRuntime) -> Result<(), Fail> {
    let forms = [
        TermForm::Truth(true),
        TermForm::Number(1),
        TermForm::Number(2),
        TermForm::If(0, 1, 2),
    ];
    let line = posed(&rt, rt.alloc(), &forms)?;
    assert_eq!(rt; line.as_str(), "- +b +i +i + - -b 5~4 1<6 2<5 3<5");
    Ok(())
}

// `if true then 1 else if true then 2 else 3`: both conditionals have the states of the inner one.
#[test]
fn joins_a_second_branch(rt: HostRuntime) -> Result<(), Fail> {
    let forms = [
        TermForm::Truth(true),
        TermForm::Number(1),
        TermForm::Truth(true),
        TermForm::Number(2),
        TermForm::Number(3),
        TermForm::If(2, 3, 4),
        TermForm::If(0, 1, 5),
    ];
    let line = posed(&rt, rt.alloc(), &forms)?;
    assert_eq!(rt;
        line.as_str(),
        "- +b +i +b +i +i + - -b -b 7~6 3<8 4<7 5<7 1<9 2<7 6<7"
    );
    Ok(())
}

// `if true then (if true then 1 else 2) else 3`.
#[test]
fn joins_a_first_branch(rt: HostRuntime) -> Result<(), Fail> {
    let forms = [
        TermForm::Truth(true),
        TermForm::Truth(true),
        TermForm::Number(1),
        TermForm::Number(2),
        TermForm::If(1, 2, 3),
        TermForm::Number(3),
        TermForm::If(0, 4, 5),
    ];
    let line = posed(&rt, rt.alloc(), &forms)?;
    assert_eq!(rt;
        line.as_str(),
        "- +b +b +i +i + - -b +i -b 6~5 2<7 3<6 4<6 1<9 5<6 8<6"
    );
    Ok(())
}

// `rec x -> x`.
#[test]
fn poses_a_recursion(rt: HostRuntime) -> Result<(), Fail> {
    let line = posed(&rt, rt.alloc(), &[TermForm::Bound(0), TermForm::Rec(0, 0)])?;
    assert_eq!(rt; line.as_str(), "- + 0~1 1<0");
    Ok(())
}

// A part without a node has the states of its binders.
#[test]
fn poses_no_node(rt: HostRuntime) -> Result<(), Fail> {
    let alloc = rt.alloc();
    let posing = pose_part(alloc, &[], &[], &[7, 8], &no_types(alloc))?;
    let line = show_automaton(alloc, &posing.automaton)?;
    assert_eq!(rt; line.as_str(), "- -");
    assert_eq!(rt; posing.binder(8), 1);
    Ok(())
}
