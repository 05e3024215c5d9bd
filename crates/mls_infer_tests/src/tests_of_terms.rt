//! Inference of small expressions.
ghost use Rattle.std.specs.Prelude.{◌≡◌, ◌++◌, ◌∷◌, [], IfOk, OnOk};
ghost use Rattle.mls_term.specs.declared.term.Term.{Term};
ghost use Rattle.mls_term.specs.WellFormed.{IsTerm};

use mls_base::list::List;
use mls_base::memory::Memory;
use mls_base::spelling::is_name;
use mls_biunify::goal::HeadKind;
use mls_book::name::Name;
use mls_infer::fault::{InferFault, SiteKind};
use mls_infer::infer::{Names, infer};
use mls_term::term::{Part, Parts, Term, TermForm, TermNode};
use std::alloc::Global;
use std::process::Abort;
use std::test::Fail;

fn node(form: TermForm) -> TermNode
    ensures { result ≡ record { at = 0; form = form } }
{
    TermNode { at: 0, form }
}

// `fun x -> x`
fn identity(alloc: Global) -> Result<Term, Memory>
    ensures { IfOk result (λ (term : Term). IsTerm 0 term.nodes term.binders term.lets) }
{
    let mut nodes = List::new(alloc);
    nodes.push(node(TermForm::Bound(0)))?;
    nodes.push(node(TermForm::Fun(0, 0)))?;
    Ok(Term {
        nodes,
        binders: 1,
        lets: 0,
    })
}

// `let f = fun x -> x in f`
fn named_identity(alloc: Global) -> Result<Term, Memory>
    ensures { IfOk result (λ (term : Term). IsTerm 0 term.nodes term.binders term.lets) }
{
    let mut nodes = List::new(alloc);
    nodes.push(node(TermForm::Bound(0)))?;
    nodes.push(node(TermForm::Fun(0, 0)))?;
    nodes.push(node(TermForm::Inner(0)))?;
    nodes.push(node(TermForm::Let(0, 1, 2)))?;
    Ok(Term {
        nodes,
        binders: 1,
        lets: 1,
    })
}

// `1 1`
fn number_of_number(alloc: Global) -> Result<Term, Memory>
    ensures { IfOk result (λ (term : Term). IsTerm 0 term.nodes term.binders term.lets) }
{
    let mut nodes = List::new(alloc);
    nodes.push(node(TermForm::Number(1)))?;
    nodes.push(node(TermForm::Number(1)))?;
    nodes.push(node(TermForm::Apply(0, 1)))?;
    Ok(Term {
        nodes,
        binders: 0,
        lets: 0,
    })
}

// `{ l = x }`, where `x` is node 1
fn one_field(rt: &impl Abort, alloc: Global) -> Result<Parts, Memory>
    ensures { IfOk result (λ parts. parts ≡ record { label = 108 ∷ []; child = 1 } ∷ []) }
{
    let label = b"l";
    assert!(rt; is_name(label));
    let mut parts = List::new(alloc);
    parts.push(Part {
        label: Name::new(alloc, label)?,
        child: 1,
    })?;
    Ok(parts)
}

// `let f = fun x -> if true then { l = x }.l else x in (rec g -> fun y -> g y) (f 1)`, a term with every form
fn every_form(rt: &impl Abort, alloc: Global) -> Result<Term, Memory>
    ensures { IfOk result (λ (term : Term). IsTerm 0 term.nodes term.binders term.lets) }
{
    let label = b"l";
    assert!(rt; is_name(label));
    let mut nodes = List::new(alloc);
    nodes.push(node(TermForm::Truth(true)))?;
    nodes.push(node(TermForm::Bound(0)))?;
    nodes.push(node(TermForm::Make(one_field(rt, alloc)?)))?;
    nodes.push(node(TermForm::Project(2, Name::new(alloc, label)?)))?;
    nodes.push(node(TermForm::Bound(0)))?;
    nodes.push(node(TermForm::If(0, 3, 4)))?;
    nodes.push(node(TermForm::Fun(0, 5)))?;
    nodes.push(node(TermForm::Bound(1)))?;
    nodes.push(node(TermForm::Bound(2)))?;
    nodes.push(node(TermForm::Apply(7, 8)))?;
    nodes.push(node(TermForm::Fun(2, 9)))?;
    nodes.push(node(TermForm::Rec(1, 10)))?;
    nodes.push(node(TermForm::Inner(0)))?;
    nodes.push(node(TermForm::Number(1)))?;
    nodes.push(node(TermForm::Apply(12, 13)))?;
    nodes.push(node(TermForm::Apply(11, 14)))?;
    nodes.push(node(TermForm::Let(0, 6, 15)))?;
    Ok(Term {
        nodes,
        binders: 3,
        lets: 1,
    })
}

fn no_names(alloc: Global) -> Names
    ensures { result.schemes ≡ [] }
{
    Names {
        schemes: List::new(alloc),
    }
}

#[test]
fn functions_have_schemes(rt: HostRuntime) -> Result<(), Fail> {
    let alloc = rt.alloc();
    let names = no_names(alloc);
    match infer(alloc, &names, &identity(alloc)?) {
        Ok(scheme) => {
            assert_eq!(rt; scheme.automaton.len(), 3);
            assert_eq!(rt; scheme.automaton.flows().len(), 1);
            assert!(rt; scheme.env.is_empty());
        }
        Err(_) => assert!(rt; false),
    }
    Ok(())
}

#[test]
fn a_let_bound_name_has_a_copy(rt: HostRuntime) -> Result<(), Fail> {
    let alloc = rt.alloc();
    let names = no_names(alloc);
    match infer(alloc, &names, &named_identity(alloc)?) {
        Ok(scheme) => assert_eq!(rt; scheme.automaton.len(), 3),
        Err(_) => assert!(rt; false),
    }
    Ok(())
}

#[test]
fn every_form_is_inferred(rt: HostRuntime) -> Result<(), Fail> {
    let alloc = rt.alloc();
    let names = no_names(alloc);
    match infer(alloc, &names, &every_form(&rt, alloc)?) {
        Ok(scheme) => {
            assert_eq!(rt; scheme.automaton.len(), 1);
            assert!(rt; scheme.automaton.flows().is_empty());
        }
        Err(_) => assert!(rt; false),
    }
    Ok(())
}

// Whether there is a number where a function is wanted.
fn is_number_for_function(kind: &SiteKind) -> bool {
    match kind {
        SiteKind::Unlike(first, second) => {
            *first == HeadKind::Int && *second == HeadKind::Function
        }
        SiteKind::Lacks(_) => false,
    }
}

// Whether inference stopped at this node, at a number where a function is wanted.
fn stops_at(fault: &InferFault, node: usize) -> bool {
    match fault {
        InferFault::NoScheme(site) => site.node == node && is_number_for_function(&site.kind),
        InferFault::Memory => false,
    }
}

#[test]
fn a_number_is_no_function(rt: HostRuntime) -> Result<(), Fail> {
    let alloc = rt.alloc();
    let names = no_names(alloc);
    let term = number_of_number(alloc)?;
    match infer(alloc, &names, &term) {
        Ok(_) => assert!(rt; false),
        Err(fault) => assert!(rt; stops_at(&fault, 2)),
    }
    Ok(())
}
