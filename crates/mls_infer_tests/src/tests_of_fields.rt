//! Projections from names.
ghost use Rattle.std.specs.Prelude.{◌≡◌, ◌∷◌, [], IfOk};
ghost use Rattle.mls_term.specs.declared.term.Term.{Term};
ghost use Rattle.mls_term.specs.WellFormed.{IsTerm};

use mls_base::list::List;
use mls_base::memory::Memory;
use mls_base::spelling::is_name;
use mls_book::name::Name;
use mls_infer::fault::{InferFault, SiteKind};
use mls_infer::infer::{Names, infer};
use mls_term::term::{Part, Parts, Term, TermForm, TermNode};
use std::alloc::Global;
use std::process::Abort;
use std::test::Fail;

fn node(form: TermForm) -> TermNode
    ensures { result ≡ record { at = 0; form = form } }
{
    TermNode { at: 0, form }
}

// A label, which is a name.
fn label_of(rt: &impl Abort, alloc: Global, letters: &[u8]) -> Result<Name, Memory>
    ensures { IfOk result (λ label. label ≡ letters.now) }
{
    assert!(rt; is_name(letters));
    let label = Name::new(alloc, letters)?;
    Ok(label)
}

// `{ l = e, m = f }`, where `e` and `f` are these nodes
fn record_of(rt: &impl Abort, alloc: Global, e: usize, f: usize) -> Result<Parts, Memory>
    ensures { IfOk result (λ parts. parts ≡ record { label = 108 ∷ []; child = e }
        ∷ record { label = 109 ∷ []; child = f } ∷ []) }
{
    let mut parts = List::new(alloc);
    parts.push(Part {
        label: label_of(rt, alloc, b"l")?,
        child: e,
    })?;
    parts.push(Part {
        label: label_of(rt, alloc, b"m")?,
        child: f,
    })?;
    Ok(parts)
}

// `fun x -> let r = { l = x, m = 1 } in r.l`
fn field_of_binder(rt: &impl Abort, alloc: Global) -> Result<Term, Memory>
    ensures { IfOk result (λ (term : Term). IsTerm 0 term.nodes term.binders term.lets) }
{
    let mut nodes = List::new(alloc);
    nodes.push(node(TermForm::Bound(0)))?;
    nodes.push(node(TermForm::Number(1)))?;
    nodes.push(node(TermForm::Make(record_of(rt, alloc, 0, 1)?)))?;
    nodes.push(node(TermForm::Inner(0)))?;
    nodes.push(node(TermForm::Project(3, label_of(rt, alloc, b"l")?)))?;
    nodes.push(node(TermForm::Let(0, 2, 4)))?;
    nodes.push(node(TermForm::Fun(0, 5)))?;
    Ok(Term {
        nodes,
        binders: 1,
        lets: 1,
    })
}

// `let r = rec x -> { l = x, m = 1 } in r.l`
fn field_of_itself(rt: &impl Abort, alloc: Global) -> Result<Term, Memory>
    ensures { IfOk result (λ (term : Term). IsTerm 0 term.nodes term.binders term.lets) }
{
    let mut nodes = List::new(alloc);
    nodes.push(node(TermForm::Bound(0)))?;
    nodes.push(node(TermForm::Number(1)))?;
    nodes.push(node(TermForm::Make(record_of(rt, alloc, 0, 1)?)))?;
    nodes.push(node(TermForm::Rec(0, 2)))?;
    nodes.push(node(TermForm::Inner(0)))?;
    nodes.push(node(TermForm::Project(4, label_of(rt, alloc, b"l")?)))?;
    nodes.push(node(TermForm::Let(0, 3, 5)))?;
    Ok(Term {
        nodes,
        binders: 1,
        lets: 1,
    })
}

// `fun x -> let r = if true then x else { l = 1, m = 1 } in r.l`, where an edge leads to the root of `r`
fn field_of_either(rt: &impl Abort, alloc: Global) -> Result<Term, Memory>
    ensures { IfOk result (λ (term : Term). IsTerm 0 term.nodes term.binders term.lets) }
{
    let mut nodes = List::new(alloc);
    nodes.push(node(TermForm::Truth(true)))?;
    nodes.push(node(TermForm::Bound(0)))?;
    nodes.push(node(TermForm::Number(1)))?;
    nodes.push(node(TermForm::Number(1)))?;
    nodes.push(node(TermForm::Make(record_of(rt, alloc, 2, 3)?)))?;
    nodes.push(node(TermForm::If(0, 1, 4)))?;
    nodes.push(node(TermForm::Inner(0)))?;
    nodes.push(node(TermForm::Project(6, label_of(rt, alloc, b"l")?)))?;
    nodes.push(node(TermForm::Let(0, 5, 7)))?;
    nodes.push(node(TermForm::Fun(0, 8)))?;
    Ok(Term {
        nodes,
        binders: 1,
        lets: 1,
    })
}

// `let r = { l = 1, m = 1 } in r.n`
fn field_of_none(rt: &impl Abort, alloc: Global) -> Result<Term, Memory>
    ensures { IfOk result (λ (term : Term). IsTerm 0 term.nodes term.binders term.lets) }
{
    let mut nodes = List::new(alloc);
    nodes.push(node(TermForm::Number(1)))?;
    nodes.push(node(TermForm::Number(1)))?;
    nodes.push(node(TermForm::Make(record_of(rt, alloc, 0, 1)?)))?;
    nodes.push(node(TermForm::Inner(0)))?;
    nodes.push(node(TermForm::Project(3, label_of(rt, alloc, b"n")?)))?;
    nodes.push(node(TermForm::Let(0, 2, 4)))?;
    Ok(Term {
        nodes,
        binders: 0,
        lets: 1,
    })
}

// How many states and edges the scheme of a term has, if it has one.
fn size_of(alloc: Global, term: &Term) -> Result<(usize, usize), InferFault>
    requires { IsTerm 0 term.now.nodes term.now.binders term.now.lets }
{
    let names = Names {
        schemes: List::new(alloc),
    };
    let scheme = infer(alloc, &names, term)?;
    Ok((scheme.automaton.len(), scheme.automaton.flows().len()))
}

// Whether a term has a scheme of so many states and edges.
fn has_size(alloc: Global, term: &Term, states: usize, flows: usize) -> bool
    requires { IsTerm 0 term.now.nodes term.now.binders term.now.lets }
{
    match size_of(alloc, term) {
        Ok(size) => size.0 == states && size.1 == flows,
        Err(_) => false,
    }
}

#[test]
fn a_field_is_that_of_the_binder(rt: HostRuntime) -> Result<(), Fail> {
    let alloc = rt.alloc();
    // that of the identity
    assert!(rt; has_size(alloc, &field_of_binder(&rt, alloc)?, 3, 1));
    Ok(())
}

#[test]
fn a_field_is_the_record_itself(rt: HostRuntime) -> Result<(), Fail> {
    let alloc = rt.alloc();
    // the record and its other field
    assert!(rt; has_size(alloc, &field_of_itself(&rt, alloc)?, 2, 0));
    Ok(())
}

#[test]
fn a_field_is_that_of_either_branch(rt: HostRuntime) -> Result<(), Fail> {
    let alloc = rt.alloc();
    // the function, its record, the field of this, and its result
    assert!(rt; has_size(alloc, &field_of_either(&rt, alloc)?, 4, 1));
    Ok(())
}

// Whether inference stopped at this node, where a record lacks a field.
fn lacks_at(fault: &InferFault, node: usize) -> bool {
    match fault {
        InferFault::NoScheme(site) => {
            site.node == node && matches!(site.kind, SiteKind::Lacks(_))
        }
        InferFault::Memory => false,
    }
}

#[test]
fn a_field_is_lacking(rt: HostRuntime) -> Result<(), Fail> {
    let alloc = rt.alloc();
    match size_of(alloc, &field_of_none(&rt, alloc)?) {
        Ok(_) => assert!(rt; false),
        Err(fault) => assert!(rt; lacks_at(&fault, 4)),
    }
    Ok(())
}
