//! The check of derivations of `fun x -> x` and of `{a = 1}` that are made by hand.
ghost use Rattle.std.specs.Prelude.{◌≡◌, ◌∷◌, [], IfOk};
ghost use Rattle.mls_term.specs.declared.term.Term.{Term};
ghost use Rattle.mls_term.specs.WellFormed.{IsTerm};
ghost use Rattle.mls_deriv.specs.Laws.{AreTerms};

use mls_base::list::List;
use mls_base::memory::Memory;
use mls_base::spelling::is_name;
use mls_book::book::{Book, Field, Fields, Node, NodeId};
use mls_book::name::Name;
use mls_deriv::derivation::{
    BinderNode, BinderNodes, Derivation, Mode, OwnStep, Section, SectionLine, SectionLines,
    Sections, StepLine, StepRule,
};
use mls_deriv::print::print_derivation;
use mls_deriv::verify::{Verified, verify};
use mls_term::term::{
    Part, Parts, Resolved, ResolvedBinding, ResolvedBindings, Term, TermForm, TermNode, TermNodes,
};
use mls_typetext::scheme::Names;
use std::alloc::Global;
use std::test::Fail;

// What is changed in the derivation of `fun x -> x`.
struct Change {
    first: usize,
    second: usize,
    pairs: usize,
    subsumes: bool,
    sections: usize,
}

const NONE: Change = Change {
    first: 1,
    second: 3,
    pairs: 3,
    subsumes: true,
    sections: 1,
};

fn name_of(alloc: Global, bytes: &[u8]) -> Result<Name, Memory>
    ensures { IfOk result (λ name. name ≡ bytes.now) }
{
    if is_name(bytes) {
        Name::new(alloc, bytes)
    } else {
        Err(Memory)
    }
}

fn node(form: TermForm) -> TermNode
    ensures { result ≡ record { at = 0; form = form } }
{
    TermNode { at: 0, form }
}

fn identity_term(alloc: Global) -> Result<Term, Memory>
    ensures { IfOk result (λ (term : Term). IsTerm 0 term.nodes term.binders term.lets) }
{
    let mut nodes = TermNodes::new(alloc);
    nodes.push(node(TermForm::Bound(0)))?;
    nodes.push(node(TermForm::Fun(0, 0)))?;
    Ok(Term {
        nodes,
        binders: 1,
        lets: 0,
    })
}

// The module with the term as its one binding.
fn module_of(alloc: Global, term: Term) -> Result<Resolved, Memory>
    requires { IsTerm 0 term.nodes term.binders term.lets }
    ensures { IfOk result (λ made. AreTerms 0 made.bindings) }
{
    let name = name_of(alloc, b"id")?;
    let mut bindings = ResolvedBindings::new(alloc);
    bindings.push(ResolvedBinding { name, at: 0, term })?;
    Ok(Resolved { bindings })
}

// The check over no scheme.
fn verified(alloc: Global, module: &Resolved, sections: Sections) -> Result<Verified, Memory>
    requires { AreTerms 0 «module».now.bindings }
{
    let declared = Names {
        schemes: List::new(alloc),
    };
    verify(alloc, &Derivation { sections }, module, &declared)
}

fn identity_book(alloc: Global) -> Result<Book, Memory> {
    let mut book = Book::new(alloc);
    book.push(Node::Arrow(NodeId(1), NodeId(2)))?;
    book.push(Node::Var(0))?;
    book.push(Node::Var(0))?;
    book.push(Node::Arrow(NodeId(1), NodeId(1)))?;
    Ok(book)
}

fn step(alloc: Global, node: usize, rule: StepRule, root: usize) -> Result<SectionLine, Memory> {
    let line = StepLine {
        node,
        rule,
        env: BinderNodes::new(alloc),
        root: NodeId(root),
    };
    Ok(SectionLine::Step(OwnStep::new(alloc, line)?))
}

fn use_of_binder(alloc: Global, root: usize) -> Result<SectionLine, Memory> {
    let mut env = BinderNodes::new(alloc);
    env.push(BinderNode {
        binder: 0,
        node: NodeId(1),
    })?;
    let line = StepLine {
        node: 0,
        rule: StepRule::Var,
        env,
        root: NodeId(root),
    };
    Ok(SectionLine::Step(OwnStep::new(alloc, line)?))
}

fn push_pairs(lines: &mut SectionLines, count: usize) -> Result<(), Memory> {
    let pairs = [(Mode::Lr, 3, 0), (Mode::Lr, 1, 2), (Mode::Rl, 1, 1)];
    for i in 0..count.min(3) {
        let (mode, left, right) = pairs[i];
        lines.push(SectionLine::Pair(mode, NodeId(left), NodeId(right)))?;
    }
    Ok(())
}

fn identity_lines(alloc: Global, change: &Change) -> Result<SectionLines, Memory> {
    let mut lines = SectionLines::new(alloc);
    lines.push(use_of_binder(alloc, change.first)?)?;
    lines.push(step(alloc, 1, StepRule::Fun(0), change.second)?)?;
    if change.subsumes {
        lines.push(step(alloc, 1, StepRule::Sub(1), 0)?)?;
        push_pairs(&mut lines, change.pairs)?;
    }
    Ok(lines)
}

fn text_of(alloc: Global, text: &[u8]) -> Result<List<u8>, Memory> {
    let mut list = List::new(alloc);
    for byte in text {
        list.push(*byte)?;
    }
    Ok(list)
}

fn identity(alloc: Global, change: &Change) -> Result<Section, Memory> {
    let lines = identity_lines(alloc, change)?;
    let nodes = identity_book(alloc)?;
    let text = text_of(alloc, b"a -> a")?;
    let name = name_of(alloc, b"id")?;
    Ok(Section {
        name,
        text,
        nodes,
        lines,
    })
}

fn sections_of(alloc: Global, change: &Change) -> Result<Sections, Memory> {
    let mut sections = Sections::new(alloc);
    for _ in 0..change.sections {
        sections.push(identity(alloc, change)?)?;
    }
    Ok(sections)
}

fn answer(alloc: Global, change: &Change) -> Result<Verified, Memory> {
    let module = module_of(alloc, identity_term(alloc)?)?;
    verified(alloc, &module, sections_of(alloc, change)?)
}

#[test]
fn checks_the_identity(rt: HostRuntime) -> Result<(), Fail> {
    let alloc = rt.alloc();
    assert_eq!(rt; answer(alloc, &NONE)?, Verified::Yes);
    assert_eq!(rt;
        answer(alloc, &Change { first: 2, ..NONE })?,
        Verified::No(0)
    );
    assert_eq!(rt;
        answer(alloc, &Change { second: 0, ..NONE })?,
        Verified::No(1)
    );
    Ok(())
}

#[test]
fn checks_pairs_and_the_end(rt: HostRuntime) -> Result<(), Fail> {
    let alloc = rt.alloc();
    assert_eq!(rt;
        answer(alloc, &Change { pairs: 2, ..NONE })?,
        Verified::No(2)
    );
    assert_eq!(rt;
        answer(alloc, &Change { pairs: 1, ..NONE })?,
        Verified::No(2)
    );
    assert_eq!(rt;
        answer(alloc, &Change { pairs: 0, ..NONE })?,
        Verified::No(2)
    );
    assert_eq!(rt;
        answer(
            alloc,
            &Change {
                subsumes: false,
                ..NONE
            }
        )?,
        Verified::No(2)
    );
    Ok(())
}

#[test]
fn counts_sections(rt: HostRuntime) -> Result<(), Fail> {
    let alloc = rt.alloc();
    assert_eq!(rt;
        answer(
            alloc,
            &Change {
                sections: 0,
                ..NONE
            }
        )?,
        Verified::No(0)
    );
    assert_eq!(rt;
        answer(
            alloc,
            &Change {
                sections: 2,
                ..NONE
            }
        )?,
        Verified::No(4)
    );
    assert_eq!(rt;
        answer(
            alloc,
            &Change {
                first: usize::MAX,
                ..NONE
            }
        )?,
        Verified::No(0)
    );
    Ok(())
}

#[test]
fn checks_no_binding(rt: HostRuntime) -> Result<(), Fail> {
    let alloc = rt.alloc();
    let module = Resolved {
        bindings: ResolvedBindings::new(alloc),
    };
    assert_eq!(rt;
        verified(alloc, &module, Sections::new(alloc))?,
        Verified::Yes
    );
    Ok(())
}

// The record `{a = 1}` and its type, where the second step has this rule.
fn record_answer(alloc: Global, rule: StepRule) -> Result<Verified, Memory> {
    let module = module_of(alloc, record_term(alloc)?)?;
    let mut sections = Sections::new(alloc);
    sections.push(record_section(alloc, rule)?)?;
    verified(alloc, &module, sections)
}

// `{a = 1}`, where `1` is node 0
fn one_part(alloc: Global) -> Result<Parts, Memory>
    ensures { IfOk result (λ parts. parts ≡ record { label = 97 ∷ []; child = 0 } ∷ []) }
{
    let mut parts = Parts::new(alloc);
    let label = name_of(alloc, b"a")?;
    parts.push(Part { label, child: 0 })?;
    Ok(parts)
}

fn record_term(alloc: Global) -> Result<Term, Memory>
    ensures { IfOk result (λ (term : Term). IsTerm 0 term.nodes term.binders term.lets) }
{
    let mut nodes = TermNodes::new(alloc);
    nodes.push(node(TermForm::Number(1)))?;
    nodes.push(node(TermForm::Make(one_part(alloc)?)))?;
    Ok(Term {
        nodes,
        binders: 0,
        lets: 0,
    })
}

fn record_book(alloc: Global) -> Result<Book, Memory> {
    let mut fields = Fields::new(alloc);
    let label = name_of(alloc, b"a")?;
    let node = NodeId(1);
    fields.push(Field { label, node })?;
    let mut book = Book::new(alloc);
    let record = Node::Rcd(fields);
    if book.can_push(&record) {
        book.push(record)?;
    }
    book.push(Node::Int)?;
    Ok(book)
}

fn record_section(alloc: Global, rule: StepRule) -> Result<Section, Memory> {
    let mut lines = SectionLines::new(alloc);
    lines.push(step(alloc, 0, StepRule::Lit, 1)?)?;
    lines.push(step(alloc, 1, rule, 0)?)?;
    let nodes = record_book(alloc)?;
    let text = text_of(alloc, b"{a: int}")?;
    let name = name_of(alloc, b"id")?;
    Ok(Section {
        name,
        text,
        nodes,
        lines,
    })
}

fn made_of(alloc: Global, number: usize) -> Result<StepRule, Memory> {
    let mut numbers = List::new(alloc);
    numbers.push(number)?;
    Ok(StepRule::Make(numbers))
}

#[test]
fn checks_a_record(rt: HostRuntime) -> Result<(), Fail> {
    let alloc = rt.alloc();
    assert_eq!(rt; record_answer(alloc, made_of(alloc, 0)?)?, Verified::Yes);
    assert_eq!(rt; record_answer(alloc, made_of(alloc, 1)?)?, Verified::No(1));
    assert_eq!(rt;
        record_answer(alloc, StepRule::Make(List::new(alloc)))?,
        Verified::No(1)
    );
    assert_eq!(rt; record_answer(alloc, StepRule::Lit)?, Verified::No(1));
    Ok(())
}

#[test]
fn prints_the_identity(rt: HostRuntime) -> Result<(), Fail> {
    let alloc = rt.alloc();
    let sections = sections_of(alloc, &NONE)?;
    let text = print_derivation(alloc, &Derivation { sections })?;
    let lines =
        b"derivation 1\nval id : a -> a\nnode fn 1 2\nnode var 0\nnode var 0\nnode fn 1 1\nstep 0 var env 0 1 type 1\nstep 1 fun 0 env type 3\nstep 1 sub 1 env type 0\npair lr 3 0\npair lr 1 2\npair rl 1 1\nend\n";
    assert_eq!(rt; text.as_slice(), lines.as_slice());
    Ok(())
}
