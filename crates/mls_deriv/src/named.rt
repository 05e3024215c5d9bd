//! The names whose nodes stand in the book of a section.
ghost use Rattle.std.specs.Prelude.{◌++◌, IfOk, OnOk, IsTrue, option_map};
ghost use Rattle.mls_deriv.specs.inner.Names.{DoStand, StandsAt};

use crate::derivation::{Section, SectionLine, StepLine, StepRule};
use crate::rules::{has_from, scheme_at};
use mls_base::memory::Memory;
use mls_book::book::{Book, NodeId};
use mls_term::term::{TermForm, TermNode};
use mls_typetext::scheme::ReadScheme;
use std::alloc::Global;
use std::collections::BTreeSet;

/// Names by their numbers, each with a node from which on its nodes stand in a book.
pub(crate) type StandingNames = BTreeSet<(usize, usize)>;

/// The names whose nodes stand where a step of the section says. Each is compared once, however often it is used.
///
/// # Errors
///
/// `Memory` where memory is wanting.
pub(crate) fn standing_names(
    alloc: Global,
    declared: &[ReadScheme],
    earlier: &[ReadScheme],
    nodes: &[TermNode],
    section: &Section,
) -> Result<StandingNames, Memory>
    ensures { IfOk result (DoStand section.now.nodes (declared.now ++ earlier.now)) }
{
    let mut names = BTreeSet::new(alloc);
    for line in section.lines.as_slice() {
        add_line(&mut names, declared, earlier, nodes, &section.nodes, line)?;
    }
    Ok(names)
}

// Adds the name of a line, if it is a step by a name.
fn add_line(
    names: &mut StandingNames,
    declared: &[ReadScheme],
    earlier: &[ReadScheme],
    nodes: &[TermNode],
    book: &Book,
    line: &SectionLine,
) -> Result<(), Memory>
    requires { DoStand book.now (declared.now ++ earlier.now) names.old }
    ensures { OnOk result (DoStand book.now (declared.now ++ earlier.now) names.new) }
{
    match line {
        SectionLine::Step(step) => match name_of(nodes, step.get()) {
            Some((g, n)) => add_name(names, declared, earlier, book, g, n),
            None => Ok(()),
        },
        _ => Ok(()),
    }
}

// The name of a step by a name, and the node from which on its nodes are said to stand.
fn name_of(nodes: &[TermNode], step: &StepLine) -> Option<(usize, NodeId)> {
    match (&step.rule, nodes.get(step.node)) {
        (StepRule::Name(n), Some(node)) => match &node.form {
            TermForm::Global(g) => Some((*g, *n)),
            _ => None,
        },
        _ => None,
    }
}

// Adds a name, if its nodes stand there.
fn add_name(
    names: &mut StandingNames,
    declared: &[ReadScheme],
    earlier: &[ReadScheme],
    book: &Book,
    g: usize,
    n: NodeId,
) -> Result<(), Memory>
    requires { DoStand book.now (declared.now ++ earlier.now) names.old }
    ensures { OnOk result (DoStand book.now (declared.now ++ earlier.now) names.new) }
{
    if !names.contains(&(g, n.0)) && stands(book, scheme_at(declared, earlier, g), n) {
        names.insert((g, n.0))?;
    }
    Ok(())
}

// Whether the nodes of a name stand in the book from this one on.
fn stands(book: &Book, known: Option<&ReadScheme>, n: NodeId) -> bool
    ensures { IsTrue result → StandsAt book.now n.0 (option_map (λ read. read.now) known.entry) }
{
    match known {
        None => false,
        Some(read) => has_from(book, n.0, &read.book),
    }
}
