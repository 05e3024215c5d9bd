//! What the rule of subsumption asks: the pairs that follow the step.
ghost use Rattle.std.specs.Prelude.{◌↔◌, All, IsTrue, option_map};
ghost use Rattle.mls_book.specs.Books.{IsClosedBook};
ghost use Rattle.mls_deriv.specs.Steps.{IsRising};
ghost use Rattle.mls_deriv.specs.inner.Rules.{node_in, AreShown, BySub, IsInstance, IsKeptIn, IsLowPut};
ghost use Rattle.mls_deriv.specs.inner.Tables.{Holds, put_in};

use crate::derivation::{BinderNode, Mode, SectionLine, StepLine};
use crate::justify::is_shown;
use crate::lookup::node_in;
use crate::rules::is_top;
use crate::steps::Steps;
use crate::table::Table;
use mls_book::book::{Book, NodeId};

/// A subsumption: the earlier step is about the same node, and the lines that follow show that it subsumes this one.
pub fn by_sub(
    book: &Book,
    steps: &Steps,
    table: &Table,
    step: &StepLine,
    lines: &[SectionLine],
    number: usize,
) -> bool
    requires closed { IsClosedBook book.now }
    requires rising { IsRising step.now.env }
    ensures { IsTrue result ↔ BySub book.now steps.now (put_in table.now) (Holds table.now) step.now lines.now number }
{
    match steps.about(number, step.node) {
        None => false,
        Some(first) => is_instance(book, table, step, first) && are_shown(book, table, lines),
    }
}

// Whether the pairs claim that the first step subsumes the other.
fn is_instance(book: &Book, table: &Table, step: &StepLine, first: &StepLine) -> bool
    requires { IsRising step.now.env }
    ensures { IsTrue result ↔ IsInstance book.now (Holds table.now) step.now first.now }
{
    table.holds(Mode::Lr, first.root.0, step.root.0)
        && are_kept(book, table, step.env.as_slice(), first.env.as_slice())
}

// Whether the node of each binder of the second environment is kept.
fn are_kept(book: &Book, table: &Table, env: &[BinderNode], first: &[BinderNode]) -> bool
    requires { IsRising env.now }
    ensures { IsTrue result ↔ All (λ entry. IsKeptIn book.now (Holds table.now)
        (node_in env.now entry.binder) entry.node.0) first.now }
{
    first.iter().all(|entry| is_kept(book, table, node_in(env, entry.binder), entry.node))
}

// Whether the node of a binder is kept.
fn is_kept(book: &Book, table: &Table, found: Option<NodeId>, node: NodeId) -> bool
    ensures { IsTrue result ↔ IsKeptIn book.now (Holds table.now) (option_map (λ id. id.0) found) node.0 }
{
    match found {
        None => is_top(book, node),
        Some(m) => table.holds(Mode::Rl, m.0, node.0) || is_top(book, node),
    }
}

// Whether the lines that belong to the step are shown.
fn are_shown(book: &Book, table: &Table, lines: &[SectionLine]) -> bool
    requires { IsClosedBook book.now }
    ensures { IsTrue result ↔ AreShown book.now (put_in table.now) (Holds table.now) lines.now }
{
    for line in lines {
        match line {
            SectionLine::Let(_, _) => return true,
            SectionLine::Step(_) => return true,
            SectionLine::Put(x, _) => {
                if !is_low(book, table.put(*x)) {
                    return false;
                }
            }
            SectionLine::Pair(mode, i, j) => {
                if !is_shown(book, table, *mode, *i, *j) {
                    return false;
                }
            }
        }
    }
    true
}

// Whether the node of a variable is in the book, if it has one.
fn is_low(book: &Book, node: Option<usize>) -> bool
    ensures { IsTrue result ↔ IsLowPut book.now node }
{
    match node {
        None => true,
        Some(n) => n < book.len(),
    }
}
