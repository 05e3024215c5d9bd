//! The polarities of the tops of layers.
ghost use Rattle.std.specs.Prelude.{◌≡◌, ◌<◌, ◌++◌, length, get_or, is_some, true, false, All, IfOk, OnOk, None};
ghost use Rattle.mls_book.specs.Books.{IsClosedBook};
ghost use Rattle.mls_book.specs.declared.book.Field.{Field};
ghost use Rattle.mls_scheme.specs.steps.Signs.{AddsLayer, AreSigned, child_tasks, field_tasks, layer_tasks, sign_at};
ghost use Rattle.mls_scheme.specs.steps.Signs.{with_sign};

use crate::layer::atoms_of;
use crate::visits::Visits;
use mls_automaton::automaton::Polarity;
use mls_base::memory::Memory;
use mls_book::book::{Book, Field, Node, NodeId};
use std::alloc::Global;

/// A node that is the top of a layer, with its polarity.
#[derive(Clone, Copy, Debug, PartialEq, Eq)]
pub struct Task {
    pub node: usize,
    pub sign: Polarity,
}

fn push_fields(work: &mut Vec<Task>, fields: &[Field], sign: Polarity) -> Result<(), Memory>
    ensures { OnOk result (work.new.items ≡ work.old.items ++ field_tasks sign fields.now) }
{
    for field in fields {
        work.push(Task {
            node: field.node.0,
            sign,
        })?;
    }
    Ok(())
}

// Adds the children of an atom.
fn push_children(work: &mut Vec<Task>, node: &Node, sign: Polarity) -> Result<(), Memory>
    ensures { OnOk result (work.new.items ≡ work.old.items ++ child_tasks sign node.now) }
{
    match node {
        Node::Arrow(from, to) => {
            work.push(Task {
                node: from.0,
                sign: sign.opposite(),
            })?;
            work.push(Task { node: to.0, sign })?;
            Ok(())
        }
        Node::Rcd(fields) => push_fields(work, fields.as_slice(), sign),
        _ => Ok(()),
    }
}

// Adds the children of atoms.
fn push_layer(
    work: &mut Vec<Task>,
    book: &Book,
    atoms: &[usize],
    sign: Polarity,
) -> Result<(), Memory>
    requires { All (λ j. j < length book.now) atoms.now }
    ensures { OnOk result (work.new.items ≡ work.old.items ++ layer_tasks book.now sign atoms.now) }
{
    for j in atoms {
        push_children(work, book.node(NodeId(*j)), sign)?;
    }
    Ok(())
}

// Gives a top its polarity, if it has none, and goes on to the children of its atoms.
fn visit(
    alloc: Global,
    visits: &mut Visits,
    book: &Book,
    signs: &mut Vec<Option<Polarity>>,
    work: &mut Vec<Task>,
    task: Task,
) -> Result<(), Memory>
    requires book { IsClosedBook book.now }
    requires limit { visits.old.limit ≡ length book.now }
    requires size { length signs.old.items ≡ length book.now }
    requires task { task.node < length book.now }
    ensures limit { visits.new.limit ≡ visits.old.limit }
    ensures seen { OnOk result (is_some (sign_at signs.old.items task.node) ≡ true
        → signs.new.items ≡ signs.old.items) }
    ensures seen_work { OnOk result (is_some (sign_at signs.old.items task.node) ≡ true
        → work.new.items ≡ work.old.items) }
    ensures signs { OnOk result (is_some (sign_at signs.old.items task.node) ≡ false
        → signs.new.items ≡ with_sign signs.old.items task) }
    ensures work { OnOk result (is_some (sign_at signs.old.items task.node) ≡ false
        → AddsLayer book.now task work.old.items work.new.items) }
{
    if signs[task.node].is_some() {
        return Ok(());
    }
    signs[task.node] = Some(task.sign);
    let atoms = atoms_of(alloc, visits, book, task.node)?;
    push_layer(work, book, atoms.as_slice(), task.sign)?;
    Ok(())
}

fn no_signs(alloc: Global, many: usize) -> Result<Vec<Option<Polarity>>, Memory>
    ensures size { IfOk result (λ signs. length signs.items ≡ many) }
    ensures none { IfOk result (λ signs. (i : _) → sign_at signs.items i ≡ None) }
{
    let mut signs = Vec::with_capacity(alloc, many)?;
    while signs.len() < many {
        signs.push(None)?;
    }
    Ok(signs)
}

/// The polarities of the tops that the root leads to: the root is positive, and the children of the atoms of a top are
/// tops. Each top is looked at once.
///
/// # Errors
///
/// `Memory` where memory is wanting.
pub fn signs_of(alloc: Global, book: &Book, root: usize) -> Result<Vec<Option<Polarity>>, Memory>
    requires book { IsClosedBook book.now }
    requires root { root < length book.now }
    ensures { IfOk result (λ signs. AreSigned book.now root signs.items) }
{
    let mut visits = Visits::new(alloc, book.len())?;
    let mut signs = no_signs(alloc, book.len())?;
    let mut work = vec![in alloc;
        Task {
            node: root,
            sign: Polarity::Positive
        },
    ]?;
    while let Some(task) = work.pop() {
        visit(alloc, &mut visits, book, &mut signs, &mut work, task)?;
    }
    Ok(signs)
}
