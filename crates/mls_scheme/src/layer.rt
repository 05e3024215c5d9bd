//! The layers of a book: what lies between constructors.
ghost use Rattle.std.specs.Prelude.{◌≡◌, ℕ, ◌<◌, ◌++◌, ◌∷◌, [], length, IfOk, IsTrue, OnOk};
ghost use Rattle.mls_book.specs.Books.{IsClosedBook};
ghost use Rattle.mls_scheme.specs.steps.Layers.{atom_step, left_step, AreAtoms};

use crate::visits::Visits;
use mls_base::memory::Memory;
use mls_book::book::{Book, Node, NodeId};
use smallvec::SmallVec;
use std::alloc::Global;

/// Atoms of a node. Nearly all nodes have so few, and need no allocation.
pub type Atoms = SmallVec<usize, 2>;

// What is left to look at behind a node, and the node itself if it is an atom.
fn look_at(atoms: &mut Atoms, left: &mut Vec<usize>, i: usize, node: &Node) -> Result<(), Memory>
    ensures atoms { OnOk result (atoms.new.items ≡ atoms.old.items ++ atom_step i node.now) }
    ensures left { OnOk result (left.new.items ≡ left.old.items ++ left_step node.now) }
{
    match node {
        Node::Join(first, second) => push_both(left, *first, *second),
        Node::Meet(first, second) => push_both(left, *first, *second),
        _ => {
            atoms.push(i)?;
            Ok(())
        }
    }
}

fn push_both(left: &mut Vec<usize>, first: NodeId, second: NodeId) -> Result<(), Memory>
    ensures { OnOk result (left.new.items ≡ left.old.items ++ second.0 ∷ first.0 ∷ []) }
{
    left.push(second.0)?;
    left.push(first.0)?;
    Ok(())
}

// Whether a node is no join and no meet.
fn is_atom(node: &Node) -> bool
    ensures { IsTrue result → (i : ℕ) → atom_step i node.now ≡ i ∷ [] }
{
    match node {
        Node::Join(_, _) => false,
        Node::Meet(_, _) => false,
        _ => true,
    }
}

// One atom.
fn alone(alloc: Global, atom: usize) -> Atoms
    ensures { result.items ≡ atom ∷ [] }
{
    let mut atoms = SmallVec::new(alloc);
    atoms.push_reserved(atom);
    atoms
}

/// The atoms of a node, each once: those that are no join and no meet, which it reaches through joins and meets alone.
/// It takes no recursion, and looks at each node of the layer once.
///
/// # Errors
///
/// `Memory` where memory is wanting.
pub fn atoms_of(
    alloc: Global,
    visits: &mut Visits,
    book: &Book,
    top: usize,
) -> Result<Atoms, Memory>
    requires book { IsClosedBook book.now }
    requires top { top < length book.now }
    requires limit { visits.old.limit ≡ length book.now }
    ensures limit { visits.new.limit ≡ visits.old.limit }
    ensures atoms { IfOk result (λ found. AreAtoms book.now top found.items) }
{
    if is_atom(book.node(NodeId(top))) {
        return Ok(alone(alloc, top));
    }
    visits.restart();
    let mut found = SmallVec::new(alloc);
    let mut left = vec![in alloc; top]?;
    while let Some(i) = left.pop() {
        if !visits.contains(i) {
            visits.push(i)?;
            look_at(&mut found, &mut left, i, book.node(NodeId(i)))?;
        }
    }
    Ok(found)
}
