//! Which nodes of a section fit behind its first line.
ghost use Rattle.std.specs.Prelude.{◌≡◌, ◌↔◌, ◌<◌, ℕ, length, IfOk, IsTrue};
ghost use Rattle.mls_book.specs.Books.{node_at, IsOrdered, HasChildrenBelow};
ghost use Rattle.mls_deriv.specs.BadLines.{Fits};
ghost use Rattle.mls_deriv.specs.inner.Readings.{IsUnfit};

use mls_base::memory::Memory;
use mls_book::book::{Book, Field, Node, NodeId};
use std::alloc::Global;

/// The number of the first node that does not fit, or of the first that is missing, where those of the book come first.
pub fn first_unfit(front: &Book, nodes: &[Node]) -> Option<usize>
    ensures { IsUnfit front.now nodes.now result }
{
    for i in 0..nodes.len() {
        if !fits(front, nodes, i) {
            return Some(i);
        }
    }
    if nodes.len() < front.len() {
        return Some(nodes.len());
    }
    None
}

// Whether node i fits: it is as a book demands, its children are there, and it is the same as in the book in front.
fn fits(front: &Book, nodes: &[Node], i: usize) -> bool
    requires { i < length nodes.now }
    ensures { IsTrue result ↔ Fits front.now nodes.now i }
{
    let node = &nodes[i];
    is_ordered(i, node) && has_children_below(nodes.len(), node) && is_as_in_front(front, node, i)
}

// Whether node i is the same as in the book in front, if that has so many.
fn is_as_in_front(front: &Book, node: &Node, i: usize) -> bool
    ensures { IsTrue result ↔ (i < length front.now → node.now ≡ node_at front.now i) }
{
    i >= front.len() || is_same(node, front.node(NodeId(i)))
}

// Whether two nodes are the same.
fn is_same(node: &Node, other: &Node) -> bool
    ensures { IsTrue result ↔ (node.now ≡ other.now) }
{
    match (node, other) {
        (Node::Bot, Node::Bot) => true,
        (Node::Top, Node::Top) => true,
        (Node::Var(x), Node::Var(y)) => *x == *y,
        (Node::Bool, Node::Bool) => true,
        (Node::Int, Node::Int) => true,
        (Node::Arrow(i, j), Node::Arrow(k, l)) => i.0 == k.0 && j.0 == l.0,
        (Node::Rcd(fields), Node::Rcd(others)) => are_same(fields.as_slice(), others.as_slice()),
        (Node::Join(i, j), Node::Join(k, l)) => i.0 == k.0 && j.0 == l.0,
        (Node::Meet(i, j), Node::Meet(k, l)) => i.0 == k.0 && j.0 == l.0,
        _ => false,
    }
}

// Whether two lists of fields are.
fn are_same(fields: &[Field], others: &[Field]) -> bool
    ensures { IsTrue result ↔ (fields.now ≡ others.now) }
{
    fields == others
}

// Whether the children of a join or meet come before this number, and labels rise.
fn is_ordered(n: usize, node: &Node) -> bool
    ensures { IsTrue result ↔ IsOrdered n node.now }
{
    match node {
        Node::Join(j, k) | Node::Meet(j, k) => j.0 < n && k.0 < n,
        Node::Rcd(fields) => fields.is_rising(),
        _ => true,
    }
}

// Whether the children of a node are below this number.
fn has_children_below(n: usize, node: &Node) -> bool
    ensures { IsTrue result ↔ HasChildrenBelow n node.now }
{
    match node {
        Node::Arrow(j, k) | Node::Join(j, k) | Node::Meet(j, k) => j.0 < n && k.0 < n,
        Node::Rcd(fields) => fields.as_slice().iter().all(|field| field.node.0 < n),
        _ => true,
    }
}

/// The book of nodes each of which is as a book demands.
///
/// # Errors
///
/// `Memory` where memory is wanting.
pub fn book_of(alloc: Global, nodes: Vec<Node>) -> Result<Book, Memory>
    requires { (i : ℕ) → IsOrdered i (node_at nodes.items i) }
    ensures { IfOk result (λ book. book ≡ nodes.items) }
{
    let mut left = nodes;
    left.reverse();
    let mut book = Book::new(alloc);
    while let Some(node) = left.pop() {
        book.push(node)?;
    }
    Ok(book)
}
