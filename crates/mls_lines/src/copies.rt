//! Nodes of a book once more in another one.
ghost use Rattle.std.specs.Prelude.{◌≡◌, ◌++◌, ◌∷◌, [], length, map, IfOk, OnOk};
ghost use Rattle.mls_book.specs.Books.{IsClosedBook};
ghost use Rattle.mls_deriv.specs.Steps.{HasFrom, raised, raised_field, raised_id};
ghost use Rattle.mls_layout.specs.LaidOut.{IsLonger};

use mls_base::memory::Memory;
use mls_book::book::{Book, Field, Fields, Node, NodeId};
use std::alloc::Global;

// The number of a node, higher by this.
fn raised(id: NodeId, up: usize) -> Result<NodeId, Memory>
    ensures { IfOk result (λ own. own ≡ raised_id up id) }
{
    let number = up.checked_add(id.0).ok_or(Memory)?;
    Ok(NodeId(number))
}

// The same field, where the number of its node is higher by this.
fn raised_field(field: &Field, up: usize) -> Result<Field, Memory>
    ensures { IfOk result (λ own. own ≡ raised_field up field.now) }
{
    let node = raised(field.node, up)?;
    let label = field.label.clone()?;
    Ok(Field { label, node })
}

// The same fields, where the numbers of their nodes are higher by this.
fn raised_fields(alloc: Global, fields: &[Field], up: usize) -> Result<Fields, Memory>
    ensures { IfOk result (λ own. own ≡ map (raised_field up) fields.now) }
{
    let mut copies = Fields::new(alloc);
    for field in fields {
        copies.push(raised_field(field, up)?)?;
    }
    Ok(copies)
}

// The same node, where the numbers of its children are higher by this.
fn raised_node(alloc: Global, node: &Node, up: usize) -> Result<Node, Memory>
    ensures { IfOk result (λ own. own ≡ raised up node.now) }
{
    match node {
        Node::Bot => Ok(Node::Bot),
        Node::Top => Ok(Node::Top),
        Node::Var(x) => Ok(Node::Var(*x)),
        Node::Bool => Ok(Node::Bool),
        Node::Int => Ok(Node::Int),
        Node::Arrow(from, to) => Ok(Node::Arrow(raised(*from, up)?, raised(*to, up)?)),
        Node::Rcd(fields) => Ok(Node::Rcd(raised_fields(alloc, fields.as_slice(), up)?)),
        Node::Join(left, right) => Ok(Node::Join(raised(*left, up)?, raised(*right, up)?)),
        Node::Meet(left, right) => Ok(Node::Meet(raised(*left, up)?, raised(*right, up)?)),
    }
}

/// Adds a copy of a book, and answers the number of its first node.
///
/// # Errors
///
/// `Memory` where memory is wanting.
pub fn push_book(alloc: Global, book: &mut Book, other: &Book) -> Result<usize, Memory>
    ensures first { IfOk result (λ first. first ≡ length book.old) }
    ensures longer { OnOk result (IsLonger book.old book.new) }
    ensures from { IfOk result (λ first. HasFrom book.new first other.now) }
    ensures closed { OnOk result (IsClosedBook book.old → IsClosedBook other.now → IsClosedBook book.new) }
{
    let first = book.len();
    for i in 0..other.len() {
        let node = raised_node(alloc, other.node(NodeId(i)), first)?;
        book.push(node)?;
    }
    Ok(first)
}
