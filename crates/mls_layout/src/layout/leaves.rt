//! The nodes that all states of a part share.
ghost use Rattle.std.specs.Prelude.{IfOk};
ghost use Rattle.mls_layout.specs.steps.Sources.{AddsLeaves};

use mls_base::memory::Memory;
use mls_book::book::{Book, Node, NodeId};

/// Nodes of `bool` and `int`, and that of nothing.
#[derive(Clone, Copy)]
pub(crate) struct Leaves {
    pub(crate) boolean: NodeId,
    pub(crate) integer: NodeId,
    pub(crate) nothing: NodeId,
}

/// Adds the leaves.
pub(crate) fn push_leaves(book: &mut Book) -> Result<Leaves, Memory>
    ensures { IfOk result (AddsLeaves book.old book.new) }
{
    let boolean = book.push(Node::Bool)?;
    let integer = book.push(Node::Int)?;
    let nothing = book.push(Node::Bot)?;
    Ok(Leaves {
        boolean,
        integer,
        nothing,
    })
}
