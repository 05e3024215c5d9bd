//! Joins and meets of nodes.
ghost use Rattle.std.specs.Prelude.{◌≡◌, ◌<◌, ◌++◌, ◌∷◌, [], All, length, IfOk, OnOk};
ghost use Rattle.mls_book.specs.Books.{IsBook};
ghost use Rattle.mls_layout.specs.Trees.{AddsTree, AddsTrees, HasMembersIn, none_node, two_node};

use mls_automaton::automaton::Polarity;
use mls_base::memory::Memory;
use mls_book::book::{Book, Node, NodeId};
use mls_pairs::short::ShortList;
use std::alloc::Global;

// The node of no member.
fn none_node(polarity: Polarity) -> Node
    ensures { result ≡ none_node polarity }
{
    match polarity {
        Polarity::Positive => Node::Bot,
        Polarity::Negative => Node::Top,
    }
}

// Adds the node of no member.
fn push_none(book: &mut Book, polarity: Polarity) -> Result<NodeId, Memory>
    ensures book { OnOk result (book.new ≡ book.old ++ none_node polarity ∷ []) }
    ensures number { IfOk result (λ id. id.0 ≡ length book.old) }
{
    book.push(none_node(polarity))
}

// Adds the join or the meet of two nodes.
fn push_two(
    book: &mut Book,
    polarity: Polarity,
    left: NodeId,
    right: NodeId,
) -> Result<NodeId, Memory>
    requires left { left.0 < length book.old }
    requires right { right.0 < length book.old }
    ensures is_book { IsBook book.old }
    ensures is_new { OnOk result (IsBook book.new) }
    ensures book { OnOk result (book.new ≡ book.old ++ two_node polarity left right ∷ []) }
    ensures number { IfOk result (λ id. id.0 ≡ length book.old) }
{
    let number = book.len();
    match polarity {
        Polarity::Positive => book.push(Node::Join(left, right))?,
        Polarity::Negative => book.push(Node::Meet(left, right))?,
    };
    Ok(NodeId(number))
}

// Adds the join or the meet of a node and others, one after another.
fn push_chain(
    book: &mut Book,
    polarity: Polarity,
    first: NodeId,
    rest: &[NodeId],
) -> Result<NodeId, Memory>
    requires first { first.0 < length book.old }
    requires rest { All (λ id. id.0 < length book.old) rest.now }
    ensures { IfOk result (λ id. AddsTree polarity (first ∷ rest.now) book.old book.new id.0) }
{
    let mut root = first;
    for member in rest {
        root = push_two(book, polarity, root, *member)?;
    }
    Ok(root)
}

/// Adds the join of these nodes of the book, for a positive place, or their meet, for a negative one.
///
/// # Errors
///
/// `Memory` where memory is wanting.
pub fn push_tree(book: &mut Book, polarity: Polarity, members: &[NodeId]) -> Result<NodeId, Memory>
    requires { All (λ id. id.0 < length book.old) members.now }
    ensures { IfOk result (λ id. AddsTree polarity members.now book.old book.new id.0) }
{
    match members.split_first() {
        None => {
            let none = push_none(book, polarity)?;
            Ok(none)
        }
        Some((first, rest)) => push_chain(book, polarity, *first, rest),
    }
}

/// A join of nodes, for a positive place, or a meet of them, for a negative one.
#[derive(Drop)]
pub struct PlannedTree {
    pub polarity: Polarity,
    pub members: NodeIds,
}

/// Numbers of nodes in order.
pub type NodeIds = ShortList<NodeId>;

/// Adds the tree of these members, which are nodes of the book.
pub(crate) fn push_planned(book: &mut Book, tree: &PlannedTree) -> Result<NodeId, Memory>
    requires { HasMembersIn book.old tree.now }
    ensures { IfOk result (λ id. AddsTree tree.now.polarity tree.now.members book.old book.new id.0) }
{
    push_tree(book, tree.polarity, tree.members.as_slice())
}

/// Adds joins and meets of nodes of the book, one after another.
///
/// # Errors
///
/// `Memory` where memory is wanting.
pub fn push_trees(alloc: Global, book: &mut Book, trees: &[PlannedTree]) -> Result<NodeIds, Memory>
    requires { All (HasMembersIn book.old) trees.now }
    ensures { IfOk result (AddsTrees trees.now book.old book.new) }
{
    let mut ids = NodeIds::new(alloc);
    for tree in trees {
        let id = push_planned(book, tree)?;
        ids.push(id)?;
    }
    Ok(ids)
}
