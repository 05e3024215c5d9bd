//! Joins and meets of nodes of a small book.
use mls_automaton::automaton::Polarity;
use mls_base::memory::Memory;
use mls_book::book::{Book, Node, NodeId};
use mls_layout::tree::push_tree;
use std::alloc::Global;
use std::test::Fail;

// The number of the tree of these nodes, and its node.
fn tree_of(alloc: Global, polarity: Polarity, members: &[NodeId]) -> Result<(usize, Node), Memory> {
    let mut book = Book::new(alloc);
    book.push(Node::Bool)?;
    book.push(Node::Int)?;
    book.push(Node::Var(0))?;
    if members.iter().any(|id| id.0 >= book.len()) {
        return Err(Memory);
    }
    let root = push_tree(&mut book, polarity, members)?;
    Ok((root.0, book.node(root).clone()?))
}

#[test]
fn joins_and_meets(rt: HostRuntime) -> Result<(), Fail> {
    let alloc = rt.alloc();
    let all = [NodeId(0), NodeId(1), NodeId(2)];
    assert_eq!(rt; tree_of(alloc, Polarity::Positive, &[])?, (3, Node::Bot));
    assert_eq!(rt; tree_of(alloc, Polarity::Negative, &[])?, (3, Node::Top));
    assert_eq!(rt;
        tree_of(alloc, Polarity::Positive, &[NodeId(1)])?,
        (1, Node::Int)
    );
    assert_eq!(rt;
        tree_of(alloc, Polarity::Positive, &all)?,
        (4, Node::Join(NodeId(3), NodeId(2)))
    );
    assert_eq!(rt;
        tree_of(alloc, Polarity::Negative, &all)?,
        (4, Node::Meet(NodeId(3), NodeId(2)))
    );
    Ok(())
}
