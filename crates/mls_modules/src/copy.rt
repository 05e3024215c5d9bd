//! Copies.
ghost use Rattle.std.specs.Prelude.{◌≡◌, ◌<◌, length, IfOk};
ghost use Rattle.mls_base.specs.Spelling.{IsName};
ghost use Rattle.mls_book.specs.Books.{node_at};

use mls_base::memory::Memory;
use mls_book::book::{Book, Node, NodeId};
use mls_book::name::Name;
use mls_typetext::scheme::ReadScheme;
use std::alloc::Global;

/// A copy of a name.
pub fn copy_name(alloc: Global, name: &Name) -> Result<Name, Memory>
    ensures copy { IfOk result (λ copy. copy ≡ name.now) }
    ensures name { IsName name.now }
{
    let copy = Name::new(alloc, name.bytes())?;
    Ok(copy)
}

/// A copy of what was read.
pub fn copy_scheme(alloc: Global, read: &ReadScheme) -> Result<ReadScheme, Memory>
    ensures { IfOk result (λ copy. copy ≡ read.now) }
{
    let book = copy_book(alloc, &read.book)?;
    Ok(ReadScheme {
        book,
        root: read.root,
        vars: read.vars,
    })
}

// A copy of a book, node by node.
fn copy_book(alloc: Global, book: &Book) -> Result<Book, Memory>
    ensures { IfOk result (λ copy. copy ≡ book.now) }
{
    let mut copy = Book::new(alloc);
    for i in 0..book.len() {
        copy.push(copy_node(book, NodeId(i))?)?;
    }
    Ok(copy)
}

// A copy of the node of this number.
fn copy_node(book: &Book, id: NodeId) -> Result<Node, Memory>
    requires { id.0 < length book.now }
    ensures { IfOk result (λ copy. copy ≡ node_at book.now id.0) }
{
    let copy = book.node(id).clone()?;
    Ok(copy)
}
