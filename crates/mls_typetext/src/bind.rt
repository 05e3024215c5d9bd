//! A book from its nodes.
ghost use Rattle.std.specs.Prelude.{◌≡◌, reverse, IfOk};
ghost use Rattle.mls_book.specs.Books.{IsBook};

use mls_base::memory::Memory;
use mls_book::book::{Book, Node};
use std::alloc::Global;

/// The book of these nodes, which are given from the last to the first.
pub fn bind(alloc: Global, nodes: Vec<Node>) -> Result<Book, Memory>
    requires { IsBook (reverse nodes.items) }
    ensures { IfOk result (λ book. book ≡ reverse nodes.items) }
{
    let mut book = Book::new(alloc);
    let mut left = nodes;
    while let Some(node) = left.pop() {
        book.push(node)?;
    }
    Ok(book)
}
