//! What is known of the names of a section, and where their types stand in its book.
ghost use Rattle.std.specs.Prelude.{◌≡◌, IfOk, IsSome, OnOk, Some};
ghost use Rattle.std.specs.BTreeMap.{get};
ghost use Rattle.std.specs.Ordering.{nat_cmp};
ghost use Rattle.mls_book.specs.Books.{IsClosedBook};
ghost use Rattle.mls_iface.specs.Matches.{IsRead};
ghost use Rattle.mls_layout.specs.LaidOut.{IsLonger};
ghost use Rattle.mls_lines.specs.Globals.{IsGlobalAt};

use crate::copies::push_book;
use crate::showing::{Showing, showing_of};
use mls_base::memory::Memory;
use mls_book::book::{Book, NodeId};
use mls_deriv::derivation::BinderNodes;
use mls_typetext::scheme::ReadScheme;
use std::alloc::Global;
use std::collections::BTreeMap;

/// The type of a name of the environment in the book of a section: its first node, its root, how many variables it has,
/// and the negative states that show each variable.
#[derive(Drop)]
pub struct GlobalAt {
    pub first: usize,
    pub root: NodeId,
    pub variables: usize,
    pub showing: Showing,
}

/// The step of the first part of a let, with its type and what it needs of binders, and the number of the first variable
/// of its type.
#[derive(Drop)]
pub struct FirstPart {
    pub step: usize,
    pub root: NodeId,
    pub env: BinderNodes,
    pub variable: usize,
}

/// Where types of names of the environment stand, by their numbers.
pub type Globals = BTreeMap<usize, GlobalAt>;

/// First parts by the numbers of their lets.
pub type FirstParts = BTreeMap<usize, FirstPart>;

/// Where the type of a name of the environment stands.
pub fn global_at(globals: &Globals, g: usize) -> &GlobalAt
    requires { IsSome (get nat_cmp globals.now g) }
    ensures { get nat_cmp globals.now g ≡ Some result.now }
{
    &globals[&g]
}

/// The first part of a let.
pub fn first_part(firsts: &FirstParts, k: usize) -> &FirstPart
    requires { IsSome (get nat_cmp firsts.now k) }
    ensures { get nat_cmp firsts.now k ≡ Some result.now }
{
    &firsts[&k]
}

/// Puts the book of a name's type behind the book of a section.
///
/// # Errors
///
/// `Memory` where memory is wanting.
pub fn put_global(alloc: Global, book: &mut Book, read: &ReadScheme) -> Result<GlobalAt, Memory>
    requires { IsRead read.now }
    ensures longer { OnOk result (IsLonger book.old book.new) }
    ensures at { IfOk result (IsGlobalAt book.new read.now) }
    ensures closed { OnOk result (IsClosedBook book.old → IsClosedBook book.new) }
{
    let first = push_book(alloc, book, &read.book)?;
    let root = first.checked_add(read.root.0).ok_or(Memory)?;
    Ok(GlobalAt {
        first,
        root: NodeId(root),
        variables: read.vars,
        showing: showing_of(alloc, read)?,
    })
}
