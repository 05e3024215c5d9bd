//! The states of the scheme of a book, without edges.
ghost use Rattle.std.specs.Prelude.{◌≡◌, ◌<◌, length, map, IfOk, OnOk};
ghost use Rattle.mls_automaton.specs.Heads.{combined, parts_of, IsSameParts};
ghost use Rattle.mls_automaton.specs.Models.{HasRisingLabels};
ghost use Rattle.mls_book.specs.Books.{node_at, IsClosedBook};
ghost use Rattle.mls_scheme.specs.ReadAutomata.{atom_parts, atoms};
ghost use Rattle.mls_scheme.specs.steps.States.{AddsNode, AreNodeStates};

use crate::heads::layer_head;
use crate::layer::atoms_of;
use crate::visits::Visits;
use mls_automaton::automaton::{Automaton, Head, Polarity};
use mls_base::memory::Memory;
use mls_book::book::Book;
use std::alloc::Global;

// The combined head of the atoms of a node.
fn top_head(
    alloc: Global,
    visits: &mut Visits,
    book: &Book,
    i: usize,
    p: Polarity,
) -> Result<Head, Memory>
    requires book { IsClosedBook book.now }
    requires i { i < length book.now }
    requires limit { visits.old.limit ≡ length book.now }
    ensures limit { visits.new.limit ≡ visits.old.limit }
    ensures labels { IfOk result (λ head. HasRisingLabels head.fields) }
    ensures same { IfOk result (λ head. IsSameParts (parts_of head)
        (combined p (map (λ j. atom_parts (node_at book.now j)) (atoms book.now i)))) }
{
    let found = atoms_of(alloc, visits, book, i)?;
    let head = layer_head(alloc, book, p, found.as_slice())?;
    Ok(head)
}

// Adds the state of a node: of a top that with its head, of any other node an empty one.
fn add_node(
    alloc: Global,
    visits: &mut Visits,
    automaton: &mut Automaton,
    book: &Book,
    i: usize,
    sign: Option<Polarity>,
) -> Result<(), Memory>
    requires book { IsClosedBook book.now }
    requires i { i < length book.now }
    requires limit { visits.old.limit ≡ length book.now }
    ensures limit { visits.new.limit ≡ visits.old.limit }
    ensures node { OnOk result (AddsNode book.now i sign automaton.old automaton.new) }
{
    match sign {
        None => {
            automaton.state(Polarity::Positive, Head::empty())?;
            Ok(())
        }
        Some(p) => {
            let head = top_head(alloc, visits, book, i, p)?;
            automaton.state(p, head)?;
            Ok(())
        }
    }
}

/// A state for each node of the book: that of a top has its polarity and its head, and any other is an empty one.
///
/// # Errors
///
/// `Memory` where memory is wanting.
pub fn states_of(
    alloc: Global,
    book: &Book,
    signs: &[Option<Polarity>],
) -> Result<Automaton, Memory>
    requires book { IsClosedBook book.now }
    requires size { length signs.now ≡ length book.now }
    ensures { IfOk result (AreNodeStates book.now signs.now) }
{
    let mut visits = Visits::new(alloc, book.len())?;
    let mut automaton = Automaton::with_room(alloc, signs.len())?;
    for i in 0..signs.len() {
        add_node(alloc, &mut visits, &mut automaton, book, i, signs[i])?;
    }
    Ok(automaton)
}
