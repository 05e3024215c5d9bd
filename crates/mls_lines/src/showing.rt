//! The tops of a read type that show each of its variables.
ghost use Rattle.std.specs.Prelude.{◌≡◌, ◌∷◌, [], ◌<◌, ◌↔◌, ℕ, length, All, IfOk, IsTrue, OnOk, Some};
ghost use Rattle.std.specs.BTreeMap.{get};
ghost use Rattle.std.specs.Ordering.{is_eq, nat_cmp};
ghost use Rattle.mls_automaton.specs.declared.automaton.Polarity.TheVariants.{Negative};
ghost use Rattle.mls_book.specs.Books.{IsClosedBook};
ghost use Rattle.mls_book.specs.declared.book.Node.TheVariants.{Var};
ghost use Rattle.mls_scheme.specs.ReadAutomata.{HasVariable};
ghost use Rattle.mls_scheme.specs.steps.Uses.{IsAmong};
ghost use Rattle.mls_typetext.specs.Laws.{IsReadScheme};
ghost use Rattle.mls_lines.specs.Showing.{AddsShown, ShowTops, ShowTopsTo, with_state};

use mls_automaton::automaton::Polarity;
use mls_base::memory::Memory;
use mls_book::book::{Book, Node, NodeId};
use mls_parts::split::Numbers;
use mls_scheme::layer::atoms_of;
use mls_scheme::signs::signs_of;
use mls_scheme::visits::Visits;
use mls_typetext::scheme::ReadScheme;
use std::alloc::Global;
use std::collections::BTreeMap;

/// States by the variables that they show.
pub type Showing = BTreeMap<usize, Numbers>;

// One number.
fn one_number(alloc: Global, number: usize) -> Result<Numbers, Memory>
    ensures { IfOk result (λ numbers. numbers ≡ number ∷ []) }
{
    let mut numbers = Numbers::new(alloc);
    numbers.push(number)?;
    Ok(numbers)
}

// Adds a state that shows a variable.
fn add_showing(
    alloc: Global,
    showing: &mut Showing,
    variable: usize,
    state: usize,
) -> Result<(), Memory>
    ensures { OnOk result ((x : ℕ) → get nat_cmp showing.new x
        ≡ with_state (is_eq (nat_cmp variable x)) state (get nat_cmp showing.old x)) }
{
    match showing.get_mut(&variable) {
        Some(states) => states.push(state)?,
        None => {
            showing.insert(variable, one_number(alloc, state)?)?;
        }
    }
    Ok(())
}

// Adds a state to those that show the variable of an atom.
fn add_atom(alloc: Global, showing: &mut Showing, atom: &Node, state: usize) -> Result<(), Memory>
    ensures { OnOk result (AddsShown (λ x. atom.now ≡ Var x) state showing.old showing.new) }
{
    match atom {
        Node::Var(x) => {
            add_showing(alloc, showing, *x, state)?;
            Ok(())
        }
        _ => Ok(()),
    }
}

// Adds a state to those that show the variables among these atoms, once for each of its atoms.
fn add_atoms(
    alloc: Global,
    showing: &mut Showing,
    book: &Book,
    atoms: &[usize],
    state: usize,
) -> Result<(), Memory>
    requires { All (λ j. j < length book.now) atoms.now }
    ensures { OnOk result (AddsShown (IsAmong book.now atoms.now) state showing.old showing.new) }
{
    for j in atoms {
        add_atom(alloc, showing, book.node(NodeId(*j)), state)?;
    }
    Ok(())
}

fn is_negative(sign: Option<Polarity>) -> bool
    ensures { IsTrue result ↔ (sign ≡ Some Negative) }
{
    match sign {
        None => false,
        Some(p) => p == Polarity::Negative,
    }
}

// Adds a top to those that show its variables, if it is negative.
fn add_top(
    alloc: Global,
    visits: &mut Visits,
    showing: &mut Showing,
    book: &Book,
    top: usize,
    sign: Option<Polarity>,
) -> Result<(), Memory>
    requires book { IsClosedBook book.now }
    requires top { top < length book.now }
    requires limit { visits.old.limit ≡ length book.now }
    ensures limit { visits.new.limit ≡ visits.old.limit }
    ensures shown { OnOk result (AddsShown (λ x. (sign ≡ Some Negative) × HasVariable book.now top x) top
        showing.old showing.new) }
{
    if !is_negative(sign) {
        return Ok(());
    }
    let atoms = atoms_of(alloc, visits, book, top)?;
    add_atoms(alloc, showing, book, atoms.as_slice(), top)?;
    Ok(())
}

// The negative tops that show each variable, in order, where the tops have these signs.
fn shown_tops(alloc: Global, book: &Book, signs: &[Option<Polarity>]) -> Result<Showing, Memory>
    requires book { IsClosedBook book.now }
    requires size { length signs.now ≡ length book.now }
    ensures { IfOk result (ShowTopsTo (length signs.now) book.now signs.now) }
{
    let mut visits = Visits::new(alloc, book.len())?;
    let mut showing = Showing::new(alloc);
    for top in 0..signs.len() {
        add_top(alloc, &mut visits, &mut showing, book, top, signs[top])?;
    }
    Ok(showing)
}

/// The negative tops of a type that show each variable, in order.
///
/// # Errors
///
/// `Memory` where memory is wanting.
pub fn showing_of(alloc: Global, read: &ReadScheme) -> Result<Showing, Memory>
    requires { IsReadScheme read.now }
    ensures { IfOk result (ShowTops read.now.book read.now.root.0) }
{
    let signs = signs_of(alloc, &read.book, read.root.0)?;
    let showing = shown_tops(alloc, &read.book, signs.as_slice())?;
    Ok(showing)
}
