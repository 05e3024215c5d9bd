//! Which tops of layers have each variable.
ghost use Rattle.std.specs.Prelude.{◌≡◌, ◌↔◌, ◌<◌, [], length, All, IfOk, OnOk, IsTrue, Some};
ghost use Rattle.mls_book.specs.declared.book.Node.TheVariants.{Var};
ghost use Rattle.mls_book.specs.Books.{IsClosedBook};
ghost use Rattle.mls_scheme.specs.ReadAutomata.{HasVariable};
ghost use Rattle.mls_scheme.specs.steps.Uses.{AddsUses, AreUses, AreVariablesBelow, IsAmong, uses_at};

use crate::layer::atoms_of;
use crate::visits::Visits;
use mls_automaton::automaton::Polarity;
use mls_automaton::state_set::{StateId, StateSet};
use mls_base::memory::Memory;
use mls_book::book::{Book, Node, NodeId};
use std::alloc::Global;

fn no_uses(alloc: Global, vars: usize) -> Result<Vec<StateSet>, Memory>
    ensures size { IfOk result (λ uses. length uses.items ≡ vars) }
    ensures none { IfOk result (λ uses. (x : _) → uses_at uses.items x ≡ []) }
{
    let mut uses = Vec::with_capacity(alloc, vars)?;
    while uses.len() < vars {
        uses.push(StateSet::new(alloc))?;
    }
    Ok(uses)
}

// Adds the top to the uses of an atom that is a variable.
fn add_use(uses: &mut Vec<StateSet>, node: &Node, i: usize) -> Result<(), Memory>
    requires { (x : _) → node.now ≡ Var x → x < length uses.old.items }
    ensures { OnOk result (AddsUses (λ x. node.now ≡ Var x) i uses.old.items uses.new.items) }
{
    match node {
        Node::Var(x) => {
            uses[*x].insert(StateId(i))?;
            Ok(())
        }
        _ => Ok(()),
    }
}

fn add_uses(uses: &mut Vec<StateSet>, book: &Book, atoms: &[usize], i: usize) -> Result<(), Memory>
    requires variables { AreVariablesBelow (length uses.old.items) book.now }
    requires atoms { All (λ j. j < length book.now) atoms.now }
    ensures { OnOk result (AddsUses (IsAmong book.now atoms.now) i uses.old.items uses.new.items) }
{
    for j in atoms {
        add_use(uses, book.node(NodeId(*j)), i)?;
    }
    Ok(())
}

fn has_sign(sign: Option<Polarity>, p: Polarity) -> bool
    ensures { IsTrue result ↔ (sign ≡ Some p) }
{
    match sign {
        None => false,
        Some(q) => q == p,
    }
}

// Adds a top of this polarity to the uses of its variables.
fn add_top(
    alloc: Global,
    visits: &mut Visits,
    uses: &mut Vec<StateSet>,
    book: &Book,
    i: usize,
    sign: Option<Polarity>,
    p: Polarity,
) -> Result<(), Memory>
    requires book { IsClosedBook book.now }
    requires variables { AreVariablesBelow (length uses.old.items) book.now }
    requires i { i < length book.now }
    requires limit { visits.old.limit ≡ length book.now }
    ensures limit { visits.new.limit ≡ visits.old.limit }
    ensures uses { OnOk result (AddsUses (λ x. (sign ≡ Some p) × HasVariable book.now i x) i
        uses.old.items uses.new.items) }
{
    if !has_sign(sign, p) {
        return Ok(());
    }
    let atoms = atoms_of(alloc, visits, book, i)?;
    add_uses(uses, book, atoms.as_slice(), i)?;
    Ok(())
}

/// For each variable below `vars` the tops of this polarity that have it as an atom.
///
/// # Errors
///
/// `Memory` where memory is wanting.
pub fn uses_of(
    alloc: Global,
    book: &Book,
    signs: &[Option<Polarity>],
    p: Polarity,
    vars: usize,
) -> Result<Vec<StateSet>, Memory>
    requires book { IsClosedBook book.now }
    requires size { length signs.now ≡ length book.now }
    requires variables { AreVariablesBelow vars book.now }
    ensures { IfOk result (λ uses. AreUses book.now signs.now p vars uses.items) }
{
    let mut visits = Visits::new(alloc, book.len())?;
    let mut uses = no_uses(alloc, vars)?;
    for i in 0..signs.len() {
        add_top(alloc, &mut visits, &mut uses, book, i, signs[i], p)?;
    }
    Ok(uses)
}
