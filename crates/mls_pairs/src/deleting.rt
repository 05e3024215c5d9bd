//! Taking out the pairs that a list does not justify, each as soon as pairs that it rests on are gone.
ghost use Rattle.std.specs.Prelude.{◌∷◌, [], IfOk, OnOk};
ghost use Rattle.mls_pairs.specs.steps.Deleting.{Deletes, IsHeldBy, Sweeps};
ghost use Rattle.mls_pairs.specs.steps.Rounds.{AreThose};

use crate::justify::is_shown;
use crate::needs::needs_of;
use crate::pairs::Pairs;
use crate::thin::add_kept;
use mls_base::memory::Memory;
use mls_book::book::{Book, NodeId};
use mls_deriv::claim::Pair;
use mls_deriv::derivation::Mode;
use mls_deriv::table::Table;
use std::alloc::Global;
use std::collections::BTreeMap;

// Pairs by the numbers of a pair.
type ByNumbers = BTreeMap<(usize, usize), Pairs>;

// For each pair of a mode, the pairs for which the rules name it.
#[derive(Drop)]
struct Users {
    lr: ByNumbers,
    rl: ByNumbers,
    pp: ByNumbers,
}

impl Users {
    fn new(alloc: Global) -> Users {
        Users {
            lr: BTreeMap::new(alloc),
            rl: BTreeMap::new(alloc),
            pp: BTreeMap::new(alloc),
        }
    }

    // Adds that the rules name these pairs for a pair.
    fn add(&mut self, alloc: Global, named: &[Pair], user: Pair) -> Result<(), Memory> {
        for pair in named {
            let users = match pair.mode {
                Mode::Lr => &mut self.lr,
                Mode::Rl => &mut self.rl,
                Mode::Pp => &mut self.pp,
            };
            add_user(alloc, users, (pair.left, pair.right), user)?;
        }
        Ok(())
    }

    // The pairs for which the rules name this one.
    fn of(&self, pair: Pair) -> Option<&Pairs> {
        match pair.mode {
            Mode::Lr => self.lr.get(&(pair.left, pair.right)),
            Mode::Rl => self.rl.get(&(pair.left, pair.right)),
            Mode::Pp => self.pp.get(&(pair.left, pair.right)),
        }
    }
}

fn add_user(
    alloc: Global,
    users: &mut ByNumbers,
    numbers: (usize, usize),
    user: Pair,
) -> Result<(), Memory> {
    if let Some(pairs) = users.get_mut(&numbers) {
        pairs.push(user)?;
        return Ok(());
    }
    let mut pairs = Pairs::new(alloc);
    pairs.push(user)?;
    users.insert(numbers, pairs)?;
    Ok(())
}

// Which of these pairs the rules name for which.
fn users_of(alloc: Global, book: &Book, table: &Table, pairs: &[Pair]) -> Result<Users, Memory> {
    let mut users = Users::new(alloc);
    for pair in pairs {
        let named = needs_of(alloc, book, table, *pair)?;
        users.add(alloc, named.as_slice(), *pair)?;
    }
    Ok(users)
}

// The pairs for which the rules name one of these.
fn users_of_all(alloc: Global, users: &Users, gone: &[Pair]) -> Result<Pairs, Memory> {
    let mut all = Pairs::new(alloc);
    for pair in gone {
        if let Some(pairs) = users.of(*pair) {
            push_all(&mut all, pairs.as_slice())?;
        }
    }
    Ok(all)
}

fn push_all(all: &mut Pairs, pairs: &[Pair]) -> Result<(), Memory> {
    for pair in pairs {
        all.push(*pair)?;
    }
    Ok(())
}

// Takes out this pair, if the table has it and does not show it, and answers whether it does so.
fn deletes(book: &Book, table: &mut Table, pair: Pair) -> bool
    ensures { Sweeps book.now (pair ∷ []) table.old table.new result }
{
    if !table.holds(pair.mode, pair.left, pair.right) {
        return false;
    }
    if is_shown(
        book,
        table,
        pair.mode,
        NodeId(pair.left),
        NodeId(pair.right),
    ) {
        return false;
    }
    table.remove(pair.mode, pair.left, pair.right);
    true
}

/// Takes out those of these pairs that the table does not show, one after another from the last one, and answers whether
/// there was one. Pairs come behind those for which the rules name them, so most that rest on what is gone go with it.
pub(crate) fn sweep(book: &Book, table: &mut Table, pairs: &[Pair]) -> bool
    ensures { Sweeps book.now pairs.now table.old table.new result }
{
    let mut is_less = false;
    let mut left = pairs.len();
    while left > 0 {
        left -= 1;
        if deletes(book, table, pairs[left]) {
            is_less = true;
        }
    }
    is_less
}

// Takes out those of these pairs that the table does not show, one after another, and answers them.
fn deleted(alloc: Global, book: &Book, table: &mut Table, pairs: &[Pair]) -> Result<Pairs, Memory>
    ensures { OnOk result (Deletes book.now table.old table.new) }
{
    let mut gone = Pairs::new(alloc);
    for pair in pairs {
        if deletes(book, table, *pair) {
            gone.push(*pair)?;
        }
    }
    Ok(gone)
}

/// Takes out pairs that are not shown: all of these are looked at once, and then those that rest on a pair that is gone.
///
/// # Errors
///
/// `Memory` where memory is wanting.
pub(crate) fn delete_all(
    alloc: Global,
    book: &Book,
    table: &mut Table,
    pairs: &[Pair],
) -> Result<(), Memory>
    ensures { OnOk result (Deletes book.now table.old table.new) }
{
    let users = users_of(alloc, book, table, pairs)?;
    let mut left = pairs.len();
    let mut gone = deleted(alloc, book, table, pairs)?;
    while !gone.is_empty() && gone.len() < left {
        left -= gone.len();
        let others = users_of_all(alloc, &users, gone.as_slice())?;
        gone = deleted(alloc, book, table, others.as_slice())?;
    }
    Ok(())
}

/// The pairs that the table has, in order.
///
/// # Errors
///
/// `Memory` where memory is wanting.
pub(crate) fn held(alloc: Global, table: &Table, pairs: &[Pair]) -> Result<Pairs, Memory>
    ensures { IfOk result (AreThose (IsHeldBy table.now) pairs.now) }
{
    let mut left = Pairs::new(alloc);
    for pair in pairs {
        let is_kept = table.holds(pair.mode, pair.left, pair.right);
        add_kept(&mut left, *pair, is_kept)?;
    }
    Ok(left)
}
