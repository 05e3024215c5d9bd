//! The pairs of a step.
ghost use Rattle.std.specs.Prelude.{IfOk};
ghost use Rattle.mls_deriv.specs.Pairs.{put_at};
ghost use Rattle.mls_pairs.specs.Lines.{IsTable};
ghost use Rattle.mls_pairs.specs.PairLists.{IsPairList, StaysInside};
ghost use Rattle.mls_pairs.specs.steps.Deleting.{Deletes, IsHeldBy};
ghost use Rattle.mls_pairs.specs.steps.Rounds.{AreThose, IsWhole};

use crate::chosen::chosen_of;
use crate::deleting::{delete_all, held, sweep};
use crate::found::{Found, gathered};
use crate::short::ShortList;
use mls_base::memory::Memory;
use mls_book::book::Book;
use mls_deriv::claim::{Pair, Put};
use std::alloc::Global;

/// Pairs in order.
pub type Pairs = ShortList<Pair>;

// So many rounds go over all pairs, before those alone are looked at again that rest on a pair that is gone.
const ROUNDS: usize = 4;

// What is left of a list whose table has lost pairs, behind so many rounds. In the last of them all go that have to.
fn left_after(alloc: Global, book: &Book, found: Found, round: usize) -> Result<Found, Memory>
    ensures deletes { IfOk result (λ left. Deletes book.now found.table left.table) }
    ensures those { IfOk result (λ left. AreThose (IsHeldBy left.table) found.pairs left.pairs) }
{
    let Found { pairs, table } = found;
    let mut table = table;
    if round >= ROUNDS {
        delete_all(alloc, book, &mut table, pairs.as_slice())?;
    }
    let left = held(alloc, &table, pairs.as_slice())?;
    Ok(Found { pairs: left, table })
}

// The list of `pair_list`, with its table. The last round deletes no pair.
fn listed(alloc: Global, book: &Book, puts: &[Put], wanted: &[Pair]) -> Result<Found, Memory>
    ensures pairs { IfOk result (λ found. IsPairList book.now puts.now wanted.now found.pairs) }
    ensures inside { IfOk result (λ found. StaysInside book.now (put_at puts.now) wanted.now found.pairs) }
    ensures table { IfOk result (λ found. IsTable puts.now found.pairs found.table) }
{
    let mut found = gathered(alloc, book, puts, wanted)?;
    let mut round = 0;
    loop {
        let is_less = sweep(book, &mut found.table, found.pairs.as_slice());
        if !is_less {
            return Ok(found);
        }
        found = left_after(alloc, book, found, round)?;
        round = round.saturating_add(1);
    }
}

/// Pairs that justify each other, where variables stand for nodes: they have each wanted pair that the rules can show,
/// and all that the rules name for a pair of the list.
///
/// # Errors
///
/// `Memory` where memory is wanting.
pub fn pair_list(alloc: Global, book: &Book, puts: &[Put], wanted: &[Pair]) -> Result<Pairs, Memory>
    ensures list { IfOk result (IsPairList book.now puts.now wanted.now) }
    ensures inside { IfOk result (StaysInside book.now (put_at puts.now) wanted.now) }
{
    let listed = listed(alloc, book, puts, wanted)?;
    Ok(listed.pairs)
}

// What is chosen of the list of `pair_list`.
fn chosen_of_all(alloc: Global, book: &Book, puts: &[Put], wanted: &[Pair]) -> Result<Pairs, Memory>
    ensures list { IfOk result (IsPairList book.now puts.now wanted.now) }
    ensures inside { IfOk result (StaysInside book.now (put_at puts.now) wanted.now) }
{
    let listed = listed(alloc, book, puts, wanted)?;
    match chosen_of(alloc, book, &listed.table, wanted)? {
        Some(pairs) => Ok(pairs),
        None => Ok(listed.pairs),
    }
}

// What is chosen of the pairs that are gathered, behind one sweep of them.
fn chosen_behind_sweep(
    alloc: Global,
    book: &Book,
    puts: &[Put],
    wanted: &[Pair],
    found: Found,
) -> Result<Pairs, Memory>
    requires whole { IsWhole book.now puts.now wanted.now found.pairs }
    requires table { IsTable puts.now found.pairs found.table }
    ensures list { IfOk result (IsPairList book.now puts.now wanted.now) }
    ensures inside { IfOk result (StaysInside book.now (put_at puts.now) wanted.now) }
{
    let Found { pairs, table } = found;
    let mut table = table;
    sweep(book, &mut table, pairs.as_slice());
    match chosen_of(alloc, book, &table, wanted)? {
        Some(chosen) => Ok(chosen),
        None => chosen_of_all(alloc, book, puts, wanted),
    }
}

/// The same pairs without those that no other one needs: each keeps one of its reasons. For the most part nothing is
/// chosen of what is gathered that is not shown; what is chosen then justifies itself, so no sweep is needed.
///
/// # Errors
///
/// `Memory` where memory is wanting.
pub fn pairs_for(alloc: Global, book: &Book, puts: &[Put], wanted: &[Pair]) -> Result<Pairs, Memory>
    ensures list { IfOk result (IsPairList book.now puts.now wanted.now) }
    ensures inside { IfOk result (StaysInside book.now (put_at puts.now) wanted.now) }
{
    let found = gathered(alloc, book, puts, wanted)?;
    match chosen_of(alloc, book, &found.table, wanted)? {
        Some(chosen) => Ok(chosen),
        None => chosen_behind_sweep(alloc, book, puts, wanted, found),
    }
}
