//! The pairs that the rules name for wanted pairs, for those that they name, and so on.
ghost use Rattle.std.specs.Prelude.{◌≡◌, ℕ, ◌<◌, ◌∷◌, [], get_or, length, IfOk, OnOk};
ghost use Rattle.mls_deriv.specs.Pairs.{put_at};
ghost use Rattle.mls_deriv.specs.inner.Tables.{put_in};
ghost use Rattle.mls_pairs.specs.Lines.{IsTable};
ghost use Rattle.mls_pairs.specs.steps.Growth.{Finds, FindsNeeds, IsFound};
ghost use Rattle.mls_pairs.specs.steps.Needs.{needs_by};
ghost use Rattle.mls_pairs.specs.steps.Rounds.{IsWhole};

use crate::lines::table_with;
use crate::needs::{needs_of, own_needs};
use crate::pairs::Pairs;
use mls_base::memory::Memory;
use mls_book::book::Book;
use mls_deriv::claim::{Pair, Put};
use mls_deriv::derivation::Mode;
use mls_deriv::table::Table;
use std::alloc::Global;

// How many pairs a step has for the most part, or less.
const EXPECTED: usize = 32;

/// Pairs in the order in which they were found, each once, and the table of them and of the nodes of variables.
#[derive(Drop)]
pub(crate) struct Found {
    pub(crate) pairs: Pairs,
    pub(crate) table: Table,
}

impl Found {
    /// No pair, and these nodes of variables.
    ///
    /// # Errors
    ///
    /// `Memory` where memory is wanting.
    pub(crate) fn new(alloc: Global, puts: &[Put]) -> Result<Found, Memory>
        ensures found { IfOk result IsFound }
        ensures empty { IfOk result (λ found. found.pairs ≡ []) }
        ensures puts { IfOk result (λ found. (x : ℕ) → put_in found.table x ≡ put_at puts.now x) }
    {
        let mut pairs = Pairs::new(alloc);
        pairs.reserve(EXPECTED)?;
        let table = table_with(alloc, puts, &pairs)?;
        Ok(Found { pairs, table })
    }

    // Adds a pair, unless it is there.
    fn add(&mut self, pair: Pair) -> Result<(), Memory>
        requires { IsFound self.old }
        ensures { OnOk result (Finds self.old self.new (pair ∷ [])) }
    {
        if self.table.add_pair(pair.mode, pair.left, pair.right)? {
            self.pairs.push(pair)?;
        }
        Ok(())
    }

    /// Adds pairs.
    ///
    /// # Errors
    ///
    /// `Memory` where memory is wanting.
    pub(crate) fn add_all(&mut self, pairs: &[Pair]) -> Result<(), Memory>
        requires { IsFound self.old }
        ensures { OnOk result (Finds self.old self.new pairs.now) }
    {
        for pair in pairs {
            self.add(*pair)?;
        }
        Ok(())
    }

    /// How many pairs there are.
    pub(crate) fn len(&self) -> usize
        ensures { result ≡ length self.now.pairs }
    {
        self.pairs.len()
    }

    /// The pair at this place.
    pub(crate) fn at(&self, place: usize) -> Pair
        requires { place < length self.now.pairs }
        ensures { get_or self.now.pairs place result ≡ result }
    {
        self.pairs.as_slice()[place]
    }

    // Adds what is gathered for a pair. One of a node with itself, read plainly, needs nothing.
    fn add_needs(
        &mut self,
        alloc: Global,
        book: &Book,
        alone: bool,
        pair: Pair,
    ) -> Result<(), Memory>
        requires { IsFound self.old }
        ensures { OnOk result (FindsNeeds alone book.now (put_in self.old.table) self.old self.new pair) }
    {
        if pair.mode == Mode::Pp && pair.left == pair.right {
            return Ok(());
        }
        let needs = needs_by(alloc, book, &self.table, alone, pair)?;
        self.add_all(needs.as_slice())?;
        Ok(())
    }
}

// What is gathered for a pair: what the rules name, or less where it holds by itself, as variables stand for themselves.
fn needs_by(
    alloc: Global,
    book: &Book,
    table: &Table,
    alone: bool,
    pair: Pair,
) -> Result<Pairs, Memory>
    ensures { IfOk result (λ needs. needs ≡ needs_by alone book.now (put_in table.now) pair) }
{
    if alone {
        if let Some(own) = own_needs(alloc, book, pair)? {
            return Ok(own);
        }
    }
    needs_of(alloc, book, table, pair)
}

/// The wanted pairs and all that is gathered for pairs of the list, with their table.
pub(crate) fn gathered(
    alloc: Global,
    book: &Book,
    puts: &[Put],
    wanted: &[Pair],
) -> Result<Found, Memory>
    ensures whole { IfOk result (λ found. IsWhole book.now puts.now wanted.now found.pairs) }
    ensures table { IfOk result (λ found. IsTable puts.now found.pairs found.table) }
{
    let alone = puts.is_empty();
    let mut found = Found::new(alloc, puts)?;
    found.add_all(wanted)?;
    let mut next = 0;
    while next < found.len() {
        let pair = found.at(next);
        found.add_needs(alloc, book, alone, pair)?;
        next += 1;
    }
    Ok(found)
}
