//! Pairs of states, numbered as they are found.
ghost use Rattle.std.specs.Prelude.{◌≡◌, ◌≢◌, ◌⊎◌, ◌<◌, ◌++◌, ◌∷◌, [], length, Contains, IfOk, IfSome, OnOk, OnErr};
ghost use Rattle.std.specs.Prelude.{Some, None, option_copied};
ghost use Rattle.mls_automaton.specs.Automata.{flow};
ghost use Rattle.mls_flow.specs.Pairs.{IsAt};
ghost use Rattle.mls_flow.specs.steps.Numbering.{number_in};

use mls_automaton::automaton::Flow;
use mls_automaton::state_set::StateId;
use mls_base::memory::Memory;
use std::alloc::Global;
use std::collections::BTreeMap;
use std::marker::Model;

/// Pairs of a negative and a positive state, each once. Contracts see them in the order of their numbers.
#[derive(Drop)]
pub struct Pairs {
    list: Vec<Flow>,
    // For each negative state the numbers of its pairs by their positive states.
    rows: Vec<BTreeMap<usize, usize>>,
}

impl Model for Pairs {
    ghost use Rattle.std.specs.Prelude.{length};
    ghost use Rattle.mls_flow.specs.Pairs.{Pairs};
    ghost use Rattle.mls_flow.specs.steps.Numbering.{IsNumbering};

    ghost Value = { Pairs };

    ghost view = { λ a. record { states = length a.rows.items; list = a.list.items } };

    ghost invariant = { λ a. IsNumbering a.list.items a.rows.items };
}

impl Pairs {
    /// No pair of so many states.
    ///
    /// # Errors
    ///
    /// `Memory` where memory is wanting.
    pub fn new(alloc: Global, states: usize) -> Result<Pairs, Memory>
        ensures { IfOk result (λ pairs. pairs ≡ record { states = states; list = [] }) }
    {
        let rows = no_numbers(alloc, states)?;
        Ok(Pairs {
            list: Vec::new(alloc),
            rows,
        })
    }

    /// The number of a pair, which is added if it is not there.
    ///
    /// # Errors
    ///
    /// `Memory` where memory is wanting.
    pub fn number(&mut self, negative: StateId, positive: StateId) -> Result<usize, Memory>
        requires { negative.0 < self.old.states }
        ensures states { OnOk result (self.new.states ≡ self.old.states) }
        ensures behind { OnOk result ((self.new.list ≡ self.old.list)
            ⊎ (self.new.list ≡ self.old.list ++ flow negative.0 positive.0 ∷ [])) }
        ensures number { IfOk result (λ k. IsAt self.new.list k negative.0 positive.0) }
    {
        if let Some(number) = find(self.rows.as_slice(), negative.0, positive.0) {
            return Ok(number);
        }
        let number = self.list.len();
        self.list.reserve(1)?;
        note(&mut self.rows, negative.0, positive.0, number)?;
        // There is room for it.
        self.list.push(Flow { negative, positive })?;
        Ok(number)
    }

    /// The number of a pair, if it is there.
    pub fn find(&self, negative: StateId, positive: StateId) -> Option<usize>
        ensures some { IfSome result (λ k. IsAt self.now.list k negative.0 positive.0) }
        ensures only { IfSome result (λ k. (j : _) → IsAt self.now.list j negative.0 positive.0 → j ≡ k) }
        ensures none { result ≡ None → (k : _) → IsAt self.now.list k negative.0 positive.0 → ⊥ }
    {
        find(self.rows.as_slice(), negative.0, positive.0)
    }

    /// How many pairs there are.
    pub fn len(&self) -> usize
        ensures { result ≡ length self.now.list }
    {
        self.list.len()
    }

    /// The pair with this number.
    pub fn get(&self, number: usize) -> Flow
        requires { number < length self.now.list }
        ensures { IsAt self.now.list number result.negative.0 result.positive.0 }
    {
        self.list[number]
    }
}

// So many empty maps.
fn no_numbers(alloc: Global, states: usize) -> Result<Vec<BTreeMap<usize, usize>>, Memory>
    ensures len { IfOk result (λ rows. length rows.items ≡ states) }
    ensures none { IfOk result (λ rows. (n p : _) → number_in rows.items n p ≡ None) }
{
    let mut rows = Vec::with_capacity(alloc, states)?;
    for _ in 0..states {
        rows.push(BTreeMap::new(alloc))?;
    }
    Ok(rows)
}

// The number of a pair.
fn find(rows: &[BTreeMap<usize, usize>], negative: usize, positive: usize) -> Option<usize>
    ensures { result ≡ number_in rows.now negative positive }
{
    match rows.get(negative) {
        Some(row) => row.get(&positive).copied(),
        None => None,
    }
}

// Notes the number of a pair.
fn note(
    rows: &mut Vec<BTreeMap<usize, usize>>,
    negative: usize,
    positive: usize,
    number: usize,
) -> Result<(), Memory>
    requires { negative < length rows.old.items }
    ensures len { length rows.new.items ≡ length rows.old.items }
    ensures here { OnOk result (number_in rows.new.items negative positive ≡ Some number) }
    ensures others { OnOk result ((n p : _) → (n ≢ negative) ⊎ (p ≢ positive)
        → number_in rows.new.items n p ≡ number_in rows.old.items n p) }
    ensures err { OnErr result ((n p : _) → number_in rows.new.items n p ≡ number_in rows.old.items n p) }
{
    rows[negative].insert(positive, number)?;
    Ok(())
}
