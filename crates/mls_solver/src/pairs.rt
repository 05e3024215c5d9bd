//! Related pairs that are found by the first of their states, in space that grows with them and with the states.
ghost use Rattle.std.specs.Prelude.{◌≡◌, ◌↔◌, ◌⊎◌, ℕ, ◌<◌, [], false, length, get_or, Contains, IfOk, OnOk, OnErr};
ghost use Rattle.mls_solver.specs.Rooms.{Holds};
ghost use Rattle.mls_solver.specs.steps.Finding.{HasMember};
ghost use Rattle.mls_solver.specs.steps.Growth.{Relates};

use mls_automaton::state_set::{StateId, StateSet};
use mls_base::memory::Memory;
use std::alloc::Global;
use std::marker::Model;

/// Pairs of a positive and a negative state, in the order in which they were found. Contracts see a room without rows
/// and columns.
#[derive(Drop)]
pub(crate) struct Pairs {
    list: Vec<(usize, usize)>,
    // for each positive state its negative ones, as far as there are any
    below: Vec<StateSet>,
}

impl Model for Pairs {
    ghost use Rattle.mls_solver.specs.Rooms.{Room};

    ghost Value = { Room };

    ghost use Rattle.mls_solver.specs.steps.PairParts.{pairs_view, ArePairs};

    ghost view = { pairs_view };

    ghost invariant = { ArePairs };
}

// Adds a member to a set, and answers whether it was not there.
fn add(set: &mut StateSet, member: usize) -> Result<bool, Memory>
    ensures more { OnOk result ((m : ℕ) → Contains set.new m ↔ (m ≡ member) ⊎ Contains set.old m) }
    ensures there { IfOk result (λ is_new. is_new ≡ false ↔ Contains set.old member) }
{
    if set.contains(StateId(member)) {
        return Ok(false);
    }
    set.insert(StateId(member))?;
    Ok(true)
}

// Adds empty sets until there is one of this number.
fn lengthen(alloc: Global, sets: &mut Vec<StateSet>, number: usize) -> Result<(), Memory>
    ensures same { OnOk result ((k m : ℕ) → HasMember sets.new.items k m ↔ HasMember sets.old.items k m) }
    ensures there { OnOk result (number < length sets.new.items) }
{
    while sets.len() <= number {
        sets.push(StateSet::new(alloc))?;
    }
    Ok(())
}

/// Adds a member to the set of a number, and answers whether it was not there.
pub(crate) fn put(
    alloc: Global,
    sets: &mut Vec<StateSet>,
    number: usize,
    member: usize,
) -> Result<bool, Memory>
    ensures more { OnOk result ((k m : ℕ) → HasMember sets.new.items k m ↔ HasMember sets.old.items k m
        ⊎ ((k ≡ number) × (m ≡ member))) }
    ensures there { IfOk result (λ is_new. is_new ≡ false ↔ HasMember sets.old.items number member) }
{
    lengthen(alloc, sets, number)?;
    let is_new = add(&mut sets[number], member)?;
    Ok(is_new)
}

/// The members of the set of a number.
pub(crate) fn members(sets: &[StateSet], number: usize) -> &[usize]
    ensures { (m : ℕ) → Contains result.now m ↔ HasMember sets.now number m }
{
    match sets.get(number) {
        Some(set) => set.as_slice(),
        None => &[],
    }
}

impl Pairs {
    /// No pair. It allocates nothing.
    pub(crate) fn new(alloc: Global) -> Pairs
        ensures { result.pairs ≡ [] }
    {
        Pairs {
            list: Vec::new(alloc),
            below: Vec::new(alloc),
        }
    }

    /// What the pairs lie in.
    pub(crate) fn allocator(&self) -> Global {
        *self.list.allocator()
    }

    /// How many pairs there are.
    pub(crate) fn len(&self) -> usize
        ensures { result ≡ length self.now.pairs }
    {
        self.list.len()
    }

    /// The pair that was found at this place.
    pub(crate) fn pair(&self, i: usize) -> (StateId, StateId)
        requires { i < length self.now.pairs }
        ensures { (result.0.0, result.1.0) ≡ get_or self.now.pairs i (0, 0) }
    {
        let (positive, negative) = self.list[i];
        (StateId(positive), StateId(negative))
    }

    /// The negative states to which a positive one is related.
    pub(crate) fn below(&self, p: StateId) -> &[usize]
        ensures { (n : ℕ) → Contains result.now n ↔ Holds self.now p.0 n }
    {
        members(self.below.as_slice(), p.0)
    }

    /// Holds the pair of these two states from now on, and answers whether it did not before. Where memory is wanting,
    /// no pair is left.
    pub(crate) fn add(&mut self, positive: usize, negative: usize) -> Result<bool, Memory>
        ensures pair { OnOk result (Relates self.old self.new (λ p n. (p ≡ positive) × (n ≡ negative))) }
        ensures there { IfOk result (λ is_new. is_new ≡ false ↔ Holds self.old positive negative) }
        ensures unchanged { IfOk result (λ is_new. is_new ≡ false → self.new ≡ self.old) }
        ensures none { OnErr result (self.new.pairs ≡ []) }
    {
        let alloc = *self.list.allocator();
        match put(alloc, &mut self.below, positive, negative) {
            Ok(false) => return Ok(false),
            Ok(true) => {
                if self.list.push((positive, negative)).is_ok() {
                    return Ok(true);
                }
            }
            Err(_) => {}
        }
        self.list.clear();
        self.below = Vec::new(alloc);
        Err(Memory)
    }
}
