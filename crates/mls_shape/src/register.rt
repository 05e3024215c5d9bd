//! Sets of states of one polarity, with their numbers.
ghost use Rattle.std.specs.Prelude.{◌≡◌, ◌≢◌, ◌∷◌, [], length, IfOk, OnOk};
ghost use Rattle.mls_automaton.specs.Sets.{Rises};
ghost use Rattle.mls_shape.specs.steps.Registers.{IsRegister, sets_in, single_in, Numbers, PutsSingle};

use crate::key::{Key, number_or};
use crate::single::Singles;
use mls_automaton::automaton::Polarity;
use mls_automaton::state_set::StateSet;
use mls_base::memory::Memory;
use std::alloc::Global;
use std::collections::BTreeMap;

/// A set of states of one polarity. The empty set is there once for each polarity.
#[derive(Drop)]
pub struct SetState {
    pub polarity: Polarity,
    pub members: StateSet,
}

/// The sets in the order in which they were found, and the number of each. Most sets have one state, whose number
/// stands at the state.
#[derive(Drop)]
pub struct Register {
    pub sets: Vec<SetState>,
    pub positive: Singles,
    pub negative: Singles,
    pub numbers: BTreeMap<Key, usize>,
}

impl Register {
    /// No set. It allocates nothing.
    pub fn new(alloc: Global) -> Register
        ensures register { IsRegister result }
        ensures sets { sets_in result ≡ [] }
    {
        Register {
            sets: Vec::new(alloc),
            positive: Singles::new(alloc),
            negative: Singles::new(alloc),
            numbers: BTreeMap::new(alloc),
        }
    }

    /// The number of a set of states of this polarity. A new set gets the next number.
    ///
    /// # Errors
    ///
    /// `Memory` where memory is wanting.
    pub fn number_of(
        &mut self,
        alloc: Global,
        polarity: Polarity,
        members: StateSet,
    ) -> Result<usize, Memory>
        requires register { IsRegister self.old }
        ensures register { OnOk result (IsRegister self.new) }
        ensures number { IfOk result (Numbers polarity members (sets_in self.old) (sets_in self.new)) }
    {
        match members.as_slice() {
            [only] => {
                let only = *only;
                self.number_of_one(polarity, only, members)
            }
            _ => self.number_of_many(alloc, polarity, members),
        }
    }

    // The number of the set of one state.
    fn number_of_one(
        &mut self,
        polarity: Polarity,
        s: usize,
        members: StateSet,
    ) -> Result<usize, Memory>
        requires register { IsRegister self.old }
        requires one { members ≡ s ∷ [] }
        ensures register { OnOk result (IsRegister self.new) }
        ensures number { IfOk result (Numbers polarity members (sets_in self.old) (sets_in self.new)) }
    {
        if let Some(number) = self.single(polarity, s) {
            return Ok(number);
        }
        let number = self.sets.len();
        self.sets.push(SetState { polarity, members })?;
        self.put_single(polarity, s, number)?;
        Ok(number)
    }

    // The number of a set of no state, or of several.
    fn number_of_many(
        &mut self,
        alloc: Global,
        polarity: Polarity,
        members: StateSet,
    ) -> Result<usize, Memory>
        requires register { IsRegister self.old }
        requires many { length members ≢ 1 }
        ensures register { OnOk result (IsRegister self.new) }
        ensures number { IfOk result (Numbers polarity members (sets_in self.old) (sets_in self.new)) }
    {
        let key = Key::of(alloc, polarity, &members)?;
        let next = self.sets.len();
        let number = number_or(&mut self.numbers, key, next)?;
        if number == next {
            self.sets.push(SetState { polarity, members })?;
        }
        Ok(number)
    }

    // The number of the set of this state alone, if it has one.
    fn single(&self, polarity: Polarity, s: usize) -> Option<usize>
        ensures { result ≡ single_in self.now polarity s }
    {
        match polarity {
            Polarity::Positive => self.positive.get(s),
            Polarity::Negative => self.negative.get(s),
        }
    }

    // Gives the set of this state alone a number.
    fn put_single(&mut self, polarity: Polarity, s: usize, number: usize) -> Result<(), Memory>
        ensures { OnOk result (PutsSingle polarity s number self.old self.new) }
    {
        match polarity {
            Polarity::Positive => self.positive.put(s, number),
            Polarity::Negative => self.negative.put(s, number),
        }
    }
}
