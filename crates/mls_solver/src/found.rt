//! Related pairs that are found by each of their states, in space that grows with them and with the states.
ghost use Rattle.std.specs.Prelude.{◌≡◌, ◌↔◌, ℕ, ◌<◌, [], length, get_or, Contains, OnOk};
ghost use Rattle.mls_solver.specs.Rooms.{Holds};
ghost use Rattle.mls_solver.specs.steps.Growth.{Relates};

use crate::pairs::{Pairs, members, put};
use mls_automaton::state_set::{StateId, StateSet};
use mls_base::memory::Memory;
use std::alloc::Global;
use std::marker::Model;

/// Pairs of a positive and a negative state, in the order in which they were found. Contracts see a room without rows
/// and columns.
#[derive(Drop)]
pub struct Found {
    forward: Pairs,
    // for each negative state its positive ones, as far as there are any
    above: Vec<StateSet>,
}

impl Model for Found {
    ghost use Rattle.mls_solver.specs.Rooms.{Room};

    ghost Value = { Room };

    ghost use Rattle.mls_solver.specs.steps.FoundParts.{found_view, IsFound};

    ghost view = { found_view };

    ghost invariant = { IsFound };
}

impl Found {
    /// No pair. It allocates nothing.
    pub fn new(alloc: Global) -> Found
        ensures { result.pairs ≡ [] }
    {
        Found {
            forward: Pairs::new(alloc),
            above: Vec::new(alloc),
        }
    }

    /// How many pairs there are.
    pub fn len(&self) -> usize
        ensures { result ≡ length self.now.pairs }
    {
        self.forward.len()
    }

    /// The pair that was found at this place.
    pub fn pair(&self, i: usize) -> (StateId, StateId)
        requires { i < length self.now.pairs }
        ensures { (result.0.0, result.1.0) ≡ get_or self.now.pairs i (0, 0) }
    {
        self.forward.pair(i)
    }

    /// The negative states to which a positive one is related.
    pub fn below(&self, p: StateId) -> &[usize]
        ensures { (n : ℕ) → Contains result.now n ↔ Holds self.now p.0 n }
    {
        self.forward.below(p)
    }

    /// The positive states that are related to a negative one.
    pub fn above(&self, n: StateId) -> &[usize]
        ensures { (p : ℕ) → Contains result.now p ↔ Holds self.now p n.0 }
    {
        members(self.above.as_slice(), n.0)
    }

    // Holds the pair of these two states from now on. Where memory is wanting, no pair is left.
    pub(crate) fn add(&mut self, positive: usize, negative: usize) -> Result<(), Memory>
        ensures { OnOk result (Relates self.old self.new (λ p n. (p ≡ positive) × (n ≡ negative))) }
    {
        let alloc = self.forward.allocator();
        match self.forward.add(positive, negative) {
            Ok(false) => return Ok(()),
            Ok(true) => {
                if put(alloc, &mut self.above, negative, positive).is_ok() {
                    return Ok(());
                }
                self.forward = Pairs::new(alloc);
            }
            Err(_) => {}
        }
        self.above = Vec::new(alloc);
        Err(Memory)
    }
}
