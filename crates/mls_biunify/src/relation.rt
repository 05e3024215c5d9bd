//! A relation between states that grows.
ghost use Rattle.std.specs.Prelude.{◌≡◌, ◌↔◌, ℕ, ◌<◌, ◌≤◌, [], length, get_or, All, Contains, OnErr, OnOk, IsTrue};
ghost use Rattle.mls_solver.specs.Rooms.{Holds};
ghost use Rattle.mls_solver.specs.steps.Growth.{BySome, Relates};

use crate::edges::Edges;
use mls_automaton::state_set::{StateId, StateSet};
use mls_base::memory::Memory;
use std::alloc::Global;
use std::marker::Model;

// Pairs of a positive and a negative state, in the order in which they were found, and found from both of their states.
// Contracts see a room without rows and columns, for numbers below a limit.
#[derive(Drop)]
pub struct Relation {
    pairs: Vec<(usize, usize)>,
    index: Edges,
}

impl Model for Relation {
    ghost use Rattle.mls_solver.specs.Rooms.{Room};

    ghost Value = { Room };

    ghost use Rattle.mls_biunify.specs.steps.Relating.{relation_view, IsRelation};

    ghost view = { relation_view };

    ghost invariant = { IsRelation };
}

impl Relation {
    // No pair. It allocates nothing.
    pub fn new(alloc: Global) -> Relation
        ensures { result.pairs ≡ [] }
    {
        Relation {
            pairs: Vec::new(alloc),
            index: Edges::new(alloc),
        }
    }

    // Makes room for so many more numbers.
    pub fn make_room(&mut self, more: usize) -> Result<(), Memory>
        ensures { self.new ≡ self.old }
    {
        self.index.make_room(more)
    }

    // Makes the numbers below this one fit.
    pub fn grow(&mut self, size: usize) -> Result<(), Memory>
        ensures positives { OnOk result (size ≤ self.new.positives) }
        ensures negatives { OnOk result (size ≤ self.new.negatives) }
        ensures longer { self.old.positives ≤ self.new.positives }
        ensures pairs { self.new.pairs ≡ self.old.pairs }
    {
        self.index.grow(size)
    }

    // Takes space for so many more pairs.
    pub fn reserve(&mut self, more: usize) -> Result<(), Memory>
        ensures { self.new ≡ self.old }
    {
        self.pairs.reserve(more)?;
        Ok(())
    }

    // The allocator of the relation.
    pub fn allocator(&self) -> Global {
        *self.pairs.allocator()
    }

    // How many pairs there are.
    pub fn len(&self) -> usize
        ensures { result ≡ length self.now.pairs }
    {
        self.pairs.len()
    }

    // The pair that was found at this place.
    pub fn pair(&self, i: usize) -> (StateId, StateId)
        requires { i < length self.now.pairs }
        ensures { (result.0.0, result.1.0) ≡ get_or self.now.pairs i (0, 0) }
    {
        let (positive, negative) = self.pairs[i];
        (StateId(positive), StateId(negative))
    }

    // Whether the pair is there.
    pub fn holds(&self, positive: StateId, negative: StateId) -> bool
        ensures { IsTrue result ↔ Holds self.now positive.0 negative.0 }
    {
        self.index.contains(positive.0, negative.0)
    }

    // The negative states to which a positive one is related.
    pub fn below(&self, p: StateId) -> &StateSet
        requires { p.0 < self.now.positives }
        ensures members { (n : ℕ) → Contains result.now n ↔ Holds self.now p.0 n }
        ensures low { (n : ℕ) → Contains result.now n → n < self.now.negatives }
    {
        self.index.after(p.0)
    }

    // The positive states that are related to a negative one.
    pub fn above(&self, n: StateId) -> &StateSet
        requires { n.0 < self.now.negatives }
        ensures members { (p : ℕ) → Contains result.now p ↔ Holds self.now p n.0 }
        ensures low { (p : ℕ) → Contains result.now p → p < self.now.positives }
    {
        self.index.before(n.0)
    }

    // Relates two states from now on.
    pub fn add(&mut self, positive: usize, negative: usize) -> Result<(), Memory>
        requires positive { positive < self.old.positives }
        requires negative { negative < self.old.negatives }
        ensures { OnOk result (Relates self.old self.new (λ p n. (p ≡ positive) × (n ≡ negative))) }
    {
        if self.index.contains(positive, negative) {
            return Ok(());
        }
        self.pairs.reserve(1)?;
        self.index.insert(positive, negative)?;
        // There is room for it.
        self.pairs.push((positive, negative))?;
        Ok(())
    }

    // Relates no states from now on, at the cost of the pairs that are there.
    pub fn clear(&mut self)
        ensures pairs { self.new.pairs ≡ [] }
        ensures positives { self.new.positives ≡ self.old.positives }
        ensures negatives { self.new.negatives ≡ self.old.negatives }
    {
        self.index.clear_pairs(self.pairs.as_slice());
        self.pairs.clear();
    }
}
