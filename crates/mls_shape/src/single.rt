//! Numbers of single states.
ghost use Rattle.std.specs.Prelude.{◌≡◌, [], None, get_or, OnOk};
ghost use Rattle.mls_shape.specs.steps.Registers.{PutsNumber};

use mls_base::memory::Memory;
use std::alloc::Global;
use std::marker::Model;

/// The numbers of some states. Contracts see the list of them, with a place for each state.
#[derive(Drop)]
pub struct Singles {
    numbers: Vec<Option<usize>>,
}

impl Model for Singles {
    ghost use Rattle.std.specs.Prelude.{List, Option, ℕ};

    ghost Value = { List (Option ℕ) };

    ghost view = { λ a. a.numbers.items };
}

impl Singles {
    /// No state has a number. It allocates nothing.
    pub fn new(alloc: Global) -> Singles
        ensures { result ≡ [] }
    {
        Singles {
            numbers: Vec::new(alloc),
        }
    }

    /// The number of the state, if it has one.
    pub fn get(&self, s: usize) -> Option<usize>
        ensures { result ≡ get_or self.now s None }
    {
        match self.numbers.get(s) {
            Some(number) => *number,
            None => None,
        }
    }

    /// Gives the state this number.
    ///
    /// # Errors
    ///
    /// `Memory` where memory is wanting.
    pub fn put(&mut self, s: usize, number: usize) -> Result<(), Memory>
        ensures { OnOk result (PutsNumber s number self.old self.new) }
    {
        while self.numbers.len() <= s {
            self.numbers.push(None)?;
        }
        self.numbers[s] = Some(number);
        Ok(())
    }
}
