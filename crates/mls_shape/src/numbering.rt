//! States of one key have one number.
ghost use Rattle.std.specs.Prelude.{◌≡◌, ◌<◌, ℕ, [], None, Some, length, OnOk};
ghost use Rattle.mls_shape.specs.steps.Classes.{AddsKey, known_in};

use crate::classes::Classes;
use crate::key::{Key, number_or};
use mls_base::memory::Memory;
use std::alloc::Global;
use std::collections::BTreeMap;

/// The numbers of the states so far, the first state of each number, and the number of each key.
#[derive(Drop)]
pub struct Numbering {
    pub classes: Classes,
    pub known: BTreeMap<Key, usize>,
}

impl Numbering {
    /// No state. It allocates nothing.
    pub fn new(alloc: Global) -> Numbering
        ensures numbers { result.classes.numbers.items ≡ [] }
        ensures chosen { result.classes.chosen.items ≡ [] }
        ensures known { (key : _) → known_in result key ≡ None }
    {
        Numbering {
            classes: Classes {
                numbers: Vec::new(alloc),
                chosen: Vec::new(alloc),
            },
            known: BTreeMap::new(alloc),
        }
    }

    /// The next state has this key.
    pub fn add(&mut self, key: Key) -> Result<(), Memory>
        requires { (key : _) (k : ℕ) → known_in self.old key ≡ Some k → k < length self.old.classes.chosen.items }
        ensures { OnOk result (AddsKey key self.old self.new) }
    {
        let next = self.classes.chosen.len();
        let number = number_or(&mut self.known, key, next)?;
        if number == next {
            self.classes.chosen.push(self.classes.numbers.len())?;
        }
        self.classes.numbers.push(number)?;
        Ok(())
    }
}
