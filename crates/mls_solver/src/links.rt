//! Lists of places by their keys, that never take memory: places come one after another, each with a key.
ghost use Rattle.std.specs.Prelude.{◌≡◌, ℕ, ◌<◌, ◌++◌, ◌∷◌, List, [], length, get_or, replicate, IfOk};
ghost use Rattle.mls_solver.specs.steps.Links.{AreLinked, IsLatest, IsSameSpace};

use mls_base::memory::Memory;
use std::alloc::Global;
use std::marker::Model;

// The most places.
const MOST: usize = 0xFFFF_FFFF;

// Places by keys. It takes four bytes for each place and for each key, and no more as it grows.
// Contracts see the numbers; `AreLinked` says which keys the places have.
#[derive(Drop)]
pub struct Links {
    last: Vec<u32>,
    before: Vec<u32>,
    len: usize,
}

impl Model for Links {
    ghost use Rattle.mls_solver.specs.steps.Links.{LinkTable};

    ghost Value = { LinkTable };

    ghost use Rattle.std.specs.Prelude.{◌<◌, ◌≤◌, ◌^◌, length};

    ghost view = { λ a. record { last = a.last.items; before = a.before.items; len = a.len } };

    ghost invariant = { λ a. (length a.before.items < 2 ^ 32) × (a.len ≤ length a.before.items) };
}

// So many times 0.
fn zeros(alloc: Global, count: usize) -> Result<Vec<u32>, Memory>
    ensures { IfOk result (λ numbers. numbers.items ≡ replicate count 0) }
{
    let numbers = vec![in alloc; 0u32; count]?;
    Ok(numbers)
}

// Makes all numbers 0.
fn clear_all(numbers: &mut [u32])
    ensures { (r : ℕ) → get_or numbers.new r 0 ≡ 0 }
{
    for i in 0..numbers.len() {
        numbers[i] = 0;
    }
}

impl Links {
    // No place, and keys below a number.
    pub fn new(alloc: Global, keys: usize, limit: usize) -> Result<Links, Memory>
        ensures linked { IfOk result (AreLinked []) }
        ensures keys { IfOk result (λ links. length links.last ≡ keys) }
        ensures limit { IfOk result (λ links. length links.before ≡ limit) }
    {
        if limit > MOST {
            return Err(Memory);
        }
        let last = zeros(alloc, keys)?;
        let before = zeros(alloc, limit)?;
        Ok(Links {
            last,
            before,
            len: 0,
        })
    }

    // One more place, with this key.
    pub fn push(&mut self, key: usize)
        requires key { key < length self.old.last }
        requires space { self.old.len < length self.old.before }
        ensures linked { (keys : List ℕ) → AreLinked keys self.old → AreLinked (keys ++ key ∷ []) self.new }
        ensures space { IsSameSpace self.old self.new }
    {
        self.before[self.len] = self.last[key];
        self.len += 1;
        self.last[key] = self.len as u32;
    }

    // The number behind the latest place with this key, or 0.
    pub fn latest(&self, key: usize) -> usize
        requires { key < length self.now.last }
        ensures { (keys : List ℕ) → AreLinked keys self.now → IsLatest keys (length keys) key result }
    {
        self.last[key] as usize
    }

    // The number behind the latest place before this one with the same key, or 0.
    pub fn earlier(&self, k: usize) -> usize
        requires { k < self.now.len }
        ensures { (keys : List ℕ) → AreLinked keys self.now → k < length keys
            → IsLatest keys k (get_or keys k 0) result }
    {
        self.before[k] as usize
    }

    // Takes all places out, in time that grows with the number of keys.
    pub fn clear(&mut self)
        ensures linked { AreLinked [] self.new }
        ensures space { IsSameSpace self.old self.new }
    {
        clear_all(self.last.as_mut_slice());
        self.len = 0;
    }
}
