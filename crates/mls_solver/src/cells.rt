//! Sets of numbers that never take memory: numbers below a limit, in the order in which they came.
ghost use Rattle.std.specs.Prelude.{◌≡◌, ◌↔◌, ◌++◌, ◌∷◌, ◌<◌, ◌≤◌, ◌^◌, ◌&&◌, ℕ, false, not, [], length, get_or};
ghost use Rattle.std.specs.Prelude.{replicate, All, Contains, IfOk, IsTrue};
ghost use Rattle.mls_solver.specs.steps.Numbers.{Inserts};
ghost use Rattle.mls_solver.specs.steps.Among.{is_among};

use mls_base::memory::Memory;
use std::alloc::Global;
use std::marker::Model;

// The most numbers that a set can have.
const MOST: usize = 0x1_0000_0000;

// A set of numbers below a limit. It takes five bytes for each number below its limit, and no more as it grows.
// Contracts see the limit and the list of the members in the order in which they came.
#[derive(Drop)]
pub struct Cells {
    marks: Vec<bool>,
    order: Vec<u32>,
    len: usize,
}

impl Model for Cells {
    ghost use Rattle.mls_solver.specs.steps.Numbers.{Numbers};

    ghost Value = { Numbers };

    ghost use Rattle.std.specs.Prelude.{length, take};
    ghost use Rattle.mls_solver.specs.steps.Cells.{IsCells};

    ghost view = { λ a. record { limit = length a.marks.items; members = take a.len a.order.items } };

    ghost invariant = { IsCells };
}

// Takes the marks away at these places.
fn unmark(marks: &mut [bool], members: &[u32])
    requires { All (λ x. x < length marks.old) members.now }
    ensures { (x : ℕ) → get_or marks.new x false ≡ (get_or marks.old x false && not (is_among members.now x)) }
{
    for x in members {
        marks[*x as usize] = false;
    }
}

// So many times `false`.
fn falses(alloc: Global, count: usize) -> Result<Vec<bool>, Memory>
    ensures { IfOk result (λ marks. marks.items ≡ replicate count false) }
{
    let marks = vec![in alloc; false; count]?;
    Ok(marks)
}

// So many times 0.
fn zeros(alloc: Global, count: usize) -> Result<Vec<u32>, Memory>
    ensures { IfOk result (λ order. order.items ≡ replicate count 0) }
{
    let order = vec![in alloc; 0u32; count]?;
    Ok(order)
}

impl Cells {
    // The set of no number.
    pub fn new(alloc: Global, limit: usize) -> Result<Cells, Memory>
        ensures limit { IfOk result (λ cells. cells.limit ≡ limit) }
        ensures small { IfOk result (λ cells. cells.limit ≤ 2 ^ 32) }
        ensures members { IfOk result (λ cells. cells.members ≡ []) }
    {
        if limit > MOST {
            return Err(Memory);
        }
        let marks = falses(alloc, limit)?;
        let order = zeros(alloc, limit)?;
        Ok(Cells {
            marks,
            order,
            len: 0,
        })
    }

    // How many members there are.
    pub fn len(&self) -> usize
        ensures len { result ≡ length self.now.members }
        ensures bound { result ≤ self.now.limit }
    {
        self.len
    }

    // The number that came at this place.
    pub fn get(&self, i: usize) -> usize
        requires { i < length self.now.members }
        ensures { result ≡ get_or self.now.members i 0 }
    {
        self.order[i] as usize
    }

    // Whether the number is a member.
    pub fn contains(&self, x: usize) -> bool
        requires { x < self.now.limit }
        ensures { IsTrue result ↔ Contains self.now.members x }
    {
        self.marks[x]
    }

    // Adds a number. One that is a member stays where it is.
    pub fn insert(&mut self, x: usize)
        requires { x < self.old.limit }
        ensures { Inserts self.old self.new (λ y. y ≡ x) }
    {
        if !self.contains(x) {
            self.push(x);
        }
    }

    // Adds a number that is no member, at the end.
    pub fn push(&mut self, x: usize)
        requires in_range { x < self.old.limit }
        requires new { Contains self.old.members x → ⊥ }
        ensures members { self.new.members ≡ self.old.members ++ x ∷ [] }
        ensures limit { self.new.limit ≡ self.old.limit }
        ensures bound { length self.new.members ≤ self.new.limit }
    {
        self.marks[x] = true;
        self.order[self.len] = x as u32;
        self.len += 1;
    }

    // Takes all members out, in time that grows with their number.
    pub fn clear(&mut self)
        ensures limit { self.new.limit ≡ self.old.limit }
        ensures members { self.new.members ≡ [] }
    {
        unmark(self.marks.as_mut_slice(), &self.order[..self.len]);
        self.len = 0;
    }
}
