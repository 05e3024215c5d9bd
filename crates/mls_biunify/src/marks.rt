//! Sets of numbers that walks have found.
ghost use Rattle.std.specs.Prelude.{◌≡◌, ◌↔◌, ◌<◌, ℕ, false, [], length, get_or, All, OnOk, IsTrue};
ghost use Rattle.mls_biunify.specs.steps.Marking.{IsUnmarked, WasFound};

use mls_base::memory::Memory;
use std::alloc::Global;
use std::collections::BTreeSet;
use std::marker::Model;

// A set of numbers, to which a walk adds.
pub trait Found: Drop {
    ghost use Rattle.std.specs.Prelude.{ℕ, List, IfOk};
    ghost use Rattle.mls_biunify.specs.steps.Marking.{FindsNumber};

    // The numbers that were found.
    ghost members: { Self → List ℕ };

    // Finds a number, and tells whether it is new.
    fn find(&mut self, s: usize) -> Result<bool, Memory>
        ensures { IfOk result (λ is_new. FindsNumber (members self.old) s (members self.new) is_new) };
}

impl Found for BTreeSet<usize> {
    ghost members = { λ set. set.keys };

    fn find(&mut self, s: usize) -> Result<bool, Memory> {
        let is_new = self.insert(s)?;
        Ok(is_new)
    }
}

// The numbers that were found, and for each number whether it is one of them. The list of marks stays when the numbers
// go, and serves the next walk.
#[derive(Drop)]
pub struct Marks {
    found: Vec<usize>,
    is_found: Vec<bool>,
}

impl Model for Marks {
    ghost use Rattle.std.specs.Prelude.{List, ℕ};
    ghost use Rattle.mls_biunify.specs.steps.Marking.{AreMarks};

    ghost Value = { List ℕ };

    ghost view = { λ a. a.found.items };

    ghost invariant = { λ a. AreMarks a.found.items a.is_found.items };
}

impl Marks {
    // No number. It allocates nothing.
    pub fn new(alloc: Global) -> Marks
        ensures { result ≡ [] }
    {
        Marks {
            found: Vec::new(alloc),
            is_found: Vec::new(alloc),
        }
    }

    // Whether the number was found.
    pub fn contains(&self, s: usize) -> bool
        ensures { IsTrue result ↔ WasFound self.now s }
    {
        s < self.is_found.len() && self.is_found[s]
    }

    // The numbers that were found, in the order in which they were.
    pub fn as_slice(&self) -> &[usize]
        ensures { result.now ≡ self.now }
    {
        self.found.as_slice()
    }

    // Takes all numbers out, in time linear in how many they are.
    pub fn clear(&mut self)
        ensures { self.new ≡ [] }
    {
        unmark(&mut self.is_found, self.found.as_slice());
        self.found.clear();
    }
}

impl Found for Marks {
    ghost members = { λ found. found };

    fn find(&mut self, s: usize) -> Result<bool, Memory> {
        if self.contains(s) {
            return Ok(false);
        }
        grow(&mut self.is_found, s)?;
        self.found.push(s)?;
        self.is_found[s] = true;
        Ok(true)
    }
}

// Numbers up to this one may have marks from now on.
fn grow(marks: &mut Vec<bool>, s: usize) -> Result<(), Memory>
    ensures size { OnOk result (s < length marks.new.items) }
    ensures same { (j : ℕ) → get_or marks.new.items j false ≡ get_or marks.old.items j false }
{
    while marks.len() <= s {
        marks.push(false)?;
    }
    Ok(())
}

// Takes the marks of these numbers away.
fn unmark(marks: &mut Vec<bool>, numbers: &[usize])
    requires { All (λ s. s < length marks.old.items) numbers.now }
    ensures { IsUnmarked marks.old.items numbers.now marks.new.items }
{
    for s in numbers {
        marks[*s] = false;
    }
}
