//! The nodes that a search came to, in time that grows with their number alone.
ghost use Rattle.std.specs.Prelude.{◌≡◌, ◌↔◌, ◌++◌, ◌∷◌, ◌<◌, [], replicate, Contains, IfOk, OnOk, IsTrue};

use mls_base::memory::Memory;
use std::alloc::Global;
use std::marker::Model;

/// The nodes that a search came to, in the order in which it did. For each node of the book it keeps a number: the
/// place of the node among them if it is there, and else any. So nothing is cleared when the next search begins.
/// Contracts see how many nodes the book has, and those that the search came to.
#[derive(Drop)]
pub struct Visits {
    met: Vec<usize>,
    places: Vec<usize>,
}

impl Model for Visits {
    ghost use Rattle.mls_scheme.specs.steps.Visits.{Visited};

    ghost Value = { Visited };

    ghost use Rattle.std.specs.Prelude.{length};

    ghost view = { λ a. record { limit = length a.places.items; members = a.met.items } };

    ghost use Rattle.mls_scheme.specs.steps.Visits.{ArePlaced};

    ghost invariant = { λ a. ArePlaced a.met.items a.places.items };
}

// So many times 0.
fn zeros(alloc: Global, count: usize) -> Result<Vec<usize>, Memory>
    ensures { IfOk result (λ numbers. numbers.items ≡ replicate count 0) }
{
    let numbers = vec![in alloc; 0usize; count]?;
    Ok(numbers)
}

impl Visits {
    /// Of a book of so many nodes, none yet.
    ///
    /// # Errors
    ///
    /// `Memory` where memory is wanting.
    pub fn new(alloc: Global, limit: usize) -> Result<Visits, Memory>
        ensures limit { IfOk result (λ visits. visits.limit ≡ limit) }
        ensures members { IfOk result (λ visits. visits.members ≡ []) }
    {
        let places = zeros(alloc, limit)?;
        Ok(Visits {
            met: Vec::new(alloc),
            places,
        })
    }

    /// Begins another search.
    pub fn restart(&mut self)
        ensures limit { self.new.limit ≡ self.old.limit }
        ensures members { self.new.members ≡ [] }
    {
        self.met.clear();
    }

    /// Whether the search came to the node.
    pub fn contains(&self, i: usize) -> bool
        requires { i < self.now.limit }
        ensures { IsTrue result ↔ Contains self.now.members i }
    {
        let place = self.places[i];
        place < self.met.len() && self.met[place] == i
    }

    /// Comes to another node.
    ///
    /// # Errors
    ///
    /// `Memory` where memory is wanting.
    pub fn push(&mut self, i: usize) -> Result<(), Memory>
        requires in_range { i < self.old.limit }
        requires new { Contains self.old.members i → ⊥ }
        ensures limit { self.new.limit ≡ self.old.limit }
        ensures members { OnOk result (self.new.members ≡ self.old.members ++ i ∷ []) }
    {
        let place = self.met.len();
        self.met.push(i)?;
        self.places[i] = place;
        Ok(())
    }
}
