//! Lists that are short for the most part.
ghost use Rattle.std.specs.Prelude.{◌≡◌, ◌↔◌, ◌++◌, ◌∷◌, [], length, OnOk, OnErr, IsTrue};

use mls_base::memory::Memory;
use mls_book::book::NodeId;
use mls_deriv::claim::Pair;
use mls_deriv::derivation::Mode;
use std::alloc::Global;
use std::marker::Model;

// How many items need no allocation.
const FEW: usize = 2;

/// What stands in the places of a short list that have no item.
pub trait Blank: Copy + Drop {
    fn blank() -> Self;
}

impl Blank for NodeId {
    fn blank() -> NodeId {
        NodeId(0)
    }
}

impl Blank for Pair {
    fn blank() -> Pair {
        Pair {
            mode: Mode::Pp,
            left: 0,
            right: 0,
        }
    }
}

/// A list of items in order, of which the first two need no allocation. Contracts see the list.
#[derive(Drop)]
pub struct ShortList<T> {
    few: [T; FEW],
    count: usize,
    // All items, where there are more.
    many: Vec<T>,
}

impl<T> Model for ShortList<T> {
    ghost use Rattle.std.specs.Prelude.{List};
    ghost use Rattle.std.specs.Prelude.{◌≤◌, take};
    ghost use Rattle.mls_pairs.specs.steps.ShortLists.{short_items};

    ghost Value = { List T };

    ghost view = { λ a. short_items (take a.count a.few) a.many.items };

    ghost invariant = { λ a. a.count ≤ 2 };
}

impl<T: Blank> ShortList<T> {
    /// No item. It allocates nothing.
    pub fn new(alloc: Global) -> ShortList<T>
        ensures { result ≡ [] }
    {
        ShortList {
            few: [T::blank(); FEW],
            count: 0,
            many: Vec::new(alloc),
        }
    }

    /// Adds an item at the end.
    ///
    /// # Errors
    ///
    /// `Memory` where memory is wanting; the list is then as before.
    pub fn push(&mut self, item: T) -> Result<(), Memory>
        ensures ok { OnOk result (self.new ≡ self.old ++ item ∷ []) }
        ensures err { OnErr result (self.new ≡ self.old) }
    {
        if self.many.is_empty() {
            if self.count < FEW {
                self.few[self.count] = item;
                self.count += 1;
                return Ok(());
            }
            self.many.extend_from_slice(&self.few)?;
        }
        self.many.push(item)?;
        Ok(())
    }

    /// Makes room for so many items, which then come without moving those that are there.
    ///
    /// # Errors
    ///
    /// `Memory` where memory is wanting.
    pub fn reserve(&mut self, items: usize) -> Result<(), Memory>
        ensures { self.new ≡ self.old }
    {
        self.many.reserve_exact(items)?;
        Ok(())
    }

    /// How many items there are.
    pub fn len(&self) -> usize
        ensures { result ≡ length self.now }
    {
        self.as_slice().len()
    }

    /// Whether there is none.
    pub fn is_empty(&self) -> bool
        ensures { IsTrue result ↔ (self.now ≡ []) }
    {
        self.as_slice().is_empty()
    }

    /// The items in order.
    pub fn as_slice(&self) -> &[T]
        ensures { result.now ≡ self.now }
    {
        if self.many.is_empty() {
            &self.few[..self.count]
        } else {
            self.many.as_slice()
        }
    }
}
