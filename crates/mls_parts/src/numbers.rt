//! Maps from numbers, which mostly come in rising order.
ghost use Rattle.std.specs.Prelude.{◌≡◌, ◌<◌, IfErr, IfOk, IsTrue, OnOk, Some, None, length};
ghost use Rattle.std.specs.BTreeMap.{IsEmpty, Updates, get};
ghost use Rattle.std.specs.Option.{option_copied};
ghost use Rattle.std.specs.Ordering.{nat_cmp};
ghost use Rattle.mls_parts.specs.NumberMaps.{AreRising, EndsEmpty, IsAt, IsGapFor, held};

use mls_base::memory::Memory;
use std::alloc::Global;
use std::marker::Model;

/// A map from numbers to items. The entries stand in the order of their numbers, so an item comes at once if its number
/// is above all others, and an item is found at once if no number is missing between its own and the last one. An item
/// that comes in the midst moves those behind it. An entry whose item was taken out stays without one, until no item is
/// behind it. Contracts see the map.
#[derive(Drop)]
pub struct NumberMap<T> {
    entries: Vec<(usize, Option<T>)>,
}

impl<T> Model for NumberMap<T> {
    ghost use Rattle.std.specs.Prelude.{ℕ};
    ghost use Rattle.std.specs.BTreeMap.{BTreeMap};
    ghost use Rattle.std.specs.Coded.{coded_ℕ};
    ghost use Rattle.std_collections.specs.Layout.BTreeMap.{btree_map_code};
    ghost use Rattle.mls_parts.specs.NumberMaps.{AreRising, map_of};

    ghost Value = { BTreeMap ℕ T };

    ghost coded = { btree_map_code coded_ℕ T.code };

    ghost view = { λ a. map_of a.entries.items };

    ghost invariant = { λ a. AreRising a.entries.items };
}

impl<T: Drop> NumberMap<T> {
    /// No item. It allocates nothing.
    pub fn new(alloc: Global) -> NumberMap<T>
        ensures empty { IsEmpty result }
    {
        NumberMap {
            entries: Vec::new(alloc),
        }
    }

    /// The item at a number.
    pub fn get(&self, number: usize) -> Option<&T>
        ensures { option_copied result ≡ get nat_cmp self.now number }
    {
        match place(&self.entries, number) {
            Ok(at) => self.entries[at].1.as_ref(),
            Err(_) => None,
        }
    }

    /// Puts an item at a number, and answers the one that was there.
    ///
    /// # Errors
    ///
    /// `Memory` where memory is wanting.
    pub fn insert(&mut self, number: usize, item: T) -> Result<Option<T>, Memory>
        ensures old { IfOk result (λ old. old ≡ get nat_cmp self.old number) }
        ensures updates { OnOk result (Updates nat_cmp self.old self.new number (Some item)) }
    {
        match place(&self.entries, number) {
            Ok(at) => Ok(self.entries[at].1.replace(item)),
            Err(at) => {
                self.entries.insert(at, (number, Some(item)))?;
                Ok(None)
            }
        }
    }

    /// Takes out the item at a number.
    pub fn remove(&mut self, number: usize) -> Option<T>
        ensures value { result ≡ get nat_cmp self.old number }
        ensures updates { Updates nat_cmp self.old self.new number None }
    {
        match place(&self.entries, number) {
            Ok(at) => {
                let item = self.entries[at].1.take();
                trim(&mut self.entries);
                item
            }
            Err(_) => None,
        }
    }
}

// Where the entry of a number is, or where it would go. Looked at are the last entry, and the place where the number
// stands if none is missing between it and the last one.
fn place<T>(entries: &[(usize, Option<T>)], number: usize) -> Result<usize, usize>
    requires { AreRising entries.now }
    ensures found { IfOk result (IsAt entries.now number) }
    ensures absent { IfErr result (IsGapFor entries.now number) }
{
    let len = entries.len();
    if len == 0 || entries[len - 1].0 < number {
        return Err(len);
    }
    place_below(entries, number, entries[len - 1].0 - number)
}

// The same of a number that is so far below the last one, or it.
fn place_below<T>(
    entries: &[(usize, Option<T>)],
    number: usize,
    below: usize,
) -> Result<usize, usize>
    requires rising { AreRising entries.now }
    requires some { 0 < length entries.now }
    ensures found { IfOk result (IsAt entries.now number) }
    ensures absent { IfErr result (IsGapFor entries.now number) }
{
    let guess = (entries.len() - 1).saturating_sub(below);
    if entries[guess].0 == number {
        Ok(guess)
    } else {
        entries.binary_search_by_key(&number, |entry| entry.0)
    }
}

// Whether the last entry has no item.
fn ends_empty<T>(entries: &[(usize, Option<T>)]) -> bool
    ensures { IsTrue result → EndsEmpty entries.now }
{
    match entries.last() {
        Some((_, item)) => item.is_none(),
        None => false,
    }
}

// Takes out the last entries as long as they have no item.
fn trim<T: Drop>(entries: &mut Vec<(usize, Option<T>)>)
    requires { AreRising entries.old.items }
    ensures rising { AreRising entries.new.items }
    ensures held { held entries.new.items ≡ held entries.old.items }
{
    while ends_empty(entries) {
        entries.pop();
    }
}
