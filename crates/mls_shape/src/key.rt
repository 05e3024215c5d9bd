//! Sets of states of one polarity as the keys of a map.
ghost use Rattle.std.specs.Prelude.{◌≡◌, Some, bytes_eq, unwrap_or, IfOk, OnOk};
ghost use Rattle.std.proofs.Common.{rules};
ghost use Rattle.std.specs.BTreeMap.{Updates, get};
ghost use Rattle.std.specs.Cmp.{partial_equiv_from_equiv};
ghost use Rattle.std.specs.Cmp.Lexicographic.{slice_cmp};
ghost use Rattle.std.specs.Cmp.Rules.{comparing};
ghost use Rattle.std.specs.Ordering.{nat_cmp, as_partial_cmp};
ghost use Rattle.std.proofs.lemmas.Cmp.{nat_list_cmp_total, nat_list_eq_equiv};
ghost use Rattle.mls_automaton.specs.Sets.{Rises};
ghost use Rattle.mls_shape.specs.steps.Registers.{key_of, sign};

use mls_automaton::automaton::Polarity;
use mls_automaton::state_set::StateSet;
use mls_base::memory::Memory;
use std::alloc::Global;
use std::cmp::Ordering;
use std::collections::BTreeMap;
use std::marker::Model;

/// A polarity, as a number, and behind it the members of a set in rising order. Contracts see the list of them.
#[derive(Drop)]
pub struct Key {
    numbers: Vec<usize>,
}

impl Model for Key {
    ghost use Rattle.std.specs.Prelude.{List, ℕ};

    ghost Value = { List ℕ };

    ghost view = { λ k. k.numbers.items };
}

impl Key {
    /// The key of a set of states of this polarity.
    pub fn of(alloc: Global, polarity: Polarity, members: &StateSet) -> Result<Key, Memory>
        ensures key { IfOk result (λ key. key ≡ key_of polarity members.now) }
        ensures rises { OnOk result (Rises members.now) }
    {
        let mut numbers = vec![in alloc; sign(polarity)]?;
        numbers.extend_from_slice(members.as_slice())?;
        Ok(Key { numbers })
    }

    /// The key of these numbers.
    pub fn from_numbers(numbers: Vec<usize>) -> Key
        ensures { result ≡ numbers.items }
    {
        Key { numbers }
    }
}

/// The number of a key. A key that has none gets this one.
///
/// # Errors
///
/// `Memory` where memory is wanting.
pub fn number_or(numbers: &mut BTreeMap<Key, usize>, key: Key, new: usize) -> Result<usize, Memory>
    ensures number { IfOk result (λ number. number ≡ unwrap_or (get (slice_cmp nat_cmp) numbers.old key) new) }
    ensures updates { IfOk result (λ number. Updates (slice_cmp nat_cmp) numbers.old numbers.new key (Some number)) }
{
    let number = *numbers.entry(key)?.or_insert(new);
    Ok(number)
}

/// The number of a polarity.
pub fn sign(polarity: Polarity) -> usize
    ensures { result ≡ sign polarity }
{
    match polarity {
        Polarity::Positive => 0,
        Polarity::Negative => 1,
    }
}

impl PartialEq for Key {
    ghost eq = { bytes_eq };

    ghost laws = { partial_equiv_from_equiv nat_list_eq_equiv };

    fn eq(&self, other: &Key) -> bool {
        self.numbers.as_slice() == other.numbers.as_slice()
    }
}

impl Eq for Key {
    ghost laws = { nat_list_eq_equiv };
}

/// Keys are ordered by their first numbers that differ.
impl Ord for Key {
    ghost cmp = { slice_cmp nat_cmp };

    ghost total = { nat_list_cmp_total };

    ghost matches_partial_cmp = { Prim.search (comparing, rules) };

    ghost matches_eq = { Prim.search (comparing, rules) };

    fn cmp(&self, other: &Key) -> Ordering {
        self.numbers.as_slice().cmp(&other.numbers.as_slice())
    }
}

impl PartialOrd for Key {
    ghost partial_cmp = { as_partial_cmp (slice_cmp nat_cmp) };

    ghost laws = { Prim.search (comparing, rules) };

    fn partial_cmp(&self, other: &Key) -> Option<Ordering> {
        Some(self.cmp(other))
    }
}
