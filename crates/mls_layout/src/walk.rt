//! The pairs of states of two types that a walk from their roots and binders meets.
ghost use Rattle.std.specs.Prelude.{◌≡◌, ◌↔◌, ◌<◌, ℕ, [], All, Contains, IfOk, IsTrue, OnOk, length};
ghost use Rattle.std.specs.BTreeMap.{get};
ghost use Rattle.std.specs.Ordering.{nat_cmp};
ghost use Rattle.mls_automaton.specs.Automata.{head_at};
ghost use Rattle.mls_automaton.specs.Environments.{BindersRise};
ghost use Rattle.mls_automaton.specs.Heads.{AreRising};
ghost use Rattle.mls_layout.specs.Walks.{AreAlike, AreMet, IsEnd, IsOfArms, IsOfField, IsOfFields, IsOfFunctions};
ghost use Rattle.mls_layout.specs.Walks.{IsOfHeads, IsOfRecords, IsOfSets, IsPairAlike, IsThis};
ghost use Rattle.mls_layout.specs.steps.Walking.{AreStatesOf, IsAlikeIn, IsMarked, IsOfEntries, IsOfEntry, IsThisAlike};
ghost use Rattle.mls_layout.specs.steps.Walking.{Lists, Meets};

use mls_automaton::automaton::{Arms, Automaton, FieldSet, FieldSets, Head};
use mls_automaton::lookup::set_of;
use mls_automaton::scheme::{EnvEntry, Scheme};
use mls_automaton::state_set::{StateId, StateSet};
use mls_base::list::List;
use mls_base::memory::Memory;
use mls_subsume::verdict::StatePair;
use std::alloc::Global;
use std::collections::{BTreeMap, BTreeSet};

// Pairs of numbers of states: one of the general type, and one of the special type.
type Numbers = List<(usize, usize)>;

// Pairs of states of one polarity in the order in which they were met, each once.
#[derive(Drop)]
struct Met {
    pairs: List<StatePair>,
    marked: BTreeSet<(usize, usize)>,
}

impl Met {
    // No pair.
    fn new(alloc: Global) -> Met
        ensures pairs { result.pairs ≡ [] }
        ensures marked { IsMarked result.marked result.pairs }
    {
        Met {
            pairs: List::new(alloc),
            marked: BTreeSet::new(alloc),
        }
    }

    // How many pairs there are.
    fn len(&self) -> usize
        ensures { result ≡ length self.now.pairs }
    {
        self.pairs.len()
    }

    // Adds a pair, unless it is there.
    fn add(&mut self, pair: (usize, usize)) -> Result<(), Memory>
        requires { IsMarked self.old.marked self.old.pairs }
        ensures marked { OnOk result (IsMarked self.new.marked self.new.pairs) }
        ensures meets { OnOk result (Meets (IsThis pair) self.old.pairs self.new.pairs) }
    {
        if self.marked.contains(&pair) {
            return Ok(());
        }
        self.marked.insert(pair)?;
        let (general, special) = pair;
        self.pairs.push(StatePair {
            general: StateId(general),
            special: StateId(special),
        })?;
        Ok(())
    }

    // Adds a pair, if its states are there and have one polarity.
    fn add_if_alike(
        &mut self,
        general: &Automaton,
        special: &Automaton,
        pair: (usize, usize),
    ) -> Result<(), Memory>
        requires { IsMarked self.old.marked self.old.pairs }
        ensures marked { OnOk result (IsMarked self.new.marked self.new.pairs) }
        ensures meets { OnOk result (Meets (IsThisAlike general.now special.now pair) self.old.pairs self.new.pairs) }
    {
        if !are_alike(general, special, pair) {
            return Ok(());
        }
        self.add(pair)?;
        Ok(())
    }

    // Adds those of the pairs whose states are there and have one polarity.
    fn add_alike(
        &mut self,
        general: &Automaton,
        special: &Automaton,
        pairs: &Numbers,
    ) -> Result<(), Memory>
        requires { IsMarked self.old.marked self.old.pairs }
        ensures marked { OnOk result (IsMarked self.new.marked self.new.pairs) }
        ensures meets { OnOk result (Meets (IsAlikeIn general.now special.now pairs.now) self.old.pairs
            self.new.pairs) }
    {
        for pair in pairs.as_slice() {
            self.add_if_alike(general, special, *pair)?;
        }
        Ok(())
    }
}

// Whether both states are there and have one polarity.
fn are_alike(general: &Automaton, special: &Automaton, pair: (usize, usize)) -> bool
    ensures { IsTrue result ↔ AreAlike general.now special.now pair.0 pair.1 }
{
    let (g, s) = pair;
    g < general.len()
        && s < special.len()
        && general.polarity(StateId(g)) == special.polarity(StateId(s))
}

// Adds a state with each of these.
fn push_row(into: &mut Numbers, general: usize, specials: &[usize]) -> Result<(), Memory>
    ensures { OnOk result (Lists (λ g s. (g ≡ general) × Contains specials.now s) into.old into.new) }
{
    for special in specials {
        into.push((general, *special))?;
    }
    Ok(())
}

// Adds each state of the one set with each of the other.
fn push_sets(into: &mut Numbers, general: &StateSet, special: &StateSet) -> Result<(), Memory>
    ensures { OnOk result (Lists (IsOfSets general.now special.now) into.old into.new) }
{
    for state in general.as_slice() {
        push_row(into, *state, special.as_slice())?;
    }
    Ok(())
}

// Adds what two functions name in the same place.
fn push_arms(into: &mut Numbers, general: &Arms, special: &Arms) -> Result<(), Memory>
    ensures { OnOk result (Lists (IsOfArms general.now special.now) into.old into.new) }
{
    push_sets(into, &general.domain, &special.domain)?;
    push_sets(into, &general.codomain, &special.codomain)?;
    Ok(())
}

// Adds what the fields with one label name, where the general record has that label.
fn push_field(into: &mut Numbers, general: &FieldSets, special: &FieldSet) -> Result<(), Memory>
    requires { AreRising general.now }
    ensures { OnOk result (Lists (IsOfField general.now special.now) into.old into.new) }
{
    match set_of(general.as_slice(), &special.label) {
        None => Ok(()),
        Some(set) => push_sets(into, set, &special.set),
    }
}

// Adds what two records name at the labels that both have.
fn push_fields(into: &mut Numbers, general: &FieldSets, special: &[FieldSet]) -> Result<(), Memory>
    ensures { OnOk result (Lists (IsOfFields general.now special.now) into.old into.new) }
{
    if !general.is_rising() {
        return Err(Memory);
    }
    for field in special {
        push_field(into, general, field)?;
    }
    Ok(())
}

// Adds what the functions of two heads name in the same place.
fn push_functions(
    into: &mut Numbers,
    general: &Option<Arms>,
    special: &Option<Arms>,
) -> Result<(), Memory>
    ensures { OnOk result (Lists (IsOfFunctions general.now special.now) into.old into.new) }
{
    match general {
        None => Ok(()),
        Some(arms) => match special {
            None => Ok(()),
            Some(others) => push_arms(into, arms, others),
        },
    }
}

// Adds what the records of two heads name at the labels that both have.
fn push_records(
    into: &mut Numbers,
    general: &Option<FieldSets>,
    special: &Option<FieldSets>,
) -> Result<(), Memory>
    ensures { OnOk result (Lists (IsOfRecords general.now special.now) into.old into.new) }
{
    match general {
        None => Ok(()),
        Some(fields) => match special {
            None => Ok(()),
            Some(others) => push_fields(into, fields, others.as_slice()),
        },
    }
}

// What two heads name in the same place.
fn named_by(alloc: Global, general: &Head, special: &Head) -> Result<Numbers, Memory>
    ensures { IfOk result (Lists (IsOfHeads general.now special.now) []) }
{
    let mut named = Numbers::new(alloc);
    push_functions(&mut named, &general.function, &special.function)?;
    push_records(&mut named, &general.fields, &special.fields)?;
    Ok(named)
}

// What the heads of a pair name in the same place.
fn behind(
    alloc: Global,
    general: &Automaton,
    special: &Automaton,
    pair: StatePair,
) -> Result<Numbers, Memory>
    requires { IsPairAlike general.now special.now pair }
    ensures { IfOk result (Lists (IsOfHeads (head_at general.now pair.general.0) (head_at special.now pair.special.0))
        []) }
{
    let named = named_by(
        alloc,
        general.head(pair.general),
        special.head(pair.special),
    )?;
    Ok(named)
}

// The states of binders by their numbers.
fn states_of(alloc: Global, env: &[EnvEntry]) -> Result<BTreeMap<usize, usize>, Memory>
    requires { BindersRise env.now }
    ensures { IfOk result (AreStatesOf env.now) }
{
    let mut states = BTreeMap::new(alloc);
    for entry in env {
        states.insert(entry.binder, entry.state.0)?;
    }
    Ok(states)
}

// Adds the state of a binder with the other that it has, if it has one.
fn push_end(
    ends: &mut Numbers,
    states: &BTreeMap<usize, usize>,
    entry: EnvEntry,
) -> Result<(), Memory>
    ensures { OnOk result (Lists (IsOfEntry states.now entry) ends.old ends.new) }
{
    match states.get(&entry.binder) {
        None => Ok(()),
        Some(state) => {
            ends.push((entry.state.0, *state))?;
            Ok(())
        }
    }
}

// Adds the states of each binder that both environments have.
fn push_ends(
    ends: &mut Numbers,
    states: &BTreeMap<usize, usize>,
    env: &[EnvEntry],
) -> Result<(), Memory>
    ensures { OnOk result (Lists (IsOfEntries states.now env.now) ends.old ends.new) }
{
    for entry in env {
        push_end(ends, states, *entry)?;
    }
    Ok(())
}

// The roots, and the states of each binder that both types have.
fn ends_of(alloc: Global, general: &Scheme, special: &Scheme) -> Result<Numbers, Memory>
    ensures { IfOk result (λ ends. (g s : ℕ) → Contains ends (g, s) ↔ IsEnd general.now special.now g s) }
{
    let states = states_of(alloc, special.env.as_slice())?;
    let mut ends = Numbers::new(alloc);
    ends.push((general.root.0, special.root.0))?;
    push_ends(&mut ends, &states, general.env.as_slice())?;
    Ok(ends)
}

/// The pairs of states of both types that are met from the roots and from the states of each binder that both have,
/// breadth first and each once: where both heads have a function, or a record with some label, each state that the
/// one names there is met with each that the other names. Both states of a pair have one polarity.
///
/// # Errors
///
/// `Memory` where memory is wanting.
pub fn walk_of(alloc: Global, general: &Scheme, special: &Scheme) -> Result<List<StatePair>, Memory>
    ensures alike { IfOk result (All (IsPairAlike general.now.automaton special.now.automaton)) }
    ensures met { IfOk result (AreMet general.now special.now) }
{
    let mut met = Met::new(alloc);
    let ends = ends_of(alloc, general, special)?;
    met.add_alike(&general.automaton, &special.automaton, &ends)?;
    for place in 0..usize::MAX {
        if place >= met.len() {
            return Ok(met.pairs);
        }
        let pair = met.pairs.as_slice()[place];
        let named = behind(alloc, &general.automaton, &special.automaton, pair)?;
        met.add_alike(&general.automaton, &special.automaton, &named)?;
    }
    Err(Memory)
}
