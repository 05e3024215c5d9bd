//! The heads and edges of the solved automaton, over states that keep their numbers.
ghost use Rattle.std.specs.Prelude.{◌≡◌, ◌↔◌, ◌⊎◌, ℕ, ◌<◌, ◌≤◌, true, false, get_or, map, All, Contains};
ghost use Rattle.std.specs.Prelude.{IfOk, IsTrue, OnErr, OnOk};
ghost use Rattle.mls_automaton.specs.declared.automaton.Head.{Head};
ghost use Rattle.mls_automaton.specs.declared.automaton.Polarity.{Polarity};
ghost use Rattle.mls_automaton.specs.declared.automaton.Polarity.TheVariants.{Positive, Negative};
ghost use Rattle.mls_automaton.specs.Automata.{head_at};
ghost use Rattle.mls_automaton.specs.Heads.{IsSameParts, combined, no_parts, parts_of};
ghost use Rattle.mls_automaton.specs.Models.{HasRisingLabels};
ghost use Rattle.mls_solver.specs.Rooms.{Holds};
ghost use Rattle.mls_solver.specs.steps.Solving.{AreMembers};
ghost use Rattle.mls_biunify.specs.Live.{IsStateIn};
ghost use Rattle.mls_biunify.specs.steps.Settlement.{AddsEdges, AddsHead, AreFit, AreNewEdges, AreNewHeads, GetsEdges};
ghost use Rattle.mls_biunify.specs.steps.Settlement.{GivenBy, IsTouched, Links, StoresHeads, Unlinks};
ghost use Rattle.mls_biunify.specs.steps.Tables.{HoldsThere};

use crate::relation::Relation;
use crate::table::Table;
use mls_automaton::automaton::{Head, Polarity};
use mls_automaton::combine::{copied_head, unite_heads};
use mls_automaton::state_set::{StateId, StateSet};
use mls_base::memory::Memory;
use std::alloc::Global;

// Puts the members of a set into another one.
fn insert_all(set: &mut StateSet, more: &StateSet) -> Result<(), Memory>
    ensures { OnOk result ((j : ℕ) → Contains set.new j ↔ (Contains set.old j ⊎ Contains more.now j)) }
{
    for s in more.as_slice() {
        set.insert(StateId(*s))?;
    }
    Ok(())
}

// The states that have an edge to or from a related state.
pub fn touched(alloc: Global, relation: &Relation, table: &Table) -> Result<StateSet, Memory>
    requires { HoldsThere table.now relation.now }
    ensures { IfOk result (λ set. (s : ℕ) → Contains set s ↔ IsTouched table.now.automaton relation.now.pairs s) }
{
    let mut set = StateSet::new(alloc);
    for i in 0..relation.len() {
        let (positive, negative) = relation.pair(i);
        insert_all(&mut set, table.before(positive))?;
        insert_all(&mut set, table.after(negative))?;
    }
    Ok(set)
}

// The states whose old heads go into the new head of a state.
fn members(
    alloc: Global,
    relation: &Relation,
    table: &Table,
    s: StateId,
) -> Result<StateSet, Memory>
    requires states { HoldsThere table.now relation.now }
    requires there { get_or table.now.there s.0 false ≡ true }
    requires rows { table.now.limit ≤ relation.now.positives }
    requires columns { table.now.limit ≤ relation.now.negatives }
    ensures { IfOk result (AreMembers table.now.automaton (Holds relation.now) s.0) }
{
    let set = StateSet::one(alloc, s)?;
    match table.polarity(s) {
        Polarity::Positive => with_above(set, relation, table.before(s).as_slice()),
        Polarity::Negative => with_below(set, relation, table.after(s).as_slice()),
    }
}

// The set, and the positive states that are related to one of the negative ones.
fn with_above(set: StateSet, relation: &Relation, negatives: &[usize]) -> Result<StateSet, Memory>
    requires { All (λ n. n < relation.now.negatives) negatives.now }
    ensures { IfOk result (λ all. (j : ℕ)
        → Contains all j ↔ (Contains set j ⊎ GivenBy negatives.now (λ n p. Holds relation.now p n) j)) }
{
    let mut all = set;
    for n in negatives {
        insert_all(&mut all, relation.above(StateId(*n)))?;
    }
    Ok(all)
}

// The set, and the negative states to which one of the positive ones is related.
fn with_below(set: StateSet, relation: &Relation, positives: &[usize]) -> Result<StateSet, Memory>
    requires { All (λ p. p < relation.now.positives) positives.now }
    ensures { IfOk result (λ all. (j : ℕ)
        → Contains all j ↔ (Contains set j ⊎ GivenBy positives.now (λ p n. Holds relation.now p n) j)) }
{
    let mut all = set;
    for p in positives {
        insert_all(&mut all, relation.below(StateId(*p)))?;
    }
    Ok(all)
}

// Whether no head of these states has anything.
fn are_nothing(table: &Table, members: &[usize]) -> bool
    requires { All (λ j. get_or table.now.there j false ≡ true) members.now }
    ensures { IsTrue result → All (λ j. parts_of (head_at table.now.automaton j) ≡ no_parts) members.now }
{
    for j in members {
        if !table.head(StateId(*j)).is_nothing() {
            return false;
        }
    }
    true
}

// The combined head of these states. It is put together by halves, so that each head is gone through as often as the
// number of states has binary digits; the calls are as deep. For the most part one half has nothing.
fn combined_head(
    alloc: Global,
    table: &Table,
    polarity: Polarity,
    members: &[usize],
) -> Result<Head, Memory>
    requires { All (λ j. get_or table.now.there j false ≡ true) members.now }
    ensures parts { IfOk result (λ head. IsSameParts (parts_of head)
        (combined polarity (map (λ j. parts_of (head_at table.now.automaton j)) members.now))) }
    ensures labels { IfOk result (λ head. HasRisingLabels head.fields) }
{
    if members.is_empty() {
        return Ok(Head::empty());
    }
    if members.len() == 1 {
        return copied_head(table.head(StateId(members[0])));
    }
    let half = members.len() / 2;
    if are_nothing(table, &members[..half]) {
        return combined_head(alloc, table, polarity, &members[half..]);
    }
    if are_nothing(table, &members[half..]) {
        return combined_head(alloc, table, polarity, &members[..half]);
    }
    let first = combined_head(alloc, table, polarity, &members[..half])?;
    let second = combined_head(alloc, table, polarity, &members[half..])?;
    unite_heads(alloc, polarity, first, second)
}

// Whether one of these states is the given one, and the heads of the others have nothing.
fn is_alone(table: &Table, members: &[usize], s: StateId) -> bool
    requires { All (λ j. get_or table.now.there j false ≡ true) members.now }
    ensures { IsTrue result → (p : Polarity) → IsSameParts (parts_of (head_at table.now.automaton s.0))
        (combined p (map (λ j. parts_of (head_at table.now.automaton j)) members.now)) }
{
    match members.binary_search(&s.0) {
        Ok(at) => are_nothing(table, &members[..at]) && are_nothing(table, &members[at + 1..]),
        Err(_) => false,
    }
}

// Puts the new head of a state behind those of others, unless it is the old one: then nothing has to be stored.
fn push_head(
    heads: &mut Vec<(usize, Head)>,
    alloc: Global,
    relation: &Relation,
    table: &Table,
    s: StateId,
) -> Result<(), Memory>
    requires states { HoldsThere table.now relation.now }
    requires there { get_or table.now.there s.0 false ≡ true }
    requires rows { table.now.limit ≤ relation.now.positives }
    requires columns { table.now.limit ≤ relation.now.negatives }
    ensures { OnOk result (AddsHead table.now (Holds relation.now) s.0 heads.old.items heads.new.items) }
{
    let polarity = table.polarity(s);
    let members = members(alloc, relation, table, s)?;
    if is_alone(table, members.as_slice(), s) {
        return Ok(());
    }
    let head = combined_head(alloc, table, polarity, members.as_slice())?;
    heads.push((s.0, head))?;
    Ok(())
}

// The new heads of those of these states whose heads change.
pub fn new_heads(
    alloc: Global,
    relation: &Relation,
    table: &Table,
    states: &[usize],
) -> Result<Vec<(usize, Head)>, Memory>
    requires states { HoldsThere table.now relation.now }
    requires there { All (λ s. get_or table.now.there s false ≡ true) states.now }
    requires rows { table.now.limit ≤ relation.now.positives }
    requires columns { table.now.limit ≤ relation.now.negatives }
    ensures { IfOk result (λ heads. AreNewHeads table.now (Holds relation.now) states.now heads.items) }
{
    let mut heads = Vec::with_capacity(alloc, states.len())?;
    for s in states {
        push_head(&mut heads, alloc, relation, table, StateId(*s))?;
    }
    Ok(heads)
}

// Puts the edges from a state to these ones behind those of a list.
pub fn push_edges(
    edges: &mut Vec<(usize, usize)>,
    n: usize,
    targets: &[usize],
) -> Result<(), Memory>
    ensures { OnOk result ((x : ℕ × ℕ)
        → Contains edges.new.items x ↔ (Contains edges.old.items x ⊎ GivenBy targets.now (λ q y. y ≡ (n, q)) x)) }
{
    for q in targets {
        edges.push((n, *q))?;
    }
    Ok(())
}

// Puts pairs of these states and another one behind those of a list.
fn push_ends(ends: &mut Vec<(usize, usize)>, sources: &[usize], m: usize) -> Result<(), Memory>
    ensures { OnOk result ((x : ℕ × ℕ)
        → Contains ends.new.items x ↔ (Contains ends.old.items x ⊎ GivenBy sources.now (λ n y. y ≡ (n, m)) x)) }
{
    for n in sources {
        ends.push((*n, m))?;
    }
    Ok(())
}

// The states that have new edges, each with one whose edges it gets.
fn new_ends(
    alloc: Global,
    relation: &Relation,
    table: &Table,
) -> Result<Vec<(usize, usize)>, Memory>
    requires { HoldsThere table.now relation.now }
    ensures { IfOk result (λ ends. (x : ℕ × ℕ)
        → Contains ends.items x ↔ GivenBy relation.now.pairs (GetsEdges table.now.automaton) x) }
{
    let mut ends = Vec::new(alloc);
    for i in 0..relation.len() {
        let (positive, negative) = relation.pair(i);
        push_ends(&mut ends, table.before(positive).as_slice(), negative.0)?;
    }
    Ok(distinct(ends))
}

// The same pairs in order, each once.
fn distinct(mut ends: Vec<(usize, usize)>) -> Vec<(usize, usize)>
    ensures { (x : ℕ × ℕ) → Contains result.items x ↔ Contains ends.items x }
{
    ends.sort_unstable();
    ends.dedup();
    ends
}

// The new edges of the solved automaton.
pub fn new_edges(
    alloc: Global,
    relation: &Relation,
    table: &Table,
) -> Result<Vec<(usize, usize)>, Memory>
    requires { HoldsThere table.now relation.now }
    ensures { IfOk result (λ edges. AreNewEdges table.now.automaton (Holds relation.now) edges.items) }
{
    let _limit = table.limit();
    let ends = new_ends(alloc, relation, table)?;
    let mut edges = Vec::new(alloc);
    for end in ends.as_slice() {
        push_edges(&mut edges, end.0, table.after(StateId(end.1)).as_slice())?;
    }
    Ok(edges)
}

// Adds these edges. After an error there are the same edges as before.
pub fn link_all(table: &mut Table, alloc: Global, edges: &[(usize, usize)]) -> Result<(), Memory>
    requires { (n p : ℕ) → Contains edges.now (n, p) → IsStateIn table.old.automaton table.old.there Negative n
        × IsStateIn table.old.automaton table.old.there Positive p }
    ensures ok { OnOk result (AddsEdges table.old table.new (λ n p. Contains edges.now (n, p))) }
    ensures err { OnErr result (AddsEdges table.old table.new (λ n p. ⊥)) }
{
    let mut added = Vec::new(alloc);
    for i in 0..edges.len() {
        if link(table, &mut added, edges[i].0, edges[i].1).is_err() {
            unlink_all(table, added.as_slice());
            return Err(Memory);
        }
    }
    Ok(())
}

// Adds an edge and notes it, if it is not there.
fn link(
    table: &mut Table,
    added: &mut Vec<(usize, usize)>,
    n: usize,
    p: usize,
) -> Result<(), Memory>
    requires negative { IsStateIn table.old.automaton table.old.there Negative n }
    requires positive { IsStateIn table.old.automaton table.old.there Positive p }
    ensures ok { OnOk result (Links table.old table.new added.old.items added.new.items n p) }
    ensures err { OnErr result (AddsEdges table.old table.new (λ i j. ⊥)) }
    ensures noted { OnErr result (added.new.items ≡ added.old.items) }
{
    if table.has_flow(StateId(n), StateId(p)) {
        return Ok(());
    }
    added.reserve(1)?;
    table.edge(StateId(n), StateId(p))?;
    // There is room for it.
    added.push((n, p))?;
    Ok(())
}

// Takes these edges out.
pub fn unlink_all(table: &mut Table, edges: &[(usize, usize)])
    requires { (n p : ℕ) → Contains edges.now (n, p) → (get_or table.old.there n false ≡ true)
        × (get_or table.old.there p false ≡ true) }
    ensures { Unlinks table.old edges.now table.new }
{
    for i in 0..edges.len() {
        table.unlink(StateId(edges[i].0), StateId(edges[i].1));
    }
}

// Gives states these heads.
pub fn store_heads(table: &mut Table, heads: Vec<(usize, Head)>)
    requires { AreFit table.old heads.items }
    ensures { StoresHeads table.old table.new heads.items }
{
    let mut heads = heads;
    while let Some(change) = heads.pop() {
        table.set_head(StateId(change.0), change.1);
    }
}
