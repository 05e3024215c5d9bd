//! The first pair that fails by flow.
ghost use Rattle.std.specs.Prelude.{◌≡◌, ◌↔◌, ◌<◌, ◌++◌, length, map, All, Contains, IfOk, OnOk, IsTrue};
ghost use Rattle.mls_automaton.specs.Automata.{flow};
ghost use Rattle.mls_automaton.specs.Models.{IsClosed, IsDeterministic};
ghost use Rattle.mls_automaton.specs.Schemes.{IsScheme};
ghost use Rattle.mls_subsume.specs.Searches.{IsFirstByFlow, IsRising, IsSearch, HasNoHeadFailure, met_at};
ghost use Rattle.mls_subsume.specs.steps.Asked.{AreAskedBy, IsAsked, IsAskedAt, IsFirstRefused};

use crate::queue::Queue;
use crate::verdict::{Path, Reason, StatePair};
use mls_automaton::automaton::{Automaton, Flow, Polarity};
use mls_automaton::scheme::Scheme;
use mls_automaton::state_set::StateId;
use mls_base::list::List;
use mls_base::memory::Memory;
use mls_flow::table::{FlowTable, admissible_among};
use std::alloc::Global;

/// The first failure, where none is by a part or a label.
///
/// # Errors
///
/// `Memory` where memory is wanting.
pub fn first_by_flow(
    alloc: Global,
    queue: &Queue,
    general: &Scheme,
    special: &Scheme,
) -> Result<Option<Path>, Memory>
    requires general { IsScheme general.now }
    requires special { IsScheme special.now }
    requires deterministic { IsDeterministic special.now.automaton }
    requires states { queue.now.states ≡ length general.now.automaton.states }
    requires search { IsSearch general.now special.now queue.now.met }
    requires rising { IsRising queue.now.met }
    requires heads { HasNoHeadFailure general.now special.now queue.now.met }
    ensures { IfOk result (IsFirstByFlow general.now special.now queue.now.met) }
{
    let asked = all_asked(alloc, queue, &general.automaton)?;
    let table = admissible_among(alloc, &special.automaton, asked.as_slice())?;
    match first_refused(alloc, queue, &general.automaton, &table)? {
        None => Ok(None),
        Some(number) => {
            let steps = queue.steps(alloc, number)?;
            Ok(Some(Path {
                steps,
                reason: Reason::Flow,
            }))
        }
    }
}

// What all pairs ask.
fn all_asked(alloc: Global, queue: &Queue, general: &Automaton) -> Result<Vec<Flow>, Memory>
    requires closed { IsClosed general.now }
    requires states { queue.now.states ≡ length general.now.states }
    requires pairs { (k : _) → k < length queue.now.met → (met_at queue.now.met k).general < length general.now.states }
    ensures each { IfOk result (λ flows. (f : _) → Contains flows.items f
        → (k : _) × (k < length queue.now.met) × IsAskedAt general.now queue.now.met k f) }
    ensures all { IfOk result (λ flows. (k : _) → k < length queue.now.met → (f : _)
        → IsAskedAt general.now queue.now.met k f → Contains flows.items f) }
{
    let mut flows = Vec::new(alloc);
    for number in 0..queue.len() {
        let asked = asked_by(alloc, queue, general, queue.pair(number))?;
        flows.extend_from_slice(asked.as_slice())?;
    }
    Ok(flows)
}

// The first pair that asks a flow for which the table does not say yes.
fn first_refused(
    alloc: Global,
    queue: &Queue,
    general: &Automaton,
    table: &FlowTable,
) -> Result<Option<usize>, Memory>
    requires closed { IsClosed general.now }
    requires states { queue.now.states ≡ length general.now.states }
    requires pairs { (k : _) → k < length queue.now.met → (met_at queue.now.met k).general < length general.now.states }
    ensures { IfOk result (IsFirstRefused general.now queue.now.met table.now.flows) }
{
    for number in 0..queue.len() {
        let asked = asked_by(alloc, queue, general, queue.pair(number))?;
        if !has_all(table, asked.as_slice()) {
            return Ok(Some(number));
        }
    }
    Ok(None)
}

// Whether the table says yes of all of these.
fn has_all(table: &FlowTable, flows: &[Flow]) -> bool
    ensures { IsTrue result ↔ All (Contains table.now.flows) flows.now }
{
    for f in flows {
        if !table.has(f.negative, f.positive) {
            return false;
        }
    }
    true
}

// What a pair asks: the flow to the special state from each special state that is paired with the other end of an edge
// at the general state, if this one is positive.
fn asked_by(
    alloc: Global,
    queue: &Queue,
    general: &Automaton,
    pair: StatePair,
) -> Result<List<Flow>, Memory>
    requires closed { IsClosed general.now }
    requires states { queue.now.states ≡ length general.now.states }
    requires pair { pair.general.0 < length general.now.states }
    ensures { IfOk result (λ flows. (f : _) → Contains flows f
        ↔ IsAsked general.now queue.now.met pair.general.0 pair.special.0 f) }
{
    match general.polarity(pair.general) {
        Polarity::Negative => Ok(List::new(alloc)),
        Polarity::Positive => {
            let ends = general.partners(pair.general);
            let asked = asked_along(alloc, queue, ends.as_slice(), pair.special)?;
            Ok(asked)
        }
    }
}

// The flows to the state from all that is paired with these states.
fn asked_along(
    alloc: Global,
    queue: &Queue,
    ends: &[usize],
    positive: StateId,
) -> Result<List<Flow>, Memory>
    requires { (h : _) → Contains ends.now h → h < queue.now.states }
    ensures { IfOk result (AreAskedBy queue.now.met positive.0 ends.now) }
{
    let mut flows = List::new(alloc);
    for end in ends {
        let partners = queue.partners(StateId(*end));
        add_flows(&mut flows, partners.as_slice(), positive)?;
    }
    Ok(flows)
}

// Adds the flows from these states to a positive one.
fn add_flows(flows: &mut List<Flow>, negatives: &[usize], positive: StateId) -> Result<(), Memory>
    ensures { OnOk result (flows.new ≡ flows.old ++ map (λ n. flow n positive.0) negatives.now) }
{
    for negative in negatives {
        flows.push(Flow {
            negative: StateId(*negative),
            positive,
        })?;
    }
    Ok(())
}
