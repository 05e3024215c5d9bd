//! The nodes of the states of a type that was read, in a book that begins with its nodes.
//!
//! The automaton of such a type has a state for each node. Those that something names or that have something are the
//! tops of layers, and have their own nodes. The others lie within layers, and have the node of no member.
ghost use Rattle.std.specs.Prelude.{◌≡◌, ◌<◌, ◌++◌, length, get_or, cond, false, All, IfOk, OnOk};
ghost use Rattle.std.specs.List.{flat_map};
ghost use Rattle.mls_automaton.specs.declared.automaton.FieldSet.{FieldSet};
ghost use Rattle.mls_automaton.specs.Automata.{polarity_at};
ghost use Rattle.mls_typenodes.specs.ReadPlaces.{AreReadPlaces, arm_names, flow_ends, has_part, is_in, none_at, own_if};
ghost use Rattle.mls_typenodes.specs.ReadPlaces.{record_names, state_names, states_in_use};

use mls_automaton::automaton::{Arms, Automaton, FieldSet, FieldSets, Flow, Head, Polarity};
use mls_automaton::scheme::Scheme;
use mls_automaton::state_set::StateId;
use mls_base::list::List;
use mls_base::memory::Memory;
use mls_book::book::NodeId;
use mls_layout::layout::Places;
use mls_layout::tree::NodeIds;
use std::alloc::Global;

/// Numbers of states.
pub(crate) type Numbers = List<usize>;

// Adds all of these numbers.
fn push_all(into: &mut Numbers, numbers: &[usize]) -> Result<(), Memory>
    ensures { OnOk result (into.new ≡ into.old ++ numbers.now) }
{
    for number in numbers {
        into.push(*number)?;
    }
    Ok(())
}

// Adds the states of a domain and a codomain.
fn push_arms(into: &mut Numbers, function: &Option<Arms>) -> Result<(), Memory>
    ensures { OnOk result (into.new ≡ into.old ++ arm_names function.now) }
{
    match function {
        None => Ok(()),
        Some(arms) => {
            push_all(into, arms.domain.as_slice())?;
            push_all(into, arms.codomain.as_slice())
        }
    }
}

// Adds the states of fields.
fn push_fields(into: &mut Numbers, fields: &[FieldSet]) -> Result<(), Memory>
    ensures { OnOk result (into.new ≡ into.old ++ flat_map (λ (field : FieldSet). field.set) fields.now) }
{
    for field in fields {
        push_all(into, field.set.as_slice())?;
    }
    Ok(())
}

fn push_record(into: &mut Numbers, fields: &Option<FieldSets>) -> Result<(), Memory>
    ensures { OnOk result (into.new ≡ into.old ++ record_names fields.now) }
{
    match fields {
        None => Ok(()),
        Some(fields) => push_fields(into, fields.as_slice()),
    }
}

// Whether a head has a part.
fn has_part(head: &Head) -> bool
    ensures { result ≡ has_part head.now }
{
    head.boolean || head.integer || head.function.is_some() || head.fields.is_some()
}

// Adds a number if it is wanted.
fn push_if(into: &mut Numbers, is_wanted: bool, number: usize) -> Result<(), Memory>
    ensures { OnOk result (into.new ≡ into.old ++ own_if is_wanted number) }
{
    if is_wanted {
        into.push(number)?;
    }
    Ok(())
}

// Adds a state if its head has a part, and the states that its head names.
fn push_state(into: &mut Numbers, s: usize, head: &Head) -> Result<(), Memory>
    ensures { OnOk result (into.new ≡ into.old ++ state_names s head.now) }
{
    push_if(into, has_part(head), s)?;
    push_arms(into, &head.function)?;
    push_record(into, &head.fields)
}

// Adds the states at both ends of edges.
fn push_ends(into: &mut Numbers, flows: &[Flow]) -> Result<(), Memory>
    ensures { OnOk result (into.new ≡ into.old ++ flat_map flow_ends flows.now) }
{
    for flow in flows {
        into.push(flow.negative.0)?;
        into.push(flow.positive.0)?;
    }
    Ok(())
}

// The states that something names, or that have something. Some may stand there more than once.
fn states_in_use(alloc: Global, scheme: &Scheme) -> Result<Numbers, Memory>
    ensures { IfOk result (λ states. states ≡ states_in_use scheme.now) }
{
    let mut states = Numbers::new(alloc);
    states.push(scheme.root.0)?;
    push_ends(&mut states, scheme.automaton.flows())?;
    for s in 0..scheme.automaton.len() {
        push_state(&mut states, s, scheme.automaton.head(StateId(s)))?;
    }
    Ok(states)
}

// Which numbers below this count are among these.
fn marks_of(alloc: Global, count: usize, numbers: &[usize]) -> Result<Vec<bool>, Memory>
    ensures size { IfOk result (λ marks. length marks.items ≡ count) }
    ensures marks { IfOk result (λ marks. (q : _) → q < count → get_or marks.items q false ≡ is_in numbers.now q) }
{
    let mut marks = vec![in alloc; false; count]?;
    for number in numbers {
        if *number < marks.len() {
            marks[*number] = true;
        }
    }
    Ok(marks)
}

// The node of no member of these two.
fn none_at(bot: NodeId, top: NodeId, polarity: Polarity) -> NodeId
    ensures { result.0 ≡ none_at bot.0 top.0 polarity }
{
    match polarity {
        Polarity::Positive => bot,
        Polarity::Negative => top,
    }
}

// The node of a state, which has its own node if it is marked.
fn place_of(automaton: &Automaton, marks: &[bool], s: usize, bot: NodeId, top: NodeId) -> NodeId
    requires state { s < length automaton.now.states }
    requires mark { s < length marks.now }
    ensures { result.0 ≡ cond (get_or marks.now s false) s (none_at bot.0 top.0 (polarity_at automaton.now s)) }
{
    if marks[s] {
        NodeId(s)
    } else {
        none_at(bot, top, automaton.polarity(StateId(s)))
    }
}

/// The nodes of the states of a type that was read, in a book that begins with its nodes and has these two nodes of no
/// member. It takes time linear in the states, the edges, and the states that heads name.
///
/// # Errors
///
/// `Memory` where memory is wanting.
pub fn read_places(
    alloc: Global,
    scheme: &Scheme,
    bot: NodeId,
    top: NodeId,
) -> Result<Places, Memory>
    ensures { IfOk result (AreReadPlaces scheme.now bot.0 top.0) }
{
    let used = states_in_use(alloc, scheme)?;
    let marks = marks_of(alloc, scheme.automaton.len(), used.as_slice())?;
    let all = marks.as_slice();
    let mut nodes = NodeIds::new(alloc);
    for s in 0..scheme.automaton.len() {
        nodes.push(place_of(&scheme.automaton, all, s, bot, top))?;
    }
    Ok(Places { nodes, past: bot })
}
