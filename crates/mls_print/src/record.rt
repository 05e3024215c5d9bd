//! The record of the combined head of a set of states.
ghost use Rattle.std.specs.Prelude.{◌≡◌, ◌<◌, ◌++◌, ◌∷◌, [], length, map, option_map, is_some, All, Contains, IfOk};
ghost use Rattle.std.specs.Prelude.{OnOk, Some, None, bytes_eq, if◌then◌else◌};
ghost use Rattle.std.specs.List.{filter};
ghost use Rattle.std.specs.BTreeMap.{get, IsOrdered};
ghost use Rattle.std.specs.Ordering.{nat_cmp};
ghost use Rattle.std.specs.Cmp.Lexicographic.{slice_cmp};
ghost use Rattle.mls_automaton.specs.Automata.{head_at};
ghost use Rattle.mls_automaton.specs.Heads.{AreRising, set_at};
ghost use Rattle.mls_automaton.specs.Models.{HasRisingLabels, IsClosed};
ghost use Rattle.mls_print.specs.steps.Tables.{IsRecordOf};
ghost use Rattle.mls_print.specs.steps.Grouping.{record_of_all, field_in, fields_in, entry_fields, is_shown, grown};
ghost use Rattle.mls_print.specs.steps.Grouping.{set_in_record, sets_at_label, whole_field};

use crate::label::{Label, LabelSets};
use mls_automaton::automaton::{Automaton, FieldSet, FieldSets, Head, Polarity};
use mls_automaton::state_set::{StateId, StateSet};
use mls_base::memory::Memory;
use mls_book::name::Name;
use std::alloc::Global;
use std::collections::BTreeMap;

/// A label with the members of all sets that are joined there.
#[derive(Drop)]
pub struct JoinedField<'a> {
    pub label: &'a Name,
    pub states: Vec<usize>,
}

/// The record of the combined head: the labels in byte order.
pub fn joined_record<'a>(
    alloc: Global,
    automaton: &'a Automaton,
    polarity: Polarity,
    set: &[usize],
) -> Result<Option<Vec<JoinedField<'a>>>, Memory>
    requires closed { IsClosed automaton.now }
    requires below { All (λ s. s < length automaton.now.states) set.now }
    ensures { IfOk result (λ fields. IsRecordOf (record_of_all automaton.now polarity set.now)
        (option_map fields_in fields)) }
{
    if set.len() == 1 {
        let whole = record_of_one(alloc, automaton.head(StateId(set[0])))?;
        return Ok(whole);
    }
    let records = count_records(automaton, set);
    if records == 0 {
        return Ok(None);
    }
    let groups = grouped(alloc, automaton, set)?;
    let fields = shown_fields(alloc, &groups, polarity, records)?;
    Ok(Some(fields))
}

// The record of a set with one member: all its fields are shown, and their labels are in order.
fn record_of_one<'a>(alloc: Global, head: &'a Head) -> Result<Option<Vec<JoinedField<'a>>>, Memory>
    ensures { IfOk result (λ fields. option_map fields_in fields ≡ option_map (map whole_field) head.now.fields) }
{
    match &head.fields {
        None => Ok(None),
        Some(fields) => {
            let joined = whole_fields(alloc, fields.as_slice())?;
            Ok(Some(joined))
        }
    }
}

// All fields, each with its own set.
fn whole_fields<'a>(alloc: Global, fields: &'a [FieldSet]) -> Result<Vec<JoinedField<'a>>, Memory>
    ensures { IfOk result (λ joined. fields_in joined ≡ map whole_field fields.now) }
{
    let mut joined = Vec::with_capacity(alloc, fields.len())?;
    for field in fields {
        push_whole(alloc, &mut joined, field)?;
    }
    Ok(joined)
}

// Adds a field with its own set.
fn push_whole<'a>(
    alloc: Global,
    joined: &mut Vec<JoinedField<'a>>,
    field: &'a FieldSet,
) -> Result<(), Memory>
    ensures { OnOk result (fields_in joined.new ≡ fields_in joined.old ++ whole_field field.now ∷ []) }
{
    let states = states_in(alloc, &field.set)?;
    joined.push(JoinedField {
        label: &field.label,
        states,
    })?;
    Ok(())
}

// The members of a set, in order.
fn states_in(alloc: Global, set: &StateSet) -> Result<Vec<usize>, Memory>
    ensures { IfOk result (λ states. states.items ≡ set.now) }
{
    let states = set.as_slice().to_vec(alloc)?;
    Ok(states)
}

// How many members have a record.
fn count_records(automaton: &Automaton, set: &[usize]) -> usize
    requires { All (λ s. s < length automaton.now.states) set.now }
    ensures { result ≡ length (filter (λ s. is_some (head_at automaton.now s).fields) set.now) }
{
    let mut records = 0;
    for s in set {
        if automaton.head(StateId(*s)).fields.is_some() {
            records += 1;
        }
    }
    records
}

// For each label the sets of the members that have it.
fn grouped<'a>(
    alloc: Global,
    automaton: &'a Automaton,
    set: &[usize],
) -> Result<BTreeMap<Label<'a>, LabelSets<'a>>, Memory>
    requires closed { IsClosed automaton.now }
    requires below { All (λ s. s < length automaton.now.states) set.now }
    ensures { IfOk result (λ groups. (label : _) → get (slice_cmp nat_cmp) groups label
        ≡ sets_at_label automaton.now label set.now) }
{
    let mut groups = BTreeMap::new(alloc);
    for s in set {
        add_record(alloc, &mut groups, automaton.head(StateId(*s)))?;
    }
    Ok(groups)
}

// Adds the record of a head, if it has one.
fn add_record<'a>(
    alloc: Global,
    groups: &mut BTreeMap<Label<'a>, LabelSets<'a>>,
    head: &'a Head,
) -> Result<(), Memory>
    requires { HasRisingLabels head.now.fields }
    ensures { OnOk result ((label : _) → get (slice_cmp nat_cmp) groups.new label
        ≡ grown (set_in_record label head.now.fields) (get (slice_cmp nat_cmp) groups.old label)) }
{
    if let Some(fields) = &head.fields {
        add_fields(alloc, groups, fields)?;
    }
    Ok(())
}

// Adds the fields of a record.
fn add_fields<'a>(
    alloc: Global,
    groups: &mut BTreeMap<Label<'a>, LabelSets<'a>>,
    fields: &'a FieldSets,
) -> Result<(), Memory>
    requires { AreRising fields.now }
    ensures { OnOk result ((label : _) → get (slice_cmp nat_cmp) groups.new label
        ≡ grown (set_at fields.now label) (get (slice_cmp nat_cmp) groups.old label)) }
{
    for field in fields.as_slice() {
        add_field(alloc, groups, field)?;
    }
    Ok(())
}

// Adds a field.
fn add_field<'a>(
    alloc: Global,
    groups: &mut BTreeMap<Label<'a>, LabelSets<'a>>,
    field: &'a FieldSet,
) -> Result<(), Memory>
    ensures { OnOk result ((label : _) → get (slice_cmp nat_cmp) groups.new label ≡ grown
        (if bytes_eq field.now.label label then Some field.now.set else None) (get
        (slice_cmp nat_cmp) groups.old label)) }
{
    let label = Label::new(&field.label);
    match groups.get_mut(&label) {
        Some(sets) => sets.push(&field.set)?,
        None => {
            groups.insert(label, LabelSets::one(alloc, &field.set)?)?;
        }
    }
    Ok(())
}

// The fields that are shown: at a negative place all, at a positive one those that each record has.
fn shown_fields<'a>(
    alloc: Global,
    groups: &BTreeMap<Label<'a>, LabelSets<'a>>,
    polarity: Polarity,
    records: usize,
) -> Result<Vec<JoinedField<'a>>, Memory>
    ensures fields { IfOk result (λ fields. fields_in fields ≡ entry_fields polarity records groups.now.entries) }
    ensures ordered { IsOrdered (slice_cmp nat_cmp) groups.now }
{
    let mut fields = Vec::new(alloc);
    for (label, sets) in groups.iter() {
        add_shown(alloc, &mut fields, label, sets, polarity, records)?;
    }
    Ok(fields)
}

// Adds a field, if it is shown.
fn add_shown<'a>(
    alloc: Global,
    fields: &mut Vec<JoinedField<'a>>,
    label: &Label<'a>,
    sets: &LabelSets<'a>,
    polarity: Polarity,
    records: usize,
) -> Result<(), Memory>
    ensures { OnOk result (fields_in fields.new ≡ fields_in fields.old
        ++ entry_fields polarity records ((label.now, sets.now) ∷ [])) }
{
    if is_shown(polarity, records, sets.len()) {
        fields.push(JoinedField {
            label: label.name(),
            states: sets.states(alloc)?,
        })?;
    }
    Ok(())
}

// Whether a label is shown that so many of the records have.
fn is_shown(polarity: Polarity, records: usize, count: usize) -> bool
    ensures { result ≡ is_shown polarity records count }
{
    match polarity {
        Polarity::Positive => count == records,
        Polarity::Negative => true,
    }
}
