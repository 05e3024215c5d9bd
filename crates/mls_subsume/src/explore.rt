//! The search for the pairs of states that are met on the way from the roots, breadth first.
ghost use Rattle.std.specs.Prelude.{◌≡◌, ◌<◌, length, All, IfOk, OnOk, Some};
ghost use Rattle.mls_automaton.specs.Automata.{head_at};
ghost use Rattle.mls_automaton.specs.Heads.{AreRising, set_at};
ghost use Rattle.mls_automaton.specs.Models.{HasArmsIn, HasFieldsIn, HasRisingLabels, HasSingleArms, HasSingleFields};
ghost use Rattle.mls_automaton.specs.Models.{IsClosed, IsDeterministic, IsSingle};
ghost use Rattle.mls_automaton.specs.Schemes.{IsScheme};
ghost use Rattle.mls_automaton.specs.declared.automaton.Polarity.TheVariants.{Positive};
ghost use Rattle.mls_flow.specs.Needs.{only};
ghost use Rattle.mls_subsume.specs.Searches.{IsRising, IsSearch, met_at};
ghost use Rattle.mls_subsume.specs.steps.Targets.{Follows, field_target, field_targets, function_targets, head_targets};
ghost use Rattle.mls_subsume.specs.steps.Targets.{record_targets};

use crate::queue::Queue;
use crate::verdict::{StatePair, Step};
use mls_automaton::automaton::{Arms, Automaton, FieldSet, FieldSets};
use mls_automaton::lookup::set_of;
use mls_automaton::scheme::Scheme;
use mls_automaton::state_set::StateSet;
use mls_base::memory::Memory;
use std::alloc::Global;

/// All pairs that are met on the way from the roots, in the order of their first paths.
///
/// # Errors
///
/// `Memory` where memory is wanting.
pub fn explore(alloc: Global, general: &Scheme, special: &Scheme) -> Result<Queue, Memory>
    requires general { IsScheme general.now }
    requires special { IsScheme special.now }
    requires general_deterministic { IsDeterministic general.now.automaton }
    requires special_deterministic { IsDeterministic special.now.automaton }
    ensures states { IfOk result (λ queue. queue.states ≡ length general.now.automaton.states) }
    ensures search { IfOk result (λ queue. IsSearch general.now special.now queue.met) }
    ensures rising { IfOk result (λ queue. IsRising queue.met) }
{
    let roots = StatePair {
        general: general.root,
        special: special.root,
    };
    let states = general.automaton.len();
    let mut queue = Queue::new(alloc, states, roots)?;
    for next in 0..usize::MAX {
        if queue.ends_before(next) {
            return Ok(queue);
        }
        follow(&mut queue, next, &general.automaton, &special.automaton)?;
    }
    // So many pairs are not to be kept.
    Err(Memory)
}

// Meets what one step leads to from the pair with this number.
fn follow(
    queue: &mut Queue,
    from: usize,
    general: &Automaton,
    special: &Automaton,
) -> Result<(), Memory>
    requires from { from < length queue.old.met }
    requires states { queue.old.states ≡ length general.now.states }
    requires general { (met_at queue.old.met from).general < length general.now.states }
    requires special { (met_at queue.old.met from).special < length special.now.states }
    requires general_closed { IsClosed general.now }
    requires special_closed { IsClosed special.now }
    requires general_deterministic { IsDeterministic general.now }
    requires special_deterministic { IsDeterministic special.now }
    ensures states { OnOk result (queue.new.states ≡ queue.old.states) }
    ensures follows { OnOk result (Follows queue.old.met from (head_targets (head_at general.now
        (met_at queue.old.met from).general)
        (head_at special.now (met_at queue.old.met from).special)) queue.new.met) }
{
    let pair = queue.pair(from);
    let first = general.head(pair.general);
    let second = special.head(pair.special);
    meet_functions(queue, from, &first.function, &second.function)?;
    meet_records(queue, from, &first.fields, &second.fields)
}

// Meets the domains and the codomains, where both have a function.
fn meet_functions(
    queue: &mut Queue,
    from: usize,
    general: &Option<Arms>,
    special: &Option<Arms>,
) -> Result<(), Memory>
    requires from { from < length queue.old.met }
    requires states { HasArmsIn (λ p j. j < queue.old.states) Positive general.now }
    requires general { HasSingleArms general.now }
    requires special { HasSingleArms special.now }
    ensures states { OnOk result (queue.new.states ≡ queue.old.states) }
    ensures follows { OnOk result (Follows queue.old.met from
        (function_targets general.now special.now) queue.new.met) }
{
    match general {
        None => Ok(()),
        Some(arms) => match special {
            None => Ok(()),
            Some(others) => meet_arms(queue, from, arms, others),
        },
    }
}

fn meet_arms(queue: &mut Queue, from: usize, arms: &Arms, others: &Arms) -> Result<(), Memory>
    requires from { from < length queue.old.met }
    requires states { HasArmsIn (λ p j. j < queue.old.states) Positive (Some arms.now) }
    requires general { HasSingleArms (Some arms.now) }
    requires special { HasSingleArms (Some others.now) }
    ensures states { OnOk result (queue.new.states ≡ queue.old.states) }
    ensures follows { OnOk result (Follows queue.old.met from (function_targets (Some arms.now)
        (Some others.now)) queue.new.met) }
{
    queue.meet(from, Step::Domain, only_pair(&arms.domain, &others.domain))?;
    queue.meet(
        from,
        Step::Codomain,
        only_pair(&arms.codomain, &others.codomain),
    )
}

// The pair of the one member of each set.
fn only_pair(general: &StateSet, special: &StateSet) -> StatePair
    requires general { IsSingle general.now }
    requires special { IsSingle special.now }
    ensures general { result.general.0 ≡ only general.now }
    ensures special { result.special.0 ≡ only special.now }
{
    StatePair {
        general: general.get(0),
        special: special.get(0),
    }
}

// Meets the fields at the labels that both have, where both have a record.
fn meet_records(
    queue: &mut Queue,
    from: usize,
    general: &Option<FieldSets>,
    special: &Option<FieldSets>,
) -> Result<(), Memory>
    requires from { from < length queue.old.met }
    requires states { HasFieldsIn (λ p j. j < queue.old.states) Positive general.now }
    requires rising { HasRisingLabels special.now }
    requires general { HasSingleFields general.now }
    requires special { HasSingleFields special.now }
    ensures states { OnOk result (queue.new.states ≡ queue.old.states) }
    ensures follows { OnOk result (Follows queue.old.met from (record_targets general.now special.now) queue.new.met) }
{
    match general {
        None => Ok(()),
        Some(fields) => match special {
            None => Ok(()),
            Some(others) => meet_fields(queue, from, fields.as_slice(), others.as_slice()),
        },
    }
}

fn meet_fields(
    queue: &mut Queue,
    from: usize,
    fields: &[FieldSet],
    others: &[FieldSet],
) -> Result<(), Memory>
    requires from { from < length queue.old.met }
    requires states { HasFieldsIn (λ p j. j < queue.old.states) Positive (Some fields.now) }
    requires rising { AreRising others.now }
    requires general { HasSingleFields (Some fields.now) }
    requires special { HasSingleFields (Some others.now) }
    ensures states { OnOk result (queue.new.states ≡ queue.old.states) }
    ensures follows { OnOk result (Follows queue.old.met from (field_targets fields.now others.now) queue.new.met) }
{
    for field in fields {
        meet_field(queue, from, field, others)?;
    }
    Ok(())
}

// Meets the fields at one label, if the other record has it.
fn meet_field(
    queue: &mut Queue,
    from: usize,
    field: &FieldSet,
    others: &[FieldSet],
) -> Result<(), Memory>
    requires from { from < length queue.old.met }
    requires states { All (λ j. j < queue.old.states) field.now.set }
    requires rising { AreRising others.now }
    requires general { IsSingle field.now.set }
    requires special { HasSingleFields (Some others.now) }
    ensures states { OnOk result (queue.new.states ≡ queue.old.states) }
    ensures follows { OnOk result (Follows queue.old.met from (field_target field.now
        (set_at others.now field.now.label)) queue.new.met) }
{
    match set_of(others, &field.label) {
        None => Ok(()),
        Some(set) => {
            let step = Step::At(field.label.clone()?);
            queue.meet(from, step, only_pair(&field.set, set))?;
            Ok(())
        }
    }
}
