//! Why heads fail, and the first pair that fails by its heads.
ghost use Rattle.std.specs.Prelude.{IfOk, option_map, Some};
ghost use Rattle.mls_automaton.specs.Heads.{AreRising};
ghost use Rattle.mls_automaton.specs.Models.{HasRisingLabels};
ghost use Rattle.mls_automaton.specs.Schemes.{IsScheme};
ghost use Rattle.mls_subsume.specs.Failures.{FailsByLabel, HasLabelAlone, IsFirstMissing, IsFirstReason, IsLeast};
ghost use Rattle.mls_subsume.specs.Searches.{IsRising, IsSearch, IsFirstByHead};

use crate::queue::Queue;
use crate::verdict::{Path, Reason};
use mls_automaton::automaton::{FieldSet, FieldSets, Head, HeadKind, Polarity};
use mls_automaton::lookup::set_of;
use mls_automaton::scheme::Scheme;
use mls_base::memory::Memory;
use mls_book::name::Name;
use std::alloc::Global;

/// The first failure by a part or a label, if there is one.
///
/// # Errors
///
/// `Memory` where memory is wanting.
pub fn first_by_head(
    alloc: Global,
    queue: &Queue,
    general: &Scheme,
    special: &Scheme,
) -> Result<Option<Path>, Memory>
    requires general { IsScheme general.now }
    requires special { IsScheme special.now }
    requires search { IsSearch general.now special.now queue.now.met }
    requires rising { IsRising queue.now.met }
    ensures { IfOk result (IsFirstByHead general.now special.now queue.now.met) }
{
    for number in 0..queue.len() {
        let pair = queue.pair(number);
        let polarity = general.automaton.polarity(pair.general);
        let first = general.automaton.head(pair.general);
        let second = special.automaton.head(pair.special);
        if let Some(reason) = head_reason(polarity, first, second)? {
            let steps = queue.steps(alloc, number)?;
            return Ok(Some(Path { steps, reason }));
        }
    }
    Ok(None)
}

// The first reason by which the heads of a pair of this polarity fail, if there is one.
fn head_reason(polarity: Polarity, general: &Head, special: &Head) -> Result<Option<Reason>, Memory>
    requires general { HasRisingLabels general.now.fields }
    requires special { HasRisingLabels special.now.fields }
    ensures { IfOk result (IsFirstReason polarity general.now special.now) }
{
    if let Some(kind) = missing_kind(general, special) {
        return Ok(Some(Reason::Head(kind)));
    }
    match missing_label(polarity, &general.fields, &special.fields) {
        None => Ok(None),
        Some(label) => Ok(Some(Reason::Label(label.clone()?))),
    }
}

// The first kind of which only the first head has a part.
fn missing_kind(general: &Head, special: &Head) -> Option<HeadKind>
    ensures { IsFirstMissing general.now special.now result }
{
    if general.boolean && !special.boolean {
        Some(HeadKind::Bool)
    } else if general.integer && !special.integer {
        Some(HeadKind::Int)
    } else if general.function.is_some() && !special.function.is_some() {
        Some(HeadKind::Function)
    } else if general.fields.is_some() && !special.fields.is_some() {
        Some(HeadKind::Rcd)
    } else {
        None
    }
}

// The least label by which two records fail, where both have one.
fn missing_label<'a>(
    polarity: Polarity,
    general: &'a Option<FieldSets>,
    special: &'a Option<FieldSets>,
) -> Option<&'a Name>
    requires general { HasRisingLabels general.now }
    requires special { HasRisingLabels special.now }
    ensures { IsLeast (FailsByLabel polarity general.now special.now) (option_map (λ label. label.now) result) }
{
    match general {
        None => None,
        Some(fields) => match special {
            None => None,
            Some(others) => missing_among(polarity, fields.as_slice(), others.as_slice()),
        },
    }
}

fn missing_among<'a>(
    polarity: Polarity,
    fields: &'a [FieldSet],
    others: &'a [FieldSet],
) -> Option<&'a Name>
    requires general { AreRising fields.now }
    requires special { AreRising others.now }
    ensures { IsLeast (FailsByLabel polarity (Some fields.now) (Some others.now)) (option_map
        (λ label. label.now) result) }
{
    match polarity {
        Polarity::Positive => first_alone(others, fields),
        Polarity::Negative => first_alone(fields, others),
    }
}

// The least label that only the first record has.
fn first_alone<'a>(fields: &'a [FieldSet], others: &[FieldSet]) -> Option<&'a Name>
    requires fields { AreRising fields.now }
    requires others { AreRising others.now }
    ensures { IsLeast (HasLabelAlone (Some fields.now) (Some others.now)) (option_map (λ label. label.now) result) }
{
    for field in fields {
        if set_of(others, &field.label).is_none() {
            return Some(&field.label);
        }
    }
    None
}
