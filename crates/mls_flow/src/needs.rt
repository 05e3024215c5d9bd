//! What pairs of states need.
ghost use Rattle.std.specs.Prelude.{◌≡◌, ◌↔◌, ◌∷◌, [], true, false, IfOk, IfSome, IsTrue, Some, None};
ghost use Rattle.mls_automaton.specs.Heads.{AreRising};
ghost use Rattle.mls_automaton.specs.Models.{HasRisingLabels, HasSingleArms, HasSingleFields, IsSingle};
ghost use Rattle.mls_flow.specs.Needs.{HasCommonBase, field_need, function_needs, has_all, record_needs};

use mls_automaton::automaton::{Arms, FieldSet, FieldSets, Flow, Head};
use mls_automaton::lookup::set_of;
use mls_base::list::List;
use mls_base::memory::Memory;
use std::alloc::Global;

/// Whether the two heads have a common base type.
pub fn has_common_base(lower: &Head, upper: &Head) -> bool
    ensures { IsTrue result ↔ HasCommonBase lower.now upper.now }
{
    (lower.boolean && upper.boolean) || (lower.integer && upper.integer)
}

/// The pairs by which a function is below another: of their domains the other way round, and of their codomains.
///
/// # Errors
///
/// `Memory` where memory is wanting.
pub fn function_needs(
    alloc: Global,
    lower: &Option<Arms>,
    upper: &Option<Arms>,
) -> Result<Option<List<Flow>>, Memory>
    requires lower { HasSingleArms lower.now }
    requires upper { HasSingleArms upper.now }
    ensures { IfOk result (λ needs. needs ≡ function_needs lower.now upper.now) }
{
    match lower {
        None => Ok(None),
        Some(arms) => match upper {
            None => Ok(None),
            Some(others) => arms_needs(alloc, arms, others),
        },
    }
}

fn arms_needs(alloc: Global, arms: &Arms, others: &Arms) -> Result<Option<List<Flow>>, Memory>
    requires lower { HasSingleArms (Some arms.now) }
    requires upper { HasSingleArms (Some others.now) }
    ensures { IfOk result (λ needs. needs ≡ function_needs (Some arms.now) (Some others.now)) }
{
    let mut needs = List::new(alloc);
    needs.push(Flow {
        negative: others.domain.get(0),
        positive: arms.domain.get(0),
    })?;
    needs.push(Flow {
        negative: arms.codomain.get(0),
        positive: others.codomain.get(0),
    })?;
    Ok(Some(needs))
}

/// The pairs by which a record is below another: of the fields at each label of the second. None where the first lacks
/// one of the labels.
///
/// # Errors
///
/// `Memory` where memory is wanting.
pub fn record_needs(
    alloc: Global,
    lower: &Option<FieldSets>,
    upper: &Option<FieldSets>,
) -> Result<Option<List<Flow>>, Memory>
    requires lower { HasSingleFields lower.now }
    requires rising { HasRisingLabels lower.now }
    requires upper { HasSingleFields upper.now }
    ensures { IfOk result (λ needs. needs ≡ record_needs lower.now upper.now) }
{
    match lower {
        None => Ok(None),
        Some(fields) => match upper {
            None => Ok(None),
            Some(others) => fields_needs(alloc, fields.as_slice(), others.as_slice()),
        },
    }
}

fn fields_needs(
    alloc: Global,
    fields: &[FieldSet],
    others: &[FieldSet],
) -> Result<Option<List<Flow>>, Memory>
    requires lower { HasSingleFields (Some fields.now) }
    requires rising { AreRising fields.now }
    requires upper { HasSingleFields (Some others.now) }
    ensures { IfOk result (λ needs. needs ≡ record_needs (Some fields.now) (Some others.now)) }
{
    let mut needs = List::new(alloc);
    for other in others {
        match field_need(fields, other) {
            None => return Ok(None),
            Some(need) => needs.push(need)?,
        }
    }
    Ok(Some(needs))
}

// The pair of the fields at the label of the second, if the first record has it.
fn field_need(fields: &[FieldSet], other: &FieldSet) -> Option<Flow>
    requires lower { HasSingleFields (Some fields.now) }
    requires rising { AreRising fields.now }
    requires upper { IsSingle other.now.set }
    ensures some { IfSome result (λ need. (has_all fields.now (other.now ∷ []) ≡ true)
        × (need ≡ field_need fields.now other.now)) }
    ensures none { result ≡ None → has_all fields.now (other.now ∷ []) ≡ false }
{
    match set_of(fields, &other.label) {
        None => None,
        Some(set) => Some(Flow {
            negative: set.get(0),
            positive: other.set.get(0),
        }),
    }
}
