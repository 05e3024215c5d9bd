//! A head with one state for each of its sets.
ghost use Rattle.std.specs.Prelude.{◌≡◌, ◌<◌, IfOk, OnOk};
ghost use Rattle.mls_shape.specs.steps.Registers.{IsRegister, sets_in};
ghost use Rattle.mls_shape.specs.steps.NumberedHeads.{NumbersSet, NumbersArms, NumbersFunction, NumbersFields};
ghost use Rattle.mls_shape.specs.steps.NumberedHeads.{NumbersRecord, NumbersHead};

use crate::register::Register;
use mls_automaton::automaton::{Arms, FieldSet, FieldSets, Head, Polarity};
use mls_automaton::state_set::{StateId, StateSet};
use mls_base::memory::Memory;
use mls_book::name::Name;
use std::alloc::Global;

fn copied_set(set: &StateSet) -> Result<StateSet, Memory>
    ensures { IfOk result (λ copy. copy ≡ set.now) }
{
    let copy = set.clone()?;
    Ok(copy)
}

fn copied_label(label: &Name) -> Result<Name, Memory>
    ensures { IfOk result (λ copy. copy ≡ label.now) }
{
    let copy = label.clone()?;
    Ok(copy)
}

// The set of the one state that a set is.
fn numbered_set(
    register: &mut Register,
    alloc: Global,
    polarity: Polarity,
    set: &StateSet,
) -> Result<StateSet, Memory>
    requires { IsRegister register.old }
    ensures register { OnOk result (IsRegister register.new) }
    ensures set { IfOk result (NumbersSet polarity set.now (sets_in register.old) (sets_in register.new)) }
{
    let members = copied_set(set)?;
    let number = register.number_of(alloc, polarity, members)?;
    StateSet::one(alloc, StateId(number))
}

// A function with one state for each of its sets.
fn numbered_arms(
    register: &mut Register,
    alloc: Global,
    polarity: Polarity,
    arms: &Arms,
) -> Result<Arms, Memory>
    requires { IsRegister register.old }
    ensures register { OnOk result (IsRegister register.new) }
    ensures arms { IfOk result (NumbersArms polarity arms.now (sets_in register.old) (sets_in register.new)) }
{
    let domain = numbered_set(register, alloc, polarity.opposite(), &arms.domain)?;
    let codomain = numbered_set(register, alloc, polarity, &arms.codomain)?;
    Ok(Arms { domain, codomain })
}

fn numbered_function(
    register: &mut Register,
    alloc: Global,
    polarity: Polarity,
    function: &Option<Arms>,
) -> Result<Option<Arms>, Memory>
    requires { IsRegister register.old }
    ensures register { OnOk result (IsRegister register.new) }
    ensures function { IfOk result (NumbersFunction polarity function.now (sets_in register.old)
        (sets_in register.new)) }
{
    match function {
        None => Ok(None),
        Some(arms) => {
            let arms = numbered_arms(register, alloc, polarity, arms)?;
            Ok(Some(arms))
        }
    }
}

// Fields with one state for each of their sets.
fn numbered_fields(
    register: &mut Register,
    alloc: Global,
    polarity: Polarity,
    fields: &FieldSets,
) -> Result<FieldSets, Memory>
    requires { IsRegister register.old }
    ensures register { OnOk result (IsRegister register.new) }
    ensures fields { IfOk result (NumbersFields polarity fields.now (sets_in register.old) (sets_in register.new)) }
{
    let mut numbered = FieldSets::new(alloc);
    for field in fields.as_slice() {
        let label = copied_label(&field.label)?;
        let set = numbered_set(register, alloc, polarity, &field.set)?;
        numbered.push(FieldSet { label, set })?;
    }
    Ok(numbered)
}

fn numbered_record(
    register: &mut Register,
    alloc: Global,
    polarity: Polarity,
    fields: &Option<FieldSets>,
) -> Result<Option<FieldSets>, Memory>
    requires { IsRegister register.old }
    ensures register { OnOk result (IsRegister register.new) }
    ensures fields { IfOk result (NumbersRecord polarity fields.now (sets_in register.old) (sets_in register.new)) }
{
    match fields {
        None => Ok(None),
        Some(fields) => {
            let fields = numbered_fields(register, alloc, polarity, fields)?;
            Ok(Some(fields))
        }
    }
}

/// The head with one state for each of its sets. New sets get the next numbers.
///
/// # Errors
///
/// `Memory` where memory is wanting.
pub fn numbered_head(
    register: &mut Register,
    alloc: Global,
    polarity: Polarity,
    head: &Head,
) -> Result<Head, Memory>
    requires { IsRegister register.old }
    ensures register { OnOk result (IsRegister register.new) }
    ensures head { IfOk result (NumbersHead polarity head.now (sets_in register.old) (sets_in register.new)) }
{
    let function = numbered_function(register, alloc, polarity, &head.function)?;
    let fields = numbered_record(register, alloc, polarity, &head.fields)?;
    Ok(Head {
        boolean: head.boolean,
        integer: head.integer,
        function,
        fields,
    })
}
