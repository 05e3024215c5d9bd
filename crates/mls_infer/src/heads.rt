//! Heads of new states.
ghost use Rattle.std.specs.Prelude.{◌≡◌, ◌++◌, ◌∷◌, [], map, IfOk, OnOk};
ghost use Rattle.std.specs.BTreeMap.{IsOrdered};
ghost use Rattle.std.specs.Ordering.{nat_cmp};
ghost use Rattle.std.specs.Cmp.Lexicographic.{slice_cmp};
ghost use Rattle.mls_infer.specs.Constraints.{bool_head, function_head, int_head, record_head};
ghost use Rattle.mls_infer.specs.Joining.{field_of, row_field};

use mls_automaton::automaton::{Arms, FieldSet, FieldSets, Head};
use mls_automaton::state_set::{StateId, StateSet};
use mls_base::memory::Memory;
use mls_book::name::Name;
use std::alloc::Global;
use std::collections::BTreeMap;

/// The head of numbers.
pub(crate) fn int_head() -> Head
    ensures { result ≡ int_head }
{
    let mut head = Head::empty();
    head.integer = true;
    head
}

/// The head of truth values.
pub(crate) fn bool_head() -> Head
    ensures { result ≡ bool_head }
{
    let mut head = Head::empty();
    head.boolean = true;
    head
}

/// The head of the functions from these states to this one.
///
/// # Errors
///
/// `Memory` where memory is wanting.
pub(crate) fn function_head(
    alloc: Global,
    domain: StateSet,
    codomain: StateId,
) -> Result<Head, Memory>
    ensures { IfOk result (λ head. head ≡ function_head domain (codomain.0 ∷ [])) }
{
    let codomain = StateSet::one(alloc, codomain)?;
    let mut head = Head::empty();
    head.function = Some(Arms { domain, codomain });
    Ok(head)
}

/// The head of the records with this field.
///
/// # Errors
///
/// `Memory` where memory is wanting.
pub(crate) fn field_head(alloc: Global, label: &Name, state: StateId) -> Result<Head, Memory>
    ensures { IfOk result (λ head. head ≡ record_head (field_of label.now state.0 ∷ [])) }
{
    let mut fields = FieldSets::new(alloc);
    add_field(alloc, &mut fields, label, state)?;
    Ok(fields_head(fields))
}

/// The head of the records with the fields of these labels, each with its state.
///
/// # Errors
///
/// `Memory` where memory is wanting.
pub(crate) fn record_head(alloc: Global, rows: &BTreeMap<Name, StateId>) -> Result<Head, Memory>
    ensures fields { IfOk result (λ head. head ≡ record_head (map row_field rows.now.entries)) }
    ensures ordered { IsOrdered (slice_cmp nat_cmp) rows.now }
{
    let mut fields = FieldSets::new(alloc);
    for (label, root) in rows.iter() {
        add_field(alloc, &mut fields, label, *root)?;
    }
    Ok(fields_head(fields))
}

fn add_field(
    alloc: Global,
    fields: &mut FieldSets,
    label: &Name,
    state: StateId,
) -> Result<(), Memory>
    ensures { OnOk result (fields.new ≡ fields.old ++ field_of label.now state.0 ∷ []) }
{
    fields.push(FieldSet {
        label: label.clone()?,
        set: StateSet::one(alloc, state)?,
    })?;
    Ok(())
}

fn fields_head(fields: FieldSets) -> Head
    ensures { result ≡ record_head fields }
{
    let mut head = Head::empty();
    head.fields = Some(fields);
    head
}
