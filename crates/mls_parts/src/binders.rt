//! The binders of a part of a term.
ghost use Rattle.std.specs.Prelude.{◌≡◌, IfOk, OnOk};
ghost use Rattle.std.specs.BTreeMap.{IsOrdered, get};
ghost use Rattle.std.specs.Ordering.{nat_cmp};
ghost use Rattle.mls_deriv.specs.Steps.{form_at};
ghost use Rattle.mls_parts.specs.PartBinders.{ArePartBinders};
ghost use Rattle.mls_parts.specs.Posings.{known_in};
ghost use Rattle.mls_parts.specs.steps.MetBinders.{AreListed, HasMet, met_bound, met_env, met_form, met_known};
ghost use Rattle.mls_parts.specs.steps.MetBinders.{met_named, met_node};

use crate::split::Numbers;
use mls_automaton::scheme::{EnvEntry, Scheme};
use mls_base::memory::Memory;
use mls_term::term::{TermForm, TermNode};
use std::alloc::Global;
use std::collections::BTreeMap;

/// The binders that a part names or binds, in rising order, and those of them that are around it.
#[derive(Drop)]
pub struct PartBinders {
    pub all: Numbers,
    pub around: Numbers,
}

// Binders, each with whether the part binds it.
type Met = BTreeMap<usize, bool>;

fn meet_named(met: &mut Met, x: usize) -> Result<(), Memory>
    ensures { OnOk result ((y : _) → get nat_cmp met.new y ≡ met_named y x (get nat_cmp met.old y)) }
{
    if !met.contains_key(&x) {
        met.insert(x, false)?;
    }
    Ok(())
}

// Notes the binders of an environment.
fn meet_env(met: &mut Met, env: &[EnvEntry]) -> Result<(), Memory>
    ensures { OnOk result ((y : _) → get nat_cmp met.new y ≡ met_env y env.now (get nat_cmp met.old y)) }
{
    for entry in env {
        meet_named(met, entry.binder)?;
    }
    Ok(())
}

// Notes the binders that the type of a let's first part needs.
fn meet_needed(met: &mut Met, lets: &BTreeMap<usize, Scheme>, k: usize) -> Result<(), Memory>
    ensures { OnOk result ((y : _) → get nat_cmp met.new y
        ≡ met_known y (known_in lets.now k) (get nat_cmp met.old y)) }
{
    match lets.get(&k) {
        None => Ok(()),
        Some(scheme) => meet_env(met, scheme.env.as_slice()),
    }
}

// Notes a binder of the part.
fn meet_bound(met: &mut Met, x: usize) -> Result<(), Memory>
    ensures { OnOk result ((y : _) → get nat_cmp met.new y ≡ met_bound y x (get nat_cmp met.old y)) }
{
    met.insert(x, true)?;
    Ok(())
}

fn meet_form(met: &mut Met, lets: &BTreeMap<usize, Scheme>, form: &TermForm) -> Result<(), Memory>
    ensures { OnOk result ((y : _) → get nat_cmp met.new y ≡ met_form lets.now form.now y (get nat_cmp met.old y)) }
{
    match form {
        TermForm::Bound(x) => meet_named(met, *x),
        TermForm::Inner(k) => meet_needed(met, lets, *k),
        TermForm::Let(k, _, _) => meet_needed(met, lets, *k),
        TermForm::Fun(x, _) => meet_bound(met, *x),
        TermForm::Rec(x, _) => meet_bound(met, *x),
        TermForm::Global(_) => Ok(()),
        TermForm::Number(_) => Ok(()),
        TermForm::Truth(_) => Ok(()),
        TermForm::Apply(_, _) => Ok(()),
        TermForm::Make(_) => Ok(()),
        TermForm::Project(_, _) => Ok(()),
        TermForm::If(_, _, _) => Ok(()),
    }
}

fn meet_node(
    met: &mut Met,
    lets: &BTreeMap<usize, Scheme>,
    nodes: &[TermNode],
    i: usize,
) -> Result<(), Memory>
    ensures { OnOk result ((y : _) → get nat_cmp met.new y
        ≡ met_node lets.now (form_at nodes.now i) y (get nat_cmp met.old y)) }
{
    match nodes.get(i) {
        None => Ok(()),
        Some(node) => meet_form(met, lets, &node.form),
    }
}

// The binders of these nodes.
fn met_in(
    alloc: Global,
    nodes: &[TermNode],
    part: &[usize],
    lets: &BTreeMap<usize, Scheme>,
) -> Result<Met, Memory>
    ensures { IfOk result (HasMet nodes.now lets.now part.now) }
{
    let mut met = Met::new(alloc);
    for i in part {
        meet_node(&mut met, lets, nodes, *i)?;
    }
    Ok(met)
}

// Those that were met, and those that are not bound, in rising order.
fn listed(alloc: Global, met: &Met) -> Result<PartBinders, Memory>
    ensures listed { IfOk result (AreListed met.now) }
    ensures ordered { IsOrdered nat_cmp met.now }
{
    let mut all = Numbers::new(alloc);
    let mut around = Numbers::new(alloc);
    for (x, is_bound) in met.iter() {
        all.push(*x)?;
        if !*is_bound {
            around.push(*x)?;
        }
    }
    Ok(PartBinders { all, around })
}

/// The binders of a part, where the first parts of lets have these types.
///
/// # Errors
///
/// `Memory` where memory is wanting.
pub fn binders_of(
    alloc: Global,
    nodes: &[TermNode],
    part: &[usize],
    lets: &BTreeMap<usize, Scheme>,
) -> Result<PartBinders, Memory>
    ensures { IfOk result (ArePartBinders nodes.now lets.now part.now) }
{
    let met = met_in(alloc, nodes, part, lets)?;
    let binders = listed(alloc, &met)?;
    Ok(binders)
}
