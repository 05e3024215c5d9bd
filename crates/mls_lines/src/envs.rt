//! Environments of steps with a binder more, or without it, and what two of them need.
ghost use Rattle.std.specs.Prelude.{◌≡◌, ◌++◌, ◌∷◌, [], map, IfOk, OnOk, true, false};
ghost use Rattle.mls_deriv.specs.Steps.{IsRising};
ghost use Rattle.mls_lines.specs.Conclusions.{IsWith, IsWithout};
ghost use Rattle.mls_lines.specs.Environments.{AreNeeded, IsNext};
ghost use Rattle.mls_lines.specs.Stepping.{above, below};

use mls_base::list::List;
use mls_base::memory::Memory;
use mls_book::book::NodeId;
use mls_deriv::derivation::{BinderNode, BinderNodes};
use std::alloc::Global;
use std::cmp::Ordering;

// Adds an entry where it is kept.
fn push_kept(left: &mut BinderNodes, entry: BinderNode, is_kept: bool) -> Result<(), Memory>
    ensures kept { is_kept ≡ true → OnOk result (left.new ≡ left.old ++ entry ∷ []) }
    ensures gone { is_kept ≡ false → OnOk result (left.new ≡ left.old) }
{
    if !is_kept {
        return Ok(());
    }
    left.push(entry)?;
    Ok(())
}

// Adds the entries of lower binders.
fn push_below(left: &mut BinderNodes, env: &[BinderNode], binder: usize) -> Result<(), Memory>
    ensures { OnOk result (left.new ≡ left.old ++ below binder env.now) }
{
    for entry in env {
        push_kept(left, *entry, entry.binder < binder)?;
    }
    Ok(())
}

// Adds the entries of higher binders.
fn push_above(left: &mut BinderNodes, env: &[BinderNode], binder: usize) -> Result<(), Memory>
    ensures { OnOk result (left.new ≡ left.old ++ above binder env.now) }
{
    for entry in env {
        push_kept(left, *entry, binder < entry.binder)?;
    }
    Ok(())
}

/// An environment in which this binder has this node, and the others are as before.
///
/// # Errors
///
/// `Memory` where memory is wanting.
pub fn with(
    alloc: Global,
    env: &[BinderNode],
    binder: usize,
    node: NodeId,
) -> Result<BinderNodes, Memory>
    ensures { IsRising env.now → IfOk result (IsWith env.now binder node.0) }
{
    let mut longer = BinderNodes::new(alloc);
    push_below(&mut longer, env, binder)?;
    longer.push(BinderNode { binder, node })?;
    push_above(&mut longer, env, binder)?;
    Ok(longer)
}

/// An environment without this binder.
///
/// # Errors
///
/// `Memory` where memory is wanting.
pub fn without(alloc: Global, env: &[BinderNode], binder: usize) -> Result<BinderNodes, Memory>
    ensures { IsRising env.now → IfOk result (IsWithout env.now binder) }
{
    let mut shorter = BinderNodes::new(alloc);
    push_below(&mut shorter, env, binder)?;
    push_above(&mut shorter, env, binder)?;
    Ok(shorter)
}

/// A binder that one of two environments has, with its node, or that both have, with both nodes.
#[derive(Clone, Copy)]
pub enum Needed {
    One(BinderNode),
    Both(usize, NodeId, NodeId),
}

// What two environments need first, where these are their first entries, and how many entries of each are gone then.
fn next_of(left: BinderNode, right: BinderNode) -> (Needed, usize, usize)
    ensures { IsNext left right result.0 result.1 result.2 }
{
    match left.binder.cmp(&right.binder) {
        Ordering::Less => (Needed::One(left), 1, 0),
        Ordering::Equal => (Needed::Both(left.binder, left.node, right.node), 1, 1),
        Ordering::Greater => (Needed::One(right), 0, 1),
    }
}

// Adds what one environment alone needs.
fn push_alone(all: &mut List<Needed>, env: &[BinderNode]) -> Result<(), Memory>
    ensures { OnOk result (all.new ≡ all.old ++ map Needed.One env.now) }
{
    for entry in env {
        all.push(Needed::One(*entry))?;
    }
    Ok(())
}

/// What two environments need, in the order of their binders.
///
/// # Errors
///
/// `Memory` where memory is wanting.
pub fn merged(
    alloc: Global,
    first: &[BinderNode],
    second: &[BinderNode],
) -> Result<List<Needed>, Memory>
    ensures { IsRising first.now → IsRising second.now → IfOk result (AreNeeded first.now second.now) }
{
    let mut all = List::new(alloc);
    let mut i = 0;
    let mut j = 0;
    while i < first.len() && j < second.len() {
        let (next, left, right) = next_of(first[i], second[j]);
        all.push(next)?;
        i += left;
        j += right;
    }
    push_alone(&mut all, &first[i..])?;
    push_alone(&mut all, &second[j..])?;
    Ok(all)
}
