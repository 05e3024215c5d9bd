//! The parts of a term: the first part of each let, and the whole, each without the parts that lie in it.
ghost use Rattle.std.specs.Prelude.{◌≡◌, ◌<◌, length, true, IfOk, OnOk, Some, None};
ghost use Rattle.std.specs.BTreeMap.{get};
ghost use Rattle.std.specs.Ordering.{nat_cmp, is_eq};
ghost use Rattle.mls_parts.specs.TermParts.{AreTermParts};
ghost use Rattle.mls_parts.specs.TreeNodes.{AreTreeNodes};
ghost use Rattle.mls_parts.specs.steps.Owners.{AreOwners, Gives, IsChildOf, IsNamed, IsOne, IsPart, IsSplit};
ghost use Rattle.mls_parts.specs.steps.Owners.{with_form, with_node};

use mls_base::list::List;
use mls_base::memory::Memory;
use mls_term::term::{Part, TermForm, TermNode};
use std::alloc::Global;
use std::collections::BTreeMap;

/// Numbers in order.
pub type Numbers = List<usize>;

/// A part of a term: its nodes, each behind those below it, and the let of which it is the first part.
#[derive(Drop)]
pub struct TermPart {
    pub of_let: Option<usize>,
    pub nodes: Numbers,
}

/// Parts by the numbers of their roots.
pub type TermParts = BTreeMap<usize, TermPart>;

// The root of the part of each node.
type Owners = Vec<usize>;

// Gives a node to the part with this root.
fn own(owners: &mut Owners, node: usize, root: usize)
    ensures { Gives (IsOne node root) owners.old.items owners.new.items }
{
    if node < owners.len() {
        owners[node] = root;
    }
}

fn own_parts(owners: &mut Owners, parts: &[Part], root: usize)
    ensures { Gives (IsPart parts.now root) owners.old.items owners.new.items }
{
    for part in parts {
        own(owners, part.child, root);
    }
}

// Gives the parts of an expression to the part of the term that it is in itself, but for the first part of a let.
fn own_children(owners: &mut Owners, form: &TermForm, root: usize)
    ensures { Gives (IsChildOf form.now root) owners.old.items owners.new.items }
{
    match form {
        TermForm::Bound(_) => {}
        TermForm::Inner(_) => {}
        TermForm::Global(_) => {}
        TermForm::Number(_) => {}
        TermForm::Truth(_) => {}
        TermForm::Fun(_, body) => own(owners, *body, root),
        TermForm::Rec(_, body) => own(owners, *body, root),
        TermForm::Project(body, _) => own(owners, *body, root),
        TermForm::Apply(function, argument) => {
            own(owners, *function, root);
            own(owners, *argument, root);
        }
        TermForm::Make(parts) => own_parts(owners, parts.as_slice(), root),
        TermForm::If(condition, first, second) => {
            own(owners, *condition, root);
            own(owners, *first, root);
            own(owners, *second, root);
        }
        TermForm::Let(_, first, second) => {
            own(owners, *first, *first);
            own(owners, *second, root);
        }
    }
}

// The root of the part of each node: parents stand behind their children, so they are looked at before them.
fn owners_of(alloc: Global, nodes: &[TermNode]) -> Result<Owners, Memory>
    requires { AreTreeNodes nodes.now }
    ensures { IfOk result (λ owners. AreOwners nodes.now owners.items) }
{
    let last = nodes.len().saturating_sub(1);
    let mut owners = vec![in alloc; last; nodes.len()]?;
    for back in 0..nodes.len() {
        let i = nodes.len() - 1 - back;
        let root = owners[i];
        own_children(&mut owners, &nodes[i].form, root);
    }
    Ok(owners)
}

// Adds a node to the part with this root.
fn add_node(alloc: Global, parts: &mut TermParts, root: usize, node: usize) -> Result<(), Memory>
    ensures { OnOk result ((r : _) → get nat_cmp parts.new r
        ≡ with_node (is_eq (nat_cmp root r)) node (get nat_cmp parts.old r)) }
{
    match parts.get_mut(&root) {
        Some(part) => part.nodes.push(node)?,
        None => {
            parts.insert(root, first_of(alloc, node)?)?;
        }
    }
    Ok(())
}

// The part of one node.
fn first_of(alloc: Global, node: usize) -> Result<TermPart, Memory>
    ensures { IfOk result (λ part. Some part ≡ with_node true node None) }
{
    let mut nodes = Numbers::new(alloc);
    nodes.push(node)?;
    Ok(TermPart {
        of_let: None,
        nodes,
    })
}

// The nodes of each part, by the root of the part of each node.
fn split(alloc: Global, owners: &[usize]) -> Result<TermParts, Memory>
    ensures { IfOk result (λ parts. IsSplit owners.now (length owners.now) (get nat_cmp parts)) }
{
    let mut parts = TermParts::new(alloc);
    for (node, root) in owners.iter().enumerate() {
        add_node(alloc, &mut parts, *root, node)?;
    }
    Ok(parts)
}

// Notes of which let the part with this root is the first.
fn name_part(parts: &mut TermParts, form: &TermForm)
    ensures { (r : _) → get nat_cmp parts.new r ≡ with_form form.now r (get nat_cmp parts.old r) }
{
    if let TermForm::Let(k, first, _) = form {
        if let Some(part) = parts.get_mut(first) {
            part.of_let = Some(*k);
        }
    }
}

// Notes of each part of which let it is the first.
fn name_parts(parts: &mut TermParts, nodes: &[TermNode])
    requires { (r : _) (part : _) → get nat_cmp parts.old r ≡ Some part → part.of_let ≡ None }
    ensures { IsNamed nodes.now (length nodes.now) (get nat_cmp parts.old) (get nat_cmp parts.new) }
{
    for node in nodes {
        name_part(parts, &node.form);
    }
}

/// The parts of a term. By the numbers of their roots, each let's first part comes before the part that the let is in,
/// and before the parts that use its name.
///
/// # Errors
///
/// `Memory` where memory is wanting.
pub fn parts_of(alloc: Global, nodes: &[TermNode]) -> Result<TermParts, Memory>
    requires { AreTreeNodes nodes.now }
    ensures { IfOk result (AreTermParts nodes.now) }
{
    let owners = owners_of(alloc, nodes)?;
    let mut parts = split(alloc, owners.as_slice())?;
    name_parts(&mut parts, nodes);
    Ok(parts)
}
