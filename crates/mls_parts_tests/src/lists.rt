//! Whether lists of nodes are parts, for tests that pose them.
ghost use Rattle.std.specs.Prelude.{◌↔◌, All, IfOk, IsTrue};
ghost use Rattle.mls_term.specs.declared.term.Part.{Part};
ghost use Rattle.mls_layout.specs.PosedNodes.{HasPartsIn};
ghost use Rattle.mls_parts.specs.PosedParts.{IsPartList};
ghost use Rattle.mls_layout.specs.steps.Posable.{Has, MayFollow};

use mls_base::memory::Memory;
use mls_term::term::{Part, TermForm, TermNode};
use std::alloc::Global;
use std::collections::BTreeSet;

// Whether these are nodes of a term, each once and each behind its parts.
pub fn is_part_list(alloc: Global, nodes: &[TermNode], part: &[usize]) -> Result<bool, Memory>
    ensures { IfOk result (λ is. IsTrue is → IsPartList nodes.now part.now) }
{
    let mut done = BTreeSet::new(alloc);
    for node in part {
        if !may_follow(nodes, &done, *node) {
            return Ok(false);
        }
        done.insert(*node)?;
    }
    Ok(true)
}

// Whether a node may stand behind those that are done.
fn may_follow(nodes: &[TermNode], done: &BTreeSet<usize>, node: usize) -> bool
    ensures { IsTrue result → MayFollow nodes.now done.now node }
{
    node < nodes.len() && !has(done, node) && has_parts_in(done, &nodes[node].form)
}

// Whether the parts of a node are done. The first part of a let is none of its own.
fn has_parts_in(done: &BTreeSet<usize>, form: &TermForm) -> bool
    ensures { IsTrue result → HasPartsIn (Has done.now) form.now }
{
    match form {
        TermForm::Bound(_) => true,
        TermForm::Inner(_) => true,
        TermForm::Global(_) => true,
        TermForm::Number(_) => true,
        TermForm::Truth(_) => true,
        TermForm::Fun(_, body) => has(done, *body),
        TermForm::Apply(function, argument) => has(done, *function) && has(done, *argument),
        TermForm::Make(parts) => have_children_in(done, parts.as_slice()),
        TermForm::Project(body, _) => has(done, *body),
        TermForm::If(condition, first, second) => {
            has(done, *condition) && has(done, *first) && has(done, *second)
        }
        TermForm::Let(_, _, second) => has(done, *second),
        TermForm::Rec(_, body) => has(done, *body),
    }
}

// Whether the parts of a record are done.
fn have_children_in(done: &BTreeSet<usize>, parts: &[Part]) -> bool
    ensures { IsTrue result → All (λ (part : Part). Has done.now part.child) parts.now }
{
    for part in parts {
        if !has(done, part.child) {
            return false;
        }
    }
    true
}

// Whether the number is in the set.
fn has(set: &BTreeSet<usize>, number: usize) -> bool
    ensures { IsTrue result ↔ Has set.now number }
{
    set.contains(&number)
}
