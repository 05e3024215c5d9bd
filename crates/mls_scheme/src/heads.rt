//! Heads of nodes, and combined heads of many.
ghost use Rattle.std.specs.Prelude.{◌≡◌, ◌<◌, ◌+◌, ◌≤◌, length, map, All, IfOk};
ghost use Rattle.mls_automaton.specs.Heads.{combined, parts_of, IsSameParts};
ghost use Rattle.mls_automaton.specs.Models.{HasRisingLabels};
ghost use Rattle.mls_automaton.specs.declared.automaton.Head.{Head};
ghost use Rattle.mls_book.specs.Books.{node_at, IsBook};
ghost use Rattle.mls_scheme.specs.ReadAutomata.{atom_parts};
ghost use Rattle.mls_scheme.specs.steps.Heads.{arrow_of, atom_head_of, field_set_of, heads_of, record_of, HasOneHead};

use mls_automaton::automaton::{Arms, FieldSet, FieldSets, Head, Polarity};
use mls_automaton::combine::combine_heads;
use mls_automaton::state_set::{StateId, StateSet};
use mls_base::memory::Memory;
use mls_book::book::{Book, Field, Fields, Node, NodeId};
use std::alloc::Global;

fn copy_head(head: &Head) -> Result<Head, Memory>
    ensures { IfOk result (λ copy. copy ≡ head.now) }
{
    let copy = head.clone()?;
    Ok(copy)
}

// The head of two places, or of the last one.
fn combine_at(alloc: Global, p: Polarity, heads: &[Head], i: usize) -> Result<Head, Memory>
    requires labels { All (λ (h : Head). HasRisingLabels h.fields) heads.now }
    requires i { i < length heads.now }
    ensures { IfOk result (HasOneHead p heads.now i) }
{
    if i + 1 < heads.len() {
        let head = combine_heads(alloc, p, &heads[i], &heads[i + 1])?;
        return Ok(head);
    }
    let head = copy_head(&heads[i])?;
    Ok(head)
}

// Half as many heads, each combined of two that stand side by side.
fn combine_pairs(alloc: Global, p: Polarity, heads: &[Head]) -> Result<Vec<Head>, Memory>
    requires labels { All (λ (h : Head). HasRisingLabels h.fields) heads.now }
    ensures labels { IfOk result (λ half. All (λ (h : Head). HasRisingLabels h.fields) half.items) }
    ensures same { IfOk result (λ half. IsSameParts (combined p (map parts_of half.items))
        (combined p (map parts_of heads.now))) }
    ensures fewer { IfOk result (λ half. length half.items + length half.items ≤ length heads.now + 1) }
{
    let mut half = Vec::new(alloc);
    let mut i = 0;
    while i < heads.len() {
        half.push(combine_at(alloc, p, heads, i)?)?;
        i += 2;
    }
    Ok(half)
}

/// The combined head of all, in a number of rounds that is logarithmic in theirs.
///
/// # Errors
///
/// `Memory` where memory is wanting.
pub fn combine_all(alloc: Global, p: Polarity, heads: Vec<Head>) -> Result<Head, Memory>
    requires labels { All (λ (h : Head). HasRisingLabels h.fields) heads.items }
    ensures labels { IfOk result (λ head. HasRisingLabels head.fields) }
    ensures same { IfOk result (λ head. IsSameParts (parts_of head) (combined p (map parts_of heads.items))) }
{
    let mut left = heads;
    while left.len() > 1 {
        left = combine_pairs(alloc, p, left.as_slice())?;
    }
    match left.pop() {
        Some(head) => Ok(head),
        None => Ok(Head::empty()),
    }
}

fn field_set(alloc: Global, field: &Field) -> Result<FieldSet, Memory>
    ensures { IfOk result (λ set. set ≡ field_set_of field.now) }
{
    let label = field.label.clone()?;
    let set = StateSet::one(alloc, StateId(field.node.0))?;
    Ok(FieldSet { label, set })
}

// The fields of a record, each with the state of its node.
fn field_sets(alloc: Global, fields: &[Field]) -> Result<FieldSets, Memory>
    ensures { IfOk result (λ sets. sets ≡ map field_set_of fields.now) }
{
    let mut sets = FieldSets::new(alloc);
    for field in fields {
        let set = field_set(alloc, field)?;
        sets.push(set)?;
    }
    Ok(sets)
}

fn arrow_head(alloc: Global, from: NodeId, to: NodeId) -> Result<Head, Memory>
    ensures { IfOk result (λ head. head ≡ arrow_of from.0 to.0) }
{
    let domain = StateSet::one(alloc, StateId(from.0))?;
    let codomain = StateSet::one(alloc, StateId(to.0))?;
    Ok(Head {
        boolean: false,
        integer: false,
        function: Some(Arms { domain, codomain }),
        fields: None,
    })
}

fn record_head(alloc: Global, fields: &Fields) -> Result<Head, Memory>
    ensures { IfOk result (λ head. head ≡ record_of fields.now) }
{
    let sets = field_sets(alloc, fields.as_slice())?;
    Ok(Head {
        boolean: false,
        integer: false,
        function: None,
        fields: Some(sets),
    })
}

// The head that an atom gives.
fn atom_head(alloc: Global, node: &Node) -> Result<Head, Memory>
    ensures { IfOk result (λ head. head ≡ atom_head_of node.now) }
{
    let mut head = Head::empty();
    match node {
        Node::Bool => head.boolean = true,
        Node::Int => head.integer = true,
        Node::Arrow(from, to) => head = arrow_head(alloc, *from, *to)?,
        Node::Rcd(fields) => head = record_head(alloc, fields)?,
        _ => {}
    }
    Ok(head)
}

fn atom_heads(alloc: Global, book: &Book, atoms: &[usize]) -> Result<Vec<Head>, Memory>
    requires { All (λ j. j < length book.now) atoms.now }
    ensures { IfOk result (λ heads. heads.items ≡ heads_of book.now atoms.now) }
{
    let mut heads = Vec::new(alloc);
    for j in atoms {
        let head = atom_head(alloc, book.node(NodeId(*j)))?;
        heads.push(head)?;
    }
    Ok(heads)
}

/// The combined head of these atoms.
///
/// # Errors
///
/// `Memory` where memory is wanting.
pub fn layer_head(alloc: Global, book: &Book, p: Polarity, atoms: &[usize]) -> Result<Head, Memory>
    requires book { IsBook book.now }
    requires atoms { All (λ j. j < length book.now) atoms.now }
    ensures labels { IfOk result (λ head. HasRisingLabels head.fields) }
    ensures same { IfOk result (λ head. IsSameParts (parts_of head)
        (combined p (map (λ j. atom_parts (node_at book.now j)) atoms.now))) }
{
    if atoms.len() == 1 {
        let alone = atom_head(alloc, book.node(NodeId(atoms[0])))?;
        return Ok(alone);
    }
    let heads = atom_heads(alloc, book, atoms)?;
    let head = combine_all(alloc, p, heads)?;
    Ok(head)
}
