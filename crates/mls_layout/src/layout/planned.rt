//! Trees whose numbers are known before they are pushed, so that nodes before them can name them.
ghost use Rattle.std.specs.Prelude.{◌≡◌, ◌<◌, ◌+◌, ℕ, [], length, All, IfOk, IfSome, IsTrue, OnOk};
ghost use Rattle.mls_layout.specs.Trees.{IsNodeIn, tree_root, tree_size};
ghost use Rattle.mls_layout.specs.steps.Planned.{AddsPlanned, Extends, HasTree, IsOne, IsPlaced, IsRoot, end_of};
ghost use Rattle.mls_layout.specs.steps.Planned.{planned_tree, with_tree};

use crate::layout::distinct::distinct;
use crate::tree::{NodeIds, PlannedTree, push_planned};
use mls_automaton::automaton::Polarity;
use mls_base::list::List;
use mls_base::memory::Memory;
use mls_book::book::{Book, NodeId};
use std::alloc::Global;
use std::collections::BTreeMap;
use std::marker::Model;

/// Trees that are to be pushed one after another onto a book. Contracts see how many nodes it has then, and the trees.
#[derive(Drop)]
pub(crate) struct PlannedTrees {
    start: usize,
    // The number of the node behind the trees.
    end: usize,
    trees: List<PlannedTree>,
    // By a sum over its members, the place of a tree in the list and its number.
    known: BTreeMap<usize, (usize, NodeId)>,
}

impl Model for PlannedTrees {
    ghost use Rattle.mls_layout.specs.steps.Planned.{AreKnown, IsCounted, Planned};

    ghost Value = { Planned };

    ghost view = { λ a. record { start = a.start; trees = a.trees } };

    ghost invariant = { λ a. IsCounted a.start a.end a.trees × AreKnown a.start a.end a.trees a.known };
}

/// The number that is so many higher. Where it does not fit, memory is wanting for so many nodes.
pub(crate) fn after(number: usize, more: usize) -> Result<usize, Memory>
    ensures { IfOk result (λ sum. sum ≡ number + more) }
{
    match number.checked_add(more) {
        Some(sum) => Ok(sum),
        None => Err(Memory),
    }
}

// How many nodes the tree of these members adds.
fn tree_size(members: &[NodeId]) -> usize
    ensures { result ≡ tree_size members.now }
{
    match members.split_first() {
        None => 1,
        Some((_, rest)) => rest.len(),
    }
}

// The number of the tree of these members, where its nodes have the numbers from `start` up to `end`.
fn tree_root(start: usize, end: usize, members: &[NodeId]) -> NodeId
    requires { end ≡ start + tree_size members.now }
    ensures { result.0 ≡ tree_root start members.now }
{
    match members.split_first() {
        None => NodeId(start),
        Some((first, rest)) => {
            if rest.is_empty() {
                *first
            } else {
                NodeId(end - 1)
            }
        }
    }
}

// The only member.
fn only_of(members: &[NodeId]) -> Option<NodeId>
    ensures { IfSome result (λ id. IsOne members.now id.0) }
{
    match members.split_first() {
        None => None,
        Some((first, rest)) => { if rest.is_empty() { Some(*first) } else { None } }
    }
}

// A sum over the members of a tree in their order, which differs for most trees.
fn sum_of(polarity: Polarity, members: &[NodeId]) -> usize {
    let mut sum: usize = match polarity {
        Polarity::Positive => 1,
        Polarity::Negative => 2,
    };
    for id in members {
        sum = sum.wrapping_mul(1_000_003).wrapping_add(id.0);
    }
    sum
}

// Whether the tree is that of these members.
fn is_tree_of(tree: &PlannedTree, polarity: Polarity, members: &[NodeId]) -> bool
    ensures { IsTrue result → tree.now ≡ planned_tree polarity members.now }
{
    tree.polarity == polarity && tree.members.as_slice() == members
}

impl PlannedTrees {
    /// No tree, where the first node is to have this number.
    pub(crate) fn new(alloc: Global, start: usize) -> PlannedTrees
        ensures { result ≡ record { start = start; trees = [] } }
    {
        PlannedTrees {
            start,
            end: start,
            trees: List::new(alloc),
            known: BTreeMap::new(alloc),
        }
    }

    // Plans the tree of these members, and answers its number.
    fn add(&mut self, polarity: Polarity, members: NodeIds) -> Result<NodeId, Memory>
        requires { All (λ id. id.0 < end_of self.old) members }
        ensures trees { OnOk result (self.new ≡ with_tree self.old polarity members) }
        ensures root { IfOk result (λ id. IsRoot self.new polarity members id.0) }
        ensures low { IfOk result (λ id. id.0 < end_of self.new) }
    {
        let size = tree_size(members.as_slice());
        let end = after(self.end, size)?;
        let root = tree_root(self.end, end, members.as_slice());
        self.trees.push(PlannedTree { polarity, members })?;
        self.end = end;
        Ok(root)
    }

    // The number of the tree of just these members, where it is found by their sum.
    fn known_root(&self, sum: usize, polarity: Polarity, members: &[NodeId]) -> Option<NodeId>
        ensures { IfSome result (λ id. IsRoot self.now polarity members.now id.0 × (id.0 < end_of self.now)) }
    {
        match self.known.get(&sum) {
            None => None,
            Some((place, root)) => match self.trees.as_slice().get(*place) {
                None => None,
                Some(tree) => {
                    if is_tree_of(tree, polarity, members) {
                        return Some(*root);
                    }
                    None
                }
            },
        }
    }

    // Plans the tree of these members, which is found by their sum from then on.
    fn add_known(
        &mut self,
        sum: usize,
        polarity: Polarity,
        members: NodeIds,
    ) -> Result<NodeId, Memory>
        requires { All (λ id. id.0 < end_of self.old) members }
        ensures trees { OnOk result (self.new ≡ with_tree self.old polarity members) }
        ensures root { IfOk result (λ id. IsRoot self.new polarity members id.0) }
        ensures low { IfOk result (λ id. id.0 < end_of self.new) }
    {
        let place = self.trees.len();
        let root = self.add(polarity, members)?;
        self.known.insert(sum, (place, root))?;
        Ok(root)
    }

    // The number of the tree of these members, of which there is none or more than one. One that is planned already is
    // not planned again.
    fn tree_of(&mut self, polarity: Polarity, members: NodeIds) -> Result<NodeId, Memory>
        requires { All (λ id. id.0 < end_of self.old) members }
        ensures extends { OnOk result (Extends self.old self.new) }
        ensures root { IfOk result (λ id. IsRoot self.new polarity members id.0) }
        ensures low { IfOk result (λ id. id.0 < end_of self.new) }
    {
        if members.is_empty() {
            let root = self.add(polarity, members)?;
            return Ok(root);
        }
        let sum = sum_of(polarity, members.as_slice());
        match self.known_root(sum, polarity, members.as_slice()) {
            Some(root) => Ok(root),
            None => {
                let root = self.add_known(sum, polarity, members)?;
                Ok(root)
            }
        }
    }

    // The number of the tree of these members. Of an only member it is the member, and no tree is planned: most sets have
    // one.
    fn root_of(&mut self, polarity: Polarity, members: NodeIds) -> Result<NodeId, Memory>
        requires { All (λ id. id.0 < end_of self.old) members }
        ensures extends { OnOk result (Extends self.old self.new) }
        ensures root { IfOk result (λ id. IsPlaced self.new polarity members id.0) }
        ensures low { IfOk result (λ id. id.0 < end_of self.new) }
    {
        match only_of(members.as_slice()) {
            Some(only) => Ok(only),
            None => {
                let root = self.tree_of(polarity, members)?;
                Ok(root)
            }
        }
    }

    /// Plans the tree of these members, each once and in the order of their numbers, unless it is planned already or has
    /// one member, and answers its number.
    pub(crate) fn plan(
        &mut self,
        alloc: Global,
        polarity: Polarity,
        members: NodeIds,
    ) -> Result<NodeId, Memory>
        requires { All (λ id. id.0 < end_of self.old) members }
        ensures extends { OnOk result (Extends self.old self.new) }
        ensures tree { IfOk result (λ id. HasTree self.new polarity (IsNodeIn members) id.0) }
    {
        let once = distinct(alloc, members)?;
        let root = self.root_of(polarity, once)?;
        Ok(root)
    }

    /// Pushes the trees.
    pub(crate) fn push_onto(&self, book: &mut Book) -> Result<(), Memory>
        requires { self.now.start ≡ length book.old }
        ensures { OnOk result (AddsPlanned self.now book.old book.new) }
    {
        for tree in self.trees.as_slice() {
            push_planned(book, tree)?;
        }
        Ok(())
    }
}
