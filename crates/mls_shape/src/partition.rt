//! Partitions of nodes into blocks, and their refinement.
ghost use Rattle.std.specs.Prelude.{◌≡◌, ◌↔◌, ◌≤◌, ◌<◌, length, All, IfOk, IsTrue, OnOk};
ghost use Rattle.mls_shape.specs.steps.Classes.{class_in};
ghost use Rattle.mls_shape.specs.steps.Partitions.{AddsIfInBlock, AreMembers, AreNodes, HasPart, HoldsInBlock};
ghost use Rattle.mls_shape.specs.steps.Partitions.{IsInBlock, IsPartition, IsRefinement, OpensPart, PartsNode};
ghost use Rattle.mls_shape.specs.steps.Partitions.{PartsNodes, SendsNode};

use crate::agenda::Agenda;
use crate::edges::{add_holder, add_holders, no_holders};
use mls_base::list::List;
use mls_base::memory::Memory;
use std::alloc::Global;

/// Nodes in blocks, each of which has a number from 0.
#[derive(Drop)]
pub struct Partition {
    /// The block of each node.
    pub blocks: Vec<usize>,
    /// For each block its nodes, and maybe others that have left it.
    pub members: Vec<List<usize>>,
    /// For each block the one to which its nodes went last.
    pub parts: Vec<usize>,
    pub agenda: Agenda,
}

impl Partition {
    /// The partition with these blocks.
    pub fn new(alloc: Global, blocks: Vec<usize>) -> Result<Partition, Memory>
        ensures partition { IfOk result (λ p. IsPartition (length blocks.items) p) }
        ensures blocks { IfOk result (λ p. p.blocks.items ≡ blocks.items) }
    {
        let count = bound_of(blocks.as_slice())?;
        let members = members_of(alloc, blocks.as_slice(), count)?;
        let parts = vec![in alloc; 0; count]?;
        let agenda = Agenda::of(alloc, members.as_slice())?;
        Ok(Partition {
            blocks,
            members,
            parts,
            agenda,
        })
    }

    /// Splits each block by whether its nodes have a child in a block, until no block splits another. Where no node has
    /// two children in one block, it takes time linear in the edges, with the binary digits of the number of nodes.
    ///
    /// # Errors
    ///
    /// `Memory` where memory is wanting.
    pub fn refine(&mut self, alloc: Global, parents: &[List<usize>]) -> Result<(), Memory>
        requires partition { IsPartition (length parents.now) self.old }
        requires nodes { AreNodes parents.now }
        ensures { OnOk result (IsRefinement parents.now self.old.blocks.items self.new.blocks.items) }
    {
        for _ in 0..usize::MAX {
            match self.agenda.next() {
                None => return Ok(()),
                Some(block) => self.split_by(alloc, parents, block)?,
            }
        }
        // No memory holds so many blocks.
        Err(Memory)
    }

    // Splits each block by whether its nodes have a child in this block.
    fn split_by(
        &mut self,
        alloc: Global,
        parents: &[List<usize>],
        block: usize,
    ) -> Result<(), Memory>
        requires partition { IsPartition (length parents.now) self.old }
        requires nodes { AreNodes parents.now }
        ensures partition { OnOk result (IsPartition (length parents.now) self.new) }
        ensures refinement { OnOk result (IsRefinement parents.now self.old.blocks.items self.new.blocks.items) }
    {
        if block >= self.members.len() {
            return Ok(());
        }
        let kept = kept_in(
            alloc,
            self.blocks.as_slice(),
            self.members[block].as_slice(),
            block,
        )?;
        let mut nodes = Vec::new(alloc);
        add_holders(&mut nodes, parents, kept.as_slice())?;
        self.members[block] = kept;
        self.split(alloc, nodes.as_slice())
    }

    // Splits each block into those of its nodes that are in the list and the others.
    fn split(&mut self, alloc: Global, nodes: &[usize]) -> Result<(), Memory>
        requires partition { IsPartition (length self.old.blocks.items) self.old }
        requires nodes { All (λ v. v < length self.old.blocks.items) nodes.now }
        ensures partition { OnOk result (IsPartition (length self.old.blocks.items) self.new) }
        ensures parts { OnOk result (PartsNodes (length self.old.members.items) nodes.now self.old self.new) }
    {
        let first = self.members.len();
        for node in nodes {
            self.part(alloc, *node, first)?;
        }
        self.agenda.add_from(first)
    }

    // Sends a node to the part of its block. The parts have the numbers from `first` on.
    fn part(&mut self, alloc: Global, node: usize, first: usize) -> Result<(), Memory>
        requires partition { IsPartition (length self.old.blocks.items) self.old }
        requires node { node < length self.old.blocks.items }
        requires first { first ≤ length self.old.members.items }
        ensures partition { OnOk result (IsPartition (length self.old.blocks.items) self.new) }
        ensures grows { OnOk result (length self.old.members.items ≤ length self.new.members.items) }
        ensures parts { OnOk result (PartsNode first node self.old self.new) }
    {
        let block = self.blocks[node];
        if block >= first {
            return Ok(());
        }
        self.make_part(alloc, block, first)?;
        self.send(node, block)
    }

    // Opens a part of a block, unless there is one.
    fn make_part(&mut self, alloc: Global, block: usize, first: usize) -> Result<(), Memory>
        requires partition { IsPartition (length self.old.blocks.items) self.old }
        requires block { block < length self.old.members.items }
        requires first { first ≤ length self.old.members.items }
        ensures { OnOk result (HasPart first block (length self.old.blocks.items) self.old self.new) }
    {
        if self.parts[block] >= first {
            return Ok(());
        }
        self.open(alloc, block)
    }

    // A new block, for nodes of this one.
    fn open(&mut self, alloc: Global, block: usize) -> Result<(), Memory>
        requires { block < length self.old.parts.items }
        ensures { OnOk result (OpensPart block self.old self.new) }
    {
        let part = self.members.len();
        self.members.push(List::new(alloc))?;
        self.parts.push(0)?;
        self.parts[block] = part;
        self.agenda.open(block, 0)
    }

    // Sends a node of a block to its part.
    fn send(&mut self, node: usize, block: usize) -> Result<(), Memory>
        requires node { node < length self.old.blocks.items }
        requires block { block < length self.old.parts.items }
        requires part { class_in self.old.parts.items block < length self.old.members.items }
        ensures { OnOk result (SendsNode node block self.old self.new) }
    {
        let part = self.parts[block];
        self.members[part].push(node)?;
        self.blocks[node] = part;
        self.agenda.transfer(block, part);
        Ok(())
    }
}

// A number above all blocks.
fn bound_of(blocks: &[usize]) -> Result<usize, Memory>
    ensures { IfOk result (λ count. All (λ b. b < count) blocks.now) }
{
    let mut count = 0;
    for block in blocks {
        count = above(count, *block)?;
    }
    Ok(count)
}

// The least number that is at least the one and above the other.
fn above(count: usize, block: usize) -> Result<usize, Memory>
    ensures count { IfOk result (λ bound. count ≤ bound) }
    ensures block { IfOk result (λ bound. block < bound) }
{
    if block < count {
        return Ok(count);
    }
    match block.checked_add(1) {
        Some(bound) => Ok(bound),
        // No memory holds so many blocks.
        None => Err(Memory),
    }
}

// For each of so many blocks its nodes.
fn members_of(alloc: Global, blocks: &[usize], count: usize) -> Result<Vec<List<usize>>, Memory>
    requires { All (λ b. b < count) blocks.now }
    ensures { IfOk result (λ members. AreMembers blocks.now count (length blocks.now) members.items) }
{
    let mut members = no_holders(alloc, count)?;
    for v in 0..blocks.len() {
        let block = blocks[v];
        add_holder(&mut members, v, [block].as_slice())?;
    }
    Ok(members)
}

// Those of the nodes that are in the block.
fn kept_in(
    alloc: Global,
    blocks: &[usize],
    nodes: &[usize],
    block: usize,
) -> Result<List<usize>, Memory>
    ensures { IfOk result (λ kept. HoldsInBlock blocks.now block nodes.now kept) }
{
    let mut kept = List::new(alloc);
    for v in nodes {
        keep_in(&mut kept, blocks, *v, block)?;
    }
    Ok(kept)
}

fn keep_in(kept: &mut List<usize>, blocks: &[usize], v: usize, block: usize) -> Result<(), Memory>
    ensures { OnOk result (AddsIfInBlock blocks.now block v kept.old kept.new) }
{
    if !is_in(blocks, v, block) {
        return Ok(());
    }
    kept.push(v)
}

fn is_in(blocks: &[usize], v: usize, block: usize) -> bool
    ensures { IsTrue result ↔ IsInBlock blocks.now block v }
{
    match blocks.get(v) {
        Some(of) => *of == block,
        None => false,
    }
}
