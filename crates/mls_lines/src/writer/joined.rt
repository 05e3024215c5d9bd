//! Environments of several parts: what each part offers, and all of it in one.
ghost use Rattle.std.specs.Prelude.{◌≡◌, ℕ, List, map, All, IfOk, OnOk};
ghost use Rattle.mls_book.specs.Books.{node_at};
ghost use Rattle.mls_book.specs.declared.book.Node.TheVariants.{Meet};
ghost use Rattle.mls_deriv.specs.declared.derivation.BinderNode.{BinderNode as IsBinderNode};
ghost use Rattle.mls_deriv.specs.Steps.{IsRising};
ghost use Rattle.mls_lines.specs.Conclusions.{IsJoined, IsOffered, IsPlaced, by_step};
ghost use Rattle.mls_lines.specs.Environments.{Agrees, AreEntries, HasNodes, IsMetIn, JoinsIn, MeetsIn, needed_binder};
ghost use Rattle.mls_lines.specs.Stepping.{conclusion_of};
ghost use Rattle.mls_lines.specs.Writer.{Grows, HaveRisingSteps, Offers, own_node};

use crate::envs::{Needed, merged, with};
use crate::steps::{Conclusion, are_same, copied};
use crate::writer::nodes::behind;
use crate::writer::{Concluded, PartView, Writer};
use mls_base::memory::Memory;
use mls_book::book::{Node, NodeId};
use mls_deriv::derivation::{BinderNode, BinderNodes};
use std::alloc::Global;

// Whether both are the same environment. Long ones lie in one place for the most part.
fn is_that(env: &BinderNodes, other: &BinderNodes) -> bool {
    env.lies_with(other) || are_same(env.as_slice(), other.as_slice())
}

/// How many nodes the meet of a binder's nodes may have. What a step by pairs looks at grows with the square.
pub const MEMBERS: usize = 8;

impl Writer {
    /// These binders with their own nodes.
    ///
    /// # Errors
    ///
    /// `Memory` where memory is wanting.
    pub fn placed(
        &self,
        alloc: Global,
        view: &PartView,
        env: &[BinderNode],
    ) -> Result<BinderNodes, Memory>
        ensures { IsRising env.now → IfOk result (IsPlaced (own_node self.now view.now.posing.now) env.now) }
    {
        let mut placed = BinderNodes::new(alloc);
        for entry in env {
            placed.push(BinderNode {
                binder: entry.binder,
                node: self.place(view.posing.binder(entry.binder)),
            })?;
        }
        Ok(placed)
    }

    // The environment of a step, in which the binders have their own nodes where variables are still to be put in.
    fn offered_step(
        &self,
        alloc: Global,
        view: &PartView,
        of: &Conclusion,
    ) -> Result<BinderNodes, Memory>
        ensures { IsRising of.now.env → (u : ℕ) → IfOk result
            (IsOffered (own_node self.now view.now.posing.now) (by_step (conclusion_of of.now)) u) }
    {
        if of.puts.is_empty() {
            return of.env.copy(alloc);
        }
        self.placed(alloc, view, of.env.as_slice())
    }

    /// The environment in which a node has this type with least effort: a binder may have it itself, and what still
    /// puts variables in goes to the own nodes of its binders.
    ///
    /// # Errors
    ///
    /// `Memory` where memory is wanting.
    pub fn offered(
        &self,
        alloc: Global,
        view: &PartView,
        node: usize,
        root: NodeId,
    ) -> Result<BinderNodes, Memory>
        ensures { HaveRisingSteps self.now → IfOk result (Offers self.now view.now.posing.now node root.0) }
    {
        let own = self.concluded_at(node)?;
        match own {
            Concluded::Bound(x) => with(alloc, &[], *x, root),
            Concluded::Step(of) => self.offered_step(alloc, view, of),
        }
    }

    /// Whether a node has this environment at this type without a step by pairs.
    pub fn has_env(&self, node: usize, root: NodeId, env: &BinderNodes) -> bool {
        match self.concluded.get(node) {
            Some(Concluded::Bound(x)) => match env.as_slice() {
                [only] => only.binder == *x && only.node == root,
                _ => false,
            },
            Some(Concluded::Step(of)) => of.puts.is_empty() && is_that(&of.env, env),
            None => false,
        }
    }

    /// How many fields a node has, where they are many.
    pub fn many_fields(&self, id: NodeId) -> usize {
        if id.0 >= self.laid.book.len() {
            return 0;
        }
        match self.laid.book.node(id) {
            Node::Rcd(fields) if fields.as_slice().len() > MEMBERS => fields.as_slice().len(),
            _ => 0,
        }
    }

    // How many nodes a meet has that was made for a binder; another node is one.
    fn width(&self, id: NodeId) -> usize {
        self.widths.get(&id.0).copied().unwrap_or(1)
    }

    // Whether the node is a record of many fields.
    fn is_wide(&self, id: NodeId) -> bool {
        self.many_fields(id) > 0
    }

    // Adds the meet of two nodes of a binder, which has this many nodes.
    fn counted_meet(&mut self, left: NodeId, right: NodeId, width: usize) -> Result<NodeId, Memory>
        ensures grows { OnOk result (Grows self.old self.new) }
        ensures node { IfOk result (λ id. node_at self.new.laid.book id.0 ≡ Meet left right) }
    {
        let met = self.meet(left, right)?;
        self.widths.insert(met.0, width)?;
        Ok(met)
    }

    // Whether a binder with these two nodes goes to its own one, where their meet has this many nodes.
    fn goes_to_own(&self, own: NodeId, left: NodeId, right: NodeId, width: usize) -> bool {
        left == own || right == own || width > MEMBERS || !self.is_wide(own)
    }

    // The node of a binder that has two. It is its own, or the meet of both where its own has many fields and the meet
    // has few nodes: a step that brings a part to another type goes over all of the node of each binder.
    fn agreed(
        &mut self,
        view: &PartView,
        binder: usize,
        left: NodeId,
        right: NodeId,
    ) -> Result<NodeId, Memory>
        ensures grows { OnOk result (Grows self.old self.new) }
        ensures node { IfOk result (λ id. Agrees self.new.laid.book (own_node self.old view.now.posing.now binder)
            left.0 right.0 id.0) }
    {
        let place = self.place(view.posing.binder(binder));
        let width = behind(self.width(left), self.width(right))?;
        if left == right {
            return Ok(left);
        }
        if self.goes_to_own(place, left, right, width) {
            return Ok(place);
        }
        let met = self.counted_meet(left, right, width)?;
        Ok(met)
    }

    // A binder that both environments have, or one, with its node in both.
    fn joined_entry(&mut self, view: &PartView, needed: &Needed) -> Result<BinderNode, Memory>
        ensures grows { OnOk result (Grows self.old self.new) }
        ensures entry { (d e : List IsBinderNode) → HasNodes d e needed.now → IfOk result (λ entry.
            (entry.binder ≡ needed_binder needed.now)
            × JoinsIn self.new.laid.book (own_node self.old view.now.posing.now) d e entry.binder entry.node.0) }
    {
        match needed {
            Needed::One(entry) => Ok(*entry),
            Needed::Both(binder, left, right) => {
                let node = self.agreed(view, *binder, *left, *right)?;
                Ok(BinderNode {
                    binder: *binder,
                    node,
                })
            }
        }
    }

    // The environment of what two of them need.
    fn joined_entries(
        &mut self,
        alloc: Global,
        view: &PartView,
        all: &[Needed],
    ) -> Result<BinderNodes, Memory>
        ensures grows { OnOk result (Grows self.old self.new) }
        ensures entries { (d e : List IsBinderNode) → All (HasNodes d e) all.now → IfOk result (AreEntries
            (JoinsIn self.new.laid.book (own_node self.old view.now.posing.now) d e) (map needed_binder all.now)) }
    {
        let mut env = BinderNodes::new(alloc);
        for needed in all {
            let entry = self.joined_entry(view, needed)?;
            env.push(entry)?;
        }
        Ok(env)
    }

    /// Both environments in one.
    ///
    /// # Errors
    ///
    /// `Memory` where memory is wanting.
    pub fn joined(
        &mut self,
        alloc: Global,
        view: &PartView,
        first: &[BinderNode],
        second: &[BinderNode],
    ) -> Result<BinderNodes, Memory>
        ensures grows { OnOk result (Grows self.old self.new) }
        ensures joined { IsRising first.now → IsRising second.now
            → IfOk result (IsJoined (own_node self.old view.now.posing.now) self.new.laid.book first.now second.now) }
    {
        if first.is_empty() || are_same(first, second) {
            return copied(alloc, second);
        }
        if second.is_empty() {
            return copied(alloc, first);
        }
        let all = merged(alloc, first, second)?;
        let env = self.joined_entries(alloc, view, all.as_slice())?;
        Ok(env)
    }

    // A binder that both environments have, or one, with its node there, or the meet of both.
    fn met_entry(&mut self, needed: &Needed) -> Result<BinderNode, Memory>
        ensures grows { OnOk result (Grows self.old self.new) }
        ensures entry { (d e : List IsBinderNode) → HasNodes d e needed.now → IfOk result (λ entry.
            (entry.binder ≡ needed_binder needed.now) × MeetsIn self.new.laid.book d e entry.binder entry.node.0) }
    {
        match needed {
            Needed::One(entry) => Ok(*entry),
            Needed::Both(binder, left, right) => {
                let node = self.meet(*left, *right)?;
                Ok(BinderNode {
                    binder: *binder,
                    node,
                })
            }
        }
    }

    // The meets of what two environments need.
    fn met_entries(&mut self, alloc: Global, all: &[Needed]) -> Result<BinderNodes, Memory>
        ensures grows { OnOk result (Grows self.old self.new) }
        ensures entries { (d e : List IsBinderNode) → All (HasNodes d e) all.now → IfOk result (AreEntries
            (MeetsIn self.new.laid.book d e) (map needed_binder all.now)) }
    {
        let mut env = BinderNodes::new(alloc);
        for needed in all {
            let entry = self.met_entry(needed)?;
            env.push(entry)?;
        }
        Ok(env)
    }

    /// The environment of a let: the binders that both parts need have meets of both nodes.
    ///
    /// # Errors
    ///
    /// `Memory` where memory is wanting.
    pub fn meets(
        &mut self,
        alloc: Global,
        first: &[BinderNode],
        second: &[BinderNode],
    ) -> Result<BinderNodes, Memory>
        ensures grows { OnOk result (Grows self.old self.new) }
        ensures meets { IsRising first.now → IsRising second.now → IfOk result (IsMetIn self.new.laid.book
            first.now second.now) }
    {
        let all = merged(alloc, first, second)?;
        let met = self.met_entries(alloc, all.as_slice())?;
        Ok(met)
    }
}
