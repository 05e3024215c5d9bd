//! The nodes of states, what a node of the term concludes, and the step that brings it to another type.
ghost use Rattle.std.specs.Prelude.{◌≡◌, ◌+◌, ◌<◌, ◌∷◌, [], get_or, length, IfOk, IfSome, None, OnOk, Some};
ghost use Rattle.std.specs.BTreeMap.{get};
ghost use Rattle.std.specs.Ordering.{nat_cmp};
ghost use Rattle.mls_book.specs.Books.{node_at};
ghost use Rattle.mls_book.specs.declared.book.Node.TheVariants.{Arrow, Meet};
ghost use Rattle.mls_deriv.specs.Steps.{IsRising};
ghost use Rattle.mls_deriv.specs.declared.derivation.StepRule.TheVariants.{Var};
ghost use Rattle.mls_layout.specs.LaidOut.{node_of};
ghost use Rattle.mls_layout.specs.Scopes.{entry};
ghost use Rattle.mls_lines.specs.PlainLines.{IsSound, TakesOwn};
ghost use Rattle.mls_lines.specs.Stepping.{AddsStep};
ghost use Rattle.mls_lines.specs.Writer.{BringsNode, ConcludesNoMore, Grows, HasLowEnv, Lengthens, TakesStep};

use crate::envs::with;
use crate::steps::Conclusion;
use crate::writer::{Concluded, PartView, Writer};
use mls_base::memory::Memory;
use mls_book::book::{Node, NodeId};
use mls_deriv::derivation::{BinderNodes, StepRule};
use std::alloc::Global;

/// A node that is a function, with its domain and its codomain.
#[derive(Clone, Copy)]
pub struct ArrowNode {
    pub node: NodeId,
    pub from: NodeId,
    pub to: NodeId,
}

/// The number behind this one, by so many.
///
/// # Errors
///
/// `Memory` where memory is wanting.
pub fn behind(number: usize, by: usize) -> Result<usize, Memory>
    ensures { IfOk result (λ later. later ≡ by + number) }
{
    let later = by.checked_add(number).ok_or(Memory)?;
    Ok(later)
}

impl Writer {
    /// The node of a state.
    pub fn place(&self, state: usize) -> NodeId
        ensures { result ≡ node_of self.now.laid.places state }
    {
        self.laid.places.node(state)
    }

    /// The function of a state.
    ///
    /// # Errors
    ///
    /// `Memory` where memory is wanting.
    pub fn function(&self, state: usize) -> Result<ArrowNode, Memory>
        ensures own { IfOk result (λ arrow. get_or self.now.laid.own.functions state None ≡ Some arrow.node) }
        ensures node { IfOk result (λ arrow. node_at self.now.laid.book arrow.node.0 ≡ Arrow arrow.from arrow.to) }
    {
        let node = self.laid.function(state).ok_or(Memory)?;
        let arrow = self.arrow_at(node).ok_or(Memory)?;
        Ok(arrow)
    }

    /// The node of the record of a state.
    ///
    /// # Errors
    ///
    /// `Memory` where memory is wanting.
    pub fn record(&self, state: usize) -> Result<NodeId, Memory>
        ensures { IfOk result (λ id. get_or self.now.laid.own.records state None ≡ Some id) }
    {
        let id = self.laid.record(state).ok_or(Memory)?;
        Ok(id)
    }

    /// The node, if it is a function.
    pub fn arrow_at(&self, node: NodeId) -> Option<ArrowNode>
        ensures is { IfSome result (λ arrow. arrow.node ≡ node) }
        ensures node { IfSome result (λ arrow. node_at self.now.laid.book node.0 ≡ Arrow arrow.from arrow.to) }
    {
        if node.0 >= self.laid.book.len() {
            return None;
        }
        match self.laid.book.node(node) {
            Node::Arrow(from, to) => Some(ArrowNode {
                node,
                from: *from,
                to: *to,
            }),
            _ => None,
        }
    }

    /// The node of the greatest type.
    ///
    /// # Errors
    ///
    /// `Memory` where memory is wanting.
    pub fn greatest(&mut self) -> Result<NodeId, Memory>
        ensures { OnOk result (Lengthens self.old.laid self.new.laid) }
    {
        if let Some(top) = self.top {
            return Ok(top);
        }
        let top = self.laid.book.push(Node::Top)?;
        self.top = Some(top);
        Ok(top)
    }

    /// Adds the meet of two nodes.
    ///
    /// # Errors
    ///
    /// `Memory` where memory is wanting.
    pub fn meet(&mut self, left: NodeId, right: NodeId) -> Result<NodeId, Memory>
        ensures grows { OnOk result (Grows self.old self.new) }
        ensures node { IfOk result (λ id. node_at self.new.laid.book id.0 ≡ Meet left right) }
    {
        let node = Node::Meet(left, right);
        if !self.laid.book.can_push(&node) {
            return Err(Memory);
        }
        let id = self.laid.book.push(node)?;
        Ok(id)
    }

    /// What a node concludes.
    ///
    /// # Errors
    ///
    /// `Memory` where that is not known.
    pub fn concluded_at(&self, node: usize) -> Result<&Concluded, Memory>
        ensures { IfOk result (λ own. get nat_cmp self.now.concluded node ≡ Some own.now) }
    {
        match self.concluded.get(node) {
            None => Err(Memory),
            Some(own) => Ok(own),
        }
    }

    // Takes out what a node concludes.
    fn take_concluded(&mut self, node: usize) -> Result<Concluded, Memory>
        ensures found { IfOk result (λ own. get nat_cmp self.old.concluded node ≡ Some own) }
        ensures fewer { ConcludesNoMore self.old self.new }
        ensures laid { self.new.laid ≡ self.old.laid }
        ensures steps { self.new.steps ≡ self.old.steps }
    {
        match self.concluded.remove(node) {
            None => Err(Memory),
            Some(own) => Ok(own),
        }
    }

    /// The type of the step of a node, where no variable is left to be put in.
    ///
    /// # Errors
    ///
    /// `Memory` where memory is wanting.
    pub fn concluded_type(&self, node: usize) -> Result<Option<NodeId>, Memory> {
        match self.concluded_at(node)? {
            Concluded::Bound(_) => Ok(None),
            Concluded::Step(of) => Ok(of.own_type()),
        }
    }

    /// The type that a node has without a step by pairs, or else the one that is asked for.
    ///
    /// # Errors
    ///
    /// `Memory` where memory is wanting.
    pub fn own_type(&self, node: usize, wanted: NodeId) -> Result<NodeId, Memory> {
        let own = self.concluded_type(node)?;
        Ok(own.unwrap_or(wanted))
    }

    /// The type that a node has without a step by pairs, where a binder has its own node.
    ///
    /// # Errors
    ///
    /// `Memory` where memory is wanting.
    pub fn placed_type(&self, view: &PartView, node: usize) -> Result<Option<NodeId>, Memory> {
        match self.concluded_at(node)? {
            Concluded::Bound(x) => Ok(Some(self.place(view.posing.binder(*x)))),
            Concluded::Step(of) => Ok(of.own_type()),
        }
    }

    // The step of a binder that has this type alone.
    fn bound_step(
        &mut self,
        alloc: Global,
        node: usize,
        x: usize,
        root: NodeId,
    ) -> Result<Conclusion, Memory>
        ensures laid { OnOk result (self.new.laid ≡ self.old.laid) }
        ensures concluded { OnOk result (self.new.concluded ≡ self.old.concluded) }
        ensures lines { IfOk result (AddsStep self.old.steps self.new.steps
            (record { node = node; rule = Var; env = entry x root.0 ∷ []; root = root })) }
    {
        let own = with(alloc, &[], x, root)?;
        let step = self.steps.step(alloc, node, StepRule::Var, own, root)?;
        Ok(step)
    }

    /// The step of a node's rule, whatever its type is; a binder has its own node.
    ///
    /// # Errors
    ///
    /// `Memory` where memory is wanting.
    pub fn plain(
        &mut self,
        alloc: Global,
        view: &PartView,
        node: usize,
    ) -> Result<Conclusion, Memory>
        ensures laid { OnOk result (self.new.laid ≡ self.old.laid) }
        ensures takes { IsSound self.old → IfOk result (TakesOwn self.old self.new view.now.posing.now node) }
    {
        let own = self.take_concluded(node)?;
        match own {
            Concluded::Bound(x) => {
                let place = self.place(view.posing.binder(x));
                let step = self.bound_step(alloc, node, x, place)?;
                Ok(step)
            }
            Concluded::Step(from) => Ok(from),
        }
    }

    // The step of a node, which has this type if it is a binder.
    fn taken(&mut self, alloc: Global, node: usize, root: NodeId) -> Result<Conclusion, Memory>
        ensures laid { OnOk result (self.new.laid ≡ self.old.laid) }
        ensures takes { IsSound self.old → root.0 < length self.old.laid.book
            → IfOk result (TakesStep self.old self.new node root) }
    {
        let own = self.take_concluded(node)?;
        match own {
            Concluded::Bound(x) => {
                let step = self.bound_step(alloc, node, x, root)?;
                Ok(step)
            }
            Concluded::Step(from) => Ok(from),
        }
    }

    /// The step of a node that has this type and environment.
    ///
    /// # Errors
    ///
    /// `Memory` where memory is wanting.
    pub fn adapted(
        &mut self,
        alloc: Global,
        node: usize,
        env: &BinderNodes,
        root: NodeId,
    ) -> Result<usize, Memory>
        ensures laid { OnOk result (self.new.laid ≡ self.old.laid) }
        ensures brings { IsRising env.now → IsSound self.old → HasLowEnv (length self.old.laid.book) env.now
            → root.0 < length self.old.laid.book → IfOk result (BringsNode self.old self.new node env.now root) }
    {
        let from = self.taken(alloc, node, root)?;
        let book = &self.laid.book;
        let to = self.steps.adapt(alloc, book, node, from, env, root)?;
        Ok(to.step)
    }

    // The step of a node that has this type already, and its environment in this place.
    fn step_there(&self, node: usize, env: &BinderNodes, root: NodeId) -> Option<usize> {
        match self.concluded.get(node) {
            Some(Concluded::Step(of)) => {
                if of.puts.is_empty() && of.root == root && of.env.lies_with(env) {
                    Some(of.step)
                } else {
                    None
                }
            }
            _ => None,
        }
    }

    /// The step of a node that has this type and environment, as `adapted` gives it, for lines that are checked when all
    /// are written: long environments that lie in one place are not compared, of which no contract tells.
    ///
    /// # Errors
    ///
    /// `Memory` where memory is wanting.
    pub fn reached(
        &mut self,
        alloc: Global,
        node: usize,
        env: &BinderNodes,
        root: NodeId,
    ) -> Result<usize, Memory>
        ensures { OnOk result (self.new.laid ≡ self.old.laid) }
    {
        if let Some(step) = self.step_there(node, env, root) {
            self.take_concluded(node)?;
            return Ok(step);
        }
        let step = self.adapted(alloc, node, env, root)?;
        Ok(step)
    }
}
