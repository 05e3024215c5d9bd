//! The lines of a part, written node by node: each has the step of its rule, behind those that bring its parts to the
//! types that the rule asks for.
ghost use Rattle.std.specs.Prelude.{◌≡◌, [], IfOk, Ok, OnOk};
ghost use Rattle.mls_deriv.specs.declared.derivation.StepRule.TheVariants.{Lit};
ghost use Rattle.mls_lines.specs.declared.steps.Conclusion.{Conclusion as IsConclusion};
ghost use Rattle.mls_lines.specs.declared.writer.Concluded.TheVariants.{Step};
ghost use Rattle.mls_lines.specs.Found.{AreFound, IsFound};
ghost use Rattle.mls_lines.specs.Stepping.{AddsStep};
ghost use Rattle.mls_lines.specs.Writer.{Lengthens};

mod chains;
mod choices;
mod functions;
mod joined;
mod names;
mod nodes;
mod plain;
mod records;

use crate::ending::Ending;
use crate::known::{FirstParts, Globals};
use crate::spines::Spines;
use crate::steps::{Conclusion, Steps};
use mls_base::memory::Memory;
use mls_book::book::{Node, NodeId};
use mls_deriv::derivation::{BinderNodes, StepRule};
use mls_layout::layout::LaidOut;
use mls_parts::numbers::NumberMap;
use mls_parts::pose::{KnownTypes, Posing};
use mls_term::term::{TermForm, TermNode};
use std::alloc::Global;
use std::collections::BTreeMap;

/// What is known of a part: the nodes of its term, its constraint, its chains of applications, the applications that
/// conclude its type, and the types of names.
#[derive(Clone, Copy)]
pub struct PartView<'a> {
    pub nodes: &'a [TermNode],
    pub posing: &'a Posing,
    pub spines: &'a Spines,
    pub ending: Option<Ending>,
    pub known: &'a KnownTypes,
    pub globals: &'a Globals,
    pub firsts: &'a FirstParts,
}

/// The nodes of a part, the steps so far, what the nodes of the term conclude, the node of the greatest type, where a
/// binder that is not used asked for one, how many nodes the meets of binders have, the environment of each chain, by
/// its first node, which has no binder where that of each node is its own, and the functions that were made, by their
/// domains and codomains.
#[derive(Drop)]
pub struct Writer {
    pub laid: LaidOut,
    pub steps: Steps,
    pub concluded: NumberMap<Concluded>,
    pub top: Option<NodeId>,
    pub widths: BTreeMap<usize, usize>,
    pub chains: BTreeMap<usize, BinderNodes>,
    pub arrows: BTreeMap<(usize, usize), NodeId>,
}

/// What a node concludes: a binder may have any type, and another node has a step.
#[derive(Drop)]
pub enum Concluded {
    Bound(usize),
    Step(Conclusion),
}

// A step as what a node concludes.
fn stepped(own: Result<Conclusion, Memory>) -> Result<Concluded, Memory>
    ensures { IfOk result (λ made. (c : IsConclusion) × (own ≡ Ok c) × (made ≡ Step c)) }
{
    let own = own?;
    Ok(Concluded::Step(own))
}

impl Writer {
    // A number or a truth value.
    fn literal(&mut self, alloc: Global, node: usize, root: NodeId) -> Result<Conclusion, Memory>
        ensures laid { OnOk result (self.new.laid ≡ self.old.laid) }
        ensures concluded { OnOk result (self.new.concluded ≡ self.old.concluded) }
        ensures lines { IfOk result (AddsStep self.old.steps self.new.steps
            (record { node = node; rule = Lit; env = []; root = root })) }
    {
        let env = BinderNodes::new(alloc);
        let own = self.steps.step(alloc, node, StepRule::Lit, env, root)?;
        Ok(own)
    }

    /// The domain of what the node in front of this one has as its type: where this one is an argument without parts,
    /// that is the function. A binder has its own node.
    pub fn domain_before(&self, view: &PartView, node: usize) -> Option<NodeId> {
        let before = node.checked_sub(1)?;
        let root = match self.concluded.get(before)? {
            Concluded::Bound(x) => self.place(view.posing.binder(*x)),
            Concluded::Step(of) => of.root,
        };
        let arrow = self.arrow_at(root)?;
        Some(arrow.from)
    }

    /// Whether both nodes are `int`, or both are `bool`.
    pub fn are_one_kind(&self, first: NodeId, second: NodeId) -> bool {
        let book = &self.laid.book;
        if first.0 >= book.len() || second.0 >= book.len() {
            return false;
        }
        matches!(
            (book.node(first), book.node(second)),
            (Node::Int, Node::Int) | (Node::Bool, Node::Bool)
        )
    }

    // The type of a literal: what the function asks for of which it is the argument, so that no step by pairs brings it
    // there, or else this one of its kind.
    fn asked(&self, view: &PartView, node: usize, own: NodeId) -> NodeId {
        match self.domain_before(view, node) {
            Some(domain) if self.are_one_kind(domain, own) => domain,
            _ => own,
        }
    }

    // What a node concludes by its rule, behind what its rule asks for.
    fn write_form(
        &mut self,
        alloc: Global,
        view: &PartView,
        node: usize,
        form: &TermForm,
    ) -> Result<Concluded, Memory>
        requires { IsFound view.now.globals.now view.now.firsts.now view.now.known.now.lets view.now.posing.now form.now
            node }
        ensures { OnOk result (Lengthens self.old.laid self.new.laid) }
    {
        match form {
            TermForm::Bound(x) => Ok(Concluded::Bound(*x)),
            TermForm::Inner(k) => stepped(self.inner(alloc, view, node, *k)),
            TermForm::Global(g) => stepped(self.global(alloc, view, node, *g)),
            TermForm::Number(_) => {
                let root = self.asked(view, node, self.laid.integer);
                stepped(self.literal(alloc, node, root))
            }
            TermForm::Truth(_) => {
                let root = self.asked(view, node, self.laid.boolean);
                stepped(self.literal(alloc, node, root))
            }
            TermForm::Fun(x, body) => stepped(self.fun(alloc, view, node, *x, *body)),
            TermForm::Apply(function, argument) => {
                stepped(self.apply(alloc, view, node, *function, *argument))
            }
            TermForm::Make(parts) => stepped(self.make(alloc, view, node, parts.as_slice())),
            TermForm::Project(body, label) => {
                stepped(self.project(alloc, view, node, *body, label))
            }
            TermForm::If(condition, first, second) => {
                stepped(self.choice(alloc, view, node, *condition, *first, *second))
            }
            TermForm::Let(k, _, second) => stepped(self.let_in(alloc, view, node, *k, *second)),
            TermForm::Rec(x, body) => stepped(self.recursion(alloc, view, node, *x, *body)),
        }
    }

    /// Writes the lines of the nodes of a part, in order.
    ///
    /// # Errors
    ///
    /// `Memory` where memory is wanting.
    pub fn write_part(
        &mut self,
        alloc: Global,
        view: &PartView,
        nodes: &[TermNode],
        part: &[usize],
    ) -> Result<(), Memory>
        requires { AreFound view.now.globals.now view.now.firsts.now view.now.known.now.lets view.now.posing.now nodes.now
            part.now }
        ensures { OnOk result (Lengthens self.old.laid self.new.laid) }
    {
        for i in part {
            if let Some(node) = nodes.get(*i) {
                let own = self.write_form(alloc, view, *i, &node.form)?;
                self.concluded.insert(*i, own)?;
            }
        }
        Ok(())
    }
}
