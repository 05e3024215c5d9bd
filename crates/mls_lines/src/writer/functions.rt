//! The lines of functions, recursions and applications.
ghost use Rattle.std.specs.Prelude.{◌≡◌, ℕ, List, IfOk, OnOk};
ghost use Rattle.mls_term.specs.declared.term.TermForm.TheVariants as form;
ghost use Rattle.mls_layout.specs.Parts.{Constraint};
ghost use Rattle.mls_lines.specs.declared.writer.Concluded.TheVariants.{Step};
ghost use Rattle.mls_lines.specs.PlainLines.{HasOwnParts, IsSound, WritesNode};
ghost use Rattle.mls_lines.specs.Writer.{Lengthens};

use crate::envs::{with, without};
use crate::steps::{Conclusion, node_of};
use crate::writer::nodes::{ArrowNode, behind};
use crate::writer::{PartView, Writer};
use mls_base::memory::Memory;
use mls_book::book::{Node, NodeId};
use mls_deriv::derivation::{BinderNodes, StepRule};
use mls_term::term::{TermForm, TermNode};
use std::alloc::Global;

// The type of the function of an application, and the environment of both parts.
#[derive(Drop)]
struct Applied {
    arrow: ArrowNode,
    env: BinderNodes,
}

// The binder that a node is applied to, if it is the function of an application to one.
fn next_binder(nodes: &[TermNode], node: usize) -> Option<usize> {
    let argument = node.checked_add(1)?;
    let of = nodes.get(argument.checked_add(1)?)?;
    let argument = nodes.get(argument)?;
    match (&argument.form, &of.form) {
        (TermForm::Bound(x), TermForm::Apply(function, _)) if *function == node => Some(*x),
        _ => None,
    }
}

impl Writer {
    // A function from one node to another, which is made once.
    fn arrow(&mut self, from: NodeId, to: NodeId) -> Result<ArrowNode, Memory>
        ensures { OnOk result (Lengthens self.old.laid self.new.laid) }
    {
        if let Some(node) = self.arrows.get(&(from.0, to.0)) {
            return Ok(ArrowNode {
                node: *node,
                from,
                to,
            });
        }
        let node = self.laid.book.push(Node::Arrow(from, to))?;
        self.arrows.insert((from.0, to.0), node)?;
        Ok(ArrowNode { node, from, to })
    }

    // The function with this domain and this codomain.
    fn changed(&mut self, arrow: ArrowNode, from: NodeId, to: NodeId) -> Result<ArrowNode, Memory>
        ensures { OnOk result (Lengthens self.old.laid self.new.laid) }
    {
        if arrow.from == from && arrow.to == to {
            return Ok(arrow);
        }
        self.arrow(from, to)
    }

    // The function of two arguments with this codomain behind both. Where it is none, it stays.
    fn with_last(&mut self, arrow: ArrowNode, to: NodeId) -> Result<ArrowNode, Memory>
        ensures { OnOk result (Lengthens self.old.laid self.new.laid) }
    {
        match self.arrow_at(arrow.to) {
            Some(second) => {
                let inner = self.changed(second, second.from, to)?;
                self.changed(arrow, arrow.from, inner.node)
            }
            None => Ok(arrow),
        }
    }

    /// The step of a function, behind that which brings its body to its type.
    ///
    /// # Errors
    ///
    /// `Memory` where memory is wanting.
    pub fn fun(
        &mut self,
        alloc: Global,
        view: &PartView,
        node: usize,
        x: usize,
        body: usize,
    ) -> Result<Conclusion, Memory>
        ensures { OnOk result (Lengthens self.old.laid self.new.laid) }
    {
        let arrow = self.function(view.posing.root(node))?;
        let root = self.own_type(body, arrow.to)?;
        let own = self.offered(alloc, view, body, root)?;
        let step = self.adapted(alloc, body, &own, root)?;
        let domain = match node_of(own.as_slice(), x) {
            Some(domain) => domain,
            None => self.greatest()?,
        };
        let own_arrow = self.changed(arrow, domain, root)?;
        let env = without(alloc, own.as_slice(), x)?;
        self.steps
            .step(alloc, node, StepRule::Fun(step), env, own_arrow.node)
    }

    /// The step of a recursion, whose binder has the type of its body.
    ///
    /// # Errors
    ///
    /// `Memory` where memory is wanting.
    pub fn recursion(
        &mut self,
        alloc: Global,
        view: &PartView,
        node: usize,
        x: usize,
        body: usize,
    ) -> Result<Conclusion, Memory>
        ensures laid { OnOk result (self.new.laid ≡ self.old.laid) }
        ensures writes { (c : Constraint) (parts : ℕ → List ℕ) → IsSound self.old
            → HasOwnParts self.old c.automaton parts → IfOk result (λ own. WritesNode view.now.globals.now
            view.now.firsts.now view.now.known.now.lets c view.now.posing.now parts node (form.Rec x body)
            self.old self.new (Step own)) }
    {
        let root = self.place(view.posing.root(body));
        let offer = self.offered(alloc, view, body, root)?;
        let inner = with(alloc, offer.as_slice(), x, root)?;
        let step = self.adapted(alloc, body, &inner, root)?;
        let env = without(alloc, offer.as_slice(), x)?;
        let own = self
            .steps
            .step(alloc, node, StepRule::Rec(step), env, root)?;
        Ok(own)
    }

    // The type of the function of an application that its goal asks for. Where the application concludes the type of the
    // part, its codomain is that type, so that no step by pairs brings it there.
    fn goal(&mut self, view: &PartView, node: usize) -> Result<ArrowNode, Memory>
        ensures { OnOk result (Lengthens self.old.laid self.new.laid) }
    {
        let arrow = self.function(behind(view.posing.root(node), 2)?)?;
        match view.ending {
            Some(ending) if ending.first == node => {
                if ending.is_function {
                    self.with_last(arrow, ending.wanted)
                } else {
                    self.changed(arrow, arrow.from, ending.wanted)
                }
            }
            _ => Ok(arrow),
        }
    }

    // The type of the function of an application, and whether the function has it: that is so if its own type is one of
    // functions, and else it is that of the goal. A binder may have the type of its own node.
    fn applied(
        &mut self,
        view: &PartView,
        node: usize,
        function: usize,
    ) -> Result<(ArrowNode, bool), Memory>
        ensures { OnOk result (Lengthens self.old.laid self.new.laid) }
    {
        if let Some(root) = self.placed_type(view, function)? {
            if let Some(arrow) = self.arrow_at(root) {
                return Ok((arrow, true));
            }
        }
        Ok((self.goal(view, node)?, false))
    }

    // The domain of a function that is applied next. Where its argument is the only binder so far, which has a node of
    // the same kind, that is this node, so that no step by pairs brings the binder to another one.
    fn next_domain(
        &self,
        view: &PartView,
        node: usize,
        env: &BinderNodes,
        domain: NodeId,
    ) -> NodeId {
        match (next_binder(view.nodes, node), env.as_slice()) {
            (Some(x), [only]) if only.binder == x && self.are_one_kind(only.node, domain) => {
                only.node
            }
            _ => domain,
        }
    }

    // The codomain of the function of an application that has this environment.
    fn codomain(
        &mut self,
        view: &PartView,
        node: usize,
        env: &BinderNodes,
        to: NodeId,
    ) -> Result<NodeId, Memory>
        ensures { OnOk result (Lengthens self.old.laid self.new.laid) }
    {
        match self.arrow_at(to) {
            Some(second) => {
                let from = self.next_domain(view, node, env, second.from);
                Ok(self.changed(second, from, second.to)?.node)
            }
            None => Ok(to),
        }
    }

    // The type of the function of an application and the environment of both parts. Where a function of this type needs
    // a step by pairs in any case, it goes to what saves others: where the argument has all binders, the function takes
    // what the argument is, and where its codomain is applied next to a binder, that takes what the binder is.
    fn met(
        &mut self,
        alloc: Global,
        view: &PartView,
        node: usize,
        function: usize,
        argument: usize,
    ) -> Result<Applied, Memory>
        ensures { OnOk result (Lengthens self.old.laid self.new.laid) }
    {
        let (arrow, is_own) = self.applied(view, node, function)?;
        let own = self.own_type(argument, arrow.from)?;
        let env = self.env_of_application(
            alloc,
            view,
            node,
            (function, arrow.node),
            (argument, own),
        )?;
        if is_own && self.has_env(function, arrow.node, &env) {
            return Ok(Applied { arrow, env });
        }
        let from = match self.has_env(argument, own, &env) {
            true => own,
            false => arrow.from,
        };
        let to = self.codomain(view, node, &env, arrow.to)?;
        let arrow = self.changed(arrow, from, to)?;
        Ok(Applied { arrow, env })
    }

    /// The step of an application, behind those which bring its function and its argument to one environment.
    ///
    /// # Errors
    ///
    /// `Memory` where memory is wanting.
    pub fn apply(
        &mut self,
        alloc: Global,
        view: &PartView,
        node: usize,
        function: usize,
        argument: usize,
    ) -> Result<Conclusion, Memory>
        ensures { OnOk result (Lengthens self.old.laid self.new.laid) }
    {
        let Applied { arrow, env } = self.met(alloc, view, node, function, argument)?;
        let first = self.reached(alloc, function, &env, arrow.node)?;
        let second = self.reached(alloc, argument, &env, arrow.from)?;
        self.steps
            .step(alloc, node, StepRule::App(first, second), env, arrow.to)
    }
}
