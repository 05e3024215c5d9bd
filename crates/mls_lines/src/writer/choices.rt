//! The lines of conditionals.
ghost use Rattle.std.specs.Prelude.{OnOk};
ghost use Rattle.mls_lines.specs.Writer.{Lengthens};

use crate::steps::Conclusion;
use crate::writer::nodes::behind;
use crate::writer::{PartView, Writer};
use mls_base::memory::Memory;
use mls_book::book::{Node, NodeId};
use mls_deriv::derivation::StepRule;
use std::alloc::Global;

impl Writer {
    // Whether the node is `bool`.
    fn is_boolean(&self, id: NodeId) -> bool {
        id.0 < self.laid.book.len() && matches!(self.laid.book.node(id), Node::Bool)
    }

    // The type of a condition: its own, if it is `bool`, or else the node of `bool`.
    fn asked_type(&self, condition: usize) -> Result<NodeId, Memory> {
        let truth = self.laid.boolean;
        let own = self.own_type(condition, truth)?;
        match self.is_boolean(own) {
            true => Ok(own),
            false => Ok(truth),
        }
    }

    // The type of both branches: their own, if it is the same, or else that of what flows in.
    fn common_type(
        &self,
        view: &PartView,
        node: usize,
        first: usize,
        second: usize,
    ) -> Result<NodeId, Memory> {
        let into = self.place(behind(view.posing.root(node), 1)?);
        let left = self.own_type(first, into)?;
        let right = self.own_type(second, into)?;
        match left == right {
            true => Ok(left),
            false => Ok(into),
        }
    }

    /// The step of a conditional, behind those which bring its parts to one environment.
    ///
    /// # Errors
    ///
    /// `Memory` where memory is wanting.
    pub fn choice(
        &mut self,
        alloc: Global,
        view: &PartView,
        node: usize,
        condition: usize,
        first: usize,
        second: usize,
    ) -> Result<Conclusion, Memory>
        ensures { OnOk result (Lengthens self.old.laid self.new.laid) }
    {
        let into = self.common_type(view, node, first, second)?;
        let truth = self.asked_type(condition)?;
        let parts = [(condition, truth), (first, into), (second, into)];
        let env = self.env_of_choice(alloc, view, node, parts)?;
        let asked = self.reached(alloc, condition, &env, truth)?;
        let yes = self.reached(alloc, first, &env, into)?;
        let no = self.reached(alloc, second, &env, into)?;
        let rule = StepRule::If(asked, yes, no);
        self.steps.step(alloc, node, rule, env, into)
    }
}
