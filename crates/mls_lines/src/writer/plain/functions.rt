//! The plain lines of functions and applications.
ghost use Rattle.std.specs.Prelude.{◌≡◌, ℕ, List, IfOk, OnOk};
ghost use Rattle.mls_term.specs.declared.term.TermForm.TheVariants as form;
ghost use Rattle.mls_layout.specs.Parts.{Constraint};
ghost use Rattle.mls_parts.specs.PosedGoals.{IsPosedAt};
ghost use Rattle.mls_lines.specs.declared.writer.Concluded.TheVariants.{Step};
ghost use Rattle.mls_lines.specs.PlainLines.{HasOwnParts, IsSound, WritesNode};
ghost use Rattle.mls_lines.specs.Writer.{Lengthens};

use crate::envs::{with, without};
use crate::steps::Conclusion;
use crate::writer::nodes::behind;
use crate::writer::{PartView, Writer};
use mls_base::memory::Memory;
use mls_deriv::derivation::StepRule;
use std::alloc::Global;

impl Writer {
    /// A function, whose body goes over to the codomain where the binder has the node of the domain.
    ///
    /// # Errors
    ///
    /// `Memory` where memory is wanting.
    pub fn plain_fun(
        &mut self,
        alloc: Global,
        view: &PartView,
        node: usize,
        x: usize,
        body: usize,
    ) -> Result<Conclusion, Memory>
        ensures laid { OnOk result (self.new.laid ≡ self.old.laid) }
        ensures writes { (c : Constraint) (parts : ℕ → List ℕ) → IsSound self.old
            → HasOwnParts self.old c.automaton parts → IfOk result (λ own. WritesNode view.now.globals.now
            view.now.firsts.now view.now.known.now.lets c view.now.posing.now parts node (form.Fun x body)
            self.old self.new (Step own)) }
    {
        let arrow = self.function(view.posing.root(node))?;
        let offer = self.offered(alloc, view, body, arrow.to)?;
        let inner = with(alloc, offer.as_slice(), x, arrow.from)?;
        let step = self.adapted(alloc, body, &inner, arrow.to)?;
        let env = without(alloc, offer.as_slice(), x)?;
        let rule = StepRule::Fun(step);
        let own = self.steps.step(alloc, node, rule, env, arrow.node)?;
        Ok(own)
    }

    /// An application, whose function goes over to that of the goal, and whose argument to the domain.
    ///
    /// # Errors
    ///
    /// `Memory` where memory is wanting.
    pub fn plain_apply(
        &mut self,
        alloc: Global,
        view: &PartView,
        node: usize,
        function: usize,
        argument: usize,
    ) -> Result<Conclusion, Memory>
        ensures lengthens { OnOk result (Lengthens self.old.laid self.new.laid) }
        ensures writes { (c : Constraint) (parts : ℕ → List ℕ) → IsSound self.old
            → HasOwnParts self.old c.automaton parts
            → IsPosedAt c view.now.posing.now (form.Apply function argument) node
            → IfOk result (λ own. WritesNode view.now.globals.now view.now.firsts.now
            view.now.known.now.lets c view.now.posing.now parts node (form.Apply function argument)
            self.old self.new (Step own)) }
    {
        let goal = behind(view.posing.root(node), 2)?;
        let arrow = self.function(goal)?;
        let left = self.offered(alloc, view, function, arrow.node)?;
        let right = self.offered(alloc, view, argument, arrow.from)?;
        let env = self.joined(alloc, view, left.as_slice(), right.as_slice())?;
        let first = self.adapted(alloc, function, &env, arrow.node)?;
        let second = self.adapted(alloc, argument, &env, arrow.from)?;
        let rule = StepRule::App(first, second);
        let own = self.steps.step(alloc, node, rule, env, arrow.to)?;
        Ok(own)
    }
}
