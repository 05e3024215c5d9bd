//! The plain lines of conditionals.
ghost use Rattle.std.specs.Prelude.{◌≡◌, ℕ, List, IfOk, IsSome, OnOk, Some};
ghost use Rattle.std.specs.BTreeMap.{get};
ghost use Rattle.std.specs.Ordering.{nat_cmp};
ghost use Rattle.mls_term.specs.declared.term.TermForm.TheVariants as form;
ghost use Rattle.mls_layout.specs.Parts.{Constraint};
ghost use Rattle.mls_parts.specs.PosedGoals.{IsPosedAt};
ghost use Rattle.mls_lines.specs.declared.writer.Concluded.TheVariants.{Step};
ghost use Rattle.mls_lines.specs.PlainLines.{HasOwnParts, IsSound, JoinsThree, WritesNode};
ghost use Rattle.mls_lines.specs.Writer.{Grows, HaveRisingSteps, Lengthens};

use crate::steps::Conclusion;
use crate::writer::{PartView, Writer};
use mls_base::memory::Memory;
use mls_book::book::NodeId;
use mls_deriv::derivation::{BinderNodes, StepRule};
use mls_parts::pose::Posing;
use std::alloc::Global;

// The state that the branches of a conditional go into.
fn result_of(posing: &Posing, node: usize) -> usize
    requires { IsSome (get nat_cmp posing.now.results node) }
    ensures { get nat_cmp posing.now.results node ≡ Some result }
{
    match posing.results.get(node) {
        Some(into) => *into,
        None => unreachable!(),
    }
}

impl Writer {
    // The environment of a conditional: that of all parts, where the branches have this type.
    fn env_of_parts_of_choice(
        &mut self,
        alloc: Global,
        view: &PartView,
        condition: usize,
        first: usize,
        second: usize,
        into: NodeId,
    ) -> Result<BinderNodes, Memory>
        ensures grows { OnOk result (Grows self.old self.new) }
        ensures joins { HaveRisingSteps self.old → IfOk result (JoinsThree self.old self.new view.now.posing.now
            condition first second self.old.laid.boolean.0 into.0) }
    {
        let left = self.offered(alloc, view, condition, self.laid.boolean)?;
        let middle = self.offered(alloc, view, first, into)?;
        let right = self.offered(alloc, view, second, into)?;
        let upper = self.joined(alloc, view, left.as_slice(), middle.as_slice())?;
        let env = self.joined(alloc, view, upper.as_slice(), right.as_slice())?;
        Ok(env)
    }

    /// A conditional, whose condition goes over to `bool`, and whose branches to what flows on.
    ///
    /// # Errors
    ///
    /// `Memory` where memory is wanting.
    pub fn plain_choice(
        &mut self,
        alloc: Global,
        view: &PartView,
        node: usize,
        condition: usize,
        first: usize,
        second: usize,
    ) -> Result<Conclusion, Memory>
        requires { IsSome (get nat_cmp view.now.posing.now.results node) }
        ensures lengthens { OnOk result (Lengthens self.old.laid self.new.laid) }
        ensures writes { (c : Constraint) (parts : ℕ → List ℕ) → IsSound self.old
            → HasOwnParts self.old c.automaton parts
            → IsPosedAt c view.now.posing.now (form.If condition first second) node
            → IfOk result (λ own. WritesNode view.now.globals.now view.now.firsts.now
            view.now.known.now.lets c view.now.posing.now parts node (form.If condition first second)
            self.old self.new (Step own)) }
    {
        let state = result_of(view.posing, node);
        let truth = self.laid.boolean;
        let into = self.place(state);
        let env = self.env_of_parts_of_choice(alloc, view, condition, first, second, into)?;
        let asked = self.adapted(alloc, condition, &env, truth)?;
        let yes = self.adapted(alloc, first, &env, into)?;
        let no = self.adapted(alloc, second, &env, into)?;
        let rule = StepRule::If(asked, yes, no);
        let own = self.steps.step(alloc, node, rule, env, into)?;
        Ok(own)
    }
}
