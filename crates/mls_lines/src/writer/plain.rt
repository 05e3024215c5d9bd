//! The lines of a part, written plainly: each part of a node goes over to the type and the environment that the rule
//! asks for, at the nodes that were laid out for the states of the constraint, and no node is made but meets of binders.
ghost use Rattle.std.specs.Prelude.{ℕ, List, length, IfOk, OnOk};
ghost use Rattle.mls_layout.specs.Parts.{Constraint};
ghost use Rattle.mls_parts.specs.PosedGoals.{IsPosedAt};
ghost use Rattle.mls_lines.specs.Found.{AreFound, IsFound};
ghost use Rattle.mls_lines.specs.PlainLines.{HasOwnParts, HaveLowFirsts, HaveLowGlobals, HaveRisingFirsts, IsSound};
ghost use Rattle.mls_lines.specs.PlainLines.{WritesNode};
ghost use Rattle.mls_lines.specs.PlainParts.{CanWritePart, ConcludesNothing, WritesPart};
ghost use Rattle.mls_lines.specs.Writer.{Lengthens};

mod choices;
mod functions;
mod records;

use crate::writer::{Concluded, PartView, Writer, stepped};
use mls_base::memory::Memory;
use mls_term::term::{TermForm, TermNode};
use std::alloc::Global;

impl Writer {
    // What a node concludes by its rule, behind what its rule asks for.
    fn write_plain_form(
        &mut self,
        alloc: Global,
        view: &PartView,
        node: usize,
        form: &TermForm,
    ) -> Result<Concluded, Memory>
        requires { IsFound view.now.globals.now view.now.firsts.now view.now.known.now.lets view.now.posing.now form.now
            node }
        ensures lengthens { OnOk result (Lengthens self.old.laid self.new.laid) }
        ensures writes { (c : Constraint) (parts : ℕ → List ℕ) → IsSound self.old
            → HasOwnParts self.old c.automaton parts → HaveRisingFirsts view.now.firsts.now
            → HaveLowFirsts (length self.old.laid.book) view.now.firsts.now
            → HaveLowGlobals (length self.old.laid.book) view.now.globals.now
            → IsPosedAt c view.now.posing.now form.now node
            → IfOk result (WritesNode view.now.globals.now view.now.firsts.now view.now.known.now.lets c
            view.now.posing.now parts node form.now self.old self.new) }
    {
        match form {
            TermForm::Bound(x) => Ok(Concluded::Bound(*x)),
            TermForm::Inner(k) => stepped(self.inner(alloc, view, node, *k)),
            TermForm::Global(g) => stepped(self.global(alloc, view, node, *g)),
            TermForm::Number(_) => stepped(self.literal(alloc, node, self.laid.integer)),
            TermForm::Truth(_) => stepped(self.literal(alloc, node, self.laid.boolean)),
            TermForm::Fun(x, body) => stepped(self.plain_fun(alloc, view, node, *x, *body)),
            TermForm::Apply(function, argument) => {
                stepped(self.plain_apply(alloc, view, node, *function, *argument))
            }
            TermForm::Make(parts) => {
                stepped(self.plain_make(alloc, view, node, parts.as_slice()))
            }
            TermForm::Project(body, label) => {
                stepped(self.plain_project(alloc, view, node, *body, label))
            }
            TermForm::If(condition, first, second) => {
                stepped(self.plain_choice(alloc, view, node, *condition, *first, *second))
            }
            TermForm::Let(k, _, second) => stepped(self.let_in(alloc, view, node, *k, *second)),
            TermForm::Rec(x, body) => stepped(self.recursion(alloc, view, node, *x, *body)),
        }
    }

    /// Writes the lines of the nodes of a part, in order.
    ///
    /// # Errors
    ///
    /// `Memory` where memory is wanting.
    pub fn write_plain_part(
        &mut self,
        alloc: Global,
        view: &PartView,
        nodes: &[TermNode],
        part: &[usize],
    ) -> Result<(), Memory>
        requires { AreFound view.now.globals.now view.now.firsts.now view.now.known.now.lets view.now.posing.now nodes.now
            part.now }
        ensures lengthens { OnOk result (Lengthens self.old.laid self.new.laid) }
        ensures writes { (c : Constraint) (parts : ℕ → List ℕ) → CanWritePart self.old.laid self.old.steps
            view.now.globals.now view.now.firsts.now c view.now.posing.now parts nodes.now part.now
            → ConcludesNothing self.old → OnOk result (WritesPart view.now.globals.now view.now.firsts.now
            view.now.known.now.lets c view.now.posing.now parts nodes.now part.now self.old self.new) }
    {
        for i in part {
            if let Some(node) = nodes.get(*i) {
                let own = self.write_plain_form(alloc, view, *i, &node.form)?;
                self.concluded.insert(*i, own)?;
            }
        }
        Ok(())
    }
}
