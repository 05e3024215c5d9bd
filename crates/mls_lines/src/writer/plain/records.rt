//! The plain lines of records and projections.
ghost use Rattle.std.specs.Prelude.{◌≡◌, ℕ, List, IfOk, OnOk};
ghost use Rattle.mls_term.specs.declared.term.TermForm.TheVariants as form;
ghost use Rattle.mls_layout.specs.Parts.{Constraint};
ghost use Rattle.mls_parts.specs.PosedGoals.{IsPosedAt};
ghost use Rattle.mls_lines.specs.declared.writer.Concluded.TheVariants.{Step};
ghost use Rattle.mls_lines.specs.PlainLines.{HasOwnParts, IsSound, WritesNode};
ghost use Rattle.mls_lines.specs.Writer.{Lengthens};

use crate::steps::Conclusion;
use crate::writer::nodes::behind;
use crate::writer::{PartView, Writer};
use mls_base::memory::Memory;
use mls_book::name::Name;
use mls_deriv::derivation::StepRule;
use mls_term::term::Part;
use std::alloc::Global;

impl Writer {
    /// A record, each part of which goes over to the field of its label.
    ///
    /// # Errors
    ///
    /// `Memory` where memory is wanting.
    pub fn plain_make(
        &mut self,
        alloc: Global,
        view: &PartView,
        node: usize,
        parts: &[Part],
    ) -> Result<Conclusion, Memory>
        ensures lengthens { OnOk result (Lengthens self.old.laid self.new.laid) }
        ensures writes { (c : Constraint) (places : ℕ → List ℕ) → IsSound self.old
            → HasOwnParts self.old c.automaton places → IfOk result (λ own. WritesNode view.now.globals.now
            view.now.firsts.now view.now.known.now.lets c view.now.posing.now places node (form.Make parts.now)
            self.old self.new (Step own)) }
    {
        let record = self.record(view.posing.root(node))?;
        let fields = self.fields(alloc, record, parts)?;
        let env = self.env_of_parts(alloc, view, fields.as_slice(), parts)?;
        let steps = self.parts(alloc, fields.as_slice(), &env, parts)?;
        let rule = StepRule::Make(steps);
        let own = self.steps.step(alloc, node, rule, env, record)?;
        Ok(own)
    }

    /// A projection, whose body goes over to the record of the goal.
    ///
    /// # Errors
    ///
    /// `Memory` where memory is wanting.
    pub fn plain_project(
        &mut self,
        alloc: Global,
        view: &PartView,
        node: usize,
        body: usize,
        label: &Name,
    ) -> Result<Conclusion, Memory>
        ensures laid { OnOk result (self.new.laid ≡ self.old.laid) }
        ensures writes { (c : Constraint) (parts : ℕ → List ℕ) → IsSound self.old
            → HasOwnParts self.old c.automaton parts
            → IsPosedAt c view.now.posing.now (form.Project body label.now) node
            → IfOk result (λ own. WritesNode view.now.globals.now view.now.firsts.now
            view.now.known.now.lets c view.now.posing.now parts node (form.Project body label.now)
            self.old self.new (Step own)) }
    {
        let goal = behind(view.posing.root(node), 2)?;
        let record = self.record(goal)?;
        let field = self.field(record, label)?;
        let env = self.offered(alloc, view, body, record)?;
        let step = self.adapted(alloc, body, &env, record)?;
        let rule = StepRule::Proj(step);
        let own = self.steps.step(alloc, node, rule, env, field)?;
        Ok(own)
    }
}
