//! The lines of names and of lets.
ghost use Rattle.std.specs.Prelude.{◌≡◌, ◌≢◌, ℕ, List, [], length, IfOk, IsSome, OnOk, Some};
ghost use Rattle.std.specs.BTreeMap.{get};
ghost use Rattle.std.specs.Ordering.{nat_cmp};
ghost use Rattle.mls_book.specs.Books.{IsBook};
ghost use Rattle.mls_term.specs.declared.term.TermForm.TheVariants as form;
ghost use Rattle.mls_layout.specs.Parts.{Constraint};
ghost use Rattle.mls_lines.specs.declared.writer.Concluded.TheVariants.{Step};
ghost use Rattle.mls_lines.specs.Found.{HasFirst, HasPlace};
ghost use Rattle.mls_lines.specs.PlainLines.{HaveLowFirsts, HaveLowGlobals, HaveRisingFirsts, IsSound};
ghost use Rattle.mls_lines.specs.PlainLines.{SettlesNode, WritesNode};
ghost use Rattle.mls_lines.specs.Puts.{ArePutsOfFirst, ArePutsOfGlobal, FollowFrom};
ghost use Rattle.mls_lines.specs.Writer.{Grows, Lengthens};

use crate::known::{FirstPart, GlobalAt, first_part, global_at};
use crate::puts::{Puts, add_puts, global_puts, let_puts, share_variables};
use crate::steps::{Conclusion, copied};
use crate::writer::{PartView, Writer};
use mls_automaton::scheme::Scheme;
use mls_base::memory::Memory;
use mls_book::book::NodeId;
use mls_deriv::claim::Put;
use mls_deriv::derivation::{BinderNodes, StepRule};
use mls_parts::pose::{KnownTypes, Posing};
use std::alloc::Global;

// The state with which the copy of a known type at a node begins.
fn copy_at(posing: &Posing, node: usize) -> usize
    requires { IsSome (get nat_cmp posing.now.copies node) }
    ensures { get nat_cmp posing.now.copies node ≡ Some result }
{
    match posing.copies.get(node) {
        Some(first) => *first,
        None => unreachable!(),
    }
}

// The type that is known of the first part of a let.
fn let_type(known: &KnownTypes, k: usize) -> &Scheme
    requires { IsSome (get nat_cmp known.now.lets k) }
    ensures { get nat_cmp known.now.lets k ≡ Some result.now }
{
    &known.lets[&k]
}

// The conclusion where these variables are still to be put in.
fn with_puts(own: Conclusion, puts: Puts) -> Conclusion
    ensures { result ≡ record own { puts = puts } }
{
    let mut own = own;
    own.puts = puts;
    own
}

impl Writer {
    /// A name of the environment, whose variables stand for nodes of the copy of its type.
    ///
    /// # Errors
    ///
    /// `Memory` where memory is wanting.
    pub fn global(
        &mut self,
        alloc: Global,
        view: &PartView,
        node: usize,
        g: usize,
    ) -> Result<Conclusion, Memory>
        requires { HasPlace view.now.globals.now view.now.posing.now g node }
        ensures lengthens { OnOk result (Lengthens self.old.laid self.new.laid) }
        ensures writes { (c : Constraint) (parts : ℕ → List ℕ) → IsSound self.old
            → HaveLowGlobals (length self.old.laid.book) view.now.globals.now → IfOk result (λ own. WritesNode
            view.now.globals.now view.now.firsts.now view.now.known.now.lets c view.now.posing.now parts node
            (form.Global g) self.old self.new (Step own)) }
    {
        let global = global_at(view.globals, g);
        let puts = self.puts_of_global(alloc, view, node, global)?;
        let rule = StepRule::Name(NodeId(global.first));
        let env = BinderNodes::new(alloc);
        let own = self.steps.step(alloc, node, rule, env, global.root)?;
        Ok(with_puts(own, puts))
    }

    // What the variables of the type of a name of the environment stand for at a node with a copy of it.
    fn puts_of_global(
        &mut self,
        alloc: Global,
        view: &PartView,
        node: usize,
        global: &GlobalAt,
    ) -> Result<Puts, Memory>
        requires { IsSome (get nat_cmp view.now.posing.now.copies node) }
        ensures grows { IfOk result (λ puts. Grows self.old self.new) }
        ensures is_book { IsBook self.old.laid.book → OnOk result (IsBook self.new.laid.book) }
        ensures joins { IsBook self.old.laid.book → IfOk result (ArePutsOfGlobal self.new.laid.book
            self.old.laid.places view.now.posing.now node global.now) }
    {
        let first = copy_at(view.posing, node);
        let puts = global_puts(alloc, &mut self.laid.book, &self.laid.places, global, first)?;
        Ok(puts)
    }

    // What the variables of a let's first part stand for at a node with a copy of its type.
    fn puts_of_let(
        &self,
        alloc: Global,
        view: &PartView,
        node: usize,
        k: usize,
        part: &FirstPart,
    ) -> Result<Puts, Memory>
        requires { HasFirst view.now.firsts.now view.now.known.now.lets view.now.posing.now k node }
        ensures follow { IfOk result (FollowFrom part.now.variable) }
        ensures edges { IfOk result (ArePutsOfFirst self.now.laid.places view.now.posing.now view.now.known.now.lets
            node k part.now.variable) }
    {
        let scheme = let_type(view.known, k);
        let first = copy_at(view.posing, node);
        let places = &self.laid.places;
        let puts = let_puts(alloc, places, view.posing, scheme, part.variable, first)?;
        Ok(puts)
    }

    /// A let-bound name, whose variables stand for nodes of the copy of its type.
    ///
    /// # Errors
    ///
    /// `Memory` where memory is wanting.
    pub fn inner(
        &mut self,
        alloc: Global,
        view: &PartView,
        node: usize,
        k: usize,
    ) -> Result<Conclusion, Memory>
        requires { HasFirst view.now.firsts.now view.now.known.now.lets view.now.posing.now k node }
        ensures laid { OnOk result (self.new.laid ≡ self.old.laid) }
        ensures writes { (c : Constraint) (parts : ℕ → List ℕ) → IsSound self.old → HaveRisingFirsts view.now.firsts.now
            → HaveLowFirsts (length self.old.laid.book) view.now.firsts.now
            → IfOk result (λ own. WritesNode view.now.globals.now view.now.firsts.now view.now.known.now.lets c
            view.now.posing.now parts node (form.Inner k) self.old self.new (Step own)) }
    {
        let part = first_part(view.firsts, k);
        let puts = self.puts_of_let(alloc, view, node, k, part)?;
        let rule = StepRule::Use(part.step);
        let env = copied(alloc, part.env.as_slice())?;
        let own = self.steps.step(alloc, node, rule, env, part.root)?;
        Ok(with_puts(own, puts))
    }

    // What the variables of a let's first part stand for at the let, where the first part needs binders.
    fn puts_in_let(
        &self,
        alloc: Global,
        view: &PartView,
        node: usize,
        k: usize,
        part: &FirstPart,
    ) -> Result<Puts, Memory>
        requires { HasFirst view.now.firsts.now view.now.known.now.lets view.now.posing.now k node }
        ensures none { part.now.env ≡ [] → IfOk result (λ puts. puts ≡ []) }
        ensures follow { IfOk result (FollowFrom part.now.variable) }
        ensures edges { part.now.env ≢ [] → IfOk result (ArePutsOfFirst self.now.laid.places view.now.posing.now
            view.now.known.now.lets node k part.now.variable) }
    {
        if part.env.is_empty() {
            return Ok(Puts::new(alloc));
        }
        self.puts_of_let(alloc, view, node, k, part)
    }

    // What the second part of a let concludes by a step of its own, in which these variables, which follow each other,
    // are not still to be put in.
    fn settled(
        &mut self,
        alloc: Global,
        view: &PartView,
        node: usize,
        puts: &[Put],
    ) -> Result<Conclusion, Memory>
        ensures laid { OnOk result (self.new.laid ≡ self.old.laid) }
        ensures settles { (x : ℕ) → FollowFrom x puts.now → IsSound self.old
            → IfOk result (SettlesNode self.old self.new view.now.posing.now node puts.now) }
    {
        let inner = self.plain(alloc, view, node)?;
        if !share_variables(inner.puts.as_slice(), puts) {
            return Ok(inner);
        }
        let env = self.placed(alloc, view, inner.env.as_slice())?;
        let root = self.place(view.posing.root(node));
        let book = &self.laid.book;
        let own = self.steps.adapt(alloc, book, node, inner, &env, root)?;
        Ok(own)
    }

    /// A let. Where its first part needs binders, its variables are put in with those of its second part, unless these
    /// are the same: then those of the second part are put in before.
    ///
    /// # Errors
    ///
    /// `Memory` where memory is wanting.
    pub fn let_in(
        &mut self,
        alloc: Global,
        view: &PartView,
        node: usize,
        k: usize,
        second: usize,
    ) -> Result<Conclusion, Memory>
        requires { HasFirst view.now.firsts.now view.now.known.now.lets view.now.posing.now k node }
        ensures lengthens { OnOk result (Lengthens self.old.laid self.new.laid) }
        ensures writes { (c : Constraint) (parts : ℕ → List ℕ) (j : ℕ) → IsSound self.old
            → HaveRisingFirsts view.now.firsts.now → HaveLowFirsts (length self.old.laid.book) view.now.firsts.now
            → IfOk result (λ own. WritesNode
            view.now.globals.now view.now.firsts.now view.now.known.now.lets c view.now.posing.now parts node
            (form.Let k j second) self.old self.new (Step own)) }
    {
        let part = first_part(view.firsts, k);
        let puts = self.puts_in_let(alloc, view, node, k, part)?;
        let inner = self.settled(alloc, view, second, puts.as_slice())?;
        let met = self.meets(alloc, part.env.as_slice(), inner.env.as_slice())?;
        let rule = StepRule::Let(part.step, inner.step);
        let own = self.steps.step(alloc, node, rule, met, inner.root)?;
        let mut all = inner.puts;
        add_puts(&mut all, puts.as_slice())?;
        Ok(with_puts(own, all))
    }
}
