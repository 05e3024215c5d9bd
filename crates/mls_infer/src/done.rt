//! What is known of the nodes that are done.

ghost use Rattle.std.specs.Prelude.{◌≡◌, ◌++◌, ◌∷◌, [], length, slice_get, IfOk, IfSome, IsTrue, None, OnOk, Some};
ghost use Rattle.mls_automaton.specs.declared.scheme.Scheme.{Scheme};
ghost use Rattle.mls_automaton.specs.Schemes.{IsScheme};
ghost use Rattle.mls_biunify.specs.Live.{IsLive};
ghost use Rattle.mls_term.specs.declared.term.TermForm.TheVariants as form;
ghost use Rattle.mls_infer.specs.declared.done.Known.TheVariants as known;
ghost use Rattle.mls_infer.specs.Constraints.{bound_scheme, no_goals};
ghost use Rattle.mls_infer.specs.Doing.{IsBeside, IsBuiltOf, IsDone, IsTakenOut, TakesBound, TakesMore, finished_in};
ghost use Rattle.mls_infer.specs.Fields.{IsFieldOf, IsKnownType};
ghost use Rattle.mls_infer.specs.Finished.{Has};
ghost use Rattle.mls_infer.specs.Finishing.{HasParts, KeepsBut, without_env};
ghost use Rattle.mls_infer.specs.Merges.{HaveSameTypes};
ghost use Rattle.mls_infer.specs.Pending.{IsRemade, Waits, part_in};
ghost use Rattle.mls_infer.specs.Regions.{scheme_at};

use crate::forms::{bound, let_in};
use crate::meets::merged;
use crate::named::Named;
use crate::pending::{Pending, copied, weight};
use crate::region::{Region, Size};
use mls_automaton::scheme::Scheme;
use mls_base::memory::Memory;
use mls_biunify::live::Live;
use mls_book::name::Name;
use mls_shape::simplify::simplify;
use std::alloc::Global;
use std::mem;
use std::rc::Rc;

// The table begins with room for no more states.
const SMALL: usize = 32;

/// What is known of a node: it is a binder, of which nothing is in the table yet; or its part waits in the table for the
/// node above, or its type stands apart, as that of the first part of a let and of each known name, until the node above
/// copies it; or it was taken.
#[derive(Drop)]
enum Known {
    Bound(usize),
    Waiting(Pending),
    Named(Rc<Named>),
    Taken,
}

/// The table of a term, and what is known of each node that is done, under its number.
#[derive(Drop)]
pub(crate) struct Done {
    pub(crate) live: Live,
    nodes: Vec<Known>,
}

impl Done {
    /// No node, with room for so many, and in the table for the states of a small term.
    ///
    /// # Errors
    ///
    /// `Memory` where memory is wanting.
    pub(crate) fn with_room(alloc: Global, count: usize) -> Result<Done, Memory>
        ensures done { IfOk result IsDone }
        ensures none { IfOk result (λ done. finished_in done ≡ []) }
    {
        let nodes = Vec::with_capacity(alloc, count)?;
        let mut live = Live::new(alloc);
        live.make_room(count.saturating_mul(4).min(SMALL))?;
        let _empty = live.ready();
        Ok(Done { live, nodes })
    }

    /// Adds the part of the next node.
    ///
    /// # Errors
    ///
    /// `Memory` where memory is wanting.
    pub(crate) fn push(&mut self, part: Pending) -> Result<(), Memory>
        requires done { IsDone self.old }
        requires beside { IsBeside self.old (part_in part ∷ []) }
        ensures done { OnOk result (IsDone self.new) }
        ensures added { OnOk result (finished_in self.new
            ≡ finished_in self.old ++ Some (scheme_at self.old.live.table (part_in part)) ∷ []) }
    {
        self.nodes.push(Known::Waiting(part))?;
        Ok(())
    }

    /// Adds a known name as the next node. Nothing is copied.
    ///
    /// # Errors
    ///
    /// `Memory` where memory is wanting.
    pub(crate) fn share(&mut self, named: Rc<Named>) -> Result<(), Memory>
        requires done { IsDone self.old }
        requires known { IsKnownType named.value }
        ensures done { OnOk result (IsDone self.new) }
        ensures added { OnOk result (finished_in self.new ≡ finished_in self.old ++ Some named.value.scheme ∷ []) }
    {
        self.nodes.push(Known::Named(named))?;
        Ok(())
    }

    /// Adds a binder as the next node. Nothing is in the table for it until a node takes it.
    ///
    /// # Errors
    ///
    /// `Memory` where memory is wanting.
    pub(crate) fn bind(&mut self, binder: usize) -> Result<(), Memory>
        requires done { IsDone self.old }
        ensures done { OnOk result (IsDone self.new) }
        ensures added { OnOk result (finished_in self.new
            ≡ finished_in self.old ++ Some (bound_scheme binder) ∷ []) }
    {
        self.nodes.push(Known::Bound(binder))?;
        Ok(())
    }

    /// Takes a node if it is a binder, and says which. Else nothing changes.
    pub(crate) fn take_bound(&mut self, i: usize) -> Option<usize>
        requires done { IsDone self.old }
        requires there { (s : Scheme) × Has (finished_in self.old) i s }
        ensures some { IfSome result (λ binder. TakesBound self.old i binder self.new) }
        ensures none { result ≡ None → self.new ≡ self.old }
    {
        match &self.nodes[i] {
            Known::Bound(x) => {
                let binder = *x;
                self.nodes[i] = Known::Taken;
                Some(binder)
            }
            _ => None,
        }
    }

    /// Sets the part of a node apart, simplified, if it waits.
    ///
    /// # Errors
    ///
    /// `Memory` where memory is wanting.
    pub(crate) fn name(&mut self, alloc: Global, i: usize) -> Result<(), Memory>
        requires done { IsDone self.old }
        requires there { (s : Scheme) × Has (finished_in self.old) i s }
        ensures done { OnOk result (IsDone self.new) }
        ensures keeps { OnOk result (KeepsBut [] (finished_in self.old) (finished_in self.new)) }
        ensures named { OnOk result ((n : _) × (slice_get self.new.nodes.items i ≡ Some (known.Named n))) }
    {
        match mem::replace(&mut self.nodes[i], Known::Taken) {
            Known::Waiting(part) => {
                let scheme = taken_out(alloc, &mut self.live, part)?;
                let named = Named::new(alloc, scheme)?;
                self.nodes[i] = Known::Named(named);
                Ok(())
            }
            Known::Named(named) => {
                self.nodes[i] = Known::Named(named);
                Ok(())
            }
            Known::Bound(x) => {
                let part = bound(alloc, &mut self.live, x)?;
                let _made = self.live.ready();
                let scheme = taken_out(alloc, &mut self.live, part)?;
                let named = Named::new(alloc, scheme)?;
                self.nodes[i] = Known::Named(named);
                Ok(())
            }
            Known::Taken => unreachable!(),
        }
    }

    /// Takes the part of a node: a copy of it, where it stands apart, and new states, where it is a binder.
    ///
    /// # Errors
    ///
    /// `Memory` where memory is wanting.
    pub(crate) fn take(&mut self, alloc: Global, i: usize) -> Result<Pending, Memory>
        requires done { IsDone self.old }
        requires there { (s : Scheme) × Has (finished_in self.old) i s }
        ensures { IfOk result (λ part. TakesMore self.old i self.new (part_in part)) }
    {
        match mem::replace(&mut self.nodes[i], Known::Taken) {
            Known::Waiting(part) => Ok(part),
            Known::Named(named) => {
                let part = copied(alloc, &mut self.live, &named.scheme)?;
                let _copied = self.live.ready();
                Ok(part)
            }
            Known::Bound(x) => {
                let part = bound(alloc, &mut self.live, x)?;
                let _made = self.live.ready();
                Ok(part)
            }
            Known::Taken => unreachable!(),
        }
    }

    /// The type of the first part of a let, which stands apart from then on.
    ///
    /// # Errors
    ///
    /// `Memory` where memory is wanting.
    pub(crate) fn named(&mut self, alloc: Global, i: usize) -> Result<Rc<Named>, Memory>
        requires done { IsDone self.old }
        requires there { (s : Scheme) × Has (finished_in self.old) i s }
        ensures done { OnOk result (IsDone self.new) }
        ensures keeps { OnOk result (KeepsBut [] (finished_in self.old) (finished_in self.new)) }
        ensures known { IfOk result (λ named. IsKnownType named.value) }
        ensures alike { IfOk result (λ named. (s : Scheme) → Has (finished_in self.old) i s
            → HaveSameTypes (no_goals s) (no_goals named.value.scheme)) }
    {
        self.name(alloc, i)?;
        match &self.nodes[i] {
            Known::Named(named) => {
                let one_more = named.clone()?;
                Ok(one_more)
            }
            _ => unreachable!(),
        }
    }

    /// Takes the field of a node that stands apart, where its type can be told without solving: it copies no more than
    /// the field reaches. Else nothing changes.
    ///
    /// # Errors
    ///
    /// `Memory` where memory is wanting.
    pub(crate) fn take_field(
        &mut self,
        alloc: Global,
        i: usize,
        label: &Name,
    ) -> Result<Option<Pending>, Memory>
        requires done { IsDone self.old }
        requires parts { HasParts (form.Project i label.now) (finished_in self.old) }
        ensures some { IfOk result (λ taken. IfSome taken (λ part.
            IsBuiltOf (form.Project i label.now) self.old self.new (part_in part))) }
        ensures none { IfOk result (λ taken. taken ≡ None → self.new ≡ self.old) }
    {
        let known = self.field(i, label)?;
        match known {
            Some(field) => {
                self.nodes[i] = Known::Taken;
                let part = copied(alloc, &mut self.live, &field)?;
                let _copied = self.live.ready();
                Ok(Some(part))
            }
            None => Ok(None),
        }
    }

    // The type of the field of a node that stands apart, where it can be told without solving.
    fn field(&self, i: usize, label: &Name) -> Result<Option<Scheme>, Memory>
        requires done { IsDone self.now }
        requires there { (s : Scheme) × Has (finished_in self.now) i s }
        ensures { IfOk result (λ field. IfSome field (λ (t : Scheme). (s : Scheme) → Has (finished_in self.now) i s
            → IsFieldOf label.now s t)) }
    {
        match &self.nodes[i] {
            Known::Named(named) => {
                let field = named.field(label)?;
                Ok(field)
            }
            _ => Ok(None),
        }
    }

    /// The part of a let: its second part, with what its first part needs.
    ///
    /// # Errors
    ///
    /// `Memory` where memory is wanting.
    pub(crate) fn end_let(
        &mut self,
        alloc: Global,
        first: usize,
        second: usize,
    ) -> Result<Pending, Memory>
        requires done { IsDone self.old }
        requires parts { HasParts (form.Let 0 first second) (finished_in self.old) }
        ensures { IfOk result (λ part. IsBuiltOf (form.Let 0 first second) self.old self.new (part_in part)) }
    {
        if self.needs_nothing(first) {
            let alone = self.take(alloc, second)?;
            return Ok(alone);
        }
        let needed = self.take(alloc, first)?;
        let body = self.take(alloc, second)?;
        let part = let_in(needed, body)?;
        Ok(part)
    }

    /// How many nodes are done.
    pub(crate) fn count(&self) -> usize
        ensures { result ≡ length (finished_in self.now) }
    {
        self.nodes.len()
    }

    // Whether a node stands apart and needs nothing of any binder.
    fn needs_nothing(&self, i: usize) -> bool
        requires done { IsDone self.now }
        requires there { (s : Scheme) × Has (finished_in self.now) i s }
        ensures { IsTrue result → (s : Scheme) × Has (finished_in self.now) i s × IsScheme s × (s.env ≡ []) }
    {
        match &self.nodes[i] {
            Known::Named(named) => named.scheme.env.is_empty(),
            _ => false,
        }
    }

    /// The scheme of the last node, which needs no binder.
    ///
    /// # Errors
    ///
    /// `Memory` where memory is wanting.
    pub(crate) fn whole(&mut self, alloc: Global, last: usize) -> Result<Scheme, Memory>
        requires done { IsDone self.old }
        requires there { (s : Scheme) × Has (finished_in self.old) last s }
        ensures scheme { IfOk result IsScheme }
        ensures env { IfOk result (λ (s : Scheme). s.env ≡ []) }
        ensures alike { IfOk result (λ (t : Scheme). (s : Scheme) → Has (finished_in self.old) last s
            → HaveSameTypes (no_goals (without_env s)) (no_goals t)) }
    {
        let part = self.take(alloc, last)?;
        let scheme = self.live.freeze(part.root, &[])?;
        scheme.env.as_slice();
        Ok(scheme)
    }
}

/// The part over the states alone that are reached, with one state for each binder.
///
/// # Errors
///
/// `Memory` where memory is wanting.
pub(crate) fn trimmed(alloc: Global, live: &mut Live, part: Pending) -> Result<Pending, Memory>
    requires live { IsLive live.old }
    requires waits { Waits live.old (part_in part) }
    ensures live_new { OnOk result (IsLive live.new) }
    ensures remade { IfOk result (λ other. IsRemade live.old (part_in part) live.new (part_in other)) }
{
    let part = merged(alloc, live, part)?;
    let _merged = live.ready();
    let mut roots = Vec::new(alloc);
    roots.push(part.root)?;
    for entry in part.env.as_slice() {
        roots.push(entry.state)?;
    }
    let states = live.keep_among(part.region.states, roots.as_slice())?;
    let _kept = live.ready();
    let size = Size::kept(weight(live, states.as_slice()));
    Ok(Pending {
        region: Region { states, size },
        env: part.env,
        root: part.root,
    })
}

// The simplified scheme of a part, whose states leave the table.
fn taken_out(alloc: Global, live: &mut Live, part: Pending) -> Result<Scheme, Memory>
    requires live { IsLive live.old }
    requires waits { Waits live.old (part_in part) }
    ensures { IfOk result (λ (s : Scheme). IsTakenOut live.old (part_in part) live.new s) }
{
    let part = merged(alloc, live, part)?;
    let _merged = live.ready();
    let scheme = live.freeze(part.root, part.env.as_slice())?;
    scheme.env.as_slice();
    let simple = simplify(alloc, &scheme)?;
    simple.env.as_slice();
    live.keep_among(part.region.states, &[])?;
    let _left = live.ready();
    Ok(simple)
}
