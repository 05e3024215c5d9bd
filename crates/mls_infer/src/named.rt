//! Known types that stand apart from the table of a term.

ghost use Rattle.std.specs.Prelude.{◌≡◌, ◌∷◌, [], ℕ, IfOk, IfSome, IsTrue, Some};
ghost use Rattle.mls_automaton.specs.declared.state_set.StateId.{StateId};
ghost use Rattle.mls_automaton.specs.Automata.{HasFlow};
ghost use Rattle.mls_automaton.specs.Environments.{BindersRise};
ghost use Rattle.mls_automaton.specs.Heads.{set_at};
ghost use Rattle.mls_automaton.specs.Schemes.{IsScheme};
ghost use Rattle.mls_infer.specs.Constraints.{no_goals, project_constraint};
ghost use Rattle.mls_infer.specs.Fields.{HasOnly, IsFieldOf, IsKnownType, IsRecord};
ghost use Rattle.mls_infer.specs.Merges.{HaveSameTypes};
ghost use Rattle.mls_infer.specs.Pending.{part_in};
ghost use Rattle.mls_infer.specs.Regions.{scheme_at};
ghost use Rattle.mls_infer.specs.Steps.{IsSolution};

use crate::pending::{Pending, copied};
use mls_automaton::automaton::{FieldSets, Head};
use mls_automaton::scheme::Scheme;
use mls_automaton::state_set::StateId;
use mls_base::memory::Memory;
use mls_biunify::live::Live;
use mls_book::name::Name;
use std::alloc::Global;
use std::rc::Rc;

/// A known type, which each use of its name copies. Where it is a record of several fields alone, a projection from it
/// copies no more than its field reaches.
#[derive(Drop)]
pub(crate) struct Named {
    pub(crate) scheme: Scheme,
    fields: Option<Fields>,
}

// A record in a table of its own.
#[derive(Drop)]
struct Fields {
    live: Live,
    part: Pending,
}

impl Named {
    /// A type that is known for one use alone.
    ///
    /// # Errors
    ///
    /// `Memory` where memory is wanting.
    pub(crate) fn once(alloc: Global, scheme: Scheme) -> Result<Rc<Named>, Memory>
        requires scheme { IsScheme scheme }
        requires rise { BindersRise scheme.env }
        ensures known { IfOk result (λ named. IsKnownType named.value) }
        ensures scheme { IfOk result (λ named. named.value.scheme ≡ scheme) }
    {
        let named = Rc::new(
            alloc,
            Named {
                scheme,
                fields: None,
            },
        )?;
        Ok(named)
    }

    /// A type that is known for many uses.
    ///
    /// # Errors
    ///
    /// `Memory` where memory is wanting.
    pub(crate) fn new(alloc: Global, scheme: Scheme) -> Result<Rc<Named>, Memory>
        requires scheme { IsScheme scheme }
        requires rise { BindersRise scheme.env }
        ensures known { IfOk result (λ named. IsKnownType named.value) }
        ensures scheme { IfOk result (λ named. named.value.scheme ≡ scheme) }
    {
        if !is_record(&scheme) {
            let named = Named::once(alloc, scheme)?;
            return Ok(named);
        }
        let fields = Fields::new(alloc, &scheme)?;
        let named = Rc::new(
            alloc,
            Named {
                scheme,
                fields: Some(fields),
            },
        )?;
        Ok(named)
    }

    /// The type of a field, where it can be told without solving.
    ///
    /// # Errors
    ///
    /// `Memory` where memory is wanting.
    pub(crate) fn field(&self, label: &Name) -> Result<Option<Scheme>, Memory>
        requires { IsKnownType self.now }
        ensures { IfOk result (λ field. IfSome field (IsFieldOf label.now self.now.scheme)) }
    {
        match &self.fields {
            Some(fields) => {
                let field = fields.field(label)?;
                Ok(field)
            }
            None => Ok(None),
        }
    }
}

impl Fields {
    // A copy of a scheme to whose root no edge leads.
    fn new(alloc: Global, scheme: &Scheme) -> Result<Fields, Memory>
        requires scheme { IsScheme scheme.now }
        requires rise { BindersRise scheme.now.env }
        requires free { (n : ℕ) → HasFlow scheme.now.automaton n scheme.now.root.0 → ⊥ }
        ensures fields { IfOk result (λ fields. IsRecord fields.live (part_in fields.part)) }
        ensures alike { IfOk result (λ fields. HaveSameTypes (no_goals scheme.now)
            (no_goals (scheme_at fields.live.table (part_in fields.part)))) }
    {
        let mut live = Live::new(alloc);
        let part = copied(alloc, &mut live, scheme)?;
        let _copied = live.ready();
        Ok(Fields { live, part })
    }

    // The type of a field that has one state.
    fn field(&self, label: &Name) -> Result<Option<Scheme>, Memory>
        requires { IsRecord self.now.live (part_in self.now.part) }
        ensures { IfOk result (λ field. IfSome field
            (IsSolution (project_constraint label.now (scheme_at self.now.live.table (part_in self.now.part))))) }
    {
        match field_state(self.live.head(self.part.root), label) {
            Some(state) => {
                let field = self.live.freeze(state, self.part.env.as_slice())?;
                field.env.as_slice();
                Ok(Some(field))
            }
            None => Ok(None),
        }
    }
}

// Whether the root of a scheme has a record alone, of several fields, and no edge leads to it.
fn is_record(scheme: &Scheme) -> bool
    requires { IsScheme scheme.now }
    ensures { IsTrue result → (n : ℕ) → HasFlow scheme.now.automaton n scheme.now.root.0 → ⊥ }
{
    has_several_fields(scheme.automaton.head(scheme.root))
        && scheme.automaton.partners(scheme.root).is_empty()
}

// Whether a head has a record alone, of which a projection may leave something out.
fn has_several_fields(head: &Head) -> bool {
    match head {
        Head {
            boolean: false,
            integer: false,
            function: None,
            fields: Some(fields),
        } => fields.len() > 1,
        _ => false,
    }
}

// The state of a field, where the head has a record alone and the field has no other state.
fn field_state(head: &Head, label: &Name) -> Option<StateId>
    ensures { IfSome result (λ (s : StateId). HasOnly head.now label.now s.0) }
{
    match head {
        Head {
            boolean: false,
            integer: false,
            function: None,
            fields: Some(fields),
        } => only_state(fields, label),
        _ => None,
    }
}

// The state of a field that has no other.
fn only_state(fields: &FieldSets, label: &Name) -> Option<StateId>
    ensures { IfSome result (λ (s : StateId). set_at fields.now label.now ≡ Some (s.0 ∷ [])) }
{
    match fields.get(label) {
        Some(set) => only(set.as_slice()),
        None => None,
    }
}

// The state of a set that has no other.
fn only(set: &[usize]) -> Option<StateId>
    ensures { IfSome result (λ (s : StateId). set.now ≡ s.0 ∷ []) }
{
    match set {
        [s] => Some(StateId(*s)),
        _ => None,
    }
}
