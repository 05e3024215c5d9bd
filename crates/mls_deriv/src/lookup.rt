//! Look-ups by halves, in environments and in records.
ghost use Rattle.std.specs.Prelude.{◌≡◌, option_map};
ghost use Rattle.mls_book.specs.Books.{AreRising, field_at};
ghost use Rattle.mls_deriv.specs.Steps.{IsRising};
ghost use Rattle.mls_deriv.specs.inner.Rules.{node_in};

use crate::derivation::BinderNode;
use mls_book::book::{Field, NodeId};
use mls_book::name::Name;

/// The node of a binder, in a number of steps that is logarithmic in that of the entries.
pub fn node_in(env: &[BinderNode], binder: usize) -> Option<NodeId>
    requires { IsRising env.now }
    ensures { option_map (λ id. id.0) result ≡ node_in env.now binder }
{
    match env.binary_search_by(|entry| entry.binder.cmp(&binder)) {
        Ok(at) => Some(env[at].node),
        Err(_) => None,
    }
}

/// The node of the field with this label, in a number of steps that is logarithmic in that of the fields.
pub fn field_of(fields: &[Field], label: &Name) -> Option<NodeId>
    requires { AreRising fields.now }
    ensures { result ≡ field_at label.now fields.now }
{
    match fields.binary_search_by(|field| field.label.cmp(label)) {
        Ok(at) => Some(fields[at].node),
        Err(_) => None,
    }
}
