//! The field at a label, among labels that rise.
ghost use Rattle.std.specs.Prelude.{◌≡◌, option_map};
ghost use Rattle.mls_automaton.specs.Heads.{AreRising, set_at};

use crate::automaton::FieldSet;
use crate::state_set::StateSet;
use mls_book::name::Name;

/// The set of the field with this label, in a number of steps that is logarithmic in that of the fields.
pub fn set_of<'a>(fields: &'a [FieldSet], label: &Name) -> Option<&'a StateSet>
    requires { AreRising fields.now }
    ensures { option_map (λ set. set.now) result ≡ set_at fields.now label.now }
{
    match fields.binary_search_by(|field| field.label.cmp(label)) {
        Ok(at) => Some(&fields[at].set),
        Err(_) => None,
    }
}
