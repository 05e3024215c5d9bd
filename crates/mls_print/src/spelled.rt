//! That the labels of an automaton are names.
ghost use Rattle.std.specs.Prelude.{◌<◌, length, All};
ghost use Rattle.mls_base.specs.Spelling.{IsName};
ghost use Rattle.mls_print.specs.Printed.{HasNamedFields, HasNamedLabels};

use mls_automaton::automaton::{Automaton, FieldSet, FieldSets};
use mls_automaton::state_set::StateId;

/// Goes over the labels of an automaton, each of which is a name, as its type says. Time is linear in their number.
pub fn read_labels(automaton: &Automaton)
    ensures { HasNamedFields automaton.now }
{
    for s in 0..automaton.len() {
        read_record(&automaton.head(StateId(s)).fields);
    }
}

fn read_record(fields: &Option<FieldSets>)
    ensures { HasNamedLabels fields.now }
{
    if let Some(fields) = fields {
        read_fields(fields.as_slice());
    }
}

fn read_fields(fields: &[FieldSet])
    ensures { All (λ field. IsName field.label) fields.now }
{
    for field in fields {
        field.label.bytes();
    }
}
