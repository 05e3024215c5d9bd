//! That the sets of an automaton rise.
ghost use Rattle.std.specs.Prelude.{All};
ghost use Rattle.mls_automaton.specs.Sets.{Rises};
ghost use Rattle.mls_automaton.specs.Automata.{head_at};
ghost use Rattle.mls_typenodes.specs.OneEach.{HasRisingArms, HasRisingFields, HasRisingSets};

use mls_automaton::automaton::{Arms, Automaton, FieldSet, FieldSets, Head};
use mls_automaton::state_set::StateId;

/// Goes over the sets that the heads of an automaton name: their numbers rise, as the type of sets says. Time is linear
/// in how many sets there are.
pub fn read_sets(automaton: &Automaton)
    ensures { (s : _) → HasRisingSets (head_at automaton.now s) }
{
    for s in 0..automaton.len() {
        read_head(automaton.head(StateId(s)));
    }
}

fn read_head(head: &Head)
    ensures { HasRisingSets head.now }
{
    read_arms(&head.function);
    read_record(&head.fields);
}

fn read_arms(function: &Option<Arms>)
    ensures { HasRisingArms function.now }
{
    if let Some(arms) = function {
        arms.domain.as_slice();
        arms.codomain.as_slice();
    }
}

fn read_record(fields: &Option<FieldSets>)
    ensures { HasRisingFields fields.now }
{
    if let Some(fields) = fields {
        read_fields(fields.as_slice());
    }
}

fn read_fields(fields: &[FieldSet])
    ensures { All (λ field. Rises field.set) fields.now }
{
    for field in fields {
        field.set.as_slice();
    }
}
