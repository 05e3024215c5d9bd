//! Heads under other numbers of states.
ghost use Rattle.std.specs.Prelude.{◌≡◌, map, option_map, All, IfOk};
ghost use Rattle.mls_automaton.specs.declared.automaton.FieldSet.{FieldSet};
ghost use Rattle.mls_automaton.specs.Embeddings.{renamed_arms, renamed_field, renamed_head};
ghost use Rattle.mls_automaton.specs.Sets.{Rises};
ghost use Rattle.mls_automaton.specs.steps.Numbers.{KeepsOrder, KeepsOrderInArms, KeepsOrderInFields, KeepsOrderInHead};
ghost use Rattle.mls_biunify.specs.Live.{number_of};
ghost use Rattle.mls_biunify.specs.steps.Renaming.{list_in, number_by, place_among};

use mls_automaton::automaton::{Arms, FieldSet, FieldSets, Head};
use mls_automaton::state_set::{StateId, StateSet};
use mls_base::memory::Memory;
use std::alloc::Global;

// Which number each state gets, by numbers that rise.
#[derive(Clone, Copy)]
pub enum Numbers<'a> {
    // The one that stands at the place of the state.
    At(&'a [usize]),
    // The place where the state stands among them.
    PlaceIn(&'a [usize]),
}

impl Numbers<'_> {
    // The new number of a state.
    fn of(&self, s: usize) -> usize
        requires { Rises (list_in self.now) }
        ensures { result ≡ number_by self.now s }
    {
        match self {
            Numbers::At(numbers) => number_at(numbers, s),
            Numbers::PlaceIn(numbers) => place_in(numbers, s),
        }
    }
}

// The number at a place; past the end it is 0.
fn number_at(numbers: &[usize], s: usize) -> usize
    ensures { result ≡ number_of numbers.now s }
{
    match numbers.get(s) {
        Some(number) => *number,
        None => 0,
    }
}

// How many numbers are below this one, which is its place if it stands among them.
pub fn place_in(numbers: &[usize], s: usize) -> usize
    requires { Rises numbers.now }
    ensures { result ≡ place_among numbers.now s }
{
    match numbers.binary_search(&s) {
        Ok(place) => place,
        Err(place) => place,
    }
}

// The set of the new numbers, each of which stands in the place of the old one.
fn rename_set(alloc: Global, set: &StateSet, numbers: &Numbers<'_>) -> Result<StateSet, Memory>
    requires order { KeepsOrder (number_by numbers.now) set.now }
    requires rises { Rises (list_in numbers.now) }
    ensures { IfOk result (λ renamed. renamed ≡ map (number_by numbers.now) set.now) }
{
    let mut renamed = StateSet::new(alloc);
    for s in set.as_slice() {
        let number = numbers.of(*s);
        renamed.push(StateId(number))?;
    }
    Ok(renamed)
}

fn rename_arms(alloc: Global, arms: &Arms, numbers: &Numbers<'_>) -> Result<Arms, Memory>
    requires domain { KeepsOrder (number_by numbers.now) arms.now.domain }
    requires codomain { KeepsOrder (number_by numbers.now) arms.now.codomain }
    requires rises { Rises (list_in numbers.now) }
    ensures { IfOk result (λ renamed. renamed ≡ renamed_arms (number_by numbers.now) arms.now) }
{
    let domain = rename_set(alloc, &arms.domain, numbers)?;
    let codomain = rename_set(alloc, &arms.codomain, numbers)?;
    Ok(Arms { domain, codomain })
}

fn rename_function(
    alloc: Global,
    function: &Option<Arms>,
    numbers: &Numbers<'_>,
) -> Result<Option<Arms>, Memory>
    requires order { KeepsOrderInArms (number_by numbers.now) function.now }
    requires rises { Rises (list_in numbers.now) }
    ensures { IfOk result (λ renamed. renamed ≡ option_map (renamed_arms (number_by numbers.now)) function.now) }
{
    match function {
        None => Ok(None),
        Some(arms) => {
            let arms = rename_arms(alloc, arms, numbers)?;
            Ok(Some(arms))
        }
    }
}

fn rename_field(alloc: Global, field: &FieldSet, numbers: &Numbers<'_>) -> Result<FieldSet, Memory>
    requires order { KeepsOrder (number_by numbers.now) field.now.set }
    requires rises { Rises (list_in numbers.now) }
    ensures { IfOk result (λ renamed. renamed ≡ renamed_field (number_by numbers.now) field.now) }
{
    let label = field.label.clone()?;
    let set = rename_set(alloc, &field.set, numbers)?;
    Ok(FieldSet { label, set })
}

fn rename_fields(
    alloc: Global,
    fields: &[FieldSet],
    numbers: &Numbers<'_>,
) -> Result<FieldSets, Memory>
    requires order { All (λ (field : FieldSet). KeepsOrder (number_by numbers.now) field.set) fields.now }
    requires rises { Rises (list_in numbers.now) }
    ensures { IfOk result (λ renamed. renamed ≡ map (renamed_field (number_by numbers.now)) fields.now) }
{
    let mut renamed = FieldSets::new(alloc);
    for field in fields {
        let field = rename_field(alloc, field, numbers)?;
        renamed.push(field)?;
    }
    Ok(renamed)
}

fn rename_record(
    alloc: Global,
    fields: &Option<FieldSets>,
    numbers: &Numbers<'_>,
) -> Result<Option<FieldSets>, Memory>
    requires order { KeepsOrderInFields (number_by numbers.now) fields.now }
    requires rises { Rises (list_in numbers.now) }
    ensures { IfOk result (λ renamed. renamed ≡ option_map (map (renamed_field (number_by numbers.now))) fields.now) }
{
    match fields {
        None => Ok(None),
        Some(fields) => {
            let fields = rename_fields(alloc, fields.as_slice(), numbers)?;
            Ok(Some(fields))
        }
    }
}

// The head with the new numbers.
pub fn rename_head(alloc: Global, head: &Head, numbers: &Numbers<'_>) -> Result<Head, Memory>
    requires order { KeepsOrderInHead (number_by numbers.now) head.now }
    requires rises { Rises (list_in numbers.now) }
    ensures { IfOk result (λ renamed. renamed ≡ renamed_head (number_by numbers.now) head.now) }
{
    let function = rename_function(alloc, &head.function, numbers)?;
    let fields = rename_record(alloc, &head.fields, numbers)?;
    Ok(Head {
        boolean: head.boolean,
        integer: head.integer,
        function,
        fields,
    })
}
