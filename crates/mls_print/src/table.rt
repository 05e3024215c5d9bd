//! The table of the sets that are shown: they are numbered as they are found, from the set of the root alone on.
ghost use Rattle.std.specs.Prelude.{◌≡◌, ◌<◌, ◌∷◌, [], length, All, IfOk, OnOk};
ghost use Rattle.mls_automaton.specs.declared.automaton.Polarity.TheVariants.{Positive};
ghost use Rattle.mls_automaton.specs.Automata.{IsState};
ghost use Rattle.mls_automaton.specs.Models.{IsClosed};
ghost use Rattle.mls_print.specs.Walks.{Visits};
ghost use Rattle.mls_print.specs.steps.Numbering.{IsNumbered};
ghost use Rattle.mls_print.specs.steps.Variables.{HasVariables};
ghost use Rattle.mls_print.specs.steps.Visits.{IsClosedOrder, IsVisited};
ghost use Rattle.mls_print.specs.steps.Registers.{IsRegister, sets_in, set_of};
ghost use Rattle.mls_print.specs.steps.Building.{BeginsWith, IsBuilding, MakesRow, polarity_in};
ghost use Rattle.mls_print.specs.steps.Tables.{IsTable, IsWhole};

use crate::join::{has_boolean, has_integer, joined_function};
use crate::record::joined_record;
use crate::register::Register;
use crate::row::{Row, Table};
use crate::variables::shown_variables;
use crate::walk::Order;
use mls_automaton::automaton::{Automaton, Polarity};
use mls_automaton::state_set::StateId;
use mls_base::memory::Memory;
use std::alloc::Global;

/// The sets that are shown from the set of the root alone on, each with its row.
pub fn table_of<'a>(
    alloc: Global,
    automaton: &'a Automaton,
    order: &Order,
    variables: &[Option<usize>],
    root: StateId,
) -> Result<Table<'a>, Memory>
    requires closed { IsClosed automaton.now }
    requires root { IsState automaton.now Positive root.0 }
    requires walked { Visits automaton.now [] (root.0 ∷ []) order.now.states.items }
    requires numbered { IsNumbered (length automaton.now.states) order.now.states.items order.now.numbers.items }
    requires variables { HasVariables automaton.now order.now.states.items variables.now }
    ensures whole { IfOk result IsWhole }
    ensures table { IfOk result (IsTable automaton.now order.now.states.items root.0) }
{
    let mut builder = begin(alloc, root)?;
    for _ in 0..usize::MAX {
        if builder.rows.len() == builder.register.sets.len() {
            return Ok(builder.into_table());
        }
        builder.add_row(alloc, automaton, order, variables)?;
    }
    // No memory holds so many rows.
    Err(Memory)
}

// The set of the root alone, without a row.
fn begin<'a>(alloc: Global, root: StateId) -> Result<Builder<'a>, Memory>
    ensures begins { IfOk result (BeginsWith root.0) }
    ensures building { IfOk result (λ builder. (a order : _) → IsVisited a order Positive root.0
        → IsBuilding a order builder) }
{
    let mut register = Register::new(alloc);
    register.number_of(vec![in alloc; root.0]?)?;
    Ok(Builder {
        register,
        rows: Vec::new(alloc),
    })
}

// The sets so far, and the rows of the first of them.
#[derive(Drop)]
struct Builder<'a> {
    register: Register,
    rows: Vec<Row<'a>>,
}

impl<'a> Builder<'a> {
    // The first set that has no row.
    fn next_set(&self) -> Result<Vec<usize>, Memory>
        requires { length self.now.rows.items < length (sets_in self.now.register) }
        ensures { IfOk result (λ set. set.items ≡ set_of (sets_in self.now.register) (length self.now.rows.items)) }
    {
        let set = self.register.sets[self.rows.len()].to_vec(*self.rows.allocator())?;
        Ok(set)
    }

    // The sets with the rows.
    fn into_table(self) -> Table<'a>
        ensures { result ≡ record { sets = self.entry.register.sets; rows = self.entry.rows } }
    {
        let Builder { register, rows } = self;
        let Register { sets, numbers: _ } = register;
        Table { sets, rows }
    }

    // Makes the row of the first set that has none.
    fn add_row(
        &mut self,
        alloc: Global,
        automaton: &'a Automaton,
        order: &Order,
        variables: &[Option<usize>],
    ) -> Result<(), Memory>
        requires closed { IsClosed automaton.now }
        requires order { IsClosedOrder automaton.now order.now.states.items }
        requires numbered { IsNumbered (length automaton.now.states) order.now.states.items order.now.numbers.items }
        requires variables { HasVariables automaton.now order.now.states.items variables.now }
        requires building { IsBuilding automaton.now order.now.states.items self.old }
        requires left { length self.old.rows.items < length (sets_in self.old.register) }
        ensures building { OnOk result (IsBuilding automaton.now order.now.states.items self.new) }
        ensures begins { OnOk result ((root : _) → BeginsWith root self.old → BeginsWith root self.new) }
    {
        let set = self.next_set()?;
        let polarity = polarity_of(automaton, set.as_slice());
        let row = row_of(
            alloc,
            automaton,
            order,
            variables,
            polarity,
            set.as_slice(),
            &mut self.register,
        )?;
        self.rows.push(row)?;
        Ok(())
    }
}

// The polarity of the members of a set, of which the empty set has both.
fn polarity_of(automaton: &Automaton, set: &[usize]) -> Polarity
    requires { All (λ s. s < length automaton.now.states) set.now }
    ensures { result ≡ polarity_in automaton.now set.now }
{
    if set.is_empty() {
        return Polarity::Positive;
    }
    automaton.polarity(StateId(set[0]))
}

// The row of a set of states of this polarity. Its sets get their numbers.
fn row_of<'a>(
    alloc: Global,
    automaton: &'a Automaton,
    order: &Order,
    variables: &[Option<usize>],
    polarity: Polarity,
    set: &[usize],
    register: &mut Register,
) -> Result<Row<'a>, Memory>
    requires closed { IsClosed automaton.now }
    requires numbered { IsNumbered (length automaton.now.states) order.now.states.items order.now.numbers.items }
    requires variables { HasVariables automaton.now order.now.states.items variables.now }
    requires states { All (IsState automaton.now polarity) set.now }
    requires below { All (λ s. s < length automaton.now.states) set.now }
    requires register { IsRegister register.old }
    ensures register { OnOk result (IsRegister register.new) }
    ensures row { IfOk result (MakesRow automaton.now order.now.states.items polarity set.now (sets_in register.old)
        (sets_in register.new)) }
{
    let arms = joined_function(alloc, automaton, set)?;
    let fields = joined_record(alloc, automaton, polarity, set)?;
    let function = register.numbered_arms(arms)?;
    let fields = register.numbered_record(alloc, fields)?;
    Ok(Row {
        variables: shown_variables(alloc, automaton, order, variables, polarity, set)?,
        boolean: has_boolean(automaton, set),
        integer: has_integer(automaton, set),
        function,
        fields,
    })
}
