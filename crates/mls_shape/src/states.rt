//! The states of the deterministic form, one for each set, in the order in which the sets are found.
ghost use Rattle.std.specs.Prelude.{◌≡◌, ◌<◌, length, All, IfOk, OnOk};
ghost use Rattle.mls_automaton.specs.Models.{IsClosed};
ghost use Rattle.mls_shape.specs.steps.Registers.{IsRegister, sets_in};
ghost use Rattle.mls_shape.specs.steps.Building.{IsSetOf, AddsState, AreStatesOf};

use crate::heads::numbered_head;
use crate::register::Register;
use mls_automaton::automaton::Automaton;
use mls_automaton::combine::combined_head;
use mls_base::memory::Memory;
use std::alloc::Global;

/// A state for each set, from the first one on. The sets that the heads of the states name come behind, and have
/// states too.
///
/// # Errors
///
/// `Memory` where memory is wanting.
pub fn states_of(register: &mut Register, alloc: Global, a: &Automaton) -> Result<Automaton, Memory>
    requires closed { IsClosed a.now }
    requires register { IsRegister register.old }
    requires sets { All (IsSetOf a.now) (sets_in register.old) }
    ensures register { OnOk result (IsRegister register.new) }
    ensures states { IfOk result (AreStatesOf a.now (sets_in register.old) (sets_in register.new)) }
{
    let mut d = Automaton::with_room(alloc, a.len())?;
    for _ in 0..usize::MAX {
        if d.len() == register.sets.len() {
            return Ok(d);
        }
        add_state(&mut d, register, alloc, a)?;
    }
    // No memory holds so many states.
    Err(Memory)
}

// Adds the state of the first set that has none.
fn add_state(
    d: &mut Automaton,
    register: &mut Register,
    alloc: Global,
    a: &Automaton,
) -> Result<(), Memory>
    requires closed { IsClosed a.now }
    requires register { IsRegister register.old }
    requires left { length d.old.states < length (sets_in register.old) }
    requires sets { All (IsSetOf a.now) (sets_in register.old) }
    ensures register { OnOk result (IsRegister register.new) }
    ensures state { OnOk result (AddsState a.now (length d.old.states) (sets_in register.old) (sets_in register.new)
        d.old d.new) }
{
    let set = &register.sets[d.len()];
    let polarity = set.polarity;
    let head = combined_head(alloc, a, polarity, set.members.as_slice())?;
    let row = numbered_head(register, alloc, polarity, &head)?;
    d.state(polarity, row)?;
    Ok(())
}
