//! The environment of the deterministic form.
ghost use Rattle.std.specs.Prelude.{IfOk, OnOk};
ghost use Rattle.mls_automaton.specs.Environments.{BindersRise};
ghost use Rattle.mls_shape.specs.steps.Registers.{IsRegister, sets_in};
ghost use Rattle.mls_shape.specs.steps.Entries.{NumbersEnv};

use crate::register::Register;
use mls_automaton::automaton::Polarity;
use mls_automaton::scheme::{Env, EnvEntry};
use mls_automaton::state_set::{StateId, StateSet};
use mls_base::memory::Memory;
use std::alloc::Global;

/// The same binders, each with the number of the set of its state alone. New sets get the next numbers.
///
/// # Errors
///
/// `Memory` where memory is wanting.
pub fn numbered_env(register: &mut Register, alloc: Global, env: &Env) -> Result<Env, Memory>
    requires { IsRegister register.old }
    ensures register { OnOk result (IsRegister register.new) }
    ensures rises { OnOk result (BindersRise env.now) }
    ensures env { IfOk result (NumbersEnv env.now (sets_in register.old) (sets_in register.new)) }
{
    let mut numbered = Env::new(alloc);
    for entry in env.as_slice() {
        let set = StateSet::one(alloc, entry.state)?;
        let number = register.number_of(alloc, Polarity::Negative, set)?;
        numbered.push(EnvEntry {
            binder: entry.binder,
            state: StateId(number),
        })?;
    }
    Ok(numbered)
}
