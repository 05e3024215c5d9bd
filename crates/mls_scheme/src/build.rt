//! The smallest schemes, and schemes without a binder.
ghost use Rattle.std.specs.Prelude.{◌≡◌, ◌≢◌, ◌⊎◌, ◌<◌, option_map, IfOk, None};
ghost use Rattle.mls_automaton.specs.declared.automaton.HeadKind.TheVariants.{Bool, Int};
ghost use Rattle.mls_automaton.specs.declared.state_set.StateId.{StateId};
ghost use Rattle.mls_automaton.specs.Schemes.{state_of};
ghost use Rattle.mls_scheme.specs.Smallest.{constant_scheme, lambda_scheme};

use mls_automaton::automaton::{Automaton, Head, HeadKind, Polarity};
use mls_automaton::scheme::{Env, EnvEntry, Scheme};
use mls_automaton::state_set::StateId;
use mls_base::memory::Memory;
use std::alloc::Global;

/// The scheme of a use of a binder: it has the type that the binder has.
///
/// # Errors
///
/// `Memory` where memory is wanting.
pub fn lambda_use(alloc: Global, binder: usize) -> Result<Scheme, Memory>
    ensures { IfOk result (λ scheme. scheme ≡ lambda_scheme binder) }
{
    let mut automaton = Automaton::new(alloc);
    let negative = automaton.state(Polarity::Negative, Head::empty())?;
    let positive = automaton.state(Polarity::Positive, Head::empty())?;
    automaton.add_flow(negative, positive)?;
    let mut env = Env::new(alloc);
    env.push(EnvEntry {
        binder,
        state: negative,
    })?;
    Ok(Scheme {
        automaton,
        env,
        root: positive,
    })
}

/// The scheme of a literal, which is `bool` or `int`.
///
/// # Errors
///
/// `Memory` where memory is wanting.
pub fn constant(alloc: Global, kind: HeadKind) -> Result<Scheme, Memory>
    requires { (kind ≡ Bool) ⊎ (kind ≡ Int) }
    ensures { IfOk result (λ scheme. scheme ≡ constant_scheme kind) }
{
    let mut automaton = Automaton::new(alloc);
    let head = Head {
        boolean: kind == HeadKind::Bool,
        integer: kind == HeadKind::Int,
        function: None,
        fields: None,
    };
    let root = automaton.state(Polarity::Positive, head)?;
    Ok(Scheme {
        automaton,
        env: Env::new(alloc),
        root,
    })
}

/// Takes a binder out of the environment, and answers its state. None comes exactly where it is not there, and nothing
/// then changes.
pub fn drop_binder(scheme: &mut Scheme, binder: usize) -> Option<StateId>
    ensures result { option_map (λ (s : StateId). s.0) result ≡ state_of scheme.old.env binder }
    ensures automaton { scheme.new.automaton ≡ scheme.old.automaton }
    ensures root { scheme.new.root ≡ scheme.old.root }
    ensures gone { state_of scheme.new.env binder ≡ None }
    ensures others { (x : _) → x ≢ binder → state_of scheme.new.env x ≡ state_of scheme.old.env x }
    ensures none { result ≡ None → scheme.new ≡ scheme.old }
{
    scheme.env.remove(binder)
}
