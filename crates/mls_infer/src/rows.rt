//! The constraints of each form of expressions, over the schemes of its parts.
ghost use Rattle.std.specs.Prelude.{◌≡◌, ◌+◌, ◌≤◌, ◌++◌, ◌∷◌, [], suc, length, map, option_map, All, IfOk, OnOk};
ghost use Rattle.mls_automaton.specs.declared.state_set.StateId.{StateId};
ghost use Rattle.mls_automaton.specs.Automata.{HasTrueFlows};
ghost use Rattle.mls_automaton.specs.Embeddings.{appended};
ghost use Rattle.mls_automaton.specs.Schemes.{state_of};
ghost use Rattle.mls_infer.specs.Constraints.{HasOneState, HasStates, application_over, apply_constraint};
ghost use Rattle.mls_infer.specs.Constraints.{choice_constraint, fix_constraint, project_constraint, size, states_of};
ghost use Rattle.mls_infer.specs.Joining.{listed, raised_entries, with_passage};
ghost use Rattle.mls_infer.specs.Posed.{constraint_of, goal_pair, scheme_in, IsGoalOf};

use crate::constraints::{Constraints, Open};
use crate::heads::{bool_head, field_head, function_head};
use crate::pending::without;
use mls_automaton::automaton::{Automaton, Head, Polarity};
use mls_automaton::scheme::EnvEntry;
use mls_automaton::state_set::{StateId, StateSet};
use mls_base::list::List;
use mls_base::memory::Memory;
use mls_biunify::goal::Goal;
use mls_book::name::Name;
use std::alloc::Global;

/// Of a recursion: the root of its body is below the state of its binder, if it has one.
pub(crate) fn recursion(alloc: Global, binder: usize, body: Open) -> Result<Constraints, Memory>
    requires states { HasStates (scheme_in body) }
    requires one { HasOneState binder (scheme_in body) }
    ensures constraint { IfOk result (λ c. constraint_of c ≡ fix_constraint binder (scheme_in body)) }
    ensures states { IfOk result (λ c. HasStates (constraint_of c).scheme) }
    ensures goals { IfOk result (λ c. All (IsGoalOf c.automaton) c.goals) }
{
    let goals = goals_to(alloc, body.root, state_of(body.env.as_slice(), binder))?;
    let env = without(alloc, body.env, binder)?;
    Ok(Constraints {
        automaton: body.automaton,
        env,
        root: body.root,
        goals,
    })
}

/// Of a projection: the root of its body is below the records with the field.
pub(crate) fn projection(alloc: Global, label: &Name, body: Open) -> Result<Constraints, Memory>
    requires { HasStates (scheme_in body) }
    ensures constraint { IfOk result (λ c. constraint_of c ≡ project_constraint label.now (scheme_in body)) }
    ensures states { IfOk result (λ c. HasStates (constraint_of c).scheme) }
    ensures goals { IfOk result (λ c. All (IsGoalOf c.automaton) c.goals) }
{
    let mut automaton = body.automaton;
    let (field, root) = add_passage(&mut automaton)?;
    let head = field_head(alloc, label, field)?;
    let demand = automaton.state(Polarity::Negative, head)?;
    let goals = one_goal(alloc, body.root, demand)?;
    Ok(Constraints {
        automaton,
        env: body.env,
        root,
        goals,
    })
}

/// Of an application: the root of the function is below the functions from the root of the argument. The automaton of
/// the function stays in its place; that of the argument is copied behind it.
pub(crate) fn application(
    alloc: Global,
    function: Open,
    argument: &Open,
) -> Result<Constraints, Memory>
    requires function { HasStates (scheme_in function) }
    requires argument { HasStates (scheme_in argument.now) }
    ensures constraint { IfOk result (λ c. constraint_of c
        ≡ apply_constraint (scheme_in function) (scheme_in argument.now)) }
    ensures states { IfOk result (λ c. HasStates (constraint_of c).scheme) }
    ensures goals { IfOk result (λ c. All (IsGoalOf c.automaton) c.goals) }
{
    let function_root = function.root;
    let mut both = Joint::one(function);
    let argument_root = both.add(argument)?;
    let posed = application_of(alloc, both, function_root, argument_root)?;
    Ok(posed)
}

// The function with this root is below the functions from the argument's root to a new state.
fn application_of(
    alloc: Global,
    both: Joint,
    function: StateId,
    argument: StateId,
) -> Result<Constraints, Memory>
    requires { HasTrueFlows both.automaton }
    ensures { IfOk result (λ c. constraint_of c ≡ application_over function.0 argument.0
        (record { automaton = both.automaton; env = both.env; roots = [] })) }
{
    let mut automaton = both.automaton;
    let (codomain, root) = add_passage(&mut automaton)?;
    let domain = StateSet::one(alloc, argument)?;
    let head = function_head(alloc, domain, codomain)?;
    let demand = automaton.state(Polarity::Negative, head)?;
    let goals = one_goal(alloc, function, demand)?;
    Ok(Constraints {
        automaton,
        env: both.env,
        root,
        goals,
    })
}

/// Of a conditional: the root of the condition is below `bool`, those of the branches below one new state.
pub(crate) fn conditional(
    alloc: Global,
    condition: Open,
    first: &Open,
    second: &Open,
) -> Result<Constraints, Memory>
    requires condition { HasStates (scheme_in condition) }
    requires first { HasStates (scheme_in first.now) }
    requires second { HasStates (scheme_in second.now) }
    ensures constraint { IfOk result (λ c. constraint_of c
        ≡ choice_constraint (scheme_in condition) (scheme_in first.now) (scheme_in second.now)) }
    ensures states { IfOk result (λ c. HasStates (constraint_of c).scheme) }
    ensures goals { IfOk result (λ c. All (IsGoalOf c.automaton) c.goals) }
{
    let condition_root = condition.root;
    let mut all = Joint::one(condition);
    let first_root = all.add(first)?;
    let second_root = all.add(second)?;
    let mut automaton = all.automaton;
    let boolean = automaton.state(Polarity::Negative, bool_head())?;
    let (either, root) = add_passage(&mut automaton)?;
    let mut goals = one_goal(alloc, condition_root, boolean)?;
    add_goal(&mut goals, first_root, either)?;
    add_goal(&mut goals, second_root, either)?;
    Ok(Constraints {
        automaton,
        env: all.env,
        root,
        goals,
    })
}

// Schemes side by side, without their roots.
#[derive(Drop)]
pub(crate) struct Joint {
    pub automaton: Automaton,
    pub env: List<EnvEntry>,
}

impl Joint {
    // One scheme.
    fn one(scheme: Open) -> Joint
        ensures automaton { result.automaton ≡ scheme.automaton }
        ensures env { result.env ≡ scheme.env }
    {
        Joint {
            automaton: scheme.automaton,
            env: scheme.env,
        }
    }

    // Adds a scheme behind the others, and answers where its root is then.
    fn add(&mut self, other: &Open) -> Result<StateId, Memory>
        ensures automaton { OnOk result (self.new.automaton ≡ appended self.old.automaton other.now.automaton) }
        ensures env { OnOk result (self.new.env
            ≡ self.old.env ++ raised_entries (size self.old.automaton) other.now.env) }
        ensures root { IfOk result (λ root. root.0 ≡ size self.old.automaton + other.now.root.0) }
    {
        let up = self.automaton.append(&other.automaton)?;
        add_raised(&mut self.env, other.env.as_slice(), up)?;
        raised(other.root, up)
    }
}

// Adds entries whose states have numbers that are higher by this.
fn add_raised(env: &mut List<EnvEntry>, entries: &[EnvEntry], up: usize) -> Result<(), Memory>
    ensures { OnOk result (env.new ≡ env.old ++ raised_entries up entries.now) }
{
    for entry in entries {
        env.push(EnvEntry {
            binder: entry.binder,
            state: raised(entry.state, up)?,
        })?;
    }
    Ok(())
}

// The state whose number is higher by this.
fn raised(state: StateId, up: usize) -> Result<StateId, Memory>
    ensures { IfOk result (λ raised. raised.0 ≡ up + state.0) }
{
    let number = up.checked_add(state.0).ok_or(Memory)?;
    Ok(StateId(number))
}

// Adds a negative state and a positive one to which it flows.
fn add_passage(automaton: &mut Automaton) -> Result<(StateId, StateId), Memory>
    requires { HasTrueFlows automaton.old }
    ensures passage { OnOk result (automaton.new ≡ with_passage automaton.old) }
    ensures negative { IfOk result (λ ends. ends.0.0 ≡ size automaton.old) }
    ensures positive { IfOk result (λ ends. ends.1.0 ≡ suc (size automaton.old)) }
{
    let negative = automaton.state(Polarity::Negative, Head::empty())?;
    let positive = automaton.state(Polarity::Positive, Head::empty())?;
    automaton.add_flow(negative, positive)?;
    Ok((negative, positive))
}

fn one_goal(alloc: Global, positive: StateId, negative: StateId) -> Result<List<Goal>, Memory>
    ensures { IfOk result (λ goals. map goal_pair goals ≡ (positive.0, negative.0) ∷ []) }
{
    let mut goals = List::new(alloc);
    add_goal(&mut goals, positive, negative)?;
    Ok(goals)
}

fn add_goal(goals: &mut List<Goal>, positive: StateId, negative: StateId) -> Result<(), Memory>
    ensures { OnOk result (map goal_pair goals.new ≡ map goal_pair goals.old ++ (positive.0, negative.0) ∷ []) }
{
    goals.push(Goal { positive, negative })?;
    Ok(())
}

/// The only state of a binder, if it has one.
pub(crate) fn state_of(env: &[EnvEntry], binder: usize) -> Option<StateId>
    requires { length (states_of binder env.now) ≤ 1 }
    ensures { listed result ≡ states_of binder env.now }
{
    let state = found(env, binder);
    state
}

fn found(entries: &[EnvEntry], binder: usize) -> Option<StateId>
    ensures { option_map (λ (s : StateId). s.0) result ≡ state_of entries.now binder }
{
    entries
        .iter()
        .find(|entry| entry.binder == binder)
        .map(|entry| entry.state)
}

// The goal that a state is below this one, if it is there.
fn goals_to(
    alloc: Global,
    positive: StateId,
    negative: Option<StateId>,
) -> Result<List<Goal>, Memory>
    ensures { IfOk result (λ goals. map goal_pair goals ≡ map (λ n. (positive.0, n)) (listed negative)) }
{
    match negative {
        Some(negative) => one_goal(alloc, positive, negative),
        None => Ok(List::new(alloc)),
    }
}
