//! The part of a node of each form, made of the parts below it.

ghost use Rattle.std.specs.Prelude.{◌≡◌, ◌≢◌, ◌∷◌, ◌++◌, [], false, List, ℕ, None, All, IfErr, IfOk};
ghost use Rattle.std.specs.List.{AllPairs};
ghost use Rattle.mls_biunify.specs.Live.{IsLive, IsLiveGoal, Live};
ghost use Rattle.mls_term.specs.declared.term.Part.{Part};
ghost use Rattle.mls_term.specs.declared.term.TermForm.TheVariants as form;
ghost use Rattle.mls_infer.specs.Constraints.{apply_constraint, bound_scheme, positive, project_constraint, states_of};
ghost use Rattle.mls_infer.specs.Joining.{part_labels};
ghost use Rattle.mls_infer.specs.Pending.{AreRowsOf, AreWaiting, Grows, IsCopied, IsMade, IsMadeWith, Solves, StopsOver};
ghost use Rattle.mls_infer.specs.Pending.{Waits, part_in, states_in};
ghost use Rattle.mls_infer.specs.Regions.{TablePart, scheme_at};

use crate::clash::{
    clash_of_application, clash_of_choice, clash_of_projection, clash_of_recursion,
};
use crate::heads::{bool_head, field_head, function_head, int_head, record_head};
use crate::meets::with_one_state;
use crate::pending::{Pending, joined, states_of, without};
use crate::region::Region;
use crate::rows::state_of;
use crate::solve::NoSolution;
use mls_automaton::automaton::{Head, Polarity};
use mls_automaton::scheme::EnvEntry;
use mls_automaton::state_set::{StateId, StateSet};
use mls_base::list::List;
use mls_base::memory::Memory;
use mls_biunify::goal::{Goal, Refusal};
use mls_biunify::live::Live;
use mls_book::name::Name;
use std::alloc::Global;
use std::collections::BTreeMap;

/// Of a binder: what goes in comes out.
///
/// # Errors
///
/// `Memory` where memory is wanting.
pub(crate) fn bound(alloc: Global, live: &mut Live, binder: usize) -> Result<Pending, Memory>
    ensures { IfOk result (λ part. IsCopied (bound_scheme binder) live.old live.new (part_in part)) }
{
    let mut region = Region::new(alloc);
    let (negative, positive) = region.add_passage(live)?;
    region.size = region.size.reaching(2);
    let mut env = List::new(alloc);
    env.push(EnvEntry {
        binder,
        state: negative,
    })?;
    Ok(Pending {
        region,
        env,
        root: positive,
    })
}

/// Of a projection from a binder: its state takes the field. Nothing is to be solved.
///
/// # Errors
///
/// `Memory` where memory is wanting.
pub(crate) fn bound_field(
    alloc: Global,
    live: &mut Live,
    label: &Name,
    binder: usize,
) -> Result<Pending, Memory>
    ensures { IfOk result (λ part. IsMadeWith (project_constraint label.now (bound_scheme binder)) live.old [] live.new
        (part_in part)) }
{
    let mut region = Region::new(alloc);
    let (field, root) = region.add_passage(live)?;
    let head = field_head(alloc, label, field)?;
    let state = region.add(live, Polarity::Negative, head)?;
    region.size = region.size.with(1).reaching(4);
    let mut env = List::new(alloc);
    env.push(EnvEntry { binder, state })?;
    Ok(Pending { region, env, root })
}

/// Of an application of a binder: its state takes the function from the root of the argument. Nothing is to be solved.
///
/// # Errors
///
/// `Memory` where memory is wanting.
pub(crate) fn bound_call(
    alloc: Global,
    live: &mut Live,
    binder: usize,
    argument: Pending,
) -> Result<Pending, Memory>
    requires { AreWaiting live.old (part_in argument ∷ []) }
    ensures { IfOk result (λ part. IsMadeWith (apply_constraint (bound_scheme binder)
        (scheme_at live.old.table (part_in argument))) live.old (part_in argument ∷ []) live.new (part_in part)) }
{
    let mut region = argument.region;
    let (codomain, root) = region.add_passage(live)?;
    let domain = StateSet::one(alloc, argument.root)?;
    let head = function_head(alloc, domain, codomain)?;
    let state = region.add(live, Polarity::Negative, head)?;
    region.size = region.size.reaching(3);
    let mut env = argument.env;
    env.push(EnvEntry { binder, state })?;
    Ok(Pending { region, env, root })
}

/// Of a number.
pub(crate) fn number(alloc: Global, live: &mut Live) -> Result<Pending, Memory>
    ensures made { IfOk result (λ part. IsMade (form.Number 0) live.old []
        live.new (part_in part)) }
{
    let part = literal(alloc, live, int_head())?;
    Ok(part)
}

/// Of a truth value.
pub(crate) fn truth(alloc: Global, live: &mut Live) -> Result<Pending, Memory>
    ensures made { IfOk result (λ part. IsMade (form.Truth false) live.old []
        live.new (part_in part)) }
{
    let part = literal(alloc, live, bool_head())?;
    Ok(part)
}

// A new positive state, whose head names no state.
fn literal(alloc: Global, live: &mut Live, head: Head) -> Result<Pending, Memory>
    requires function { head.function ≡ None }
    requires fields { head.fields ≡ None }
    ensures grows { IfOk result (λ part. Grows live.old live.new ((part.root.0, positive head) ∷ []) []) }
    ensures states { IfOk result (λ part. states_in part.region ≡ part.root.0 ∷ []) }
    ensures env { IfOk result (λ part. part.env ≡ []) }
{
    let mut region = Region::new(alloc);
    let root = region.add(live, Polarity::Positive, head)?;
    region.size = region.size.reaching(1);
    Ok(Pending {
        region,
        env: List::new(alloc),
        root,
    })
}

/// Of a function: from the states of its binder to the root of its body.
pub(crate) fn function(
    alloc: Global,
    live: &mut Live,
    binder: usize,
    body: Pending,
) -> Result<Pending, Memory>
    requires { AreWaiting live.old (part_in body ∷ []) }
    ensures made { IfOk result (λ part. IsMade (form.Fun binder 0) live.old (part_in body ∷ [])
        live.new (part_in part)) }
{
    let domain = states_of(alloc, body.env.as_slice(), binder)?;
    let head = function_head(alloc, domain, body.root)?;
    let env = without(alloc, body.env, binder)?;
    let mut region = body.region;
    let root = region.add(live, Polarity::Positive, head)?;
    region.size = region.size.reaching(1);
    Ok(Pending { region, env, root })
}

/// Of a recursion: the root of its body is below the state of its binder, if it has one.
///
/// # Errors
///
/// `Clash` where this has no types, `Memory` where memory is wanting.
pub(crate) fn recursion(
    alloc: Global,
    live: &mut Live,
    binder: usize,
    body: Pending,
) -> Result<Pending, NoSolution>
    requires { Waits live.old (part_in body) }
    ensures made { IfOk result (λ part. IsMade (form.Rec binder 0) live.old (part_in body ∷ []) live.new (part_in part)) }
    ensures stops { IfErr result (StopsOver (form.Rec binder 0) live.old (part_in body ∷ [])) }
{
    let body = with_one_state(alloc, live, binder, body)?;
    let _remade = live.ready();
    match state_of(body.env.as_slice(), binder) {
        None => Ok(body),
        Some(state) => {
            let part = fixed(alloc, live, binder, state, body)?;
            Ok(part)
        }
    }
}

// The root of the body is below this state, the only one of its binder.
fn fixed(
    alloc: Global,
    live: &mut Live,
    binder: usize,
    state: StateId,
    body: Pending,
) -> Result<Pending, NoSolution>
    requires waits { Waits live.old (part_in body) }
    requires only { states_of binder body.env ≡ state.0 ∷ [] }
    ensures made { IfOk result (λ part. IsMade (form.Rec binder 0) live.old (part_in body ∷ []) live.new (part_in part)) }
    ensures stops { IfErr result (StopsOver (form.Rec binder 0) live.old (part_in body ∷ [])) }
{
    let _waiting = live.ready();
    let Pending { region, env, root } = body;
    let env = without(alloc, env, binder)?;
    if !solves(live, &[goal(root, state)])? {
        return Err(clash_of_recursion(alloc, live, root, state));
    }
    Ok(Pending { region, env, root })
}

/// Of a projection: the root of its body is below the records with the field.
pub(crate) fn projection(
    alloc: Global,
    live: &mut Live,
    label: &Name,
    body: Pending,
) -> Result<Pending, NoSolution>
    requires { AreWaiting live.old (part_in body ∷ []) }
    ensures made { IfOk result (λ part. IsMade (form.Project 0 label.now) live.old (part_in body ∷ [])
        live.new (part_in part)) }
    ensures stops { IfErr result (StopsOver (form.Project 0 label.now) live.old (part_in body ∷ [])) }
{
    let Pending {
        region,
        env,
        root: record,
    } = body;
    let mut region = region;
    let (field, root) = region.add_passage(live)?;
    let head = field_head(alloc, label, field)?;
    let demand = region.add(live, Polarity::Negative, head)?;
    region.size = region.size.with(1);
    if !solves(live, &[goal(record, demand)])? {
        return Err(clash_of_projection(alloc, live, label, record));
    }
    Ok(Pending { region, env, root })
}

/// Of an application: the root of the function is below the functions from the root of the argument.
pub(crate) fn application(
    alloc: Global,
    live: &mut Live,
    function: Pending,
    argument: Pending,
) -> Result<Pending, NoSolution>
    requires { AreWaiting live.old (part_in function ∷ part_in argument ∷ []) }
    ensures made { IfOk result (λ part. IsMade (form.Apply 0 0) live.old (part_in function ∷ part_in argument ∷ [])
        live.new (part_in part)) }
    ensures stops { IfErr result (StopsOver (form.Apply 0 0) live.old (part_in function ∷ part_in argument ∷ [])) }
{
    let mut region = function.region.with(argument.region)?;
    let env = joined(function.env, argument.env)?;
    let (codomain, root) = region.add_passage(live)?;
    let domain = StateSet::one(alloc, argument.root)?;
    let head = function_head(alloc, domain, codomain)?;
    let demand = region.add(live, Polarity::Negative, head)?;
    if !solves(live, &[goal(function.root, demand)])? {
        return Err(clash_of_application(alloc, live, function.root, argument.root));
    }
    Ok(Pending { region, env, root })
}

/// Of a conditional: the root of the condition is below `bool`, those of the branches below one new state.
pub(crate) fn conditional(
    alloc: Global,
    live: &mut Live,
    condition: Pending,
    first: Pending,
    second: Pending,
) -> Result<Pending, NoSolution>
    requires { AreWaiting live.old (part_in condition ∷ part_in first ∷ part_in second ∷ []) }
    ensures made { IfOk result (λ part. IsMade (form.If 0 0 0) live.old (part_in condition ∷ part_in first ∷ part_in second ∷ [])
        live.new (part_in part)) }
    ensures stops { IfErr result (StopsOver (form.If 0 0 0) live.old (part_in condition ∷ part_in first ∷ part_in second ∷ [])) }
{
    let roots = (condition.root, first.root, second.root);
    let mut region = condition.region.with(first.region)?.with(second.region)?;
    let env = joined(joined(condition.env, first.env)?, second.env)?;
    let boolean = region.add(live, Polarity::Negative, bool_head())?;
    let (either, root) = region.add_passage(live)?;
    let goals = [
        goal(roots.0, boolean),
        goal(roots.1, either),
        goal(roots.2, either),
    ];
    if !solves(live, &goals)? {
        return Err(clash_of_choice(alloc, live, roots.0, roots.1, roots.2));
    }
    Ok(Pending { region, env, root })
}

/// The parts of a record side by side, and their roots by their labels.
#[derive(Drop)]
pub(crate) struct Rows {
    roots: BTreeMap<Name, StateId>,
    region: Region,
    env: List<EnvEntry>,
}

impl Rows {
    /// No part.
    pub(crate) fn new(alloc: Global) -> Rows
        ensures { AreRowsOf [] [] result }
    {
        Rows {
            roots: BTreeMap::new(alloc),
            region: Region::new(alloc),
            env: List::new(alloc),
        }
    }

    /// With one more part.
    ///
    /// # Errors
    ///
    /// `Memory` where memory is wanting.
    pub(crate) fn with(self, label: &Name, body: Pending) -> Result<Rows, Memory>
        ensures { IfOk result (λ rows. (labels : List (List ℕ)) (parts : List TablePart) → AreRowsOf labels parts self
            → AllPairs (λ x y. x ≢ y) (labels ++ label.now ∷ [])
            → AreRowsOf (labels ++ label.now ∷ []) (parts ++ part_in body ∷ []) rows) }
    {
        let mut roots = self.roots;
        roots.insert(copied_label(label)?, body.root)?;
        Ok(Rows {
            roots,
            region: self.region.with(body.region)?,
            env: joined(self.env, body.env)?,
        })
    }
}

// The same label once more.
fn copied_label(label: &Name) -> Result<Name, Memory>
    ensures { IfOk result (λ copy. copy ≡ label.now) }
{
    let copy = label.clone()?;
    Ok(copy)
}

/// Of a record: its fields are the roots of its parts.
///
/// # Errors
///
/// `Memory` where memory is wanting.
pub(crate) fn record(alloc: Global, live: &mut Live, rows: Rows) -> Result<Pending, Memory>
    requires { (labels : List (List ℕ)) × (parts : List TablePart) × AreWaiting live.old parts
        × AreRowsOf labels parts rows × AllPairs (λ x y. x ≢ y) labels }
    ensures { IfOk result (λ part. (named : List Part) (parts : List TablePart) → AreWaiting live.old parts
        → AreRowsOf (part_labels named) parts rows → AllPairs (λ x y. x ≢ y) (part_labels named)
        → IsMade (form.Make named) live.old parts live.new (part_in part)) }
{
    let head = record_head(alloc, &rows.roots)?;
    let mut region = rows.region;
    let root = region.add(live, Polarity::Positive, head)?;
    let count = rows.roots.len();
    region.size = region.size.with(count).reaching(count.saturating_add(1));
    Ok(Pending {
        region,
        env: rows.env,
        root,
    })
}

/// Of a let: the second part, and what the first part needs.
pub(crate) fn let_in(first: Pending, second: Pending) -> Result<Pending, Memory>
    ensures { IfOk result (λ part. (live : Live) → IsLive live → AreWaiting live (part_in first ∷ part_in second ∷ [])
        → IsMade (form.Let 0 0 0) live (part_in first ∷ part_in second ∷ []) live (part_in part)) }
{
    let region = first.region.with(second.region)?;
    let env = joined(first.env, second.env)?;
    Ok(Pending {
        region,
        env,
        root: second.root,
    })
}

fn goal(positive: StateId, negative: StateId) -> Goal
    ensures { result ≡ record { positive = positive; negative = negative } }
{
    Goal { positive, negative }
}

// Solves the table in place, and says whether the goals have a solution. Where they have none, it is as before.
fn solves(live: &mut Live, goals: &[Goal]) -> Result<bool, Memory>
    requires { All (IsLiveGoal live.old) goals.now }
    ensures { IfOk result (Solves live.old goals.now live.new) }
{
    let _before = live.ready();
    live.reserve()?;
    match live.solve(goals) {
        Ok(()) => {
            live.settle()?;
            let _after = live.ready();
            Ok(true)
        }
        Err(Refusal::Clashing(_)) => Ok(false),
        Err(Refusal::NoMemory) => Err(Memory),
    }
}
