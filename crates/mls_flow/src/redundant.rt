//! Edges that heads say already.
ghost use Rattle.std.specs.Prelude.{◌≡◌, ◌⊎◌, ◌↔◌, length, All, Contains, IfOk, IsTrue};
ghost use Rattle.mls_automaton.specs.Automata.{flow, head_at, HasFlow};
ghost use Rattle.mls_automaton.specs.Models.{IsClosed, IsDeterministic};
ghost use Rattle.mls_flow.specs.Admissible.{IsRedundant};
ghost use Rattle.mls_flow.specs.Claims.{AllIn, kept_at};
ghost use Rattle.mls_flow.specs.Needs.{AreKeptOf, IsPair, IsSaid, StandsByHeads};

use crate::claims::{claims_of, number_each};
use crate::needs::has_common_base;
use crate::pairs::Pairs;
use crate::standing::{Claim, standing};
use mls_automaton::automaton::{Automaton, Flow};
use mls_base::list::List;
use mls_base::memory::Memory;
use std::alloc::Global;

/// The edges that are not redundant: those whose ends are below one another by their heads alone are left out. Time and
/// room are those of `admissible_among` for the edges.
///
/// # Errors
///
/// `Memory` where memory is wanting.
pub fn irredundant_flows(alloc: Global, a: &Automaton) -> Result<Vec<Flow>, Memory>
    requires closed { IsClosed a.now }
    requires deterministic { IsDeterministic a.now }
    ensures kept { IfOk result (λ flows. (n p : _) → Contains flows.items (flow n p)
        → HasFlow a.now n p × ¬ IsRedundant a.now n p) }
    ensures dropped { IfOk result (λ flows. (n p : _) → HasFlow a.now n p
        → Contains flows.items (flow n p) ⊎ IsRedundant a.now n p) }
{
    let mut pairs = Pairs::new(alloc, a.len())?;
    number_each(alloc, &mut pairs, a.flows())?;
    let claims = claims_of(alloc, &mut pairs, a)?;
    let marks = standing(alloc, claims.as_slice())?;
    let kept = unsaid(alloc, a, &pairs, claims.as_slice(), marks.as_slice())?;
    Ok(kept)
}

// The edges that no claim says.
fn unsaid(
    alloc: Global,
    a: &Automaton,
    pairs: &Pairs,
    claims: &[Claim],
    marks: &[bool],
) -> Result<Vec<Flow>, Memory>
    requires known { All (Contains pairs.now.list) a.now.flows }
    requires claims { length claims.now ≡ length pairs.now.list }
    ensures { IfOk result (λ kept. AreKeptOf (IsSaid a.now pairs.now.list claims.now (kept_at marks.now)) a.now.flows
        kept.items) }
{
    let mut kept = Vec::new(alloc);
    for edge in a.flows() {
        if !is_said(pairs, a, claims, marks, *edge) {
            kept.push(*edge)?;
        }
    }
    Ok(kept)
}

// Whether the heads of a pair say that the one is below the other, where these claims stand.
fn is_said(pairs: &Pairs, a: &Automaton, claims: &[Claim], marks: &[bool], edge: Flow) -> bool
    requires known { Contains pairs.now.list edge }
    requires claims { length claims.now ≡ length pairs.now.list }
    requires states { IsPair a.now edge }
    ensures { IsTrue result ↔ IsSaid a.now pairs.now.list claims.now (kept_at marks.now) edge }
{
    match pairs.find(edge.negative, edge.positive) {
        None => false,
        Some(number) => stands_by_heads(a, &claims[number], marks, edge),
    }
}

// Whether the heads have a common base type, or one of the claim's lists stands.
fn stands_by_heads(a: &Automaton, claim: &Claim, marks: &[bool], edge: Flow) -> bool
    requires states { IsPair a.now edge }
    ensures { IsTrue result ↔ StandsByHeads (kept_at marks.now) (head_at a.now edge.negative.0)
        (head_at a.now edge.positive.0) claim.now }
{
    has_common_base(a.head(edge.negative), a.head(edge.positive))
        || all_kept(marks, &claim.first)
        || all_kept(marks, &claim.second)
}

// Whether the list is there, and all its claims stand.
fn all_kept(marks: &[bool], way: &Option<List<usize>>) -> bool
    ensures { IsTrue result ↔ AllIn (kept_at marks.now) way.now }
{
    match way {
        None => false,
        Some(members) => members.as_slice().iter().all(|j| is_kept(marks, *j)),
    }
}

fn is_kept(marks: &[bool], claim: usize) -> bool
    ensures { result ≡ kept_at marks.now claim }
{
    marks.get(claim).copied().unwrap_or(false)
}
