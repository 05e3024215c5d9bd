//! The claims that pairs of states are below one another, each with what it stands on.
ghost use Rattle.std.specs.Prelude.{◌≡◌, ◌↔◌, ◌<◌, length, All, Contains, IfOk, OnOk, IsTrue, Some};
ghost use Rattle.mls_automaton.specs.Models.{IsClosed, IsDeterministic};
ghost use Rattle.mls_flow.specs.Needs.{AreClaimsOf, Extends, HoldsAtOnce, IsClaimOf, IsNumbered, IsOneOf, IsPair};

use crate::needs::{function_needs, has_common_base, record_needs};
use crate::pairs::Pairs;
use crate::standing::Claim;
use mls_automaton::automaton::{Automaton, Flow};
use mls_base::list::List;
use mls_base::memory::Memory;
use std::alloc::Global;

/// A claim for each pair, and for each pair that one of them needs, which is added.
///
/// # Errors
///
/// `Memory` where memory is wanting.
pub fn claims_of(alloc: Global, pairs: &mut Pairs, a: &Automaton) -> Result<Vec<Claim>, Memory>
    requires closed { IsClosed a.now }
    requires deterministic { IsDeterministic a.now }
    requires states { pairs.old.states ≡ length a.now.states }
    requires pairs { All (IsPair a.now) pairs.old.list }
    ensures extends { OnOk result (Extends (IsPair a.now) pairs.old.list pairs.new.list) }
    ensures each { IfOk result (λ claims. AreClaimsOf a.now pairs.new.list claims.items) }
    ensures all { IfOk result (λ claims. length claims.items ≡ length pairs.new.list) }
{
    let mut claims = Vec::new(alloc);
    for next in 0..usize::MAX {
        if next >= pairs.len() {
            break;
        }
        let pair = pairs.get(next);
        let claim = claim_of(alloc, pairs, a, pair)?;
        claims.push(claim)?;
    }
    Ok(claims)
}

// What a pair stands on.
fn claim_of(alloc: Global, pairs: &mut Pairs, a: &Automaton, pair: Flow) -> Result<Claim, Memory>
    requires closed { IsClosed a.now }
    requires deterministic { IsDeterministic a.now }
    requires states { pairs.old.states ≡ length a.now.states }
    requires pair { IsPair a.now pair }
    ensures states { OnOk result (pairs.new.states ≡ pairs.old.states) }
    ensures extends { OnOk result (Extends (IsPair a.now) pairs.old.list pairs.new.list) }
    ensures claim { IfOk result (λ claim. IsClaimOf a.now pairs.new.list pair claim) }
{
    let holds = holds_at_once(a, pair);
    let lower = a.head(pair.negative);
    let upper = a.head(pair.positive);
    let functions = function_needs(alloc, &lower.function, &upper.function)?;
    let records = record_needs(alloc, &lower.fields, &upper.fields)?;
    let first = numbers_of(alloc, pairs, &functions)?;
    let second = numbers_of(alloc, pairs, &records)?;
    Ok(Claim {
        holds,
        first,
        second,
    })
}

// Whether there is an edge, or a base type of both.
fn holds_at_once(a: &Automaton, pair: Flow) -> bool
    requires { IsPair a.now pair }
    ensures { IsTrue result ↔ HoldsAtOnce a.now pair.negative.0 pair.positive.0 }
{
    a.has_flow(pair.negative, pair.positive)
        || has_common_base(a.head(pair.negative), a.head(pair.positive))
}

// The numbers of these pairs, if there are any.
fn numbers_of(
    alloc: Global,
    pairs: &mut Pairs,
    needs: &Option<List<Flow>>,
) -> Result<Option<List<usize>>, Memory>
    requires { (f : _) → IsOneOf needs.now f → f.negative.0 < pairs.old.states }
    ensures states { OnOk result (pairs.new.states ≡ pairs.old.states) }
    ensures extends { OnOk result (Extends (IsOneOf needs.now) pairs.old.list pairs.new.list) }
    ensures numbers { IfOk result (λ numbers. IsNumbered pairs.new.list numbers needs.now) }
{
    match needs {
        None => Ok(None),
        Some(needs) => number_each(alloc, pairs, needs.as_slice()),
    }
}

/// The numbers of these pairs, which are added where they are not there.
///
/// # Errors
///
/// `Memory` where memory is wanting.
pub fn number_each(
    alloc: Global,
    pairs: &mut Pairs,
    needs: &[Flow],
) -> Result<Option<List<usize>>, Memory>
    requires { (f : _) → Contains needs.now f → f.negative.0 < pairs.old.states }
    ensures states { OnOk result (pairs.new.states ≡ pairs.old.states) }
    ensures extends { OnOk result (Extends (Contains needs.now) pairs.old.list pairs.new.list) }
    ensures numbers { IfOk result (λ numbers. IsNumbered pairs.new.list numbers (Some needs.now)) }
{
    let mut numbers = List::new(alloc);
    for need in needs {
        let number = pairs.number(need.negative, need.positive)?;
        numbers.push(number)?;
    }
    Ok(Some(numbers))
}
