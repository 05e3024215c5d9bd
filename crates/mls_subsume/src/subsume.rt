//! Whether a general scheme subsumes a special one.
ghost use Rattle.std.specs.Prelude.{◌≡◌, ◌↔◌, ◌<◌, [], length, IfOk, IsTrue};
ghost use Rattle.mls_automaton.specs.Automata.{polarity_at};
ghost use Rattle.mls_automaton.specs.Models.{IsDeterministic};
ghost use Rattle.mls_automaton.specs.Schemes.{IsScheme};
ghost use Rattle.mls_subsume.specs.Failures.{IsFirstFailure};
ghost use Rattle.mls_subsume.specs.Searches.{HasNoFailure, IsSearch, met_at};
ghost use Rattle.mls_subsume.specs.Verdicts.{DoesNotSubsume, DoesSubsume, IfNo, IfYes, IsSplitWalk, IsYes};
ghost use Rattle.mls_subsume.specs.Walks.{IsIn};
ghost use Rattle.mls_subsume.specs.steps.Queues.{IsMet};

use crate::explore::explore;
use crate::flows::first_by_flow;
use crate::queue::Queue;
use crate::reasons::first_by_head;
use crate::verdict::{StatePair, Verdict, Walk};
use mls_automaton::automaton::{Automaton, Polarity};
use mls_automaton::scheme::Scheme;
use mls_automaton::state_set::StateId;
use mls_base::list::List;
use mls_base::memory::Memory;
use std::alloc::Global;

/// Whether the general scheme subsumes the special one: it does with a walk, or does not, with the first failure. Each
/// pair that is met is looked at a fixed number of times, and each edge of a positive general state once for each two
/// partners of its ends.
///
/// # Errors
///
/// `Memory` where memory is wanting.
pub fn subsumes(alloc: Global, general: &Scheme, special: &Scheme) -> Result<Verdict, Memory>
    requires general { IsScheme general.now }
    requires special { IsScheme special.now }
    requires no_binders { general.now.env ≡ [] }
    requires general_deterministic { IsDeterministic general.now.automaton }
    requires special_deterministic { IsDeterministic special.now.automaton }
    ensures exactly { IfOk result (λ verdict. IsYes verdict ↔ DoesSubsume general.now special.now) }
    ensures walk { IfOk result (λ verdict. IfYes verdict (IsSplitWalk general.now special.now)) }
    ensures first { IfOk result (λ verdict. IfNo verdict (IsFirstFailure general.now special.now)) }
    ensures does_not_subsume { IfOk result (λ verdict. IfNo verdict (λ path. DoesNotSubsume general.now special.now)) }
{
    let queue = explore(alloc, general, special)?;
    if let Some(path) = first_by_head(alloc, &queue, general, special)? {
        return Ok(Verdict::No(path));
    }
    match first_by_flow(alloc, &queue, general, special)? {
        Some(path) => Ok(Verdict::No(path)),
        None => {
            let walk = walk_of(alloc, &queue, general, special)?;
            Ok(Verdict::Yes(walk))
        }
    }
}

// The walk of all pairs that were met, where none of them fails.
fn walk_of(alloc: Global, queue: &Queue, general: &Scheme, special: &Scheme) -> Result<Walk, Memory>
    requires general { IsScheme general.now }
    requires special { IsScheme special.now }
    requires deterministic { IsDeterministic special.now.automaton }
    requires search { IsSearch general.now special.now queue.now.met }
    requires fine { HasNoFailure general.now special.now queue.now.met }
    ensures { IfOk result (IsSplitWalk general.now special.now) }
{
    let positives = pairs_with(alloc, queue, &general.automaton, Polarity::Positive)?;
    let negatives = pairs_with(alloc, queue, &general.automaton, Polarity::Negative)?;
    Ok(Walk {
        positives,
        negatives,
    })
}

// The pairs of this polarity.
fn pairs_with(
    alloc: Global,
    queue: &Queue,
    general: &Automaton,
    polarity: Polarity,
) -> Result<List<StatePair>, Memory>
    requires { (k : _) → k < length queue.now.met → (met_at queue.now.met k).general < length general.now.states }
    ensures { IfOk result (λ pairs. (g s : _) → IsIn pairs g s
        ↔ IsMet queue.now.met g s × (polarity_at general.now g ≡ polarity)) }
{
    let mut pairs = List::new(alloc);
    for number in 0..queue.len() {
        let pair = queue.pair(number);
        if has_polarity(general, pair.general, polarity) {
            pairs.push(pair)?;
        }
    }
    Ok(pairs)
}

fn has_polarity(a: &Automaton, s: StateId, polarity: Polarity) -> bool
    requires { s.0 < length a.now.states }
    ensures { IsTrue result ↔ (polarity_at a.now s.0 ≡ polarity) }
{
    a.polarity(s) == polarity
}
