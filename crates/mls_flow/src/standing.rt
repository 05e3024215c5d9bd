//! Claims that stand on one another: which of them can stand together.
ghost use Rattle.std.specs.Prelude.{◌≡◌, ◌<◌, ◌++◌, ◌∷◌, [], cond, length, map, All, Contains, IfOk, OnOk};
ghost use Rattle.std.specs.List.{fold};
ghost use Rattle.mls_flow.specs.Claims.{IsAmong, IsGreatest, IsWayAmong};
ghost use Rattle.mls_flow.specs.steps.Losing.{AddsUses, AreLosses, AreLost, IsIn, IsUsesOf, all_of, close, is_left};
ghost use Rattle.mls_flow.specs.steps.Losing.{without};

use mls_base::list::List;
use mls_base::memory::Memory;
use std::alloc::Global;

/// A claim. It holds of itself, or stands where all claims of its first list or all of its second list stand.
#[derive(Clone, Debug, Drop)]
pub struct Claim {
    pub holds: bool,
    pub first: Option<List<usize>>,
    pub second: Option<List<usize>>,
}

// Which of a claim's ways to stand are left.
#[derive(Clone, Copy, Debug, PartialEq, Eq)]
struct Left {
    holds: bool,
    first: bool,
    second: bool,
}

impl Left {
    // Whether a way is left.
    fn any(self) -> bool
        ensures { result ≡ is_left self }
    {
        self.holds || self.first || self.second
    }

    // The same without one of the two lists.
    fn without(self, is_second: bool) -> Left
        ensures { result ≡ without is_second self }
    {
        if is_second {
            Left {
                second: false,
                ..self
            }
        } else {
            Left {
                first: false,
                ..self
            }
        }
    }
}

// A list of a claim, in which some claim stands.
#[derive(Clone, Copy, Debug, PartialEq, Eq)]
struct Use {
    claim: usize,
    is_second: bool,
}

/// Which claims stand: the most that can stand together, where claims may stand on one another in a circle. The answer
/// has one mark for each claim. Time is linear in the number of claims and the lengths of their lists.
///
/// # Errors
///
/// `Memory` where memory is wanting.
pub fn standing(alloc: Global, claims: &[Claim]) -> Result<Vec<bool>, Memory>
    requires { All (IsAmong (length claims.now)) claims.now }
    ensures len { IfOk result (λ marks. length marks.items ≡ length claims.now) }
    ensures greatest { IfOk result (λ marks. IsGreatest claims.now marks.items) }
{
    let uses = uses_of(alloc, claims)?;
    let mut left = all_left(alloc, claims)?;
    let mut lost = lost_at_first(alloc, left.as_slice())?;
    lose_all(claims, &mut left, &mut lost, uses.as_slice())?;
    let marks = marks_of(alloc, left.as_slice())?;
    Ok(marks)
}

// For each claim the lists in which it stands.
fn uses_of(alloc: Global, claims: &[Claim]) -> Result<Vec<List<Use>>, Memory>
    requires { All (IsAmong (length claims.now)) claims.now }
    ensures { IfOk result (λ uses. IsUsesOf claims.now uses.items) }
{
    let mut uses = no_uses(alloc, claims.len())?;
    for i in 0..claims.len() {
        add_way(&mut uses, i, false, &claims[i].first)?;
        add_way(&mut uses, i, true, &claims[i].second)?;
    }
    Ok(uses)
}

// So many empty lists.
fn no_uses(alloc: Global, count: usize) -> Result<Vec<List<Use>>, Memory>
    ensures len { IfOk result (λ uses. length uses.items ≡ count) }
    ensures empty { IfOk result (λ uses. All (λ list. list ≡ []) uses.items) }
{
    let mut uses = Vec::with_capacity(alloc, count)?;
    for _ in 0..count {
        uses.push(List::new(alloc))?;
    }
    Ok(uses)
}

// Notes one list of a claim with each of its members.
fn add_way(
    uses: &mut Vec<List<Use>>,
    claim: usize,
    is_second: bool,
    members: &Option<List<usize>>,
) -> Result<(), Memory>
    requires { IsWayAmong (length uses.old.items) members.now }
    ensures { OnOk result (AddsUses uses.old.items uses.new.items
        (λ u j. (u ≡ record { claim = claim; is_second = is_second }) × IsIn members.now j)) }
{
    match members {
        None => Ok(()),
        Some(members) => add_uses(uses, Use { claim, is_second }, members.as_slice()),
    }
}

fn add_uses(uses: &mut Vec<List<Use>>, used: Use, members: &[usize]) -> Result<(), Memory>
    requires { All (λ j. j < length uses.old.items) members.now }
    ensures { OnOk result (AddsUses uses.old.items uses.new.items (λ u j. (u ≡ used) × Contains members.now j)) }
{
    for j in members {
        uses[*j].push(used)?;
    }
    Ok(())
}

// At first all is left that a claim has.
fn all_left(alloc: Global, claims: &[Claim]) -> Result<Vec<Left>, Memory>
    ensures { IfOk result (λ left. left.items ≡ map all_of claims.now) }
{
    let mut left = Vec::with_capacity(alloc, claims.len())?;
    for claim in claims {
        left.push(Left {
            holds: claim.holds,
            first: claim.first.is_some(),
            second: claim.second.is_some(),
        })?;
    }
    Ok(left)
}

// The claims of which nothing is left.
fn lost_at_first(alloc: Global, left: &[Left]) -> Result<Vec<usize>, Memory>
    ensures { IfOk result (λ lost. AreLost left.now lost.items) }
{
    let mut lost = Vec::new(alloc);
    for i in 0..left.len() {
        let one = left[i];
        note_if_lost(&mut lost, i, one)?;
    }
    Ok(lost)
}

// Notes a claim of which nothing is left.
fn note_if_lost(lost: &mut Vec<usize>, claim: usize, left: Left) -> Result<(), Memory>
    ensures { OnOk result (lost.new.items ≡ cond (is_left left) lost.old.items (lost.old.items ++ claim ∷ [])) }
{
    if !left.any() {
        lost.push(claim)?;
    }
    Ok(())
}

// Takes each list away in which a lost claim stands, until no more claim is lost.
fn lose_all(
    claims: &[Claim],
    left: &mut Vec<Left>,
    lost: &mut Vec<usize>,
    uses: &[List<Use>],
) -> Result<(), Memory>
    requires uses { IsUsesOf claims.now uses.now }
    requires losses { AreLosses claims.now 0 (record { left = left.old.items; lost = lost.old.items }) }
    ensures { OnOk result (AreLosses claims.now (length lost.new.items)
        (record { left = left.new.items; lost = lost.new.items })) }
{
    let mut next = 0;
    while next < lost.len() {
        lose_uses(left, lost, uses[lost[next]].as_slice())?;
        next += 1;
    }
    Ok(())
}

// Takes these lists away.
fn lose_uses(left: &mut Vec<Left>, lost: &mut Vec<usize>, uses: &[Use]) -> Result<(), Memory>
    requires { All (λ u. u.claim < length left.old.items) uses.now }
    ensures { OnOk result (record { left = left.new.items; lost = lost.new.items }
        ≡ fold close (record { left = left.old.items; lost = lost.old.items }) uses.now) }
{
    for used in uses {
        lose_use(left, lost, *used)?;
    }
    Ok(())
}

// Takes one list away.
fn lose_use(left: &mut Vec<Left>, lost: &mut Vec<usize>, used: Use) -> Result<(), Memory>
    requires { used.claim < length left.old.items }
    ensures { OnOk result (record { left = left.new.items; lost = lost.new.items }
        ≡ close (record { left = left.old.items; lost = lost.old.items }) used) }
{
    let before = left[used.claim];
    let after = before.without(used.is_second);
    left[used.claim] = after;
    if before.any() && !after.any() {
        lost.push(used.claim)?;
    }
    Ok(())
}

// The claims of which something is left.
fn marks_of(alloc: Global, left: &[Left]) -> Result<Vec<bool>, Memory>
    ensures { IfOk result (λ marks. marks.items ≡ map is_left left.now) }
{
    let mut marks = Vec::with_capacity(alloc, left.len())?;
    for one in left {
        marks.push(one.any())?;
    }
    Ok(marks)
}
