//! The first clash of a relation.
ghost use Rattle.std.specs.Prelude.{◌≡◌, ℕ, ◌<◌, ◌≤◌, [], ◌∷◌, length, position, MatchOption};
ghost use Rattle.std.specs.Prelude.{OnOk, IfErr};
ghost use Rattle.std.specs.Ordering.{nat_cmp};
ghost use Rattle.std.specs.Cmp.Lexicographic.{slice_cmp};
ghost use Rattle.mls_automaton.specs.Models.{HasRisingLabels, IsClosed};
ghost use Rattle.mls_solver.specs.Clashes.{HasNoClash, IsFirstClash, IsFirstKind, LacksField, clash_key, key_cmp, kind_key};
ghost use Rattle.mls_solver.specs.Clashes.{label_of, rank};
ghost use Rattle.mls_solver.specs.Rooms.{Holds};
ghost use Rattle.mls_solver.specs.steps.Kinds.{first_kind, other_kind, is_unlike, unlike_kind, lacks};
ghost use Rattle.mls_solver.specs.steps.FirstClashes.{IsFirstOf, IsEarlier, IsPairAt};

use crate::goal::{Clash, ClashKind, HeadKind};
use crate::room::Room;
use mls_automaton::automaton::{Automaton, FieldSet, FieldSets, Head};
use std::cmp::Ordering;

// The first clash of the pairs of a room.
pub(crate) fn first_clash(room: &Room, a: &Automaton) -> Result<(), Clash>
    requires closed { IsClosed a.now }
    requires states { (p n : ℕ) → Holds room.now p n → (p < length a.now.states) × (n < length a.now.states) }
    ensures ok { OnOk result (HasNoClash a.now (Holds room.now)) }
    ensures clash { IfErr result (IsFirstClash a.now (Holds room.now)) }
{
    let mut first = None;
    for i in 0..room.len() {
        first = earlier(a, first, clash_at(room, a, i));
    }
    match first {
        None => Ok(()),
        Some(clash) => Err(clash),
    }
}

// The first clash of the pair at this place.
fn clash_at(room: &Room, a: &Automaton, i: usize) -> Option<Clash>
    requires closed { IsClosed a.now }
    requires in_range { i < length room.now.pairs }
    requires states { (p n : ℕ) → Holds room.now p n → (p < length a.now.states) × (n < length a.now.states) }
    ensures { IsFirstOf a.now (IsPairAt room.now i) result }
{
    let (positive, negative) = room.pair(i);
    match clash_of(a.head(positive), a.head(negative)) {
        None => None,
        Some(kind) => Some(Clash {
            positive,
            negative,
            kind,
        }),
    }
}

// Of two clashes that may be there, the one that comes first.
pub(crate) fn earlier(a: &Automaton, first: Option<Clash>, other: Option<Clash>) -> Option<Clash>
    requires first { MatchOption first (Unit {0}) (λ c. c.negative.0 < length a.now.states) }
    requires other { MatchOption other (Unit {0}) (λ c. c.negative.0 < length a.now.states) }
    ensures { IsEarlier a.now first other result }
{
    match first {
        None => other,
        Some(left) => match other {
            None => Some(left),
            Some(right) => {
                if compare(a, &left, &right).is_le() {
                    Some(left)
                } else {
                    Some(right)
                }
            }
        },
    }
}

// Which of two clashes comes first.
fn compare(a: &Automaton, left: &Clash, right: &Clash) -> Ordering
    requires left { left.now.negative.0 < length a.now.states }
    requires right { right.now.negative.0 < length a.now.states }
    ensures { result ≡ key_cmp (clash_key a.now left.now) (clash_key a.now right.now) }
{
    compare_heads(a.head(left.negative), left, a.head(right.negative), right)
}

/// Which of two clashes comes first, where the negative states have these heads.
pub fn compare_heads(lower: &Head, left: &Clash, other: &Head, right: &Clash) -> Ordering
    ensures { result ≡ key_cmp (kind_key lower.now left.now.kind ∷
        (left.now.positive.0 ∷ left.now.negative.0 ∷ []) ∷ [])
        (kind_key other.now right.now.kind ∷ (right.now.positive.0 ∷ right.now.negative.0 ∷ []) ∷ []) }
{
    let kinds = compare_kinds(lower, left.kind, other, right.kind);
    let states = left
        .positive
        .0
        .cmp(&right.positive.0)
        .then(left.negative.0.cmp(&right.negative.0));
    kinds.then(states)
}

// Which of two kinds of clashes comes first.
fn compare_kinds(lower: &Head, left: ClashKind, other: &Head, right: ClashKind) -> Ordering
    ensures { result ≡ slice_cmp nat_cmp (kind_key lower.now left) (kind_key other.now right) }
{
    match left {
        ClashKind::Unlike(first, second) => match right {
            ClashKind::Unlike(third, fourth) => rank(first)
                .cmp(&rank(third))
                .then(rank(second).cmp(&rank(fourth))),
            ClashKind::Lacks(_) => Ordering::Less,
        },
        ClashKind::Lacks(i) => match right {
            ClashKind::Unlike(_, _) => Ordering::Greater,
            ClashKind::Lacks(j) => label_of(lower, i).cmp(&label_of(other, j)),
        },
    }
}

// The place of a kind among the four.
fn rank(kind: HeadKind) -> u8
    ensures { result ≡ rank kind }
{
    match kind {
        HeadKind::Bool => 0,
        HeadKind::Int => 1,
        HeadKind::Function => 2,
        HeadKind::Rcd => 3,
    }
}

// The label of the field of this number.
fn label_of(head: &Head, i: usize) -> &[u8]
    ensures { result.now ≡ label_of head.now.fields i }
{
    match &head.fields {
        None => &[],
        Some(fields) => match fields.as_slice().get(i) {
            None => &[],
            Some(field) => field.label.bytes(),
        },
    }
}

/// The first kind in which the heads of a positive and a negative state clash.
pub fn clash_of(upper: &Head, lower: &Head) -> Option<ClashKind>
    requires { HasRisingLabels lower.now.fields }
    ensures { IsFirstKind upper.now lower.now result }
{
    match unlike_kind(upper, lower) {
        None => match first_lacking(upper, lower) {
            None => None,
            Some(i) => Some(ClashKind::Lacks(i)),
        },
        Some(first) => match other_kind(lower, first) {
            None => None,
            Some(second) => Some(ClashKind::Unlike(first, second)),
        },
    }
}

// The first kind of the first head beside which the second head has another one.
fn unlike_kind(upper: &Head, lower: &Head) -> Option<HeadKind>
    ensures { result ≡ unlike_kind upper.now lower.now }
{
    first_kind(
        is_unlike(upper, lower, HeadKind::Bool),
        is_unlike(upper, lower, HeadKind::Int),
        is_unlike(upper, lower, HeadKind::Function),
        is_unlike(upper, lower, HeadKind::Rcd),
    )
}

// Whether the first head has the kind, and the second another one.
fn is_unlike(upper: &Head, lower: &Head, kind: HeadKind) -> bool
    ensures { result ≡ is_unlike upper.now lower.now kind }
{
    upper.has(kind) && other_kind(lower, kind).is_some()
}

// The first kind of the head that is another one than this.
fn other_kind(head: &Head, kind: HeadKind) -> Option<HeadKind>
    ensures { result ≡ other_kind head.now kind }
{
    let function = head.function.is_some();
    let fields = head.fields.is_some();
    match kind {
        HeadKind::Bool => first_kind(false, head.integer, function, fields),
        HeadKind::Int => first_kind(head.boolean, false, function, fields),
        HeadKind::Function => first_kind(head.boolean, head.integer, false, fields),
        HeadKind::Rcd => first_kind(head.boolean, head.integer, function, false),
    }
}

// The first of the four kinds that has the bit.
fn first_kind(boolean: bool, integer: bool, function: bool, fields: bool) -> Option<HeadKind>
    ensures { result ≡ first_kind boolean integer function fields }
{
    if boolean {
        Some(HeadKind::Bool)
    } else if integer {
        Some(HeadKind::Int)
    } else if function {
        Some(HeadKind::Function)
    } else if fields {
        Some(HeadKind::Rcd)
    } else {
        None
    }
}

// The number of the first field of the second head that the first head lacks, if both have a record.
fn first_lacking(upper: &Head, lower: &Head) -> Option<usize>
    ensures { MatchOption result ((i : ℕ) → LacksField upper.now.fields lower.now.fields i → ⊥)
        (λ i. LacksField upper.now.fields lower.now.fields i
        × ((j : ℕ) → LacksField upper.now.fields lower.now.fields j → i ≤ j)) }
{
    match &upper.fields {
        None => None,
        Some(fields) => match &lower.fields {
            None => None,
            Some(others) => first_lacking_field(fields, others.as_slice()),
        },
    }
}

fn first_lacking_field(fields: &FieldSets, others: &[FieldSet]) -> Option<usize>
    ensures { result ≡ position (lacks fields.now) others.now }
{
    others.iter().position(|other| lacks(fields, other))
}

// Whether there is no such field.
fn lacks(fields: &FieldSets, other: &FieldSet) -> bool
    ensures { result ≡ lacks fields.now other.now }
{
    fields.get(&other.label).is_none()
}
