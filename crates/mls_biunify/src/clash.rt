//! The first clash of a relation between the states of a table.
ghost use Rattle.std.specs.Prelude.{◌≡◌, ◌<◌, true, false, get_or, length, MatchOption};
ghost use Rattle.std.specs.Prelude.{OnOk, IfErr};
ghost use Rattle.mls_solver.specs.Clashes.{HasNoClash, IsFirstClash};
ghost use Rattle.mls_solver.specs.Rooms.{Holds};
ghost use Rattle.mls_solver.specs.steps.FirstClashes.{IsFirstOf, IsEarlier, IsPairAt};
ghost use Rattle.mls_biunify.specs.steps.Tables.{HoldsThere};

use crate::relation::Relation;
use crate::table::Table;
use mls_solver::clash::{clash_of, compare_heads};
use mls_solver::goal::Clash;

// The first clash of the pairs of a relation.
pub fn first_clash_of(relation: &Relation, table: &Table) -> Result<(), Clash>
    requires states { HoldsThere table.now relation.now }
    ensures ok { OnOk result (HasNoClash table.now.automaton (Holds relation.now)) }
    ensures clash { IfErr result (IsFirstClash table.now.automaton (Holds relation.now)) }
{
    let mut first = None;
    for i in 0..relation.len() {
        first = earlier_of(table, first, clash_found(relation, table, i));
    }
    match first {
        None => Ok(()),
        Some(clash) => Err(clash),
    }
}

// The first clash of the pair at this place.
fn clash_found(relation: &Relation, table: &Table, i: usize) -> Option<Clash>
    requires in_range { i < length relation.now.pairs }
    requires states { HoldsThere table.now relation.now }
    ensures { IsFirstOf table.now.automaton (IsPairAt relation.now i) result }
{
    let (positive, negative) = relation.pair(i);
    match clash_of(table.head(positive), table.head(negative)) {
        None => None,
        Some(kind) => Some(Clash {
            positive,
            negative,
            kind,
        }),
    }
}

// Of two clashes that may be there, the one that comes first.
fn earlier_of(table: &Table, first: Option<Clash>, other: Option<Clash>) -> Option<Clash>
    requires first { MatchOption first (Unit {0}) (λ c. get_or table.now.there c.negative.0 false ≡ true) }
    requires other { MatchOption other (Unit {0}) (λ c. get_or table.now.there c.negative.0 false ≡ true) }
    ensures { IsEarlier table.now.automaton first other result }
{
    match first {
        None => other,
        Some(left) => match other {
            None => Some(left),
            Some(right) => {
                let lower = table.head(left.negative);
                if compare_heads(lower, &left, table.head(right.negative), &right).is_le() {
                    Some(left)
                } else {
                    Some(right)
                }
            }
        },
    }
}
