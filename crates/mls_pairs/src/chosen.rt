//! The pairs that are left of a list where each pair keeps one of its reasons.
ghost use Rattle.std.specs.Prelude.{◌≡◌, ◌↔◌, ◌⊎◌, ◌∷◌, [], All, IfOk, IfSome, IsTrue, Some};
ghost use Rattle.mls_book.specs.Books.{AreRising};
ghost use Rattle.mls_deriv.specs.inner.PairRules.{HasRisingLabels};
ghost use Rattle.mls_pairs.specs.PairLists.{pair_of};
ghost use Rattle.mls_pairs.specs.steps.Growth.{IsFound};
ghost use Rattle.mls_pairs.specs.steps.Reasons.{AddsReason, AreEndPairs, BothReason, FieldsReason, IsChosen, IsHeld};
ghost use Rattle.mls_pairs.specs.steps.Reasons.{IsReasonFor, IsReasonOf, LeftReason, LeftVariable, RightReason};
ghost use Rattle.mls_pairs.specs.steps.Reasons.{RightVariable};
ghost use Rattle.mls_pairs.specs.steps.Rounds.{AreThose};

use crate::found::Found;
use crate::justify::{by_nodes, is_shown};
use crate::needs::{exchanged, left_node, node_needs, node_of, push_fields, right_node};
use crate::pairs::Pairs;
use crate::thin::add_kept;
use mls_base::memory::Memory;
use mls_book::book::{Book, Fields, Node, NodeId};
use mls_deriv::claim::Pair;
use mls_deriv::derivation::Mode;
use mls_deriv::table::Table;
use std::alloc::Global;

// Whether the list has a pair.
fn has(table: &Table, pair: Pair) -> bool
    ensures { IsTrue result ↔ IsHeld table.now pair }
{
    table.holds(pair.mode, pair.left, pair.right)
}

// Whether the list has each of these pairs.
fn has_all(table: &Table, pairs: &Pairs) -> bool
    ensures { IsTrue result ↔ All (IsHeld table.now) pairs.now }
{
    pairs.as_slice().iter().all(|pair| has(table, *pair))
}

// The pairs, where the list has each of them.
fn held(table: &Table, found: Option<Pairs>) -> Option<Pairs>
    ensures same { IfSome result (λ reason. found ≡ Some reason) }
    ensures held { IfSome result (All (IsHeld table.now)) }
{
    match found {
        Some(reason) => {
            if has_all(table, &reason) {
                Some(reason)
            } else {
                None
            }
        }
        None => None,
    }
}

// The pairs of these that the list has, in order.
fn those_held(alloc: Global, table: &Table, pairs: &[Pair]) -> Result<Pairs, Memory>
    ensures { IfOk result (AreThose (IsHeld table.now) pairs.now) }
{
    let mut left = Pairs::new(alloc);
    for pair in pairs {
        let is_kept = has(table, *pair);
        add_kept(&mut left, *pair, is_kept)?;
    }
    Ok(left)
}

// One pair alone.
fn only(alloc: Global, pair: Pair) -> Result<Pairs, Memory>
    ensures { IfOk result (λ pairs. pairs ≡ pair ∷ []) }
{
    let mut pairs = Pairs::new(alloc);
    pairs.push(pair)?;
    Ok(pairs)
}

// Two pairs.
fn two(alloc: Global, first: Pair, second: Pair) -> Result<Pairs, Memory>
    ensures { IfOk result (λ pairs. pairs ≡ first ∷ second ∷ []) }
{
    let mut pairs = Pairs::new(alloc);
    pairs.push(first)?;
    pairs.push(second)?;
    Ok(pairs)
}

// The same pair with another node on the left.
fn with_left(pair: Pair, id: NodeId) -> Pair
    ensures { result ≡ pair_of pair.mode id.0 pair.right }
{
    Pair {
        mode: pair.mode,
        left: id.0,
        right: pair.right,
    }
}

// The same pair with another node on the right.
fn with_right(pair: Pair, id: NodeId) -> Pair
    ensures { result ≡ pair_of pair.mode pair.left id.0 }
{
    Pair {
        mode: pair.mode,
        left: pair.left,
        right: id.0,
    }
}

// Nodes that are read plainly.
fn plain(left: usize, right: usize) -> Pair
    ensures { result ≡ pair_of Mode.Pp left right }
{
    Pair {
        mode: Mode::Pp,
        left,
        right,
    }
}

// The left node is nothing, or a join of lower ones.
fn by_left(alloc: Global, pair: Pair, left: &Node) -> Result<Option<Pairs>, Memory>
    ensures { IfOk result (λ found. IfSome found (LeftReason pair left.now)) }
{
    match left {
        Node::Bot => Ok(Some(Pairs::new(alloc))),
        Node::Join(l, r) => {
            let reason = two(alloc, with_left(pair, *l), with_left(pair, *r))?;
            Ok(Some(reason))
        }
        _ => Ok(None),
    }
}

// The right node is all, or a meet of higher ones.
fn by_right(alloc: Global, pair: Pair, right: &Node) -> Result<Option<Pairs>, Memory>
    ensures { IfOk result (λ found. IfSome found (RightReason pair right.now)) }
{
    match right {
        Node::Top => Ok(Some(Pairs::new(alloc))),
        Node::Meet(l, r) => {
            let reason = two(alloc, with_right(pair, *l), with_right(pair, *r))?;
            Ok(Some(reason))
        }
        _ => Ok(None),
    }
}

// A variable on the left stands for a node.
fn by_left_variable(
    alloc: Global,
    table: &Table,
    pair: Pair,
    left: &Node,
) -> Result<Option<Pairs>, Memory>
    ensures { IfOk result (λ found. IfSome found (LeftVariable table.now pair left.now)) }
{
    match left {
        Node::Var(x) => match left_node(pair.mode, table, *x) {
            Some(node) => {
                let reason = only(alloc, plain(node, pair.right))?;
                Ok(Some(reason))
            }
            None => Ok(None),
        },
        _ => Ok(None),
    }
}

// A variable on the right stands for a node.
fn by_right_variable(
    alloc: Global,
    table: &Table,
    pair: Pair,
    right: &Node,
) -> Result<Option<Pairs>, Memory>
    ensures { IfOk result (λ found. IfSome found (RightVariable table.now pair right.now)) }
{
    match right {
        Node::Var(x) => match right_node(pair.mode, table, *x) {
            Some(node) => {
                let reason = only(alloc, plain(pair.left, node))?;
                Ok(Some(reason))
            }
            None => Ok(None),
        },
        _ => Ok(None),
    }
}

// Functions whose domains and codomains are in order.
fn by_functions(
    alloc: Global,
    mode: Mode,
    left: (NodeId, NodeId),
    right: (NodeId, NodeId),
) -> Result<Pairs, Memory>
    ensures { IfOk result (AreEndPairs mode left right) }
{
    let domains = Pair {
        mode: exchanged(mode),
        left: right.0.0,
        right: left.0.0,
    };
    let codomains = Pair {
        mode,
        left: left.1.0,
        right: right.1.0,
    };
    two(alloc, domains, codomains)
}

// Records whose fields are in order, where the left one has each label of the right one.
fn by_fields(
    alloc: Global,
    mode: Mode,
    fields: &Fields,
    others: &Fields,
) -> Result<Option<Pairs>, Memory>
    requires { AreRising fields.now }
    ensures { IfOk result (λ found. IfSome found (FieldsReason mode fields.now others.now)) }
{
    let mut reason = Pairs::new(alloc);
    push_fields(&mut reason, mode, fields, others)?;
    if reason.len() == others.as_slice().len() {
        Ok(Some(reason))
    } else {
        Ok(None)
    }
}

// Both nodes are of one kind, and their parts are in order.
fn by_both(alloc: Global, pair: Pair, left: &Node, right: &Node) -> Result<Option<Pairs>, Memory>
    requires { HasRisingLabels left.now }
    ensures { IfOk result (λ found. IfSome found (BothReason pair left.now right.now)) }
{
    match (left, right) {
        (Node::Arrow(a, b), Node::Arrow(c, d)) => {
            let reason = by_functions(alloc, pair.mode, (*a, *b), (*c, *d))?;
            Ok(Some(reason))
        }
        (Node::Rcd(fields), Node::Rcd(others)) => by_fields(alloc, pair.mode, fields, others),
        _ => Ok(None),
    }
}

// Whether the list has a pair and shows it.
fn is_good(book: &Book, table: &Table, pair: Pair) -> bool
    ensures { IsTrue result → IsHeld table.now pair }
{
    let (left, right) = (NodeId(pair.left), NodeId(pair.right));
    has(table, pair) && is_shown(book, table, pair.mode, left, right)
}

// The first of two pairs that the list has and shows, or else the second one.
fn either(book: &Book, table: &Table, first: Pair, second: Pair) -> Pair
    ensures { (result ≡ first) ⊎ (result ≡ second) }
{
    if is_good(book, table, first) {
        first
    } else {
        second
    }
}

// One member of a join on the right is higher.
fn by_join(
    alloc: Global,
    book: &Book,
    table: &Table,
    pair: Pair,
    right: &Node,
) -> Result<Option<Pairs>, Memory>
    ensures { IfOk result (λ found. IfSome found (RightReason pair right.now)) }
{
    match right {
        Node::Join(l, r) => {
            let (first, second) = (with_right(pair, *l), with_right(pair, *r));
            let one = if r.0 == pair.left {
                either(book, table, second, first)
            } else {
                either(book, table, first, second)
            };
            let reason = only(alloc, one)?;
            Ok(Some(reason))
        }
        _ => Ok(None),
    }
}

// One member of a meet on the left is lower.
fn by_meet(
    alloc: Global,
    book: &Book,
    table: &Table,
    pair: Pair,
    left: &Node,
) -> Result<Option<Pairs>, Memory>
    ensures { IfOk result (λ found. IfSome found (LeftReason pair left.now)) }
{
    match left {
        Node::Meet(l, r) => {
            let (first, second) = (with_left(pair, *l), with_left(pair, *r));
            let one = if r.0 == pair.right {
                either(book, table, second, first)
            } else {
                either(book, table, first, second)
            };
            let reason = only(alloc, one)?;
            Ok(Some(reason))
        }
        _ => Ok(None),
    }
}

// All pairs of the list that the rules name for these nodes, where the list shows the pair.
fn by_needs(
    alloc: Global,
    table: &Table,
    pair: Pair,
    left: &Node,
    right: &Node,
) -> Result<Option<Pairs>, Memory>
    requires left { HasRisingLabels left.now }
    requires right { HasRisingLabels right.now }
    ensures { IfOk result (λ found. IfSome found (IsReasonFor table.now pair left.now right.now)) }
{
    if !by_nodes(table, pair.mode, pair.left, pair.right, left, right) {
        return Ok(None);
    }
    let needs = node_needs(alloc, table, pair, left, right)?;
    let reason = those_held(alloc, table, needs.as_slice())?;
    Ok(Some(reason))
}

// A reason that the list has, where each side is looked at alone.
fn by_one(
    alloc: Global,
    table: &Table,
    pair: Pair,
    left: &Node,
    right: &Node,
) -> Result<Option<Pairs>, Memory>
    ensures { IfOk result (λ found. IfSome found (IsReasonFor table.now pair left.now right.now)) }
{
    if let Some(reason) = held(table, by_left(alloc, pair, left)?) {
        return Ok(Some(reason));
    }
    if let Some(reason) = held(table, by_right(alloc, pair, right)?) {
        return Ok(Some(reason));
    }
    if let Some(reason) = held(table, by_left_variable(alloc, table, pair, left)?) {
        return Ok(Some(reason));
    }
    Ok(held(table, by_right_variable(alloc, table, pair, right)?))
}

// A reason that the list has, where one member of a join or a meet is chosen.
fn by_member(
    alloc: Global,
    book: &Book,
    table: &Table,
    pair: Pair,
    left: &Node,
    right: &Node,
) -> Result<Option<Pairs>, Memory>
    ensures { IfOk result (λ found. IfSome found (IsReasonFor table.now pair left.now right.now)) }
{
    if let Some(reason) = held(table, by_join(alloc, book, table, pair, right)?) {
        return Ok(Some(reason));
    }
    Ok(held(table, by_meet(alloc, book, table, pair, left)?))
}

// The pairs of one reason that the list has for a pair of these nodes. The list shows the pair if there is one.
fn reason_at(
    alloc: Global,
    book: &Book,
    table: &Table,
    pair: Pair,
    left: &Node,
    right: &Node,
) -> Result<Option<Pairs>, Memory>
    requires left { HasRisingLabels left.now }
    requires right { HasRisingLabels right.now }
    ensures { IfOk result (λ found. IfSome found (IsReasonFor table.now pair left.now right.now)) }
{
    if pair.mode == Mode::Pp && pair.left == pair.right {
        return Ok(Some(Pairs::new(alloc)));
    }
    if let Some(reason) = held(table, by_both(alloc, pair, left, right)?) {
        return Ok(Some(reason));
    }
    if let Some(reason) = by_one(alloc, table, pair, left, right)? {
        return Ok(Some(reason));
    }
    if let Some(reason) = by_member(alloc, book, table, pair, left, right)? {
        return Ok(Some(reason));
    }
    by_needs(alloc, table, pair, left, right)
}

// The pairs of one reason that the list has for a pair.
fn reason_for(
    alloc: Global,
    book: &Book,
    table: &Table,
    pair: Pair,
) -> Result<Option<Pairs>, Memory>
    ensures { IfOk result (λ found. IfSome found (IsReasonOf book.now table.now pair)) }
{
    let bot = Node::Bot;
    let left = node_of(book, NodeId(pair.left), &bot);
    let right = node_of(book, NodeId(pair.right), &bot);
    let found = reason_at(alloc, book, table, pair, left, right)?;
    Ok(found)
}

// Adds the pairs of one reason for a pair, and answers whether there is one.
fn add_reason(
    chosen: &mut Found,
    alloc: Global,
    book: &Book,
    table: &Table,
    pair: Pair,
) -> Result<bool, Memory>
    requires { IsFound chosen.old }
    ensures { IfOk result (λ is_there. IsTrue is_there
        → AddsReason book.now table.now chosen.old chosen.new pair) }
{
    match reason_for(alloc, book, table, pair)? {
        Some(reason) => {
            chosen.add_all(reason.as_slice())?;
            Ok(true)
        }
        None => Ok(false),
    }
}

/// The wanted pairs of a table, and those of one reason for each pair that is chosen, if the table shows each of these.
///
/// # Errors
///
/// `Memory` where memory is wanting.
pub(crate) fn chosen_of(
    alloc: Global,
    book: &Book,
    table: &Table,
    wanted: &[Pair],
) -> Result<Option<Pairs>, Memory>
    ensures { IfOk result (λ found. IfSome found (IsChosen book.now table.now wanted.now)) }
{
    let held = those_held(alloc, table, wanted)?;
    let mut chosen = Found::new(alloc, &[])?;
    chosen.add_all(held.as_slice())?;
    let mut next = 0;
    while next < chosen.len() {
        let pair = chosen.at(next);
        let is_there = add_reason(&mut chosen, alloc, book, table, pair)?;
        if !is_there {
            return Ok(None);
        }
        next += 1;
    }
    Ok(Some(chosen.pairs))
}
