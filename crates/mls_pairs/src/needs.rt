//! The pairs that the rules name for a pair of nodes.
ghost use Rattle.std.specs.Prelude.{◌≡◌, ◌++◌, ◌∷◌, [], map, IfOk, OnOk};
ghost use Rattle.std.specs.List.{flat_map};
ghost use Rattle.mls_book.specs.declared.book.Field.{Field};
ghost use Rattle.mls_book.specs.declared.book.Node.TheVariants.{Bot};
ghost use Rattle.mls_book.specs.Books.{AreRising, node_at};
ghost use Rattle.mls_deriv.specs.Pairs.{exchanged};
ghost use Rattle.mls_deriv.specs.inner.PairRules.{HasRisingLabels, left_node, right_node};
ghost use Rattle.mls_deriv.specs.inner.Tables.{put_in};
ghost use Rattle.mls_pairs.specs.PairLists.{pair_of};
ghost use Rattle.mls_pairs.specs.steps.Needs.{both_needs, field_needs, left_needs, needs_of, node_needs, right_needs};
ghost use Rattle.mls_pairs.specs.steps.Needs.{has_member, is_member, own_needs, own_needs_at, self_needs};

use crate::pairs::Pairs;
use mls_base::memory::Memory;
use mls_book::book::{Book, Field, Fields, Node, NodeId};
use mls_deriv::claim::Pair;
use mls_deriv::derivation::Mode;
use mls_deriv::lookup::field_of;
use mls_deriv::table::Table;
use std::alloc::Global;

// Adds the pair of these nodes.
fn push(needs: &mut Pairs, mode: Mode, left: usize, right: usize) -> Result<(), Memory>
    ensures { OnOk result (needs.new ≡ needs.old ++ pair_of mode left right ∷ []) }
{
    needs.push(Pair { mode, left, right })?;
    Ok(())
}

// Adds the pairs of two nodes with a third one on the right.
fn push_lefts(needs: &mut Pairs, mode: Mode, l: NodeId, r: NodeId, j: usize) -> Result<(), Memory>
    ensures { OnOk result (needs.new ≡ needs.old ++ pair_of mode l.0 j ∷ pair_of mode r.0 j ∷ []) }
{
    push(needs, mode, l.0, j)?;
    push(needs, mode, r.0, j)?;
    Ok(())
}

// Adds the pairs of two nodes with a third one on the left.
fn push_rights(needs: &mut Pairs, mode: Mode, i: usize, l: NodeId, r: NodeId) -> Result<(), Memory>
    ensures { OnOk result (needs.new ≡ needs.old ++ pair_of mode i l.0 ∷ pair_of mode i r.0 ∷ []) }
{
    push(needs, mode, i, l.0)?;
    push(needs, mode, i, r.0)?;
    Ok(())
}

// The node that a variable is read as on the left side.
pub(crate) fn left_node(mode: Mode, table: &Table, variable: usize) -> Option<usize>
    ensures { result ≡ left_node mode (put_in table.now) variable }
{
    match mode {
        Mode::Lr => table.put(variable),
        Mode::Rl => None,
        Mode::Pp => None,
    }
}

// The node that a variable is read as on the right side.
pub(crate) fn right_node(mode: Mode, table: &Table, variable: usize) -> Option<usize>
    ensures { result ≡ right_node mode (put_in table.now) variable }
{
    match mode {
        Mode::Lr => None,
        Mode::Rl => table.put(variable),
        Mode::Pp => None,
    }
}

// Adds what the left node alone asks for.
fn push_left(
    needs: &mut Pairs,
    table: &Table,
    mode: Mode,
    j: usize,
    left: &Node,
) -> Result<(), Memory>
    ensures { OnOk result (needs.new ≡ needs.old ++ left_needs (put_in table.now) mode j left.now) }
{
    match left {
        Node::Var(x) => match left_node(mode, table, *x) {
            None => Ok(()),
            Some(n) => push(needs, Mode::Pp, n, j),
        },
        Node::Join(l, r) => push_lefts(needs, mode, *l, *r, j),
        Node::Meet(l, r) => push_lefts(needs, mode, *l, *r, j),
        _ => Ok(()),
    }
}

// Adds what the right node alone asks for.
fn push_right(
    needs: &mut Pairs,
    table: &Table,
    mode: Mode,
    i: usize,
    right: &Node,
) -> Result<(), Memory>
    ensures { OnOk result (needs.new ≡ needs.old ++ right_needs (put_in table.now) mode i right.now) }
{
    match right {
        Node::Var(x) => match right_node(mode, table, *x) {
            None => Ok(()),
            Some(n) => push(needs, Mode::Pp, i, n),
        },
        Node::Join(l, r) => push_rights(needs, mode, i, *l, *r),
        Node::Meet(l, r) => push_rights(needs, mode, i, *l, *r),
        _ => Ok(()),
    }
}

// Adds the pair of a field of the right record, where the left one has its label.
fn push_field(needs: &mut Pairs, mode: Mode, fields: &Fields, other: &Field) -> Result<(), Memory>
    requires { AreRising fields.now }
    ensures { OnOk result (needs.new ≡ needs.old ++ field_needs mode fields.now other.now) }
{
    match field_of(fields.as_slice(), &other.label) {
        None => Ok(()),
        Some(m) => push(needs, mode, m.0, other.node.0),
    }
}

// Adds the pairs of the fields of the right record.
pub(crate) fn push_fields(
    needs: &mut Pairs,
    mode: Mode,
    fields: &Fields,
    others: &Fields,
) -> Result<(), Memory>
    requires { AreRising fields.now }
    ensures { OnOk result (needs.new ≡ needs.old ++ flat_map (field_needs mode fields.now) others.now) }
{
    for other in others.as_slice() {
        push_field(needs, mode, fields, other)?;
    }
    Ok(())
}

// The mode with its sides exchanged.
pub(crate) fn exchanged(mode: Mode) -> Mode
    ensures { result ≡ exchanged mode }
{
    match mode {
        Mode::Lr => Mode::Rl,
        Mode::Rl => Mode::Lr,
        Mode::Pp => Mode::Pp,
    }
}

// Adds what both nodes ask for.
fn push_both(needs: &mut Pairs, mode: Mode, left: &Node, right: &Node) -> Result<(), Memory>
    requires { HasRisingLabels left.now }
    ensures { OnOk result (needs.new ≡ needs.old ++ both_needs mode left.now right.now) }
{
    match (left, right) {
        (Node::Arrow(a, b), Node::Arrow(c, d)) => {
            push(needs, exchanged(mode), c.0, a.0)?;
            push(needs, mode, b.0, d.0)
        }
        (Node::Rcd(fields), Node::Rcd(others)) => push_fields(needs, mode, fields, others),
        _ => Ok(()),
    }
}

/// What these nodes of the pair ask for.
///
/// # Errors
///
/// `Memory` where memory is wanting.
pub(crate) fn node_needs(
    alloc: Global,
    table: &Table,
    pair: Pair,
    left: &Node,
    right: &Node,
) -> Result<Pairs, Memory>
    requires { HasRisingLabels left.now }
    ensures { IfOk result (λ needs. needs ≡ node_needs (put_in table.now) pair left.now right.now) }
{
    let mut needs = Pairs::new(alloc);
    push_left(&mut needs, table, pair.mode, pair.right, left)?;
    push_right(&mut needs, table, pair.mode, pair.left, right)?;
    push_both(&mut needs, pair.mode, left, right)?;
    Ok(needs)
}

/// The node of this number, whose labels rise; past the end of the book it is the other one, a `Bot`.
pub(crate) fn node_of<'a>(book: &'a Book, id: NodeId, bot: &'a Node) -> &'a Node
    requires { bot.now ≡ Bot }
    ensures node { result.now ≡ node_at book.now id.0 }
    ensures rising { HasRisingLabels result.now }
{
    if id.0 < book.len() {
        book.node(id)
    } else {
        bot
    }
}

/// The pairs that the rules name for this pair.
pub(crate) fn needs_of(
    alloc: Global,
    book: &Book,
    table: &Table,
    pair: Pair,
) -> Result<Pairs, Memory>
    ensures { IfOk result (λ needs. needs ≡ needs_of book.now (put_in table.now) pair) }
{
    let bot = Node::Bot;
    let left = node_of(book, NodeId(pair.left), &bot);
    let right = node_of(book, NodeId(pair.right), &bot);
    node_needs(alloc, table, pair, left, right)
}

// Adds the pair of each field with itself.
fn push_selves(needs: &mut Pairs, mode: Mode, fields: &Fields) -> Result<(), Memory>
    ensures { OnOk result (needs.new ≡ needs.old ++ map (λ (field : Field). pair_of mode field.node.0 field.node.0) fields.now) }
{
    for field in fields.as_slice() {
        push(needs, mode, field.node.0, field.node.0)?;
    }
    Ok(())
}

// What the pair of a node with itself needs, where variables stand for themselves.
fn self_needs(alloc: Global, mode: Mode, i: usize, node: &Node) -> Result<Pairs, Memory>
    ensures { IfOk result (λ needs. needs ≡ self_needs mode i node.now) }
{
    let mut needs = Pairs::new(alloc);
    match node {
        Node::Join(l, r) => push_lefts(&mut needs, mode, *l, *r, i)?,
        Node::Meet(l, r) => push_rights(&mut needs, mode, i, *l, *r)?,
        Node::Arrow(a, b) => {
            push(&mut needs, exchanged(mode), a.0, a.0)?;
            push(&mut needs, mode, b.0, b.0)?;
        }
        Node::Rcd(fields) => push_selves(&mut needs, mode, fields)?,
        _ => {}
    }
    Ok(needs)
}

// Whether the node is a join of this node and another one.
fn is_member(join: &Node, i: usize) -> bool
    ensures { result ≡ is_member join.now i }
{
    match join {
        Node::Join(l, r) => l.0 == i || r.0 == i,
        _ => false,
    }
}

// Whether the node is a meet of this node and another one.
fn has_member(meet: &Node, j: usize) -> bool
    ensures { result ≡ has_member meet.now j }
{
    match meet {
        Node::Meet(l, r) => l.0 == j || r.0 == j,
        _ => false,
    }
}

// The pair of a node with itself.
fn one_self(alloc: Global, mode: Mode, i: usize) -> Result<Pairs, Memory>
    ensures { IfOk result (λ needs. needs ≡ pair_of mode i i ∷ []) }
{
    let mut needs = Pairs::new(alloc);
    push(&mut needs, mode, i, i)?;
    Ok(needs)
}

// What a pair of these nodes needs, if it holds by itself where variables stand for themselves.
fn own_needs_at(
    alloc: Global,
    pair: Pair,
    left: &Node,
    right: &Node,
) -> Result<Option<Pairs>, Memory>
    ensures { IfOk result (λ needs. needs ≡ own_needs_at pair left.now right.now) }
{
    if pair.left == pair.right {
        let needs = self_needs(alloc, pair.mode, pair.left, left)?;
        return Ok(Some(needs));
    }
    if is_member(right, pair.left) {
        let needs = one_self(alloc, pair.mode, pair.left)?;
        return Ok(Some(needs));
    }
    if has_member(left, pair.right) {
        let needs = one_self(alloc, pair.mode, pair.right)?;
        return Ok(Some(needs));
    }
    Ok(None)
}

/// What this pair needs, if it holds by itself where variables stand for themselves: a node is below itself, a member of
/// a join below the join, and a meet below its members.
pub(crate) fn own_needs(alloc: Global, book: &Book, pair: Pair) -> Result<Option<Pairs>, Memory>
    ensures { IfOk result (λ needs. needs ≡ own_needs book.now pair) }
{
    let bot = Node::Bot;
    let left = node_of(book, NodeId(pair.left), &bot);
    let right = node_of(book, NodeId(pair.right), &bot);
    own_needs_at(alloc, pair, left, right)
}
