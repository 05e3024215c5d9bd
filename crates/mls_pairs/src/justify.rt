//! Whether a pair of nodes is shown by one look at both, and by other pairs, in any book: what its nodes name need not
//! be there.
ghost use Rattle.std.specs.Prelude.{◌≡◌, ◌↔◌, ◌⊎◌, IsTrue, All};
ghost use Rattle.mls_book.specs.Books.{AreRising};
ghost use Rattle.mls_deriv.specs.Pairs.{exchanged};
ghost use Rattle.mls_deriv.specs.inner.PairRules.{ByLeft, ByRight, ByBoth, ByNodes, LabelFits, AllLabelsFit};
ghost use Rattle.mls_deriv.specs.inner.PairRules.{left_node, right_node, HasRisingLabels, IsShown};
ghost use Rattle.mls_deriv.specs.inner.Tables.{Holds, put_in};

use crate::needs::node_of;
use mls_book::book::{Book, Field, Node, NodeId};
use mls_book::name::Name;
use mls_deriv::derivation::Mode;
use mls_deriv::lookup::field_of;
use mls_deriv::table::Table;

/// The node that a variable is read as on the left side.
fn left_node(mode: Mode, table: &Table, variable: usize) -> Option<usize>
    ensures { result ≡ left_node mode (put_in table.now) variable }
{
    match mode {
        Mode::Lr => table.put(variable),
        Mode::Rl => None,
        Mode::Pp => None,
    }
}

/// The node that a variable is read as on the right side.
fn right_node(mode: Mode, table: &Table, variable: usize) -> Option<usize>
    ensures { result ≡ right_node mode (put_in table.now) variable }
{
    match mode {
        Mode::Lr => None,
        Mode::Rl => table.put(variable),
        Mode::Pp => None,
    }
}

/// Whether the left node alone shows that it is below node `j`.
fn by_left(table: &Table, mode: Mode, j: usize, left: &Node) -> bool
    ensures { IsTrue result ↔ ByLeft (put_in table.now) (Holds table.now) mode j left.now }
{
    match left {
        Node::Bot => true,
        Node::Var(x) => match left_node(mode, table, *x) {
            None => false,
            Some(n) => table.holds(Mode::Pp, n, j),
        },
        Node::Join(l, r) => table.holds(mode, l.0, j) && table.holds(mode, r.0, j),
        Node::Meet(l, r) => table.holds(mode, l.0, j) || table.holds(mode, r.0, j),
        _ => false,
    }
}

/// Whether the right node alone shows that node `i` is below it.
fn by_right(table: &Table, mode: Mode, i: usize, right: &Node) -> bool
    ensures { IsTrue result ↔ ByRight (put_in table.now) (Holds table.now) mode i right.now }
{
    match right {
        Node::Top => true,
        Node::Var(x) => match right_node(mode, table, *x) {
            None => false,
            Some(n) => table.holds(Mode::Pp, i, n),
        },
        Node::Join(l, r) => table.holds(mode, i, l.0) || table.holds(mode, i, r.0),
        Node::Meet(l, r) => table.holds(mode, i, l.0) && table.holds(mode, i, r.0),
        _ => false,
    }
}

/// Whether the left record has this label with a lower field, if the right one has it.
fn label_fits(table: &Table, mode: Mode, fields: &[Field], others: &[Field], label: &Name) -> bool
    requires left { AreRising fields.now }
    requires right { AreRising others.now }
    ensures { IsTrue result ↔ LabelFits (Holds table.now) mode fields.now others.now label.now }
{
    match field_of(others, label) {
        None => true,
        Some(k) => match field_of(fields, label) {
            None => false,
            Some(m) => table.holds(mode, m.0, k.0),
        },
    }
}

/// Whether each field of the right record is in the left one and lower there.
fn labels_fit(table: &Table, mode: Mode, fields: &[Field], others: &[Field]) -> bool
    requires left { AreRising fields.now }
    requires right { AreRising others.now }
    ensures { IsTrue result ↔ All (λ field. LabelFits
        (Holds table.now) mode fields.now others.now field.label) others.now }
{
    others.iter().all(|field| label_fits(table, mode, fields, others, &field.label))
}

/// Whether the left record is shown to be below the right one.
fn records_fit(table: &Table, mode: Mode, fields: &[Field], others: &[Field]) -> bool
    requires left { AreRising fields.now }
    requires right { AreRising others.now }
    ensures { IsTrue result ↔ AllLabelsFit (Holds table.now) mode fields.now others.now }
{
    labels_fit(table, mode, fields, others)
}

/// The mode with its sides exchanged.
fn exchanged(mode: Mode) -> Mode
    ensures { result ≡ exchanged mode }
{
    match mode {
        Mode::Lr => Mode::Rl,
        Mode::Rl => Mode::Lr,
        Mode::Pp => Mode::Pp,
    }
}

/// Whether both nodes show that the left one is below the right one.
fn by_both(table: &Table, mode: Mode, left: &Node, right: &Node) -> bool
    requires left { HasRisingLabels left.now }
    requires right { HasRisingLabels right.now }
    ensures { IsTrue result ↔ ByBoth (put_in table.now) (Holds table.now) mode left.now right.now }
{
    match (left, right) {
        (Node::Bool, Node::Bool) => true,
        (Node::Int, Node::Int) => true,
        (Node::Var(x), Node::Var(y)) => *x == *y
            && left_node(mode, table, *x).is_none()
            && right_node(mode, table, *x).is_none(),
        (Node::Arrow(a, b), Node::Arrow(c, d)) => table.holds(exchanged(mode), c.0, a.0)
            && table.holds(mode, b.0, d.0),
        (Node::Rcd(fields), Node::Rcd(others)) => records_fit(
            table,
            mode,
            fields.as_slice(),
            others.as_slice(),
        ),
        _ => false,
    }
}

/// Whether two nodes show that the one is below the other.
pub(crate) fn by_nodes(
    table: &Table,
    mode: Mode,
    i: usize,
    j: usize,
    left: &Node,
    right: &Node,
) -> bool
    requires left { HasRisingLabels left.now }
    requires right { HasRisingLabels right.now }
    ensures { IsTrue result ↔ ByNodes (put_in table.now) (Holds table.now) mode i j left.now right.now }
{
    by_one(table, mode, i, j, left, right) || by_other(table, mode, i, j, left, right)
}

fn by_one(table: &Table, mode: Mode, i: usize, j: usize, left: &Node, right: &Node) -> bool
    ensures { IsTrue result ↔ (ByLeft (put_in table.now) (Holds table.now) mode j left.now
        ⊎ ByRight (put_in table.now) (Holds table.now) mode i right.now) }
{
    by_left(table, mode, j, left) || by_right(table, mode, i, right)
}

fn by_other(table: &Table, mode: Mode, i: usize, j: usize, left: &Node, right: &Node) -> bool
    requires left { HasRisingLabels left.now }
    requires right { HasRisingLabels right.now }
    ensures { IsTrue result ↔ (ByBoth (put_in table.now) (Holds table.now) mode left.now right.now
        ⊎ ((mode ≡ Mode.Pp) × (i ≡ j))) }
{
    by_both(table, mode, left, right) || (mode == Mode::Pp && i == j)
}

/// Whether the table and the two nodes show the pair.
pub fn is_shown(book: &Book, table: &Table, mode: Mode, left: NodeId, right: NodeId) -> bool
    ensures { IsTrue result ↔ IsShown book.now (put_in table.now) (Holds table.now) mode left.0 right.0 }
{
    let bot = Node::Bot;
    let first = node_of(book, left, &bot);
    let second = node_of(book, right, &bot);
    by_nodes(table, mode, left.0, right.0, first, second)
}
