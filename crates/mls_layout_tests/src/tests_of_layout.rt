//! Small constraints, laid out behind the nodes of their types.
//!
//! A book is written as its nodes in order: `1>2` is a function, `{a:3}` a record, `4|5` a join and `4&5` a meet.
ghost use Rattle.std.specs.Prelude.{IfOk};
ghost use Rattle.mls_automaton.specs.Models.{IsClosed};

use mls_automaton::automaton::Automaton;
use mls_automaton::sample::automaton_of;
use mls_automaton::state_set::StateId;
use mls_base::memory::Memory;
use mls_book::book::{Book, Fields, Node, NodeId};
use mls_layout::layout::{Places, lay_out};
use mls_layout::tree::NodeIds;
use mls_solver::goal::{Goal, are_goals};
use mls_solver::search::search;
use mls_subsume::verdict::StatePair;
use std::alloc::Global;
use std::process::Abort;
use std::test::Fail;

// The automaton of a text, which is one.
pub(crate) fn sample(rt: &impl Abort, alloc: Global, text: &str) -> Result<Automaton, Memory>
    ensures { IfOk result IsClosed }
{
    match automaton_of(alloc, text)? {
        Some(a) => Ok(a),
        None => panic!(rt; "no automaton: {text}"),
    }
}

fn show_fields(line: &mut String, fields: &Fields) -> Result<(), Memory> {
    line.push_str("{")?;
    for field in fields.as_slice() {
        write!(line, "{}:{}", field.label.as_str(), field.node.0)?;
    }
    line.push_str("}")?;
    Ok(())
}

fn show_node(line: &mut String, node: &Node) -> Result<(), Memory> {
    match node {
        Node::Bot => line.push_str("bot")?,
        Node::Top => line.push_str("top")?,
        Node::Var(x) => write!(line, "v{x}")?,
        Node::Bool => line.push_str("bool")?,
        Node::Int => line.push_str("int")?,
        Node::Arrow(j, k) => write!(line, "{}>{}", j.0, k.0)?,
        Node::Rcd(fields) => show_fields(line, fields)?,
        Node::Join(j, k) => write!(line, "{}|{}", j.0, k.0)?,
        Node::Meet(j, k) => write!(line, "{}&{}", j.0, k.0)?,
    }
    Ok(())
}

// The nodes of a book.
pub(crate) fn show_book(line: &mut String, book: &Book) -> Result<(), Memory> {
    for i in 0..book.len() {
        show_node(line, book.node(NodeId(i)))?;
        line.push_str(" ")?;
    }
    Ok(())
}

// The states at which the nodes stand that are given.
pub(crate) fn places_of(alloc: Global, nodes: &[usize], past: usize) -> Result<Places, Memory> {
    let mut ids = NodeIds::new(alloc);
    for node in nodes {
        ids.push(NodeId(*node))?;
    }
    Ok(Places {
        nodes: ids,
        past: NodeId(past),
    })
}

// Nodes behind a blank each.
fn show_places(line: &mut String, places: &Places) -> Result<(), Memory> {
    for place in places.nodes.as_slice() {
        write!(line, " {}", place.0)?;
    }
    Ok(())
}

// A book, the nodes of the states and the node past their end.
pub(crate) fn show_laid(alloc: Global, book: &Book, places: &Places) -> Result<String, Memory> {
    let mut line = String::new(alloc);
    show_book(&mut line, book)?;
    line.push_str("at")?;
    show_places(&mut line, places)?;
    write!(line, " and {}", places.past.0)?;
    Ok(line)
}

// The book and the places of the states, where the type is the first nodes and its states stand there in order.
fn laid(
    rt: &impl Abort,
    alloc: Global,
    book: Book,
    text: &str,
    goals: &[Goal],
    pairs: &[StatePair],
    type_places: &Places,
) -> Result<String, Memory> {
    let a = sample(rt, alloc, text)?;
    assert!(rt; are_goals(&a, goals));
    assert!(rt; book.is_closed());
    assert!(rt; type_places.are_below(book.len()));
    let found = search(alloc, &a, goals)?;
    let laid = lay_out(alloc, book, &a, &found, pairs, type_places)?;
    show_laid(alloc, &laid.book, &laid.places)
}

fn push(book: &mut Book, node: Node) -> Result<(), Memory> {
    if book.can_push(&node) {
        book.push(node)?;
    }
    Ok(())
}

fn pair(general: usize, special: usize) -> StatePair {
    StatePair {
        general: StateId(general),
        special: StateId(special),
    }
}

fn goal(positive: usize, negative: usize) -> Goal {
    Goal {
        positive: StateId(positive),
        negative: StateId(negative),
    }
}

// `fun x -> x` at `a -> a`.
#[test]
fn lays_out_the_identity(rt: HostRuntime) -> Result<(), Fail> {
    let alloc = rt.alloc();
    let mut book = Book::new(alloc);
    push(&mut book, Node::Arrow(NodeId(1), NodeId(2)))?;
    push(&mut book, Node::Var(0))?;
    push(&mut book, Node::Var(0))?;
    push(&mut book, Node::Bot)?;
    let places = places_of(alloc, &[0, 1, 2], 3)?;
    let pairs = [pair(0, 0), pair(1, 1), pair(2, 2)];
    let line = laid(&rt, alloc, book, "+f1>2 - + 1~2", &[], &pairs, &places)?;
    assert_eq!(rt;
        line.as_str(),
        "1>2 v0 v0 bot bool int bot 1>1 at 7 1 1 and 6"
    );
    Ok(())
}

// `fun f -> f 1` at `(int -> a) -> a`.
#[test]
fn lays_out_an_application(rt: HostRuntime) -> Result<(), Fail> {
    let alloc = rt.alloc();
    let mut book = Book::new(alloc);
    push(&mut book, Node::Arrow(NodeId(1), NodeId(4)))?;
    push(&mut book, Node::Arrow(NodeId(2), NodeId(3)))?;
    push(&mut book, Node::Int)?;
    push(&mut book, Node::Var(0))?;
    push(&mut book, Node::Var(0))?;
    push(&mut book, Node::Bot)?;
    let places = places_of(alloc, &[0, 1, 2, 3, 4], 5)?;
    let pairs = [pair(0, 0), pair(1, 1), pair(5, 2), pair(6, 3), pair(4, 4)];
    let text = "+f1>4 - + -f5>6 + +i - 1~2 6~4";
    let line = laid(&rt, alloc, book, text, &[goal(2, 3)], &pairs, &places)?;
    assert_eq!(rt;
        line.as_str(),
        "1>4 2>3 int v0 v0 bot bool int bot 1>3 7>3 1&10 at 9 1 1 11 3 7 3 and 8"
    );
    Ok(())
}

// `{a = 1}.a` at `int`.
#[test]
fn lays_out_a_field_that_is_read(rt: HostRuntime) -> Result<(), Fail> {
    let alloc = rt.alloc();
    let mut book = Book::new(alloc);
    push(&mut book, Node::Int)?;
    push(&mut book, Node::Bot)?;
    let places = places_of(alloc, &[0], 1)?;
    let text = "+ +{a:2} +i -{a:4} - 4~0";
    let line = laid(
        &rt,
        alloc,
        book,
        text,
        &[goal(1, 3)],
        &[pair(0, 0)],
        &places,
    )?;
    assert_eq!(rt;
        line.as_str(),
        "int bot bool int bot {a:3} {a:3} 5&6 at 3 5 3 7 3 and 4"
    );
    Ok(())
}

// Nothing flows in to the one state, and nothing to the other.
#[test]
fn lays_out_states_without_anything(rt: HostRuntime) -> Result<(), Fail> {
    let alloc = rt.alloc();
    let mut book = Book::new(alloc);
    push(&mut book, Node::Bot)?;
    let places = places_of(alloc, &[], 0)?;
    let line = laid(&rt, alloc, book, "- +", &[], &[], &places)?;
    assert_eq!(rt; line.as_str(), "bot bool int bot bot bot at 4 5 and 3");
    Ok(())
}
