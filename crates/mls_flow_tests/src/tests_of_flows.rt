//! Small automata, and which of their states are below which.
use mls_automaton::automaton::Polarity::{Negative, Positive};
use mls_automaton::automaton::{Arms, Automaton, FieldSet, FieldSets, Flow, Head, Polarity};
use mls_automaton::state_set::{StateId, StateSet};
use mls_base::memory::Memory;
use mls_base::spelling::is_name;
use mls_book::name::Name;
use mls_flow::redundant::irredundant_flows;
use mls_flow::table::{admissible, admissible_among};
use std::alloc::Global;
use std::process::Abort;
use std::test::Fail;

// What a state of the examples has: nothing, a base type, a function from one state to another, a record without
// fields, or a record with one field.
#[derive(Clone, Copy, Debug)]
enum Part {
    Nothing,
    Boolean,
    Integer,
    Function(usize, usize),
    Empty,
    Field(u8, usize),
}

fn record(rt: &impl Abort, alloc: Global, label: u8, s: usize) -> Result<FieldSets, Memory> {
    let text = [label];
    assert!(rt; is_name(text.as_slice()));
    let mut fields = FieldSets::new(alloc);
    fields.push(FieldSet {
        label: Name::new(alloc, text.as_slice())?,
        set: StateSet::one(alloc, StateId(s))?,
    })?;
    Ok(fields)
}

fn head(rt: &impl Abort, alloc: Global, part: Part) -> Result<Head, Memory> {
    let mut head = Head::empty();
    match part {
        Part::Nothing => {}
        Part::Boolean => head.boolean = true,
        Part::Integer => head.integer = true,
        Part::Function(domain, codomain) => {
            head.function = Some(Arms {
                domain: StateSet::one(alloc, StateId(domain))?,
                codomain: StateSet::one(alloc, StateId(codomain))?,
            });
        }
        Part::Empty => head.fields = Some(FieldSets::new(alloc)),
        Part::Field(label, s) => head.fields = Some(record(rt, alloc, label, s)?),
    }
    Ok(head)
}

// The automaton with these states, and an edge between the last two of them where there is to be one.
fn automaton(
    rt: &impl Abort,
    alloc: Global,
    states: &[(Polarity, Part)],
    has_edge: bool,
) -> Result<Automaton, Memory> {
    let mut a = Automaton::new(alloc);
    for (polarity, part) in states {
        a.state(*polarity, head(rt, alloc, *part)?)?;
    }
    if has_edge {
        assert!(rt; a.len() >= 2);
        let negative = StateId(a.len() - 2);
        let positive = StateId(a.len() - 1);
        assert!(rt; a.polarity(negative) == Negative && a.polarity(positive) == Positive);
        a.add_flow(negative, positive)?;
    }
    assert!(rt; a.is_closed() && a.is_deterministic());
    Ok(a)
}

// Whether the first state is below the second.
fn is_below(
    rt: &impl Abort,
    alloc: Global,
    states: &[(Polarity, Part)],
    has_edge: bool,
) -> Result<bool, Memory> {
    let a = automaton(rt, alloc, states, has_edge)?;
    assert!(rt; a.is_closed() && a.is_deterministic());
    let table = admissible(alloc, &a)?;
    Ok(table.has(StateId(0), StateId(1)))
}

#[test]
fn edges_and_base_types(rt: HostRuntime) -> Result<(), Fail> {
    let alloc = rt.alloc();
    let rows = [
        (Part::Nothing, Part::Nothing, true, true),
        (Part::Nothing, Part::Nothing, false, false),
        (Part::Boolean, Part::Integer, true, true),
        (Part::Boolean, Part::Boolean, false, true),
        (Part::Integer, Part::Integer, false, true),
        (Part::Boolean, Part::Integer, false, false),
        (Part::Integer, Part::Nothing, false, false),
        (Part::Empty, Part::Empty, false, true),
        (Part::Empty, Part::Nothing, false, false),
        (Part::Field(b'a', 0), Part::Empty, false, true),
        (Part::Empty, Part::Field(b'a', 1), false, false),
        (Part::Field(b'a', 0), Part::Field(b'a', 1), false, true),
        (Part::Field(b'a', 0), Part::Field(b'b', 1), false, false),
        (Part::Function(1, 0), Part::Function(0, 1), false, true),
        (Part::Function(1, 0), Part::Empty, false, false),
    ];
    for (lower, upper, has_edge, expected) in rows {
        let states = [(Negative, lower), (Positive, upper)];
        assert_eq!(rt;
            is_below(&rt, alloc, states.as_slice(), has_edge)?,
            expected
        );
    }
    Ok(())
}

#[test]
fn functions_by_their_arms(rt: HostRuntime) -> Result<(), Fail> {
    let alloc = rt.alloc();
    let rows = [
        (
            Part::Integer,
            Part::Integer,
            Part::Boolean,
            Part::Boolean,
            true,
        ),
        (
            Part::Integer,
            Part::Boolean,
            Part::Boolean,
            Part::Boolean,
            false,
        ),
        (
            Part::Integer,
            Part::Integer,
            Part::Boolean,
            Part::Integer,
            false,
        ),
        (
            Part::Field(b'a', 2),
            Part::Empty,
            Part::Boolean,
            Part::Boolean,
            false,
        ),
        (
            Part::Empty,
            Part::Field(b'a', 4),
            Part::Boolean,
            Part::Boolean,
            true,
        ),
    ];
    for (domain, other_domain, codomain, other_codomain, expected) in rows {
        let states = [
            (Negative, Part::Function(2, 3)),
            (Positive, Part::Function(4, 5)),
            (Positive, domain),
            (Negative, codomain),
            (Negative, other_domain),
            (Positive, other_codomain),
        ];
        assert_eq!(rt; is_below(&rt, alloc, states.as_slice(), false)?, expected);
    }
    Ok(())
}

#[test]
fn an_edge_below_two_records(rt: HostRuntime) -> Result<(), Fail> {
    let alloc = rt.alloc();
    let states = [
        (Negative, Part::Field(b'a', 2)),
        (Positive, Part::Field(b'a', 3)),
        (Negative, Part::Field(b'b', 4)),
        (Positive, Part::Field(b'b', 5)),
        (Negative, Part::Nothing),
        (Positive, Part::Nothing),
    ];
    assert!(rt; is_below(&rt, alloc, states.as_slice(), true)?);
    assert!(rt; !is_below(&rt, alloc, states.as_slice(), false)?);
    Ok(())
}

#[test]
fn a_table_knows_what_its_pairs_need(rt: HostRuntime) -> Result<(), Fail> {
    let alloc = rt.alloc();
    let states = [
        (Negative, Part::Field(b'a', 2)),
        (Positive, Part::Field(b'a', 3)),
        (Negative, Part::Integer),
        (Positive, Part::Integer),
    ];
    let a = automaton(&rt, alloc, states.as_slice(), false)?;
    assert!(rt; a.is_closed() && a.is_deterministic());
    assert!(rt;
        a.len() == 4 && a.polarity(StateId(0)) == Negative && a.polarity(StateId(1)) == Positive
    );
    let pair = Flow {
        negative: StateId(0),
        positive: StateId(1),
    };
    let table = admissible_among(alloc, &a, [pair].as_slice())?;
    assert!(rt; table.has(StateId(0), StateId(1)));
    assert!(rt; table.has(StateId(2), StateId(3)));
    assert!(rt; !table.has(StateId(2), StateId(1)));
    Ok(())
}

#[test]
fn edges_that_heads_say_are_left_out(rt: HostRuntime) -> Result<(), Fail> {
    let alloc = rt.alloc();
    let rows = [
        (Part::Nothing, Part::Nothing, 1),
        (Part::Boolean, Part::Boolean, 0),
        (Part::Boolean, Part::Integer, 1),
        (Part::Integer, Part::Integer, 0),
        (Part::Integer, Part::Nothing, 1),
        (Part::Empty, Part::Empty, 0),
        (Part::Empty, Part::Nothing, 1),
        (Part::Field(b'a', 0), Part::Empty, 0),
        (Part::Empty, Part::Field(b'a', 1), 1),
        (Part::Field(b'a', 0), Part::Field(b'a', 1), 0),
        (Part::Field(b'a', 0), Part::Field(b'b', 1), 1),
        (Part::Function(1, 0), Part::Function(0, 1), 0),
        (Part::Function(1, 0), Part::Empty, 1),
    ];
    for (lower, upper, expected) in rows {
        let states = [(Negative, lower), (Positive, upper)];
        let a = automaton(&rt, alloc, states.as_slice(), true)?;
        assert!(rt; a.is_closed() && a.is_deterministic());
        assert_eq!(rt; irredundant_flows(alloc, &a)?.len(), expected);
    }
    Ok(())
}
