//! The nodes of small types, and the walks from constraints to their types.
ghost use Rattle.std.specs.Prelude.{IfOk};
ghost use Rattle.mls_automaton.specs.Schemes.{IsScheme};

use crate::tests_of_layout::{places_of, sample, show_laid};
use mls_automaton::sample::scheme_of;
use mls_automaton::scheme::Scheme;
use mls_base::memory::Memory;
use mls_book::book::Book;
use mls_layout::layout::{LaidOut, lay_out};
use mls_layout::type_layout::lay_out_type;
use mls_layout::walk::walk_of;
use mls_solver::search::search;
use std::alloc::Global;
use std::process::Abort;
use std::test::Fail;

// The scheme of a text, which is one.
fn scheme(rt: &impl Abort, alloc: Global, text: &str) -> Result<Scheme, Memory>
    ensures { IfOk result IsScheme }
{
    match scheme_of(alloc, text)? {
        Some(scheme) => Ok(scheme),
        None => panic!(rt; "no scheme: {text}"),
    }
}

// The pairs that are met from the ends of two schemes.
fn shown_walk(
    rt: &impl Abort,
    alloc: Global,
    general: &str,
    special: &str,
) -> Result<String, Memory> {
    let general = scheme(rt, alloc, general)?;
    let special = scheme(rt, alloc, special)?;
    let walked = walk_of(alloc, &general, &special)?;
    let mut line = String::new(alloc);
    let mut space = "";
    for pair in walked.as_slice() {
        write!(line, "{space}{}:{}", pair.general.0, pair.special.0)?;
        space = " ";
    }
    Ok(line)
}

#[test]
fn walks_from_roots_and_binders(rt: HostRuntime) -> Result<(), Fail> {
    let rows = [
        ("- + +f0>1 0~1 *2", "+f1>2 - + 1~2 *0", "2:0 0:1 1:2"),
        ("+{a:1;b:2} +i + *0", "+i +{b:0;c:0} *1", "0:1 2:0"),
        ("+f>0 *0", "+f>1 +f>0 *0", "0:0 0:1"),
        ("+f>1,2 + + *0", "+ +f>0,1 *1", "0:1 1:0 1:1 2:0 2:1"),
        ("+ - - x0=1 x3=2 *0", "+ - - x1=1 x3=2 *0", "0:0 2:2"),
    ];
    for (general, special, wanted) in rows {
        let line = shown_walk(&rt, rt.alloc(), general, special)?;
        assert_eq!(rt; line.as_str(), wanted);
    }
    Ok(())
}

#[test]
fn lays_out_types(rt: HostRuntime) -> Result<(), Fail> {
    let alloc = rt.alloc();
    let rows = [
        ("+f1>2 - + 1~2 *0", "v5 bool int bot 0>0 at 4 0 0 and 3, 6"),
        (
            "- +i - 0~1 2~1 *1",
            "v5 v6 bool int bot 0|1 5|3 at 0 6 1 and 4, 7",
        ),
        ("+{a:0} - x0=1 *0", "bool int bot {a:3} top at 3 4 and 2, 5"),
    ];
    for (text, wanted) in rows {
        let scheme = scheme(&rt, alloc, text)?;
        let laid = lay_out_type(Book::new(alloc), &scheme, 5)?;
        let mut line = show_laid(alloc, &laid.book, &laid.places)?;
        write!(line, ", {}", laid.variables)?;
        assert_eq!(rt; line.as_str(), wanted);
    }
    Ok(())
}

// The nodes of the states of an automaton behind a book, where nothing is related or met.
fn laid_behind(rt: &impl Abort, alloc: Global, text: &str, book: Book) -> Result<LaidOut, Memory> {
    let a = sample(rt, alloc, text)?;
    let found = search(alloc, &a, &[])?;
    assert!(rt; book.is_closed());
    let places = places_of(alloc, &[], 0)?;
    assert!(rt; places.are_below(book.len()));
    lay_out(alloc, book, &a, &found, &[], &places)
}

// The leaves stand first, and behind them a function of the first state and a record of the third one.
fn has_own_nodes(rt: &impl Abort, laid: &LaidOut, start: usize) {
    let function = laid.function(0).map(|id| id.0);
    assert_eq!(rt; function, start.checked_add(3));
    let record = laid.record(2).map(|id| id.0);
    assert_eq!(rt; record, start.checked_add(4));
    assert!(rt; laid.function(1).is_none() && laid.record(0).is_none() && laid.record(3).is_none());
    assert_eq!(rt; laid.boolean.0, start);
    assert_eq!(rt; Some(laid.integer.0), start.checked_add(1));
}

// The functions and records of `+f1>2 - +{}` stand behind a type of one node and the leaves.
#[test]
fn names_functions_and_records(rt: HostRuntime) -> Result<(), Fail> {
    let alloc = rt.alloc();
    let book = lay_out_type(Book::new(alloc), &scheme(&rt, alloc, "+ *0")?, 0)?.book;
    let start = book.len();
    let laid = laid_behind(&rt, alloc, "+f1>2 - +{}", book)?;
    has_own_nodes(&rt, &laid, start);
    Ok(())
}
