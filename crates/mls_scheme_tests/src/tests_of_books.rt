//! Books of schemes: which tests their nodes pass.
use crate::tests_of_schemes::sample;
use mls_automaton::sample::show_automaton;
use mls_automaton::scheme::Scheme;
use mls_automaton::scheme_book::{SchemeBook, book_of};
use mls_automaton::state_set::StateId;
use mls_base::memory::Memory;
use mls_base::spelling::is_name;
use mls_book::book::NodeId;
use mls_book::name::Name;
use mls_book::test::{FunctionPart, RecordPart, Test, Vars, passes};
use std::alloc::Global;
use std::process::Abort;
use std::test::Fail;

// The scheme of `fun x -> x`.
const IDENTITY: &str = "- + +f0>1 0~1 *2";

// The test of a word such as `cod.i`, which functions pass whose codomain passes `int`. The parts of a word: a number
// is a variable that passes, `i` and `b` are `int` and `bool`, `f` is every function and `r` every record, `dom` and
// `cod` ask of a function, `no` asks that the label `l` lacks, any other name asks of that label; `-` is no more than
// nothing.
fn test_of(alloc: Global, word: &str) -> Result<Test, Memory> {
    let mut test = nothing(alloc);
    for part in word.rsplit('.') {
        test = around(alloc, test, part)?;
    }
    Ok(test)
}

fn nothing(alloc: Global) -> Test {
    Test {
        vars: Vars::new(alloc),
        boolean: false,
        integer: false,
        function: FunctionPart::Never,
        fields: RecordPart::Never,
    }
}

fn around(alloc: Global, test: Test, part: &str) -> Result<Test, Memory> {
    match part {
        "dom" => of_function(alloc, FunctionPart::Dom(Box::new(alloc, test)?)),
        "cod" => of_function(alloc, FunctionPart::Cod(Box::new(alloc, test)?)),
        "l" | "m" => at_label(alloc, test, part),
        "no" => lacking(alloc, "l"),
        _ => with(test, part),
    }
}

// What asks this of the label.
fn at_label(alloc: Global, test: Test, label: &str) -> Result<Test, Memory> {
    if is_name(label.as_bytes()) {
        let label = Name::new(alloc, label.as_bytes())?;
        return of_record(alloc, RecordPart::At(label, Box::new(alloc, test)?));
    }
    Ok(test)
}

// What asks that the label lacks.
fn lacking(alloc: Global, label: &str) -> Result<Test, Memory> {
    if is_name(label.as_bytes()) {
        let label = Name::new(alloc, label.as_bytes())?;
        return of_record(alloc, RecordPart::Lacks(label));
    }
    Ok(nothing(alloc))
}

fn of_function(alloc: Global, function: FunctionPart) -> Result<Test, Memory> {
    let mut test = nothing(alloc);
    test.function = function;
    Ok(test)
}

fn of_record(alloc: Global, fields: RecordPart) -> Result<Test, Memory> {
    let mut test = nothing(alloc);
    test.fields = fields;
    Ok(test)
}

// The test that this passes too.
fn with(test: Test, part: &str) -> Result<Test, Memory> {
    let mut test = test;
    match part {
        "i" => test.integer = true,
        "b" => test.boolean = true,
        "f" => test.function = FunctionPart::Always,
        "r" => test.fields = RecordPart::Always,
        _ => {
            if let Ok(variable) = part.parse::<usize>() {
                test.vars.push(variable)?;
            }
        }
    }
    Ok(test)
}

// The node of a binder, or that of the root for the empty name.
fn node_of(made: &SchemeBook, binder: &str) -> Option<NodeId> {
    match binder.parse::<usize>() {
        Ok(x) => made
            .env
            .as_slice()
            .iter()
            .find(|entry| entry.binder == x)
            .map(|entry| entry.node),
        Err(_) => Some(made.root),
    }
}

// Asserts whether a node passes a test.
fn assert_passes(rt: &impl Abort, made: &SchemeBook, node: NodeId, test: &Test, passing: bool) {
    assert!(rt; made.book.is_closed() && node.0 < made.book.len());
    assert_eq!(rt; passes(&made.book, node, test), passing);
}

// Asserts that a node of the scheme's book passes the test of each of these words, or of none of them.
fn all_are(
    rt: &impl Abort,
    alloc: Global,
    made: &SchemeBook,
    binder: &str,
    words: &str,
    passing: bool,
) -> Result<(), Memory> {
    let node = node_of(made, binder).unwrap_or(NodeId(made.book.len()));
    for word in words.split(' ') {
        let test = test_of(alloc, word)?;
        assert_passes(rt, made, node, &test, passing);
    }
    Ok(())
}

// The book of the scheme of a text.
fn book_of_text(rt: &impl Abort, alloc: Global, text: &str) -> Result<SchemeBook, Memory> {
    book_of(alloc, &sample(rt, alloc, text)?)
}

#[test]
fn roots_pass_tests(rt: HostRuntime) -> Result<(), Fail> {
    for (text, passing, failing) in [
        ("- + 0~1 x3=0 *1", "1 i.1", "- i.b 0.2"),
        ("+i *0", "i i.b", "- b.f.r 0"),
        (IDENTITY, "f dom.- cod.1", "cod.- dom.1 i"),
        ("+f>0 *0", "f cod.f cod.cod.f", "dom.- dom.f cod.-"),
        (
            "-f1>0 +f0>1 x2=0 *1",
            "f cod.f dom.- dom.cod.-",
            "dom.f cod.-",
        ),
        ("+f> *0", "f", "dom.- cod.i.b.f.r"),
        ("+{} *0", "r no l.-", "- i.b.f"),
        ("+i + +{l:0;m:1} *2", "r l.i", "no l.- l.b m.i.b.f.r"),
        ("- - + 0~2 1~2 x7=1 *2", "2 5", "- 3"),
        ("- + 0~1 x1=0 x2=0 *1", "1", "- 0"),
        ("-{l:1} - + 1~2 x5=0 *2", "5", "- r"),
        (
            "- - + +f0,1>2 0~2 1~2 *3",
            "cod.2 cod.6 dom.2 dom.6",
            "cod.- dom.2.6",
        ),
    ] {
        let made = book_of_text(&rt, rt.alloc(), text)?;
        all_are(&rt, rt.alloc(), &made, "", passing, true)?;
        all_are(&rt, rt.alloc(), &made, "", failing, false)?;
    }
    Ok(())
}

#[test]
fn binders_pass_tests(rt: HostRuntime) -> Result<(), Fail> {
    for (text, binder, passing, failing) in [
        ("- + 0~1 x3=0 *1", "3", "1", "- i"),
        ("-f1>0 +f0>1 x2=0 *1", "2", "f dom.- cod.f", "- dom.f cod.-"),
        ("- - + 0~2 1~2 x7=1 *2", "7", "5", "- 2"),
        ("- + 0~1 x1=0 x2=0 *1", "1", "1", "-"),
        ("- + 0~1 x1=0 x2=0 *1", "2", "1", "-"),
        ("-{l:1} - + 1~2 x5=0 *2", "5", "r l.5", "no l.-"),
    ] {
        let made = book_of_text(&rt, rt.alloc(), text)?;
        all_are(&rt, rt.alloc(), &made, binder, passing, true)?;
        all_are(&rt, rt.alloc(), &made, binder, failing, false)?;
    }
    Ok(())
}

#[test]
fn a_truncated_automaton_is_the_one_before(rt: HostRuntime) -> Result<(), Fail> {
    let mut automaton = sample(&rt, rt.alloc(), IDENTITY)?.automaton;
    for (states, row) in [(2, "- + 0~1"), (1, "-")] {
        automaton.truncate(states);
        let line = show_automaton(rt.alloc(), &automaton)?;
        assert_eq!(rt; line.as_str(), row);
    }
    assert!(rt; automaton.len() == 1 && automaton.partners(StateId(0)).is_empty());
    Ok(())
}
