//! Tests of books, names and `passes`.
use mls_base::memory::Memory;
use mls_base::spelling::is_name;
use mls_book::book::{Book, Field, Fields, Node, NodeId};
use mls_book::name::Name;
use mls_book::test::{FunctionPart, RecordPart, Test, Vars, passes};
use std::alloc::Global;
use std::process::Abort;
use std::test::Fail;

// The function part of a test whose other parts are empty.
fn asking(alloc: Global, function: FunctionPart) -> Test {
    Test {
        vars: Vars::new(alloc),
        boolean: false,
        integer: false,
        function,
        fields: RecordPart::Never,
    }
}

// The record part of a test whose other parts are empty.
fn asking_fields(alloc: Global, fields: RecordPart) -> Test {
    Test {
        fields,
        ..asking(alloc, FunctionPart::Never)
    }
}

// The test of variable 3.
fn of_variable(alloc: Global) -> Result<Test, Memory> {
    let mut test = asking(alloc, FunctionPart::Never);
    test.vars.push(3)?;
    Ok(test)
}

fn of_domain(alloc: Global, inner: Test) -> Result<Test, Memory> {
    let inner = Box::new(alloc, inner)?;
    Ok(asking(alloc, FunctionPart::Dom(inner)))
}

// The test of an integer.
fn of_integer(alloc: Global) -> Test {
    Test {
        integer: true,
        ..asking(alloc, FunctionPart::Never)
    }
}

fn lacking(rt: &impl Abort, alloc: Global, label: &[u8]) -> Result<Test, Memory> {
    let label = named(rt, alloc, label)?;
    Ok(asking_fields(alloc, RecordPart::Lacks(label)))
}

fn at(rt: &impl Abort, alloc: Global, label: &[u8], inner: Test) -> Result<Test, Memory> {
    let inner = Box::new(alloc, inner)?;
    let label = named(rt, alloc, label)?;
    Ok(asking_fields(alloc, RecordPart::At(label, inner)))
}

// The name of these bytes.
fn named(rt: &impl Abort, alloc: Global, bytes: &[u8]) -> Result<Name, Memory> {
    assert!(rt; is_name(bytes));
    Name::new(alloc, bytes)
}

// Whether the node of this number passes a test.
fn is_passed(rt: &impl Abort, book: &Book, id: usize, test: &Test) -> bool {
    assert!(rt; book.is_closed() && id < book.len());
    passes(book, NodeId(id), test)
}

// `top`, `bot`, a function from the first to the second, variable 3, and its join with `bot`.
fn functions(alloc: Global) -> Result<Book, Memory> {
    let mut book = Book::new(alloc);
    let top = book.push(Node::Top)?;
    let bot = book.push(Node::Bot)?;
    book.push(Node::Arrow(top, bot))?;
    let variable = book.push(Node::Var(3))?;
    book.push(Node::Join(bot, variable))?;
    Ok(book)
}

#[test]
fn functions_pass_by_their_domain_and_codomain(rt: HostRuntime) -> Result<(), Fail> {
    let alloc = rt.alloc();
    let book = functions(alloc)?;
    assert!(rt; book.len() == 5);
    let always = asking(alloc, FunctionPart::Always);
    assert!(rt; is_passed(&rt, &book, 2, &always) && !is_passed(&rt, &book, 1, &always));
    let inner = of_variable(alloc)?;
    assert!(rt; is_passed(&rt, &book, 4, &inner));
    let domain = of_domain(alloc, inner)?;
    assert!(rt; !is_passed(&rt, &book, 2, &domain));
    Ok(())
}

fn add_field(
    rt: &impl Abort,
    alloc: Global,
    fields: &mut Fields,
    label: &[u8],
    node: usize,
) -> Result<(), Memory> {
    let label = named(rt, alloc, label)?;
    fields.push(Field {
        label,
        node: NodeId(node),
    })
}

// A stream of integers: a record that is its own field `next`, and an integer.
fn stream(rt: &impl Abort, alloc: Global) -> Result<Book, Memory> {
    let mut fields = Fields::new(alloc);
    add_field(rt, alloc, &mut fields, b"next", 0)?;
    add_field(rt, alloc, &mut fields, b"now", 1)?;
    let mut book = Book::new(alloc);
    let record = Node::Rcd(fields);
    assert!(rt; book.is_empty() && book.can_push(&record));
    book.push(record)?;
    book.push(Node::Int)?;
    Ok(book)
}

#[test]
fn records_pass_by_their_fields(rt: HostRuntime) -> Result<(), Fail> {
    let alloc = rt.alloc();
    let book = stream(&rt, alloc)?;
    let lacks = lacking(&rt, alloc, b"now")?;
    assert!(rt; !is_passed(&rt, &book, 0, &lacks));
    let inside = at(&rt, alloc, b"next", lacks)?;
    assert!(rt; !is_passed(&rt, &book, 0, &inside));
    let integer = at(&rt, alloc, b"now", of_integer(alloc))?;
    assert!(rt; is_passed(&rt, &book, 0, &integer));
    Ok(())
}

#[test]
fn names_are_ordered_by_bytes(rt: HostRuntime) -> Result<(), Fail> {
    let next = named(&rt, rt.alloc(), b"next")?;
    let now = named(&rt, rt.alloc(), b"now")?;
    assert!(rt; next < now && next == next.clone()?);
    Ok(())
}
