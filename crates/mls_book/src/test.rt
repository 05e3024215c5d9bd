//! Finite tests, by which types are compared, and when a node passes one.
//!
//! This is the project's own account of the order of types: one type is below another exactly where the other passes
//! every test that it passes. The module [`crate::laws`] proves of it the laws of subtyping of Dolan and Mycroft,
//! Polymorphism, Subtyping, and Type Inference in MLsub, 2017.
ghost use Rattle.std.specs.Prelude.{◌≡◌, ◌<◌, ◌==◌, ◌++◌, ◌∷◌, length, [], OnOk, OnErr};
ghost use Rattle.std.specs.List.{list_any};
ghost use Rattle.mls_book.specs.Books.{IsClosed};
ghost use Rattle.mls_book.specs.Passes.{passes};

use crate::book::{Book, Node, NodeId};
use crate::name::Name;
use mls_base::memory::Memory;
use std::alloc::Global;
use std::marker::Model;

/// A finite set of variables, by a list of them. Contracts see the list.
#[derive(Drop)]
pub struct Vars {
    items: Vec<usize>,
}

impl Model for Vars {
    ghost use Rattle.std.specs.Prelude.{List, ℕ};

    ghost Value = { List ℕ };

    ghost view = { λ a. a.items.items };
}

/// A finite test of types.
#[derive(Drop)]
#[cycle(tests)]
pub struct Test {
    /// The variables that pass.
    pub vars: Vars,
    /// Whether `bool` passes.
    pub boolean: bool,
    /// Whether `int` passes.
    pub integer: bool,
    /// Which functions pass.
    pub function: FunctionPart,
    /// Which records pass.
    pub fields: RecordPart,
}

/// What a test asks of a function.
#[derive(Drop)]
#[cycle(tests)]
pub enum FunctionPart {
    /// No function passes.
    Never,
    /// Every function passes.
    Always,
    /// Those pass whose domain does not pass this test.
    Dom(Box<Test>),
    /// Those pass whose codomain passes this test.
    Cod(Box<Test>),
}

/// What a test asks of a record.
#[derive(Drop)]
#[cycle(tests)]
pub enum RecordPart {
    /// No record passes.
    Never,
    /// Every record passes.
    Always,
    /// Those pass that do not have this label.
    Lacks(Name),
    /// Those pass that do not have this label, or whose field there passes the test.
    At(Name, Box<Test>),
}

impl Model for Test {
    ghost use Rattle.mls_book.specs.Tests.{Test as AnyTest, depth};
    ghost use Rattle.mls_book.specs.steps.TestCode.{test_code};

    ghost Value = { AnyTest };

    ghost coded = { test_code };

    ghost use Rattle.mls_book.specs.TestView.{test_view};

    ghost view = { test_view };

    ghost size = { depth };

    ghost use Rattle.mls_book.specs.steps.TestFalls.{test_falls};

    ghost size_decreases = { λ a h. test_falls a };
}

impl Vars {
    /// No variable. It allocates nothing.
    pub fn new(alloc: Global) -> Vars
        ensures { result ≡ [] }
    {
        Vars {
            items: Vec::new(alloc),
        }
    }

    /// Adds a variable.
    ///
    /// # Errors
    ///
    /// `Memory` where memory is wanting; the set is then as before.
    pub fn push(&mut self, variable: usize) -> Result<(), Memory>
        ensures ok { OnOk result (self.new ≡ self.old ++ variable ∷ []) }
        ensures err { OnErr result (self.new ≡ self.old) }
    {
        self.items.push(variable)?;
        Ok(())
    }

    /// Whether a variable is there.
    pub fn has(&self, variable: usize) -> bool
        ensures { result ≡ list_any (λ y. y == variable) self.now }
    {
        self.items.iter().any(|y| *y == variable)
    }
}

/// Whether a node of a closed book passes a test. It takes no memory.
pub fn passes(book: &Book, id: NodeId, test: &Test) -> bool
    requires closed { IsClosed book.now }
    requires in_range { id.0 < length book.now }
    ensures { result ≡ (passes book.now id.0 test.now) }
{
    match book.node(id) {
        Node::Bot => false,
        Node::Top => true,
        Node::Var(variable) => test.vars.has(*variable),
        Node::Bool => test.boolean,
        Node::Int => test.integer,
        Node::Arrow(j, k) => match &test.function {
            FunctionPart::Never => false,
            FunctionPart::Always => true,
            FunctionPart::Dom(part) => !passes(book, *j, part),
            FunctionPart::Cod(part) => passes(book, *k, part),
        },
        Node::Rcd(fields) => match &test.fields {
            RecordPart::Never => false,
            RecordPart::Always => true,
            RecordPart::Lacks(label) => fields.get(label).is_none(),
            RecordPart::At(label, part) => match fields.get(label) {
                None => true,
                Some(node) => passes(book, node, part),
            },
        },
        Node::Join(j, k) => passes(book, *j, test) || passes(book, *k, test),
        Node::Meet(j, k) => passes(book, *j, test) && passes(book, *k, test),
    }
}
