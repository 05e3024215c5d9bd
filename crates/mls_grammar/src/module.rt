//! Modules, as read from their texts.

use mls_base::list::List;
use mls_book::name::Name;
pub use mls_term::term::{Part, Parts};

/// A module: its imports and its bindings, each in the order of the text.
#[derive(Debug, Drop)]
pub struct Module {
    pub imports: Imports,
    pub bindings: Bindings,
}

/// An import, with the place of the imported name.
#[derive(Debug, Drop)]
pub struct Import {
    pub name: Name,
    pub at: usize,
}

/// Imports in the order of the text.
pub type Imports = List<Import>;

/// A binding of a module, with the place of its name.
#[derive(Debug, Drop)]
pub struct Binding {
    pub name: Name,
    pub at: usize,
    pub expr: Expr,
}

/// Bindings in the order of the text.
pub type Bindings = List<Binding>;

/// An expression: its nodes in postorder, children in the order of the text, the root last. A node names its
/// children by their numbers. The operator of `a + b` comes before `a`.
#[derive(Debug, Drop)]
pub struct Expr {
    pub nodes: ExprNodes,
}

/// A node of an expression, with its place in the text in bytes.
#[derive(Debug, Drop)]
pub struct ExprNode {
    pub at: usize,
    pub form: Form,
}

/// Nodes of an expression in postorder.
pub type ExprNodes = List<ExprNode>;

/// What a node of an expression is. Numbers name child nodes.
#[derive(Debug, Drop)]
pub enum Form {
    Var(Name),
    Operator(Op),
    Number(u64),
    Truth(bool),
    Fun(Name, usize),
    Apply(usize, usize),
    Make(Parts),
    Project(usize, Name),
    If(usize, usize, usize),
    Let(Name, usize, usize),
    Rec(Name, usize),
}

/// An operator between two operands.
#[derive(Clone, Copy, Debug, PartialEq, Eq)]
pub enum Op {
    Plus,
    Minus,
    Times,
    Less,
    Equal,
}
