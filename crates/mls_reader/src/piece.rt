//! What the reader of a module tells of it, from the front of the text to its end.

use crate::spelling::Spelling;
use mls_grammar::module::Op;

/// A piece of a module, with its place. It is told once the expressions that it is made of are told.
#[derive(Debug, Drop)]
pub enum Piece<'a> {
    Name(usize, Spelling<'a>),
    Number(usize, u64),
    Truth(usize, bool),
    Fun(usize, Spelling<'a>),
    Rec(usize, Spelling<'a>),
    Let(usize, Spelling<'a>),
    If(usize),
    Apply(usize),
    Make(usize),
    Project(usize, Spelling<'a>),
    /// An operator with both of its operands before it.
    Binary(usize, Op),
    /// An operator alone, as an expression.
    Operator(usize, Op),
    /// The end of the parts of a record.
    Last,
    /// A part of a record, behind its expression and the parts that follow it.
    Field(Spelling<'a>),
    Import(usize, Spelling<'a>),
    /// A binding, behind its expression.
    Binding(usize, Spelling<'a>),
}

/// A name or a label that a module gives, with its place. A record opens before its labels, and closes behind them.
#[derive(Debug, Drop)]
pub enum Event<'a> {
    Import(usize, Spelling<'a>),
    Binding(usize, Spelling<'a>),
    Label(usize, Spelling<'a>),
    Open,
    Close,
}
