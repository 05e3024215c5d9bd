//! A type as a list of pieces, each behind the pieces that it is made of.

use mls_book::name::Name;

/// A piece of the text of a type, with its place where a fault can stand there.
#[derive(Debug, Drop)]
pub enum Piece {
    Name(usize, Name),
    Bool,
    Int,
    Top(usize),
    Bot(usize),
    Arrow,
    Join(usize),
    Meet(usize),
    Rec(Name),
    Record,
    /// The end of the fields of a record.
    Last,
    /// A field of a record, behind its type and the fields that follow it.
    Field(usize, Name),
}

/// A piece of a type whose recursive names are replaced by numbers: `Again(k)` is the k-th `rec` around it, counted
/// from the nearest.
#[derive(Debug, Drop)]
pub enum Item {
    Variable(Name),
    Again(usize),
    Bool,
    Int,
    Top,
    Bot,
    Arrow,
    Join,
    Meet,
    Rec,
    Record,
    Last,
    Field(Name),
}

/// How many nodes the layer of a type has, and how many lie below it. A layer without a node stands for the node of the
/// `rec` around it with this number, counted from the nearest.
#[derive(Clone, Copy, Debug, PartialEq, Eq)]
pub struct Size {
    pub here: usize,
    pub under: usize,
    pub again: Option<usize>,
}

/// A piece of a type whose variables have numbers, with the sizes of the parts that it is made of.
#[derive(Debug, Drop)]
pub enum Member {
    Var(usize),
    Again(usize),
    Bool,
    Int,
    Top,
    Bot,
    Arrow(Size, Size),
    Join(Size, Size),
    Meet(Size, Size),
    Rec(Size),
    Record,
    Last,
    Field(Name, Size),
}
