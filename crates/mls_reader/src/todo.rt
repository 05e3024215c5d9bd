//! What a reader of a module still has to do.
ghost use Rattle.std.specs.Prelude.{◌≡◌, MatchOption, suc};
ghost use Rattle.mls_reader.specs.steps.Todos.{part_of, word_kind, is_deep, may_be_empty, begins_expr};

use crate::piece::Piece;
use mls_lexer::token::Kind;
use std::marker::Model;

// How deep expressions may be nested.
const DEEPEST: usize = 200;

/// How many expressions lie around a part: at most 200.
#[derive(Clone, Copy)]
pub struct Depth {
    around: usize,
}

impl Model for Depth {
    ghost use Rattle.std.specs.Prelude.{ℕ, ◌≤◌};

    ghost Value = { ℕ };

    ghost view = { λ d. d.around };

    ghost invariant = { λ d. d.around ≤ 200 };

    ghost inverse = { λ n. record { around = n } };
}

impl Depth {
    /// Outside all expressions.
    pub fn outermost() -> Depth
        ensures { result ≡ 0 }
    {
        Depth { around: 0 }
    }

    /// With one expression more around, if there may be one more.
    pub fn deeper(self) -> Option<Depth>
        ensures { MatchOption result (self ≡ 200) (λ depth. depth ≡ suc self) }
    {
        if self.around == DEEPEST {
            None
        } else {
            Some(Depth {
                around: self.around + 1,
            })
        }
    }
}

/// A part of the grammar that is still to come, with the expressions that lie around it. Where a place is given, it is
/// that of the word with which the part began.
#[derive(Drop)]
pub enum PiecePart {
    Imports,
    /// The name behind `import`.
    Import,
    Bindings,
    /// What stands behind the `let` of a binding.
    BindRest,
    /// The name behind its `let rec`.
    Binding(usize),
    Expr(Depth),
    /// The name behind `fun`.
    Fun(Depth, usize),
    /// The name behind `rec`.
    Fix(Depth, usize),
    /// What stands behind the `let` of an expression.
    Let(Depth, usize),
    /// The name behind its `let rec`.
    Local(Depth, usize, usize),
    Operand(Depth, Operand),
    /// Further arguments of an application.
    Arguments(Depth, usize),
    Tail(Depth, Tail),
    /// The label of a projection.
    Label,
    /// What stands behind the opening brace of a record.
    Fields(Depth),
    /// What stands behind a part of a record.
    MoreFields(Depth),
    /// The label of a part of a record, behind a comma.
    Field(Depth),
    Word(Word),
}

/// What an operator takes.
#[derive(Clone, Copy)]
pub enum Operand {
    Sum,
    Product,
    Apply,
}

/// What may follow an operand.
#[derive(Clone, Copy)]
pub enum Tail {
    Compare,
    Sum,
    Product,
    Dots,
}

/// What may follow an atom, up to the end of the operand that it begins, or of the argument of the application at this
/// place.
#[derive(Clone, Copy)]
pub enum Follower {
    Compare,
    Sum,
    Product,
    Apply,
    Argument(usize),
}

/// A word or a symbol that has to come.
#[derive(Clone, Copy)]
pub enum Word {
    Equals,
    Arrow,
    Then,
    Else,
    In,
    ParenRight,
}

/// What is still to do: a part has to come, or a piece is told once what stands before it is over.
#[derive(Drop)]
pub enum Todo<'a> {
    Read(PiecePart),
    Tell(Piece<'a>),
}

impl PiecePart {
    /// Whether it is an expression that begins with a token of this kind, and that is nested too deep.
    pub fn is_too_deep(&self, kind: Kind) -> bool
        ensures { result ≡ is_deep (part_of self.now) kind }
    {
        match self {
            PiecePart::Expr(around) => around.deeper().is_none() && begins_expr(kind),
            _ => false,
        }
    }

    /// Whether it may be empty.
    pub fn may_be_empty(&self) -> bool
        ensures { result ≡ may_be_empty (part_of self.now) }
    {
        matches!(
            self,
            PiecePart::Imports
                | PiecePart::Bindings
                | PiecePart::Arguments(_, _)
                | PiecePart::Tail(_, _)
        )
    }
}

impl Word {
    /// The kind of the word.
    pub fn kind(self) -> Kind
        ensures { result ≡ word_kind self }
    {
        match self {
            Word::Equals => Kind::Equals,
            Word::Arrow => Kind::Arrow,
            Word::Then => Kind::WordThen,
            Word::Else => Kind::WordElse,
            Word::In => Kind::WordIn,
            Word::ParenRight => Kind::ParenRight,
        }
    }
}

// Whether an expression begins with a token of this kind.
fn begins_expr(kind: Kind) -> bool
    ensures { result ≡ begins_expr kind }
{
    matches!(
        kind,
        Kind::Name
            | Kind::Number
            | Kind::WordTrue
            | Kind::WordFalse
            | Kind::WordFun
            | Kind::WordRec
            | Kind::WordLet
            | Kind::WordIf
            | Kind::ParenLeft
            | Kind::BraceLeft
    )
}
