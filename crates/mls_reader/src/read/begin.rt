//! How each part of a module begins: the token is read as its first, and what is left to come is put on the stack.
ghost use Rattle.std.specs.Prelude.{◌≡◌, ℕ, List, false, IfOk, OnOk, slice_range};
ghost use Rattle.mls_lexer.specs.Tokens.{IsToken, terminal, terminal_of};
ghost use Rattle.mls_reader.specs.steps.PieceMachine.{a};
ghost use Rattle.mls_reader.specs.steps.PieceMachine.{acts, atom_acts, imports_acts, import_acts, bindings_acts};
ghost use Rattle.mls_reader.specs.steps.PieceMachine.{bind_rest_acts, binding_acts, expr_acts, fun_acts, fix_acts};
ghost use Rattle.mls_reader.specs.steps.PieceMachine.{let_acts, local_acts, compare_tail_acts, sum_tail_acts};
ghost use Rattle.mls_reader.specs.steps.PieceMachine.{product_tail_acts, dots_acts, label_acts, parts_acts};
ghost use Rattle.mls_reader.specs.steps.PieceMachine.{more_parts_acts, part_acts};
ghost use Rattle.mls_reader.specs.steps.Todos.{part_of, follower_row, operand_sort, tail_sort, is_deep};
ghost use Rattle.mls_reader.specs.steps.PieceReaders.{if_row, name_in, leaf, Acted, PutsRow};

use super::ModuleReader;
use crate::piece::{Event, Piece};
use crate::spelling::Spelling;
use crate::todo::{Depth, Follower, Operand, PiecePart, Tail, Todo, Word};
use mls_base::memory::Memory;
use mls_grammar::module::Op;
use mls_lexer::number::number_of;
use mls_lexer::token::{Kind, Token};

// The name that the token is, if it is one.
fn name_at(text: &[u8], token: Token) -> Option<Spelling<'_>>
    requires { IsToken text.now token }
    ensures { result ≡ name_in (terminal text.now token) }
{
    if token.kind != Kind::Name {
        return None;
    }
    Some(name_of(text, token))
}

// The name that the token is.
fn name_of(text: &[u8], token: Token) -> Spelling<'_>
    requires of_text { IsToken text.now token }
    requires is_name { token.kind ≡ Kind.Name }
    ensures { result ≡ slice_range text.now token.start token.end }
{
    Spelling::new(&text[token.start..token.end])
}

// The piece that the token tells as an atom alone, if it is one.
fn leaf_at(text: &[u8], token: Token) -> Option<Piece<'_>>
    requires { IsToken text.now token }
    ensures { result ≡ leaf token.start (terminal text.now token) }
{
    match token.kind {
        Kind::Name => Some(Piece::Name(token.start, name_of(text, token))),
        Kind::Number => Some(Piece::Number(token.start, number_of(text, &token))),
        Kind::WordTrue => Some(Piece::Truth(token.start, true)),
        Kind::WordFalse => Some(Piece::Truth(token.start, false)),
        _ => None,
    }
}

impl<'a> ModuleReader<'a> {
    // Reads the token as the first of the part, if it is one.
    pub fn begin(&mut self, text: &'a [u8], token: Token, part: PiecePart) -> Result<bool, Memory>
        requires of_text { IsToken text.now token }
        requires shallow { is_deep (part_of part) token.kind ≡ false }
        ensures { IfOk result (λ begun. Acted (acts (part_of part) token.start (terminal text.now token)) self.old
            self.new begun) }
    {
        match part {
            PiecePart::Imports => self.begin_imports(token.kind),
            PiecePart::Import => self.begin_import(text, token),
            PiecePart::Bindings => self.begin_bindings(token.kind),
            PiecePart::BindRest => self.begin_bind_rest(text, token),
            PiecePart::Binding(rec_at) => self.begin_binding(text, token, rec_at),
            PiecePart::Expr(around) => match around.deeper() {
                Some(depth) => self.begin_expr(text, token, depth),
                None => Ok(false),
            },
            PiecePart::Fun(around, at) => self.begin_fun(text, token, around, at),
            PiecePart::Fix(around, at) => self.begin_fix(text, token, around, at),
            PiecePart::Let(around, at) => self.begin_let(text, token, around, at),
            PiecePart::Local(around, at, rec_at) => {
                self.begin_local(text, token, around, at, rec_at)
            }
            PiecePart::Operand(around, operand) => {
                self.begin_operand(text, token, around, operand)
            }
            PiecePart::Arguments(around, at) => {
                self.begin_atom(text, token, around, Follower::Argument(at))
            }
            PiecePart::Tail(around, tail) => self.begin_tail(token, around, tail),
            PiecePart::Label => self.begin_label(text, token),
            PiecePart::Fields(around) => self.begin_fields(text, token, around),
            PiecePart::MoreFields(around) => self.begin_more_fields(token.kind, around),
            PiecePart::Field(around) => self.begin_field(text, token, around),
            PiecePart::Word(word) => Ok(token.kind == word.kind()),
        }
    }

    // Reads the token as the first of the imports of a module, if it is one.
    fn begin_imports(&mut self, kind: Kind) -> Result<bool, Memory>
        ensures { IfOk result (λ begun. (bytes : List ℕ)
            → Acted (imports_acts 0 (terminal_of kind bytes)) self.old self.new begun) }
    {
        if kind != Kind::WordImport {
            return Ok(false);
        }
        self.put(Todo::Read(PiecePart::Imports))?;
        self.put(Todo::Read(PiecePart::Import))?;
        Ok(true)
    }

    // Reads the token as the name of an import, if it is one.
    fn begin_import(&mut self, text: &'a [u8], token: Token) -> Result<bool, Memory>
        requires { IsToken text.now token }
        ensures { IfOk result (λ begun. Acted (import_acts token.start (terminal text.now token)) self.old self.new
            begun) }
    {
        let Some(name) = name_at(text, token) else {
            return Ok(false);
        };
        self.events.push(Event::Import(token.start, name.again()))?;
        self.pieces.push(Piece::Import(token.start, name))?;
        Ok(true)
    }

    // Reads the token as the first of the bindings of a module, if it is one.
    fn begin_bindings(&mut self, kind: Kind) -> Result<bool, Memory>
        ensures { IfOk result (λ begun. (bytes : List ℕ)
            → Acted (bindings_acts 0 (terminal_of kind bytes)) self.old self.new begun) }
    {
        if kind != Kind::WordLet {
            return Ok(false);
        }
        self.put(Todo::Read(PiecePart::BindRest))?;
        Ok(true)
    }

    // Reads the token as the first of what stands behind the `let` of a binding, if it is one.
    fn begin_bind_rest(&mut self, text: &'a [u8], token: Token) -> Result<bool, Memory>
        requires { IsToken text.now token }
        ensures { IfOk result (λ begun. Acted (bind_rest_acts 0 token.start (terminal text.now token)) self.old self.new
            begun) }
    {
        match token.kind {
            Kind::Name => {
                let name = name_of(text, token);
                self.events.push(Event::Binding(token.start, name.again()))?;
                self.put(Todo::Read(PiecePart::Bindings))?;
                self.put(Todo::Tell(Piece::Binding(token.start, name)))?;
                self.put(Todo::Read(PiecePart::Expr(Depth::outermost())))?;
                self.put(Todo::Read(PiecePart::Word(Word::Equals)))?;
                Ok(true)
            }
            Kind::WordRec => {
                self.put(Todo::Read(PiecePart::Binding(token.start)))?;
                Ok(true)
            }
            _ => Ok(false),
        }
    }

    // Reads the token as the name behind `let rec`, if it is one; the `rec` has this place.
    fn begin_binding(&mut self, text: &'a [u8], token: Token, rec_at: usize) -> Result<bool, Memory>
        requires { IsToken text.now token }
        ensures { IfOk result (λ begun. Acted (binding_acts 0 rec_at token.start (terminal text.now token)) self.old
            self.new begun) }
    {
        let Some(name) = name_at(text, token) else {
            return Ok(false);
        };
        self.events.push(Event::Binding(token.start, name.again()))?;
        self.put(Todo::Read(PiecePart::Bindings))?;
        self.put(Todo::Tell(Piece::Binding(token.start, name.again())))?;
        self.put(Todo::Tell(Piece::Rec(rec_at, name)))?;
        self.put(Todo::Read(PiecePart::Expr(Depth::outermost())))?;
        self.put(Todo::Read(PiecePart::Word(Word::Equals)))?;
        Ok(true)
    }

    // Reads the token as the first of an expression, if it is one.
    fn begin_expr(&mut self, text: &'a [u8], token: Token, depth: Depth) -> Result<bool, Memory>
        requires { IsToken text.now token }
        ensures { IfOk result (λ begun. Acted (expr_acts depth token.start (terminal text.now token)) self.old self.new
            begun) }
    {
        match token.kind {
            Kind::WordFun => {
                self.put(Todo::Read(PiecePart::Fun(depth, token.start)))?;
                Ok(true)
            }
            Kind::WordRec => {
                self.put(Todo::Read(PiecePart::Fix(depth, token.start)))?;
                Ok(true)
            }
            Kind::WordLet => {
                self.put(Todo::Read(PiecePart::Let(depth, token.start)))?;
                Ok(true)
            }
            Kind::WordIf => {
                self.put_if(token.start, depth)?;
                Ok(true)
            }
            _ => self.begin_atom(text, token, depth, Follower::Compare),
        }
    }

    // Puts on the stack what stands behind an `if` with this place.
    fn put_if(&mut self, at: usize, depth: Depth) -> Result<(), Memory>
        ensures { OnOk result (PutsRow (if_row depth at) self.old self.new) }
    {
        self.put(Todo::Tell(Piece::If(at)))?;
        self.put(Todo::Read(PiecePart::Expr(depth)))?;
        self.put(Todo::Read(PiecePart::Word(Word::Else)))?;
        self.put(Todo::Read(PiecePart::Expr(depth)))?;
        self.put(Todo::Read(PiecePart::Word(Word::Then)))?;
        self.put(Todo::Read(PiecePart::Expr(depth)))
    }

    // Reads the token as the name behind a `fun` with this place, if it is one.
    fn begin_fun(
        &mut self,
        text: &'a [u8],
        token: Token,
        around: Depth,
        at: usize,
    ) -> Result<bool, Memory>
        requires { IsToken text.now token }
        ensures { IfOk result (λ begun. Acted (fun_acts around at (terminal text.now token)) self.old self.new begun) }
    {
        let Some(name) = name_at(text, token) else {
            return Ok(false);
        };
        self.put(Todo::Tell(Piece::Fun(at, name)))?;
        self.put(Todo::Read(PiecePart::Expr(around)))?;
        self.put(Todo::Read(PiecePart::Word(Word::Arrow)))?;
        Ok(true)
    }

    // Reads the token as the name behind a `rec` with this place, if it is one.
    fn begin_fix(
        &mut self,
        text: &'a [u8],
        token: Token,
        around: Depth,
        at: usize,
    ) -> Result<bool, Memory>
        requires { IsToken text.now token }
        ensures { IfOk result (λ begun. Acted (fix_acts around at (terminal text.now token)) self.old self.new begun) }
    {
        let Some(name) = name_at(text, token) else {
            return Ok(false);
        };
        self.put(Todo::Tell(Piece::Rec(at, name)))?;
        self.put(Todo::Read(PiecePart::Expr(around)))?;
        self.put(Todo::Read(PiecePart::Word(Word::Arrow)))?;
        Ok(true)
    }

    // Reads the token as the first of what stands behind a `let` with this place, if it is one.
    fn begin_let(
        &mut self,
        text: &'a [u8],
        token: Token,
        around: Depth,
        at: usize,
    ) -> Result<bool, Memory>
        requires { IsToken text.now token }
        ensures { IfOk result (λ begun. Acted (let_acts around at token.start (terminal text.now token)) self.old
            self.new begun) }
    {
        match token.kind {
            Kind::Name => {
                let name = name_of(text, token);
                self.put(Todo::Tell(Piece::Let(at, name)))?;
                self.put(Todo::Read(PiecePart::Expr(around)))?;
                self.put(Todo::Read(PiecePart::Word(Word::In)))?;
                self.put(Todo::Read(PiecePart::Expr(around)))?;
                self.put(Todo::Read(PiecePart::Word(Word::Equals)))?;
                Ok(true)
            }
            Kind::WordRec => {
                self.put(Todo::Read(PiecePart::Local(around, at, token.start)))?;
                Ok(true)
            }
            _ => Ok(false),
        }
    }

    // Reads the token as the name behind `let rec`, if it is one; the words have these places.
    fn begin_local(
        &mut self,
        text: &'a [u8],
        token: Token,
        around: Depth,
        at: usize,
        rec_at: usize,
    ) -> Result<bool, Memory>
        requires { IsToken text.now token }
        ensures { IfOk result (λ begun. Acted (local_acts around at rec_at (terminal text.now token)) self.old self.new
            begun) }
    {
        let Some(name) = name_at(text, token) else {
            return Ok(false);
        };
        self.put(Todo::Tell(Piece::Let(at, name.again())))?;
        self.put(Todo::Read(PiecePart::Expr(around)))?;
        self.put(Todo::Read(PiecePart::Word(Word::In)))?;
        self.put(Todo::Tell(Piece::Rec(rec_at, name)))?;
        self.put(Todo::Read(PiecePart::Expr(around)))?;
        self.put(Todo::Read(PiecePart::Word(Word::Equals)))?;
        Ok(true)
    }

    // Reads the token as the first of an operand of an operator, if it is one.
    fn begin_operand(
        &mut self,
        text: &'a [u8],
        token: Token,
        around: Depth,
        operand: Operand,
    ) -> Result<bool, Memory>
        requires { IsToken text.now token }
        ensures { IfOk result (λ begun. Acted (acts (a around (operand_sort operand)) token.start
            (terminal text.now token)) self.old self.new begun) }
    {
        match operand {
            Operand::Sum => self.begin_atom(text, token, around, Follower::Sum),
            Operand::Product => self.begin_atom(text, token, around, Follower::Product),
            Operand::Apply => self.begin_atom(text, token, around, Follower::Apply),
        }
    }

    // Reads the token as the first of what may follow an operand, if it is one.
    fn begin_tail(&mut self, token: Token, around: Depth, tail: Tail) -> Result<bool, Memory>
        ensures { IfOk result (λ begun. (bytes : List ℕ)
            → Acted (acts (a around (tail_sort tail)) token.start (terminal_of token.kind bytes)) self.old self.new
            begun) }
    {
        match tail {
            Tail::Compare => self.begin_compare_tail(token, around),
            Tail::Sum => self.begin_sum_tail(token, around),
            Tail::Product => self.begin_product_tail(token, around),
            Tail::Dots => self.begin_dots(token.kind, around),
        }
    }

    // Reads the token as the first of a comparison, if it is one.
    fn begin_compare_tail(&mut self, token: Token, around: Depth) -> Result<bool, Memory>
        ensures { IfOk result (λ begun. (bytes : List ℕ)
            → Acted (compare_tail_acts around token.start (terminal_of token.kind bytes)) self.old self.new begun) }
    {
        match token.kind {
            Kind::Less => {
                self.put(Todo::Tell(Piece::Binary(token.start, Op::Less)))?;
                self.put(Todo::Read(PiecePart::Operand(around, Operand::Sum)))?;
                Ok(true)
            }
            Kind::DoubleEquals => {
                self.put(Todo::Tell(Piece::Binary(token.start, Op::Equal)))?;
                self.put(Todo::Read(PiecePart::Operand(around, Operand::Sum)))?;
                Ok(true)
            }
            _ => Ok(false),
        }
    }

    // Reads the token as the first of a further summand, if it is one.
    fn begin_sum_tail(&mut self, token: Token, around: Depth) -> Result<bool, Memory>
        ensures { IfOk result (λ begun. (bytes : List ℕ)
            → Acted (sum_tail_acts around token.start (terminal_of token.kind bytes)) self.old self.new begun) }
    {
        match token.kind {
            Kind::Plus => {
                self.put(Todo::Read(PiecePart::Tail(around, Tail::Sum)))?;
                self.put(Todo::Tell(Piece::Binary(token.start, Op::Plus)))?;
                self.put(Todo::Read(PiecePart::Operand(around, Operand::Product)))?;
                Ok(true)
            }
            Kind::Minus => {
                self.put(Todo::Read(PiecePart::Tail(around, Tail::Sum)))?;
                self.put(Todo::Tell(Piece::Binary(token.start, Op::Minus)))?;
                self.put(Todo::Read(PiecePart::Operand(around, Operand::Product)))?;
                Ok(true)
            }
            _ => Ok(false),
        }
    }

    // Reads the token as the first of a further factor, if it is one.
    fn begin_product_tail(&mut self, token: Token, around: Depth) -> Result<bool, Memory>
        ensures { IfOk result (λ begun. (bytes : List ℕ)
            → Acted (product_tail_acts around token.start (terminal_of token.kind bytes)) self.old self.new begun) }
    {
        if token.kind != Kind::Star {
            return Ok(false);
        }
        self.put(Todo::Read(PiecePart::Tail(around, Tail::Product)))?;
        self.put(Todo::Tell(Piece::Binary(token.start, Op::Times)))?;
        self.put(Todo::Read(PiecePart::Operand(around, Operand::Apply)))?;
        Ok(true)
    }

    // Reads the token as the first of a further projection, if it is one.
    fn begin_dots(&mut self, kind: Kind, around: Depth) -> Result<bool, Memory>
        ensures { IfOk result (λ begun. (bytes : List ℕ)
            → Acted (dots_acts around (terminal_of kind bytes)) self.old self.new begun) }
    {
        if kind != Kind::Dot {
            return Ok(false);
        }
        self.put(Todo::Read(PiecePart::Tail(around, Tail::Dots)))?;
        self.put(Todo::Read(PiecePart::Label))?;
        Ok(true)
    }

    // Reads the token as the label of a projection, if it is one.
    fn begin_label(&mut self, text: &'a [u8], token: Token) -> Result<bool, Memory>
        requires { IsToken text.now token }
        ensures { IfOk result (λ begun. Acted (label_acts token.start (terminal text.now token)) self.old self.new
            begun) }
    {
        let Some(name) = name_at(text, token) else {
            return Ok(false);
        };
        self.pieces.push(Piece::Project(token.start, name))?;
        Ok(true)
    }

    // Reads the token as the first of what stands behind the opening brace of a record, if it is one.
    fn begin_fields(&mut self, text: &'a [u8], token: Token, around: Depth) -> Result<bool, Memory>
        requires { IsToken text.now token }
        ensures { IfOk result (λ begun. Acted (parts_acts around token.start (terminal text.now token)) self.old
            self.new begun) }
    {
        if token.kind == Kind::BraceRight {
            self.events.push(Event::Close)?;
            self.pieces.push(Piece::Last)?;
            return Ok(true);
        }
        self.begin_field(text, token, around)
    }

    // Reads the token as the first of what stands behind a part of a record, if it is one.
    fn begin_more_fields(&mut self, kind: Kind, around: Depth) -> Result<bool, Memory>
        ensures { IfOk result (λ begun. (bytes : List ℕ)
            → Acted (more_parts_acts around (terminal_of kind bytes)) self.old self.new begun) }
    {
        match kind {
            Kind::BraceRight => {
                self.events.push(Event::Close)?;
                self.pieces.push(Piece::Last)?;
                Ok(true)
            }
            Kind::Comma => {
                self.put(Todo::Read(PiecePart::Field(around)))?;
                Ok(true)
            }
            _ => Ok(false),
        }
    }

    // Reads the token as the label of a part of a record, if it is one.
    fn begin_field(&mut self, text: &'a [u8], token: Token, around: Depth) -> Result<bool, Memory>
        requires { IsToken text.now token }
        ensures { IfOk result (λ begun. Acted (part_acts around token.start (terminal text.now token)) self.old self.new
            begun) }
    {
        let Some(name) = name_at(text, token) else {
            return Ok(false);
        };
        self.events.push(Event::Label(token.start, name.again()))?;
        self.put(Todo::Tell(Piece::Field(name)))?;
        self.put(Todo::Read(PiecePart::MoreFields(around)))?;
        self.put(Todo::Read(PiecePart::Expr(around)))?;
        self.put(Todo::Read(PiecePart::Word(Word::Equals)))?;
        Ok(true)
    }

    // Reads the token as the first of an atom, if it is one; this may follow the atom.
    fn begin_atom(
        &mut self,
        text: &'a [u8],
        token: Token,
        around: Depth,
        follower: Follower,
    ) -> Result<bool, Memory>
        requires { IsToken text.now token }
        ensures { IfOk result (λ begun. Acted (atom_acts around (follower_row around token.start follower) token.start
            (terminal text.now token)) self.old self.new begun) }
    {
        if let Some(piece) = leaf_at(text, token) {
            self.put_follower(around, token.start, follower)?;
            self.pieces.push(piece)?;
            return Ok(true);
        }
        match token.kind {
            Kind::ParenLeft => {
                self.put_follower(around, token.start, follower)?;
                self.put(Todo::Read(PiecePart::Word(Word::ParenRight)))?;
                self.put(Todo::Read(PiecePart::Expr(around)))?;
                Ok(true)
            }
            Kind::BraceLeft => {
                self.events.push(Event::Open)?;
                self.put_follower(around, token.start, follower)?;
                self.put(Todo::Tell(Piece::Make(token.start)))?;
                self.put(Todo::Read(PiecePart::Fields(around)))?;
                Ok(true)
            }
            _ => Ok(false),
        }
    }

    // Puts on the stack what may follow an atom with this place, the next one last.
    #[inline(always)]
    fn put_follower(&mut self, around: Depth, at: usize, follower: Follower) -> Result<(), Memory>
        ensures { OnOk result (PutsRow (follower_row around at follower) self.old self.new) }
    {
        match follower {
            Follower::Compare => {
                self.put(Todo::Read(PiecePart::Tail(around, Tail::Compare)))?;
                self.put(Todo::Read(PiecePart::Tail(around, Tail::Sum)))?;
                self.put(Todo::Read(PiecePart::Tail(around, Tail::Product)))?;
                self.put(Todo::Read(PiecePart::Arguments(around, at)))?;
            }
            Follower::Sum => {
                self.put(Todo::Read(PiecePart::Tail(around, Tail::Sum)))?;
                self.put(Todo::Read(PiecePart::Tail(around, Tail::Product)))?;
                self.put(Todo::Read(PiecePart::Arguments(around, at)))?;
            }
            Follower::Product => {
                self.put(Todo::Read(PiecePart::Tail(around, Tail::Product)))?;
                self.put(Todo::Read(PiecePart::Arguments(around, at)))?;
            }
            Follower::Apply => self.put(Todo::Read(PiecePart::Arguments(around, at)))?,
            Follower::Argument(apply_at) => {
                self.put(Todo::Read(PiecePart::Arguments(around, apply_at)))?;
                self.put(Todo::Tell(Piece::Apply(apply_at)))?;
            }
        }
        self.put(Todo::Read(PiecePart::Tail(around, Tail::Dots)))
    }
}
