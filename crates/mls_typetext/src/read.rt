//! The tokens of a type, read from the front to the pieces that they tell.
ghost use Rattle.std.specs.Prelude.{◌≡◌, ◌≤◌, ℕ, true, List, All, IfOk, OnOk, slice_range};
ghost use Rattle.mls_lexer.specs.Tokens.{IsToken, terminal, terminal_of};
ghost use Rattle.mls_lexer.specs.steps.Placed.{placed};
ghost use Rattle.mls_typetext.specs.steps.PieceMachine.{a, the_field, the_rec, acts, atom_acts, advance, last_told};
ghost use Rattle.mls_typetext.specs.steps.PieceMachine.{told_of};
ghost use Rattle.mls_typetext.specs.Phrases.{whole, codomain, join, join_tail, meet, meet_tail, fields, more_fields};
ghost use Rattle.mls_typetext.specs.steps.PieceReaders.{part_of, stack_of, Acted, IsByKind, Puts, Tells, IsNew};
ghost use Rattle.mls_typetext.specs.steps.PieceReaders.{state_of};

use crate::piece::Piece;
use mls_base::memory::Memory;
use mls_book::name::Name;
use mls_lexer::token::{Kind, Token};
use std::alloc::Global;

// A part of a type that is still to come. A binder is the name behind `rec`, and a label the one behind a comma.
#[derive(Clone, Copy)]
enum PiecePart {
    Whole,
    Codomain,
    Join,
    JoinTail,
    Meet,
    MeetTail,
    Atom,
    Fields,
    MoreFields,
    Binder,
    Label,
    Dot,
    Colon,
    ParenRight,
}

// What is still to do: a part has to come, or a piece is told once what stands before it is over.
#[derive(Drop)]
enum Todo {
    Read(PiecePart),
    Tell(Piece),
}

// What is still to do, the next last, and what was told so far.
#[derive(Drop)]
struct PieceReader {
    stack: Vec<Todo>,
    pieces: Vec<Piece>,
}

/// The pieces of the tree of the type that these tokens are, each behind its parts. It takes no recursion. Of tokens
/// that are no type it tells something.
pub fn read_pieces(alloc: Global, text: &[u8], tokens: &[Token]) -> Result<Vec<Piece>, Memory>
    requires { All (IsToken text.now) tokens.now }
    ensures { IfOk result (λ pieces. pieces.items ≡ told_of (placed text.now tokens.now)) }
{
    let mut reader = PieceReader::new(alloc, tokens.len())?;
    for token in tokens {
        reader.read_token(alloc, text, *token)?;
    }
    reader.finish()
}

// The name that the token is.
fn name_of(alloc: Global, text: &[u8], token: Token) -> Result<Name, Memory>
    requires of_text { IsToken text.now token }
    requires is_name { token.kind ≡ Kind.Name }
    ensures { IfOk result (λ name. name ≡ slice_range text.now token.start token.end) }
{
    Name::new(alloc, &text[token.start..token.end])
}

impl PieceReader {
    // A reader before the first of so many tokens. Most of them tell one piece or less.
    fn new(alloc: Global, tokens: usize) -> Result<PieceReader, Memory>
        ensures { IfOk result IsNew }
    {
        let mut stack = Vec::new(alloc);
        stack.push(Todo::Read(PiecePart::Whole))?;
        Ok(PieceReader {
            stack,
            pieces: Vec::with_capacity(alloc, tokens)?,
        })
    }

    // Reads one token: tells what is over before it, and puts what is left to come behind it on the stack.
    fn read_token(&mut self, alloc: Global, text: &[u8], token: Token) -> Result<(), Memory>
        requires { IsToken text.now token }
        ensures { OnOk result (state_of self.new
            ≡ advance token.start (terminal text.now token) (stack_of self.old.stack.items) self.old.pieces.items) }
    {
        while let Some(todo) = self.stack.pop() {
            match todo {
                Todo::Tell(piece) => self.pieces.push(piece)?,
                Todo::Read(part) => {
                    if self.begin(alloc, text, token, part)? {
                        return Ok(());
                    }
                }
            }
        }
        Ok(())
    }

    // Tells what is left to tell behind the last token.
    fn finish(self) -> Result<Vec<Piece>, Memory>
        ensures { IfOk result (λ pieces. pieces.items ≡ last_told (stack_of self.stack.items) self.pieces.items) }
    {
        let PieceReader {
            mut stack,
            mut pieces,
        } = self;
        while let Some(todo) = stack.pop() {
            if let Todo::Tell(piece) = todo {
                pieces.push(piece)?;
            }
        }
        Ok(pieces)
    }

    // Puts a row on the stack, the next one last.
    #[inline(always)]
    fn put<const N: usize>(&mut self, row: [Todo; N]) -> Result<(), Memory>
        requires { N ≤ 5 }
        ensures { OnOk result (Puts row.entry self.old self.new) }
    {
        for todo in row {
            self.stack.push(todo)?;
        }
        Ok(())
    }

    // Reads the token as the first of the part, if it is one.
    fn begin(
        &mut self,
        alloc: Global,
        text: &[u8],
        token: Token,
        part: PiecePart,
    ) -> Result<bool, Memory>
        requires { IsToken text.now token }
        ensures { IfOk result (λ begun. Acted (acts (part_of part) token.start (terminal text.now token)) self.old
            self.new begun) }
    {
        match part {
            PiecePart::Whole => self.begin_whole(alloc, text, token),
            PiecePart::Join => self.begin_join(alloc, text, token),
            PiecePart::Meet => self.begin_meet(alloc, text, token),
            PiecePart::Atom => self.begin_atom(alloc, text, token, []),
            PiecePart::Fields => self.begin_fields(alloc, text, token),
            PiecePart::Binder => self.begin_binder(alloc, text, token),
            PiecePart::Label => self.begin_label(alloc, text, token),
            PiecePart::Codomain
            | PiecePart::JoinTail
            | PiecePart::MeetTail
            | PiecePart::MoreFields
            | PiecePart::Dot
            | PiecePart::Colon
            | PiecePart::ParenRight => self.begin_by_kind(token, part),
        }
    }

    // Reads the token as the first of a part that begins with no name, if it is one.
    fn begin_by_kind(&mut self, token: Token, part: PiecePart) -> Result<bool, Memory>
        requires { IsByKind part }
        ensures { IfOk result (λ begun. (bytes : List ℕ)
            → Acted (acts (part_of part) token.start (terminal_of token.kind bytes)) self.old self.new begun) }
    {
        match part {
            PiecePart::Codomain => self.begin_codomain(token),
            PiecePart::JoinTail => self.begin_join_tail(token),
            PiecePart::MeetTail => self.begin_meet_tail(token),
            PiecePart::MoreFields => self.begin_more_fields(token),
            PiecePart::Dot => Ok(token.kind == Kind::Dot),
            PiecePart::Colon => Ok(token.kind == Kind::Colon),
            PiecePart::ParenRight => Ok(token.kind == Kind::ParenRight),
            _ => Ok(false),
        }
    }

    // Reads the token as the first of a whole type, if it is one.
    fn begin_whole(&mut self, alloc: Global, text: &[u8], token: Token) -> Result<bool, Memory>
        requires { IsToken text.now token }
        ensures { IfOk result (λ begun. Acted (acts (a whole) token.start (terminal text.now token)) self.old self.new
            begun) }
    {
        if token.kind == Kind::WordRec {
            self.put([Todo::Read(PiecePart::Binder)])?;
            return Ok(true);
        }
        let row = [
            Todo::Read(PiecePart::Codomain),
            Todo::Read(PiecePart::JoinTail),
            Todo::Read(PiecePart::MeetTail),
        ];
        self.begin_atom(alloc, text, token, row)
    }

    // Reads the token as the first of the operands of `|`, if it is one.
    fn begin_join(&mut self, alloc: Global, text: &[u8], token: Token) -> Result<bool, Memory>
        requires { IsToken text.now token }
        ensures { IfOk result (λ begun. Acted (acts (a join) token.start (terminal text.now token)) self.old self.new
            begun) }
    {
        let row = [
            Todo::Read(PiecePart::JoinTail),
            Todo::Read(PiecePart::MeetTail),
        ];
        self.begin_atom(alloc, text, token, row)
    }

    // Reads the token as the first of the operands of `&`, if it is one.
    fn begin_meet(&mut self, alloc: Global, text: &[u8], token: Token) -> Result<bool, Memory>
        requires { IsToken text.now token }
        ensures { IfOk result (λ begun. Acted (acts (a meet) token.start (terminal text.now token)) self.old self.new
            begun) }
    {
        self.begin_atom(alloc, text, token, [Todo::Read(PiecePart::MeetTail)])
    }

    // Reads the token as the first of an atom, if it is one; this row follows the atom, the next one last.
    fn begin_atom<const N: usize>(
        &mut self,
        alloc: Global,
        text: &[u8],
        token: Token,
        row: [Todo; N],
    ) -> Result<bool, Memory>
        requires of_text { IsToken text.now token }
        requires short { N ≤ 5 }
        ensures { IfOk result (λ begun. Acted (atom_acts (stack_of row.entry) token.start (terminal text.now token))
            self.old self.new begun) }
    {
        match token.kind {
            Kind::Name => {
                let name = name_of(alloc, text, token)?;
                self.tell(row, Piece::Name(token.start, name))
            }
            Kind::WordBool => self.tell(row, Piece::Bool),
            Kind::WordInt => self.tell(row, Piece::Int),
            Kind::WordTop => self.tell(row, Piece::Top(token.start)),
            Kind::WordBot => self.tell(row, Piece::Bot(token.start)),
            Kind::ParenLeft => {
                self.put(row)?;
                self.put([
                    Todo::Read(PiecePart::ParenRight),
                    Todo::Read(PiecePart::Whole),
                ])?;
                Ok(true)
            }
            Kind::BraceLeft => {
                self.put(row)?;
                self.put([Todo::Tell(Piece::Record), Todo::Read(PiecePart::Fields)])?;
                Ok(true)
            }
            _ => Ok(false),
        }
    }

    // Tells a piece, and puts the row that follows it on the stack, the next one last.
    #[inline(always)]
    fn tell<const N: usize>(&mut self, row: [Todo; N], piece: Piece) -> Result<bool, Memory>
        requires { N ≤ 5 }
        ensures { IfOk result (λ begun. (begun ≡ true) × Tells row.entry piece self.old self.new) }
    {
        self.put(row)?;
        self.pieces.push(piece)?;
        Ok(true)
    }

    // Reads the token as the first of the codomain of a function, if it is one.
    fn begin_codomain(&mut self, token: Token) -> Result<bool, Memory>
        ensures { IfOk result (λ begun. (bytes : List ℕ)
            → Acted (acts (a codomain) token.start (terminal_of token.kind bytes)) self.old self.new begun) }
    {
        if token.kind != Kind::Arrow {
            return Ok(false);
        }
        self.put([Todo::Tell(Piece::Arrow), Todo::Read(PiecePart::Whole)])?;
        Ok(true)
    }

    // Reads the token as the first of a further operand of `|`, if it is one.
    fn begin_join_tail(&mut self, token: Token) -> Result<bool, Memory>
        ensures { IfOk result (λ begun. (bytes : List ℕ)
            → Acted (acts (a join_tail) token.start (terminal_of token.kind bytes)) self.old self.new begun) }
    {
        if token.kind != Kind::Bar {
            return Ok(false);
        }
        self.put([
            Todo::Read(PiecePart::JoinTail),
            Todo::Tell(Piece::Join(token.start)),
            Todo::Read(PiecePart::Meet),
        ])?;
        Ok(true)
    }

    // Reads the token as the first of a further operand of `&`, if it is one.
    fn begin_meet_tail(&mut self, token: Token) -> Result<bool, Memory>
        ensures { IfOk result (λ begun. (bytes : List ℕ)
            → Acted (acts (a meet_tail) token.start (terminal_of token.kind bytes)) self.old self.new begun) }
    {
        if token.kind != Kind::Amp {
            return Ok(false);
        }
        self.put([
            Todo::Read(PiecePart::MeetTail),
            Todo::Tell(Piece::Meet(token.start)),
            Todo::Read(PiecePart::Atom),
        ])?;
        Ok(true)
    }

    // Reads the token as the first of what stands behind the opening brace of a record, if it is one.
    fn begin_fields(&mut self, alloc: Global, text: &[u8], token: Token) -> Result<bool, Memory>
        requires { IsToken text.now token }
        ensures { IfOk result (λ begun. Acted (acts (a fields) token.start (terminal text.now token)) self.old self.new
            begun) }
    {
        if token.kind == Kind::BraceRight {
            self.pieces.push(Piece::Last)?;
            return Ok(true);
        }
        self.begin_label(alloc, text, token)
    }

    // Reads the token as the first of what stands behind a field, if it is one.
    fn begin_more_fields(&mut self, token: Token) -> Result<bool, Memory>
        ensures { IfOk result (λ begun. (bytes : List ℕ)
            → Acted (acts (a more_fields) token.start (terminal_of token.kind bytes)) self.old self.new begun) }
    {
        match token.kind {
            Kind::BraceRight => {
                self.pieces.push(Piece::Last)?;
                Ok(true)
            }
            Kind::Comma => {
                self.put([Todo::Read(PiecePart::Label)])?;
                Ok(true)
            }
            _ => Ok(false),
        }
    }

    // Reads the token as the name behind `rec`, if it is one.
    fn begin_binder(&mut self, alloc: Global, text: &[u8], token: Token) -> Result<bool, Memory>
        requires { IsToken text.now token }
        ensures { IfOk result (λ begun. Acted (acts the_rec token.start (terminal text.now token)) self.old self.new
            begun) }
    {
        if token.kind != Kind::Name {
            return Ok(false);
        }
        let name = name_of(alloc, text, token)?;
        self.put([
            Todo::Tell(Piece::Rec(name)),
            Todo::Read(PiecePart::Whole),
            Todo::Read(PiecePart::Dot),
        ])?;
        Ok(true)
    }

    // Reads the token as the label of a field, if it is one.
    fn begin_label(&mut self, alloc: Global, text: &[u8], token: Token) -> Result<bool, Memory>
        requires { IsToken text.now token }
        ensures { IfOk result (λ begun. Acted (acts the_field token.start (terminal text.now token)) self.old self.new
            begun) }
    {
        if token.kind != Kind::Name {
            return Ok(false);
        }
        let name = name_of(alloc, text, token)?;
        self.put([
            Todo::Tell(Piece::Field(token.start, name)),
            Todo::Read(PiecePart::MoreFields),
            Todo::Read(PiecePart::Whole),
            Todo::Read(PiecePart::Colon),
        ])?;
        Ok(true)
    }
}
