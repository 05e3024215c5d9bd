//! The tokens of a module, read from the front to the pieces that they tell.
ghost use Rattle.std.specs.Prelude.{◌≢◌, IfOk, IfErr, OnOk};
ghost use Rattle.mls_lexer.specs.Tokens.{IsToken, IsTokens};
ghost use Rattle.mls_grammar.specs.GrammarFaults.{HasGrammarFault};
ghost use Rattle.mls_reader.specs.steps.Todos.{part_of, todo_of};
ghost use Rattle.mls_reader.specs.steps.PieceReaders.{ReadsSource, Tried, Refused, Went, Stopped, Finished, IsNew};
ghost use Rattle.mls_reader.specs.steps.PieceReaders.{Puts};

use crate::piece::{Event, Piece};
use crate::todo::{PiecePart, Todo};
use mls_base::memory::Memory;
use mls_grammar::fault::Fault;
use mls_lexer::token::Token;
use std::alloc::Global;

mod begin;

// What is still to do, the next last, and what was told and given so far.
#[derive(Drop)]
struct ModuleReader<'a> {
    stack: Vec<Todo<'a>>,
    pieces: Vec<Piece<'a>>,
    events: Vec<Event<'a>>,
}

/// What was read: the pieces of a module, each behind those that it is made of, and the names and labels that it gives.
#[derive(Drop)]
pub struct SourcePieces<'a> {
    pub pieces: Vec<Piece<'a>>,
    pub events: Vec<Event<'a>>,
}

/// Reads the tokens of a module. It takes no recursion.
pub fn read<'a>(alloc: Global, text: &'a [u8], tokens: &[Token]) -> Result<SourcePieces<'a>, Fault>
    requires { IsTokens text.now tokens.now }
    ensures read { IfOk result (λ r. ReadsSource text.now tokens.now r.pieces.items r.events.items) }
    ensures fault { IfErr result (λ fault. fault ≢ Fault.Memory → HasGrammarFault text.now tokens.now fault) }
{
    let mut reader = ModuleReader::new(alloc, tokens.len())?;
    for token in tokens {
        reader.read_token(text, *token)?;
    }
    if !reader.finish()? {
        return Err(Fault::Ended);
    }
    let ModuleReader {
        stack: _,
        pieces,
        events,
    } = reader;
    Ok(SourcePieces { pieces, events })
}

impl<'a> ModuleReader<'a> {
    // A reader before the first of so many tokens. Most of them tell one piece or less.
    fn new(alloc: Global, tokens: usize) -> Result<ModuleReader<'a>, Memory>
        ensures { IfOk result IsNew }
    {
        let mut stack = Vec::new(alloc);
        stack.push(Todo::Read(PiecePart::Bindings))?;
        stack.push(Todo::Read(PiecePart::Imports))?;
        Ok(ModuleReader {
            stack,
            pieces: Vec::with_capacity(alloc, tokens)?,
            events: Vec::new(alloc),
        })
    }

    // Reads one token: tells what is over before it, and puts what is left to come behind it on the stack.
    fn read_token(&mut self, text: &'a [u8], token: Token) -> Result<(), Fault>
        requires { IsToken text.now token }
        ensures went { OnOk result (Went text.now token self.old self.new) }
        ensures stopped { IfErr result (λ fault. fault ≢ Fault.Memory → Stopped text.now token self.old fault) }
    {
        while let Some(todo) = self.stack.pop() {
            if self.read_todo(text, token, todo)? {
                return Ok(());
            }
        }
        Err(Fault::Unexpected(token.start, token.kind))
    }

    // Reads the token as the first of what was to do next, or else goes over that, if it may be empty.
    fn read_todo(&mut self, text: &'a [u8], token: Token, todo: Todo<'a>) -> Result<bool, Fault>
        requires { IsToken text.now token }
        ensures tried { IfOk result (λ begun. Tried text.now token (todo_of todo.entry) self.old self.new begun) }
        ensures refused { IfErr result (λ fault. fault ≢ Fault.Memory
            → Refused text.now token (todo_of todo.entry) fault) }
    {
        match todo {
            Todo::Read(part) => self.read_part(text, token, part),
            Todo::Tell(piece) => {
                self.pieces.push(piece)?;
                Ok(false)
            }
        }
    }

    // Reads the token as the first of the part, or else goes over the part, if it may be empty.
    fn read_part(&mut self, text: &'a [u8], token: Token, part: PiecePart) -> Result<bool, Fault>
        requires { IsToken text.now token }
        ensures tried { IfOk result (λ begun. Tried text.now token (part_of part) self.old self.new begun) }
        ensures refused { IfErr result (λ fault. fault ≢ Fault.Memory → Refused text.now token (part_of part) fault) }
    {
        if part.is_too_deep(token.kind) {
            return Err(Fault::TooDeep(token.start));
        }
        let empty = part.may_be_empty();
        let begun = self.begin(text, token, part)?;
        if !begun && !empty {
            return Err(Fault::Unexpected(token.start, token.kind));
        }
        Ok(begun)
    }

    // Tells what is left to tell behind the last token, and says whether nothing more has to come.
    fn finish(&mut self) -> Result<bool, Memory>
        ensures { IfOk result (λ over. Finished self.old self.new over) }
    {
        while let Some(todo) = self.stack.pop() {
            match todo {
                Todo::Tell(piece) => self.pieces.push(piece)?,
                Todo::Read(part) => {
                    if !part.may_be_empty() {
                        return Ok(false);
                    }
                }
            }
        }
        Ok(true)
    }

    // Puts on the stack what is to do next.
    #[inline(always)]
    fn put(&mut self, todo: Todo<'a>) -> Result<(), Memory>
        ensures { OnOk result (Puts todo.entry self.old self.new) }
    {
        self.stack.push(todo)?;
        Ok(())
    }
}
