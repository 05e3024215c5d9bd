//! Types from their texts.
ghost use Rattle.std.specs.Prelude.{◌≡◌, ◌≢◌, ◌≤◌, [], length, All, IfOk, IfErr};
ghost use Rattle.mls_lexer.specs.Tokens.{IsToken, IsTokens};
ghost use Rattle.mls_lexer.specs.steps.Placed.{placed};
ghost use Rattle.mls_typetext.specs.steps.PieceMachine.{told_of};
ghost use Rattle.mls_typetext.specs.steps.Laying.{stand};
ghost use Rattle.mls_typetext.specs.steps.ReadPieces.{IsTold, IsReadOf, IsFaultOf};
ghost use Rattle.mls_typetext.specs.Stops.{HasTypeFault};
ghost use Rattle.mls_typetext.specs.Texts.{IsTypeText};
ghost use Rattle.mls_typetext.specs.TextsFrom.{ReadsFrom, HasFaultFrom};

use crate::bind::bind;
use crate::end::type_end;
use crate::lay_out::lay_out;
use crate::measure::{Measured, measure};
use crate::piece::Size;
use crate::read::read_pieces;
use crate::resolve::resolve;
use crate::scheme::{ReadScheme, TypeFault};
use mls_book::book::NodeId;
use mls_lexer::scan::tokens;
use mls_lexer::token::Token;
use std::alloc::Global;

/// Reads the text of a type.
///
/// The stages come in this order, and a later one is looked at only if the earlier ones have no fault: the tokens, the
/// grammar, and the tree. Within a stage the first fault of the text is answered. It takes no recursion, so types may
/// be as deep as memory allows.
///
/// # Errors
///
/// The first fault of the text, or `Memory` where memory is wanting.
pub fn read_type(alloc: Global, text: &[u8]) -> Result<ReadScheme, TypeFault>
    ensures read { IfOk result (λ r. IsTypeText text.now r) }
    ensures fault { IfErr result (λ fault. fault ≢ TypeFault.Memory → HasTypeFault text.now fault) }
{
    let found = tokens(alloc, text)?;
    read_all(alloc, text, &found)
}

// What all these tokens are read as, which are those of the text.
fn read_all(alloc: Global, text: &[u8], tokens: &[Token]) -> Result<ReadScheme, TypeFault>
    requires { IsTokens text.now tokens.now }
    ensures read { IfOk result (λ r. IsTypeText text.now r) }
    ensures fault { IfErr result (λ fault. fault ≢ TypeFault.Memory → HasTypeFault text.now fault) }
{
    let end = type_end(alloc, text, tokens, 0)?;
    if let Some(token) = tokens.get(end) {
        return Err(TypeFault::Unexpected(token.start, token.kind));
    }
    scheme_of(alloc, text, tokens)
}

/// Reads the type that begins at token `from`, and gives the number of the first token after it, which is the number of
/// tokens if there is none. It ends before the first token that cannot go on with it. It takes no recursion.
///
/// # Errors
///
/// The fault of the grammar as `type_end`; then the first fault of the tree; or `Memory` where memory is wanting.
pub fn read_type_from(
    alloc: Global,
    text: &[u8],
    tokens: &[Token],
    from: usize,
) -> Result<(ReadScheme, usize), TypeFault>
    requires tokens { IsTokens text.now tokens.now }
    requires from { from ≤ length tokens.now }
    ensures read { IfOk result (λ r. ReadsFrom text.now tokens.now from r.0 r.1) }
    ensures fault { IfErr result (λ fault. fault ≢ TypeFault.Memory → HasFaultFrom text.now tokens.now from fault) }
{
    let end = type_end(alloc, text, tokens, from)?;
    let read = scheme_of(alloc, text, &tokens[from..end])?;
    Ok((read, end))
}

// What the type of these tokens is read as.
fn scheme_of(alloc: Global, text: &[u8], tokens: &[Token]) -> Result<ReadScheme, TypeFault>
    requires of_text { All (IsToken text.now) tokens.now }
    requires is_type { IsTold (told_of (placed text.now tokens.now)) }
    ensures read { IfOk result (λ r. IsReadOf (told_of (placed text.now tokens.now)) r) }
    ensures fault { IfErr result (λ fault. fault ≢ TypeFault.Memory
        → IsFaultOf (told_of (placed text.now tokens.now)) fault) }
{
    let pieces = read_pieces(alloc, text, tokens)?;
    let items = resolve(alloc, pieces)?;
    let Measured {
        members,
        size,
        vars,
    } = measure(alloc, items)?;
    let nodes = lay_out(alloc, members, size)?;
    let book = bind(alloc, nodes)?;
    Ok(ReadScheme {
        book,
        root: NodeId(root_of(size)),
        vars,
    })
}

// The root of the book of a type of this size.
fn root_of(size: Size) -> usize
    ensures { result ≡ stand 0 [] size }
{
    match size.again {
        Some(_) => 0,
        None => size.here.saturating_sub(1),
    }
}
