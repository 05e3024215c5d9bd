//! The grammar of interfaces.
ghost use Rattle.std.specs.Prelude.{◌≡◌, ◌≢◌, ◌<◌, suc, length, drop, IfOk, IfErr};
ghost use Rattle.mls_lexer.specs.Tokens.{IsTokens, terminals};
ghost use Rattle.mls_iface.specs.Declarations.{IsInterface};
ghost use Rattle.mls_iface.specs.Faults.{HasGrammarFault};
ghost use Rattle.mls_iface.specs.steps.Going.{LeadsTo, IsThere, IsMissing};

use crate::interface::IfaceFault;
use mls_lexer::token::{Kind, Token};
use mls_typetext::end::type_end;
use std::alloc::Global;

/// Goes over all declarations of a text with these tokens, for the sake of the grammar alone.
pub(crate) fn check_grammar(alloc: Global, text: &[u8], tokens: &[Token]) -> Result<(), IfaceFault>
    requires { IsTokens text.now tokens.now }
    ensures interface { IfOk result (λ _. IsInterface (terminals text.now tokens.now)) }
    ensures fault { IfErr result (λ fault. fault ≢ IfaceFault.Memory → HasGrammarFault text.now tokens.now 0 fault) }
{
    let mut at = 0;
    while at < tokens.len() {
        match declaration_end(alloc, text, tokens, at) {
            Ok(end) => at = end,
            Err(fault) => return Err(fault),
        }
    }
    Ok(())
}

// The number of the first token behind the declaration that begins at token `from`, where that token begins another one
// or there is none.
fn declaration_end(
    alloc: Global,
    text: &[u8],
    tokens: &[Token],
    from: usize,
) -> Result<usize, IfaceFault>
    requires tokens { IsTokens text.now tokens.now }
    requires from { from < length tokens.now }
    ensures further { IfOk result (λ k. from < k) }
    ensures end { IfOk result (λ k. LeadsTo text.now tokens.now from k) }
    ensures fault { IfErr result (λ fault. fault ≢ IfaceFault.Memory → HasGrammarFault text.now tokens.now from fault) }
{
    let name = behind(tokens, from, Kind::WordVal)?;
    let colon = behind(tokens, name, Kind::Name)?;
    let start = behind(tokens, colon, Kind::Colon)?;
    let end = type_end(alloc, text, tokens, start)?;
    match tokens.get(end) {
        None => Ok(end),
        Some(token) => {
            if token.kind == Kind::WordVal {
                Ok(end)
            } else {
                Err(IfaceFault::Unexpected(token.start, token.kind))
            }
        }
    }
}

// The number behind that of a token which has to be there, and of this kind.
fn behind(tokens: &[Token], at: usize, kind: Kind) -> Result<usize, IfaceFault>
    ensures there { IfOk result (λ _. IsThere tokens.now at kind) }
    ensures next { IfOk result (λ next. next ≡ suc at) }
    ensures missing { IfErr result (λ fault. IsMissing tokens.now at kind fault) }
{
    match tokens.get(at) {
        None => Err(IfaceFault::Ended),
        Some(token) => {
            if token.kind == kind {
                Ok(at + 1)
            } else {
                Err(IfaceFault::Unexpected(token.start, token.kind))
            }
        }
    }
}
