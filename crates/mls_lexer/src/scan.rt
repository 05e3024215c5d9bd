//! From a text to its tokens.
ghost use Rattle.std.specs.Prelude.{◌≡◌, ◌≢◌, ◌<◌, ◌≤◌, ◌+◌, length, drop, slice_range, slice_index, take_while, All};
ghost use Rattle.std.specs.Prelude.{IfOk, IfErr, MatchOption, IsTrue, IsFalse};
ghost use Rattle.mls_base.specs.Spelling.{is_lower, is_name_byte};
ghost use Rattle.mls_lexer.specs.Tokens.{is_space, is_digit, word_kind, symbol_kind, shape, digits_value};
ghost use Rattle.mls_lexer.specs.Tokens.{largest_number, IsLongest, IsLastGap, IsTokens, IsToken, HasTokenFault};
ghost use Rattle.mls_lexer.specs.steps.Scanning.{ComesNext, StandsAt};

use crate::kinds::{one_byte_symbol, two_byte_symbol, word_kind};
use crate::number::value_of;
use crate::token::{Kind, LexFault, Token};
use mls_base::spelling::{is_lower, is_name_byte};
use std::alloc::Global;

/// The tokens of a text, or its first fault: at each place the longest token is taken. Spaces, tabs, newlines,
/// carriage returns and comments from `#` to the end of the line separate them.
pub fn tokens(alloc: Global, text: &[u8]) -> Result<Vec<Token>, LexFault>
    ensures found { IfOk result (λ tokens. IsTokens text.now tokens.items) }
    ensures each { IfOk result (λ tokens. All (IsToken text.now) tokens.items) }
    ensures places { IfOk result (λ tokens. All (λ token. (token.start < token.end)
        × (token.end ≤ length text.now)) tokens.items) }
    ensures count { IfOk result (λ tokens. length tokens.items ≤ length text.now) }
    ensures fault { IfErr result (λ fault. fault ≢ LexFault.Memory → HasTokenFault text.now fault) }
{
    let mut found = Vec::new(alloc);
    let mut end = 0;
    while let Some(start) = next_start(text, end) {
        let token = token_at(text, start)?;
        end = token.end;
        found.push(token)?;
    }
    Ok(found)
}

// Where something stands after the separators from `from` on; nowhere if the text ends with them.
fn next_start(text: &[u8], from: usize) -> Option<usize>
    requires { from ≤ length text.now }
    ensures { MatchOption result (IsLastGap (drop from text.now)) (λ start. ComesNext text.now from start) }
{
    let mut in_comment = false;
    for (count, byte) in text[from..].iter().enumerate() {
        if in_comment {
            in_comment = *byte != b'\n';
        } else if *byte == b'#' {
            in_comment = true;
        } else if !is_space(*byte) {
            return Some(from + count);
        }
    }
    None
}

// The longest token from this place, or what is wrong there.
fn token_at(text: &[u8], start: usize) -> Result<Token, LexFault>
    requires { start < length text.now }
    ensures { StandsAt text.now start result }
{
    let first = text[start];
    if is_lower(first) {
        Ok(word_at(text, start))
    } else if is_digit(first) {
        number_at(text, start)
    } else {
        match symbol_at(text, start) {
            Some(token) => Ok(token),
            None => Err(LexFault::BadByte(start)),
        }
    }
}

// The name or reserved word at a small letter.
fn word_at(text: &[u8], start: usize) -> Token
    requires in_text { start < length text.now }
    requires letter { IsTrue (is_lower (slice_index text.now start)) }
    ensures place { result.start ≡ start }
    ensures token { IsToken text.now result }
{
    let end = start + name_bytes(&text[start..]);
    Token {
        kind: word_kind(&text[start..end]),
        start,
        end,
    }
}

// The number at a digit, or that it is too large.
fn number_at(text: &[u8], start: usize) -> Result<Token, LexFault>
    requires in_text { start < length text.now }
    requires digit { IsTrue (is_digit (slice_index text.now start)) }
    ensures { StandsAt text.now start result }
{
    let end = start + digits(&text[start..]);
    match value_of(&text[start..end]) {
        Some(_) => Ok(Token {
            kind: Kind::Number,
            start,
            end,
        }),
        None => Err(LexFault::BigNumber(start)),
    }
}

// The longest symbol from this place, where there is one.
fn symbol_at(text: &[u8], start: usize) -> Option<Token>
    requires in_text { start < length text.now }
    requires no_letter { IsFalse (is_lower (slice_index text.now start)) }
    requires no_digit { IsFalse (is_digit (slice_index text.now start)) }
    ensures { MatchOption result (IsLongest text.now start start) (λ token. (token.start ≡ start)
        × IsToken text.now token) }
{
    if start + 1 < text.len() {
        if let Some(kind) = two_byte_symbol(text[start], text[start + 1]) {
            return Some(Token {
                kind,
                start,
                end: start + 2,
            });
        }
    }
    match one_byte_symbol(text[start]) {
        Some(kind) => Some(Token {
            kind,
            start,
            end: start + 1,
        }),
        None => None,
    }
}

// How many bytes of names the bytes begin with.
fn name_bytes(bytes: &[u8]) -> usize
    ensures { result ≡ length (take_while is_name_byte bytes.now) }
{
    bytes.iter().take_while(|byte| is_name_byte(**byte)).count()
}

// How many digits the bytes begin with.
fn digits(bytes: &[u8]) -> usize
    ensures { result ≡ length (take_while is_digit bytes.now) }
{
    bytes.iter().take_while(|byte| is_digit(**byte)).count()
}

// Whether the byte separates tokens by itself: a space, a tab, a newline or a carriage return.
fn is_space(byte: u8) -> bool
    ensures { result ≡ is_space byte }
{
    byte == b' ' || byte == b'\t' || byte == b'\n' || byte == b'\r'
}

// Whether the byte is a digit `0` to `9`.
fn is_digit(byte: u8) -> bool
    ensures { result ≡ is_digit byte }
{
    b'0' <= byte && byte <= b'9'
}
