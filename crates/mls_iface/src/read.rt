//! Interfaces from their texts.
ghost use Rattle.std.specs.Prelude.{◌≡◌, ◌≢◌, ◌<◌, ◌||◌, length, drop, slice_range, bytes_eq, IfOk, IfErr, OnOk};
ghost use Rattle.std.specs.BTreeSet.{contains};
ghost use Rattle.std.specs.Ordering.{nat_cmp};
ghost use Rattle.std.specs.Cmp.Lexicographic.{slice_cmp};
ghost use Rattle.mls_lexer.specs.Tokens.{IsToken, IsTokens, terminals};
ghost use Rattle.mls_iface.specs.Declarations.{IsInterface, spelled};
ghost use Rattle.mls_iface.specs.Interfaces.{IsInterfaceText, HasInterfaceFault};
ghost use Rattle.mls_iface.specs.steps.Reading.{IsNamed, IsTyped, IsFaulty};

use crate::grammar::check_grammar;
use crate::interface::{IfaceFault, Interface, Val};
use mls_base::list::List;
use mls_base::memory::Memory;
use mls_book::name::Name;
use mls_lexer::scan::tokens;
use mls_lexer::token::{Kind, Token};
use mls_typetext::from_text::read_type_from;
use mls_typetext::scheme::ReadScheme;
use std::alloc::Global;
use std::collections::BTreeSet;

/// Reads the text of an interface.
///
/// The stages come in this order, and a later one is looked at only if the earlier ones have no fault: the tokens, the
/// grammar of all declarations, and then the declarations, a name that is declared again and the trees of types. Within
/// a stage the first fault of the text is answered. It takes no recursion, so there may be any number of declarations,
/// and types may be as deep as memory allows.
///
/// # Errors
///
/// The first fault of the text, or `Memory` where memory is wanting.
pub fn read_interface(alloc: Global, text: &[u8]) -> Result<Interface, IfaceFault>
    ensures found { IfOk result (λ interface. IsInterfaceText text.now interface) }
    ensures fault { IfErr result (λ fault. fault ≢ IfaceFault.Memory → HasInterfaceFault text.now fault) }
{
    let found = tokens(alloc, text)?;
    check_grammar(alloc, text, &found)?;
    read_declarations(alloc, text, &found)
}

// What these tokens declare, which are those of the text and an interface.
fn read_declarations(alloc: Global, text: &[u8], tokens: &[Token]) -> Result<Interface, IfaceFault>
    requires tokens { IsTokens text.now tokens.now }
    requires grammar { IsInterface (terminals text.now tokens.now) }
    ensures found { IfOk result (λ interface. IsInterfaceText text.now interface) }
    ensures fault { IfErr result (λ fault. fault ≢ IfaceFault.Memory → HasInterfaceFault text.now fault) }
{
    let mut known = BTreeSet::new(alloc);
    let mut vals = List::new(alloc);
    let mut from = 0;
    while from < tokens.len() {
        let (name, at) = declared(alloc, text, tokens, from)?;
        if known.contains(&name) {
            return Err(IfaceFault::DuplicateVal(at));
        }
        note(&mut known, &name)?;
        let (scheme, end) = type_of(alloc, text, tokens, from)?;
        vals.push(Val { name, at, scheme })?;
        from = end;
    }
    Ok(Interface { vals })
}

// The name that the declaration at token `from` declares, and its place.
fn declared(
    alloc: Global,
    text: &[u8],
    tokens: &[Token],
    from: usize,
) -> Result<(Name, usize), Memory>
    requires tokens { IsTokens text.now tokens.now }
    requires grammar { IsInterface (drop from (terminals text.now tokens.now)) }
    requires from { from < length tokens.now }
    ensures { IfOk result (λ r. (ds : _) → spelled ds ≡ drop from (terminals text.now tokens.now)
        → IsNamed tokens.now from ds r.0 r.1) }
{
    let token = tokens[from + 1];
    let name = name_of(alloc, text, token)?;
    Ok((name, token.start))
}

// The name that the token is.
fn name_of(alloc: Global, text: &[u8], token: Token) -> Result<Name, Memory>
    requires of_text { IsToken text.now token }
    requires is_name { token.kind ≡ Kind.Name }
    ensures { IfOk result (λ name. name ≡ slice_range text.now token.start token.end) }
{
    Name::new(alloc, &text[token.start..token.end])
}

// What the type of the declaration at token `from` is read as, and where the next one begins.
fn type_of(
    alloc: Global,
    text: &[u8],
    tokens: &[Token],
    from: usize,
) -> Result<(ReadScheme, usize), IfaceFault>
    requires tokens { IsTokens text.now tokens.now }
    requires grammar { IsInterface (drop from (terminals text.now tokens.now)) }
    requires from { from < length tokens.now }
    ensures read { IfOk result (λ r. (ds : _) → spelled ds ≡ drop from (terminals text.now tokens.now)
        → IsTyped text.now tokens.now from ds r.0 r.1) }
    ensures fault { IfErr result (λ fault. fault ≢ IfaceFault.Memory
        → (ds : _) → spelled ds ≡ drop from (terminals text.now tokens.now) → IsFaulty tokens.now from ds fault) }
{
    let read = read_type_from(alloc, text, tokens, from + 3)?;
    Ok(read)
}

// Adds a name to those that are known.
fn note(known: &mut BTreeSet<Name>, name: &Name) -> Result<(), Memory>
    ensures { OnOk result ((x : _) → contains (slice_cmp nat_cmp) known.new x
        ≡ (bytes_eq x name.now || contains (slice_cmp nat_cmp) known.old x)) }
{
    let copy = copy_of(name)?;
    known.insert(copy)?;
    Ok(())
}

/// A copy of a name.
pub(crate) fn copy_of(name: &Name) -> Result<Name, Memory>
    ensures { IfOk result (λ copy. copy ≡ name.now) }
{
    let copy = name.clone()?;
    Ok(copy)
}
