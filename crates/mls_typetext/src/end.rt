//! How far a type goes among the tokens of a text.
ghost use Rattle.std.specs.Prelude.{◌≡◌, ◌≢◌, ◌≤◌, length, IfOk, IfErr};
ghost use Rattle.std.specs.List.{list_all};
ghost use Rattle.mls_lexer.specs.Tokens.{IsTokens};
ghost use Rattle.mls_typetext.specs.Stops.{EndsBefore, HasStop};
ghost use Rattle.mls_typetext.specs.steps.EndTable.{may_end};
ghost use Rattle.mls_typetext.specs.steps.EndStacks.{Behind, BehindAtom, BehindOne, Opened, Stepped, part_of};

use crate::scheme::TypeFault;
use mls_base::memory::Memory;
use mls_lexer::token::{Kind, Token};
use std::alloc::Global;

// A part of a type that is still to come.
#[derive(Clone, Copy)]
enum EndPart {
    Whole,
    Codomain,
    Join,
    JoinTail,
    Meet,
    MeetTail,
    Atom,
    Fields,
    MoreFields,
    Name,
    Dot,
    Colon,
    ParenRight,
}

// What is left to come behind a token, each with the next part last: `inner`, and below it `outer`.
#[derive(Clone, Copy)]
struct Rest {
    outer: &'static [EndPart],
    inner: &'static [EndPart],
}

// What a token did: a part began with it, or nothing has to come and none did, or what has to come cannot begin with
// it.
#[derive(Clone, Copy)]
enum Step {
    Read,
    Over,
    Stuck,
}

/// The number of the first token after the type that begins at token `from`, which is the number of tokens if there is
/// none; or the first token with which no type can go on; or that all tokens can go on and are no type. Of faults in
/// the tree of the type it tells nothing. It takes no recursion, so types may be as deep as memory allows.
pub fn type_end(
    alloc: Global,
    text: &[u8],
    tokens: &[Token],
    from: usize,
) -> Result<usize, TypeFault>
    requires tokens { IsTokens text.now tokens.now }
    requires from { from ≤ length tokens.now }
    ensures end { IfOk result (λ k. EndsBefore text.now tokens.now from k) }
    ensures fault { IfErr result (λ fault. fault ≢ TypeFault.Memory → HasStop text.now tokens.now from fault) }
{
    let mut stack = Vec::new(alloc);
    stack.push(EndPart::Whole)?;
    for (count, token) in tokens[from..].iter().enumerate() {
        match read_token(&mut stack, token.kind)? {
            Step::Read => {}
            Step::Over => return Ok(from + count),
            Step::Stuck => return Err(TypeFault::Unexpected(token.start, token.kind)),
        }
    }
    if can_end(&stack) {
        Ok(tokens.len())
    } else {
        Err(TypeFault::Ended)
    }
}

// Reads one token: takes the parts that may be empty off the stack up to one that begins with the token.
fn read_token(stack: &mut Vec<EndPart>, kind: Kind) -> Result<Step, Memory>
    ensures { IfOk result (λ step. Stepped kind stack.old.items stack.new.items step) }
{
    while let Some(part) = stack.pop() {
        if begin(stack, part, kind)? {
            return Ok(Step::Read);
        }
        if !may_end(part) {
            return Ok(Step::Stuck);
        }
    }
    Ok(Step::Over)
}

// Whether the part begins with a token of this kind: then what is left to come behind it is put on the stack.
fn begin(stack: &mut Vec<EndPart>, part: EndPart, kind: Kind) -> Result<bool, Memory>
    ensures { IfOk result (λ begun. Opened part kind stack.old.items stack.new.items begun) }
{
    match behind(part, kind) {
        Some(rest) => {
            stack.extend_from_slice(rest.outer)?;
            stack.extend_from_slice(rest.inner)?;
            Ok(true)
        }
        None => Ok(false),
    }
}

// Whether all parts of the stack may be empty.
fn can_end(stack: &[EndPart]) -> bool
    ensures { result ≡ list_all (λ part. may_end (part_of part)) stack.now }
{
    stack.iter().all(|part| may_end(*part))
}

// Whether the part may be empty.
fn may_end(part: EndPart) -> bool
    ensures { result ≡ may_end (part_of part) }
{
    matches!(
        part,
        EndPart::Codomain | EndPart::JoinTail | EndPart::MeetTail
    )
}

// What is left to come behind a token of this kind, where the part begins with it.
fn behind(part: EndPart, kind: Kind) -> Option<Rest>
    ensures { Behind part kind result }
{
    match part {
        EndPart::Whole => behind_whole(kind),
        EndPart::Codomain => behind_one(kind, Kind::Arrow, &[EndPart::Whole]),
        EndPart::Join => behind_atom(&[EndPart::JoinTail, EndPart::MeetTail], kind),
        EndPart::JoinTail => behind_one(kind, Kind::Bar, &[EndPart::JoinTail, EndPart::Meet]),
        EndPart::Meet => behind_atom(&[EndPart::MeetTail], kind),
        EndPart::MeetTail => behind_one(kind, Kind::Amp, &[EndPart::MeetTail, EndPart::Atom]),
        EndPart::Atom => behind_atom(&[], kind),
        EndPart::Fields => behind_fields(kind),
        EndPart::MoreFields => behind_more_fields(kind),
        EndPart::Name => behind_one(kind, Kind::Name, &[]),
        EndPart::Dot => behind_one(kind, Kind::Dot, &[]),
        EndPart::Colon => behind_one(kind, Kind::Colon, &[]),
        EndPart::ParenRight => behind_one(kind, Kind::ParenRight, &[]),
    }
}

// What is left to come behind a token of this kind, where a part begins with the wanted kind alone.
fn behind_one(kind: Kind, wanted: Kind, inner: &'static [EndPart]) -> Option<Rest>
    ensures { BehindOne kind wanted inner.now result }
{
    if kind == wanted {
        Some(Rest { outer: &[], inner })
    } else {
        None
    }
}

// What is left to come behind a token of this kind, where a whole type begins with it.
fn behind_whole(kind: Kind) -> Option<Rest>
    ensures { Behind EndPart.Whole kind result }
{
    match kind {
        Kind::WordRec => Some(Rest {
            outer: &[],
            inner: &[EndPart::Whole, EndPart::Dot, EndPart::Name],
        }),
        _ => behind_atom(
            &[EndPart::Codomain, EndPart::JoinTail, EndPart::MeetTail],
            kind,
        ),
    }
}

// What is left to come behind a token of this kind, where an atom begins with it, which these parts follow.
fn behind_atom(outer: &'static [EndPart], kind: Kind) -> Option<Rest>
    ensures { BehindAtom outer.now kind result }
{
    match kind {
        Kind::Name => Some(Rest { outer, inner: &[] }),
        Kind::WordBool => Some(Rest { outer, inner: &[] }),
        Kind::WordInt => Some(Rest { outer, inner: &[] }),
        Kind::WordTop => Some(Rest { outer, inner: &[] }),
        Kind::WordBot => Some(Rest { outer, inner: &[] }),
        Kind::ParenLeft => Some(Rest {
            outer,
            inner: &[EndPart::ParenRight, EndPart::Whole],
        }),
        Kind::BraceLeft => Some(Rest {
            outer,
            inner: &[EndPart::Fields],
        }),
        _ => None,
    }
}

// What is left to come behind a token of this kind, where it stands behind the opening brace of a record.
fn behind_fields(kind: Kind) -> Option<Rest>
    ensures { Behind EndPart.Fields kind result }
{
    match kind {
        Kind::BraceRight => Some(Rest {
            outer: &[],
            inner: &[],
        }),
        Kind::Name => Some(Rest {
            outer: &[],
            inner: &[EndPart::MoreFields, EndPart::Whole, EndPart::Colon],
        }),
        _ => None,
    }
}

// What is left to come behind a token of this kind, where it stands behind a field.
fn behind_more_fields(kind: Kind) -> Option<Rest>
    ensures { Behind EndPart.MoreFields kind result }
{
    match kind {
        Kind::BraceRight => Some(Rest {
            outer: &[],
            inner: &[],
        }),
        Kind::Comma => Some(Rest {
            outer: &[],
            inner: &[
                EndPart::MoreFields,
                EndPart::Whole,
                EndPart::Colon,
                EndPart::Name,
            ],
        }),
        _ => None,
    }
}
