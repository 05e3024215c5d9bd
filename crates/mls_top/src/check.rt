//! The comparison of a module with its interface.
ghost use Rattle.std.specs.Prelude.{◌≡◌, position, bytes_eq, IfOk, IfErr};
ghost use Rattle.mls_io.specs.Stores.{Follows};
ghost use Rattle.mls_iface.specs.Signatures.{AreEntries};
ghost use Rattle.mls_modules.specs.Environments.{IsValidInterface};
ghost use Rattle.mls_top.specs.steps.Answering.{IsAsked, IsAskedStop, TellsComparison};

use crate::answer::{Answer, Stop};
use crate::command::Command;
use crate::infer::signed;
use crate::mismatches::{absent_line, matches_line, too_special_line};
use crate::reading::interface_of;
use crate::status::Status;
use mls_base::memory::Memory;
use mls_book::name::Name;
use mls_iface::interface::Interface;
use mls_iface::matching::{MatchAnswer, matches};
use mls_iface::signature::Signature;
use mls_io::store::Store;
use mls_syntax::module::Import;
use std::alloc::Global;

/// The answer of `check` over a store: whether the signature of the module of this name matches its interface.
///
/// Where the module imports itself, its interface was fetched as that of an import, and it is not fetched again.
pub fn check<S: Store>(alloc: Global, store: &mut S, name: &Name) -> Result<Answer, Stop>
    ensures follows { Follows (S.holdings store.old) (S.holdings store.new) }
    ensures answer { IfOk result (IsAsked (S.holdings store.old) (S.holdings store.new) (Command.Check name.now)) }
    ensures stop { IfErr result (IsAskedStop (S.holdings store.old) (S.holdings store.new) (Command.Check name.now)) }
{
    let found = signed(alloc, store, name)?;
    match number_of(found.source.parsed.imports.as_slice(), name) {
        Some(number) => {
            let own = &found.source.imports.as_slice()[number];
            Ok(compared(alloc, name, &found.signature, own)?)
        }
        None => {
            let own = interface_of(alloc, store, name)?;
            Ok(compared(alloc, name, &found.signature, &own)?)
        }
    }
}

// The number of the import of this name.
fn number_of(imports: &[Import], name: &Name) -> Option<usize>
    ensures { result ≡ position (λ i. bytes_eq i.name name.now) imports.now }
{
    imports.iter().position(|import| import.name == *name)
}

// What is told of the signature of the module of this name beside its interface.
fn compared(
    alloc: Global,
    name: &Name,
    signature: &Signature,
    own: &Interface,
) -> Result<Answer, Memory>
    requires entries { AreEntries signature.now.entries }
    requires own { IsValidInterface own.now }
    ensures { IfOk result (TellsComparison name.now signature.now own.now) }
{
    match matches(alloc, signature, own)? {
        MatchAnswer::All => Ok(Answer {
            status: Status::Done,
            text: matches_line(alloc, name)?,
        }),
        MatchAnswer::Missing(declared) => Ok(mismatch(absent_line(alloc, name, &declared)?)),
        MatchAnswer::TooSpecial(declared, path) => {
            Ok(mismatch(too_special_line(alloc, name, &declared, &path)?))
        }
    }
}

// The answer that tells a mismatch by this line.
fn mismatch(text: Vec<u8>) -> Answer
    ensures { result ≡ record { status = Status.Mismatch; text = text } }
{
    Answer {
        status: Status::Mismatch,
        text,
    }
}
