//! The check of a derivation for a module.
ghost use Rattle.std.specs.Prelude.{◌+◌, All, Err, IfOk, IfErr};
ghost use Rattle.mls_io.specs.Stores.{Follows};
ghost use Rattle.mls_grammar.specs.Modules.{IsModuleText};
ghost use Rattle.mls_names.specs.Resolution.{Resolves, declared_count};
ghost use Rattle.mls_names.specs.ResolutionLaws.{AreTerms};
ghost use Rattle.mls_modules.specs.Environments.{AreInterfacesOf, IsValidInterface, declared_names};
ghost use Rattle.mls_top.specs.Outcomes.{ReadsNames};
ghost use Rattle.mls_top.specs.steps.Answering.{IsAsked, IsAskedStop, IsStop, IsUncounted, TellsCheck};

use crate::answer::{Answer, Stop};
use crate::command::Command;
use crate::lines::{not_allowed_line, verified_line};
use crate::reading::{derivation_of, faulty_module, source_of};
use crate::status::Status;
use mls_base::list::List;
use mls_base::memory::Memory;
use mls_book::name::Name;
use mls_deriv::derivation::Derivation;
use mls_deriv::verify as steps;
use mls_deriv::verify::Verified;
use mls_iface::interface::Interface;
use mls_iface::signature::Signature;
use mls_io::store::Store;
use mls_modules::environment::{declared_names, names_of};
use mls_names::resolve::resolve;
use mls_syntax::module::Module;
use mls_syntax::parse::Fault;
use mls_term::term::Resolved;
use std::alloc::Global;

/// The answer of `verify` over a store: whether each step of the derivation for the module of this name is allowed. No
/// type is inferred.
pub fn verify<S: Store>(alloc: Global, store: &mut S, name: &Name) -> Result<Answer, Stop>
    ensures follows { Follows (S.holdings store.old) (S.holdings store.new) }
    ensures answer { IfOk result (IsAsked (S.holdings store.old) (S.holdings store.new) (Command.Verify name.now)) }
    ensures stop { IfErr result (IsAskedStop (S.holdings store.old) (S.holdings store.new) (Command.Verify name.now)) }
{
    let source = source_of(alloc, store, name)?;
    let imports = source.imports.as_slice();
    let resolved = resolved_of(
        alloc,
        source.file.as_str(),
        source.text.as_slice(),
        &source.parsed,
        imports,
    )?;
    let derivation = derivation_of(alloc, store, name)?;
    Ok(checked(alloc, name, imports, &resolved, &derivation)?)
}

// What the names of the module mean that this text of a file is, where these are the interfaces of its imports.
fn resolved_of(
    alloc: Global,
    file: &str,
    text: &[u8],
    parsed: &Module,
    imports: &[Interface],
) -> Result<Resolved, Stop>
    requires module { IsModuleText text.now parsed.now }
    requires imports { AreInterfacesOf parsed.now imports.now }
    ensures resolved { IfOk result (Resolves parsed.now (declared_names imports.now)) }
    ensures refused { IfErr result (IsStop (λ r. ReadsNames file.now text.now parsed.now imports.now (Err r))) }
    ensures uncounted { IfErr result IsUncounted }
{
    let declared = declared_names(alloc, imports)?;
    match resolve(alloc, parsed, declared.as_slice()) {
        Ok(resolved) => Ok(resolved),
        Err(fault) => {
            if fault == Fault::Memory {
                return Err(Stop::from(Memory));
            }
            Err(Stop::Refused(faulty_module(alloc, file, text, &fault)?))
        }
    }
}

// What is told of a derivation for the module of this name, over the operators and what the imports declare.
fn checked(
    alloc: Global,
    name: &Name,
    imports: &[Interface],
    resolved: &Resolved,
    derivation: &Derivation,
) -> Result<Answer, Memory>
    requires imports { All IsValidInterface imports.now }
    requires terms { AreTerms (5 + declared_count (declared_names imports.now)) resolved.now.bindings }
    ensures { IfOk result (TellsCheck name.now imports.now resolved.now.bindings derivation.now.sections) }
{
    let nothing = Signature {
        entries: List::new(alloc),
    };
    let names = names_of(alloc, imports, &nothing)?;
    match steps::verify(alloc, derivation, resolved, &names)? {
        Verified::Yes => Ok(Answer {
            status: Status::Done,
            text: verified_line(alloc, name)?,
        }),
        Verified::No(step) => Ok(Answer {
            status: Status::NotVerified,
            text: not_allowed_line(alloc, name, step)?,
        }),
    }
}
