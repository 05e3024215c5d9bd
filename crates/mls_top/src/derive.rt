//! The text of a derivation of the types of a module.
ghost use Rattle.std.specs.Prelude.{◌≡◌, IfOk, IfErr};
ghost use Rattle.mls_io.specs.Stores.{Follows};
ghost use Rattle.mls_grammar.specs.Modules.{IsModule};
ghost use Rattle.mls_term.specs.declared.term.Resolved.{Resolved as Meaning};
ghost use Rattle.mls_names.specs.Resolution.{Resolves};
ghost use Rattle.mls_deriv.specs.declared.derivation.Derivation.{Derivation};
ghost use Rattle.mls_deriv.specs.Spellings.{derivation_text};
ghost use Rattle.mls_modules.specs.Environments.{AreInterfacesOf, declared_names};
ghost use Rattle.mls_modules.specs.Entries.{IsSignatureOf};
ghost use Rattle.mls_top.specs.Outcomes.{IsDerivationOf};
ghost use Rattle.mls_top.specs.steps.Answering.{IsAsked, IsAskedStop};

use crate::answer::{Answer, Stop};
use crate::command::Command;
use crate::infer::signed;
use crate::status::Status;
use mls_base::list::List;
use mls_base::memory::Memory;
use mls_book::name::Name;
use mls_deriv::print::print_derivation;
use mls_emit::derive::derivation_of;
use mls_iface::interface::Interface;
use mls_iface::signature::Signature;
use mls_io::store::Store;
use mls_modules::environment::{declared_names, names_of};
use mls_names::resolve::resolve;
use mls_syntax::module::Module;
use mls_syntax::parse::Fault;
use mls_term::term::Resolved;
use std::alloc::Global;

/// The answer of `derive` over a store: the text of a derivation of the types of the module of this name.
pub fn derive<S: Store>(alloc: Global, store: &mut S, name: &Name) -> Result<Answer, Stop>
    ensures follows { Follows (S.holdings store.old) (S.holdings store.new) }
    ensures answer { IfOk result (IsAsked (S.holdings store.old) (S.holdings store.new) (Command.Derive name.now)) }
    ensures stop { IfErr result (IsAskedStop (S.holdings store.old) (S.holdings store.new) (Command.Derive name.now)) }
{
    let found = signed(alloc, store, name)?;
    let text = derived(
        alloc,
        &found.source.parsed,
        found.source.imports.as_slice(),
        &found.signature,
    )?;
    Ok(Answer {
        status: Status::Done,
        text,
    })
}

// The text of a derivation of the types of this signature of a module, where these are the interfaces of its imports.
fn derived(
    alloc: Global,
    parsed: &Module,
    imports: &[Interface],
    signature: &Signature,
) -> Result<Vec<u8>, Memory>
    requires module { IsModule parsed.now }
    requires imports { AreInterfacesOf parsed.now imports.now }
    requires signature { IsSignatureOf parsed.now imports.now signature.now }
    ensures { IfOk result (λ text. (d : Derivation) × (text.items ≡ derivation_text d)
        × IsDerivationOf parsed.now imports.now signature.now d) }
{
    let resolved = meant(alloc, parsed, imports)?;
    let nothing = Signature {
        entries: List::new(alloc),
    };
    let names = names_of(alloc, imports, &nothing)?;
    let derivation = derivation_of(alloc, &resolved, &names, signature)?;
    let text = print_derivation(alloc, &derivation)?;
    Ok(text)
}

// What the names of a module mean, all of which have meanings, where these are the interfaces of its imports.
fn meant(alloc: Global, parsed: &Module, imports: &[Interface]) -> Result<Resolved, Memory>
    requires module { IsModule parsed.now }
    requires imports { AreInterfacesOf parsed.now imports.now }
    requires meanings { (r : Meaning) × Resolves parsed.now (declared_names imports.now) r }
    ensures { IfOk result (Resolves parsed.now (declared_names imports.now)) }
{
    let declared = declared_names(alloc, imports)?;
    match resolve(alloc, parsed, declared.as_slice()) {
        Ok(resolved) => Ok(resolved),
        Err(fault) => {
            if fault == Fault::Memory {
                return Err(Memory);
            }
            unreachable!()
        }
    }
}
