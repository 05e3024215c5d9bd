//! The signature of a module, over the interfaces of its imports.
ghost use Rattle.std.specs.Prelude.{◌≢◌, IfOk, IfErr};
ghost use Rattle.mls_io.specs.Stores.{Follows};
ghost use Rattle.mls_grammar.specs.Modules.{IsModule, IsModuleText};
ghost use Rattle.mls_modules.specs.Environments.{AreInterfacesOf};
ghost use Rattle.mls_modules.specs.Entries.{IsSignatureOf, IsSignatureText};
ghost use Rattle.mls_top.specs.Answers.{IsOver};
ghost use Rattle.mls_top.specs.Outcomes.{Infers, InfersBindings, refused};
ghost use Rattle.mls_top.specs.steps.Answering.{IsAsked, IsAskedStop, IsStop, IsCausedStop, IsUncounted};
ghost use Rattle.mls_top.specs.steps.Answering.{HasFaultOverSome, IsSignedModule, TellsFault};
ghost use Rattle.mls_top.specs.steps.Fetching.{Learns, IsFileOf};

use crate::answer::{Answer, Stop};
use crate::command::Command;
use crate::lines::no_scheme_line;
use crate::reading::{Source, faulty_module, source_of};
use crate::status::Status;
use mls_base::memory::Memory;
use mls_book::name::Name;
use mls_iface::interface::Interface;
use mls_iface::signature::Signature;
use mls_infer::fault::Site;
use mls_io::store::Store;
use mls_lexer::place::locate;
use mls_modules::fault::ModuleFault;
use mls_modules::infer::{infer_module, infer_text};
use mls_syntax::module::Module;
use mls_syntax::parse::Fault;
use std::alloc::Global;

/// A module with what its imports declare, and its signature.
#[derive(Drop)]
pub struct SignedModule {
    pub source: Source,
    pub signature: Signature,
}

/// The answer of `infer` over a store: the signature of the module of this name.
pub fn infer<S: Store>(alloc: Global, store: &mut S, name: &Name) -> Result<Answer, Stop>
    ensures follows { Follows (S.holdings store.old) (S.holdings store.new) }
    ensures answer { IfOk result (IsAsked (S.holdings store.old) (S.holdings store.new) (Command.Infer name.now)) }
    ensures stop { IfErr result (IsAskedStop (S.holdings store.old) (S.holdings store.new) (Command.Infer name.now)) }
{
    let source = source_of(alloc, store, name)?;
    let text = printed_signature(
        alloc,
        source.file.as_str(),
        source.text.as_slice(),
        &source.parsed,
        source.imports.as_slice(),
    )?;
    Ok(Answer {
        status: Status::Done,
        text,
    })
}

/// The module of this name with its signature, over the interfaces of its imports.
pub fn signed<S: Store>(alloc: Global, store: &mut S, name: &Name) -> Result<SignedModule, Stop>
    ensures follows { Follows (S.holdings store.old) (S.holdings store.new) }
    ensures signed { IfOk result (λ s. Learns (S.holdings store.old).files (IsFileOf name.now s.source.parsed.imports)
        (λ files. IsSignedModule files name.now s)) }
    ensures source { IfOk result (λ s. IsModule s.source.parsed) }
    ensures imports { IfOk result (λ s. AreInterfacesOf s.source.parsed s.source.imports) }
    ensures signature { IfOk result (λ s. IsSignatureOf s.source.parsed s.source.imports s.signature) }
    ensures refused { IfErr result (IsStop (λ r. IsOver (S.holdings store.old).files
        (λ files. Infers files name.now (refused r)))) }
    ensures counted { IfErr result (IsCausedStop (S.holdings store.old) (S.holdings store.new)) }
{
    let source = source_of(alloc, store, name)?;
    let signature = signature_of(
        alloc,
        source.file.as_str(),
        source.text.as_slice(),
        &source.parsed,
        source.imports.as_slice(),
    )?;
    Ok(SignedModule { source, signature })
}

/// The signature of the module that this text of a file is, where these are the interfaces of its imports.
pub fn signature_of(
    alloc: Global,
    file: &str,
    text: &[u8],
    source: &Module,
    imports: &[Interface],
) -> Result<Signature, Stop>
    requires source { IsModuleText text.now source.now }
    requires imports { AreInterfacesOf source.now imports.now }
    ensures signature { IfOk result (IsSignatureOf source.now imports.now) }
    ensures refused { IfErr result (IsStop (λ r. InfersBindings file.now text.now source.now imports.now (refused r))) }
    ensures uncounted { IfErr result IsUncounted }
{
    match infer_module(alloc, source, imports) {
        Ok(signature) => Ok(signature),
        Err(fault) => Err(Stop::Refused(unsigned(alloc, file, text, source, fault)?)),
    }
}

/// The text of the signature of the module that this text of a file is, where these are the interfaces of its imports.
pub fn printed_signature(
    alloc: Global,
    file: &str,
    text: &[u8],
    source: &Module,
    imports: &[Interface],
) -> Result<Vec<u8>, Stop>
    requires source { IsModuleText text.now source.now }
    requires imports { AreInterfacesOf source.now imports.now }
    ensures printed { IfOk result (λ printed. IsSignatureText source.now imports.now printed.items) }
    ensures refused { IfErr result (IsStop (λ r. InfersBindings file.now text.now source.now imports.now (refused r))) }
    ensures uncounted { IfErr result IsUncounted }
{
    match infer_text(alloc, source, imports) {
        Ok(printed) => Ok(printed),
        Err(fault) => Err(Stop::Refused(unsigned(alloc, file, text, source, fault)?)),
    }
}

// What is told of a module that has no signature for this reason.
fn unsigned(
    alloc: Global,
    file: &str,
    text: &[u8],
    source: &Module,
    fault: ModuleFault,
) -> Result<Answer, Memory>
    requires source { IsModuleText text.now source.now }
    requires fault { fault ≢ ModuleFault.Memory → HasFaultOverSome source.now fault }
    ensures { IfOk result (TellsFault file.now text.now source.now fault) }
{
    match fault {
        ModuleFault::UnknownName(at) => {
            faulty_module(alloc, file, text, &Fault::UnknownName(at))
        }
        ModuleFault::NoScheme(number, site) => {
            without_scheme(alloc, file, text, source, number, &site)
        }
        ModuleFault::Memory => Err(Memory),
    }
}

// What is told of a module whose binding of this number has no scheme, by the expression that is named there.
fn without_scheme(
    alloc: Global,
    file: &str,
    text: &[u8],
    source: &Module,
    number: usize,
    site: &Site,
) -> Result<Answer, Memory>
    requires source { IsModuleText text.now source.now }
    requires fault { HasFaultOverSome source.now (ModuleFault.NoScheme number site.now) }
    ensures { IfOk result (TellsFault file.now text.now source.now (ModuleFault.NoScheme number site.now)) }
{
    let binding = &source.bindings.as_slice()[number];
    let node = &binding.expr.nodes.as_slice()[site.node];
    let place = locate(text, node.at);
    Ok(Answer {
        status: Status::NoScheme,
        text: no_scheme_line(alloc, file, place, &binding.name, &site.kind)?,
    })
}
