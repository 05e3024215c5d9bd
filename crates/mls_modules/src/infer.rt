//! The signature of a module.
ghost use Rattle.std.specs.Prelude.{◌≡◌, ◌≢◌, ℕ, ◌+◌, length, All, IfOk, IfErr, OnOk};
ghost use Rattle.mls_grammar.specs.Modules.{IsModule};
ghost use Rattle.mls_term.specs.WellFormed.{IsTerm};
ghost use Rattle.mls_names.specs.Resolution.{declared_count};
ghost use Rattle.mls_names.specs.ResolutionLaws.{AreTerms};
ghost use Rattle.mls_infer.specs.Inference.{IsFirstWithout};
ghost use Rattle.mls_modules.specs.Environments.{AreInterfacesOf, IsValidInterface, MeanAfter, declared_names};
ghost use Rattle.mls_modules.specs.Entries.{AreAllEntriesOf, IsEntryOf, IsSignatureOf, IsSignatureText};
ghost use Rattle.mls_modules.specs.ModuleFaults.{HasModuleFault};
ghost use Rattle.mls_modules.specs.steps.Inferring.{at_binding, of_names, AreTypes, EndsAt, IsLineAdded, IsTextOfAll};

use crate::copy::{copy_name, copy_scheme};
use crate::environment::{declared_names, names_of};
use crate::fault::ModuleFault;
use crate::short::ShortTypes;
use mls_base::list::List;
use mls_base::memory::Memory;
use mls_grammar::fault::Fault;
use mls_grammar::module::Module;
use mls_iface::interface::Interface;
use mls_iface::print::add_val;
use mls_iface::signature::{SigEntry, Signature};
use mls_infer::environment::Environment;
use mls_infer::fault::InferFault;
use mls_names::resolve::resolve;
use mls_print::print::print_scheme;
use mls_term::term::ResolvedBinding;
use std::alloc::Global;

/// The signature of a module, where these are the interfaces of its imports, in order: for each binding its most
/// general scheme, over what the operators, the imports and the entries of the earlier bindings mean.
///
/// # Errors
///
/// `UnknownName` exactly where a name has no meaning, with the first. `NoScheme` exactly where all names have one and a
/// binding has no scheme, with the first such binding and its first node in postorder without a scheme. `Memory` where
/// memory is wanting.
pub fn infer_module(
    alloc: Global,
    module: &Module,
    imports: &[Interface],
) -> Result<Signature, ModuleFault>
    requires module { IsModule «module».now }
    requires imports { AreInterfacesOf «module».now imports.now }
    ensures signature { IfOk result (IsSignatureOf «module».now imports.now) }
    ensures fault { IfErr result (λ f. f ≢ ModuleFault.Memory → HasModuleFault «module».now imports.now f) }
{
    let declared = declared_names(alloc, imports)?;
    match resolve(alloc, module, declared.as_slice()) {
        Ok(resolved) => signature_of(alloc, imports, resolved.bindings.as_slice()),
        Err(fault) => Err(of_names(fault)),
    }
}

/// The text of the signature of a module, as `print_interface` gives it of what `infer_module` answers. No entry is kept,
/// and no type is read back of which no later binding speaks.
///
/// # Errors
///
/// Those of `infer_module`.
pub fn infer_text(
    alloc: Global,
    module: &Module,
    imports: &[Interface],
) -> Result<Vec<u8>, ModuleFault>
    requires module { IsModule «module».now }
    requires imports { AreInterfacesOf «module».now imports.now }
    ensures text { IfOk result (λ text. IsSignatureText «module».now imports.now text.items) }
    ensures fault { IfErr result (λ f. f ≢ ModuleFault.Memory → HasModuleFault «module».now imports.now f) }
{
    let declared = declared_names(alloc, imports)?;
    match resolve(alloc, module, declared.as_slice()) {
        Ok(resolved) => text_of(alloc, imports, resolved.bindings.as_slice()),
        Err(fault) => Err(of_names(fault)),
    }
}

// A fault of names as one of a module.
fn of_names(fault: Fault) -> ModuleFault
    requires { fault ≢ Fault.Memory → (at : ℕ) × (fault ≡ Fault.UnknownName at) }
    ensures { result ≡ of_names fault }
{
    match fault {
        Fault::UnknownName(at) => ModuleFault::UnknownName(at),
        Fault::Memory => ModuleFault::Memory,
        _ => unreachable!(),
    }
}

// The entries of bindings, or the first binding without a scheme.
fn signature_of(
    alloc: Global,
    imports: &[Interface],
    bindings: &[ResolvedBinding],
) -> Result<Signature, ModuleFault>
    requires imports { All IsValidInterface imports.now }
    requires terms { AreTerms (5 + declared_count (declared_names imports.now)) bindings.now }
    ensures entries { IfOk result (λ s. AreAllEntriesOf imports.now bindings.now s.entries) }
    ensures fault { IfErr result (EndsAt imports.now bindings.now) }
{
    let mut signature = Signature {
        entries: List::new(alloc),
    };
    let names = names_of(alloc, imports, &signature)?;
    let mut environment = Environment::new(alloc, names);
    let mut types = ShortTypes::new(alloc);
    for (number, binding) in bindings.iter().enumerate() {
        match entry_of(alloc, &mut environment, &mut types, binding) {
            Ok(entry) => {
                environment.add(copy_scheme(alloc, &entry.scheme)?)?;
                signature.entries.push(entry)?;
            }
            Err(fault) => return Err(at_binding(number, fault)),
        }
    }
    Ok(signature)
}

// Why a module has no signature, where inference of the binding of this number ended so.
fn at_binding(number: usize, fault: InferFault) -> ModuleFault
    ensures { result ≡ at_binding number fault }
{
    match fault {
        InferFault::NoScheme(site) => ModuleFault::NoScheme(number, site),
        InferFault::Memory => ModuleFault::Memory,
    }
}

// The entry of a binding, whatever entries the environment comes from.
fn entry_of(
    alloc: Global,
    environment: &mut Environment,
    types: &mut ShortTypes,
    binding: &ResolvedBinding,
) -> Result<SigEntry, InferFault>
    requires term { IsTerm (length environment.old.schemes) binding.now.term.nodes binding.now.term.binders
        binding.now.term.lets }
    requires types { AreTypes types.old }
    ensures types { OnOk result (AreTypes types.new) }
    ensures environment { environment.new ≡ environment.old }
    ensures entry { IfOk result (λ e. (imports : _) (earlier : _) → MeanAfter imports earlier environment.old
        → IsEntryOf imports earlier binding.now e) }
    ensures fault { IfErr result (IsFirstWithout environment.old binding.now.term) }
{
    let scheme = environment.infer(alloc, &binding.term)?;
    let printed = print_scheme(alloc, &scheme)?;
    let read = types.type_of(alloc, printed.as_slice())?;
    Ok(SigEntry {
        name: copy_name(alloc, &binding.name)?,
        text: List::of(printed),
        scheme: read,
    })
}

// The text of the entries of bindings, or the first binding without a scheme.
fn text_of(
    alloc: Global,
    imports: &[Interface],
    bindings: &[ResolvedBinding],
) -> Result<Vec<u8>, ModuleFault>
    requires imports { All IsValidInterface imports.now }
    requires terms { AreTerms (5 + declared_count (declared_names imports.now)) bindings.now }
    ensures text { IfOk result (λ text. IsTextOfAll imports.now bindings.now text.items) }
    ensures fault { IfErr result (EndsAt imports.now bindings.now) }
{
    let nothing = Signature {
        entries: List::new(alloc),
    };
    let names = names_of(alloc, imports, &nothing)?;
    let mut environment = Environment::new(alloc, names);
    let mut types = ShortTypes::new(alloc);
    let mut text = Vec::new(alloc);
    for (number, binding) in bindings.iter().enumerate() {
        let follows = number + 1 < bindings.len();
        match add_line(
            alloc,
            &mut environment,
            &mut types,
            &mut text,
            binding,
            follows,
        ) {
            Ok(()) => {}
            Err(fault) => return Err(at_binding(number, fault)),
        }
    }
    Ok(text)
}

// Adds the line of an entry of a binding to a text, whatever entries the environment comes from, and what its type is
// read as to the environment where another binding follows.
fn add_line(
    alloc: Global,
    environment: &mut Environment,
    types: &mut ShortTypes,
    text: &mut Vec<u8>,
    binding: &ResolvedBinding,
    follows: bool,
) -> Result<(), InferFault>
    requires term { IsTerm (length environment.old.schemes) binding.now.term.nodes binding.now.term.binders
        binding.now.term.lets }
    requires types { AreTypes types.old }
    ensures types { OnOk result (AreTypes types.new) }
    ensures line { OnOk result (IsLineAdded binding.now follows environment.old environment.new text.old.items
        text.new.items) }
    ensures fault { IfErr result (IsFirstWithout environment.old binding.now.term) }
{
    let scheme = environment.infer(alloc, &binding.term)?;
    let printed = print_scheme(alloc, &scheme)?;
    add_val(text, &binding.name, &printed)?;
    if follows {
        let read = types.type_of(alloc, &printed)?;
        environment.add(read)?;
        return Ok(());
    }
    Ok(())
}
