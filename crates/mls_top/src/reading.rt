//! Modules, interfaces and derivations from their files.
ghost use Rattle.std.specs.Prelude.{◌≡◌, ◌≤◌, length, map, string_bytes, All, Ok, Err, IfOk, IfErr};
ghost use Rattle.mls_io.specs.Stores.{Follows};
ghost use Rattle.mls_grammar.specs.Modules.{AreDistinct, IsModuleText};
ghost use Rattle.mls_iface.specs.Interfaces.{HasInterfaceFault, IsInterfaceText};
ghost use Rattle.mls_deriv.specs.Texts.{IsTextOf};
ghost use Rattle.mls_modules.specs.Environments.{AreInterfacesOf, IsValidInterface};
ghost use Rattle.mls_top.specs.Answers.{IsOver};
ghost use Rattle.mls_top.specs.Lines.{derivation_file, fault_place, interface_file, interface_fault_place, module_file};
ghost use Rattle.mls_top.specs.Outcomes.{HasNoSource, HasSource, ReadsDerivation, ReadsImports, ReadsInterface};
ghost use Rattle.mls_top.specs.Outcomes.{ReadsModule};
ghost use Rattle.mls_top.specs.Refusals.{bad_text, for_fault, for_interface_fault};
ghost use Rattle.mls_top.specs.steps.Answering.{IsStop, IsCausedStop, IsUncounted, IsForBadLine, IsForFault, Tells};
ghost use Rattle.mls_top.specs.steps.Fetching.{Learns, IsFileOf, IsInterfaceFile};

use crate::answer::{Answer, Stop};
use crate::faults::{fault_text, interface_fault_text};
use crate::fetching::text_of;
use crate::lines::{bad_line_text, derivation_file, fault_line, interface_file, module_file};
use crate::status::Status;
use mls_base::list::List;
use mls_base::memory::Memory;
use mls_book::name::Name;
use mls_deriv::derivation::Derivation;
use mls_deriv::fault::DerivFault;
use mls_deriv::read::read_derivation;
use mls_iface::interface::{IfaceFault, Interface};
use mls_iface::read::read_interface;
use mls_io::store::Store;
use mls_lexer::place::locate;
use mls_syntax::module::{Import, Module};
use mls_syntax::parse::{Fault, parse_module};
use std::alloc::Global;

/// The most bytes that the text of a module or of an interface may have.
pub const MODULE_LIMIT: usize = 1_048_576;

/// The most bytes that the text of a derivation may have.
pub const DERIVATION_LIMIT: usize = 67_108_864;

/// The file of a module, its text, the module that it is, and what its imports declare, in their order.
#[derive(Drop)]
pub struct Source {
    pub file: String,
    pub text: Vec<u8>,
    pub parsed: Module,
    pub imports: List<Interface>,
}

/// The module of this name, and what its imports declare. No file is fetched twice.
pub fn source_of<S: Store>(alloc: Global, store: &mut S, name: &Name) -> Result<Source, Stop>
    ensures follows { Follows (S.holdings store.old) (S.holdings store.new) }
    ensures read { IfOk result (λ s. Learns (S.holdings store.old).files (IsFileOf name.now s.parsed.imports)
        (λ files. HasSource files name.now s.text.items s.parsed s.imports)) }
    ensures file { IfOk result (λ s. string_bytes s.file ≡ module_file name.now) }
    ensures module { IfOk result (λ s. IsModuleText s.text.items s.parsed) }
    ensures imports { IfOk result (λ s. AreInterfacesOf s.parsed s.imports) }
    ensures refused { IfErr result (IsStop (λ r. IsOver (S.holdings store.old).files
        (λ files. HasNoSource files name.now r))) }
    ensures counted { IfErr result (IsCausedStop (S.holdings store.old) (S.holdings store.new)) }
{
    let file = module_file(alloc, name)?;
    let bytes = text_of(alloc, store, file.as_str(), MODULE_LIMIT)?;
    let parsed = module_of(alloc, file.as_str(), bytes.as_slice())?;
    let imports = imports_of(alloc, store, parsed.imports.as_slice())?;
    Ok(Source {
        file,
        text: bytes,
        parsed,
        imports,
    })
}

/// The module that the text of a file is.
pub fn module_of(alloc: Global, file: &str, text: &[u8]) -> Result<Module, Stop>
    ensures module { IfOk result (IsModuleText text.now) }
    ensures refused { IfErr result (IsStop (λ r. ReadsModule file.now text.now (Err r))) }
    ensures uncounted { IfErr result IsUncounted }
{
    match parse_module(alloc, text) {
        Ok(source) => Ok(source),
        Err(fault) => {
            if fault == Fault::Memory {
                return Err(Stop::from(Memory));
            }
            Err(Stop::Refused(faulty_module(alloc, file, text, &fault)?))
        }
    }
}

/// What is told of the text of a module that has this fault.
pub fn faulty_module(
    alloc: Global,
    file: &str,
    text: &[u8],
    fault: &Fault,
) -> Result<Answer, Memory>
    requires { fault_place (length text.now) fault.now ≤ length text.now }
    ensures { IfOk result (Tells (for_fault file.now text.now fault.now)) }
{
    let place = fault.place(text.len());
    bad_text(alloc, file, text, place, fault.number(), fault_text(fault))
}

/// What the imports of a module declare, in their order. No file is fetched twice.
pub fn imports_of<S: Store>(
    alloc: Global,
    store: &mut S,
    imports: &[Import],
) -> Result<List<Interface>, Stop>
    requires distinct { AreDistinct (map (λ i. i.name) imports.now) }
    ensures follows { Follows (S.holdings store.old) (S.holdings store.new) }
    ensures read { IfOk result (λ interfaces. Learns (S.holdings store.old).files (IsInterfaceFile imports.now)
        (λ files. ReadsImports files imports.now (Ok interfaces))) }
    ensures count { IfOk result (λ interfaces. length interfaces ≡ length imports.now) }
    ensures valid { IfOk result (All IsValidInterface) }
    ensures refused { IfErr result (IsStop (λ r. Learns (S.holdings store.old).files (IsInterfaceFile imports.now)
        (λ files. ReadsImports files imports.now (Err r)))) }
    ensures counted { IfErr result (IsCausedStop (S.holdings store.old) (S.holdings store.new)) }
{
    let mut interfaces = List::new(alloc);
    for import in imports {
        interfaces.push(interface_of(alloc, store, &import.name)?)?;
    }
    Ok(interfaces)
}

/// What the interface of the module of this name declares.
pub fn interface_of<S: Store>(alloc: Global, store: &mut S, name: &Name) -> Result<Interface, Stop>
    ensures follows { Follows (S.holdings store.old) (S.holdings store.new) }
    ensures read { IfOk result (λ interface. Learns (S.holdings store.old).files (λ f. f ≡ interface_file name.now)
        (λ files. ReadsInterface files name.now (Ok interface))) }
    ensures valid { IfOk result IsValidInterface }
    ensures refused { IfErr result (IsStop (λ r. Learns (S.holdings store.old).files (λ f. f ≡ interface_file name.now)
        (λ files. ReadsInterface files name.now (Err r)))) }
    ensures counted { IfErr result (IsCausedStop (S.holdings store.old) (S.holdings store.new)) }
{
    let file = interface_file(alloc, name)?;
    let text = text_of(alloc, store, file.as_str(), MODULE_LIMIT)?;
    interface_in(alloc, file.as_str(), text.as_slice())
}

// What the text of an interface declares.
fn interface_in(alloc: Global, file: &str, text: &[u8]) -> Result<Interface, Stop>
    ensures interface { IfOk result (IsInterfaceText text.now) }
    ensures refused { IfErr result (IsStop (IsForFault file.now text.now)) }
    ensures uncounted { IfErr result IsUncounted }
{
    match read_interface(alloc, text) {
        Ok(interface) => Ok(interface),
        Err(fault) => {
            if fault == IfaceFault::Memory {
                return Err(Stop::from(Memory));
            }
            Err(Stop::Refused(faulty_interface(alloc, file, text, &fault)?))
        }
    }
}

// What is told of the text of an interface that has this fault.
fn faulty_interface(
    alloc: Global,
    file: &str,
    text: &[u8],
    fault: &IfaceFault,
) -> Result<Answer, Memory>
    requires { interface_fault_place (length text.now) fault.now ≤ length text.now }
    ensures { IfOk result (Tells (for_interface_fault file.now text.now fault.now)) }
{
    let place = fault.place(text.len());
    bad_text(
        alloc,
        file,
        text,
        place,
        fault.number(),
        interface_fault_text(fault),
    )
}

// What is told of a text with a fault of this number at this place, of which this is said.
fn bad_text(
    alloc: Global,
    file: &str,
    text: &[u8],
    place: usize,
    number: usize,
    said: &str,
) -> Result<Answer, Memory>
    requires { place ≤ length text.now }
    ensures { IfOk result (Tells (bad_text file.now text.now place number said.now)) }
{
    Ok(Answer {
        status: Status::BadText,
        text: fault_line(alloc, file, locate(text, place), number, said)?,
    })
}

/// The derivation for the module of this name.
pub fn derivation_of<S: Store>(
    alloc: Global,
    store: &mut S,
    name: &Name,
) -> Result<Derivation, Stop>
    ensures follows { Follows (S.holdings store.old) (S.holdings store.new) }
    ensures read { IfOk result (λ d. Learns (S.holdings store.old).files (λ f. f ≡ derivation_file name.now)
        (λ files. ReadsDerivation files name.now (Ok d))) }
    ensures refused { IfErr result (IsStop (λ r. Learns (S.holdings store.old).files
        (λ f. f ≡ derivation_file name.now)
        (λ files. ReadsDerivation files name.now (Err r)))) }
    ensures counted { IfErr result (IsCausedStop (S.holdings store.old) (S.holdings store.new)) }
{
    let file = derivation_file(alloc, name)?;
    let text = text_of(alloc, store, file.as_str(), DERIVATION_LIMIT)?;
    derivation_in(alloc, file.as_str(), text.as_slice())
}

// The derivation whose text this is.
fn derivation_in(alloc: Global, file: &str, text: &[u8]) -> Result<Derivation, Stop>
    ensures derivation { IfOk result (IsTextOf text.now) }
    ensures refused { IfErr result (IsStop (IsForBadLine file.now text.now)) }
    ensures uncounted { IfErr result IsUncounted }
{
    match read_derivation(alloc, text) {
        Ok(derivation) => Ok(derivation),
        Err(DerivFault::BadLine(line)) => Err(Stop::Refused(Answer {
            status: Status::BadText,
            text: bad_line_text(alloc, file, line)?,
        })),
        Err(DerivFault::Memory) => Err(Stop::from(Memory)),
    }
}
