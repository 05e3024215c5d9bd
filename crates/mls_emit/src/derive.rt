//! Derivations of the types of a signature.
ghost use Rattle.std.specs.Prelude.{◌≡◌, ◌<◌, ◌^◌, ℕ, length, All, IfOk, IfSome, OnOk};
ghost use Rattle.mls_deriv.specs.Laws.{AreDerivable, AreTerms};
ghost use Rattle.mls_deriv.specs.Spellings.{derivation_text};
ghost use Rattle.mls_deriv.specs.Texts.{IsTextOf, LinesStand};
ghost use Rattle.mls_infer.specs.Inference.{AreNames};
ghost use Rattle.mls_iface.specs.Matches.{IsRead};
ghost use Rattle.mls_iface.specs.Signatures.{IsEntry};
ghost use Rattle.mls_term.specs.WellFormed.{IsTerm};
ghost use Rattle.mls_deriv.specs.Sections.{schemes_of, AreSectionsAllowed, IsSectionAllowed};
ghost use Rattle.mls_sections.specs.KnownNames.{AreNameTypes};
ghost use Rattle.mls_emit.specs.declared.derive.Way.TheVariants.{Plain};
ghost use Rattle.mls_emit.specs.Derivable.{CanAllBeDerived, CanBeDerived, names_read};
ghost use Rattle.mls_emit.specs.Derived.{AreDerivations, entry_names, entry_texts, section_names, section_texts};

mod known;
mod prune;
mod section;

use known::Schemes;
use mls_base::list::List;
use mls_base::memory::Memory;
use mls_book::name::Name;
use mls_deriv::derivation::{Derivation, Section, Sections};
use mls_deriv::printable::{all_stand, are_spelled};
use mls_deriv::verify::{Verified, verify};
use mls_iface::signature::{SigEntry, Signature};
use mls_term::term::{Resolved, ResolvedBinding};
use mls_typetext::scheme::{Names, ReadScheme};
use section::{scheme_of, write_section};
use std::alloc::Global;

/// How the lines of a part are written: with few steps, and nodes that are made for them, or plainly, with the nodes
/// that are laid out for the constraint.
#[derive(Clone, Copy)]
pub(crate) enum Way {
    Short,
    Plain,
}

// The same name once more.
fn copied_name(name: &Name) -> Result<Name, Memory>
    ensures { IfOk result (λ copy. copy ≡ name.now) }
{
    let copy = name.clone()?;
    Ok(copy)
}

// The same bytes once more, as many as a machine word counts.
fn copied_bytes(alloc: Global, bytes: &[u8]) -> Result<List<u8>, Memory>
    ensures copy { IfOk result (λ copy. copy ≡ bytes.now) }
    ensures short { OnOk result (length bytes.now < 2 ^ 64) }
{
    let mut copy = List::new(alloc);
    copy.reserve(bytes.len())?;
    for byte in bytes {
        copy.push(*byte)?;
    }
    Ok(copy)
}

// The section of a binding with this entry, where names mean what is declared and what the entries before it say.
fn section_of(
    alloc: Global,
    way: Way,
    declared: &[ReadScheme],
    earlier: &[SigEntry],
    schemes: &mut Schemes,
    binding: &ResolvedBinding,
    entry: &SigEntry,
) -> Result<Section, Memory>
    requires declared { All IsRead declared.now }
    requires earlier { All IsEntry earlier.now }
    requires entry { IsEntry entry.now }
    requires types { AreNameTypes (names_read declared.now earlier.now) schemes.old }
    requires term { IsTerm (length (names_read declared.now earlier.now)) binding.now.term.nodes
        binding.now.term.binders binding.now.term.lets }
    requires derivable { CanBeDerived (names_read declared.now earlier.now) binding.now entry.now }
    ensures types { AreNameTypes (names_read declared.now earlier.now) schemes.new }
    ensures name { IfOk result (λ s. s.name ≡ entry.now.name) }
    ensures text { IfOk result (λ s. s.text ≡ entry.now.text) }
    ensures allowed { way ≡ Plain → IfOk result (λ s. IsSectionAllowed (schemes_of (names_read declared.now
        earlier.now)) binding.now s entry.now.scheme) }
    ensures stand { way ≡ Plain → IfOk result LinesStand }
{
    let nodes = binding.term.nodes.as_slice();
    let read = scheme_of(entry);
    let written = write_section(alloc, way, declared, earlier, schemes, nodes, read)?;
    Ok(Section {
        name: copied_name(&entry.name)?,
        text: copied_bytes(alloc, entry.text.as_slice())?,
        nodes: written.book,
        lines: written.lines,
    })
}

// The sections of all entries, of which there is one for each binding.
fn sections_of(
    alloc: Global,
    way: Way,
    bindings: &[ResolvedBinding],
    declared: &[ReadScheme],
    entries: &[SigEntry],
) -> Result<Sections, Memory>
    requires terms { AreTerms (length declared.now) bindings.now }
    requires declared { All IsRead declared.now }
    requires entries { All IsEntry entries.now }
    requires derivable { CanAllBeDerived declared.now bindings.now entries.now }
    ensures names { IfOk result (λ sections. section_names sections ≡ entry_names entries.now) }
    ensures texts { IfOk result (λ sections. section_texts sections ≡ entry_texts entries.now) }
    ensures allowed { way ≡ Plain → IfOk result (AreSectionsAllowed declared.now bindings.now) }
    ensures stand { way ≡ Plain → IfOk result (All LinesStand) }
{
    let mut sections = Sections::new(alloc);
    let mut schemes = Schemes::new(alloc);
    for k in 0..entries.len() {
        let earlier = &entries[..k];
        let section = section_of(
            alloc,
            way,
            declared,
            earlier,
            &mut schemes,
            &bindings[k],
            &entries[k],
        )?;
        sections.push(section)?;
    }
    Ok(sections)
}

// A derivation whose lines are written in this way.
fn written(
    alloc: Global,
    way: Way,
    module: &Resolved,
    declared: &Names,
    signature: &Signature,
) -> Result<Derivation, Memory>
    requires names { AreNames declared.now }
    requires terms { AreTerms (length declared.now.schemes) «module».now.bindings }
    requires entries { All IsEntry signature.now.entries }
    requires derivable { CanAllBeDerived declared.now.schemes «module».now.bindings signature.now.entries }
    ensures names { IfOk result (λ d. section_names d.sections ≡ entry_names signature.now.entries) }
    ensures texts { IfOk result (λ d. section_texts d.sections ≡ entry_texts signature.now.entries) }
    ensures allowed { way ≡ Plain → IfOk result (λ d. AreSectionsAllowed declared.now.schemes «module».now.bindings
        d.sections) }
    ensures stand { way ≡ Plain → IfOk result (λ d. All LinesStand d.sections) }
{
    let sections = sections_of(
        alloc,
        way,
        module.bindings.as_slice(),
        declared.schemes.as_slice(),
        signature.entries.as_slice(),
    )?;
    Ok(Derivation { sections })
}

// A derivation whose lines are short ones, if the check allows it and its lines stand as those of a text.
fn short_derivation_of(
    alloc: Global,
    module: &Resolved,
    declared: &Names,
    signature: &Signature,
) -> Result<Option<Derivation>, Memory>
    requires names { AreNames declared.now }
    requires terms { AreTerms (length declared.now.schemes) «module».now.bindings }
    requires entries { All IsEntry signature.now.entries }
    requires derivable { CanAllBeDerived declared.now.schemes «module».now.bindings signature.now.entries }
    ensures steps { IfOk result (λ found. IfSome found (λ d. AreDerivations declared.now.schemes «module».now.bindings
        signature.now.entries d.sections)) }
    ensures derivable { IfOk result (λ found. IfSome found (λ d. AreDerivable declared.now.schemes
        «module».now.bindings d.sections)) }
    ensures text { IfOk result (λ found. IfSome found (λ d. IsTextOf (derivation_text d) d)) }
{
    let derivation = written(alloc, Way::Short, module, declared, signature)?;
    if verify(alloc, &derivation, module, declared)? != Verified::Yes {
        return Ok(None);
    }
    if !all_stand(alloc, derivation.sections.as_slice())? {
        return Ok(None);
    }
    prove!(are_spelled(derivation.sections.as_slice()));
    Ok(Some(derivation))
}

// A derivation whose lines are written plainly, which needs no check and always has a text.
fn plain_derivation_of(
    alloc: Global,
    module: &Resolved,
    declared: &Names,
    signature: &Signature,
) -> Result<Derivation, Memory>
    requires names { AreNames declared.now }
    requires terms { AreTerms (length declared.now.schemes) «module».now.bindings }
    requires entries { All IsEntry signature.now.entries }
    requires derivable { CanAllBeDerived declared.now.schemes «module».now.bindings signature.now.entries }
    ensures steps { IfOk result (λ d. AreDerivations declared.now.schemes «module».now.bindings signature.now.entries
        d.sections) }
    ensures derivable { IfOk result (λ d. AreDerivable declared.now.schemes «module».now.bindings d.sections) }
    ensures text { IfOk result (λ d. IsTextOf (derivation_text d) d) }
{
    let derivation = written(alloc, Way::Plain, module, declared, signature)?;
    prove!(are_spelled(derivation.sections.as_slice()));
    Ok(derivation)
}

/// A derivation of the signature of a module over the schemes of its environment: the operators, and what its imports
/// declare. There is one entry for each binding, whose type the rules derive, and whose text is printed. The derivation
/// has one section for each entry, each step is allowed, and what `print_derivation` writes of it is read back as the
/// same derivation. Its lines are short ones, which are checked; where the check refuses these, they are plain ones,
/// which are always allowed and have a text.
///
/// # Errors
///
/// `Memory` where memory is wanting.
pub fn derivation_of(
    alloc: Global,
    module: &Resolved,
    declared: &Names,
    signature: &Signature,
) -> Result<Derivation, Memory>
    requires names { AreNames declared.now }
    requires terms { AreTerms (length declared.now.schemes) «module».now.bindings }
    requires entries { All IsEntry signature.now.entries }
    requires derivable { CanAllBeDerived declared.now.schemes «module».now.bindings signature.now.entries }
    ensures steps { IfOk result (λ d. AreDerivations declared.now.schemes «module».now.bindings signature.now.entries
        d.sections) }
    ensures derivable { IfOk result (λ d. AreDerivable declared.now.schemes «module».now.bindings d.sections) }
    ensures text { IfOk result (λ d. IsTextOf (derivation_text d) d) }
{
    match short_derivation_of(alloc, module, declared, signature)? {
        Some(derivation) => Ok(derivation),
        None => plain_derivation_of(alloc, module, declared, signature),
    }
}
