//! The check of the lines of a section.
ghost use Rattle.std.specs.Prelude.{◌≡◌, ◌≢◌, ◌↔◌, ◌++◌, ◌+◌, ◌<◌, [], suc, drop, IfOk, OnOk, IsTrue, Some, None};
ghost use Rattle.std.specs.Prelude.{if◌then◌else◌, length, nat_eq};
ghost use Rattle.std.specs.BTreeMap.{get};
ghost use Rattle.std.specs.Ordering.{nat_cmp};
ghost use Rattle.mls_book.specs.Books.{IsClosedBook};
ghost use Rattle.mls_deriv.specs.Sections.{schemes_of, at_start, steps_of, IsEndAllowed, IsHeadRead};
ghost use Rattle.mls_deriv.specs.Steps.{HasFrom};
ghost use Rattle.mls_deriv.specs.inner.Names.{DoStand};
ghost use Rattle.mls_deriv.specs.inner.Rules.{Given, IsWhole, last_of};
ghost use Rattle.mls_deriv.specs.inner.Tables.{or_else};
ghost use Rattle.mls_deriv.specs.inner.Walks.{AreChecked, GoesOn, HasCome, IsChecked, IsHead};

use crate::check::is_allowed;
use crate::derivation::{Section, SectionLine, StepLine};
use crate::named::{StandingNames, standing_names};
use crate::rules::has_from;
use crate::steps::Steps;
use mls_base::memory::Memory;
use mls_book::book::Book;
use mls_term::term::ResolvedBinding;
use mls_typetext::from_text::read_type;
use mls_typetext::scheme::{ReadScheme, TypeFault};
use std::alloc::Global;
use std::collections::BTreeMap;

/// Whether a section is allowed. Both have the number of its steps up to the refused one, or up to the end.
#[derive(Clone, Copy, Debug, PartialEq, Eq)]
pub enum Checked {
    Allowed(usize),
    Refused(usize),
}

/// What the head of the section is read as, if it is.
///
/// # Errors
///
/// `Memory` where memory is wanting.
pub fn head_of(alloc: Global, section: &Section) -> Result<Option<ReadScheme>, Memory>
    ensures { IfOk result (IsHead section.now) }
{
    match read_type(alloc, section.text.as_slice()) {
        Err(fault) => {
            if is_memory(&fault) {
                Err(Memory)
            } else {
                Ok(None)
            }
        }
        Ok(read) => {
            if begins_with(&section.nodes, &read.book) {
                Ok(Some(read))
            } else {
                Ok(None)
            }
        }
    }
}

// Whether memory was wanting.
pub(crate) fn is_memory(fault: &TypeFault) -> bool
    ensures { IsTrue result ↔ (fault.now ≡ TypeFault.Memory) }
{
    matches!(fault, TypeFault::Memory)
}

// Whether the book is closed and begins with the other one.
fn begins_with(book: &Book, front: &Book) -> bool
    ensures { IsTrue result ↔ (IsClosedBook book.now × HasFrom book.now 0 front.now) }
{
    book.len() >= front.len() && book.is_closed() && has_from(book, 0, front)
}

/// Whether a section is allowed whose head is read as this.
///
/// # Errors
///
/// `Memory` where memory is wanting.
pub fn check_section(
    alloc: Global,
    declared: &[ReadScheme],
    earlier: &[ReadScheme],
    binding: &ResolvedBinding,
    section: &Section,
    read: &ReadScheme,
) -> Result<Checked, Memory>
    requires head { IsHeadRead section.now read.now }
    ensures { IfOk result (IsChecked (schemes_of (declared.now ++ earlier.now)) binding.now section.now read.now) }
{
    let names = standing_names(
        alloc,
        declared,
        earlier,
        binding.term.nodes.as_slice(),
        section,
    )?;
    let mut steps = Steps::new(alloc);
    if !check_lines(
        alloc, declared, earlier, binding, &names, section, &mut steps,
    )? {
        return Ok(Checked::Refused(steps.len()));
    }
    if !is_end(binding, section, read, &steps) {
        return Ok(Checked::Refused(steps.len()));
    }
    Ok(Checked::Allowed(steps.len()))
}

// Whether all lines are allowed. The steps are then all steps, and else those before the first that is not allowed.
fn check_lines<'a>(
    alloc: Global,
    declared: &[ReadScheme],
    earlier: &[ReadScheme],
    binding: &ResolvedBinding,
    names: &StandingNames,
    section: &'a Section,
    steps: &mut Steps<'a>,
) -> Result<bool, Memory>
    requires closed { IsClosedBook section.now.nodes }
    requires names { DoStand section.now.nodes (declared.now ++ earlier.now) names.now }
    requires none { steps.old ≡ [] }
    ensures { IfOk result (AreChecked
        (at_start (schemes_of (declared.now ++ earlier.now)) binding.now section.now) section.now.lines steps.new) }
{
    let mut lets = BTreeMap::new(alloc);
    for i in 0..section.lines.len() {
        if !take_line(
            alloc, declared, earlier, binding, names, section, steps, &mut lets, i,
        )? {
            return Ok(false);
        }
    }
    Ok(true)
}

// Takes one line, and answers whether it goes on.
fn take_line<'a>(
    alloc: Global,
    declared: &[ReadScheme],
    earlier: &[ReadScheme],
    binding: &ResolvedBinding,
    names: &StandingNames,
    section: &'a Section,
    steps: &mut Steps<'a>,
    lets: &mut BTreeMap<usize, usize>,
    i: usize,
) -> Result<bool, Memory>
    requires closed { IsClosedBook section.now.nodes }
    requires names { DoStand section.now.nodes (declared.now ++ earlier.now) names.now }
    requires low { i < length section.now.lines }
    requires come { HasCome (at_start
        (schemes_of (declared.now ++ earlier.now)) binding.now section.now) section.now.lines
        (drop i section.now.lines) steps.old (get nat_cmp lets.old) }
    ensures { IfOk result (GoesOn (at_start
        (schemes_of (declared.now ++ earlier.now)) binding.now section.now) section.now.lines
        (drop (i + 1) section.now.lines) steps.new (get nat_cmp lets.new)) }
{
    let lines = section.lines.as_slice();
    match &lines[i] {
        SectionLine::Let(k, number) => {
            note_let(lets, *k, *number)?;
            Ok(true)
        }
        SectionLine::Step(own) => {
            let step = own.get();
            let nodes = binding.term.nodes.as_slice();
            let rest = &lines[i + 1..];
            if !is_allowed(
                alloc,
                nodes,
                declared,
                earlier,
                names,
                &section.nodes,
                steps,
                lets,
                rest,
                step,
            )? {
                return Ok(false);
            }
            steps.push(step)?;
            Ok(true)
        }
        SectionLine::Put(_, _) => Ok(true),
        SectionLine::Pair(_, _, _) => Ok(true),
    }
}

// Notes the step of a let number, unless it has one.
fn note_let(lets: &mut BTreeMap<usize, usize>, k: usize, number: usize) -> Result<(), Memory>
    ensures { OnOk result ((q : _)
        → get nat_cmp lets.new q ≡ or_else (get nat_cmp lets.old q) (if nat_eq k q then Some number else None)) }
{
    if !lets.contains_key(&k) {
        lets.insert(k, number)?;
    }
    Ok(())
}

// Whether the end of the section is allowed, behind these steps.
#[tactic(auto, using(crate::proofs::Walks::end_is))]
fn is_end(binding: &ResolvedBinding, section: &Section, read: &ReadScheme, steps: &Steps) -> bool
    requires all { steps.now ≡ steps_of section.now.lines }
    ensures { IsTrue result ↔ IsEndAllowed binding.now section.now read.now }
{
    section.name == binding.name && is_end_step(binding, read, steps)
}

// Whether the last step gives the whole term the type that was read.
fn is_end_step(binding: &ResolvedBinding, read: &ReadScheme, steps: &Steps) -> bool
    ensures { IsTrue result ↔ Given (last_of steps.now) (IsWhole (length binding.now.term.nodes) read.now) }
{
    match steps.last() {
        None => false,
        Some(last) => is_whole(binding.term.nodes.len(), read, last),
    }
}

// Whether the step gives the last of so many nodes the type that was read.
fn is_whole(count: usize, read: &ReadScheme, last: &StepLine) -> bool
    ensures { IsTrue result ↔ IsWhole count read.now last.now }
{
    count > 0 && count - 1 == last.node && last.env.is_empty() && last.root == read.root
}
