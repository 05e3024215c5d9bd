//! The lines of modules beside their interfaces.
ghost use Rattle.std.specs.Prelude.{◌≡◌, ◌++◌, IfOk, OnOk};
ghost use Rattle.std.specs.List.{flat_map};
ghost use Rattle.mls_top.specs.Lines.{matches_line, absent_line, too_special_line, path_text, step_text, reason_text};
ghost use Rattle.mls_top.specs.Lines.{part_text};

use mls_automaton::automaton::HeadKind;
use mls_base::memory::Memory;
use mls_book::name::Name;
use mls_subsume::verdict::{Path, Reason, Step};
use std::alloc::Global;

/// The line of the module of this name that matches its interface.
pub fn matches_line(alloc: Global, name: &Name) -> Result<Vec<u8>, Memory>
    ensures { IfOk result (λ line. line.items ≡ matches_line name.now) }
{
    let mut line = Vec::new(alloc);
    line.extend_from_slice(name.bytes())?;
    line.extend_from_slice(b" matches ")?;
    line.extend_from_slice(name.bytes())?;
    line.extend_from_slice(b".mli\n")?;
    Ok(line)
}

/// The line of a module whose interface declares a name that it does not bind.
pub fn absent_line(alloc: Global, name: &Name, declared: &Name) -> Result<Vec<u8>, Memory>
    ensures { IfOk result (λ line. line.items ≡ absent_line name.now declared.now) }
{
    let mut line = Vec::new(alloc);
    line.extend_from_slice(name.bytes())?;
    line.extend_from_slice(b": val ")?;
    line.extend_from_slice(declared.bytes())?;
    line.extend_from_slice(b" is declared and not bound\n")?;
    Ok(line)
}

/// The line of a module with a binding whose scheme does not subsume the declared one, by this path.
pub fn too_special_line(
    alloc: Global,
    name: &Name,
    declared: &Name,
    path: &Path,
) -> Result<Vec<u8>, Memory>
    ensures { IfOk result (λ line. line.items ≡ too_special_line name.now declared.now path.now) }
{
    let mut line = Vec::new(alloc);
    line.extend_from_slice(name.bytes())?;
    line.extend_from_slice(b": val ")?;
    line.extend_from_slice(declared.bytes())?;
    line.extend_from_slice(b" is not general enough at ")?;
    add_path(&mut line, path.steps.as_slice())?;
    line.extend_from_slice(b" (")?;
    add_reason(&mut line, &path.reason)?;
    line.extend_from_slice(b")\n")?;
    Ok(line)
}

// Adds a path from the root of a type.
fn add_path(line: &mut Vec<u8>, steps: &[Step]) -> Result<(), Memory>
    ensures { OnOk result (line.new.items ≡ line.old.items ++ path_text steps.now) }
{
    line.extend_from_slice(b"root")?;
    add_steps(line, steps)?;
    Ok(())
}

// Adds the steps of a path.
fn add_steps(line: &mut Vec<u8>, steps: &[Step]) -> Result<(), Memory>
    ensures { OnOk result (line.new.items ≡ line.old.items ++ flat_map step_text steps.now) }
{
    for step in steps {
        add_step(line, step)?;
    }
    Ok(())
}

// Adds a step of a path.
fn add_step(line: &mut Vec<u8>, step: &Step) -> Result<(), Memory>
    ensures { OnOk result (line.new.items ≡ line.old.items ++ step_text step.now) }
{
    match step {
        Step::Domain => line.extend_from_slice(b".dom")?,
        Step::Codomain => line.extend_from_slice(b".cod")?,
        Step::At(label) => {
            line.extend_from_slice(b".{")?;
            line.extend_from_slice(label.bytes())?;
            line.extend_from_slice(b"}")?;
        }
    }
    Ok(())
}

// Adds what differs at the end of a path.
fn add_reason(line: &mut Vec<u8>, reason: &Reason) -> Result<(), Memory>
    ensures { OnOk result (line.new.items ≡ line.old.items ++ reason_text reason.now) }
{
    match reason {
        Reason::Head(kind) => line.extend_from_slice(part_text(kind))?,
        Reason::Label(label) => {
            line.extend_from_slice(b"field ")?;
            line.extend_from_slice(label.bytes())?;
        }
        Reason::Flow => line.extend_from_slice(b"flow")?,
    }
    Ok(())
}

// What is said of a part of a type.
fn part_text(kind: &HeadKind) -> &'static [u8]
    ensures { result.now ≡ part_text kind.now }
{
    match kind {
        HeadKind::Bool => b"bool",
        HeadKind::Int => b"int",
        HeadKind::Function => b"function",
        HeadKind::Rcd => b"record",
    }
}
