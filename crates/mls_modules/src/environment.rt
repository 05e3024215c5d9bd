//! What imports declare, and what the names of a module mean.
ghost use Rattle.std.specs.Prelude.{◌≡◌, ◌++◌, map, IfOk, OnOk, All};
ghost use Rattle.mls_infer.specs.Inference.{AreNames};
ghost use Rattle.mls_iface.specs.Signatures.{IsEntry};
ghost use Rattle.mls_modules.specs.Environments.{IsValidInterface, MeanAfter, declared_names, declared_schemes};
ghost use Rattle.mls_modules.specs.Environments.{entry_schemes};

use crate::copy::{copy_name, copy_scheme};
use crate::types::operators;
use mls_base::list::List;
use mls_base::memory::Memory;
use mls_iface::interface::{Interface, Val};
use mls_iface::signature::{SigEntry, Signature};
use mls_names::resolve::NameList;
use mls_typetext::scheme::Names;
use std::alloc::Global;

/// What is known behind the entries of a signature: the five operators, the declared schemes of the imports in order,
/// and the schemes of the entries.
///
/// # Errors
///
/// `Memory` where memory is wanting.
pub fn names_of(alloc: Global, imports: &[Interface], before: &Signature) -> Result<Names, Memory>
    requires imports { All IsValidInterface imports.now }
    requires before { All IsEntry before.now.entries }
    ensures names { IfOk result AreNames }
    ensures environment { IfOk result (MeanAfter imports.now before.now.entries) }
{
    let mut names = operators(alloc)?;
    add_imports(alloc, &mut names, imports)?;
    add_entries(alloc, &mut names, before.entries.as_slice())?;
    Ok(names)
}

// Adds the schemes that the imports declare.
fn add_imports(alloc: Global, names: &mut Names, imports: &[Interface]) -> Result<(), Memory>
    ensures { OnOk result (names.new.schemes ≡ names.old.schemes ++ declared_schemes imports.now) }
{
    for import in imports {
        add_declared(alloc, names, import.vals.as_slice())?;
    }
    Ok(())
}

// Adds the schemes of these declarations.
fn add_declared(alloc: Global, names: &mut Names, vals: &[Val]) -> Result<(), Memory>
    ensures { OnOk result (names.new.schemes ≡ names.old.schemes ++ map (λ v. v.scheme) vals.now) }
{
    for val in vals {
        names.schemes.push(copy_scheme(alloc, &val.scheme)?)?;
    }
    Ok(())
}

// Adds the schemes of these entries.
fn add_entries(alloc: Global, names: &mut Names, entries: &[SigEntry]) -> Result<(), Memory>
    ensures { OnOk result (names.new.schemes ≡ names.old.schemes ++ entry_schemes entries.now) }
{
    for entry in entries {
        names.schemes.push(copy_scheme(alloc, &entry.scheme)?)?;
    }
    Ok(())
}

/// The names that each import declares, as `resolve` takes them.
///
/// # Errors
///
/// `Memory` where memory is wanting.
pub fn declared_names(alloc: Global, imports: &[Interface]) -> Result<List<NameList>, Memory>
    ensures { IfOk result (λ names. names ≡ declared_names imports.now) }
{
    let mut declared = List::new(alloc);
    for import in imports {
        declared.push(names_in(alloc, import.vals.as_slice())?)?;
    }
    Ok(declared)
}

// The names of these declarations.
fn names_in(alloc: Global, vals: &[Val]) -> Result<NameList, Memory>
    ensures { IfOk result (λ names. names ≡ map (λ v. v.name) vals.now) }
{
    let mut names = NameList::new(alloc);
    for val in vals {
        names.push(copy_name(alloc, &val.name)?)?;
    }
    Ok(names)
}
