//! The check of a derivation.
ghost use Rattle.std.specs.Prelude.{◌≡◌, ◌+◌, All, IfOk, length};
ghost use Rattle.mls_typetext.specs.Laws.{IsReadScheme};
ghost use Rattle.mls_deriv.specs.Laws.{AreTerms};
ghost use Rattle.mls_deriv.specs.Verdicts.{IsVerdict};
ghost use Rattle.mls_deriv.specs.inner.Walks.{IsFound};

use crate::derivation::{Derivation, Section};
use crate::walk::{Checked, check_section, head_of};
use mls_base::memory::Memory;
use mls_term::term::{Resolved, ResolvedBinding};
use mls_typetext::scheme::{Names, ReadScheme};
use std::alloc::Global;

/// Whether every step is allowed, or the number of the first that is not.
#[derive(Clone, Copy, Debug, PartialEq, Eq)]
pub enum Verified {
    Yes,
    No(usize),
}

/// Checks a derivation for a module over the schemes of its environment: the operators, and what its imports declare.
/// There is one section for each binding, in order. Steps are counted from 0 over all sections, and each end counts as
/// one. It takes no recursion.
///
/// # Errors
///
/// `Memory` where memory is wanting.
pub fn verify(
    alloc: Global,
    derivation: &Derivation,
    module: &Resolved,
    declared: &Names,
) -> Result<Verified, Memory>
    requires schemes { All IsReadScheme declared.now.schemes }
    requires terms { AreTerms (length declared.now.schemes) «module».now.bindings }
    ensures { IfOk result (λ v. IsVerdict declared.now.schemes «module».now.bindings derivation.now.sections v) }
{
    let bindings = module.bindings.as_slice();
    let sections = derivation.sections.as_slice();
    let found = verify_all(alloc, declared.schemes.as_slice(), bindings, sections)?;
    Ok(found)
}

// Checks all sections.
pub(crate) fn verify_all(
    alloc: Global,
    declared: &[ReadScheme],
    bindings: &[ResolvedBinding],
    sections: &[Section],
) -> Result<Verified, Memory>
    ensures { IfOk result (IsFound declared.now bindings.now sections.now) }
{
    let mut earlier = Vec::new(alloc);
    let mut count: usize = 0;
    for i in 0..bindings.len() {
        let binding = &bindings[i];
        if i >= sections.len() {
            return Ok(Verified::No(count));
        }
        let section = &sections[i];
        let read = match head_of(alloc, section)? {
            None => return Ok(Verified::No(count)),
            Some(read) => read,
        };
        match check_section(alloc, declared, earlier.as_slice(), binding, section, &read)? {
            Checked::Refused(steps) => return Ok(Verified::No(sum(count, steps)?)),
            Checked::Allowed(steps) => {
                count = sum(sum(count, steps)?, 1)?;
                earlier.push(read)?;
            }
        }
    }
    if sections.len() > bindings.len() {
        return Ok(Verified::No(count));
    }
    Ok(Verified::Yes)
}

// The sum of two numbers; one that is too large is no number of steps that memory holds.
fn sum(first: usize, second: usize) -> Result<usize, Memory>
    ensures { IfOk result (λ n. n ≡ first + second) }
{
    first.checked_add(second).ok_or(Memory)
}
