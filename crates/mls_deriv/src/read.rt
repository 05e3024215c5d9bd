//! Derivations from their texts.
ghost use Rattle.std.specs.Prelude.{◌≡◌, ◌+◌, length, IfOk, IfErr};
ghost use Rattle.mls_deriv.specs.BadLines.{IsDerivFault, line_count};
ghost use Rattle.mls_deriv.specs.Texts.{IsTextOf};

use crate::derivation::{Derivation, Section, Sections};
use crate::fault::DerivFault;
use crate::front::behind;
use crate::section::{SectionRead, read_section, sum};
use mls_base::memory::Memory;
use std::alloc::Global;

/// Reads the text of a derivation. It takes no recursion, and time in proportion to the length of the text.
///
/// # Errors
///
/// The first bad line of the text, or `Memory` where memory is wanting.
pub fn read_derivation(alloc: Global, text: &[u8]) -> Result<Derivation, DerivFault>
    ensures read { IfOk result (IsTextOf text.now) }
    ensures bad { IfErr result (IsDerivFault text.now) }
{
    let mut rest = match behind(text, b"derivation 1\n") {
        None => return Err(DerivFault::BadLine(1)),
        Some(rest) => rest,
    };
    let mut number = 2;
    let mut sections = Sections::new(alloc);
    while !rest.is_empty() {
        match read_section(alloc, rest)? {
            SectionRead::Bad(k) => return Err(DerivFault::BadLine(sum(number, k)?)),
            SectionRead::Good(section, left) => {
                number = sum(number, line_count(&section)?)?;
                sections.push(section)?;
                rest = left;
            }
        }
    }
    Ok(Derivation { sections })
}

// How many lines a section has.
fn line_count(section: &Section) -> Result<usize, Memory>
    ensures { IfOk result (λ count. count ≡ line_count section.now) }
{
    sum(2, sum(section.nodes.len(), section.lines.len())?)
}
