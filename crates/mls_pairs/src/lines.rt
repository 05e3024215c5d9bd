//! Put lines and pair lines, and the table of them.
ghost use Rattle.std.specs.Prelude.{◌≡◌, ◌++◌, IfOk, OnOk};
ghost use Rattle.mls_pairs.specs.Lines.{IsTable, pair_lines, put_lines};

use crate::pairs::Pairs;
use mls_base::memory::Memory;
use mls_book::book::NodeId;
use mls_deriv::claim::{Pair, Put};
use mls_deriv::derivation::{SectionLine, SectionLines};
use mls_deriv::table::{Table, table_of};
use std::alloc::Global;

/// Adds put lines.
///
/// # Errors
///
/// `Memory` where memory is wanting.
pub fn push_puts(lines: &mut SectionLines, puts: &[Put]) -> Result<(), Memory>
    ensures { OnOk result (lines.new ≡ lines.old ++ put_lines puts.now) }
{
    for put in puts {
        lines.push(SectionLine::Put(put.variable, NodeId(put.node)))?;
    }
    Ok(())
}

/// Adds pair lines.
///
/// # Errors
///
/// `Memory` where memory is wanting.
pub fn push_pairs(lines: &mut SectionLines, pairs: &[Pair]) -> Result<(), Memory>
    ensures { OnOk result (lines.new ≡ lines.old ++ pair_lines pairs.now) }
{
    for pair in pairs {
        lines.push(SectionLine::Pair(pair.mode, NodeId(pair.left), NodeId(pair.right)))?;
    }
    Ok(())
}

// The put lines and then the pair lines.
fn lines_with(alloc: Global, puts: &[Put], pairs: &Pairs) -> Result<SectionLines, Memory>
    ensures { IfOk result (λ lines. lines ≡ put_lines puts.now ++ pair_lines pairs.now) }
{
    let mut lines = SectionLines::new(alloc);
    push_puts(&mut lines, puts)?;
    push_pairs(&mut lines, pairs.as_slice())?;
    Ok(lines)
}

/// The table of these nodes of variables and these pairs.
pub(crate) fn table_with(alloc: Global, puts: &[Put], pairs: &Pairs) -> Result<Table, Memory>
    ensures { IfOk result (IsTable puts.now pairs.now) }
{
    let lines = lines_with(alloc, puts, pairs)?;
    let table = table_of(alloc, lines.as_slice())?;
    Ok(table)
}
