//! A type scheme as the text of a type.
ghost use Rattle.std.specs.Prelude.{◌≡◌, [], IfOk, OnOk};
ghost use Rattle.mls_automaton.specs.Schemes.{IsScheme};
ghost use Rattle.mls_print.specs.Laws.{ReadsBack, IsOneLine};
ghost use Rattle.mls_print.specs.Printed.{HasNamedFields, IsPrinted};

use crate::layout::layout_of;
use crate::spelled::read_labels;
use crate::table::table_of;
use crate::variables::variable_numbers;
use crate::walk::printing_order;
use crate::write::text_of;
use mls_automaton::scheme::Scheme;
use mls_base::memory::Memory;
use std::alloc::Global;

/// The printed text of a scheme that needs no binder. It is read as an equivalent scheme, and has no newline and no
/// comment. The labels of a scheme are names, as their type says.
///
/// # Errors
///
/// `Memory` where memory is wanting.
pub fn print_scheme(alloc: Global, s: &Scheme) -> Result<Vec<u8>, Memory>
    requires scheme { IsScheme s.now }
    requires env { s.now.env ≡ [] }
    ensures text { IfOk result (λ text. IsPrinted s.now text.items) }
    ensures reads_back { IfOk result (λ text. ReadsBack s.now text.items) }
    ensures one_line { IfOk result (λ text. IsOneLine text.items) }
    ensures named { OnOk result (HasNamedFields s.now.automaton) }
{
    let automaton = &s.automaton;
    read_labels(automaton);
    let order = printing_order(alloc, automaton, s.root)?;
    let variables = variable_numbers(alloc, automaton, &order)?;
    let table = table_of(alloc, automaton, &order, variables.as_slice(), s.root)?;
    let layout = layout_of(alloc, &table)?;
    let text = text_of(alloc, &layout, automaton.len())?;
    Ok(text)
}
