//! From the text of a module to its tree.
ghost use Rattle.std.specs.Prelude.{◌≡◌, ◌≢◌, IfOk, IfErr};
ghost use Rattle.mls_grammar.specs.Modules.{IsModuleText};
ghost use Rattle.mls_grammar.specs.FirstFaults.{HasFirstFault};

use crate::doubles::first_double;
use crate::nodes::module_of;
use crate::read::{SourcePieces, read};
pub use mls_grammar::fault::Fault;
use mls_grammar::module::Module;
use mls_lexer::scan::tokens;
use std::alloc::Global;

/// Reads the text of a module: its tree, or its first fault.
///
/// The stages come in this order, and a later one is looked at only if the earlier ones have no fault: the tokens, the
/// grammar, and names and labels that are given twice. Within a stage the fault with the least place is answered. Names
/// are not looked up here. It takes no recursion, so chains of operators, arguments and bindings may be as long as
/// memory allows; expressions are nested at most 200 deep.
///
/// # Errors
///
/// The first fault of the text, or `Memory` where memory is wanting.
pub fn parse_module(alloc: Global, text: &[u8]) -> Result<Module, Fault>
    ensures found { IfOk result (λ m. IsModuleText text.now m) }
    ensures fault { IfErr result (λ fault. fault ≢ Fault.Memory → HasFirstFault text.now fault) }
{
    let tokens = tokens(alloc, text)?;
    let SourcePieces { pieces, events } = read(alloc, text, &tokens)?;
    if let Some(fault) = first_double(alloc, events)? {
        return Err(fault);
    }
    let module = module_of(alloc, pieces)?;
    Ok(module)
}
