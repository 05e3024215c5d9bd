//! Whether the signature of a module matches the module's own interface.
ghost use Rattle.std.specs.Prelude.{◌≢◌, IfOk, IfErr};
ghost use Rattle.mls_grammar.specs.Modules.{IsModule};
ghost use Rattle.mls_modules.specs.Environments.{AreInterfacesOf, IsValidInterface};
ghost use Rattle.mls_modules.specs.Entries.{IsMatchOf};
ghost use Rattle.mls_modules.specs.ModuleFaults.{HasModuleFault};

use crate::fault::ModuleFault;
use crate::infer::infer_module;
use mls_grammar::module::Module;
use mls_iface::interface::Interface;
use mls_iface::matching::{MatchAnswer, matches};
use std::alloc::Global;

/// Whether the signature of a module matches an interface, or the first declaration that fails, in the order of the
/// interface `own`.
///
/// # Errors
///
/// Those of `infer_module`.
pub fn check_module(
    alloc: Global,
    module: &Module,
    imports: &[Interface],
    own: &Interface,
) -> Result<MatchAnswer, ModuleFault>
    requires module { IsModule «module».now }
    requires imports { AreInterfacesOf «module».now imports.now }
    requires own { IsValidInterface own.now }
    ensures answer { IfOk result (IsMatchOf «module».now imports.now own.now) }
    ensures fault { IfErr result (λ f. f ≢ ModuleFault.Memory → HasModuleFault «module».now imports.now f) }
{
    let signature = infer_module(alloc, module, imports)?;
    let answer = matches(alloc, &signature, own)?;
    Ok(answer)
}
