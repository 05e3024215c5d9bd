//! The meaning of names.
ghost use Rattle.std.specs.Prelude.{◌≡◌, ◌≢◌, ◌↔◌, ◌++◌, ◌∷◌, [], IfOk, IfErr, OnOk, OnErr, All, IsTrue, length};
ghost use Rattle.mls_grammar.specs.Modules.{IsModule, AreDistinct};
ghost use Rattle.mls_term.specs.WellFormed.{HasRisingTree};
ghost use Rattle.mls_names.specs.Resolution.{Resolves, HasUnknownName};

use crate::resolver::Resolver;
use mls_base::list::List;
use mls_book::name::Name;
use mls_grammar::fault::Fault;
use mls_grammar::module::Module;
use mls_term::term::{Resolved, ResolvedBindings};
use std::alloc::Global;

/// The names that an interface declares, in its order.
pub type NameList = List<Name>;

/// Replaces each name of a module by what it means: the innermost binder of that spelling around it; if there is
/// none, the earlier binding of the module; if there is none, the declaration of the latest import that has it.
/// Binders are numbered in the order of the text, so one in the body of another has the higher number.
/// It takes no recursion, so expressions may be as deep as memory allows.
///
/// # Errors
///
/// `UnknownName` with the place of the first name that means nothing; `Memory` where memory is wanting.
pub fn resolve(alloc: Global, module: &Module, declared: &[NameList]) -> Result<Resolved, Fault>
    requires module { IsModule «module».now }
    requires declared { length declared.now ≡ length «module».now.imports }
    requires distinct { All AreDistinct declared.now }
    ensures found { IfOk result (λ r. Resolves «module».now declared.now r) }
    ensures rising { IfOk result (λ r. All (λ b. HasRisingTree b.term.nodes) r.bindings) }
    ensures fault { IfErr result (λ f. f ≢ Fault.Memory → HasUnknownName «module».now declared.now f) }
{
    let mut resolver = Resolver::new(alloc);
    let mut schemes = resolver.declare_imports(declared)?;
    let mut bindings = ResolvedBindings::new(alloc);
    for binding in module.bindings.as_slice() {
        bindings.push(resolver.binding(alloc, binding)?)?;
        schemes = resolver.declare(&binding.name, schemes)?;
    }
    Ok(Resolved { bindings })
}
