//! The signature of the first bindings of a module.
ghost use Rattle.std.specs.Prelude.{◌≡◌, ◌≢◌, ◌≤◌, length, IfOk, IfErr};
ghost use Rattle.mls_grammar.specs.Modules.{IsModule};
ghost use Rattle.mls_modules.specs.Environments.{AreInterfacesOf};
ghost use Rattle.mls_modules.specs.Entries.{IsSignatureOf};
ghost use Rattle.mls_modules.specs.ModuleFaults.{HasModuleFault, first_bindings};

use crate::copy::copy_name;
use crate::fault::ModuleFault;
use crate::infer::infer_module;
use mls_base::memory::Memory;
use mls_grammar::module::{
    Binding, Bindings, Expr, ExprNode, ExprNodes, Form, Import, Imports, Module,
};
use mls_iface::interface::Interface;
use mls_iface::signature::Signature;
use std::alloc::Global;

/// The signature of the module that has the first `count` bindings of this one alone.
///
/// # Errors
///
/// Those of `infer_module`, for that module.
pub fn infer_first(
    alloc: Global,
    module: &Module,
    imports: &[Interface],
    count: usize,
) -> Result<Signature, ModuleFault>
    requires module { IsModule «module».now }
    requires imports { AreInterfacesOf «module».now imports.now }
    requires count { count ≤ length «module».now.bindings }
    ensures signature { IfOk result (IsSignatureOf (first_bindings count «module».now) imports.now) }
    ensures fault { IfErr result (λ f. f ≢ ModuleFault.Memory
        → HasModuleFault (first_bindings count «module».now) imports.now f) }
{
    let first = copy_first(alloc, module, count)?;
    infer_module(alloc, &first, imports)
}

// The module with the first bindings alone.
fn copy_first(alloc: Global, module: &Module, count: usize) -> Result<Module, Memory>
    requires { count ≤ length «module».now.bindings }
    ensures { IfOk result (λ first. first ≡ first_bindings count «module».now) }
{
    let all = module.bindings.as_slice();
    let mut bindings = Bindings::new(alloc);
    for i in 0..count {
        bindings.push(copy_binding(alloc, &all[i])?)?;
    }
    let imports = copy_imports(alloc, module.imports.as_slice())?;
    Ok(Module { imports, bindings })
}

fn copy_imports(alloc: Global, imports: &[Import]) -> Result<Imports, Memory>
    ensures { IfOk result (λ copy. copy ≡ imports.now) }
{
    let mut copy = Imports::new(alloc);
    for import in imports {
        let name = copy_name(alloc, &import.name)?;
        copy.push(Import {
            name,
            at: import.at,
        })?;
    }
    Ok(copy)
}

fn copy_binding(alloc: Global, binding: &Binding) -> Result<Binding, Memory>
    ensures { IfOk result (λ copy. copy ≡ binding.now) }
{
    let name = copy_name(alloc, &binding.name)?;
    let nodes = copy_nodes(alloc, binding.expr.nodes.as_slice())?;
    Ok(Binding {
        name,
        at: binding.at,
        expr: Expr { nodes },
    })
}

fn copy_nodes(alloc: Global, nodes: &[ExprNode]) -> Result<ExprNodes, Memory>
    ensures { IfOk result (λ copy. copy ≡ nodes.now) }
{
    let mut copy = ExprNodes::new(alloc);
    for node in nodes {
        let form = copy_form(alloc, &node.form)?;
        copy.push(ExprNode { at: node.at, form })?;
    }
    Ok(copy)
}

fn copy_form(alloc: Global, form: &Form) -> Result<Form, Memory>
    ensures { IfOk result (λ copy. copy ≡ form.now) }
{
    Ok(match form {
        Form::Var(name) => Form::Var(copy_name(alloc, name)?),
        Form::Operator(operator) => Form::Operator(*operator),
        Form::Number(value) => Form::Number(*value),
        Form::Truth(value) => Form::Truth(*value),
        Form::Fun(name, body) => Form::Fun(copy_name(alloc, name)?, *body),
        Form::Apply(function, argument) => Form::Apply(*function, *argument),
        Form::Make(parts) => Form::Make(parts.clone()?),
        Form::Project(record, label) => Form::Project(*record, copy_name(alloc, label)?),
        Form::If(condition, yes, no) => Form::If(*condition, *yes, *no),
        Form::Let(name, bound, body) => Form::Let(copy_name(alloc, name)?, *bound, *body),
        Form::Rec(name, body) => Form::Rec(copy_name(alloc, name)?, *body),
    })
}
