//! How many binders and lets stand before a node.

ghost use Rattle.std.specs.Prelude.{◌≡◌, ◌+◌, ◌<◌, ◌^◌, IfOk, length, if◌then◌else◌};
ghost use Rattle.mls_names.specs.steps.Counts.{AreCounts, is_binder_form, is_let_form};

use mls_base::memory::Memory;
use mls_grammar::module::{ExprNode, Form};
use std::alloc::Global;

// How many functions and recursions, and how many lets.
#[derive(Clone, Copy)]
pub struct Count {
    pub binders: usize,
    pub lets: usize,
}

// How many are among the nodes before each node, and at the end how many among all.
pub fn counts(alloc: Global, nodes: &[ExprNode]) -> Result<Vec<Count>, Memory>
    ensures counts { IfOk result (λ counts. AreCounts nodes.now counts.items) }
    ensures room { IfOk result (λ counts. length counts.items < 2 ^ 62) }
{
    let mut counts = Vec::with_capacity(alloc, nodes.len().saturating_add(1))?;
    let mut count = Count {
        binders: 0,
        lets: 0,
    };
    counts.push(count)?;
    for node in nodes {
        count = with_node(count, &node.form);
        counts.push(count)?;
    }
    Ok(counts)
}

// One node more.
fn with_node(count: Count, form: &Form) -> Count
    requires binders { count.binders < 2 ^ 62 }
    requires lets { count.lets < 2 ^ 62 }
    ensures binders { result.binders ≡ count.binders + (if is_binder_form form.now then 1 else 0) }
    ensures lets { result.lets ≡ count.lets + (if is_let_form form.now then 1 else 0) }
{
    let Count { binders, lets } = count;
    match form {
        Form::Fun(_, _) | Form::Rec(_, _) => Count {
            binders: binders + 1,
            lets,
        },
        Form::Let(_, _, _) => Count {
            binders,
            lets: lets + 1,
        },
        _ => count,
    }
}
