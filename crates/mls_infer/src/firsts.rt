//! The roots of the first parts of lets.
ghost use Rattle.std.specs.Prelude.{◌≡◌, IfOk, OnOk};
ghost use Rattle.std.specs.BTreeMap.{get};
ghost use Rattle.std.specs.Ordering.{nat_cmp};
ghost use Rattle.mls_infer.specs.Finishing.{first_at, first_in, or_earlier};

use mls_base::memory::Memory;
use mls_term::term::{TermForm, TermNode};
use std::alloc::Global;
use std::collections::BTreeMap;

/// For each let number the root of the first part of its let.
pub(crate) fn firsts_of(alloc: Global, nodes: &[TermNode]) -> Result<BTreeMap<usize, usize>, Memory>
    ensures { IfOk result (λ firsts. (k : _) → get nat_cmp firsts k ≡ first_in nodes.now k) }
{
    let mut firsts = BTreeMap::new(alloc);
    for node in nodes {
        note(&mut firsts, &node.form)?;
    }
    Ok(firsts)
}

// Notes the first part of a node that is a let.
fn note(firsts: &mut BTreeMap<usize, usize>, form: &TermForm) -> Result<(), Memory>
    ensures { OnOk result ((k : _)
        → get nat_cmp firsts.new k ≡ or_earlier (first_at form.now k) (get nat_cmp firsts.old k)) }
{
    if let TermForm::Let(number, first, _) = form {
        firsts.insert(*number, *first)?;
    }
    Ok(())
}
