//! Whether a step is allowed.
ghost use Rattle.std.specs.Prelude.{◌≡◌, ◌↔◌, ◌++◌, IsTrue, IfOk, Some, slice_get, length};
ghost use Rattle.std.specs.BTreeMap.{get};
ghost use Rattle.std.specs.FinMap as finmap;
ghost use Rattle.std.specs.Ordering.{nat_cmp};
ghost use Rattle.mls_book.specs.Books.{IsClosedBook};
ghost use Rattle.mls_deriv.specs.Sections.{schemes_of};
ghost use Rattle.mls_deriv.specs.Steps.{form_at, IsAllowed, IsRising, puts_of, pairs_of};
ghost use Rattle.mls_deriv.specs.inner.Names.{DoStand};
ghost use Rattle.mls_deriv.specs.inner.Rules.{ByForm, HasRule, IsPlain};
ghost use Rattle.mls_deriv.specs.inner.Tables.{Holds, put_in};

use crate::derivation::{SectionLine, StepLine, StepRule};
use crate::named::StandingNames;
use crate::rules::{
    by_app, by_fun, by_if, by_let, by_lit, by_make, by_name, by_proj, by_rec, by_use, by_var,
};
use crate::steps::Steps;
use crate::sub::by_sub;
use crate::table::{Table, table_of};
use mls_base::memory::Memory;
use mls_book::book::Book;
use mls_term::term::{TermForm, TermNode};
use mls_typetext::scheme::ReadScheme;
use std::alloc::Global;
use std::collections::BTreeMap;

/// Whether the step is allowed that these lines follow, in a section over these nodes, behind these steps and let
/// lines. The schemes of the environment are the declared ones and then the earlier ones; the nodes of some are known to
/// stand in the book.
///
/// # Errors
///
/// `Memory` where memory is wanting.
pub(crate) fn is_allowed(
    alloc: Global,
    nodes: &[TermNode],
    declared: &[ReadScheme],
    earlier: &[ReadScheme],
    names: &StandingNames,
    book: &Book,
    steps: &Steps,
    lets: &BTreeMap<usize, usize>,
    lines: &[SectionLine],
    step: &StepLine,
) -> Result<bool, Memory>
    requires closed { IsClosedBook book.now }
    requires names { DoStand book.now (declared.now ++ earlier.now) names.now }
    requires rising { (n : _) (s : _) → slice_get steps.now n ≡ Some s → IsRising s.env }
    ensures { IfOk result (λ allowed. (known : _) → ((k : _) → get nat_cmp lets.now k ≡ finmap.find nat_cmp k known)
        → IsTrue allowed ↔ IsAllowed (record {
          term_nodes = nodes.now;
          globals = schemes_of (declared.now ++ earlier.now);
          book = book.now;
          steps = steps.now;
          lets = known;
        }) (puts_of lines.now) (pairs_of lines.now) step.now) }
{
    let table = table_of(alloc, lines)?;
    let found = is_found(
        alloc, nodes, declared, earlier, names, book, steps, lets, &table, lines, step,
    )?;
    Ok(found)
}

// Whether the step is plain and has what its rule asks.
fn is_found(
    alloc: Global,
    nodes: &[TermNode],
    declared: &[ReadScheme],
    earlier: &[ReadScheme],
    names: &StandingNames,
    book: &Book,
    steps: &Steps,
    lets: &BTreeMap<usize, usize>,
    table: &Table,
    lines: &[SectionLine],
    step: &StepLine,
) -> Result<bool, Memory>
    requires closed { IsClosedBook book.now }
    requires names { DoStand book.now (declared.now ++ earlier.now) names.now }
    ensures { IfOk result (λ found. IsTrue found ↔ (IsPlain (length book.now) step.now × HasRule book.now steps.now
        (get nat_cmp lets.now) (declared.now ++ earlier.now) (put_in table.now) (Holds table.now) lines.now
        step.now step.now.rule (form_at nodes.now step.now.node))) }
{
    if !is_plain(book, step) {
        return Ok(false);
    }
    has_rule(
        alloc, nodes, declared, earlier, names, book, steps, lets, table, lines, step,
    )
}

// Whether the nodes of the step are in the book, and its binders rise.
fn is_plain(book: &Book, step: &StepLine) -> bool
    ensures { IsTrue result ↔ IsPlain (length book.now) step.now }
{
    step.root.0 < book.len() && step.env.are_low(book.len()) && step.env.is_rising()
}

// Whether the step has what its rule asks.
fn has_rule(
    alloc: Global,
    nodes: &[TermNode],
    declared: &[ReadScheme],
    earlier: &[ReadScheme],
    names: &StandingNames,
    book: &Book,
    steps: &Steps,
    lets: &BTreeMap<usize, usize>,
    table: &Table,
    lines: &[SectionLine],
    step: &StepLine,
) -> Result<bool, Memory>
    requires closed { IsClosedBook book.now }
    requires names { DoStand book.now (declared.now ++ earlier.now) names.now }
    requires rising { IsRising step.now.env }
    ensures { IfOk result (λ has. IsTrue has ↔ HasRule book.now steps.now (get nat_cmp lets.now)
        (declared.now ++ earlier.now) (put_in table.now) (Holds table.now) lines.now
        step.now step.now.rule (form_at nodes.now step.now.node)) }
{
    if let StepRule::Sub(number) = &step.rule {
        return Ok(by_sub(book, steps, table, step, lines, *number));
    }
    match nodes.get(step.node) {
        None => Ok(false),
        Some(node) => by_form(
            alloc, declared, earlier, names, book, steps, lets, step, &node.form,
        ),
    }
}

// Whether the step has what its rule asks, where the node that it is about has this form.
fn by_form(
    alloc: Global,
    declared: &[ReadScheme],
    earlier: &[ReadScheme],
    names: &StandingNames,
    book: &Book,
    steps: &Steps,
    lets: &BTreeMap<usize, usize>,
    step: &StepLine,
    form: &TermForm,
) -> Result<bool, Memory>
    requires closed { IsClosedBook book.now }
    requires names { DoStand book.now (declared.now ++ earlier.now) names.now }
    requires rising { IsRising step.now.env }
    ensures { IfOk result (λ has. IsTrue has ↔ ByForm book.now steps.now (get nat_cmp lets.now)
        (declared.now ++ earlier.now) step.now step.now.rule form.now) }
{
    if let StepRule::Make(numbers) = &step.rule {
        return by_make(alloc, book, steps, step, numbers.as_slice(), form);
    }
    Ok(match &step.rule {
        StepRule::Var => by_var(step, form),
        StepRule::Use(number) => by_use(steps, lets, step, *number, form),
        StepRule::Name(n) => by_name(book, declared, earlier, names, step, *n, form),
        StepRule::Lit => by_lit(book, step, form),
        StepRule::Fun(number) => by_fun(book, steps, step, *number, form),
        StepRule::App(first, second) => by_app(book, steps, step, *first, *second, form),
        StepRule::Make(_) => false,
        StepRule::Proj(number) => by_proj(book, steps, step, *number, form),
        StepRule::If(first, second, third) => by_if(
            book,
            steps,
            step,
            (*first, *second, *third),
            form,
        ),
        StepRule::Let(first, second) => by_let(book, steps, lets, step, *first, *second, form),
        StepRule::Rec(number) => by_rec(steps, step, *number, form),
        StepRule::Sub(_) => false,
    })
}
