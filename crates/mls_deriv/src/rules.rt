//! What each rule of a step asks.
ghost use Rattle.std.specs.Prelude.{◌≡◌, ◌↔◌, ◌+◌, ◌++◌, ◌∷◌, [], All, IsTrue, is_some, Some, map, option_map};
ghost use Rattle.std.specs.Prelude.{slice_get, IfOk};
ghost use Rattle.std.specs.BTreeMap.{get};
ghost use Rattle.std.specs.BTreeSet.{contains};
ghost use Rattle.std.specs.Cmp.Lexicographic.{slice_cmp};
ghost use Rattle.std.specs.Ordering.{nat_cmp};
ghost use Rattle.mls_book.specs.Books.{node_at, AreRising, IsClosedBook};
ghost use Rattle.mls_term.specs.Derivations.{IsMeetAt};
ghost use Rattle.mls_deriv.specs.Steps.{raised, raised_field, HasFrom, IsRising};
ghost use Rattle.mls_book.specs.declared.book.Node.TheVariants.{Int, Bool, Top, Arrow, Meet, Rcd};
ghost use Rattle.mls_deriv.specs.inner.Rules.{Given, ByVar, ByUse, ByName, ByLit, ByFun, ByApp, ByMake, ByProj, ByIf};
ghost use Rattle.mls_deriv.specs.inner.Rules.{ByLet};
ghost use Rattle.mls_deriv.specs.inner.Rules.{ByRec, node_in, IsFunction, IsDomain, IsApplication};
ghost use Rattle.mls_deriv.specs.inner.Rules.{IsFieldOf, AreFieldsOf, IsRecord, IsOneField, AreBranches, IsMeetIn};
ghost use Rattle.mls_deriv.specs.inner.Rules.{child_of, AreLabelsOf};
ghost use Rattle.mls_deriv.specs.inner.Names.{DoStand, StandsAt};

use crate::derivation::{BinderNode, StepLine};
use crate::justify::node_or;
use crate::lookup::{field_of, node_in};
use crate::named::StandingNames;
use crate::steps::{Steps, is_same, is_without};
use mls_base::memory::Memory;
use mls_book::book::{Book, Field, Node, NodeId};
use mls_book::name::Name;
use mls_term::term::{Part, TermForm};
use mls_typetext::scheme::ReadScheme;
use std::alloc::Global;
use std::collections::{BTreeMap, BTreeSet};

/// A binder: the environment is just this binder, at the node of the step.
pub fn by_var(step: &StepLine, form: &TermForm) -> bool
    ensures { IsTrue result ↔ ByVar step.now form.now }
{
    match form {
        TermForm::Bound(x) => is_one(step.env.as_slice(), *x, step.root),
        _ => false,
    }
}

// Whether the environment is one binder with this node.
fn is_one(env: &[BinderNode], binder: usize, node: NodeId) -> bool
    ensures { IsTrue result ↔ (env.now ≡ record { binder = binder; node = node } ∷ []) }
{
    env.len() == 1 && env[0].binder == binder && env[0].node == node
}

/// A let-bound name: the step that its let line names has the same environment and node.
pub fn by_use(
    steps: &Steps,
    lets: &BTreeMap<usize, usize>,
    step: &StepLine,
    number: usize,
    form: &TermForm,
) -> bool
    ensures { IsTrue result ↔ ByUse steps.now (get nat_cmp lets.now) step.now number form.now }
{
    match form {
        TermForm::Inner(k) => is_let(lets, *k, number) && concludes_as(steps, step, number),
        _ => false,
    }
}

// Whether the let number has the scheme of this step.
fn is_let(lets: &BTreeMap<usize, usize>, k: usize, number: usize) -> bool
    ensures { IsTrue result ↔ (get nat_cmp lets.now k ≡ Some number) }
{
    match lets.get(&k) {
        None => false,
        Some(first) => *first == number,
    }
}

// Whether the step of this number concludes what this one does.
fn concludes_as(steps: &Steps, step: &StepLine, number: usize) -> bool
    ensures { IsTrue result ↔ Given (slice_get steps.now number)
        (λ s. (step.now.env ≡ s.env) × (step.now.root ≡ s.root)) }
{
    match steps.get(number) {
        None => false,
        Some(first) => is_same(step.env.as_slice(), first.env.as_slice())
            && step.root == first.root,
    }
}

/// A name of the environment: its book stands from node `n` on.
pub(crate) fn by_name(
    book: &Book,
    declared: &[ReadScheme],
    earlier: &[ReadScheme],
    names: &StandingNames,
    step: &StepLine,
    n: NodeId,
    form: &TermForm,
) -> bool
    requires { DoStand book.now (declared.now ++ earlier.now) names.now }
    ensures { IsTrue result ↔ ByName book.now (declared.now ++ earlier.now) step.now n form.now }
{
    match form {
        TermForm::Global(g) => {
            let is_known = names.contains(&(*g, n.0));
            is_named(book, scheme_at(declared, earlier, *g), is_known, step, n)
        }
        _ => false,
    }
}

/// The scheme of this number, where the earlier ones come behind the declared ones.
pub(crate) fn scheme_at<'a>(
    declared: &'a [ReadScheme],
    earlier: &'a [ReadScheme],
    g: usize,
) -> Option<&'a ReadScheme>
    ensures { option_map (λ read. read.now) result ≡ slice_get (declared.now ++ earlier.now) g }
{
    if g < declared.len() {
        declared.get(g)
    } else {
        earlier.get(g - declared.len())
    }
}

// Whether the step has the scheme of a name, whose book stands from node `n` on. Where that is known, it is not compared.
fn is_named(
    book: &Book,
    known: Option<&ReadScheme>,
    is_known: bool,
    step: &StepLine,
    n: NodeId,
) -> bool
    requires { IsTrue is_known → StandsAt book.now n.0 (option_map (λ read. read.now) known) }
    ensures { IsTrue result ↔ Given (option_map (λ read. read.now) known.entry) (λ read. HasFrom book.now n.0 read.book
        × (step.now.env ≡ []) × (step.now.root.0 ≡ n.0 + read.root.0)) }
{
    match known {
        None => false,
        Some(read) => {
            (is_known || has_from(book, n.0, &read.book))
                && step.env.is_empty()
                && is_sum(step.root.0, n.0, read.root.0)
        }
    }
}

// Whether the number is the sum of the two.
fn is_sum(sum: usize, first: usize, second: usize) -> bool
    ensures { IsTrue result ↔ (sum ≡ first + second) }
{
    sum >= first && sum - first == second
}

/// Whether the nodes of the other book stand from node `n` on, with `n` added to each child.
pub fn has_from(book: &Book, n: usize, other: &Book) -> bool
    ensures { IsTrue result ↔ HasFrom book.now n other.now }
{
    if n > book.len() || other.len() > book.len() - n {
        return false;
    }
    for i in 0..other.len() {
        if !is_raised(n, book.node(NodeId(n + i)), other.node(NodeId(i))) {
            return false;
        }
    }
    true
}

// Whether the node is the other one with `n` added to each child.
fn is_raised(n: usize, node: &Node, other: &Node) -> bool
    ensures { IsTrue result ↔ (node.now ≡ raised n other.now) }
{
    match (node, other) {
        (Node::Bot, Node::Bot) => true,
        (Node::Top, Node::Top) => true,
        (Node::Var(x), Node::Var(y)) => *x == *y,
        (Node::Bool, Node::Bool) => true,
        (Node::Int, Node::Int) => true,
        (Node::Arrow(i, j), Node::Arrow(k, l)) => is_sum(i.0, n, k.0) && is_sum(j.0, n, l.0),
        (Node::Rcd(fields), Node::Rcd(others)) => are_raised(
            n,
            fields.as_slice(),
            others.as_slice(),
        ),
        (Node::Join(i, j), Node::Join(k, l)) => is_sum(i.0, n, k.0) && is_sum(j.0, n, l.0),
        (Node::Meet(i, j), Node::Meet(k, l)) => is_sum(i.0, n, k.0) && is_sum(j.0, n, l.0),
        _ => false,
    }
}

// Whether the fields are the others with `n` added to each node.
fn are_raised(n: usize, fields: &[Field], others: &[Field]) -> bool
    ensures { IsTrue result ↔ (fields.now ≡ map (raised_field n) others.now) }
{
    if fields.len() != others.len() {
        return false;
    }
    for i in 0..others.len() {
        if !is_raised_field(n, &fields[i], &others[i]) {
            return false;
        }
    }
    true
}

// Whether the field is the other one with `n` added to its node.
fn is_raised_field(n: usize, field: &Field, other: &Field) -> bool
    ensures { IsTrue result ↔ (field.now ≡ raised_field n other.now) }
{
    are_same_bytes(field.label.bytes(), other.label.bytes())
        && is_sum(field.node.0, n, other.node.0)
}

// Whether both are the same bytes. For a few bytes, as labels have, it takes a fraction of the time of `==`; each use of
// a name compares all labels of its type.
fn are_same_bytes(bytes: &[u8], others: &[u8]) -> bool
    ensures { IsTrue result ↔ (bytes.now ≡ others.now) }
{
    if bytes.len() != others.len() {
        return false;
    }
    for i in 0..others.len() {
        if bytes[i] != others[i] {
            return false;
        }
    }
    true
}

/// A number or a truth value.
pub fn by_lit(book: &Book, step: &StepLine, form: &TermForm) -> bool
    ensures { IsTrue result ↔ ByLit book.now step.now form.now }
{
    match form {
        TermForm::Number(_) => step.env.is_empty() && is_int(book, step.root),
        TermForm::Truth(_) => step.env.is_empty() && is_bool(book, step.root),
        _ => false,
    }
}

// Whether the node is `int`.
fn is_int(book: &Book, id: NodeId) -> bool
    ensures { IsTrue result ↔ (node_at book.now id.0 ≡ Int) }
{
    let bot = Node::Bot;
    matches!(node_or(book, id, &bot), Node::Int)
}

// Whether the node is `bool`.
fn is_bool(book: &Book, id: NodeId) -> bool
    ensures { IsTrue result ↔ (node_at book.now id.0 ≡ Bool) }
{
    let bot = Node::Bot;
    matches!(node_or(book, id, &bot), Node::Bool)
}

/// Whether the node is `top`.
pub fn is_top(book: &Book, id: NodeId) -> bool
    ensures { IsTrue result ↔ (node_at book.now id.0 ≡ Top) }
{
    let bot = Node::Bot;
    matches!(node_or(book, id, &bot), Node::Top)
}

/// A function: from the node of its binder in the environment of the body, or a `Top`, to the node of the body.
pub fn by_fun(book: &Book, steps: &Steps, step: &StepLine, number: usize, form: &TermForm) -> bool
    ensures { IsTrue result ↔ ByFun book.now steps.now step.now number form.now }
{
    match form {
        TermForm::Fun(x, body) => match steps.about(number, *body) {
            None => false,
            Some(first) => is_function(book, step, *x, first),
        },
        _ => false,
    }
}

// Whether the step has the function of this binder and body.
fn is_function(book: &Book, step: &StepLine, binder: usize, body: &StepLine) -> bool
    requires { IsRising body.now.env }
    ensures { IsTrue result ↔ IsFunction book.now step.now binder body.now (node_at book.now step.now.root.0) }
{
    let bot = Node::Bot;
    match node_or(book, step.root, &bot) {
        Node::Arrow(i, j) => {
            *j == body.root
                && is_without(step.env.as_slice(), body.env.as_slice(), binder)
                && is_domain(book, node_in(body.env.as_slice(), binder), *i)
        }
        _ => false,
    }
}

// Whether the node of a function's domain is that of its binder, or a `Top` where there is none.
fn is_domain(book: &Book, node: Option<NodeId>, domain: NodeId) -> bool
    ensures { IsTrue result ↔ IsDomain book.now (option_map (λ id. id.0) node) domain.0 }
{
    match node {
        Some(node) => node.0 == domain.0,
        None => is_top(book, domain),
    }
}

/// An application: the function goes from the node of the argument to that of the step.
pub fn by_app(
    book: &Book,
    steps: &Steps,
    step: &StepLine,
    first: usize,
    second: usize,
    form: &TermForm,
) -> bool
    ensures { IsTrue result ↔ ByApp book.now steps.now step.now first second form.now }
{
    match form {
        TermForm::Apply(f, a) => match (steps.about(first, *f), steps.about(second, *a)) {
            (Some(function), Some(argument)) => is_application(book, step, function, argument),
            _ => false,
        },
        _ => false,
    }
}

// Whether the step has the application of the two.
fn is_application(book: &Book, step: &StepLine, function: &StepLine, argument: &StepLine) -> bool
    ensures { IsTrue result ↔ IsApplication book.now step.now function.now argument.now }
{
    is_same(function.env.as_slice(), step.env.as_slice())
        && is_same(argument.env.as_slice(), step.env.as_slice())
        && is_arrow(book, function.root, argument.root, step.root)
}

// Whether the node is this function.
fn is_arrow(book: &Book, id: NodeId, domain: NodeId, codomain: NodeId) -> bool
    ensures { IsTrue result ↔ (node_at book.now id.0 ≡ Arrow domain codomain) }
{
    let bot = Node::Bot;
    match node_or(book, id, &bot) {
        Node::Arrow(i, j) => *i == domain && *j == codomain,
        _ => false,
    }
}

/// A record: one step for each part, and just the labels of the parts.
///
/// # Errors
///
/// `Memory` where memory is wanting.
pub fn by_make(
    alloc: Global,
    book: &Book,
    steps: &Steps,
    step: &StepLine,
    numbers: &[usize],
    form: &TermForm,
) -> Result<bool, Memory>
    requires { IsClosedBook book.now }
    ensures { IfOk result (λ made. IsTrue made ↔ ByMake book.now steps.now step.now numbers.now form.now) }
{
    match form {
        TermForm::Make(parts) => is_record(alloc, book, steps, step, numbers, parts.as_slice()),
        _ => Ok(false),
    }
}

// Whether the step has the record of these parts.
fn is_record(
    alloc: Global,
    book: &Book,
    steps: &Steps,
    step: &StepLine,
    numbers: &[usize],
    parts: &[Part],
) -> Result<bool, Memory>
    requires { IsClosedBook book.now }
    ensures { IfOk result (λ made. IsTrue made
        ↔ IsRecord steps.now step.now numbers.now parts.now (node_at book.now step.now.root.0)) }
{
    let bot = Node::Bot;
    match node_or(book, step.root, &bot) {
        Node::Rcd(fields) => are_made(alloc, steps, step, fields.as_slice(), numbers, parts),
        _ => Ok(false),
    }
}

// Whether the fields are those of these parts.
fn are_made(
    alloc: Global,
    steps: &Steps,
    step: &StepLine,
    fields: &[Field],
    numbers: &[usize],
    parts: &[Part],
) -> Result<bool, Memory>
    requires { AreRising fields.now }
    ensures { IfOk result (λ made. IsTrue made
        ↔ IsRecord steps.now step.now numbers.now parts.now (Rcd fields.now)) }
{
    if !are_fields_of(steps, step, fields, numbers, parts) {
        return Ok(false);
    }
    if parts.is_empty() && !step.env.is_empty() {
        return Ok(false);
    }
    are_labels_of(alloc, fields, parts)
}

// Whether each label is that of a part.
fn are_labels_of(alloc: Global, fields: &[Field], parts: &[Part]) -> Result<bool, Memory>
    ensures { IfOk result (λ all. IsTrue all
        ↔ All (λ field. IsTrue (is_some (child_of parts.now field.label))) fields.now) }
{
    let labels = labels_of(alloc, parts)?;
    Ok(are_among(&labels, fields))
}

// Whether the labels of all fields are among these.
fn are_among(labels: &BTreeSet<Name>, fields: &[Field]) -> bool
    ensures { IsTrue result ↔ All (λ field. IsTrue (contains (slice_cmp nat_cmp) labels.now field.label)) fields.now }
{
    for field in fields {
        if !labels.contains(&field.label) {
            return false;
        }
    }
    true
}

// The labels of the parts.
fn labels_of(alloc: Global, parts: &[Part]) -> Result<BTreeSet<Name>, Memory>
    ensures { IfOk result (λ labels. AreLabelsOf parts.now (contains (slice_cmp nat_cmp) labels)) }
{
    let mut labels = BTreeSet::new(alloc);
    for part in parts {
        labels.insert(copy_of(&part.label)?)?;
    }
    Ok(labels)
}

// A copy of a name.
fn copy_of(name: &Name) -> Result<Name, Memory>
    ensures { IfOk result (λ copy. copy ≡ name.now) }
{
    let copy = name.clone()?;
    Ok(copy)
}

// Whether there is one step for each part, which has the field of its label.
#[tactic(auto, using(crate::proofs::CheckedRules::fields_length))]
fn are_fields_of(
    steps: &Steps,
    step: &StepLine,
    fields: &[Field],
    numbers: &[usize],
    parts: &[Part],
) -> bool
    requires { AreRising fields.now }
    ensures { IsTrue result ↔ AreFieldsOf steps.now step.now fields.now numbers.now parts.now }
{
    if numbers.len() != parts.len() {
        return false;
    }
    for i in 0..parts.len() {
        if !is_field_of(steps, step, fields, numbers[i], &parts[i]) {
            return false;
        }
    }
    true
}

// Whether the step of a part has the field of its label.
fn is_field_of(steps: &Steps, step: &StepLine, fields: &[Field], number: usize, part: &Part) -> bool
    requires { AreRising fields.now }
    ensures { IsTrue result ↔ IsFieldOf steps.now step.now fields.now (Some number) part.now }
{
    match steps.about(number, part.child) {
        None => false,
        Some(first) => {
            is_same(first.env.as_slice(), step.env.as_slice())
                && field_of(fields, &part.label) == Some(first.root)
        }
    }
}

/// A projection: the record has the one field at the node of the step.
pub fn by_proj(book: &Book, steps: &Steps, step: &StepLine, number: usize, form: &TermForm) -> bool
    ensures { IsTrue result ↔ ByProj book.now steps.now step.now number form.now }
{
    match form {
        TermForm::Project(e, label) => match steps.about(number, *e) {
            None => false,
            Some(first) => {
                is_same(first.env.as_slice(), step.env.as_slice())
                    && is_one_field(book, step, label, first.root)
            }
        },
        _ => false,
    }
}

// Whether the node is the record of this label alone, at the node of the step.
fn is_one_field(book: &Book, step: &StepLine, label: &Name, id: NodeId) -> bool
    ensures { IsTrue result ↔ IsOneField step.now label.now (node_at book.now id.0) }
{
    let bot = Node::Bot;
    match node_or(book, id, &bot) {
        Node::Rcd(fields) => is_single(fields.as_slice(), label, step.root),
        _ => false,
    }
}

// Whether the fields are this one alone.
fn is_single(fields: &[Field], label: &Name, node: NodeId) -> bool
    ensures { IsTrue result ↔ (fields.now ≡ record { label = label.now; node = node } ∷ []) }
{
    if fields.len() != 1 {
        return false;
    }
    let field = &fields[0];
    field.label == *label && field.node == node
}

/// A conditional: both branches have what the step has.
pub fn by_if(
    book: &Book,
    steps: &Steps,
    step: &StepLine,
    numbers: (usize, usize, usize),
    form: &TermForm,
) -> bool
    ensures { IsTrue result ↔ ByIf book.now steps.now step.now numbers.0 numbers.1 numbers.2 form.now }
{
    match form {
        TermForm::If(c, e, f) => {
            match (
                steps.about(numbers.0, *c),
                steps.about(numbers.1, *e),
                steps.about(numbers.2, *f),
            ) {
                (Some(condition), Some(first), Some(second)) => {
                    are_branches(book, step, condition, first, second)
                }
                _ => false,
            }
        }
        _ => false,
    }
}

// Whether the step has the conditional of the three.
fn are_branches(
    book: &Book,
    step: &StepLine,
    condition: &StepLine,
    first: &StepLine,
    second: &StepLine,
) -> bool
    ensures { IsTrue result ↔ AreBranches book.now step.now condition.now first.now second.now }
{
    is_same(condition.env.as_slice(), step.env.as_slice())
        && is_bool(book, condition.root)
        && is_same(first.env.as_slice(), step.env.as_slice())
        && first.root == step.root
        && is_same(second.env.as_slice(), step.env.as_slice())
        && second.root == step.root
}

/// A let: its number has the scheme of the first part, and the environments meet.
pub fn by_let(
    book: &Book,
    steps: &Steps,
    lets: &BTreeMap<usize, usize>,
    step: &StepLine,
    first: usize,
    second: usize,
    form: &TermForm,
) -> bool
    requires { IsRising step.now.env }
    ensures { IsTrue result ↔ ByLet book.now steps.now (get nat_cmp lets.now) step.now first second form.now }
{
    match form {
        TermForm::Let(k, e, f) => {
            is_let(lets, *k, first)
                && match (steps.about(first, *e), steps.about(second, *f)) {
                    (Some(bound), Some(body)) => {
                        body.root == step.root
                            && is_meet(
                                book,
                                bound.env.as_slice(),
                                body.env.as_slice(),
                                step.env.as_slice(),
                            )
                    }
                    _ => false,
                }
        }
        _ => false,
    }
}

// Whether the third environment is the meet of the others.
#[tactic(auto, using(crate::proofs::CheckedRules::all_met, crate::proofs::CheckedRules::met_at))]
fn is_meet(book: &Book, left: &[BinderNode], right: &[BinderNode], both: &[BinderNode]) -> bool
    requires left { IsRising left.now }
    requires right { IsRising right.now }
    requires both { IsRising both.now }
    ensures { IsTrue result ↔ IsMeetIn book.now left.now right.now both.now }
{
    if !are_met(book, left, left, right, both) {
        return false;
    }
    if !are_met(book, right, left, right, both) {
        return false;
    }
    are_met(book, both, left, right, both)
}

// Whether it is so for these binders.
fn are_met(
    book: &Book,
    binders: &[BinderNode],
    left: &[BinderNode],
    right: &[BinderNode],
    both: &[BinderNode],
) -> bool
    requires left { IsRising left.now }
    requires right { IsRising right.now }
    requires both { IsRising both.now }
    ensures { IsTrue result ↔ All (λ entry. IsMeetAt book.now (node_in left.now entry.binder)
        (node_in right.now entry.binder) (node_in both.now entry.binder)) binders.now }
{
    binders
        .iter()
        .all(|entry| is_met(book, left, right, both, entry.binder))
}

// Whether it is so for this binder.
fn is_met(
    book: &Book,
    left: &[BinderNode],
    right: &[BinderNode],
    both: &[BinderNode],
    x: usize,
) -> bool
    requires left { IsRising left.now }
    requires right { IsRising right.now }
    requires both { IsRising both.now }
    ensures { IsTrue result ↔ IsMeetAt book.now (node_in left.now x) (node_in right.now x) (node_in both.now x) }
{
    is_meet_of(book, node_in(left, x), node_in(right, x), node_in(both, x))
}

// Whether the third node is the meet of the others, or the one that is there.
fn is_meet_of(
    book: &Book,
    left: Option<NodeId>,
    right: Option<NodeId>,
    both: Option<NodeId>,
) -> bool
    ensures { IsTrue result ↔ IsMeetAt book.now (option_map (λ id. id.0) left) (option_map (λ id. id.0) right)
        (option_map (λ id. id.0) both) }
{
    match left {
        None => both == right,
        Some(i) => match right {
            None => both == left,
            Some(j) => match both {
                None => false,
                Some(n) => is_meet_node(book, n, i, j),
            },
        },
    }
}

// Whether the node is the meet of the others, in this order.
fn is_meet_node(book: &Book, id: NodeId, left: NodeId, right: NodeId) -> bool
    ensures { IsTrue result ↔ (node_at book.now id.0 ≡ Meet left right) }
{
    let bot = Node::Bot;
    match node_or(book, id, &bot) {
        Node::Meet(i, j) => *i == left && *j == right,
        _ => false,
    }
}

/// A recursion: the body has the type that it needs of the binder.
pub fn by_rec(steps: &Steps, step: &StepLine, number: usize, form: &TermForm) -> bool
    ensures { IsTrue result ↔ ByRec steps.now step.now number form.now }
{
    match form {
        TermForm::Rec(x, body) => match steps.about(number, *body) {
            None => false,
            Some(first) => {
                first.root == step.root
                    && node_in(first.env.as_slice(), *x) == Some(first.root)
                    && is_without(step.env.as_slice(), first.env.as_slice(), *x)
            }
        },
        _ => false,
    }
}
