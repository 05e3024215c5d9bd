//! Inference of a whole expression.
ghost use Rattle.std.specs.Prelude.{◌≡◌, ◌≢◌, ℕ, ◌<◌, ◌++◌, ◌∷◌, [], List, length, map, IfErr, IfOk, OnOk, Some};
ghost use Rattle.std.specs.BTreeMap.{get};
ghost use Rattle.std.specs.Ordering.{nat_cmp};
ghost use Rattle.mls_automaton.specs.declared.scheme.Scheme.{Scheme};
ghost use Rattle.mls_automaton.specs.Schemes.{IsScheme};
ghost use Rattle.mls_shape.specs.Simplified.{IsSimplified};
ghost use Rattle.mls_term.specs.declared.term.TermForm.{TermForm};
ghost use Rattle.mls_term.specs.declared.term.TermForm.TheVariants as form;
ghost use Rattle.mls_term.specs.Terms.{postorder};
ghost use Rattle.mls_term.specs.WellFormed.{IsTerm};
ghost use Rattle.mls_infer.specs.Constraints.{no_goals};
ghost use Rattle.mls_infer.specs.Doing.{HasTaken, IsAddedTo, IsBeside, IsBuiltIn, IsBuiltOf, IsDone, IsTold};
ghost use Rattle.mls_infer.specs.Doing.{finished_in};
ghost use Rattle.mls_infer.specs.Fields.{AreReads, IsKnownType};
ghost use Rattle.mls_infer.specs.Finished.{Finished, Has, child_of};
ghost use Rattle.mls_infer.specs.Finishing.{CanStep, FailsIn, GoesOnIn, HasKindIn, HasParts, IsInferred};
ghost use Rattle.mls_infer.specs.Finishing.{IsRead, KeepsBut, StopsAt, scope_of};
ghost use Rattle.mls_infer.specs.Inference.{AreNames, IsBestFor, IsFirstWithout, TellsKindOf, schemes_in};
ghost use Rattle.mls_infer.specs.Joining.{part_labels};
ghost use Rattle.mls_infer.specs.Merges.{HaveSameTypes};
ghost use Rattle.mls_infer.specs.Pending.{AreRowsOf, part_in};
ghost use Rattle.mls_infer.specs.Regions.{TablePart, scheme_at};

use crate::done::{Done, trimmed};
use crate::fault::{InferFault, Site};
use crate::firsts::firsts_of;
use crate::forms::{
    Rows, application, bound_call, bound_field, conditional, function, number, projection, record,
    recursion, truth,
};
use crate::named::Named;
use crate::pending::Pending;
use crate::reads::{Reads, Uses};
use crate::solve::NoSolution;
use mls_automaton::scheme::Scheme;
use mls_base::memory::Memory;
use mls_book::name::Name;
use mls_scheme::read::scheme_of_read;
use mls_shape::simplify::simplify;
use mls_term::term::{Part, Term, TermForm, TermNode};
pub use mls_typetext::scheme::Names;
use std::alloc::Global;
use std::collections::BTreeMap;
use std::rc::Rc;

// A record with so many parts is wide.
const WIDE: usize = 32;

// Where the part of a node goes: up to the node above it, where it waits beside many others if that is a wide record,
// apart as the first part of a let, or out as the whole.
#[derive(Clone, Copy, PartialEq, Eq)]
enum Way {
    Up,
    Beside,
    Apart,
    Out,
}

/// The most general scheme of an expression, over an environment of schemes that names mean.
///
/// # Errors
///
/// `NoScheme` exactly where the expression has none: with the first node in postorder that has none, each let-bound
/// name around it having its most general scheme; its kind is that of the first clash of its constraint over most
/// general schemes of its parts. `Memory` where memory is wanting.
pub fn infer(alloc: Global, names: &Names, term: &Term) -> Result<Scheme, InferFault>
    requires names { AreNames names.now }
    requires term { IsTerm (length names.now.schemes) term.now.nodes term.now.binders term.now.lets }
    ensures scheme { IfOk result IsScheme }
    ensures env { IfOk result (λ (s : Scheme). s.env ≡ []) }
    ensures simplified { IfOk result IsSimplified }
    ensures best { IfOk result (IsBestFor names.now term.now) }
    ensures first { IfErr result (IsFirstWithout names.now term.now) }
    ensures kind { IfErr result (TellsKindOf names.now term.now) }
{
    let mut uses = Uses::new(alloc);
    infer_noting(alloc, names, &mut uses, term)
}

/// The same, where the uses of names before are known. Those of the expression are added.
///
/// # Errors
///
/// Those of `infer`.
pub(crate) fn infer_noting(
    alloc: Global,
    names: &Names,
    uses: &mut Uses,
    term: &Term,
) -> Result<Scheme, InferFault>
    requires names { AreNames names.now }
    requires uses { AreReads (schemes_in names.now) uses.old.reads }
    requires term { IsTerm (length names.now.schemes) term.now.nodes term.now.binders term.now.lets }
    ensures uses { AreReads (schemes_in names.now) uses.new.reads }
    ensures scheme { IfOk result IsScheme }
    ensures env { IfOk result (λ (s : Scheme). s.env ≡ []) }
    ensures simplified { IfOk result IsSimplified }
    ensures best { IfOk result (IsBestFor names.now term.now) }
    ensures first { IfErr result (IsFirstWithout names.now term.now) }
    ensures kind { IfErr result (TellsKindOf names.now term.now) }
{
    uses.note_all(alloc, names, term.nodes.as_slice())?;
    let whole = infer_whole(alloc, names, &uses.reads, term)?;
    let simple = simplify(alloc, &whole)?;
    Ok(simple)
}

// The same, not simplified.
fn infer_whole(
    alloc: Global,
    names: &Names,
    reads: &Reads,
    term: &Term,
) -> Result<Scheme, InferFault>
    requires names { AreNames names.now }
    requires reads { AreReads (schemes_in names.now) reads.now }
    requires term { IsTerm (length names.now.schemes) term.now.nodes term.now.binders term.now.lets }
    ensures scheme { IfOk result IsScheme }
    ensures env { IfOk result (λ (s : Scheme). s.env ≡ []) }
    ensures best { IfOk result (IsBestFor names.now term.now) }
    ensures first { IfErr result (IsFirstWithout names.now term.now) }
    ensures kind { IfErr result (TellsKindOf names.now term.now) }
{
    let nodes = term.nodes.as_slice();
    let firsts = firsts_of(alloc, nodes)?;
    let mut done = infer_nodes(alloc, names, reads, &firsts, nodes)?;
    let whole = done.whole(alloc, nodes.len() - 1)?;
    Ok(whole)
}

// Infers one node after another. At last the part of the root is there.
fn infer_nodes(
    alloc: Global,
    names: &Names,
    reads: &Reads,
    firsts: &BTreeMap<usize, usize>,
    nodes: &[TermNode],
) -> Result<Done, InferFault>
    requires names { AreNames names.now }
    requires reads { AreReads (schemes_in names.now) reads.now }
    requires goes { (t : _) × (nodes.now ≡ postorder 0 t) × GoesOnIn (scope_of names.now firsts.now) t nodes.now [] }
    ensures done { IfOk result IsDone }
    ensures ok { IfOk result (λ done. (t : _) → nodes.now ≡ postorder 0 t
        → (told : _) × IsTold told done × IsInferred (schemes_in names.now) t told) }
    ensures err { IfErr result (λ fault. (t : _) → nodes.now ≡ postorder 0 t → FailsIn (schemes_in names.now) t fault) }
    ensures kind { IfErr result (λ fault. (t : _) → nodes.now ≡ postorder 0 t
        → HasKindIn (schemes_in names.now) t fault) }
{
    let mut done = Done::with_room(alloc, nodes.len())?;
    let ways = ways_of(alloc, nodes)?;
    for i in 0..nodes.len() {
        let node = &nodes[i].form;
        let way = ways.get(i).copied().unwrap_or(Way::Up);
        match add_node(alloc, names, reads, firsts, &mut done, node, way) {
            Ok(()) => {}
            Err(NoSolution::Clash(kind)) => {
                return Err(InferFault::NoScheme(Site { node: i, kind }));
            }
            Err(NoSolution::Memory) => return Err(InferFault::Memory),
        }
    }
    Ok(done)
}

// Adds the next node: a known name, which nothing is copied of yet, a binder, or what is built of the parts below it, which
// stands apart where it is the first part of a let.
fn add_node(
    alloc: Global,
    names: &Names,
    reads: &Reads,
    firsts: &BTreeMap<usize, usize>,
    done: &mut Done,
    node: &TermForm,
    way: Way,
) -> Result<(), NoSolution>
    requires names { AreNames names.now }
    requires reads { AreReads (schemes_in names.now) reads.now }
    requires done { IsDone done.old }
    requires can { CanStep (scope_of names.now firsts.now) node.now (finished_in done.old) }
    ensures added { OnOk result (IsAddedTo (scope_of names.now firsts.now) node.now done.old done.new) }
    ensures stops { IfErr result (StopsAt node.now (finished_in done.old)) }
{
    match node {
        TermForm::Inner(k) => {
            let named = of_inner(alloc, firsts, done, *k)?;
            done.share(named)?;
            Ok(())
        }
        TermForm::Global(g) => {
            let named = of_global(alloc, names, reads, *g)?;
            done.share(named)?;
            Ok(())
        }
        TermForm::Bound(x) => {
            done.bind(*x)?;
            Ok(())
        }
        _ => {
            let part = part_of(alloc, done, node, way)?;
            push(alloc, done, part, way)?;
            Ok(())
        }
    }
}

// The type of a let-bound name.
fn of_inner(
    alloc: Global,
    firsts: &BTreeMap<usize, usize>,
    done: &mut Done,
    k: usize,
) -> Result<Rc<Named>, Memory>
    requires done { IsDone done.old }
    requires can { (i : _) × (get nat_cmp firsts.now k ≡ Some i) × (s : Scheme) × Has (finished_in done.old) i s }
    ensures done { OnOk result (IsDone done.new) }
    ensures keeps { OnOk result (KeepsBut [] (finished_in done.old) (finished_in done.new)) }
    ensures known { IfOk result (λ named. IsKnownType named.value) }
    ensures alike { IfOk result (λ named. (i : _) (s : Scheme) → get nat_cmp firsts.now k ≡ Some i
        → Has (finished_in done.old) i s → HaveSameTypes (no_goals s) (no_goals named.value.scheme)) }
{
    match firsts.get(&k).copied() {
        Some(root) => {
            let named = done.named(alloc, root)?;
            Ok(named)
        }
        None => unreachable!(),
    }
}

// The type of a name of the environment, which was read before or is read now.
fn of_global(alloc: Global, names: &Names, reads: &Reads, g: usize) -> Result<Rc<Named>, Memory>
    requires names { AreNames names.now }
    requires reads { AreReads (schemes_in names.now) reads.now }
    requires there { g < length (schemes_in names.now) }
    ensures known { IfOk result (λ named. IsKnownType named.value) }
    ensures read { IfOk result (λ named. IsRead (schemes_in names.now) g named.value.scheme) }
{
    match reads.get(&g) {
        Some(named) => {
            let one_more = named.clone()?;
            Ok(one_more)
        }
        None => {
            let scheme = scheme_of_read(alloc, &names.schemes.as_slice()[g])?;
            let named = Named::once(alloc, scheme)?;
            Ok(named)
        }
    }
}

// Adds the part of the next node, which stands apart where it is the first part of a let.
fn push(alloc: Global, done: &mut Done, part: Pending, way: Way) -> Result<(), Memory>
    requires done { IsDone done.old }
    requires beside { IsBeside done.old (part_in part ∷ []) }
    ensures done { OnOk result (IsDone done.new) }
    ensures added { OnOk result (KeepsBut []
        (finished_in done.old ++ Some (scheme_at done.old.live.table (part_in part)) ∷ []) (finished_in done.new)) }
{
    let i = done.count();
    let is_named = way == Way::Apart;
    done.push(part)?;
    if is_named {
        done.name(alloc, i)?;
    }
    Ok(())
}

// What is built of the parts of a node. If it goes up, it goes without the states that are not reached where these are
// many; else it is copied out of the table at once, and they stay behind.
fn part_of(alloc: Global, done: &mut Done, node: &TermForm, way: Way) -> Result<Pending, NoSolution>
    requires done { IsDone done.old }
    requires parts { HasParts node.now (finished_in done.old) }
    requires other { (x : ℕ) → node.now ≢ form.Bound x }
    ensures part { IfOk result (λ part. IsBuiltOf node.now done.old done.new (part_in part)) }
    ensures stops { IfErr result (StopsAt node.now (finished_in done.old)) }
{
    let part = built(alloc, done, node)?;
    let fitting = fit(alloc, done, part, way)?;
    Ok(fitting)
}

// The part, without the states that are not reached where these are many.
fn fit(alloc: Global, done: &mut Done, part: Pending, way: Way) -> Result<Pending, Memory>
    requires done { IsDone done.old }
    requires beside { IsBeside done.old (part_in part ∷ []) }
    ensures { IfOk result (λ other. (node : TermForm) (first : Finished)
        → IsBuiltIn node first done.old.live done.old.nodes.items (part_in part)
        → IsBuiltIn node first done.new.live done.new.nodes.items (part_in other)) }
{
    let is_due = match way {
        Way::Up => part.region.size.is_due(),
        Way::Beside => part.region.size.is_loose(),
        Way::Apart | Way::Out => false,
    };
    if is_due {
        let kept = trimmed(alloc, &mut done.live, part)?;
        return Ok(kept);
    }
    Ok(part)
}

// What is built of the parts of a node, which is no known name and no binder.
fn built(alloc: Global, done: &mut Done, node: &TermForm) -> Result<Pending, NoSolution>
    requires done { IsDone done.old }
    requires parts { HasParts node.now (finished_in done.old) }
    requires other { (x : ℕ) → node.now ≢ form.Bound x }
    ensures part { IfOk result (λ part. IsBuiltOf node.now done.old done.new (part_in part)) }
    ensures stops { IfErr result (StopsAt node.now (finished_in done.old)) }
{
    match node {
        TermForm::Inner(_) | TermForm::Global(_) | TermForm::Bound(_) => unreachable!(),
        TermForm::Number(value) => Ok(of_number(alloc, done, *value)?),
        TermForm::Truth(value) => Ok(of_truth(alloc, done, *value)?),
        TermForm::Fun(x, e) => Ok(of_function(alloc, done, *x, *e)?),
        TermForm::Rec(x, e) => of_recursion(alloc, done, *x, *e),
        TermForm::Project(e, label) => of_projection(alloc, done, *e, label),
        TermForm::Apply(f, a) => of_application(alloc, done, *f, *a),
        TermForm::If(c, e, f) => of_conditional(alloc, done, *c, *e, *f),
        TermForm::Make(parts) => Ok(of_record(alloc, done, parts.as_slice())?),
        TermForm::Let(_, e, f) => Ok(done.end_let(alloc, *e, *f)?),
    }
}

// Of a number, whatever it is.
fn of_number(alloc: Global, done: &mut Done, value: u64) -> Result<Pending, Memory>
    requires { IsDone done.old }
    ensures { IfOk result (λ part. IsBuiltOf (form.Number value) done.old done.new (part_in part)) }
{
    let part = number(alloc, &mut done.live)?;
    let _made = done.live.ready();
    Ok(part)
}

// Of a truth value, whichever it is.
fn of_truth(alloc: Global, done: &mut Done, value: bool) -> Result<Pending, Memory>
    requires { IsDone done.old }
    ensures { IfOk result (λ part. IsBuiltOf (form.Truth value) done.old done.new (part_in part)) }
{
    let part = truth(alloc, &mut done.live)?;
    let _made = done.live.ready();
    Ok(part)
}

// Of a function: from the states of its binder to the root of its body.
fn of_function(alloc: Global, done: &mut Done, x: usize, e: usize) -> Result<Pending, Memory>
    requires done { IsDone done.old }
    requires parts { HasParts (form.Fun x e) (finished_in done.old) }
    ensures { IfOk result (λ part. IsBuiltOf (form.Fun x e) done.old done.new (part_in part)) }
{
    let body = done.take(alloc, e)?;
    let part = function(alloc, &mut done.live, x, body)?;
    let _made = done.live.ready();
    Ok(part)
}

// Of a recursion: the root of its body is below the state of its binder.
fn of_recursion(alloc: Global, done: &mut Done, x: usize, e: usize) -> Result<Pending, NoSolution>
    requires done { IsDone done.old }
    requires parts { HasParts (form.Rec x e) (finished_in done.old) }
    ensures part { IfOk result (λ part. IsBuiltOf (form.Rec x e) done.old done.new (part_in part)) }
    ensures stops { IfErr result (StopsAt (form.Rec x e) (finished_in done.old)) }
{
    let body = done.take(alloc, e)?;
    let part = recursion(alloc, &mut done.live, x, body)?;
    let _made = done.live.ready();
    Ok(part)
}

// Of a projection, from a binder or from another expression.
fn of_projection(
    alloc: Global,
    done: &mut Done,
    e: usize,
    label: &Name,
) -> Result<Pending, NoSolution>
    requires done { IsDone done.old }
    requires parts { HasParts (form.Project e label.now) (finished_in done.old) }
    ensures part { IfOk result (λ part. IsBuiltOf (form.Project e label.now) done.old done.new (part_in part)) }
    ensures stops { IfErr result (StopsAt (form.Project e label.now) (finished_in done.old)) }
{
    match done.take_bound(e) {
        Some(x) => {
            let part = bound_field(alloc, &mut done.live, label, x)?;
            let _made = done.live.ready();
            Ok(part)
        }
        None => known_projection(alloc, done, e, label),
    }
}

// Of a projection: the field of a known record, where that can be told without solving.
fn known_projection(
    alloc: Global,
    done: &mut Done,
    e: usize,
    label: &Name,
) -> Result<Pending, NoSolution>
    requires done { IsDone done.old }
    requires parts { HasParts (form.Project e label.now) (finished_in done.old) }
    ensures part { IfOk result (λ part. IsBuiltOf (form.Project e label.now) done.old done.new (part_in part)) }
    ensures stops { IfErr result (StopsAt (form.Project e label.now) (finished_in done.old)) }
{
    let known = done.take_field(alloc, e, label)?;
    match known {
        Some(field) => Ok(field),
        None => solved_projection(alloc, done, e, label),
    }
}

// Of a projection: the root of its body is below the records with the field.
fn solved_projection(
    alloc: Global,
    done: &mut Done,
    e: usize,
    label: &Name,
) -> Result<Pending, NoSolution>
    requires done { IsDone done.old }
    requires parts { HasParts (form.Project e label.now) (finished_in done.old) }
    ensures part { IfOk result (λ part. IsBuiltOf (form.Project e label.now) done.old done.new (part_in part)) }
    ensures stops { IfErr result (StopsAt (form.Project e label.now) (finished_in done.old)) }
{
    let body = done.take(alloc, e)?;
    let part = projection(alloc, &mut done.live, label, body)?;
    let _made = done.live.ready();
    Ok(part)
}

// Of an application, of a binder or of another expression.
fn of_application(alloc: Global, done: &mut Done, f: usize, a: usize) -> Result<Pending, NoSolution>
    requires done { IsDone done.old }
    requires parts { HasParts (form.Apply f a) (finished_in done.old) }
    ensures part { IfOk result (λ part. IsBuiltOf (form.Apply f a) done.old done.new (part_in part)) }
    ensures stops { IfErr result (StopsAt (form.Apply f a) (finished_in done.old)) }
{
    match done.take_bound(f) {
        Some(x) => {
            let argument = done.take(alloc, a)?;
            let part = bound_call(alloc, &mut done.live, x, argument)?;
            let _made = done.live.ready();
            Ok(part)
        }
        None => solved_application(alloc, done, f, a),
    }
}

// Of an application: the root of the function is below the functions from the root of the argument.
fn solved_application(
    alloc: Global,
    done: &mut Done,
    f: usize,
    a: usize,
) -> Result<Pending, NoSolution>
    requires done { IsDone done.old }
    requires parts { HasParts (form.Apply f a) (finished_in done.old) }
    ensures part { IfOk result (λ part. IsBuiltOf (form.Apply f a) done.old done.new (part_in part)) }
    ensures stops { IfErr result (StopsAt (form.Apply f a) (finished_in done.old)) }
{
    let first = done.take(alloc, f)?;
    let second = done.take(alloc, a)?;
    let part = application(alloc, &mut done.live, first, second)?;
    let _made = done.live.ready();
    Ok(part)
}

// Of a conditional: the root of the condition is below `bool`, those of the branches below one new state.
fn of_conditional(
    alloc: Global,
    done: &mut Done,
    c: usize,
    e: usize,
    f: usize,
) -> Result<Pending, NoSolution>
    requires done { IsDone done.old }
    requires parts { HasParts (form.If c e f) (finished_in done.old) }
    ensures part { IfOk result (λ part. IsBuiltOf (form.If c e f) done.old done.new (part_in part)) }
    ensures stops { IfErr result (StopsAt (form.If c e f) (finished_in done.old)) }
{
    let condition = done.take(alloc, c)?;
    let first = done.take(alloc, e)?;
    let second = done.take(alloc, f)?;
    let part = conditional(alloc, &mut done.live, condition, first, second)?;
    let _made = done.live.ready();
    Ok(part)
}

// Of a record: its fields are the roots of its parts.
fn of_record(alloc: Global, done: &mut Done, parts: &[Part]) -> Result<Pending, Memory>
    requires done { IsDone done.old }
    requires parts { HasParts (form.Make parts.now) (finished_in done.old) }
    ensures { IfOk result (λ part. IsBuiltOf (form.Make parts.now) done.old done.new (part_in part)) }
{
    let rows = rows_of(alloc, done, parts)?;
    let part = record(alloc, &mut done.live, rows)?;
    let _made = done.live.ready();
    Ok(part)
}

// Takes the parts of a record.
fn rows_of(alloc: Global, done: &mut Done, parts: &[Part]) -> Result<Rows, Memory>
    requires done { IsDone done.old }
    requires parts { HasParts (form.Make parts.now) (finished_in done.old) }
    ensures { IfOk result (λ rows. (taken : List TablePart)
        × HasTaken done.old (map child_of parts.now) done.new taken × AreRowsOf (part_labels parts.now) taken rows) }
{
    let mut rows = Rows::new(alloc);
    for part in parts {
        let body = done.take(alloc, part.child)?;
        rows = rows.with(&part.label, body)?;
    }
    Ok(rows)
}

// The way of the part of each node.
fn ways_of(alloc: Global, nodes: &[TermNode]) -> Result<Vec<Way>, Memory> {
    let mut ways = all_up(alloc, nodes.len())?;
    for node in nodes {
        match &node.form {
            TermForm::Let(_, first, _) => set_way(&mut ways, *first, Way::Apart),
            TermForm::Make(parts) if parts.len() >= WIDE => set_beside(&mut ways, parts.as_slice()),
            _ => {}
        }
    }
    if let Some(last) = ways.last_mut() {
        *last = Way::Out;
    }
    Ok(ways)
}

// So many parts that go up.
fn all_up(alloc: Global, count: usize) -> Result<Vec<Way>, Memory> {
    let mut ways = Vec::with_capacity(alloc, count)?;
    for _ in 0..count {
        ways.push(Way::Up)?;
    }
    Ok(ways)
}

// The parts of a wide record wait beside each other.
fn set_beside(ways: &mut Vec<Way>, parts: &[Part]) {
    for part in parts {
        set_way(ways, part.child, Way::Beside);
    }
}

fn set_way(ways: &mut Vec<Way>, i: usize, way: Way) {
    if let Some(place) = ways.get_mut(i) {
        *place = way;
    }
}
