//! The reader of expressions that knows what their names mean.
ghost use Rattle.std.specs.Prelude.{◌≡◌, ◌≢◌, ℕ, ◌+◌, ◌++◌, ◌∷◌, ◌<◌, ◌^◌, [], List, IfOk, IfErr, OnOk, All, length};
ghost use Rattle.std.specs.Prelude.{option_map};
ghost use Rattle.std.specs.BTreeMap.{get};
ghost use Rattle.std.specs.Ordering.{nat_cmp};
ghost use Rattle.std.specs.Cmp.Lexicographic.{slice_cmp};
ghost use Rattle.mls_grammar.specs.Modules.{AreDistinct};
ghost use Rattle.mls_names.specs.Resolution.{Scope, scheme, schemes_from, declared_from, declared_count};
ghost use Rattle.mls_names.specs.Resolution.{operator_number, meant_by};
ghost use Rattle.mls_names.specs.steps.Counts.{AreCounts};
ghost use Rattle.mls_names.specs.steps.Meanings.{IsExpression};
ghost use Rattle.mls_names.specs.steps.Walks.{after, next_numbers, form_in, HasPartsBelow, IsWithin, IsCountBelow};
ghost use Rattle.mls_names.specs.steps.Walks.{HasWithin, Knows, IsReady, IsIdle, use_form, meant_of};
ghost use Rattle.mls_names.specs.steps.Walks.{Pushes, Binds, Enters, Takes, EntersBinder, EntersLet, EntersFields};
ghost use Rattle.mls_names.specs.steps.Walks.{Restores, ReadsNode, ReadsNodes, HasTerm, HasUnknown};

use crate::counts::{Count, counts};
use crate::resolve::NameList;
use mls_base::memory::Memory;
use mls_book::name::Name;
use mls_grammar::fault::Fault;
use mls_grammar::module::{Binding, ExprNode, Form, Op};
use mls_term::term::{Part, ResolvedBinding, Term, TermForm, TermNode, TermNodes};
use std::alloc::Global;
use std::collections::BTreeMap;

// What a name means: a binder or a let around it, or a scheme of the environment.
#[derive(Clone, Copy)]
enum Meaning {
    Binder(usize),
    Let(usize),
    Scheme(usize),
}

// A part of an expression: the number of its first node, and how many binders and how many lets are around it.
#[derive(Clone, Copy)]
struct Stretch {
    first: usize,
    binders: usize,
    lets: usize,
}

// What is left to do: to read a part of an expression, or to give a name the meaning back that it had outside.
#[derive(Drop)]
enum Task {
    Read(Stretch),
    Restore(Name, Option<Meaning>),
}

// What each name means at present, and what is left to do, the next task last.
#[derive(Drop)]
pub struct Resolver {
    meanings: BTreeMap<Name, Meaning>,
    tasks: Vec<Task>,
}

impl Resolver {
    // No name means anything, and nothing is left to do.
    pub fn new(alloc: Global) -> Resolver
        ensures { IsReady result [] }
    {
        Resolver {
            meanings: BTreeMap::new(alloc),
            tasks: Vec::new(alloc),
        }
    }

    // Gives the names of all imports their schemes, which come behind those of the five operators, and says how many
    // schemes there are then.
    pub fn declare_imports(&mut self, declared: &[NameList]) -> Result<usize, Memory>
        requires { All AreDistinct declared.now }
        ensures next { IfOk result (λ next. next ≡ 5 + declared_count declared.now) }
        ensures ready { OnOk result (IsReady self.old [] → IsReady self.new (declared_from 5 declared.now)) }
    {
        let mut schemes = 5;
        for names in declared {
            schemes = self.declare_all(names.as_slice(), schemes)?;
        }
        Ok(schemes)
    }

    // Gives these names the schemes from this number on, and says which is the next one.
    fn declare_all(&mut self, names: &[Name], first: usize) -> Result<usize, Memory>
        requires { AreDistinct names.now }
        ensures next { IfOk result (λ next. next ≡ first + length names.now) }
        ensures ready { OnOk result ((scope : Scope) → IsReady self.old scope
            → IsReady self.new (schemes_from first names.now ++ scope)) }
    {
        let mut schemes = first;
        for name in names {
            schemes = self.declare(name, schemes)?;
        }
        Ok(schemes)
    }

    // Gives a name the scheme of this number, and says which is the next one.
    pub fn declare(&mut self, name: &Name, number: usize) -> Result<usize, Memory>
        ensures next { IfOk result (λ next. next ≡ number + 1) }
        ensures ready { OnOk result ((scope : Scope) → IsReady self.old scope
            → IsReady self.new ((name.now, scheme number) ∷ scope)) }
    {
        self.meanings
            .insert(copied(name)?, Meaning::Scheme(number))?;
        number.checked_add(1).ok_or(Memory)
    }

    // A binding with its term.
    pub fn binding(&mut self, alloc: Global, binding: &Binding) -> Result<ResolvedBinding, Fault>
        requires nodes { IsExpression binding.now.expr.nodes }
        requires idle { IsIdle self.old }
        ensures name { IfOk result (λ r. r.name ≡ binding.now.name) }
        ensures at { IfOk result (λ r. r.at ≡ binding.now.at) }
        ensures term { IfOk result (λ r. HasTerm self.old self.new binding.now.expr.nodes r.term) }
        ensures fault { IfErr result (λ f. f ≢ Fault.Memory → HasUnknown self.old binding.now.expr.nodes f) }
    {
        let term = self.term(alloc, binding.expr.nodes.as_slice())?;
        let name = binding.name.clone()?;
        Ok(ResolvedBinding {
            name,
            at: binding.at,
            term,
        })
    }

    // The term of these nodes.
    fn term(&mut self, alloc: Global, nodes: &[ExprNode]) -> Result<Term, Fault>
        requires nodes { IsExpression nodes.now }
        requires idle { IsIdle self.old }
        ensures term { IfOk result (λ term. HasTerm self.old self.new nodes.now term) }
        ensures fault { IfErr result (λ f. f ≢ Fault.Memory → HasUnknown self.old nodes.now f) }
    {
        let counts = counts(alloc, nodes)?;
        let mut terms = TermNodes::new(alloc);
        let unknown = self.read_nodes(&counts, nodes, &mut terms)?;
        match unknown {
            Some(at) => Err(Fault::UnknownName(at)),
            None => {
                let all = counts[nodes.len()];
                terms.reverse();
                Ok(Term {
                    nodes: terms,
                    binders: all.binders,
                    lets: all.lets,
                })
            }
        }
    }

    // Adds what the nodes become, and says which is the place of the first name that means nothing. The nodes are read
    // from the last one to the first, so a node comes before its children, and a later child before an earlier one.
    fn read_nodes(
        &mut self,
        counts: &[Count],
        nodes: &[ExprNode],
        terms: &mut TermNodes,
    ) -> Result<Option<usize>, Memory>
        requires nodes { IsExpression nodes.now }
        requires idle { IsIdle self.old }
        requires counts { AreCounts nodes.now counts.now }
        requires room { length counts.now < 2 ^ 62 }
        ensures { IfOk result (λ unknown. ReadsNodes nodes.now self.old self.new terms.old terms.new unknown) }
    {
        self.push(Stretch {
            first: 0,
            binders: 0,
            lets: 0,
        })?;
        let mut unknown = None;
        for i in (0..nodes.len()).rev() {
            unknown = self.read_node(counts, &nodes[i], terms, unknown)?;
        }
        self.next_stretch()?;
        Ok(unknown)
    }

    // Adds what a node becomes, and says which is then the place of the first name that means nothing.
    fn read_node(
        &mut self,
        counts: &[Count],
        node: &ExprNode,
        terms: &mut TermNodes,
        unknown: Option<usize>,
    ) -> Result<Option<usize>, Memory>
        requires counts { All (λ count. IsCountBelow (length counts.now) count) counts.now }
        requires room { length counts.now < 2 ^ 62 }
        requires parts { HasPartsBelow (length counts.now) node.now.form }
        requires within { HasWithin (length counts.now) self.old }
        ensures { IfOk result (λ first. ReadsNode counts.now node.now self.old self.new terms.old terms.new unknown
            first) }
    {
        let Some(stretch) = self.next_stretch()? else {
            return Ok(unknown);
        };
        let next = next_numbers(counts, stretch);
        let form = self.form(next, &node.form)?;
        let unknown = if form.is_none() {
            Some(node.at)
        } else {
            unknown
        };
        terms.push(TermNode {
            at: node.at,
            form: form.unwrap_or(TermForm::Truth(false)),
        })?;
        self.enter(stretch, next, &node.form)?;
        Ok(unknown)
    }

    // Does what is left to do up to the next part that is to be read.
    fn next_stretch(&mut self) -> Result<Option<Stretch>, Memory>
        ensures { IfOk result (λ next. Takes self.old self.new next) }
    {
        while let Some(task) = self.tasks.pop() {
            match task {
                Task::Read(stretch) => return Ok(Some(stretch)),
                Task::Restore(name, meaning) => self.restore(name, meaning)?,
            }
        }
        Ok(None)
    }

    // Gives a name the meaning back that it had.
    fn restore(&mut self, name: Name, meaning: Option<Meaning>) -> Result<(), Memory>
        ensures { OnOk result (Restores self.old self.new name meaning) }
    {
        match meaning {
            Some(meaning) => {
                self.meanings.insert(name, meaning)?;
            }
            None => {
                self.meanings.remove(&name);
            }
        }
        Ok(())
    }

    // What a node becomes, where the next binder and the next let have these numbers; a name that means nothing becomes
    // nothing.
    fn form(&self, next: Count, form: &Form) -> Result<Option<TermForm>, Memory>
        ensures { IfOk result (λ became. (scope : Scope) → Knows self.now scope
            → became ≡ form_in scope next form.now) }
    {
        Ok(Some(match form {
            Form::Var(name) => return Ok(self.use_of(name)),
            Form::Operator(op) => TermForm::Global(operator_number(*op)),
            Form::Number(value) => TermForm::Number(*value),
            Form::Truth(value) => TermForm::Truth(*value),
            Form::Fun(_, body) => TermForm::Fun(next.binders, *body),
            Form::Apply(function, argument) => TermForm::Apply(*function, *argument),
            Form::Make(parts) => TermForm::Make(parts.clone()?),
            Form::Project(record, label) => TermForm::Project(*record, label.clone()?),
            Form::If(condition, first, second) => TermForm::If(*condition, *first, *second),
            Form::Let(_, first, second) => TermForm::Let(next.lets, *first, *second),
            Form::Rec(_, body) => TermForm::Rec(next.binders, *body),
        }))
    }

    // What the use of a name becomes.
    fn use_of(&self, name: &Name) -> Option<TermForm>
        ensures { result ≡ option_map (λ m. use_form (meant_of m))
            (get (slice_cmp nat_cmp) self.now.meanings name.now) }
    {
        match self.meanings.get(name) {
            Some(Meaning::Binder(x)) => Some(TermForm::Bound(*x)),
            Some(Meaning::Let(k)) => Some(TermForm::Inner(*k)),
            Some(Meaning::Scheme(g)) => Some(TermForm::Global(*g)),
            None => None,
        }
    }

    // Leaves the parts of a node to be read, the last one first, where the next binder and the next let have these
    // numbers.
    fn enter(&mut self, stretch: Stretch, next: Count, form: &Form) -> Result<(), Memory>
        requires within { IsWithin (2 ^ 62) stretch }
        requires parts { HasPartsBelow (2 ^ 62) form.now }
        ensures { OnOk result (Enters self.old self.new stretch next form.now) }
    {
        match form {
            Form::Fun(name, _) => self.enter_binder(stretch, next, name),
            Form::Rec(name, _) => self.enter_binder(stretch, next, name),
            Form::Let(name, first, _) => self.enter_let(stretch, next, name, *first),
            Form::If(condition, first, _) => {
                self.push(stretch)?;
                self.push(stretch.after(*condition))?;
                self.push(stretch.after(*first))
            }
            Form::Apply(function, _) => {
                self.push(stretch)?;
                self.push(stretch.after(*function))
            }
            Form::Make(parts) => self.enter_parts(stretch, parts.as_slice()),
            Form::Project(_, _) => self.push(stretch),
            Form::Var(_) | Form::Operator(_) | Form::Number(_) | Form::Truth(_) => Ok(()),
        }
    }

    // The body of a function or a recursion, which binds its name there.
    fn enter_binder(&mut self, stretch: Stretch, next: Count, name: &Name) -> Result<(), Memory>
        requires { stretch.binders < 2 ^ 62 }
        ensures { OnOk result (EntersBinder self.old self.new stretch next name.now) }
    {
        self.bind(name, Meaning::Binder(next.binders))?;
        self.push(Stretch {
            binders: stretch.binders + 1,
            ..stretch
        })
    }

    // The parts of a let, which binds its name in the second one.
    fn enter_let(
        &mut self,
        stretch: Stretch,
        next: Count,
        name: &Name,
        first: usize,
    ) -> Result<(), Memory>
        requires lets { stretch.lets < 2 ^ 62 }
        requires first { first < 2 ^ 62 }
        ensures { OnOk result (EntersLet self.old self.new stretch next name.now first) }
    {
        let inside = Stretch {
            lets: stretch.lets + 1,
            ..stretch
        };
        self.push(inside)?;
        self.bind(name, Meaning::Let(next.lets))?;
        self.push(inside.after(first))
    }

    // The parts of a record.
    fn enter_parts(&mut self, stretch: Stretch, parts: &[Part]) -> Result<(), Memory>
        requires { All (λ part. part.child < 2 ^ 62) parts.now }
        ensures { OnOk result (EntersFields self.old self.new stretch parts.now) }
    {
        let mut rest = stretch;
        for part in parts {
            self.push(rest)?;
            rest = rest.after(part.child);
        }
        Ok(())
    }

    // Leaves a part to be read.
    fn push(&mut self, stretch: Stretch) -> Result<(), Memory>
        ensures { OnOk result (Pushes self.old self.new stretch) }
    {
        self.tasks.push(Task::Read(stretch))?;
        Ok(())
    }

    // Gives a name a meaning until what is left to be read above it is read.
    fn bind(&mut self, name: &Name, meaning: Meaning) -> Result<(), Memory>
        ensures { OnOk result (Binds self.old self.new name.now meaning) }
    {
        let outside = self.meanings.insert(copied(name)?, meaning)?;
        self.tasks.push(Task::Restore(copied(name)?, outside))?;
        Ok(())
    }
}

impl Stretch {
    // The part behind the one with this root.
    fn after(self, root: usize) -> Stretch
        requires { root < 2 ^ 62 }
        ensures { result ≡ after self root }
    {
        Stretch {
            first: root + 1,
            ..self
        }
    }
}

// The numbers that the next binder and the next let of a part have: those before it in the text are among the nodes
// before it, or around it.
fn next_numbers(counts: &[Count], stretch: Stretch) -> Count
    requires counts { All (λ count. IsCountBelow (length counts.now) count) counts.now }
    requires room { length counts.now < 2 ^ 62 }
    requires within { IsWithin (length counts.now) stretch }
    ensures { result ≡ next_numbers counts.now stretch }
{
    let before = counts[stretch.first];
    Count {
        binders: before.binders + stretch.binders,
        lets: before.lets + stretch.lets,
    }
}

// A copy of a name.
fn copied(name: &Name) -> Result<Name, Memory>
    ensures { IfOk result (λ copy. copy ≡ name.now) }
{
    Ok(name.clone()?)
}

// The operators are the first schemes of the environment.
fn operator_number(op: Op) -> usize
    ensures { result ≡ operator_number op }
{
    match op {
        Op::Plus => 0,
        Op::Minus => 1,
        Op::Times => 2,
        Op::Less => 3,
        Op::Equal => 4,
    }
}
