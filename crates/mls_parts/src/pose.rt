//! The constraint of a part of a term, posed node by node: each node has a state as its root, each binder one negative
//! state, and all goals of the part stand together.
ghost use Rattle.std.specs.Prelude.{◌≡◌, ◌≢◌, ℕ, ◌+◌, ◌++◌, ◌∷◌, List, [], suc, length, map, All, Contains};
ghost use Rattle.std.specs.Prelude.{OnOk, IfOk, IsSome, Some};
ghost use Rattle.std.specs.List.{AllPairs};
ghost use Rattle.std.specs.Cmp.Lexicographic.{slice_cmp};
ghost use Rattle.std.specs.BTreeMap.{IsOrdered};
ghost use Rattle.std.specs.Ordering.{nat_cmp};
ghost use Rattle.mls_automaton.specs.declared.automaton.Polarity.TheVariants.{Negative, Positive};
ghost use Rattle.mls_automaton.specs.declared.automaton.FieldSet.{FieldSet};
ghost use Rattle.mls_automaton.specs.Automata.{IsState, empty_head};
ghost use Rattle.mls_infer.specs.Joining.{AreRows, part_labels, row_field};
ghost use Rattle.mls_term.specs.declared.term.Part.{Part};
ghost use Rattle.mls_automaton.specs.Models.{IsClosed};
ghost use Rattle.mls_parts.specs.MetNeeds.{AreNeeds, HasMet};
ghost use Rattle.mls_parts.specs.PosedParts.{AddsBinder, ArePosable, HavePosed, IsBegun, IsPartList, IsPartPosed};
ghost use Rattle.mls_parts.specs.Posings.{AddsChoice, AddsNode, CanPose, IsBranch, known_in};
ghost use Rattle.mls_parts.specs.Posings.{Adds, NoEdge, OneEdge, AreFieldsOf, number_at, root_in, binder_in, size};
ghost use Rattle.mls_parts.specs.Posings.{literal_added, fun_added, apply_added, project_added, choice_added, fix_added};
ghost use Rattle.mls_parts.specs.Posings.{choice_goals, joined_choice_added};
ghost use Rattle.mls_parts.specs.Posings.{bool_head, int_head, function_head, record_head, one_field, goal};
ghost use Rattle.mls_parts.specs.Posings.{AddsCopy, IsCopiedEdge, IsKnownTo, copy_added, copy_in};
ghost use Rattle.mls_parts.specs.steps.Results.{AddsEdges, Binds, CanBind, HasResult};
ghost use Rattle.mls_parts.specs.steps.Sharing.{PosesNext, shared_added};

use crate::numbers::NumberMap;
use crate::shared::{Shared, number_of};
use mls_automaton::automaton::{Arms, Automaton, FieldSet, FieldSets, Head, Polarity};
use mls_automaton::combine::{combine_heads, copied_head};
use mls_automaton::scheme::{EnvEntry, Scheme};
use mls_automaton::state_set::{StateId, StateSet};
use mls_base::list::List;
use mls_base::memory::Memory;
use mls_book::name::Name;
use mls_solver::goal::Goal;
use mls_term::term::{Part, TermForm, TermNode};
use std::alloc::Global;
use std::collections::BTreeMap;

// So many states have room from the start: the constraint of a short expression has no more.
const ROOM: usize = 64;

/// What is asked of a binder around: the head of the type that a use of a let-bound name needs it to have.
#[derive(Drop)]
pub struct Need {
    pub binder: usize,
    pub head: Head,
}

/// Goals in the order in which they were posed.
pub type Goals = List<Goal>;

/// What binders need.
pub type Needs = List<Need>;

/// A constraint that is being posed: its automaton and its goals, the root of each node that was posed, the state of
/// each binder, what copies of known types ask of binders, for each node with a copy the copy's first state, and for
/// each conditional the state that its branches go into.
#[derive(Drop)]
pub struct Posing {
    pub automaton: Automaton,
    pub goals: Goals,
    pub roots: NumberMap<usize>,
    pub binders: NumberMap<usize>,
    pub needs: Needs,
    pub copies: NumberMap<usize>,
    pub results: NumberMap<usize>,
}

// The number at a key, and 0 where there is none.
fn number_at(numbers: &NumberMap<usize>, key: usize) -> usize
    ensures { result ≡ number_at numbers.now key }
{
    match numbers.get(key) {
        Some(number) => *number,
        None => 0,
    }
}

// The number that is higher by this.
fn raised(state: usize, up: usize) -> Result<usize, Memory>
    ensures { IfOk result (λ raised. raised ≡ up + state) }
{
    let raised = up.checked_add(state).ok_or(Memory)?;
    Ok(raised)
}

// The branch that has more nodes, where each node stands behind its parts, and those of the first branch before those of
// the second.
fn larger_branch(condition: usize, first: usize, second: usize) -> usize
    ensures { IsBranch first second result }
{
    if first.saturating_sub(condition) > second.saturating_sub(first) {
        first
    } else {
        second
    }
}

// The head of the functions from a state to a state.
fn function_head(alloc: Global, domain: usize, codomain: usize) -> Result<Head, Memory>
    ensures { IfOk result (λ head. head ≡ function_head domain codomain) }
{
    let domain = StateSet::one(alloc, StateId(domain))?;
    let codomain = StateSet::one(alloc, StateId(codomain))?;
    let mut head = Head::empty();
    head.function = Some(Arms { domain, codomain });
    Ok(head)
}

// The head of the records with these fields.
fn record_head(fields: FieldSets) -> Head
    ensures { result ≡ record_head fields }
{
    let mut head = Head::empty();
    head.fields = Some(fields);
    head
}

// The head of the records with this field.
fn field_head(alloc: Global, label: &Name, state: usize) -> Result<Head, Memory>
    ensures { IfOk result (λ head. head ≡ record_head (one_field label.now state)) }
{
    let mut fields = FieldSets::new(alloc);
    fields.push(FieldSet {
        label: label.clone()?,
        set: StateSet::one(alloc, StateId(state))?,
    })?;
    Ok(record_head(fields))
}

fn bool_head() -> Head
    ensures { result ≡ bool_head }
{
    let mut head = Head::empty();
    head.boolean = true;
    head
}

fn int_head() -> Head
    ensures { result ≡ int_head }
{
    let mut head = Head::empty();
    head.integer = true;
    head
}

impl Posing {
    /// The root of a node.
    pub fn root(&self, node: usize) -> usize
        ensures { result ≡ root_in self.now node }
    {
        number_at(&self.roots, node)
    }

    /// The state of a binder.
    pub fn binder(&self, binder: usize) -> usize
        ensures { result ≡ binder_in self.now binder }
    {
        number_at(&self.binders, binder)
    }

    // Adds a state for a binder.
    fn push_binder_state(&mut self, binder: usize) -> Result<(), Memory>
        ensures { OnOk result (AddsBinder self.old self.new binder) }
    {
        let state = self.automaton.state(Polarity::Negative, Head::empty())?;
        self.binders.insert(binder, state.0)?;
        Ok(())
    }

    // A constraint with a state for each of these binders.
    fn begun(alloc: Global, binders: &[usize]) -> Result<Posing, Memory>
        ensures { IfOk result (IsBegun binders.now) }
    {
        let automaton = Automaton::with_room(alloc, ROOM)?;
        let mut posing = Posing {
            automaton,
            goals: Goals::new(alloc),
            roots: NumberMap::new(alloc),
            binders: NumberMap::new(alloc),
            needs: Needs::new(alloc),
            copies: NumberMap::new(alloc),
            results: NumberMap::new(alloc),
        };
        for binder in binders {
            posing.push_binder_state(*binder)?;
        }
        Ok(posing)
    }

    // Poses these nodes one after another.
    fn pose_nodes(
        &mut self,
        alloc: Global,
        nodes: &[TermNode],
        part: &[usize],
        known: &KnownTypes,
    ) -> Result<(), Memory>
        requires list { IsPartList nodes.now part.now }
        requires begun { (binders : List ℕ) × IsBegun binders self.old
            × ArePosable binders nodes.now part.now known.now.globals known.now.lets }
        ensures { OnOk result (HavePosed nodes.now known.now.globals known.now.lets self.old self.new part.now) }
    {
        let mut shared = Shared::new(alloc);
        for node in part {
            self.pose_next(alloc, &mut shared, *node, &nodes[*node].form, known)?;
        }
        Ok(())
    }

    // Poses a node, with the copy of the first use of its name where that is shared.
    fn pose_next(
        &mut self,
        alloc: Global,
        shared: &mut Shared,
        node: usize,
        form: &TermForm,
        known: &KnownTypes,
    ) -> Result<(), Memory>
        requires { CanPose known.now.globals known.now.lets self.old form.now }
        ensures { OnOk result (PosesNext known.now.globals known.now.lets shared.old shared.new self.old self.new node
            form.now) }
    {
        match shared.share(form)? {
            Some(first) => self.pose_again(node, first),
            None => {
                self.pose_node(alloc, node, form, known)?;
                shared.note(node, form, known)
            }
        }
    }

    // A use of a name that shares the copy of another one.
    fn pose_again(&mut self, node: usize, first: usize) -> Result<(), Memory>
        ensures { OnOk result (Adds self.old self.new node
            (shared_added (root_in self.old first) (copy_in self.old first)) NoEdge) }
    {
        let root = self.root(first);
        self.roots.insert(node, root)?;
        let copy = number_at(&self.copies, first);
        self.copies.insert(node, copy)?;
        Ok(())
    }

    // Adds a goal.
    fn push_goal(&mut self, positive: usize, negative: usize) -> Result<(), Memory>
        ensures { OnOk result (self.new ≡ record self.old { goals = self.old.goals ++ goal positive negative ∷ [] }) }
    {
        self.goals.push(Goal {
            positive: StateId(positive),
            negative: StateId(negative),
        })?;
        Ok(())
    }

    // A node whose root is a new state with this head.
    fn pose_literal(&mut self, node: usize, head: Head) -> Result<(), Memory>
        ensures { OnOk result (Adds self.old self.new node (literal_added (size self.old) head) NoEdge) }
    {
        let root = self.automaton.state(Polarity::Positive, head)?;
        self.roots.insert(node, root.0)?;
        Ok(())
    }

    // A use of a binder.
    fn pose_bound(&mut self, node: usize, binder: usize) -> Result<(), Memory>
        requires { IsState self.old.automaton Negative (binder_in self.old binder) }
        ensures { OnOk result (Adds self.old self.new node (literal_added (size self.old) empty_head)
            (OneEdge (binder_in self.old binder) (size self.old))) }
    {
        let state = self.binder(binder);
        let root = self.automaton.state(Polarity::Positive, Head::empty())?;
        self.automaton.add_flow(StateId(state), root)?;
        self.roots.insert(node, root.0)?;
        Ok(())
    }

    // A function of a binder.
    fn pose_fun(
        &mut self,
        alloc: Global,
        node: usize,
        binder: usize,
        body: usize,
    ) -> Result<(), Memory>
        ensures { OnOk result (Adds self.old self.new node
            (fun_added (size self.old) (binder_in self.old binder) (root_in self.old body)) NoEdge) }
    {
        let head = function_head(alloc, self.binder(binder), self.root(body))?;
        self.pose_literal(node, head)
    }

    // Adds a positive state, and a negative one that flows into it.
    fn push_result(&mut self) -> Result<(StateId, StateId), Memory>
        ensures result { OnOk result (HasResult self.old self.new) }
        ensures states { IfOk result (λ both. (both.0.0 ≡ size self.old) × (both.1.0 ≡ suc (size self.old))) }
    {
        let root = self.automaton.state(Polarity::Positive, Head::empty())?;
        let into = self.automaton.state(Polarity::Negative, Head::empty())?;
        self.automaton.add_flow(into, root)?;
        Ok((root, into))
    }

    // An application of a function to an argument.
    fn pose_apply(
        &mut self,
        alloc: Global,
        node: usize,
        function: usize,
        argument: usize,
    ) -> Result<(), Memory>
        ensures { OnOk result (Adds self.old self.new node
            (apply_added (size self.old) (root_in self.old function) (root_in self.old argument))
            (OneEdge (suc (size self.old)) (size self.old))) }
    {
        let (root, into) = self.push_result()?;
        let head = function_head(alloc, self.root(argument), into.0)?;
        let upper = self.automaton.state(Polarity::Negative, head)?;
        self.push_goal(self.root(function), upper.0)?;
        self.roots.insert(node, root.0)?;
        Ok(())
    }

    // A projection of a field.
    fn pose_project(
        &mut self,
        alloc: Global,
        node: usize,
        body: usize,
        label: &Name,
    ) -> Result<(), Memory>
        ensures { OnOk result (Adds self.old self.new node
            (project_added (size self.old) (root_in self.old body) label.now)
            (OneEdge (suc (size self.old)) (size self.old))) }
    {
        let (root, into) = self.push_result()?;
        let head = field_head(alloc, label, into.0)?;
        let upper = self.automaton.state(Polarity::Negative, head)?;
        self.push_goal(self.root(body), upper.0)?;
        self.roots.insert(node, root.0)?;
        Ok(())
    }

    // Adds the goals of a conditional: the condition goes into one state, and both branches into another.
    fn push_choice_goals(
        &mut self,
        condition: usize,
        first: usize,
        second: usize,
        bit: usize,
        into: usize,
    ) -> Result<(), Memory>
        ensures { OnOk result (self.new ≡ record self.old {
          goals = self.old.goals ++ choice_goals
              (root_in self.old condition) (root_in self.old first) (root_in self.old second) bit into;
        }) }
    {
        self.push_goal(self.root(condition), bit)?;
        self.push_goal(self.root(first), into)?;
        self.push_goal(self.root(second), into)
    }

    // A conditional with a root of its own.
    fn pose_own_choice(
        &mut self,
        node: usize,
        condition: usize,
        first: usize,
        second: usize,
    ) -> Result<(), Memory>
        ensures { OnOk result (Adds self.old self.new node
            (choice_added (size self.old) (root_in self.old condition) (root_in self.old first)
            (root_in self.old second)) (OneEdge (suc (size self.old)) (size self.old))) }
    {
        let (root, into) = self.push_result()?;
        let bit = self.automaton.state(Polarity::Negative, bool_head())?;
        self.push_choice_goals(condition, first, second, bit.0, into.0)?;
        self.roots.insert(node, root.0)?;
        self.results.insert(node, into.0)?;
        Ok(())
    }

    // A conditional whose root is that of one of its branches, a conditional whose own branches go into this state: so
    // both branches go into it.
    fn pose_joined_choice(
        &mut self,
        node: usize,
        condition: usize,
        first: usize,
        second: usize,
        root: usize,
        into: usize,
    ) -> Result<(), Memory>
        ensures { OnOk result (Adds self.old self.new node
            (joined_choice_added (size self.old) (root_in self.old condition) (root_in self.old first)
            (root_in self.old second) root into) NoEdge) }
    {
        let bit = self.automaton.state(Polarity::Negative, bool_head())?;
        self.push_choice_goals(condition, first, second, bit.0, into)?;
        self.roots.insert(node, root)?;
        self.results.insert(node, into)?;
        Ok(())
    }

    // A conditional. It shares the states of the branch of more nodes, if that is a conditional: so what flows into the
    // innermost of a chain is related to one state, and not to one for each that is around it.
    fn pose_choice(
        &mut self,
        node: usize,
        condition: usize,
        first: usize,
        second: usize,
    ) -> Result<(), Memory>
        ensures { OnOk result (AddsChoice self.old self.new node condition first second) }
    {
        let branch = larger_branch(condition, first, second);
        match number_of(&self.results, branch) {
            Some(into) => self.pose_joined_choice(
                node,
                condition,
                first,
                second,
                self.root(branch),
                into,
            ),
            None => self.pose_own_choice(node, condition, first, second),
        }
    }

    // A recursion: the root is that of its body, which goes into its binder.
    fn pose_fix(&mut self, node: usize, binder: usize, body: usize) -> Result<(), Memory>
        ensures { OnOk result (Adds self.old self.new node
            (fix_added (root_in self.old body) (binder_in self.old binder)) NoEdge) }
    {
        let root = self.root(body);
        self.push_goal(root, self.binder(binder))?;
        self.roots.insert(node, root)?;
        Ok(())
    }

    // Adds an edge from the state of a binder to each of these states, whose numbers are higher by this.
    fn push_edges(&mut self, from: usize, first: usize, ends: &[usize]) -> Result<(), Memory>
        requires from { IsState self.old.automaton Negative from }
        requires ends { All (λ r. IsState self.old.automaton Positive (first + r)) ends.now }
        ensures { OnOk result (AddsEdges self.old self.new (λ m r. (m ≡ from) × (l : ℕ) × Contains ends.now l
            × (r ≡ first + l))) }
    {
        for end in ends {
            let to = raised(*end, first)?;
            self.automaton.add_flow(StateId(from), StateId(to))?;
        }
        Ok(())
    }

    // What the state of a binder asks in a copy whose first state has this number: its edges go from the binder
    // around, which needs its head.
    fn push_binder(&mut self, first: usize, known: &Scheme, entry: EnvEntry) -> Result<(), Memory>
        requires { CanBind self.old first known.now entry }
        ensures { OnOk result (Binds self.old self.new first known.now entry) }
    {
        let from = self.binder(entry.binder);
        self.push_edges(
            from,
            first,
            known.automaton.partners(entry.state).as_slice(),
        )?;
        let own = raised(entry.state.0, first)?;
        let head = copied_head(self.automaton.head(StateId(own)))?;
        self.needs.push(Need {
            binder: entry.binder,
            head,
        })?;
        Ok(())
    }

    // Adds a copy of a known type, and answers the number of its first state.
    fn push_copy(&mut self, known: &Scheme) -> Result<usize, Memory>
        requires { IsKnownTo self.old known.now }
        ensures copy { OnOk result (AddsCopy self.old self.new (size self.old) known.now known.now.env) }
        ensures first { IfOk result (λ first. first ≡ size self.old) }
    {
        let first = self.automaton.append(&known.automaton)?;
        for entry in known.env.as_slice() {
            self.push_binder(first, known, *entry)?;
        }
        Ok(first)
    }

    // A name of this known type.
    fn pose_name(&mut self, node: usize, known: &Scheme) -> Result<(), Memory>
        requires { IsKnownTo self.old known.now }
        ensures { OnOk result (Adds self.old self.new node
            (copy_added (size self.old) known.now (size self.old + known.now.root.0))
            (IsCopiedEdge (size self.old) (binder_in self.old) known.now known.now.env)) }
    {
        let first = self.push_copy(known)?;
        let root = raised(known.root.0, first)?;
        self.roots.insert(node, root)?;
        self.copies.insert(node, first)?;
        Ok(())
    }

    // A let of which the first part has this known type.
    fn pose_let(&mut self, node: usize, known: &Scheme, second: usize) -> Result<(), Memory>
        requires { IsKnownTo self.old known.now }
        ensures { OnOk result (Adds self.old self.new node
            (copy_added (size self.old) known.now (root_in self.old second))
            (IsCopiedEdge (size self.old) (binder_in self.old) known.now known.now.env)) }
    {
        let first = self.push_copy(known)?;
        let root = self.root(second);
        self.roots.insert(node, root)?;
        self.copies.insert(node, first)?;
        Ok(())
    }

    // A record of these parts.
    fn pose_make(&mut self, alloc: Global, node: usize, parts: &[Part]) -> Result<(), Memory>
        requires { AllPairs (λ x y. x ≢ y) (part_labels parts.now) }
        ensures { OnOk result ((fields : List FieldSet) × AreFieldsOf (root_in self.old) parts.now fields
            × Adds self.old self.new node (literal_added (size self.old) (record_head fields)) NoEdge) }
    {
        let rows = self.rows_of(alloc, parts)?;
        let fields = fields_of(alloc, &rows)?;
        self.pose_literal(node, record_head(fields))
    }

    // The roots of the parts of a record by their labels.
    fn rows_of(&self, alloc: Global, parts: &[Part]) -> Result<BTreeMap<Name, StateId>, Memory>
        requires { AllPairs (λ x y. x ≢ y) (part_labels parts.now) }
        ensures { IfOk result (AreRows (length parts.now) (part_labels parts.now)
            (map (λ (part : Part). root_in self.now part.child) parts.now)) }
    {
        let mut rows = BTreeMap::new(alloc);
        for part in parts {
            rows.insert(copied_label(&part.label)?, StateId(self.root(part.child)))?;
        }
        Ok(rows)
    }

    /// Adds what a node asks for.
    ///
    /// # Errors
    ///
    /// `Memory` where memory is wanting.
    pub fn pose_node(
        &mut self,
        alloc: Global,
        node: usize,
        form: &TermForm,
        known: &KnownTypes,
    ) -> Result<(), Memory>
        requires { CanPose known.now.globals known.now.lets self.old form.now }
        ensures { OnOk result (AddsNode (known_in known.now.globals) (known_in known.now.lets) self.old self.new node
            form.now) }
    {
        match form {
            TermForm::Bound(x) => self.pose_bound(node, *x),
            TermForm::Inner(k) => self.pose_name(node, known_type(&known.lets, *k)),
            TermForm::Global(g) => self.pose_name(node, known_type(&known.globals, *g)),
            TermForm::Number(_) => self.pose_literal(node, int_head()),
            TermForm::Truth(_) => self.pose_literal(node, bool_head()),
            TermForm::Fun(x, body) => self.pose_fun(alloc, node, *x, *body),
            TermForm::Apply(function, argument) => self.pose_apply(
                alloc, node, *function, *argument,
            ),
            TermForm::Make(parts) => self.pose_make(alloc, node, parts.as_slice()),
            TermForm::Project(body, label) => self.pose_project(alloc, node, *body, label),
            TermForm::If(condition, first, second) => self.pose_choice(
                node, *condition, *first, *second,
            ),
            TermForm::Let(k, _, second) => self.pose_let(
                node,
                known_type(&known.lets, *k),
                *second,
            ),
            TermForm::Rec(x, body) => self.pose_fix(node, *x, *body),
        }
    }
}

/// The types that are known of names: of the environment by their numbers, and of the first parts of lets by theirs.
#[derive(Drop)]
pub struct KnownTypes {
    pub globals: BTreeMap<usize, Scheme>,
    pub lets: BTreeMap<usize, Scheme>,
}

// The type that is known of a name.
fn known_type<'a>(types: &'a BTreeMap<usize, Scheme>, name: usize) -> &'a Scheme
    requires { IsSome (known_in types.now name) }
    ensures { known_in types.now name ≡ Some result.now }
{
    match types.get(&name) {
        Some(scheme) => scheme,
        None => unreachable!(),
    }
}

// The fields of these labels, in their order, each with its state.
fn fields_of(alloc: Global, rows: &BTreeMap<Name, StateId>) -> Result<FieldSets, Memory>
    ensures fields { IfOk result (λ fields. fields ≡ map row_field rows.now.entries) }
    ensures ordered { IsOrdered (slice_cmp nat_cmp) rows.now }
{
    let mut fields = FieldSets::new(alloc);
    for (label, root) in rows.iter() {
        push_field(alloc, &mut fields, label, *root)?;
    }
    Ok(fields)
}

fn push_field(
    alloc: Global,
    fields: &mut FieldSets,
    label: &Name,
    root: StateId,
) -> Result<(), Memory>
    ensures { OnOk result (fields.new ≡ fields.old ++ map row_field ((label.now, root) ∷ [])) }
{
    fields.push(FieldSet {
        label: label.clone()?,
        set: StateSet::one(alloc, root)?,
    })?;
    Ok(())
}

/// The same label once more.
pub(crate) fn copied_label(label: &Name) -> Result<Name, Memory>
    ensures { IfOk result (λ copy. copy ≡ label.now) }
{
    let copy = label.clone()?;
    Ok(copy)
}

/// Gives the states of binders the heads that copies of known types need.
///
/// # Errors
///
/// `Memory` where memory is wanting.
pub fn meet_needs(
    alloc: Global,
    automaton: &mut Automaton,
    binders: &NumberMap<usize>,
    needs: &[Need],
) -> Result<(), Memory>
    requires closed { IsClosed automaton.old }
    requires needs { AreNeeds automaton.old binders.now needs.now }
    ensures { OnOk result (HasMet binders.now needs.now automaton.old automaton.new) }
{
    for need in needs {
        let state = StateId(number_at(binders, need.binder));
        let head = combine_heads(alloc, Polarity::Negative, automaton.head(state), &need.head)?;
        automaton.set_head(state, head);
    }
    Ok(())
}

/// The constraint of a part of a term: of these nodes, each behind its parts, over the binders around the part and
/// those that it binds. The names have these known types.
///
/// # Errors
///
/// `Memory` where memory is wanting.
pub fn pose_part(
    alloc: Global,
    nodes: &[TermNode],
    part: &[usize],
    binders: &[usize],
    known: &KnownTypes,
) -> Result<Posing, Memory>
    requires list { IsPartList nodes.now part.now }
    requires posable { ArePosable binders.now nodes.now part.now known.now.globals known.now.lets }
    ensures { IfOk result (IsPartPosed nodes.now known.now.globals known.now.lets binders.now part.now) }
{
    let mut posing = Posing::begun(alloc, binders)?;
    posing.pose_nodes(alloc, nodes, part, known)?;
    meet_needs(
        alloc,
        &mut posing.automaton,
        &posing.binders,
        posing.needs.as_slice(),
    )?;
    Ok(posing)
}
