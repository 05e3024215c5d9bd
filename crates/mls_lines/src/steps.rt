//! The steps of a section, as they are written.
ghost use Rattle.std.specs.Prelude.{◌≡◌, ◌++◌, [], ◌∷◌, option_map, IfOk, IsTrue, OnOk};
ghost use Rattle.mls_deriv.specs.declared.derivation.SectionLine.TheVariants as line;
ghost use Rattle.mls_deriv.specs.Sections.{steps_of};
ghost use Rattle.mls_deriv.specs.Steps.{IsRising};
ghost use Rattle.mls_layout.specs.Emitted.{binder_pair};
ghost use Rattle.mls_lines.specs.Stepping.{AddsAdapted, AddsStep, AddsSub, AreCounted, Stands};
ghost use Rattle.mls_lines.specs.Stepping.{binder_node, pairs_over};

use crate::puts::Puts;
use mls_base::list::List;
use mls_base::memory::Memory;
use mls_book::book::{Book, NodeId};
use mls_deriv::claim::Pair;
use mls_deriv::derivation::{
    BinderNode, BinderNodes, Mode, OwnStep, SectionLine, SectionLines, StepLine, StepRule,
};
use mls_deriv::env::LONG;
use mls_deriv::steps::is_same;
use mls_pairs::lines::{push_pairs, push_puts};
use mls_pairs::pairs::{Pairs, pairs_for};
use std::alloc::Global;

/// What a step concludes: its number, its type, and what it needs of binders. Where variables of its type still have to
/// be put in, `puts` are their nodes.
#[derive(Drop)]
pub struct Conclusion {
    pub step: usize,
    pub root: NodeId,
    pub env: BinderNodes,
    pub puts: Puts,
}

impl Conclusion {
    /// The type, where no variable is left to be put in.
    pub fn own_type(&self) -> Option<NodeId> {
        match self.puts.is_empty() {
            true => Some(self.root),
            false => None,
        }
    }
}

/// The lines of a section so far, and how many steps they have.
#[derive(Drop)]
pub struct Steps {
    pub lines: SectionLines,
    pub count: usize,
    // The last long environment: most steps of a large term have it again, and share it.
    last: BinderNodes,
}

/// The same environment once more.
///
/// # Errors
///
/// `Memory` where memory is wanting.
pub fn copied(alloc: Global, env: &[BinderNode]) -> Result<BinderNodes, Memory>
    ensures { IfOk result (λ copy. copy ≡ env.now) }
{
    let mut copy = Vec::with_capacity(alloc, env.len())?;
    copy.extend_from_slice(env)?;
    Ok(BinderNodes::of(copy))
}

/// The node of a binder, where binders rise.
pub fn node_of(env: &[BinderNode], binder: usize) -> Option<NodeId>
    ensures { IsRising env.now → option_map (λ id. id.0) result ≡ binder_node env.now binder }
{
    match env.binary_search_by(|entry| entry.binder.cmp(&binder)) {
        Ok(at) => Some(env[at].node),
        Err(_) => None,
    }
}

/// Whether two environments are the same.
pub fn are_same(env: &[BinderNode], other: &[BinderNode]) -> bool
    ensures { IsTrue result → env.now ≡ other.now }
{
    is_same(env, other)
}

// Adds the pair of a binder, where the later environment has it.
fn push_asked(pairs: &mut Pairs, entry: BinderNode, env: &[BinderNode]) -> Result<(), Memory>
    ensures { IsRising env.now → OnOk result (pairs.new ≡ pairs.old ++ binder_pair env.now entry) }
{
    if let Some(node) = node_of(env, entry.binder) {
        pairs.push(Pair {
            mode: Mode::Rl,
            left: node.0,
            right: entry.node.0,
        })?;
    }
    Ok(())
}

// The pairs that a step by pairs asks for: that of the two types, and that of each binder.
fn asked(
    alloc: Global,
    from: &Conclusion,
    env: &[BinderNode],
    root: NodeId,
) -> Result<Pairs, Memory>
    ensures { IsRising env.now
        → IfOk result (λ pairs. pairs ≡ pairs_over from.now.env env.now from.now.root.0 root.0) }
{
    let mut pairs = Pairs::new(alloc);
    pairs.push(Pair {
        mode: Mode::Lr,
        left: from.root.0,
        right: root.0,
    })?;
    for entry in from.env.as_slice() {
        push_asked(&mut pairs, *entry, env)?;
    }
    Ok(pairs)
}

impl Steps {
    /// No line.
    pub fn new(alloc: Global) -> Steps
        ensures lines { result.lines ≡ [] }
        ensures count { result.count ≡ 0 }
    {
        Steps {
            lines: List::new(alloc),
            count: 0,
            last: BinderNodes::new(alloc),
        }
    }

    // The same environment, in the place of the last long one where it is that one again.
    fn placed(&mut self, alloc: Global, env: BinderNodes) -> Result<BinderNodes, Memory>
        ensures lines { self.new.lines ≡ self.old.lines }
        ensures count { self.new.count ≡ self.old.count }
        ensures same { IfOk result (λ placed. placed ≡ env) }
    {
        if env.is_empty() || env.lies_with(&self.last) {
            return Ok(env);
        }
        if env.len() < LONG {
            return env.share(alloc);
        }
        if !are_same(env.as_slice(), self.last.as_slice()) {
            self.last = env.share(alloc)?;
        }
        self.last.copy(alloc)
    }

    /// Writes a step.
    ///
    /// # Errors
    ///
    /// `Memory` where memory is wanting.
    pub fn step(
        &mut self,
        alloc: Global,
        node: usize,
        rule: StepRule,
        env: BinderNodes,
        root: NodeId,
    ) -> Result<Conclusion, Memory>
        ensures { IfOk result (AddsStep
            self.old self.new (record { node = node; rule = «rule»; env = env; root = root })) }
    {
        let step = self.count;
        self.count = step.checked_add(1).ok_or(Memory)?;
        let env = self.placed(alloc, env)?;
        let line = StepLine {
            node,
            rule,
            env: env.copy(alloc)?,
            root,
        };
        self.lines
            .push(SectionLine::Step(OwnStep::new(alloc, line)?))?;
        Ok(Conclusion {
            step,
            root,
            env,
            puts: Puts::new(alloc),
        })
    }

    // Writes a step by pairs.
    fn sub(
        &mut self,
        alloc: Global,
        book: &Book,
        node: usize,
        from: &Conclusion,
        env: &BinderNodes,
        root: NodeId,
    ) -> Result<Conclusion, Memory>
        ensures { IsRising env.now
            → IfOk result (AddsSub book.now self.old self.new node from.now env.now root) }
    {
        let puts = from.puts.as_slice();
        let binders = env.as_slice();
        let wanted = asked(alloc, from, binders, root)?;
        let pairs = pairs_for(alloc, book, puts, wanted.as_slice())?;
        let own = env.copy(alloc)?;
        let to = self.step(alloc, node, StepRule::Sub(from.step), own, root)?;
        push_puts(&mut self.lines, puts)?;
        push_pairs(&mut self.lines, pairs.as_slice())?;
        Ok(to)
    }

    /// Goes over to another type and environment, where they differ, and puts in what variables stand for.
    ///
    /// # Errors
    ///
    /// `Memory` where memory is wanting.
    pub fn adapt(
        &mut self,
        alloc: Global,
        book: &Book,
        node: usize,
        from: Conclusion,
        env: &BinderNodes,
        root: NodeId,
    ) -> Result<Conclusion, Memory>
        ensures { IsRising env.now → AreCounted self.old → Stands (steps_of self.old.lines) from
            → IfOk result (AddsAdapted book.now self.old self.new node from env.now root) }
    {
        if from.puts.is_empty()
            && from.root == root
            && are_same(from.env.as_slice(), env.as_slice())
        {
            return Ok(from);
        }
        self.sub(alloc, book, node, &from, env, root)
    }

    /// Writes that the name of a let has the type of a step.
    ///
    /// # Errors
    ///
    /// `Memory` where memory is wanting.
    pub fn name(&mut self, k: usize, step: usize) -> Result<(), Memory>
        ensures lines { OnOk result (self.new.lines ≡ self.old.lines ++ line.Let k step ∷ []) }
        ensures count { self.new.count ≡ self.old.count }
    {
        self.lines.push(SectionLine::Let(k, step))?;
        Ok(())
    }
}
