//! Derivations as values: what stands on the lines of the text of a derivation.
ghost use Rattle.std.specs.Prelude.{◌≡◌, IfOk};

pub use crate::env::BinderNodes;
use mls_base::list::List;
use mls_base::memory::Memory;
use mls_book::book::{Book, NodeId};
use mls_book::name::Name;
use std::alloc::Global;
use std::marker::Model;

/// A derivation: a section for each binding of a module, in order.
#[derive(Drop)]
pub struct Derivation {
    pub sections: Sections,
}

/// The sections of a derivation.
pub type Sections = List<Section>;

/// The derivation of one binding: its name, the bytes of the text of its type, the nodes that its steps name, and its
/// lines.
#[derive(Drop)]
pub struct Section {
    pub name: Name,
    pub text: List<u8>,
    pub nodes: Book,
    pub lines: SectionLines,
}

/// The lines of a section after its nodes, in order.
pub type SectionLines = List<SectionLine>;

/// A line of a section. `Let` gives a let number the scheme of a step. `Put` gives a variable a node, and `Pair`
/// claims that its left node is below its right one; both belong to the step before them.
#[derive(Drop)]
pub enum SectionLine {
    Let(usize, usize),
    Step(OwnStep),
    Put(usize, NodeId),
    Pair(Mode, NodeId, NodeId),
}

/// Which side of a pair is read under the substitution of the `Put` lines: the left, the right, or none.
#[derive(Clone, Copy, Debug, PartialEq, Eq)]
pub enum Mode {
    Lr,
    Rl,
    Pp,
}

/// A step in memory of its own, since it is longer than the other lines, which are many more. Contracts see the step.
#[derive(Drop)]
pub struct OwnStep {
    step: Box<StepLine>,
}

impl Model for OwnStep {
    ghost use Rattle.mls_deriv.specs.declared.derivation.StepLine.{StepLine};

    ghost Value = { StepLine };

    ghost view = { λ own. own.step.value };
}

impl OwnStep {
    /// Puts a step into memory of its own.
    ///
    /// # Errors
    ///
    /// `Memory` where memory is wanting.
    pub fn new(alloc: Global, step: StepLine) -> Result<OwnStep, Memory>
        ensures { IfOk result (λ own. own ≡ step) }
    {
        let step = Box::new(alloc, step)?;
        Ok(OwnStep { step })
    }

    /// The step.
    pub fn get(&self) -> &StepLine
        ensures { result.now ≡ self.now }
    {
        &self.step
    }

    /// The step, to be changed.
    pub fn get_mut(&mut self) -> &mut StepLine
        ensures { result.now ≡ self.old }
    {
        &mut self.step
    }

    /// Gives the step this environment.
    pub fn set_env(&mut self, env: BinderNodes)
        ensures { self.new ≡ record self.old { env = env } }
    {
        self.step.env = env;
    }
}

/// A step: the node of the term that it is about, its rule, and the scheme that it concludes.
#[derive(Drop)]
pub struct StepLine {
    pub node: usize,
    pub rule: StepRule,
    pub env: BinderNodes,
    pub root: NodeId,
}

/// The node of a binder in an environment.
#[derive(Clone, Copy, Debug, PartialEq, Eq)]
pub struct BinderNode {
    pub binder: usize,
    pub node: NodeId,
}

/// The rule of a step, with the numbers of the earlier steps that it needs.
#[derive(Drop)]
pub enum StepRule {
    /// A binder has any type, which it needs of itself.
    Var,
    /// A let-bound name has the scheme of a step.
    Use(usize),
    /// A name of the environment has its scheme, whose book stands from this node on.
    Name(NodeId),
    /// A number or a truth value.
    Lit,
    Fun(usize),
    App(usize, usize),
    Make(List<usize>),
    Proj(usize),
    If(usize, usize, usize),
    Let(usize, usize),
    Rec(usize),
    /// The pairs that follow show that a step about the same node subsumes this one.
    Sub(usize),
}
