//! Verdicts: whether a general scheme subsumes a special one, and by what.
ghost use Rattle.std.specs.Prelude.{◌≡◌, IfOk};

use mls_automaton::automaton::HeadKind;
use mls_automaton::state_set::StateId;
use mls_base::list::List;
use mls_base::memory::Memory;
use mls_book::name::Name;

/// A state of the general scheme, and one of the special scheme.
#[derive(Clone, Copy)]
pub struct StatePair {
    pub general: StateId,
    pub special: StateId,
}

/// A step from a pair of states to the pair of the states that both heads name.
#[derive(Drop)]
pub enum Step {
    Domain,
    Codomain,
    At(Name),
}

impl Step {
    /// The same step.
    ///
    /// # Errors
    ///
    /// `Memory` where memory is wanting.
    pub fn copy(&self) -> Result<Step, Memory>
        ensures { IfOk result (λ copy. copy ≡ self.now) }
    {
        match self {
            Step::Domain => Ok(Step::Domain),
            Step::Codomain => Ok(Step::Codomain),
            Step::At(label) => Ok(Step::At(label.clone()?)),
        }
    }
}

/// Why a pair of states fails.
#[derive(Drop)]
pub enum Reason {
    /// The general state has a part of this kind, and the special one has none.
    Head(HeadKind),
    /// Both have a record, and only one has this label.
    Label(Name),
    /// An edge of the general state has no counterpart.
    Flow,
}

/// A path from the roots to a pair that fails, and why that pair fails.
#[derive(Drop)]
pub struct Path {
    pub steps: List<Step>,
    pub reason: Reason,
}

/// All pairs that are met on the way from the roots, by the polarity of their general states.
#[derive(Drop)]
pub struct Walk {
    pub positives: List<StatePair>,
    pub negatives: List<StatePair>,
}

/// Whether the general scheme subsumes the special one, and by what.
#[derive(Drop)]
pub enum Verdict {
    /// It does, by this walk.
    Yes(Walk),
    /// It does not: this is the first failure.
    No(Path),
}
