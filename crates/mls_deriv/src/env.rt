//! The environments of steps.
ghost use Rattle.std.specs.Prelude.{◌≡◌, ◌↔◌, ◌<◌, ◌++◌, ◌∷◌, [], length, All, IfOk, IsTrue, OnErr, OnOk};
ghost use Rattle.mls_deriv.specs.Steps.{IsRising};
ghost use Rattle.mls_deriv.specs.inner.Environments.{top_node};

use crate::derivation::BinderNode;
use crate::steps::{are_low, is_rising};
use mls_base::memory::Memory;
use std::alloc::Global;
use std::marker::Model;
use std::rc::Rc;

/// So many binders make an environment long: those are shared, and read and printed once where the next step has the
/// same.
pub const LONG: usize = 8;

// A list of binders with their nodes, and what was found out of it once.
#[derive(Drop)]
struct Shared {
    entries: Vec<BinderNode>,
    // Whether the binders rise.
    rises: bool,
    // The highest node, 0 where there is none.
    top: usize,
}

impl Model for Shared {
    ghost use Rattle.std.specs.Prelude.{◌≡◌, ◌↔◌, IsTrue, List};
    ghost use Rattle.mls_deriv.specs.declared.derivation.BinderNode.{BinderNode};
    ghost use Rattle.mls_deriv.specs.Steps.{IsRising};
    ghost use Rattle.mls_deriv.specs.inner.Environments.{top_node};

    ghost Value = { List BinderNode };

    ghost view = { λ s. s.entries.items };

    ghost invariant = { λ s. (IsTrue s.rises ↔ IsRising s.entries.items) × (s.top ≡ top_node s.entries.items) };
}

impl Shared {
    fn of(entries: Vec<BinderNode>) -> Shared
        ensures { result ≡ entries.items }
    {
        let rises = is_rising(entries.as_slice());
        let top = top_node(entries.as_slice());
        Shared {
            entries,
            rises,
            top,
        }
    }

    fn as_slice(&self) -> &[BinderNode]
        ensures { result.now ≡ self.now }
    {
        self.entries.as_slice()
    }

    // The same entries once more.
    fn copied(&self) -> Result<Vec<BinderNode>, Memory>
        ensures { IfOk result (λ copy. copy.items ≡ self.now) }
    {
        let copy = self.entries.as_slice().to_vec(*self.entries.allocator())?;
        Ok(copy)
    }

    fn is_rising(&self) -> bool
        ensures { IsTrue result ↔ IsRising self.now }
    {
        self.rises
    }

    fn are_low(&self, count: usize) -> bool
        ensures { IsTrue result ↔ All (λ entry. entry.node.0 < count) self.now }
    {
        self.entries.is_empty() || self.top < count
    }
}

// The highest node of an environment, 0 where there is none.
fn top_node(env: &[BinderNode]) -> usize
    ensures { result ≡ top_node env.now }
{
    let mut top = 0;
    for entry in env {
        if entry.node.0 > top {
            top = entry.node.0;
        }
    }
    top
}

/// An environment, with its binders in rising order. Where it is shared, copies lie in one place: many steps have the
/// same environment. Contracts see the binders with their nodes.
#[derive(Drop)]
pub struct BinderNodes {
    own: Vec<BinderNode>,
    // All entries, where they are shared.
    shared: Option<Rc<Shared>>,
}

impl Model for BinderNodes {
    ghost use Rattle.std.specs.Prelude.{List, option_map};
    ghost use Rattle.mls_deriv.specs.declared.derivation.BinderNode.{BinderNode};
    ghost use Rattle.mls_deriv.specs.inner.Environments.{entries_of};

    ghost Value = { List BinderNode };

    ghost view = { λ a. entries_of a.own.items (option_map (λ rc. rc.value) a.shared) };
}

impl BinderNodes {
    /// No binder. It allocates nothing.
    pub fn new(alloc: Global) -> BinderNodes
        ensures { result ≡ [] }
    {
        BinderNodes {
            own: Vec::new(alloc),
            shared: None,
        }
    }

    /// The binders of a vector, with their nodes.
    pub fn of(entries: Vec<BinderNode>) -> BinderNodes
        ensures { result ≡ entries.items }
    {
        BinderNodes {
            own: entries,
            shared: None,
        }
    }

    /// Adds a binder at the end. Of a shared environment a copy is made first.
    ///
    /// # Errors
    ///
    /// `Memory` where memory is wanting.
    pub fn push(&mut self, entry: BinderNode) -> Result<(), Memory>
        ensures ok { OnOk result (self.new ≡ self.old ++ entry ∷ []) }
        ensures err { OnErr result (self.new ≡ self.old) }
    {
        if let Some(shared) = &self.shared {
            self.own = shared.copied()?;
            self.shared = None;
        }
        self.own.push(entry)?;
        Ok(())
    }

    /// The same environment, shared from then on.
    ///
    /// # Errors
    ///
    /// `Memory` where memory is wanting.
    pub fn share(self, alloc: Global) -> Result<BinderNodes, Memory>
        ensures { IfOk result (λ env. env ≡ self) }
    {
        if self.shared.is_some() {
            return Ok(self);
        }
        let shared = Rc::new(alloc, Shared::of(self.own))?;
        Ok(BinderNodes {
            own: Vec::new(alloc),
            shared: Some(shared),
        })
    }

    /// The same environment once more, in the same place where it is shared.
    ///
    /// # Errors
    ///
    /// `Memory` where memory is wanting.
    pub fn copy(&self, alloc: Global) -> Result<BinderNodes, Memory>
        ensures { IfOk result (λ env. env ≡ self.now) }
    {
        match &self.shared {
            Some(shared) => Ok(BinderNodes {
                own: Vec::new(alloc),
                shared: Some(shared.clone()?),
            }),
            None => Ok(BinderNodes::of(self.own.to_vec(alloc)?)),
        }
    }

    /// Whether both lie in one place, and so are the same. Contracts know nothing of places.
    pub fn lies_with(&self, other: &BinderNodes) -> bool {
        match (&self.shared, &other.shared) {
            (Some(shared), Some(place)) => Rc::ptr_eq(shared, place),
            _ => false,
        }
    }

    /// Whether the binders rise.
    pub fn is_rising(&self) -> bool
        ensures { IsTrue result ↔ IsRising self.now }
    {
        match &self.shared {
            Some(shared) => shared.is_rising(),
            None => is_rising(self.own.as_slice()),
        }
    }

    /// Whether all nodes are below this number.
    pub fn are_low(&self, count: usize) -> bool
        ensures { IsTrue result ↔ All (λ entry. entry.node.0 < count) self.now }
    {
        match &self.shared {
            Some(shared) => shared.are_low(count),
            None => are_low(self.own.as_slice(), count),
        }
    }

    /// How many binders there are.
    pub fn len(&self) -> usize
        ensures { result ≡ length self.now }
    {
        self.as_slice().len()
    }

    /// Whether there is none.
    pub fn is_empty(&self) -> bool
        ensures { IsTrue result ↔ (self.now ≡ []) }
    {
        self.as_slice().is_empty()
    }

    /// The binders in order, with their nodes.
    pub fn as_slice(&self) -> &[BinderNode]
        ensures { result.now ≡ self.now }
    {
        match &self.shared {
            Some(shared) => shared.as_slice(),
            None => self.own.as_slice(),
        }
    }
}
