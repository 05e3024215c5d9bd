//! Environments of chains of applications and conditionals.
ghost use Rattle.std.specs.Prelude.{OnOk};
ghost use Rattle.mls_lines.specs.Writer.{Lengthens};

use crate::writer::joined::MEMBERS;
use crate::writer::{PartView, Writer};
use mls_base::memory::Memory;
use mls_book::book::NodeId;
use mls_deriv::derivation::{BinderNode, BinderNodes};
use std::alloc::Global;

impl Writer {
    // All binders that the chain with this first node needs, with their own nodes, where they are several and have no
    // more fields than the chain is long, by a constant: a step that brings the chain to another type goes over all of
    // these. No binder where it is otherwise.
    fn env_of_chain(
        &self,
        alloc: Global,
        view: &PartView,
        first: usize,
    ) -> Result<BinderNodes, Memory> {
        let mut env = BinderNodes::new(alloc);
        let mut fields: usize = 0;
        for binder in view.spines.binders_of(first) {
            let node = self.place(view.posing.binder(*binder));
            fields = fields.saturating_add(self.many_fields(node));
            env.push(BinderNode {
                binder: *binder,
                node,
            })?;
        }
        let most = view.spines.links_of(first).saturating_mul(MEMBERS);
        if env.len() < 2 || fields > most {
            return Ok(BinderNodes::new(alloc));
        }
        Ok(env)
    }

    // The environment of the chain that a node is in, if all its nodes have the same.
    fn chained(
        &mut self,
        alloc: Global,
        view: &PartView,
        node: usize,
    ) -> Result<Option<BinderNodes>, Memory>
        ensures { OnOk result (Lengthens self.old.laid self.new.laid) }
    {
        let first = match view.spines.first(node) {
            Some(first) => first,
            None => return Ok(None),
        };
        if !self.chains.contains_key(&first) {
            let env = self.env_of_chain(alloc, view, first)?;
            self.chains.insert(first, env.share(alloc)?)?;
        }
        match self.chains.get(&first) {
            Some(env) if !env.is_empty() => Ok(Some(env.copy(alloc)?)),
            _ => Ok(None),
        }
    }

    /// The environment of a conditional: that of its chain, or else that of all parts at these types.
    ///
    /// # Errors
    ///
    /// `Memory` where memory is wanting.
    pub fn env_of_choice(
        &mut self,
        alloc: Global,
        view: &PartView,
        node: usize,
        parts: [(usize, NodeId); 3],
    ) -> Result<BinderNodes, Memory>
        ensures { OnOk result (Lengthens self.old.laid self.new.laid) }
    {
        if let Some(env) = self.chained(alloc, view, node)? {
            return Ok(env);
        }
        let mut env = BinderNodes::new(alloc);
        for (part, root) in parts {
            let own = self.offered(alloc, view, part, root)?;
            env = self.joined(alloc, view, env.as_slice(), own.as_slice())?;
        }
        Ok(env)
    }

    /// The environment of an application: that of its chain, so that no binder comes in later, or else that of both
    /// parts at these types.
    ///
    /// # Errors
    ///
    /// `Memory` where memory is wanting.
    pub fn env_of_application(
        &mut self,
        alloc: Global,
        view: &PartView,
        node: usize,
        function: (usize, NodeId),
        argument: (usize, NodeId),
    ) -> Result<BinderNodes, Memory>
        ensures { OnOk result (Lengthens self.old.laid self.new.laid) }
    {
        if let Some(env) = self.chained(alloc, view, node)? {
            return Ok(env);
        }
        let left = self.offered(alloc, view, function.0, function.1)?;
        let right = self.offered(alloc, view, argument.0, argument.1)?;
        self.joined(alloc, view, left.as_slice(), right.as_slice())
    }
}
