//! The nodes of the book of a type.
ghost use Rattle.std.specs.Prelude.{◌≡◌, ◌+◌, [], ◌∷◌, reverse, None, IfOk, OnOk};
ghost use Rattle.mls_book.specs.declared.book.Node.TheVariants.{Rcd};
ghost use Rattle.mls_typetext.specs.Books.{id, node_in};
ghost use Rattle.mls_typetext.specs.steps.Laying.{AreNodesOf, at_place, closed, end_at, enter, hold, in_order};
ghost use Rattle.mls_typetext.specs.steps.Laying.{lay_field, lay_next, lay_part, stand, state_of, todo};

use crate::count::sum;
use crate::piece::{Member, Size};
use mls_base::memory::Memory;
use mls_book::book::{Field, Fields, Node, NodeId};
use std::alloc::Global;
use std::mem;

// Where the nodes of a part go.
#[derive(Clone, Copy)]
enum LayoutPlace {
    // The part belongs to the layer that is open: its nodes begin at the first number, and those below it at the
    // second.
    Part(usize, usize, Size),
    // It is a layer of its own, which begins at this number, with all that lies below it.
    Block(usize, Size),
    // It is the fields of a record that are still to come: their layers begin at this number.
    Fields(usize),
}

// What is still to do.
#[derive(Clone, Copy)]
enum LayoutTask {
    // A part is to come.
    At(LayoutPlace),
    // The body of a `rec` is over.
    Leave,
    // A layer is over: its nodes are held from this place on.
    End(usize),
}

// The nodes so far, and what is still to do.
#[derive(Drop)]
struct Layout {
    // The next thing to do is the last.
    tasks: Vec<LayoutTask>,
    // The nodes for which the `rec`s around stand, the nearest last.
    recs: Vec<usize>,
    // The nodes of the layers that are open, each layer from its last node.
    held: Vec<Node>,
    // The fields of the record that is open, until all are there.
    fields: Vec<Field>,
    // The nodes of the layers that are over, from the last of the book.
    nodes: Vec<Node>,
}

impl Layout {
    // Takes one piece of the type.
    fn take(&mut self, alloc: Global, member: Member) -> Result<(), Memory>
        ensures { OnOk result (state_of self.new ≡ lay_next member (closed (state_of self.old))) }
    {
        match self.next()? {
            Some(LayoutPlace::Part(layer, below, size)) => self.lay_part(
                member, layer, below, size,
            ),
            Some(LayoutPlace::Block(layer, size)) => {
                let below = sum(layer, size.here)?;
                self.tasks.push(LayoutTask::End(self.held.len()))?;
                self.lay_part(member, layer, below, size)
            }
            Some(LayoutPlace::Fields(below)) => self.lay_field(alloc, member, below),
            None => Ok(()),
        }
    }

    // The place of the next piece. What is over before it is closed.
    fn next(&mut self) -> Result<Option<LayoutPlace>, Memory>
        ensures closed { IfOk result (λ place. closed (state_of self.old) ≡ at_place place (state_of self.new)) }
        ensures none { IfOk result (λ place. place ≡ None → self.new.tasks.items ≡ []) }
    {
        while let Some(task) = self.tasks.pop() {
            match task {
                LayoutTask::At(place) => return Ok(Some(place)),
                LayoutTask::Leave => {
                    self.recs.pop();
                }
                LayoutTask::End(start) => self.end(start)?,
            }
        }
        Ok(None)
    }

    // Closes a layer whose nodes are held from this place on.
    fn end(&mut self, start: usize) -> Result<(), Memory>
        ensures { OnOk result (state_of self.new ≡ end_at start (state_of self.old)) }
    {
        if start < self.held.len() {
            let mut layer = self.held.split_off(start)?;
            self.nodes.append(&mut layer)?;
        }
        Ok(())
    }

    // Takes a piece of the layer that is open: the nodes of its part begin at `layer`, and those below it at `below`.
    fn lay_part(
        &mut self,
        member: Member,
        layer: usize,
        below: usize,
        size: Size,
    ) -> Result<(), Memory>
        ensures { OnOk result (state_of self.new ≡ lay_part member layer below size (state_of self.old)) }
    {
        match member {
            Member::Var(x) => self.hold(Node::Var(x)),
            Member::Again(_) => Ok(()),
            Member::Bool => self.hold(Node::Bool),
            Member::Int => self.hold(Node::Int),
            Member::Top => self.hold(Node::Top),
            Member::Bot => self.hold(Node::Bot),
            Member::Arrow(domain, codomain) => {
                let (from, to) = self.two_blocks(below, domain, codomain)?;
                self.hold(Node::Arrow(from, to))
            }
            Member::Join(left, right) => {
                let (first, second) = self.two_parts(layer, below, left, right)?;
                self.hold(Node::Join(first, second))
            }
            Member::Meet(left, right) => {
                let (first, second) = self.two_parts(layer, below, left, right)?;
                self.hold(Node::Meet(first, second))
            }
            Member::Rec(body) => self.enter(layer, below, size, body),
            Member::Record => {
                self.tasks.push(LayoutTask::At(LayoutPlace::Fields(below)))?;
                Ok(())
            }
            // These stand among the fields of a record.
            Member::Last | Member::Field(_, _) => Ok(()),
        }
    }

    // The nodes of the domain and codomain of a function, which are still to come, from `below` on.
    fn two_blocks(
        &mut self,
        below: usize,
        domain: Size,
        codomain: Size,
    ) -> Result<(NodeId, NodeId), Memory>
        ensures first { IfOk result (λ nodes. nodes.0 ≡ id (stand below (state_of self.old).recs domain)) }
        ensures second { IfOk result (λ nodes. nodes.1
            ≡ id (stand (below + (domain.here + domain.under)) (state_of self.old).recs codomain)) }
        ensures todo { OnOk result (state_of self.new
            ≡ todo
            (LayoutTask.At (LayoutPlace.Block (below + (domain.here + domain.under)) codomain)
            ∷ LayoutTask.At (LayoutPlace.Block below domain) ∷ [])
            (state_of self.old)) }
    {
        let next = sum(below, sum(domain.here, domain.under)?)?;
        let nodes = (self.node_of(below, domain)?, self.node_of(next, codomain)?);
        self.todo(
            LayoutPlace::Block(below, domain),
            LayoutPlace::Block(next, codomain),
        )?;
        Ok(nodes)
    }

    // The nodes of the two parts of a join or a meet, which are still to come.
    fn two_parts(
        &mut self,
        layer: usize,
        below: usize,
        left: Size,
        right: Size,
    ) -> Result<(NodeId, NodeId), Memory>
        ensures first { IfOk result (λ nodes. nodes.0 ≡ id (stand layer (state_of self.old).recs left)) }
        ensures second { IfOk result (λ nodes. nodes.1
            ≡ id (stand (layer + left.here) (state_of self.old).recs right)) }
        ensures todo { OnOk result (state_of self.new
            ≡ todo
            (LayoutTask.At (LayoutPlace.Part (layer + left.here) (below + left.under) right)
            ∷ LayoutTask.At (LayoutPlace.Part layer below left) ∷ [])
            (state_of self.old)) }
    {
        let (next, under) = (sum(layer, left.here)?, sum(below, left.under)?);
        let nodes = (self.node_of(layer, left)?, self.node_of(next, right)?);
        self.todo(
            LayoutPlace::Part(layer, below, left),
            LayoutPlace::Part(next, under, right),
        )?;
        Ok(nodes)
    }

    // Takes a piece of the record that is open, where the layers of the fields to come begin at `below`.
    fn lay_field(&mut self, alloc: Global, member: Member, below: usize) -> Result<(), Memory>
        ensures { OnOk result (state_of self.new ≡ lay_field member below (state_of self.old)) }
    {
        match member {
            Member::Field(label, size) => {
                let node = self.node_of(below, size)?;
                let next = sum(below, sum(size.here, size.under)?)?;
                self.fields.push(Field { label, node })?;
                self.todo(LayoutPlace::Block(below, size), LayoutPlace::Fields(next))
            }
            Member::Last => {
                let fields = mem::replace(&mut self.fields, Vec::new(alloc));
                self.hold(record_of(alloc, fields)?)
            }
            // Nothing else stands among fields.
            _ => Ok(()),
        }
    }

    // Goes into the body of a `rec` of this size.
    fn enter(&mut self, layer: usize, below: usize, size: Size, body: Size) -> Result<(), Memory>
        ensures { OnOk result (state_of self.new
            ≡ enter (stand layer (state_of self.old).recs size)
            (todo (LayoutTask.At (LayoutPlace.Part layer below body) ∷ LayoutTask.Leave ∷ []) (state_of self.old))) }
    {
        let node = self.node_of(layer, size)?;
        self.tasks.push(LayoutTask::Leave)?;
        self.tasks
            .push(LayoutTask::At(LayoutPlace::Part(layer, below, body)))?;
        self.recs.push(node.0)?;
        Ok(())
    }

    // Adds a node to the layer that is open.
    fn hold(&mut self, node: Node) -> Result<(), Memory>
        ensures { OnOk result (state_of self.new ≡ hold node (state_of self.old)) }
    {
        self.held.push(node)?;
        Ok(())
    }

    // Two places are still to come: the last of them first.
    fn todo(&mut self, second: LayoutPlace, first: LayoutPlace) -> Result<(), Memory>
        ensures { OnOk result (state_of self.new
            ≡ todo (LayoutTask.At first ∷ LayoutTask.At second ∷ []) (state_of self.old)) }
    {
        self.tasks.push(LayoutTask::At(second))?;
        self.tasks.push(LayoutTask::At(first))?;
        Ok(())
    }

    // The node that a part of this size stands for, where its layer begins at this number.
    fn node_of(&self, layer: usize, size: Size) -> Result<NodeId, Memory>
        ensures { IfOk result (λ node. node ≡ id (stand layer (state_of self.now).recs size)) }
    {
        match size.again {
            Some(k) => Ok(NodeId(self.rec_node(k))),
            // It is a `rec` that stands for itself alone.
            None if size.here == 0 => Ok(NodeId(0)),
            None => Ok(NodeId(sum(layer, size.here - 1)?)),
        }
    }

    // The node for which the k-th `rec` around stands, counted from the nearest.
    fn rec_node(&self, k: usize) -> usize
        ensures { result ≡ node_in (reverse self.now.recs.items) k }
    {
        let count = self.recs.len();
        if k < count {
            self.recs[count - 1 - k]
        } else {
            0
        }
    }
}

// The record of these fields, in the order of their labels.
fn record_of(alloc: Global, fields: Vec<Field>) -> Result<Node, Memory>
    ensures { IfOk result (λ node. node ≡ Rcd (in_order fields.items)) }
{
    let mut left = fields;
    left.sort_by(|first, second| first.label.cmp(&second.label))?;
    let mut all = Fields::new(alloc);
    for field in left {
        all.push(field)?;
    }
    Ok(Node::Rcd(all))
}

/// The nodes of the book of the type of these pieces, which has this size, from the last node to the first.
pub fn lay_out(alloc: Global, members: Vec<Member>, size: Size) -> Result<Vec<Node>, Memory>
    ensures { IfOk result (λ nodes. AreNodesOf members.items size nodes.items) }
{
    let mut layout = Layout {
        tasks: vec![in alloc; LayoutTask::At(LayoutPlace::Block(0, size))]?,
        recs: Vec::new(alloc),
        held: Vec::new(alloc),
        fields: Vec::new(alloc),
        nodes: Vec::with_capacity(alloc, members.len())?,
    };
    let mut left = members;
    while let Some(member) = left.pop() {
        layout.take(alloc, member)?;
    }
    layout.next()?;
    Ok(layout.nodes)
}
