//! A section without the nodes that serve no line.

use mls_base::list::List;
use mls_base::memory::Memory;
use mls_book::book::{Book, Field, Fields, Node, NodeId};
use mls_deriv::derivation::{
    BinderNode, BinderNodes, SectionLine, SectionLines, StepLine, StepRule,
};
use mls_deriv::env::LONG;
use std::alloc::Global;
use std::mem;

/// The nodes and the lines of a section.
#[derive(Drop)]
pub(crate) struct Written {
    pub(crate) book: Book,
    pub(crate) lines: SectionLines,
}

// Which nodes serve, and those of them whose children are still to be marked.
#[derive(Drop)]
struct Marks<'a> {
    serves: Vec<bool>,
    todo: Vec<usize>,
    // The last long environment, all of whose nodes are marked.
    last: Option<&'a BinderNodes>,
}

impl<'a> Marks<'a> {
    fn mark(&mut self, id: NodeId) -> Result<(), Memory> {
        if id.0 < self.serves.len() && !self.serves[id.0] {
            self.serves[id.0] = true;
            self.todo.push(id.0)?;
        }
        Ok(())
    }

    fn mark_entries(&mut self, env: &[BinderNode]) -> Result<(), Memory> {
        for entry in env {
            self.mark(entry.node)?;
        }
        Ok(())
    }

    // Marks the nodes of an environment, unless it lies with the last long one.
    fn mark_env(&mut self, env: &'a BinderNodes) -> Result<(), Memory> {
        if let Some(last) = self.last {
            if env.lies_with(last) {
                return Ok(());
            }
        }
        if env.len() >= LONG {
            self.last = Some(env);
        }
        self.mark_entries(env.as_slice())
    }

    fn mark_line(&mut self, line: &'a SectionLine) -> Result<(), Memory> {
        match line {
            SectionLine::Let(_, _) => Ok(()),
            SectionLine::Step(step) => {
                self.mark(step.get().root)?;
                self.mark_env(&step.get().env)
            }
            SectionLine::Put(_, id) => self.mark(*id),
            SectionLine::Pair(_, left, right) => {
                self.mark(*left)?;
                self.mark(*right)
            }
        }
    }

    fn mark_fields(&mut self, fields: &[Field]) -> Result<(), Memory> {
        for field in fields {
            self.mark(field.node)?;
        }
        Ok(())
    }

    fn mark_children(&mut self, node: &Node) -> Result<(), Memory> {
        match node {
            Node::Arrow(left, right) | Node::Join(left, right) | Node::Meet(left, right) => {
                self.mark(*left)?;
                self.mark(*right)
            }
            Node::Rcd(fields) => self.mark_fields(fields.as_slice()),
            _ => Ok(()),
        }
    }

    // Marks what marked nodes name. Each node is marked once at most.
    fn close(&mut self, book: &Book) -> Result<(), Memory> {
        for _ in 0..book.len() {
            match self.todo.pop() {
                None => return Ok(()),
                Some(next) => {
                    if next < book.len() {
                        self.mark_children(book.node(NodeId(next)))?;
                    }
                }
            }
        }
        Ok(())
    }
}

// Which nodes serve: the first nodes of a book, and those that lines name or that such nodes name.
fn serving(
    alloc: Global,
    book: &Book,
    lines: &[SectionLine],
    fixed: usize,
) -> Result<Vec<bool>, Memory> {
    let mut marks = Marks {
        serves: Vec::new(alloc),
        todo: Vec::new(alloc),
        last: None,
    };
    marks.serves.resize(book.len(), false)?;
    for i in 0..fixed {
        marks.mark(NodeId(i))?;
    }
    for line in lines {
        marks.mark_line(line)?;
    }
    marks.close(book)?;
    Ok(marks.serves)
}

// The last long environment whose nodes got new numbers, before and after.
#[derive(Drop)]
struct LastEnv {
    old: BinderNodes,
    new: BinderNodes,
}

// The new numbers of nodes.
#[derive(Drop)]
struct Numbers {
    numbers: Vec<usize>,
}

impl Numbers {
    // The numbers of the nodes that serve follow each other.
    fn of(alloc: Global, serves: &[bool]) -> Result<Numbers, Memory> {
        let mut numbers = Vec::with_capacity(alloc, serves.len())?;
        let mut count = 0usize;
        for is_kept in serves {
            numbers.push(count)?;
            if *is_kept {
                count += 1;
            }
        }
        Ok(Numbers { numbers })
    }

    // The new number of a node. One that is not in the book keeps its number: the check refuses such lines.
    fn at(&self, id: NodeId) -> NodeId {
        match self.numbers.get(id.0) {
            Some(number) => NodeId(*number),
            None => id,
        }
    }

    fn fields(&self, alloc: Global, fields: &[Field]) -> Result<Fields, Memory> {
        let mut copies = Fields::new(alloc);
        for field in fields {
            copies.push(Field {
                label: field.label.clone()?,
                node: self.at(field.node),
            })?;
        }
        Ok(copies)
    }

    fn node(&self, alloc: Global, node: &Node) -> Result<Node, Memory> {
        match node {
            Node::Bot => Ok(Node::Bot),
            Node::Top => Ok(Node::Top),
            Node::Var(x) => Ok(Node::Var(*x)),
            Node::Bool => Ok(Node::Bool),
            Node::Int => Ok(Node::Int),
            Node::Arrow(from, to) => Ok(Node::Arrow(self.at(*from), self.at(*to))),
            Node::Rcd(fields) => Ok(Node::Rcd(self.fields(alloc, fields.as_slice())?)),
            Node::Join(left, right) => Ok(Node::Join(self.at(*left), self.at(*right))),
            Node::Meet(left, right) => Ok(Node::Meet(self.at(*left), self.at(*right))),
        }
    }

    // Gives the nodes of an environment their new numbers. Where it lies with the last long one, so does what it becomes.
    fn renumber_env(
        &self,
        alloc: Global,
        env: &mut BinderNodes,
        last: &mut LastEnv,
    ) -> Result<(), Memory> {
        if env.is_empty() {
            return Ok(());
        }
        if env.lies_with(&last.old) {
            *env = last.new.copy(alloc)?;
            return Ok(());
        }
        let mut entries = Vec::with_capacity(alloc, env.len())?;
        for entry in env.as_slice() {
            entries.push(BinderNode {
                binder: entry.binder,
                node: self.at(entry.node),
            })?;
        }
        let old = mem::replace(env, BinderNodes::of(entries).share(alloc)?);
        if old.len() >= LONG {
            last.old = old;
            last.new = env.copy(alloc)?;
        }
        Ok(())
    }

    fn renumber_step(
        &self,
        alloc: Global,
        step: &mut StepLine,
        last: &mut LastEnv,
    ) -> Result<(), Memory> {
        if let StepRule::Name(first) = step.rule {
            step.rule = StepRule::Name(self.at(first));
        }
        step.root = self.at(step.root);
        self.renumber_env(alloc, &mut step.env, last)
    }

    fn renumber_line(
        &self,
        alloc: Global,
        line: &mut SectionLine,
        last: &mut LastEnv,
    ) -> Result<(), Memory> {
        match line {
            SectionLine::Let(_, _) => {}
            SectionLine::Step(step) => self.renumber_step(alloc, step.get_mut(), last)?,
            SectionLine::Put(_, id) => *id = self.at(*id),
            SectionLine::Pair(_, left, right) => {
                *left = self.at(*left);
                *right = self.at(*right);
            }
        }
        Ok(())
    }

    // The lines with the new numbers of their nodes, in the memory that they have.
    fn renumbered(&self, alloc: Global, lines: SectionLines) -> Result<SectionLines, Memory> {
        let mut last = LastEnv {
            old: BinderNodes::new(alloc),
            new: BinderNodes::new(alloc),
        };
        let mut items = lines.into_vec();
        for line in items.iter_mut() {
            self.renumber_line(alloc, line, &mut last)?;
        }
        Ok(List::of(items))
    }

    // The nodes that serve. One that may not stand behind those before it is left out: the check refuses such lines.
    fn book(&self, alloc: Global, book: &Book, serves: &[bool]) -> Result<Book, Memory> {
        let mut copy = Book::new(alloc);
        for (i, is_kept) in serves.iter().enumerate() {
            if *is_kept && i < book.len() {
                let node = self.node(alloc, book.node(NodeId(i)))?;
                if copy.can_push(&node) {
                    copy.push(node)?;
                }
            }
        }
        Ok(copy)
    }
}

/// A section whose nodes are the first nodes of a book, so many, and those that the lines need.
///
/// # Errors
///
/// `Memory` where memory is wanting.
pub(crate) fn pruned(
    alloc: Global,
    book: &Book,
    lines: SectionLines,
    fixed: usize,
) -> Result<Written, Memory> {
    let serves = serving(alloc, book, lines.as_slice(), fixed)?;
    let numbers = Numbers::of(alloc, serves.as_slice())?;
    Ok(Written {
        book: numbers.book(alloc, book, serves.as_slice())?,
        lines: numbers.renumbered(alloc, lines)?,
    })
}
