//! The binders that a chain of applications and conditionals needs. A chain goes from a node to that part of it which
//! needs most binders, as long as that is an application or a conditional itself.

use mls_automaton::scheme::Scheme;
use mls_base::memory::Memory;
use mls_parts::numbers::NumberMap;
use mls_parts::split::Numbers;
use mls_term::term::{Part, TermForm, TermNode};
use std::alloc::Global;
use std::collections::{BTreeMap, BTreeSet};

type Binders = BTreeSet<usize>;

/// The chains of a part: the first node of the chain of each application and conditional that needs binders, and by this
/// node how many nodes the chain has, and the binders that it needs.
#[derive(Drop)]
pub struct Spines {
    firsts: NumberMap<usize>,
    links: NumberMap<usize>,
    binders: BTreeMap<usize, Numbers>,
}

// The chains of the nodes so far, and the binders that each of these nodes needs, if it needs any, until the node above
// takes them.
#[derive(Drop)]
struct Chains {
    spines: Spines,
    needed: NumberMap<Binders>,
}

// Adds binders to others.
fn add_all(binders: &mut Binders, others: &Binders) -> Result<(), Memory> {
    for x in others {
        binders.insert(*x)?;
    }
    Ok(())
}

// The binders of both: the fewer are added to the others.
fn merged(first: Binders, second: Binders) -> Result<Binders, Memory> {
    let mut first = first;
    let mut second = second;
    if first.len() < second.len() {
        add_all(&mut second, &first)?;
        return Ok(second);
    }
    add_all(&mut first, &second)?;
    Ok(first)
}

// The binders that the type of a let's first part needs.
fn binders_of_let(
    alloc: Global,
    lets: &BTreeMap<usize, Scheme>,
    k: usize,
) -> Result<Binders, Memory> {
    let mut binders = Binders::new(alloc);
    if let Some(scheme) = lets.get(&k) {
        for entry in scheme.env.as_slice() {
            binders.insert(entry.binder)?;
        }
    }
    Ok(binders)
}

fn without(binders: Binders, x: usize) -> Binders {
    let mut binders = binders;
    binders.remove(&x);
    binders
}

fn one(alloc: Global, x: usize) -> Result<Binders, Memory> {
    let mut binders = Binders::new(alloc);
    binders.insert(x)?;
    Ok(binders)
}

fn listed(alloc: Global, binders: &Binders) -> Result<Numbers, Memory> {
    let mut list = Numbers::new(alloc);
    for x in binders {
        list.push(*x)?;
    }
    Ok(list)
}

impl Spines {
    /// No chain.
    pub fn new(alloc: Global) -> Spines {
        Spines {
            firsts: NumberMap::new(alloc),
            links: NumberMap::new(alloc),
            binders: BTreeMap::new(alloc),
        }
    }

    // Notes that a node goes on with the chain of this part, or begins one.
    fn go_on(&mut self, node: usize, part: usize) -> Result<(), Memory> {
        let first = *self.firsts.get(part).unwrap_or(&node);
        let links = self.links_of(first).saturating_add(1);
        self.links.insert(first, links)?;
        self.firsts.insert(node, first)?;
        Ok(())
    }

    // Notes what a chain needs, if this is its last node.
    fn end(&mut self, alloc: Global, node: usize, binders: &Binders) -> Result<(), Memory> {
        if let Some(first) = self.firsts.get(node) {
            let first = *first;
            self.binders.insert(first, listed(alloc, binders)?)?;
        }
        Ok(())
    }

    /// The chains of a part, where the first parts of lets have these types.
    ///
    /// # Errors
    ///
    /// `Memory` where memory is wanting.
    pub fn of(
        alloc: Global,
        nodes: &[TermNode],
        part: &[usize],
        lets: &BTreeMap<usize, Scheme>,
    ) -> Result<Spines, Memory> {
        let mut chains = Chains {
            spines: Spines::new(alloc),
            needed: NumberMap::new(alloc),
        };
        for i in part {
            if let Some(node) = nodes.get(*i) {
                let binders = chains.needed_by(alloc, lets, *i, &node.form)?;
                chains.note(*i, binders)?;
            }
        }
        if let Some(last) = part.last() {
            chains.ended(alloc, *last)?;
        }
        Ok(chains.spines)
    }

    /// The first node of the chain that a node is in, if it is in one.
    pub fn first(&self, node: usize) -> Option<usize> {
        self.firsts.get(node).copied()
    }

    /// How many nodes the chain with this first node has.
    pub fn links_of(&self, first: usize) -> usize {
        *self.links.get(first).unwrap_or(&0)
    }

    /// The binders that the chain with this first node needs.
    pub fn binders_of(&self, first: usize) -> &[usize] {
        match self.binders.get(&first) {
            Some(binders) => binders.as_slice(),
            None => &[],
        }
    }
}

impl Chains {
    // Notes what a node needs, if it needs any binder.
    fn note(&mut self, node: usize, binders: Binders) -> Result<(), Memory> {
        if binders.is_empty() {
            return Ok(());
        }
        self.needed.insert(node, binders)?;
        Ok(())
    }

    // Takes what a node needs.
    fn taken(&mut self, alloc: Global, node: usize) -> Binders {
        match self.needed.remove(node) {
            Some(binders) => binders,
            None => Binders::new(alloc),
        }
    }

    // Takes what a node needs. No chain goes on behind it.
    fn ended(&mut self, alloc: Global, node: usize) -> Result<Binders, Memory> {
        let binders = self.taken(alloc, node);
        self.spines.end(alloc, node, &binders)?;
        Ok(binders)
    }

    fn of_parts(&mut self, alloc: Global, parts: &[Part]) -> Result<Binders, Memory> {
        let mut binders = Binders::new(alloc);
        for part in parts {
            let more = self.ended(alloc, part.child)?;
            binders = merged(binders, more)?;
        }
        Ok(binders)
    }

    // How many binders a node needs.
    fn weight(&self, node: usize) -> usize {
        match self.needed.get(node) {
            Some(binders) => binders.len(),
            None => 0,
        }
    }

    // The part that needs most binders, the first of several, or the node itself if no part needs any.
    fn heaviest(&self, node: usize, parts: &[usize]) -> usize {
        let mut heaviest = node;
        for part in parts {
            if self.weight(heaviest) < self.weight(*part) {
                heaviest = *part;
            }
        }
        heaviest
    }

    // An application or a conditional goes on with the chain of its heaviest part; those of the others end. Where no
    // part needs a binder, there is no chain.
    fn of_link(&mut self, alloc: Global, node: usize, parts: &[usize]) -> Result<Binders, Memory> {
        let heaviest = self.heaviest(node, parts);
        if heaviest == node {
            return Ok(Binders::new(alloc));
        }
        self.spines.go_on(node, heaviest)?;
        let mut binders = self.taken(alloc, heaviest);
        for part in parts {
            if *part != heaviest {
                let more = self.ended(alloc, *part)?;
                binders = merged(binders, more)?;
            }
        }
        Ok(binders)
    }

    // The binders that an expression needs, from those that its parts need.
    fn needed_by(
        &mut self,
        alloc: Global,
        lets: &BTreeMap<usize, Scheme>,
        node: usize,
        form: &TermForm,
    ) -> Result<Binders, Memory> {
        match form {
            TermForm::Bound(x) => one(alloc, *x),
            TermForm::Inner(k) => binders_of_let(alloc, lets, *k),
            TermForm::Global(_) | TermForm::Number(_) | TermForm::Truth(_) => {
                Ok(Binders::new(alloc))
            }
            TermForm::Fun(x, body) | TermForm::Rec(x, body) => {
                let inner = self.ended(alloc, *body)?;
                Ok(without(inner, *x))
            }
            TermForm::Apply(function, argument) => {
                self.of_link(alloc, node, &[*function, *argument])
            }
            TermForm::Make(parts) => self.of_parts(alloc, parts.as_slice()),
            TermForm::Project(body, _) => self.ended(alloc, *body),
            TermForm::If(condition, first, second) => {
                self.of_link(alloc, node, &[*condition, *first, *second])
            }
            TermForm::Let(k, _, second) => {
                let inner = self.ended(alloc, *second)?;
                merged(inner, binders_of_let(alloc, lets, *k)?)
            }
        }
    }
}
