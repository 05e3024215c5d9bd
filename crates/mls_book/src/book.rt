//! Books of types: lists of nodes that name one another by their numbers.
//!
//! The children of a join or a meet come before it, so every cycle passes through a function or a record.
//! These are the guarded recursive types of Dolan, Algebraic Subtyping, PhD thesis, University of Cambridge,
//! without its demand that recursion is covariant.
ghost use Rattle.std.specs.Prelude.{◌≡◌, ◌↔◌, ◌<◌, ◌++◌, ◌∷◌, [], length, IfOk, OnOk, OnErr, IsTrue};
ghost use Rattle.mls_book.specs.Books.{AreRising, IsOrdered, IsClosed, IsBook, HasChildrenBelow, node_at, field_at};

use crate::name::Name;
use mls_base::memory::Memory;
use std::alloc::Global;
use std::marker::Model;

/// The number of a node in its book, from 0.
#[derive(Clone, Copy, Debug, PartialEq, Eq, PartialOrd, Ord, Hash)]
pub struct NodeId(pub usize);

/// A field of a record.
#[derive(Clone, Debug, PartialEq, Eq, Drop)]
pub struct Field {
    pub label: Name,
    pub node: NodeId,
}

/// The fields of a record. In a book their labels rise strictly. Contracts see the list.
#[derive(Clone, Debug, Drop)]
pub struct Fields {
    items: Vec<Field>,
}

impl Model for Fields {
    ghost use Rattle.std.specs.Prelude.{List};
    ghost use Rattle.mls_book.specs.declared.book.Field.{Field};

    ghost Value = { List Field };

    ghost view = { λ a. a.items.items };
}

/// A node of a book: what a type is made of.
#[derive(Clone, Debug, PartialEq, Eq, Drop)]
pub enum Node {
    /// The least type.
    Bot,
    /// The greatest type.
    Top,
    /// A type variable.
    Var(usize),
    Bool,
    Int,
    /// A function, by its domain and its codomain.
    Arrow(NodeId, NodeId),
    /// A record.
    Rcd(Fields),
    /// The join of two nodes before this one.
    Join(NodeId, NodeId),
    /// The meet of two nodes before this one.
    Meet(NodeId, NodeId),
}

/// Types that name one another. Contracts see the list of nodes.
#[derive(Drop)]
pub struct Book {
    nodes: Vec<Node>,
}

impl Model for Book {
    ghost use Rattle.std.specs.Prelude.{List};
    ghost use Rattle.mls_book.specs.declared.book.Node.{Node};

    ghost Value = { List Node };

    ghost use Rattle.mls_book.specs.Books.{IsBook};

    ghost view = { λ a. a.nodes.items };

    ghost invariant = { λ a. IsBook a.nodes.items };
}

/// Fields are equal where their labels and their nodes are.
impl PartialEq for Fields {
    ghost use Rattle.std.specs.Cmp.{partial_equiv_from_equiv};
    ghost use Rattle.mls_book.specs.Sameness.{same_fields, same_fields_equiv};

    ghost eq = { same_fields };

    ghost laws = { partial_equiv_from_equiv same_fields_equiv };

    fn eq(&self, other: &Fields) -> bool {
        self.items == other.items
    }
}

impl Eq for Fields {
    ghost use Rattle.mls_book.specs.Sameness.{same_fields_equiv};

    ghost laws = { same_fields_equiv };
}

impl Fields {
    /// No field. It allocates nothing.
    pub fn new(alloc: Global) -> Fields
        ensures { result ≡ [] }
    {
        Fields {
            items: Vec::new(alloc),
        }
    }

    /// Adds a field at the end.
    ///
    /// # Errors
    ///
    /// `Memory` where memory is wanting; the fields are then as before.
    pub fn push(&mut self, field: Field) -> Result<(), Memory>
        ensures ok { OnOk result (self.new ≡ self.old ++ field ∷ []) }
        ensures err { OnErr result (self.new ≡ self.old) }
    {
        self.items.push(field)?;
        Ok(())
    }

    /// The node of the field with this label.
    pub fn get(&self, label: &Name) -> Option<NodeId>
        ensures { result ≡ field_at label.now self.now }
    {
        self.items
            .iter()
            .find(|field| field.label == *label)
            .map(|field| field.node)
    }

    /// Whether the labels rise strictly in byte order, as those of a node in a book have to.
    pub fn is_rising(&self) -> bool
        ensures { IsTrue result ↔ AreRising self.now }
    {
        are_rising(self.items.as_slice())
    }

    /// The fields in order.
    pub fn as_slice(&self) -> &[Field]
        ensures { result.now ≡ self.now }
    {
        self.items.as_slice()
    }
}

impl Book {
    /// A book with no node. It allocates nothing.
    pub fn new(alloc: Global) -> Book
        ensures { result ≡ [] }
    {
        Book {
            nodes: Vec::new(alloc),
        }
    }

    /// Whether the node may be pushed: the children of a join or a meet are there, and the labels of a record rise.
    pub fn can_push(&self, node: &Node) -> bool
        ensures { IsTrue result ↔ IsOrdered (length self.now) node.now }
    {
        let number = self.nodes.len();
        match node {
            Node::Join(j, k) | Node::Meet(j, k) => j.0 < number && k.0 < number,
            Node::Rcd(fields) => fields.is_rising(),
            _ => true,
        }
    }

    /// Adds a node at the end, and answers its number. The children of a function or a record may be pushed later.
    ///
    /// # Errors
    ///
    /// `Memory` where memory is wanting; the book is then as before.
    pub fn push(&mut self, node: Node) -> Result<NodeId, Memory>
        requires { IsOrdered (length self.old) node }
        ensures ok { OnOk result (self.new ≡ self.old ++ node ∷ []) }
        ensures number { IfOk result (λ id. id.0 ≡ length self.old) }
        ensures err { OnErr result (self.new ≡ self.old) }
    {
        let number = self.nodes.len();
        self.nodes.push(node)?;
        Ok(NodeId(number))
    }

    /// How many nodes there are.
    pub fn len(&self) -> usize
        ensures len { result ≡ length self.now }
        ensures book { IsBook self.now }
    {
        self.nodes.len()
    }

    /// Whether there is no node.
    pub fn is_empty(&self) -> bool
        ensures { IsTrue result ↔ (self.now ≡ []) }
    {
        self.nodes.is_empty()
    }

    /// The node of this number.
    pub fn node(&self, id: NodeId) -> &Node
        requires { id.0 < length self.now }
        ensures node { result.now ≡ node_at self.now id.0 }
        ensures book { IsBook self.now }
    {
        &self.nodes[id.0]
    }

    /// Whether every child of every node is in range.
    pub fn is_closed(&self) -> bool
        ensures { IsTrue result ↔ IsClosed self.now }
    {
        self.nodes
            .iter()
            .all(|node| has_children_below(self.nodes.len(), node))
    }
}

// Whether the labels of the fields rise strictly.
fn are_rising(fields: &[Field]) -> bool
    ensures { IsTrue result ↔ AreRising fields.now }
{
    for i in 1..fields.len() {
        if !(fields[i - 1].label < fields[i].label) {
            return false;
        }
    }
    true
}

// Whether the children of a node are below this number.
fn has_children_below(n: usize, node: &Node) -> bool
    ensures { IsTrue result ↔ HasChildrenBelow n node.now }
{
    match node {
        Node::Arrow(j, k) | Node::Join(j, k) | Node::Meet(j, k) => j.0 < n && k.0 < n,
        Node::Rcd(fields) => fields.as_slice().iter().all(|field| field.node.0 < n),
        _ => true,
    }
}
