//! Modules whose names are replaced by what they mean.

use mls_base::list::List;
use mls_book::name::Name;

/// The bindings of a module, each with its term.
#[derive(Debug, Drop)]
pub struct Resolved {
    pub bindings: ResolvedBindings,
}

/// A binding with its term, and the place of its name.
#[derive(Debug, Drop)]
pub struct ResolvedBinding {
    pub name: Name,
    pub at: usize,
    pub term: Term,
}

/// Bindings with their terms, in the order of the text.
pub type ResolvedBindings = List<ResolvedBinding>;

/// An expression without names: its nodes in postorder, as those of the expression that it was made of; how many
/// binders its functions and recursions have, which are numbered from 0; and how many lets, numbered from 0 too.
#[derive(Debug, Drop)]
pub struct Term {
    pub nodes: TermNodes,
    pub binders: usize,
    pub lets: usize,
}

/// A node of a term, with its place in the text in bytes.
#[derive(Debug, Drop)]
pub struct TermNode {
    pub at: usize,
    pub form: TermForm,
}

/// Nodes of a term in postorder.
pub type TermNodes = List<TermNode>;

/// What a node of a term is. `Bound` names a binder number, `Inner` a let number, and `Global` a scheme of the
/// environment. The first number of `Fun` and `Rec` is their binder, that of `Let` its let number; all other
/// numbers name child nodes.
#[derive(Debug, Drop)]
pub enum TermForm {
    Bound(usize),
    Inner(usize),
    Global(usize),
    Number(u64),
    Truth(bool),
    Fun(usize, usize),
    Apply(usize, usize),
    Make(Parts),
    Project(usize, Name),
    If(usize, usize, usize),
    Let(usize, usize, usize),
    Rec(usize, usize),
}

/// A part of a record expression: its label, and the number of its root.
#[derive(Clone, Debug, Drop)]
pub struct Part {
    pub label: Name,
    pub child: usize,
}

/// The parts of a record expression, in the order of the text.
pub type Parts = List<Part>;
