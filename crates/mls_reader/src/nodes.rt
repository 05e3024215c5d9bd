//! From the pieces that tell a module to the module, with the nodes of each binding in order.
ghost use Rattle.std.specs.Prelude.{◌≡◌, ◌∷◌, ◌++◌, [], reverse, IfOk, OnOk};
ghost use Rattle.std.specs.List.{list_any};
ghost use Rattle.mls_reader.specs.steps.Arranging.{node_piece, fronts, told, left, part_count, parts, arrangement};
ghost use Rattle.mls_reader.specs.steps.Arranging.{is_operator};
ghost use Rattle.mls_reader.specs.steps.Linking.{grown, root_of, without_root, parts_of, without_parts, with_record};
ghost use Rattle.mls_reader.specs.steps.Linking.{joined, linked, link_start, module_linked};
ghost use Rattle.mls_grammar.specs.Modules.{module_of};
ghost use Rattle.mls_reader.specs.steps.Told.{TellsSource};
ghost use Rattle.mls_grammar.specs.Trees.{SourceTree};

use crate::piece::Piece;
use mls_base::memory::Memory;
use mls_book::name::Name;
use mls_grammar::module::{
    Binding, Bindings, Expr, ExprNode, ExprNodes, Form, Import, Imports, Module, Part, Parts,
};
use std::alloc::Global;
use std::marker::Model;
use std::mem;

// What stands before the pieces that were read from the back.
#[derive(Drop)]
enum Later<'a> {
    // The pieces of a part, which are still to be read.
    Part,
    // A piece that is to be told before the next part is read.
    Tell(Piece<'a>),
}

/// The module that the pieces tell.
///
/// # Errors
///
/// `Memory` where memory is wanting.
pub fn module_of<'a>(alloc: Global, pieces: Vec<Piece<'a>>) -> Result<Module, Memory>
    ensures { IfOk result (λ m. (tree : SourceTree) → TellsSource pieces.entry.items tree → m ≡ module_of tree) }
{
    if has_operators(&pieces) {
        let backward = arrange(alloc, pieces)?;
        link_backward(alloc, backward)
    } else {
        link(alloc, pieces)
    }
}

// Whether an operator is among the pieces. Without one they are in the order of the nodes.
fn has_operators<'a>(pieces: &[Piece<'a>]) -> bool
    ensures { result ≡ list_any is_operator (reverse pieces.now) }
{
    pieces.iter().rev().any(|piece| is_operator(piece))
}

// Whether the piece is an operator behind its operands.
fn is_operator<'a>(piece: &Piece<'a>) -> bool
    ensures { result ≡ is_operator piece.now }
{
    matches!(piece, Piece::Binary(..))
}

// The pieces in the order of the nodes, from the last to the first: there an operator stands before its operands.
fn arrange<'a>(alloc: Global, pieces: Vec<Piece<'a>>) -> Result<Vec<Piece<'a>>, Memory>
    ensures { IfOk result (λ backward. backward.items ≡ arrangement [] (reverse pieces.entry.items)) }
{
    let mut pieces = pieces;
    let mut later = Vec::new(alloc);
    // An operator alone and its applications take three places of one.
    let mut backward = Vec::with_capacity(alloc, pieces.len().saturating_mul(2))?;
    while let Some(piece) = pieces.pop() {
        tell(&mut later, &mut backward)?;
        place(&mut later, &mut backward, piece)?;
    }
    tell(&mut later, &mut backward)?;
    Ok(backward)
}

// Tells what is to be told before the next part, and takes it and the part off the stack.
fn tell<'a>(later: &mut Vec<Later<'a>>, backward: &mut Vec<Piece<'a>>) -> Result<(), Memory>
    ensures told { OnOk result (backward.new.items ≡ backward.old.items ++ told (reverse later.old.items)) }
    ensures left { OnOk result (reverse later.new.items ≡ left (reverse later.old.items)) }
{
    while let Some(next) = later.pop() {
        match next {
            Later::Part => return Ok(()),
            Later::Tell(piece) => backward.push(piece)?,
        }
    }
    Ok(())
}

// Tells the last piece of a part, and puts on the stack what stands before it.
fn place<'a>(
    later: &mut Vec<Later<'a>>,
    backward: &mut Vec<Piece<'a>>,
    piece: Piece<'a>,
) -> Result<(), Memory>
    ensures told { OnOk result (backward.new.items ≡ backward.old.items ++ node_piece piece.entry ∷ []) }
    ensures fronts { OnOk result (reverse later.new.items ≡ fronts piece.entry ++ reverse later.old.items) }
{
    match piece {
        Piece::Binary(at, op) => {
            later.push(Later::Tell(Piece::Operator(at, op)))?;
            later.push(Later::Part)?;
            later.push(Later::Tell(Piece::Apply(at)))?;
            later.push(Later::Part)?;
            backward.push(Piece::Apply(at))?;
        }
        other => {
            put_parts(later, part_count(&other))?;
            backward.push(other)?;
        }
    }
    Ok(())
}

// Puts this many parts on the stack.
fn put_parts<'a>(later: &mut Vec<Later<'a>>, count: usize) -> Result<(), Memory>
    ensures { OnOk result (reverse later.new.items ≡ parts count ++ reverse later.old.items) }
{
    for _ in 0..count {
        later.push(Later::Part)?;
    }
    Ok(())
}

// How many parts stand before the piece.
fn part_count<'a>(piece: &Piece<'a>) -> usize
    ensures { result ≡ part_count piece.now }
{
    match piece {
        Piece::Fun(..) | Piece::Rec(..) | Piece::Project(..) => 1,
        Piece::Make(_) | Piece::Binding(..) => 1,
        Piece::Let(..) | Piece::Apply(_) | Piece::Binary(..) | Piece::Field(_) => 2,
        Piece::If(_) => 3,
        _ => 0,
    }
}

// What the pieces so far have made.
#[derive(Drop)]
struct Linker {
    imports: Imports,
    bindings: Bindings,
    // The nodes of the binding whose pieces are read.
    nodes: ExprNodes,
    // The roots of the expressions that belong to no other so far, the newest last.
    roots: Vec<usize>,
    // The parts of the records that are still to be made, each list from the last part to the first.
    records: Vec<Parts>,
}

impl Model for Linker {
    ghost use Rattle.std.specs.Prelude.{reverse};
    ghost use Rattle.mls_reader.specs.steps.Linking.{Linked};

    ghost Value = { Linked };

    ghost view = { λ l. record {
      imports = l.imports;
      bindings = l.bindings;
      nodes = l.nodes;
      roots = reverse l.roots.items;
      records = reverse l.records.items;
    } };
}

// The module of the pieces in the order of the nodes.
fn link<'a>(alloc: Global, pieces: Vec<Piece<'a>>) -> Result<Module, Memory>
    ensures { IfOk result (λ m. m ≡ module_linked (linked link_start pieces.entry.items)) }
{
    let mut linker = Linker::new(alloc);
    for piece in pieces {
        linker.join(alloc, piece)?;
    }
    Ok(linker.module())
}

// The module of the pieces in the order of the nodes, which are given from the last to the first.
fn link_backward<'a>(alloc: Global, backward: Vec<Piece<'a>>) -> Result<Module, Memory>
    ensures { IfOk result (λ m. m ≡ module_linked (linked link_start (reverse backward.entry.items))) }
{
    let mut backward = backward;
    let mut linker = Linker::new(alloc);
    while let Some(piece) = backward.pop() {
        linker.join(alloc, piece)?;
    }
    Ok(linker.module())
}

// Each piece stands behind its parts, so what a method takes off a list has always been put there.
impl Linker {
    // What no piece has made.
    fn new(alloc: Global) -> Linker
        ensures { result ≡ link_start }
    {
        Linker {
            imports: Imports::new(alloc),
            bindings: Bindings::new(alloc),
            nodes: ExprNodes::new(alloc),
            roots: Vec::new(alloc),
            records: Vec::new(alloc),
        }
    }

    // Takes the next piece.
    fn join<'a>(&mut self, alloc: Global, piece: Piece<'a>) -> Result<(), Memory>
        ensures { OnOk result (self.new ≡ joined piece.entry self.old) }
    {
        match piece {
            Piece::Name(at, x) => self.grow(at, Form::Var(x.name(alloc)?)),
            Piece::Operator(at, op) => self.grow(at, Form::Operator(op)),
            Piece::Number(at, value) => self.grow(at, Form::Number(value)),
            Piece::Truth(at, value) => self.grow(at, Form::Truth(value)),
            Piece::Fun(at, x) => {
                let body = self.root();
                self.grow(at, Form::Fun(x.name(alloc)?, body))
            }
            Piece::Rec(at, x) => {
                let body = self.root();
                self.grow(at, Form::Rec(x.name(alloc)?, body))
            }
            Piece::Project(at, label) => {
                let record = self.root();
                self.grow(at, Form::Project(record, label.name(alloc)?))
            }
            Piece::Let(at, x) => self.local(at, x.name(alloc)?),
            Piece::If(at) => self.choice(at),
            Piece::Apply(at) => self.apply(at),
            Piece::Last => self.open(alloc),
            Piece::Field(label) => self.part(alloc, label.name(alloc)?),
            Piece::Make(at) => self.make(alloc, at),
            Piece::Import(at, name) => {
                let name = name.name(alloc)?;
                self.imports.push(Import { name, at })
            }
            Piece::Binding(at, name) => self.binding(alloc, at, name.name(alloc)?),
            // No operator has its operands with it by now.
            Piece::Binary(..) => Ok(()),
        }
    }

    // Adds a node, which is the root of an expression.
    #[inline(always)]
    fn grow(&mut self, at: usize, form: Form) -> Result<(), Memory>
        ensures { OnOk result (self.new ≡ grown at form self.old) }
    {
        self.roots.push(self.nodes.len())?;
        self.nodes.push(ExprNode { at, form })
    }

    // Takes the newest root.
    fn root(&mut self) -> usize
        ensures root { result ≡ root_of self.old }
        ensures rest { self.new ≡ without_root self.old }
    {
        self.roots.pop().unwrap_or(0)
    }

    // Ends a `let` behind its body.
    fn local(&mut self, at: usize, x: Name) -> Result<(), Memory>
        ensures { OnOk result (self.new ≡ joined (Piece.Let at x) self.old) }
    {
        let body = self.root();
        let bound = self.root();
        self.grow(at, Form::Let(x, bound, body))
    }

    // Ends an `if` behind its second branch.
    fn choice(&mut self, at: usize) -> Result<(), Memory>
        ensures { OnOk result (self.new ≡ joined (Piece.If at) self.old) }
    {
        let second = self.root();
        let first = self.root();
        let condition = self.root();
        self.grow(at, Form::If(condition, first, second))
    }

    // Ends an application behind its argument.
    fn apply(&mut self, at: usize) -> Result<(), Memory>
        ensures { OnOk result (self.new ≡ joined (Piece.Apply at) self.old) }
    {
        let argument = self.root();
        let function = self.root();
        self.grow(at, Form::Apply(function, argument))
    }

    // Begins a record behind its last part.
    fn open(&mut self, alloc: Global) -> Result<(), Memory>
        ensures { OnOk result (self.new ≡ with_record [] self.old) }
    {
        self.records.push(Parts::new(alloc))?;
        Ok(())
    }

    // Takes the parts of the innermost record.
    fn parts(&mut self, alloc: Global) -> Parts
        ensures parts { result ≡ parts_of self.old }
        ensures rest { self.new ≡ without_parts self.old }
    {
        match self.records.pop() {
            Some(parts) => parts,
            None => Parts::new(alloc),
        }
    }

    // Adds the next part towards the front of the innermost record.
    fn part(&mut self, alloc: Global, label: Name) -> Result<(), Memory>
        ensures { OnOk result (self.new ≡ joined (Piece.Field label) self.old) }
    {
        let child = self.root();
        let mut parts = self.parts(alloc);
        parts.push(Part { label, child })?;
        self.records.push(parts)?;
        Ok(())
    }

    // Ends a record: its parts are in the order of the text.
    fn make(&mut self, alloc: Global, at: usize) -> Result<(), Memory>
        ensures { OnOk result (self.new ≡ joined (Piece.Make at) self.old) }
    {
        let parts = self.parts(alloc);
        self.grow(at, Form::Make(parts.reversed()))
    }

    // Ends a binding: the nodes so far are its expression.
    fn binding(&mut self, alloc: Global, at: usize, name: Name) -> Result<(), Memory>
        ensures { OnOk result (self.new ≡ joined (Piece.Binding at name) self.old) }
    {
        self.root();
        let nodes = mem::replace(&mut self.nodes, ExprNodes::new(alloc));
        let expr = Expr { nodes };
        self.bindings.push(Binding { name, at, expr })
    }

    // The module of the pieces.
    fn module(self) -> Module
        ensures { result ≡ module_linked self }
    {
        Module {
            imports: self.imports,
            bindings: self.bindings,
        }
    }
}
