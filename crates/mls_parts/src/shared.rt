//! Names whose types have no edges: each use of such a name in a part has the same type, so uses share a copy.
ghost use Rattle.std.specs.Prelude.{◌≡◌, IfOk, IfSome, IsTrue, OnOk, None, Some};
ghost use Rattle.std.specs.BTreeMap.{get};
ghost use Rattle.std.specs.Ordering.{nat_cmp};
ghost use Rattle.mls_parts.specs.Posings.{known_in};
ghost use Rattle.mls_parts.specs.steps.Sharing.{AreSameUses, IsWithoutEdges, MayNote, MayNoteUse, first_use};
ghost use Rattle.mls_term.specs.declared.term.TermForm.{TermForm};

use crate::numbers::NumberMap;
use crate::pose::KnownTypes;
use mls_automaton::scheme::Scheme;
use mls_base::memory::Memory;
use mls_term::term::TermForm;
use std::alloc::Global;
use std::collections::BTreeMap;

/// As many uses share a copy at least.
const FEW: usize = 64;

/// The node of the first use of each name whose type has no edges, of names of the environment and of lets, and how many
/// uses may still share the copy of that node. They are so many as the copy has states, and a few: what is related to a
/// state of the copy is a list in order, into which each pair is put, so it must not grow with all uses.
#[derive(Drop)]
pub(crate) struct Shared {
    globals: BTreeMap<usize, usize>,
    lets: BTreeMap<usize, usize>,
    left: NumberMap<usize>,
}

impl Shared {
    /// No use.
    pub(crate) fn new(alloc: Global) -> Shared
        ensures { (f : TermForm) → first_use result f ≡ None }
    {
        Shared {
            globals: BTreeMap::new(alloc),
            lets: BTreeMap::new(alloc),
            left: NumberMap::new(alloc),
        }
    }

    /// The node whose copy a use of this name shares.
    ///
    /// # Errors
    ///
    /// `Memory` where memory is wanting.
    pub(crate) fn share(&mut self, form: &TermForm) -> Result<Option<usize>, Memory>
        ensures first { IfOk result (λ found. IfSome found (λ j. first_use self.old form.now ≡ Some j)) }
        ensures same { OnOk result (AreSameUses self.old self.new) }
    {
        match self.first_use(form) {
            None => Ok(None),
            Some(first) => {
                let serves = self.serve(first)?;
                if serves { Ok(Some(first)) } else { Ok(None) }
            }
        }
    }

    // The node of the first use of the same name.
    fn first_use(&self, form: &TermForm) -> Option<usize>
        ensures { result ≡ first_use self.now form.now }
    {
        match form {
            TermForm::Global(g) => noted(&self.globals, *g),
            TermForm::Inner(k) => noted(&self.lets, *k),
            _ => None,
        }
    }

    // Whether the copy of this node may serve one use more, which is counted.
    fn serve(&mut self, first: usize) -> Result<bool, Memory>
        ensures { OnOk result (AreSameUses self.old self.new) }
    {
        let left = number_of(&self.left, first).unwrap_or(0);
        if left == 0 {
            return Ok(false);
        }
        self.left.insert(first, left - 1)?;
        Ok(true)
    }

    /// Notes a use of a name with a copy of its own, if its type has no edges.
    ///
    /// # Errors
    ///
    /// `Memory` where memory is wanting.
    pub(crate) fn note(
        &mut self,
        node: usize,
        form: &TermForm,
        known: &KnownTypes,
    ) -> Result<(), Memory>
        ensures { OnOk result (MayNote known.now.globals known.now.lets self.old self.new node form.now) }
    {
        match form {
            TermForm::Global(g) => {
                self.left.insert(node, served(&known.globals, *g))?;
                note_use(&mut self.globals, &known.globals, *g, node)
            }
            TermForm::Inner(k) => {
                self.left.insert(node, served(&known.lets, *k))?;
                note_use(&mut self.lets, &known.lets, *k, node)
            }
            _ => Ok(()),
        }
    }
}

/// The number at a key.
pub(crate) fn number_of(numbers: &NumberMap<usize>, key: usize) -> Option<usize>
    ensures { result ≡ get nat_cmp numbers.now key }
{
    match numbers.get(key) {
        Some(number) => Some(*number),
        None => None,
    }
}

// The node that is noted for a name.
fn noted(uses: &BTreeMap<usize, usize>, name: usize) -> Option<usize>
    ensures { result ≡ get nat_cmp uses.now name }
{
    match uses.get(&name) {
        Some(node) => Some(*node),
        None => None,
    }
}

// How many uses may share a copy of the type of a name.
fn served(types: &BTreeMap<usize, Scheme>, name: usize) -> usize {
    match types.get(&name) {
        Some(known) => known.automaton.len().saturating_add(FEW),
        None => 0,
    }
}

// Notes the use of a name, if its type has no edges.
fn note_use(
    uses: &mut BTreeMap<usize, usize>,
    types: &BTreeMap<usize, Scheme>,
    name: usize,
    node: usize,
) -> Result<(), Memory>
    ensures { OnOk result (MayNoteUse types.now uses.old uses.new name node) }
{
    if has_no_edges(types, name) {
        uses.insert(name, node)?;
    }
    Ok(())
}

// Whether the type of a name is known and has no edges.
fn has_no_edges(types: &BTreeMap<usize, Scheme>, name: usize) -> bool
    ensures { IsTrue result → IsWithoutEdges (known_in types.now name) }
{
    match types.get(&name) {
        Some(known) => known.automaton.flows().is_empty(),
        None => false,
    }
}
