//! Schemes of an environment that are used more than once.
ghost use Rattle.mls_book.specs.Schemes as book;
ghost use Rattle.std.specs.Prelude.{List};
ghost use Rattle.mls_infer.specs.Fields.{AreReads};
ghost use Rattle.mls_infer.specs.Inference.{AreNames, schemes_in};

use crate::named::Named;
use mls_base::memory::Memory;
use mls_scheme::read::scheme_of_read;
use mls_term::term::{TermForm, TermNode};
use mls_typetext::scheme::Names;
use std::alloc::Global;
use std::collections::{BTreeMap, BTreeSet};
use std::rc::Rc;

/// Types by the numbers of their names.
pub(crate) type Reads = BTreeMap<usize, Rc<Named>>;

/// What is known of the names of an environment: which of them were used, and the types of those that were used twice or
/// more, each read once.
#[derive(Drop)]
pub(crate) struct Uses {
    used: BTreeSet<usize>,
    pub(crate) reads: Reads,
}

impl Uses {
    /// No name was used. It allocates nothing.
    pub(crate) fn new(alloc: Global) -> Uses
        ensures { (globals : List book.Scheme) → AreReads globals result.reads }
    {
        Uses {
            used: BTreeSet::new(alloc),
            reads: BTreeMap::new(alloc),
        }
    }

    /// Notes the names that an expression uses.
    ///
    /// # Errors
    ///
    /// `Memory` where memory is wanting.
    pub(crate) fn note_all(
        &mut self,
        alloc: Global,
        names: &Names,
        nodes: &[TermNode],
    ) -> Result<(), Memory>
        requires names { AreNames names.now }
        requires reads { AreReads (schemes_in names.now) self.old.reads }
        ensures { AreReads (schemes_in names.now) self.new.reads }
    {
        for node in nodes {
            self.note(alloc, names, &node.form)?;
        }
        Ok(())
    }

    // Reads the scheme of a name that was used before.
    fn note(&mut self, alloc: Global, names: &Names, form: &TermForm) -> Result<(), Memory>
        requires names { AreNames names.now }
        requires reads { AreReads (schemes_in names.now) self.old.reads }
        ensures { AreReads (schemes_in names.now) self.new.reads }
    {
        if let TermForm::Global(g) = form {
            if self.used.contains(g) {
                read(alloc, names, &mut self.reads, *g)?;
                return Ok(());
            }
            self.used.insert(*g)?;
        }
        Ok(())
    }
}

// Reads the scheme of a name, if that was not done.
fn read(alloc: Global, names: &Names, reads: &mut Reads, g: usize) -> Result<(), Memory>
    requires names { AreNames names.now }
    requires reads { AreReads (schemes_in names.now) reads.old }
    ensures { AreReads (schemes_in names.now) reads.new }
{
    let schemes = names.schemes.as_slice();
    if g >= schemes.len() || reads.contains_key(&g) {
        return Ok(());
    }
    let scheme = scheme_of_read(alloc, &schemes[g])?;
    let named = Named::new(alloc, scheme)?;
    reads.insert(g, named)?;
    Ok(())
}
