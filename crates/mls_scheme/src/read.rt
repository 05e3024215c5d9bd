//! The scheme of a type that was read.
ghost use Rattle.std.specs.Prelude.{◌≡◌, [], IfOk};
ghost use Rattle.mls_typetext.specs.Laws.{IsReadScheme};
ghost use Rattle.mls_automaton.specs.declared.scheme.Scheme.{Scheme};
ghost use Rattle.mls_automaton.specs.Schemes.{IsScheme};
ghost use Rattle.mls_scheme.specs.ReadTypes.{IsEquivalentToRead, IsPolarisedRead, IsReadFromBook, ReadIsPolarised};

use crate::edges::edges_of;
use crate::signs::signs_of;
use crate::states::states_of;
use mls_automaton::scheme::{Env, Scheme};
use mls_automaton::state_set::StateId;
use mls_base::memory::Memory;
use mls_typetext::scheme::ReadScheme;
use std::alloc::Global;

/// What a text is read as is polarised: each node has the polarity of its place.
pub fn read_is_polarised()
    ensures { ReadIsPolarised }
{}

/// The scheme of what was read, without binders. It has a state for each node, whose number is that of the node; those
/// between constructors have nothing. It takes no recursion. Its time is linear, but for a logarithm, in the nodes, the
/// edges, and the nodes of all layers, where each node counts once for each layer that it stands in: a layer has those
/// of each recursive name in it.
///
/// # Errors
///
/// `Memory` where memory is wanting.
pub fn scheme_of_read(alloc: Global, read: &ReadScheme) -> Result<Scheme, Memory>
    requires read { IsReadScheme read.now }
    requires polarised { IsPolarisedRead read.now }
    ensures scheme { IfOk result IsScheme }
    ensures env { IfOk result (λ (s : Scheme). s.env ≡ []) }
    ensures book { IfOk result (IsReadFromBook read.now) }
    ensures equivalent { IfOk result (IsEquivalentToRead read.now) }
{
    let signs = signs_of(alloc, &read.book, read.root.0)?;
    let mut automaton = states_of(alloc, &read.book, signs.as_slice())?;
    edges_of(
        alloc,
        &mut automaton,
        &read.book,
        signs.as_slice(),
        read.vars,
    )?;
    Ok(Scheme {
        automaton,
        env: Env::new(alloc),
        root: StateId(read.root.0),
    })
}
