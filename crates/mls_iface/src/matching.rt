//! Whether signatures match interfaces.
ghost use Rattle.std.specs.Prelude.{All, length, IfOk};
ghost use Rattle.mls_typetext.specs.Schemes.{scheme_of};
ghost use Rattle.mls_iface.specs.Signatures.{AreEntries, IsEntry};
ghost use Rattle.mls_iface.specs.Matches.{IsRead, IsMatchAnswer, IsAutomatonOf};
ghost use Rattle.mls_iface.specs.steps.Comparing.{AreNumbers, IsCompared, IsHeld, IsNarrow};

use crate::interface::{Interface, Val};
use crate::read::copy_of;
use crate::signature::{SigEntry, Signature};
use mls_automaton::scheme::Scheme;
use mls_base::memory::Memory;
use mls_book::name::Name;
use mls_scheme::read::scheme_of_read;
use mls_shape::determinise::determinise;
use mls_subsume::subsume::subsumes;
pub use mls_subsume::verdict::Path;
use mls_subsume::verdict::Verdict;
use mls_typetext::scheme::ReadScheme;
use std::alloc::Global;
use std::collections::BTreeMap;

/// Whether a signature matches an interface, or the first declaration, in the interface's order, that fails.
#[derive(Drop)]
pub enum MatchAnswer {
    /// Each declared name has an entry whose scheme subsumes the declared one.
    All,
    /// This declared name has no entry.
    Missing(Name),
    /// The scheme of the entry of this declared name does not subsume the declared scheme: the path leads to the first
    /// part where they differ.
    TooSpecial(Name, Path),
}

/// Whether a signature matches an interface. The declarations are looked at in their order, and automata are made for
/// the schemes of those and of their entries alone, up to the first that fails. Entries are found by an ordered map.
///
/// # Errors
///
/// `Memory` where memory is wanting.
pub fn matches(
    alloc: Global,
    signature: &Signature,
    interface: &Interface,
) -> Result<MatchAnswer, Memory>
    requires entries { AreEntries signature.now.entries }
    requires vals { All (λ val. IsRead val.scheme) interface.now.vals }
    ensures { IfOk result (IsMatchAnswer signature.now.entries interface.now.vals) }
{
    let entries = signature.entries.as_slice();
    let numbers = numbers_of(alloc, entries)?;
    for val in interface.vals.as_slice() {
        if let Some(answer) = failure(alloc, entries, &numbers, val)? {
            return Ok(answer);
        }
    }
    Ok(MatchAnswer::All)
}

// The number of the entry of each name.
fn numbers_of(alloc: Global, entries: &[SigEntry]) -> Result<BTreeMap<Name, usize>, Memory>
    ensures { IfOk result (AreNumbers (length entries.now) entries.now) }
{
    let mut numbers = BTreeMap::new(alloc);
    for (number, entry) in entries.iter().enumerate() {
        numbers.insert(copy_of(&entry.name)?, number)?;
    }
    Ok(numbers)
}

// How a declaration fails, or none where it is matched.
fn failure(
    alloc: Global,
    entries: &[SigEntry],
    numbers: &BTreeMap<Name, usize>,
    val: &Val,
) -> Result<Option<MatchAnswer>, Memory>
    requires entries { All IsEntry entries.now }
    requires numbers { AreNumbers (length entries.now) entries.now numbers.now }
    requires val { IsRead val.now.scheme }
    ensures { IfOk result (IsHeld entries.now val.now) }
{
    match numbers.get(&val.name) {
        None => Ok(Some(MatchAnswer::Missing(copy_of(&val.name)?))),
        Some(number) => against(alloc, &entries[*number], val),
    }
}

// How a declaration fails that the entry is for, or none where its scheme is general enough.
fn against(alloc: Global, entry: &SigEntry, val: &Val) -> Result<Option<MatchAnswer>, Memory>
    requires entry { IsRead entry.now.scheme }
    requires val { IsRead val.now.scheme }
    ensures { IfOk result (IsNarrow entry.now val.now) }
{
    match first_failure(alloc, &entry.scheme, &val.scheme)? {
        None => Ok(None),
        Some(path) => Ok(Some(MatchAnswer::TooSpecial(copy_of(&val.name)?, path))),
    }
}

// The first failure of a general scheme against a special one, or none where it subsumes it.
fn first_failure(
    alloc: Global,
    general: &ReadScheme,
    special: &ReadScheme,
) -> Result<Option<Path>, Memory>
    requires general { IsRead general.now }
    requires special { IsRead special.now }
    ensures { IfOk result (IsCompared (scheme_of general.now) (scheme_of special.now)) }
{
    let wide = automaton_of(alloc, general)?;
    let narrow = automaton_of(alloc, special)?;
    match subsumes(alloc, &wide, &narrow)? {
        Verdict::Yes(_) => Ok(None),
        Verdict::No(path) => Ok(Some(path)),
    }
}

// A deterministic automaton of what was read.
fn automaton_of(alloc: Global, read: &ReadScheme) -> Result<Scheme, Memory>
    requires { IsRead read.now }
    ensures { IfOk result (IsAutomatonOf (scheme_of read.now)) }
{
    let scheme = scheme_of_read(alloc, read)?;
    let deterministic = determinise(alloc, &scheme)?;
    Ok(deterministic)
}
