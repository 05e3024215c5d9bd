//! Types of names, for the tests.
ghost use Rattle.std.specs.Prelude.{IfOk};
ghost use Rattle.mls_automaton.specs.Schemes.{IsScheme};

use mls_automaton::sample::scheme_of;
use mls_automaton::scheme::Scheme;
use mls_base::memory::Memory;
use mls_parts::pose::KnownTypes;
use std::alloc::Global;
use std::collections::BTreeMap;
use std::process::Abort;

// No name is known.
pub fn no_types(alloc: Global) -> KnownTypes {
    KnownTypes {
        globals: BTreeMap::new(alloc),
        lets: BTreeMap::new(alloc),
    }
}

// The scheme of a text, which is one.
pub fn scheme(rt: &impl Abort, alloc: Global, text: &str) -> Result<Scheme, Memory>
    ensures { IfOk result IsScheme }
{
    match scheme_of(alloc, text)? {
        Some(scheme) => Ok(scheme),
        None => panic!(rt; "no scheme: {text}"),
    }
}
