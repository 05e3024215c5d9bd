//! Tests of `SearchPath`.
use mls_base::memory::Memory;
use mls_io::failing::MemStore;
use mls_io::memory::FileEntry;
use mls_io::path::SearchPath;
use mls_io::store::{Fetch, Store};
use std::alloc::Global;
use std::test::Fail;

// A store of one file whose listed call fails.
fn store_of(alloc: Global, name: &str, text: &str, failing: u64) -> Result<MemStore, Memory> {
    let file = FileEntry {
        name: String::from_str(alloc, name)?,
        bytes: Vec::from_slice(alloc, text.as_bytes())?,
    };
    MemStore::new(alloc, vec![in alloc; file]?, vec![in alloc; failing]?)
}

// Three stores, of which the second has a file of the same name as the first, and the third fails at its third
// call.
fn members(alloc: Global) -> Result<Vec<Box<dyn Store>>, Memory> {
    let mut members: Vec<Box<dyn Store>> = Vec::new(alloc);
    members.push(Box::new(alloc, store_of(alloc, "a.ml", "near", 9)?)?)?;
    members.push(Box::new(alloc, store_of(alloc, "a.ml", "f", 9)?)?)?;
    members.push(Box::new(alloc, store_of(alloc, "b.ml", "far", 2)?)?)?;
    Ok(members)
}

#[test]
fn asks_members_in_turn(rt: HostRuntime) -> Result<(), Fail> {
    let alloc = rt.alloc();
    let members = members(alloc)?;
    let mut path = SearchPath::new(members);
    let mut text = Vec::new(alloc);
    for (name, answer) in [
        ("a.ml", Fetch::Found),
        ("b.ml", Fetch::Found),
        ("c.ml", Fetch::Missing),
        ("a.ml", Fetch::Found),
        ("b.ml", Fetch::Failed),
    ] {
        assert_eq!(rt; path.fetch(name, 4, &mut text), answer);
    }
    assert_eq!(rt; path.fetch("a.ml", 3, &mut text), Fetch::Long);
    assert_eq!(rt; text.as_slice(), b"nearfarnear".as_slice());
    let mut none = SearchPath::new(Vec::new(alloc));
    assert_eq!(rt; none.fetch("a.ml", 4, &mut text), Fetch::Missing);
    Ok(())
}
