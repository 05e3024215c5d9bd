//! Tests of `MemStore` and `MemSink`.
use mls_io::failing::{FailAt, MemSink, MemStore};
use mls_io::memory::FileEntry;
use mls_io::sink::{Put, Sink};
use mls_io::store::{Fetch, Store};
use std::test::Fail;

#[test]
fn fails_at_listed_calls(rt: HostRuntime) -> Result<(), Fail> {
    let alloc = rt.alloc();
    let file = FileEntry {
        name: String::from_str(alloc, "a.ml")?,
        bytes: Vec::from_slice(alloc, b"let x = 1")?,
    };
    let files = vec![in alloc; file]?;
    let mut store = MemStore::new(alloc, files, vec![in alloc; 3, 1, 9]?)?;
    let mut text = Vec::new(alloc);
    for (name, answer) in [
        ("b.ml", Fetch::Missing),
        ("a.ml", Fetch::Failed),
        ("a.ml", Fetch::Found),
        ("b.ml", Fetch::Failed),
        ("a.ml", Fetch::Found),
    ] {
        assert_eq!(rt; store.fetch(name, 9, &mut text), answer);
    }
    assert_eq!(rt; text.as_slice(), b"let x = 1let x = 1".as_slice());
    Ok(())
}

#[test]
fn keeps_parts_of_listed_pieces(rt: HostRuntime) -> Result<(), Fail> {
    let alloc = rt.alloc();
    let failing = vec![in alloc; FailAt { call: 3, kept: 9 }, FailAt { call: 1, kept: 4 }]?;
    let mut sink = MemSink::new(alloc, failing)?;
    for (piece, answer) in [
        ("id : ", Put::All),
        ("", Put::All),
        ("int -> int", Put::Failed),
        ("\n", Put::All),
        ("val", Put::Failed),
        ("x", Put::All),
    ] {
        assert_eq!(rt; sink.put(piece.as_bytes()), answer);
    }
    assert_eq!(rt; sink.bytes(), b"id : int \nvalx".as_slice());
    Ok(())
}
