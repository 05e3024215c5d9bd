//! Tests of `SureStore` and `SureSink`.
use mls_io::memory::{FileEntry, SureSink, SureStore, have_distinct_names};
use mls_io::sink::{Put, Sink};
use mls_io::store::{Fetch, Store};
use std::test::Fail;

#[test]
fn finds_files(rt: HostRuntime) -> Result<(), Fail> {
    let alloc = rt.alloc();
    let first = FileEntry {
        name: String::from_str(alloc, "a.ml")?,
        bytes: Vec::from_slice(alloc, b"let x = 1")?,
    };
    let second = FileEntry {
        name: String::from_str(alloc, "b.ml")?,
        bytes: Vec::new(alloc),
    };
    let files = vec![in alloc; first, second]?;
    assert!(rt; have_distinct_names(files.as_slice()));
    let mut store = SureStore::new(alloc, files)?;
    let mut text = Vec::from_slice(alloc, b"> ")?;
    assert_eq!(rt; store.fetch("b.ml", 0, &mut text), Fetch::Found);
    assert_eq!(rt; text.as_slice(), b"> ".as_slice());
    assert_eq!(rt; store.fetch("a.ml", 8, &mut text), Fetch::Long);
    assert_eq!(rt; store.fetch("a.m", 9, &mut text), Fetch::Missing);
    assert_eq!(rt; text.as_slice(), b"> ".as_slice());
    assert_eq!(rt; store.fetch("a.ml", 9, &mut text), Fetch::Found);
    assert_eq!(rt; text.as_slice(), b"> let x = 1".as_slice());
    Ok(())
}

#[test]
fn keeps_pieces(rt: HostRuntime) -> Result<(), Fail> {
    let mut sink = SureSink::new(rt.alloc());
    for piece in ["val x : ", "", "int\n"] {
        assert_eq!(rt; sink.put(piece.as_bytes()), Put::All);
    }
    assert_eq!(rt; sink.bytes(), b"val x : int\n".as_slice());
    Ok(())
}
