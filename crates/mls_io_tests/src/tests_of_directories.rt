//! A test of `DirStore`.
use mls_io::directory::DirStore;
use mls_io::store::{Fetch, Store};
use std::test::Fail;
use std::{env, fs, process};

#[test]
fn reads_a_directory(rt: HostRuntime) -> Result<(), Fail> {
    let alloc = rt.alloc();
    let name = format!(in alloc; "mls_io-{}", process::id(rt.process()))?;
    let folder = env::temp_dir(&rt)?.join(alloc, name.as_str())?;
    fs::create_dir(&rt, folder.as_path())?;
    fs::create_dir(&rt, folder.join(alloc, "folder.ml")?)?;
    fs::write(&rt, folder.join(alloc, "a.ml")?, "let x = 1")?;
    fs::write(
        &rt,
        folder.join(alloc, "large.ml")?,
        vec![in alloc; 32u8; 1048577]?.as_slice(),
    )?;

    let mut store = DirStore::new(rt, alloc, folder.as_str())?;
    let mut text = Vec::from_slice(alloc, b"> ")?;
    assert_eq!(rt; store.fetch("b.ml", 9, &mut text), Fetch::Missing);
    assert_eq!(rt; store.fetch("folder.ml", 9, &mut text), Fetch::Failed);
    assert_eq!(rt; store.fetch("a.ml/b.ml", 9, &mut text), Fetch::Failed);
    assert_eq!(rt; store.fetch("a.ml", 8, &mut text), Fetch::Long);
    assert_eq!(rt; store.fetch("large.ml", 1048576, &mut text), Fetch::Long);
    assert_eq!(rt; text.as_slice(), b"> ".as_slice());
    assert_eq!(rt; store.fetch("a.ml", 9, &mut text), Fetch::Found);
    assert_eq!(rt; text.as_slice(), b"> let x = 1".as_slice());
    assert_eq!(rt;
        store.fetch("large.ml", usize::MAX, &mut text),
        Fetch::Found
    );
    assert_eq!(rt; text.len(), 1048588);
    fs::remove_dir_all(&rt, folder.as_path())?;
    Ok(())
}
