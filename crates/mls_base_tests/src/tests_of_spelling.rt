//! A test of `is_name`.
use mls_base::memory::Memory;
use mls_base::spelling::is_name;
use std::alloc::Global;
use std::test::Fail;

// Something that takes memory, with the error that every crate gives.
fn copied(alloc: Global, word: &str) -> Result<String, Memory> {
    Ok(String::from_str(alloc, word)?)
}

#[test]
fn tells_names(rt: HostRuntime) -> Result<(), Fail> {
    for (word, is_one) in [
        ("x", true),
        ("aZ_09", true),
        ("lets", true),
        ("le", true),
        ("let", false),
        ("format", false),
        ("", false),
        ("X", false),
        ("_x", false),
        ("0x", false),
        ("x-y", false),
        ("x'", false),
    ] {
        let word = copied(rt.alloc(), word)?;
        assert_eq!(rt; is_name(word.as_bytes()), is_one, "{word}");
    }
    Ok(())
}
