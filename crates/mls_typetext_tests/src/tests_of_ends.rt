//! Tests of `type_end`.
use mls_lexer::scan::tokens;
use mls_typetext::type_end;
use std::alloc::{AllocError, Global};
use std::test::Fail;

// Where the type that begins at a token of the text ends, or what is wrong.
fn shown(alloc: Global, text: &[u8], from: usize) -> Result<String, AllocError> {
    let mut line = String::new(alloc);
    match tokens(alloc, text) {
        Ok(found) => {
            if from <= found.len() {
                match type_end(alloc, text, &found, from) {
                    Ok(end) => write!(line, "{end}")?,
                    Err(fault) => write!(line, "{fault:?}")?,
                }
            }
        }
        Err(fault) => write!(line, "{fault:?}")?,
    }
    Ok(line)
}

#[test]
fn ends_before_the_first_token_that_cannot_go_on(rt: HostRuntime) -> Result<(), Fail> {
    let cases: [(&[u8], usize, &str); 10] = [
        (b"{a: int, a: int} int", 0, "9"),
        (b"{a: int, a: int} int", 9, "10"),
        (b"int int", 0, "1"),
        (b"a -> b -> c & d | e)", 0, "9"),
        (b"(a -> b) -> c", 0, "7"),
        (b"rec a. {l: a | int} -> top", 0, "12"),
        (b"int & (rec a. a)", 0, "8"),
        (b"{} {", 0, "2"),
        (b"{a: top} b", 1, "2"),
        (b"val x : int", 3, "4"),
    ];
    for (text, from, want) in cases {
        let line = shown(rt.alloc(), text, from)?;
        assert_eq!(rt; line.as_str(), want);
    }
    Ok(())
}

#[test]
fn tells_where_no_type_goes_on(rt: HostRuntime) -> Result<(), Fail> {
    let cases: [(&[u8], usize, &str); 12] = [
        (b"{a: int, a: int} int", 10, "Ended"),
        (b"", 0, "Ended"),
        (b"int ->", 0, "Ended"),
        (b"-> int", 0, "Unexpected(0, Arrow)"),
        (b"(a -> b -> c", 0, "Ended"),
        (b"(a}", 0, "Unexpected(2, BraceRight)"),
        (b"int | rec a. a", 0, "Unexpected(6, WordRec)"),
        (b"rec rec", 0, "Unexpected(4, WordRec)"),
        (b"rec a a", 0, "Unexpected(6, Name)"),
        (b"{} {", 2, "Ended"),
        (b"{a: bool,}", 0, "Unexpected(9, BraceRight)"),
        (b"{a = bot}", 0, "Unexpected(3, Equals)"),
    ];
    for (text, from, want) in cases {
        let line = shown(rt.alloc(), text, from)?;
        assert_eq!(rt; line.as_str(), want);
    }
    Ok(())
}

#[test]
fn goes_as_deep_as_memory_allows(rt: HostRuntime) -> Result<(), Fail> {
    let mut text = Vec::new(rt.alloc());
    for _ in 0..100_000 {
        text.extend_from_slice(b"({l: ")?;
    }
    let open = shown(rt.alloc(), &text, 0)?;
    assert_eq!(rt; open.as_str(), "Ended");
    text.extend_from_slice(b"int")?;
    for _ in 0..100_000 {
        text.extend_from_slice(b"})")?;
    }
    let whole = shown(rt.alloc(), &text, 0)?;
    assert_eq!(rt; whole.as_str(), "600001");
    Ok(())
}
