//! What recursive names mean in the text of a type, and the faults of its tree.
use crate::tests_of_reading::{show_node, shown};
use mls_book::book::NodeId;
use mls_typetext::read_type;
use std::alloc::Global;
use std::test::Fail;

#[test]
fn tells_what_names_mean(rt: HostRuntime) -> Result<(), Fail> {
    let cases: [(&[u8], &str); 12] = [
        (b"a", "v0; root 0; 1 vars"),
        (b"top -> bot", "1->2, top, bot; root 0; 0 vars"),
        (b"rec a. int -> a", "1->0, int; root 0; 0 vars"),
        (
            b"rec a. (a -> int) -> int",
            "1->3, 0->2, int, int; root 0; 0 vars",
        ),
        (b"a -> rec a. {l: a}", "1->2, v0, { l:2 }; root 0; 1 vars"),
        (b"rec a. rec b. {l: a, m: b}", "{ l:0 m:0 }; root 0; 0 vars"),
        (
            b"rec a. {n: a, l: rec b. rec a. {m: a, k: b}}",
            "{ l:1 n:0 }, { k:1 m:1 }; root 0; 0 vars",
        ),
        (
            b"rec a. {l: {m: rec b. {n: a, o: b}}}",
            "{ l:1 }, { m:2 }, { n:0 o:2 }; root 0; 0 vars",
        ),
        (
            b"rec a. {l: rec b. {m: a}}",
            "{ l:1 }, { m:0 }; root 0; 0 vars",
        ),
        (b"rec l. {l: l}", "{ l:0 }; root 0; 0 vars"),
        (
            b"rec a. (rec a. {l: a}) -> int",
            "1->2, { l:1 }, int; root 0; 0 vars",
        ),
        (
            b"{l: {l: int}, m: {l: bool}}",
            "{ l:1 m:3 }, { l:2 }, int, { l:4 }, bool; root 0; 0 vars",
        ),
    ];
    for (text, want) in cases {
        let line = shown(rt.alloc(), text)?;
        assert_eq!(rt; line.as_str(), want);
    }
    Ok(())
}

#[test]
fn tells_what_is_not_polar(rt: HostRuntime) -> Result<(), Fail> {
    let cases: [(&[u8], &str); 8] = [
        (b"top", "NotPolar(0)"),
        (b"bot -> int", "NotPolar(0)"),
        (b"int & bool", "NotPolar(4)"),
        (b"int | bool -> int", "NotPolar(4)"),
        (b"int & bool -> top", "NotPolar(14)"),
        (b"{l: top, l: top}", "NotPolar(4)"),
        (b"top & bot", "NotPolar(0)"),
        (b"int & top", "NotPolar(4)"),
    ];
    for (text, want) in cases {
        let line = shown(rt.alloc(), text)?;
        assert_eq!(rt; line.as_str(), want);
    }
    Ok(())
}

#[test]
fn tells_a_recursive_name_or_a_label_given_twice(rt: HostRuntime) -> Result<(), Fail> {
    let cases: [(&[u8], &str); 10] = [
        (b"rec a. a", "Unguarded(7)"),
        (b"rec a. int | a", "Unguarded(13)"),
        (b"int -> rec a. a", "Unguarded(14)"),
        (b"rec a. {l: rec b. b}", "Unguarded(18)"),
        (b"rec a. a -> int", "Contravariant(7)"),
        (b"{l: int, m: int, l: bool}", "DuplicateLabel(17)"),
        (b"{l: int, l: int, l: int}", "DuplicateLabel(9)"),
        (b"{l: int, l: top}", "DuplicateLabel(9)"),
        (b"rec a. a | (a -> int)", "Unguarded(7)"),
        (b"rec a. (a -> int) | a", "Contravariant(8)"),
    ];
    for (text, want) in cases {
        let line = shown(rt.alloc(), text)?;
        assert_eq!(rt; line.as_str(), want);
    }
    Ok(())
}

#[test]
fn tells_a_label_given_twice_in_any_order(rt: HostRuntime) -> Result<(), Fail> {
    let cases: [(&[u8], &str); 8] = [
        (
            b"{c: int, b: bool, a: int}",
            "{ a:3 b:2 c:1 }, int, bool, int; root 0; 0 vars",
        ),
        (
            b"{b: int, d: bool, a: {b: int}, c: {a: bool}}",
            "{ a:3 b:1 c:5 d:2 }, int, bool, { b:4 }, int, { a:6 }, bool; root 0; 0 vars",
        ),
        (b"{c: int, b: int, a: int, a: int}", "DuplicateLabel(25)"),
        (b"{c: int, b: int, a: int, b: int}", "DuplicateLabel(25)"),
        (b"{c: int, b: int, a: int, c: int}", "DuplicateLabel(25)"),
        (b"{b: int, d: int, a: int, b: int}", "DuplicateLabel(25)"),
        (
            b"{b: int, d: int, a: int, e: int, a: int}",
            "DuplicateLabel(33)",
        ),
        (
            b"{b: int, d: int, a: int, c: int, e: int, e: int}",
            "DuplicateLabel(41)",
        ),
    ];
    for (text, want) in cases {
        let line = shown(rt.alloc(), text)?;
        assert_eq!(rt; line.as_str(), want);
    }
    Ok(())
}

// Adds a part of a text so many times.
fn repeat(text: &mut String, part: &str, count: usize) -> Result<(), Fail> {
    for _ in 0..count {
        text.push_str(part)?;
    }
    Ok(())
}

// Records around a use of the outermost of many recursive names, in the domain of the domain of a function, and so on.
fn deep_text(alloc: Global, count: usize) -> Result<String, Fail> {
    let mut text = String::new(alloc);
    repeat(&mut text, "(", count)?;
    text.push_str("rec b. ")?;
    repeat(&mut text, "rec a. ", count)?;
    repeat(&mut text, "{l: ", count)?;
    text.push_str("b")?;
    repeat(&mut text, "}", count)?;
    repeat(&mut text, ") -> int", count)?;
    Ok(text)
}

#[test]
fn goes_as_deep_as_memory_allows(rt: HostRuntime) -> Result<(), Fail> {
    let text = deep_text(rt.alloc(), 100_000)?;
    let mut line = String::new(rt.alloc());
    match read_type(rt.alloc(), text.as_bytes()) {
        Ok(read) => {
            write!(line, "{} ", read.book.len())?;
            if 199_999 < read.book.len() {
                show_node(&mut line, read.book.node(NodeId(199_999)))?;
            }
        }
        Err(fault) => write!(line, "{fault:?}")?,
    }
    assert_eq!(rt; line.as_str(), "300000 { l:100000 }");
    Ok(())
}
