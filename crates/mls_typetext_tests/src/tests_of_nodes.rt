//! The pieces of the text of a type, and where their nodes are in its book.
use crate::tests_of_reading::{show_node, shown};
use mls_book::book::NodeId;
use mls_typetext::read_type;
use std::test::Fail;

#[test]
fn tells_each_piece_behind_its_parts(rt: HostRuntime) -> Result<(), Fail> {
    let cases: [(&[u8], &str); 8] = [
        (b"int", "int; root 0; 0 vars"),
        (b"a -> b -> c", "1->2, v0, 3->4, v1, v2; root 0; 3 vars"),
        (b"a | b | c & d", "NotPolar(10)"),
        (b"(a -> b) -> top", "NotPolar(12)"),
        (b"rec a. {l: a | int}", "{ l:2 }, int, 0|1; root 0; 0 vars"),
        (b"{}", "{ }; root 0; 0 vars"),
        (
            b"{x: bool, y: {z: bot}}",
            "{ x:1 y:2 }, bool, { z:3 }, bot; root 0; 0 vars",
        ),
        (
            b"{x: int} & a -> b",
            "3->5, { x:4 }, v0, 1&2, int, v1; root 0; 2 vars",
        ),
    ];
    for (text, want) in cases {
        let line = shown(rt.alloc(), text)?;
        assert_eq!(rt; line.as_str(), want);
    }
    Ok(())
}

#[test]
fn parts_of_a_function_have_nodes_of_their_own(rt: HostRuntime) -> Result<(), Fail> {
    let line = shown(rt.alloc(), b"a -> a")?;
    assert_eq!(rt; line.as_str(), "1->2, v0, v0; root 0; 1 vars");
    Ok(())
}

#[test]
fn recursive_names_stand_for_nodes_around_them(rt: HostRuntime) -> Result<(), Fail> {
    let cases: [(&[u8], &str); 2] = [
        (b"rec a. {l: a | int}", "{ l:2 }, int, 0|1; root 0; 0 vars"),
        (b"rec a. {l: rec b. a}", "{ l:0 }; root 0; 0 vars"),
    ];
    for (text, want) in cases {
        let line = shown(rt.alloc(), text)?;
        assert_eq!(rt; line.as_str(), want);
    }
    Ok(())
}

#[test]
fn fields_stand_by_their_labels_and_their_nodes_by_the_text(rt: HostRuntime) -> Result<(), Fail> {
    let line = shown(rt.alloc(), b"{l: {m: int}, n: bool, a: bot}")?;
    assert_eq!(rt;
        line.as_str(),
        "{ a:4 l:1 n:3 }, { m:2 }, int, bool, bot; root 0; 0 vars"
    );
    let line = shown(rt.alloc(), b"{l: {m: int}, n: bool, a: top} -> a")?;
    assert_eq!(rt;
        line.as_str(),
        "1->6, { a:5 l:2 n:4 }, { m:3 }, int, bool, top, v0; root 0; 1 vars"
    );
    Ok(())
}

#[test]
fn goes_as_deep_as_memory_allows(rt: HostRuntime) -> Result<(), Fail> {
    let mut text = String::new(rt.alloc());
    for _ in 0..100_000 {
        text.push_str("{l: ")?;
    }
    text.push_str("int")?;
    for _ in 0..100_000 {
        text.push_str("}")?;
    }
    let read = read_type(rt.alloc(), text.as_bytes())?;
    assert!(rt; read.book.len() == 100_001);
    let mut line = String::new(rt.alloc());
    for number in [0, 1, 99_999, 100_000] {
        show_node(&mut line, read.book.node(NodeId(number)))?;
    }
    assert_eq!(rt; line.as_str(), "{ l:1 }{ l:2 }{ l:100000 }int");
    Ok(())
}
