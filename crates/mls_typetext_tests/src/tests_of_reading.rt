//! Tests of `read_type` and `read_type_from`.
use mls_book::book::{Field, Node, NodeId};
use mls_lexer::scan::tokens;
use mls_typetext::scheme::ReadScheme;
use mls_typetext::{read_type, read_type_from};
use std::alloc::{AllocError, Global};
use std::test::Fail;

// Adds the fields of a record, each with the number of its node.
fn show_fields(line: &mut String, fields: &[Field]) -> Result<(), AllocError> {
    line.push_str("{")?;
    for field in fields {
        write!(line, " {}:{}", field.label.as_str(), field.node.0)?;
    }
    line.push_str(" }")
}

// Adds a node, with the numbers of its children.
pub(crate) fn show_node(line: &mut String, node: &Node) -> Result<(), AllocError> {
    match node {
        Node::Bot => line.push_str("bot"),
        Node::Top => line.push_str("top"),
        Node::Var(number) => write!(line, "v{number}"),
        Node::Bool => line.push_str("bool"),
        Node::Int => line.push_str("int"),
        Node::Arrow(from, to) => write!(line, "{}->{}", from.0, to.0),
        Node::Rcd(fields) => show_fields(line, fields.as_slice()),
        Node::Join(left, right) => write!(line, "{}|{}", left.0, right.0),
        Node::Meet(left, right) => write!(line, "{}&{}", left.0, right.0),
    }
}

// The nodes of a book, its root and the number of its variables.
fn show_read(line: &mut String, read: &ReadScheme) -> Result<(), AllocError> {
    for number in 0..read.book.len() {
        if number > 0 {
            line.push_str(", ")?;
        }
        show_node(line, read.book.node(NodeId(number)))?;
    }
    write!(line, "; root {}; {} vars", read.root.0, read.vars)
}

// What a text is read as, or its first fault.
pub(crate) fn shown(alloc: Global, text: &[u8]) -> Result<String, AllocError> {
    let mut line = String::new(alloc);
    match read_type(alloc, text) {
        Ok(read) => show_read(&mut line, &read)?,
        Err(fault) => write!(line, "{fault:?}")?,
    }
    Ok(line)
}

// What the type that begins at a token of the text is read as and where it ends, or its first fault.
fn shown_from(alloc: Global, text: &[u8], from: usize) -> Result<String, AllocError> {
    let mut line = String::new(alloc);
    if let Ok(found) = tokens(alloc, text) {
        if from <= found.len() {
            match read_type_from(alloc, text, &found, from) {
                Ok((read, end)) => {
                    show_read(&mut line, &read)?;
                    write!(line, "; before {end}")?;
                }
                Err(fault) => write!(line, "{fault:?}")?,
            }
        }
    }
    Ok(line)
}

#[test]
fn reads_names_and_functions(rt: HostRuntime) -> Result<(), Fail> {
    let cases: [(&[u8], &str); 11] = [
        (b"int", "int; root 0; 0 vars"),
        (b"bool", "bool; root 0; 0 vars"),
        (b"bot", "bot; root 0; 0 vars"),
        (b"a", "v0; root 0; 1 vars"),
        (b"((a))", "v0; root 0; 1 vars"),
        (b"a -> a", "1->2, v0, v0; root 0; 1 vars"),
        (b"a -> b", "1->2, v0, v1; root 0; 2 vars"),
        (b"a -> b -> a", "1->2, v0, 3->4, v1, v0; root 0; 2 vars"),
        (b"(a -> b) -> c", "1->4, 2->3, v0, v1, v2; root 0; 3 vars"),
        (b"top -> bot", "1->2, top, bot; root 0; 0 vars"),
        (b"# before\n int # behind", "int; root 0; 0 vars"),
    ];
    for (text, want) in cases {
        let line = shown(rt.alloc(), text)?;
        assert_eq!(rt; line.as_str(), want);
    }
    Ok(())
}

#[test]
fn reads_joins_and_meets(rt: HostRuntime) -> Result<(), Fail> {
    let cases: [(&[u8], &str); 6] = [
        (b"a | b", "v0, v1, 0|1; root 2; 2 vars"),
        (b"a | b | c", "v0, v1, 0|1, v2, 2|3; root 4; 3 vars"),
        (b"a & b -> c", "3->4, v0, v1, 1&2, v2; root 0; 3 vars"),
        (b"(a & b) -> c", "3->4, v0, v1, 1&2, v2; root 0; 3 vars"),
        (b"a -> b | c", "1->4, v0, v1, v2, 2|3; root 0; 3 vars"),
        (
            b"(a -> b & c) -> d",
            "1->6, 2->5, v0, v1, v2, 3&4, v3; root 0; 4 vars",
        ),
    ];
    for (text, want) in cases {
        let line = shown(rt.alloc(), text)?;
        assert_eq!(rt; line.as_str(), want);
    }
    Ok(())
}

#[test]
fn reads_records(rt: HostRuntime) -> Result<(), Fail> {
    let cases: [(&[u8], &str); 5] = [
        (b"{}", "{ }; root 0; 0 vars"),
        (b"{l: a}", "{ l:1 }, v0; root 0; 1 vars"),
        (
            b"{l: {m: int}, n: bool}",
            "{ l:1 n:3 }, { m:2 }, int, bool; root 0; 0 vars",
        ),
        (
            b"{b: int, a: bool}",
            "{ a:2 b:1 }, int, bool; root 0; 0 vars",
        ),
        (b"{a: {a: int}}", "{ a:1 }, { a:2 }, int; root 0; 0 vars"),
    ];
    for (text, want) in cases {
        let line = shown(rt.alloc(), text)?;
        assert_eq!(rt; line.as_str(), want);
    }
    Ok(())
}

#[test]
fn reads_recursive_types(rt: HostRuntime) -> Result<(), Fail> {
    let cases: [(&[u8], &str); 14] = [
        (b"rec a. {l: a}", "{ l:0 }; root 0; 0 vars"),
        (b"rec a. {l: a | int}", "{ l:2 }, int, 0|1; root 0; 0 vars"),
        (b"rec a. int -> a", "1->0, int; root 0; 0 vars"),
        (
            b"rec a. (a -> int) -> int",
            "1->3, 0->2, int, int; root 0; 0 vars",
        ),
        (b"rec a. rec b. {l: a, m: b}", "{ l:0 m:0 }; root 0; 0 vars"),
        (b"rec a. rec a. {l: a}", "{ l:0 }; root 0; 0 vars"),
        (b"rec a. {l: rec b. a}", "{ l:0 }; root 0; 0 vars"),
        (
            b"rec a. {l: rec a. {m: a}}",
            "{ l:1 }, { m:1 }; root 0; 0 vars",
        ),
        (
            b"(rec a. {l: a}) -> int",
            "1->2, { l:1 }, int; root 0; 0 vars",
        ),
        (b"rec a. {a: int}", "{ a:1 }, int; root 0; 0 vars"),
        (b"rec a. int | {l: a}", "int, { l:2 }, 0|1; root 2; 0 vars"),
        (
            b"int | (rec a. {l: a})",
            "int, { l:1 }, 0|1; root 2; 0 vars",
        ),
        (b"a -> rec b. a -> b", "1->2, v0, 3->2, v0; root 0; 1 vars"),
        (
            b"rec a. {l: b, m: a, n: b}",
            "{ l:1 m:0 n:2 }, v0, v0; root 0; 1 vars",
        ),
    ];
    for (text, want) in cases {
        let line = shown(rt.alloc(), text)?;
        assert_eq!(rt; line.as_str(), want);
    }
    Ok(())
}

#[test]
fn answers_the_fault_of_the_tokens_or_the_grammar(rt: HostRuntime) -> Result<(), Fail> {
    let cases: [(&[u8], &str); 13] = [
        (b"$", "BadByte(0)"),
        (b"{l: 9223372036854775808", "BigNumber(4)"),
        (b"", "Ended"),
        (b"int ->", "Ended"),
        (b"(int", "Ended"),
        (b"rec a.", "Ended"),
        (b"{l: int,", "Ended"),
        (b"int int", "Unexpected(4, WordInt)"),
        (b"1", "Unexpected(0, Number)"),
        (b"{a int}", "Unexpected(3, WordInt)"),
        (b"int)", "Unexpected(3, ParenRight)"),
        (b"int | rec a. {l: a}", "Unexpected(6, WordRec)"),
        (b"top)", "Unexpected(3, ParenRight)"),
    ];
    for (text, want) in cases {
        let line = shown(rt.alloc(), text)?;
        assert_eq!(rt; line.as_str(), want);
    }
    Ok(())
}

#[test]
fn answers_what_is_not_polar(rt: HostRuntime) -> Result<(), Fail> {
    let cases: [(&[u8], &str); 9] = [
        (b"top", "NotPolar(0)"),
        (b"bot -> int", "NotPolar(0)"),
        (b"int -> top", "NotPolar(7)"),
        (b"a | b -> c", "NotPolar(2)"),
        (b"int | bool -> int", "NotPolar(4)"),
        (b"a | b & c", "NotPolar(6)"),
        (b"(a -> b | c) -> d", "NotPolar(8)"),
        (b"top | {a: int, a: int}", "NotPolar(0)"),
        (b"{a: top, a: int}", "NotPolar(4)"),
    ];
    for (text, want) in cases {
        let line = shown(rt.alloc(), text)?;
        assert_eq!(rt; line.as_str(), want);
    }
    Ok(())
}

#[test]
fn answers_a_recursive_name_or_a_label_given_twice(rt: HostRuntime) -> Result<(), Fail> {
    let cases: [(&[u8], &str); 9] = [
        (b"rec a. a", "Unguarded(7)"),
        (b"rec a. int | a", "Unguarded(13)"),
        (b"rec a. rec b. a", "Unguarded(14)"),
        (b"{l: rec a. a | top}", "Unguarded(11)"),
        (b"rec a. a -> int", "Contravariant(7)"),
        (b"rec a. {l: a -> int}", "Contravariant(11)"),
        (b"{a: int, a: int}", "DuplicateLabel(9)"),
        (b"{a: int, a: top}", "DuplicateLabel(9)"),
        (b"{a: int, b: int, a: int}", "DuplicateLabel(17)"),
    ];
    for (text, want) in cases {
        let line = shown(rt.alloc(), text)?;
        assert_eq!(rt; line.as_str(), want);
    }
    Ok(())
}

#[test]
fn reads_the_type_from_a_token_on(rt: HostRuntime) -> Result<(), Fail> {
    let cases: [(&[u8], usize, &str); 6] = [
        (b"{a: int, a: int} int", 0, "DuplicateLabel(9)"),
        (b"{a: int, a: int} int", 9, "int; root 0; 0 vars; before 10"),
        (b"{a: int, a: int} int", 10, "Ended"),
        (
            b"val x : a -> b val",
            3,
            "1->2, v0, v1; root 0; 2 vars; before 6",
        ),
        (b"val x : top) top", 3, "NotPolar(8)"),
        (b"val x : ) int", 3, "Unexpected(8, ParenRight)"),
    ];
    for (text, from, want) in cases {
        let line = shown_from(rt.alloc(), text, from)?;
        assert_eq!(rt; line.as_str(), want);
    }
    Ok(())
}

#[test]
fn reads_as_deep_as_memory_allows(rt: HostRuntime) -> Result<(), Fail> {
    for (open, close, count, nodes) in [
        ("{l: ", "}", 100_000, 100_001),
        ("int -> ", "", 20_000, 40_001),
        ("(", ")", 20_000, 1),
        ("rec a. ", "", 20_000, 1),
    ] {
        let mut text = String::new(rt.alloc());
        for _ in 0..count {
            text.push_str(open)?;
        }
        text.push_str("int")?;
        for _ in 0..count {
            text.push_str(close)?;
        }
        let read = read_type(rt.alloc(), text.as_bytes());
        assert!(rt;
            matches!(&read, Ok(read) if read.book.len() == nodes),
            "{open}"
        );
    }
    Ok(())
}
