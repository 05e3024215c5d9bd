//! Interfaces that are read from their texts, and the faults of texts.
use mls_iface::interface::{IfaceFault, Val};
use mls_iface::read::read_interface;
use std::alloc::{AllocError, Global};
use std::test::Fail;

// The declared names with their places, and the numbers of nodes and variables of their types.
fn show_vals(line: &mut String, vals: &[Val]) -> Result<(), AllocError> {
    for val in vals {
        let name = val.name.as_str();
        let at = val.at;
        let nodes = val.scheme.book.len();
        let vars = val.scheme.vars;
        write!(line, "{name}@{at}:{nodes}/{vars} ")?;
    }
    Ok(())
}

// What a text declares, or its first fault.
fn shown(alloc: Global, text: &[u8]) -> Result<String, AllocError> {
    let mut line = String::new(alloc);
    match read_interface(alloc, text) {
        Ok(interface) => show_vals(&mut line, interface.vals.as_slice())?,
        Err(fault) => write!(line, "{fault:?}")?,
    }
    Ok(line)
}

#[test]
fn reads_declarations(rt: HostRuntime) -> Result<(), Fail> {
    let cases: [(&[u8], &str); 8] = [
        (b"", ""),
        (b"# none\n", ""),
        (b"val x : int", "x@4:1/0 "),
        (
            b"val id : a -> a\nval k : a -> b -> a\n",
            "id@4:3/1 k@20:5/2 ",
        ),
        (b"val x:int val y:bool", "x@4:1/0 y@14:1/0 "),
        (
            b"val x:{a:int}val y:(a)val z:bot",
            "x@4:2/0 y@17:1/1 z@26:1/0 ",
        ),
        (b"val # x\n y : # :\n rec a. {l: a} # end", "y@9:1/0 "),
        (b"val x : x -> val_x", "x@4:3/2 "),
    ];
    for (text, want) in cases {
        let line = shown(rt.alloc(), text)?;
        assert_eq!(rt; line.as_str(), want);
    }
    Ok(())
}

#[test]
fn answers_the_fault_of_the_tokens_or_the_grammar(rt: HostRuntime) -> Result<(), Fail> {
    let cases: [(&[u8], &str); 16] = [
        (b"val x : $", "BadByte(8)"),
        (b"val x : top val x 9223372036854775808", "BigNumber(18)"),
        (b"x : int", "Unexpected(0, Name)"),
        (b"val", "Ended"),
        (b"val val : int", "Unexpected(4, WordVal)"),
        (b"val x", "Ended"),
        (b"val x int", "Unexpected(6, WordInt)"),
        (b"val x :", "Ended"),
        (b"val x : int -> val y : int", "Unexpected(15, WordVal)"),
        (b"val x : int ->", "Ended"),
        (b"val x : int)", "Unexpected(11, ParenRight)"),
        (b"val x : int int", "Unexpected(12, WordInt)"),
        (b"val x : top val y : int val", "Ended"),
        (
            b"val x : top val x : int val y = int",
            "Unexpected(30, Equals)",
        ),
        (b"val x : (int val y : int", "Unexpected(13, WordVal)"),
        (b"val x : {a: int,", "Ended"),
    ];
    for (text, want) in cases {
        let line = shown(rt.alloc(), text)?;
        assert_eq!(rt; line.as_str(), want);
    }
    Ok(())
}

#[test]
fn answers_the_first_fault_of_the_declarations(rt: HostRuntime) -> Result<(), Fail> {
    let cases: [(&[u8], &str); 9] = [
        (b"val x : top", "NotPolar(8)"),
        (b"val x : int val y : rec a. a", "Unguarded(27)"),
        (b"val x : rec a. a -> int", "Contravariant(15)"),
        (b"val x : {a: int, a: int}", "DuplicateLabel(17)"),
        (b"val x : int val x : int", "DuplicateVal(16)"),
        (b"val x : int val x : top", "DuplicateVal(16)"),
        (b"val x : int val y : top val x : int", "NotPolar(20)"),
        (
            b"val x : int val y : int val y : top val x : int",
            "DuplicateVal(28)",
        ),
        (
            b"val x : int val xx : int val x : int val xx : int",
            "DuplicateVal(29)",
        ),
    ];
    for (text, want) in cases {
        let line = shown(rt.alloc(), text)?;
        assert_eq!(rt; line.as_str(), want);
    }
    Ok(())
}

#[test]
fn reads_many_declarations(rt: HostRuntime) -> Result<(), Fail> {
    let mut text = String::new(rt.alloc());
    for i in 0..20_000 {
        write!(text, "val x{i} : a -> {{l: a}}\n")?;
    }
    match read_interface(rt.alloc(), text.as_bytes()) {
        Ok(interface) => assert_eq!(rt; interface.vals.len(), 20_000),
        Err(fault) => assert_eq!(rt; fault, IfaceFault::Memory),
    }
    Ok(())
}
