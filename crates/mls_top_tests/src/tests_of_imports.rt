//! Modules over the interfaces of their imports.
use crate::samples::{Row, are_answered, words_of};
use mls_base::memory::Memory;
use mls_io::memory::{FileEntry, SureSink, SureStore, have_distinct_names};
use mls_top::run::run;
use std::alloc::Global;
use std::test::Fail;

#[test]
fn infers_over_imports(rt: HostRuntime) -> Result<(), Fail> {
    let rows: [Row; 11] = [
        // The latest import counts, and a binding of the module before it.
        (
            "main.ml import j import k let a = x\nj.mli val x : int\nk.mli val x : bool",
            "val a : bool\n",
            0,
            3,
        ),
        (
            "main.ml import k let x = true let a = x\nk.mli val x : int",
            "val x : bool\nval a : bool\n",
            0,
            2,
        ),
        (
            "main.ml import k let a = {l = id 1, m = id true}\nk.mli val id : a -> a",
            "val a : {l: int, m: bool}\n",
            0,
            2,
        ),
        ("main.ml import k let a = 1\nk.mli ", "val a : int\n", 0, 2),
        // The module that is imported need not be there, but its interface.
        (
            "main.ml import main let a = x\nmain.mli val x : a -> a",
            "val a : a -> a\n",
            0,
            2,
        ),
        (
            "main.ml import j import k let a = b\nj.mli ",
            "k.mli: not found\n",
            4,
            3,
        ),
        (
            "main.ml import j import k\nj.mli val x : int val x : bool",
            "j.mli:1:17: fault 16: name declared twice\n",
            3,
            2,
        ),
        (
            "main.ml import k\nk.mli val x : int ->",
            "k.mli:1:15: fault 11: the type ends too early\n",
            3,
            2,
        ),
        (
            "main.ml import k\nk.mli val x : top",
            "k.mli:1:9: fault 12: not a polar type\n",
            3,
            2,
        ),
        (
            "main.ml import k let b = 1 2 let a = y\nk.mli val x : int",
            "main.ml:1:30: fault 6: unknown name\n",
            3,
            2,
        ),
        (
            "main.ml import k let a = f true\nk.mli val f : int -> int",
            "main.ml:1:18: no scheme for a: bool where int is expected\n",
            1,
            2,
        ),
    ];
    are_answered(&rt, rt.alloc(), "infer", rows.as_slice())?;
    Ok(())
}

#[test]
fn answers_the_first_fault_of_a_second_import(rt: HostRuntime) -> Result<(), Fail> {
    let rows: [Row; 12] = [
        (
            "main.ml import j import k let a = x\nj.mli val x : int\nk.mli val y : @",
            "k.mli:1:9: fault 1: a byte that begins no token\n",
            3,
            3,
        ),
        (
            "main.ml import j import k let a = x\nj.mli val x : int\nk.mli val y : 9223372036854775808",
            "k.mli:1:9: fault 2: a number above 9223372036854775807\n",
            3,
            3,
        ),
        (
            "main.ml import j import k let a = x\nj.mli val x : int\nk.mli val y int",
            "k.mli:1:7: fault 10: unexpected token in a type\n",
            3,
            3,
        ),
        (
            "main.ml import j import k let a = x\nj.mli val x : int\nk.mli let y = 1",
            "k.mli:1:1: fault 10: unexpected token in a type\n",
            3,
            3,
        ),
        (
            "main.ml import j import k let a = x\nj.mli val x : int\nk.mli val y :",
            "k.mli:1:8: fault 11: the type ends too early\n",
            3,
            3,
        ),
        (
            "main.ml import j import k let a = x\nj.mli val x : int\nk.mli val y : bot -> int",
            "k.mli:1:9: fault 12: not a polar type\n",
            3,
            3,
        ),
        (
            "main.ml import j import k let a = x\nj.mli val x : int\nk.mli val y : int & bool",
            "k.mli:1:13: fault 12: not a polar type\n",
            3,
            3,
        ),
        (
            "main.ml import j import k let a = x\nj.mli val x : int\nk.mli val y : rec a. a",
            "k.mli:1:16: fault 13: unguarded recursion\n",
            3,
            3,
        ),
        (
            "main.ml import j import k let a = x\nj.mli val x : int\nk.mli val y : rec a. a -> int",
            "k.mli:1:16: fault 14: contravariant recursion\n",
            3,
            3,
        ),
        (
            "main.ml import j import k let a = x\nj.mli val x : int\nk.mli val y : {l: int, l: int}",
            "k.mli:1:18: fault 15: label given twice\n",
            3,
            3,
        ),
        (
            "main.ml import j import k let a = x\nj.mli val x : int\nk.mli val y : int val y : int",
            "k.mli:1:17: fault 16: name declared twice\n",
            3,
            3,
        ),
        // The second interface is faulty, and the bindings are not looked at.
        (
            "main.ml import j import k let a = 1 2\nj.mli val x : int\nk.mli val y",
            "k.mli:1:6: fault 11: the type ends too early\n",
            3,
            3,
        ),
    ];
    are_answered(&rt, rt.alloc(), "infer", rows.as_slice())?;
    Ok(())
}

#[test]
fn ends_at_the_first_import_that_is_refused(rt: HostRuntime) -> Result<(), Fail> {
    let rows: [Row; 10] = [
        (
            "main.ml import j import k import l let a = x\nj.mli val x : int\nk.mli val y : int",
            "l.mli: not found\n",
            4,
            4,
        ),
        (
            "main.ml import j import k\nk.mli val x : top",
            "j.mli: not found\n",
            4,
            2,
        ),
        (
            "main.ml import j import k\nj.mli val x : top",
            "j.mli:1:9: fault 12: not a polar type\n",
            3,
            2,
        ),
        (
            "main.ml import j import k\nj.mli val x : top\nk.mli val x",
            "j.mli:1:9: fault 12: not a polar type\n",
            3,
            2,
        ),
        (
            "main.ml import j import k let a = y\nj.mli val x : int",
            "k.mli: not found\n",
            4,
            3,
        ),
        // The text of the module has a fault, and no import is looked at.
        (
            "main.ml import j import k let a = )",
            "main.ml:1:27: fault 3: unexpected token\n",
            3,
            1,
        ),
        (
            "main.ml import j import k import j",
            "main.ml:1:26: fault 9: module imported twice\n",
            3,
            1,
        ),
        // The module imports itself: its interface is read as any other.
        (
            "main.ml import main let a = 1",
            "main.mli: not found\n",
            4,
            2,
        ),
        (
            "main.ml import j import main let a = 1\nj.mli \nmain.mli val a",
            "main.mli:1:6: fault 11: the type ends too early\n",
            3,
            3,
        ),
        (
            "main.ml import main let a = x\nmain.mli val y : int",
            "main.ml:1:21: fault 6: unknown name\n",
            3,
            2,
        ),
    ];
    are_answered(&rt, rt.alloc(), "infer", rows.as_slice())?;
    Ok(())
}

#[test]
fn finds_what_imports_declare(rt: HostRuntime) -> Result<(), Fail> {
    let rows: [Row; 13] = [
        (
            "main.ml import j import k import l let a = x\nj.mli val x : int\nk.mli val x : bool\nl.mli val y : int",
            "val a : bool\n",
            0,
            4,
        ),
        (
            "main.ml import k import j let a = x\nj.mli val x : int\nk.mli val x : bool",
            "val a : int\n",
            0,
            3,
        ),
        // Both declare the name, and the module binds it between its uses.
        (
            "main.ml import j import k let a = x let x = {} let b = x\nj.mli val x : int\nk.mli val x : bool",
            "val a : bool\nval x : {}\nval b : {}\n",
            0,
            3,
        ),
        // The latest of two declarations is not usable so, and the first would be.
        (
            "main.ml import j import k let a = f 1\nj.mli val f : int -> int\nk.mli val f : bool -> int",
            "main.ml:1:27: no scheme for a: int where bool is expected\n",
            1,
            3,
        ),
        // An empty interface, alone and beside others.
        (
            "main.ml import j import k let a = x\nj.mli val x : int\nk.mli ",
            "val a : int\n",
            0,
            3,
        ),
        (
            "main.ml import j let a = x\nj.mli ",
            "main.ml:1:18: fault 6: unknown name\n",
            3,
            2,
        ),
        (
            "main.ml import j let a = 1\nj.mli # nothing",
            "val a : int\n",
            0,
            2,
        ),
        // A binder hides a declaration, and so does a let.
        (
            "main.ml import k let a = fun x -> x let b = x\nk.mli val x : int",
            "val a : a -> a\nval b : int\n",
            0,
            2,
        ),
        (
            "main.ml import k let a = let x = true in x\nk.mli val x : int",
            "val a : bool\n",
            0,
            2,
        ),
        // A recursion means itself, and no declaration.
        (
            "main.ml import k let rec f = fun x -> f\nk.mli val f : int",
            "val f : rec a. top -> a\n",
            0,
            2,
        ),
        (
            "main.ml import k let f = fun x -> f\nk.mli val f : int",
            "val f : top -> int\n",
            0,
            2,
        ),
        // Declarations in another order than their uses.
        (
            "main.ml import k let a = {l = p, m = q, n = r}\nk.mli val r : {} val q : bool val p : int",
            "val a : {l: int, m: bool, n: {}}\n",
            0,
            2,
        ),
        // The module imports itself, and its binding is another one than it declares.
        (
            "main.ml import main let a = true let b = c\nmain.mli val c : int val a : int",
            "val a : bool\nval b : int\n",
            0,
            2,
        ),
    ];
    are_answered(&rt, rt.alloc(), "infer", rows.as_slice())?;
    Ok(())
}

#[test]
fn compares_modules_with_imports(rt: HostRuntime) -> Result<(), Fail> {
    let rows: [Row; 12] = [
        (
            "main.ml import j import k let a = x\nj.mli val x : int\nmain.mli val a : int",
            "k.mli: not found\n",
            4,
            3,
        ),
        (
            "main.ml import j import k let a = x\nj.mli val x : int\nk.mli val x\nmain.mli val",
            "k.mli:1:6: fault 11: the type ends too early\n",
            3,
            3,
        ),
        (
            "main.ml import k let a = x\nk.mli val x : int",
            "main.mli: not found\n",
            4,
            3,
        ),
        (
            "main.ml import k let a = x\nk.mli val x : int\nmain.mli val a : top",
            "main.mli:1:9: fault 12: not a polar type\n",
            3,
            3,
        ),
        (
            "main.ml import k let a = x\nk.mli val x : int\nmain.mli ",
            "main matches main.mli\n",
            0,
            3,
        ),
        // Declarations in another order than the bindings.
        (
            "main.ml let a = 1 let b = true let c = {}\nmain.mli val c : {} val a : int val b : bool",
            "main matches main.mli\n",
            0,
            2,
        ),
        (
            "main.ml let a = 1 let b = true let c = {}\nmain.mli val c : {} val b : int val a : bool",
            "main: val b is not general enough at root (bool)\n",
            2,
            2,
        ),
        (
            "main.ml let b = true let a = 1\nmain.mli val a : int val d : int val b : int",
            "main: val d is declared and not bound\n",
            2,
            2,
        ),
        // A name that only an import declares is not bound.
        (
            "main.ml import k let a = x\nk.mli val x : int\nmain.mli val x : int",
            "main: val x is declared and not bound\n",
            2,
            3,
        ),
        // The latest of two imports counts for the comparison too.
        (
            "main.ml import j import k let a = x\nj.mli val x : int\nk.mli val x : bool\nmain.mli val a : int",
            "main: val a is not general enough at root (bool)\n",
            2,
            4,
        ),
        // The module imports itself with a declaration that it does not bind.
        (
            "main.ml import main let a = x\nmain.mli val x : int",
            "main: val x is declared and not bound\n",
            2,
            2,
        ),
        (
            "main.ml import main let a = 1\nmain.mli val a",
            "main.mli:1:6: fault 11: the type ends too early\n",
            3,
            2,
        ),
    ];
    are_answered(&rt, rt.alloc(), "check", rows.as_slice())?;
    Ok(())
}

// A file of this name with this text.
fn file_of(alloc: Global, name: &str, text: &str) -> Result<FileEntry, Memory> {
    Ok(FileEntry {
        name: String::from_str(alloc, name)?,
        bytes: Vec::from_slice(alloc, text.as_bytes())?,
    })
}

#[test]
fn prints_nothing_for_imports_alone(rt: HostRuntime) -> Result<(), Fail> {
    let alloc = rt.alloc();
    let files = vec![in alloc;
        file_of(alloc, "main.ml", "import a\nimport b\n")?,
        file_of(alloc, "a.mli", "")?,
        file_of(alloc, "b.mli", "")?,
    ]?;
    assert!(rt; have_distinct_names(files.as_slice()));
    let mut store = SureStore::new(alloc, files)?;
    let mut sink = SureSink::new(alloc);
    let words = words_of(alloc, &["infer", "main"])?;
    let status = run(alloc, &words, &mut store, &mut sink);
    assert_eq!(rt; status.code(), 0);
    assert_eq!(rt; sink.bytes(), b"".as_slice());
    Ok(())
}
