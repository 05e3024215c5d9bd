//! Modules beside their interfaces.
use crate::samples::{MODULES, Row, answered, are_answered, are_answered_of};
use std::test::Fail;

#[test]
fn compares_the_identity(rt: HostRuntime) -> Result<(), Fail> {
    let rows: [Row; 8] = [
        (
            "id.ml let id = fun x -> x\nid.mli val id : int -> int",
            "id matches id.mli\n",
            0,
            2,
        ),
        (
            "id.ml let id = fun x -> x\nid.mli val id : a & int -> a | int",
            "id matches id.mli\n",
            0,
            2,
        ),
        (
            "id.ml let id = fun x -> x\nid.mli val id : (rec a. {next: a}) -> rec a. {next: a}",
            "id matches id.mli\n",
            0,
            2,
        ),
        (
            "id.ml let id = fun x -> x\nid.mli val id : a -> b",
            "id: val id is not general enough at root.cod (flow)\n",
            2,
            2,
        ),
        (
            "id.ml let id = fun x -> x\nid.mli val id : int -> bool",
            "id: val id is not general enough at root.cod (flow)\n",
            2,
            2,
        ),
        (
            "id.ml let id = fun x -> x\nid.mli val id : {}",
            "id: val id is not general enough at root (function)\n",
            2,
            2,
        ),
        (
            "id.ml let id = fun x -> x\nid.mli val k : int",
            "id: val k is declared and not bound\n",
            2,
            2,
        ),
        (
            "id.ml let id = fun x -> x\nid.mli ",
            "id matches id.mli\n",
            0,
            2,
        ),
    ];
    are_answered_of(&rt, rt.alloc(), "check", "id", rows.as_slice())?;
    Ok(())
}

#[test]
fn compares_an_empty_record(rt: HostRuntime) -> Result<(), Fail> {
    let rows: [Row; 1] = [(
        "e.ml let e = {}\ne.mli val e : {a: int}",
        "e: val e is not general enough at root (field a)\n",
        2,
        2,
    )];
    are_answered_of(&rt, rt.alloc(), "check", "e", rows.as_slice())?;
    Ok(())
}

#[test]
fn compares_modules(rt: HostRuntime) -> Result<(), Fail> {
    let rows: [Row; 9] = [
        (
            "main.ml let f = fun x -> {l = {}}\nmain.mli val f : int -> {l: {k: int}}",
            "main: val f is not general enough at root.cod.{l} (field k)\n",
            2,
            2,
        ),
        (
            "main.ml let f = fun g -> g 1\nmain.mli val f : (bool -> a) -> a",
            "main: val f is not general enough at root.dom.dom (int)\n",
            2,
            2,
        ),
        // The first declaration that fails is told.
        (
            "main.ml let a = 1 let b = true\nmain.mli val b : bool val a : bool val c : int",
            "main: val a is not general enough at root (int)\n",
            2,
            2,
        ),
        ("main.ml let a = 1", "main.mli: not found\n", 4, 2),
        (
            "main.ml let a = 1\nmain.mli val a = 1",
            "main.mli:1:7: fault 10: unexpected token in a type\n",
            3,
            2,
        ),
        // The module has no signature, and its interface is not looked at.
        (
            "main.ml let a = 1 2",
            "main.ml:1:9: no scheme for a: int where a function is expected\n",
            1,
            1,
        ),
        // The module imports itself: its interface is read once.
        (
            "main.ml import main let a = 1 let b = a\nmain.mli val a : int",
            "main matches main.mli\n",
            0,
            2,
        ),
        (
            "main.ml import k import main let a = true\nmain.mli val a : int\nk.mli val a : bool",
            "main: val a is not general enough at root (bool)\n",
            2,
            3,
        ),
        (
            "main.ml import k let a = f 1\nk.mli val f : a -> {l: a}\nmain.mli val a : {l: int}",
            "main matches main.mli\n",
            0,
            3,
        ),
    ];
    are_answered(&rt, rt.alloc(), "check", rows.as_slice())?;
    Ok(())
}

#[test]
fn infers_and_compares_modules_that_work_together(rt: HostRuntime) -> Result<(), Fail> {
    for (name, printed, matches) in [
        (
            "pairs",
            "val pair : a -> b -> {fst: a, snd: b}\nval swap : {fst: a, snd: b} -> {fst: b, snd: a}\n",
            "pairs matches pairs.mli\n",
        ),
        (
            "church",
            "val tt : a -> top -> a\nval ff : top -> a -> a\nval cond : (a -> b -> c) -> a -> b -> c\n",
            "church matches church.mli\n",
        ),
        (
            "counter",
            "val counter : int -> rec a. {next: top -> a, now: int}\n",
            "counter matches counter.mli\n",
        ),
        (
            "main",
            "val p : {fst: int, snd: bool}\nval q : {fst: bool, snd: int}\nval c : rec a. {next: {} -> a, now: int}\nval d : int\nval r : bool\n",
            "main matches main.mli\n",
        ),
    ] {
        let (said, code, _) = answered(rt.alloc(), "infer", name, MODULES, 0)?;
        assert_eq!(rt; said.as_slice(), printed.as_bytes());
        assert_eq!(rt; code, 0, "{name}");
        let (said, code, _) = answered(rt.alloc(), "check", name, MODULES, 0)?;
        assert_eq!(rt; said.as_slice(), matches.as_bytes());
        assert_eq!(rt; code, 0, "{name}");
    }
    Ok(())
}
