//! Signatures of modules.
use crate::samples::inferred;
use mls_base::memory::Memory;
use std::alloc::Global;
use std::process::Abort;
use std::test::Fail;

// Tests the signatures of modules.
fn are_signed(rt: &impl Abort, alloc: Global, rows: &[(&str, &str)]) -> Result<(), Memory> {
    for (text, printed) in rows {
        let (said, code) = inferred(alloc, text.as_bytes())?;
        assert_eq!(rt; said.as_slice(), printed.as_bytes(), "{text}");
        assert_eq!(rt; code, 0, "{text}");
    }
    Ok(())
}

#[test]
fn prints_signatures(rt: HostRuntime) -> Result<(), Fail> {
    let rows = [
        ("let id = fun x -> x", "val id : a -> a\n"),
        ("", ""),
        ("let e = {}", "val e : {}\n"),
        ("# nothing", ""),
        ("let n = 9223372036854775807", "val n : int\n"),
        ("let k = fun x -> fun y -> x", "val k : a -> top -> a\n"),
        ("let k = fun x -> fun y -> y", "val k : top -> a -> a\n"),
        ("let s = fun x -> fun x -> x", "val s : top -> a -> a\n"),
        ("let c = fun x -> 7", "val c : top -> int\n"),
        (
            "let t = true # and\nlet f = (fun y -> ((false)))\nlet n = 0",
            "val t : bool\nval f : top -> bool\nval n : int\n",
        ),
    ];
    are_signed(&rt, rt.alloc(), rows.as_slice())?;
    Ok(())
}

#[test]
fn infers_modules(rt: HostRuntime) -> Result<(), Fail> {
    let rows = [
        (
            "let twice = fun f -> fun x -> f (f x)",
            "val twice : (a | b -> a) -> b -> a\n",
        ),
        ("let self = fun x -> x x", "val self : a & (a -> b) -> b\n"),
        (
            "let pick = fun b -> if b then 1 else true",
            "val pick : bool -> bool | int\n",
        ),
        ("let rec f = fun x -> f", "val f : rec a. top -> a\n"),
        (
            "let get = fun r -> {a = r, b = r.a}",
            "val get : a & {a: b} -> {a: a, b: b}\n",
        ),
        (
            "let p = let i = fun x -> x in {a = i 1, b = i true}",
            "val p : {a: int, b: bool}\n",
        ),
        (
            "let q = fun x -> let y = x in y + 1",
            "val q : int -> int\n",
        ),
        (
            "let s = fun x -> let f = fun y -> x in fun x -> f x",
            "val s : a -> top -> a\n",
        ),
        ("let w = (fun x -> x x) (fun x -> x x)", "val w : bot\n"),
        (
            "let fix = fun f -> (fun x -> f (x x)) (fun x -> f (x x))",
            "val fix : (a -> a) -> a\n",
        ),
        (
            "let n = fun b -> if b then b else false",
            "val n : bool -> bool\n",
        ),
        (
            "let comp = fun f -> fun g -> fun x -> f (g x)",
            "val comp : (a -> b) -> (c -> a) -> c -> b\n",
        ),
        // A let whose scheme has an environment, used twice.
        (
            "let s = fun x -> let f = fun y -> {a = x, b = y} in {p = f 1, q = f true}",
            "val s : a -> {p: {a: a, b: int}, q: {a: a, b: bool}}\n",
        ),
        (
            "let t = fun x -> let f = fun y -> x in {p = f 1 + 1, q = if f 1 then 1 else 2}",
            "val t : bool & int -> {p: int, q: int}\n",
        ),
        // A recursion that does not use itself, and one that is nothing else.
        ("let r = rec f -> 1", "val r : int\n"),
        ("let r = rec f -> f", "val r : bot\n"),
    ];
    are_signed(&rt, rt.alloc(), rows.as_slice())?;
    Ok(())
}

#[test]
fn infers_bindings_behind_others(rt: HostRuntime) -> Result<(), Fail> {
    let rows = [
        (
            "let id = fun x -> x let p = {a = id 1, b = id true} let n = p.a + 1",
            "val id : a -> a\nval p : {a: int, b: bool}\nval n : int\n",
        ),
        (
            "let x = 1 let y = fun x -> x let z = x + 1",
            "val x : int\nval y : a -> a\nval z : int\n",
        ),
        (
            "let a = let x = 1 in let x = true in if x then 1 else 2",
            "val a : int\n",
        ),
        (
            "let f = fun x -> fun x -> x + 1 let g = f true 1",
            "val f : top -> int -> int\nval g : int\n",
        ),
        (
            "let rec count = fun n -> if n < 1 then 0 else count (n - 1) let c = count 3 == 0",
            "val count : int -> int\nval c : bool\n",
        ),
        (
            "let pair = fun x -> fun y -> {fst = x, snd = y} let p = pair 1 true let b = if p.snd then p.fst else 0",
            "val pair : a -> b -> {fst: a, snd: b}\nval p : {fst: int, snd: bool}\nval b : int\n",
        ),
    ];
    are_signed(&rt, rt.alloc(), rows.as_slice())?;
    Ok(())
}

// A record of 32 parts, each of four kinds, which leave states behind or do not.
const WIDE: &str =
    "let r = fun x -> fun f -> {l10 = x + 1, l11 = f x, l12 = fun y -> x, l13 = if f x then 1 else true, l14 = x + 1, l15 = f x, l16 = fun y -> x, l17 = if f x then 1 else true, l18 = x + 1, l19 = f x, l20 = fun y -> x, l21 = if f x then 1 else true, l22 = x + 1, l23 = f x, l24 = fun y -> x, l25 = if f x then 1 else true, l26 = x + 1, l27 = f x, l28 = fun y -> x, l29 = if f x then 1 else true, l30 = x + 1, l31 = f x, l32 = fun y -> x, l33 = if f x then 1 else true, l34 = x + 1, l35 = f x, l36 = fun y -> x, l37 = if f x then 1 else true, l38 = x + 1, l39 = f x, l40 = fun y -> x, l41 = if f x then 1 else true}";

const WIDE_SIGNATURE: &str =
    "val r : a & int -> (a -> b & bool) -> {l10: int, l11: b, l12: top -> a, l13: bool | int, l14: int, l15: b, l16: top -> a, l17: bool | int, l18: int, l19: b, l20: top -> a, l21: bool | int, l22: int, l23: b, l24: top -> a, l25: bool | int, l26: int, l27: b, l28: top -> a, l29: bool | int, l30: int, l31: b, l32: top -> a, l33: bool | int, l34: int, l35: b, l36: top -> a, l37: bool | int, l38: int, l39: b, l40: top -> a, l41: bool | int}\n";

#[test]
fn parts_of_a_wide_record_have_their_types(rt: HostRuntime) -> Result<(), Fail> {
    let rows = [(WIDE, WIDE_SIGNATURE)];
    are_signed(&rt, rt.alloc(), rows.as_slice())?;
    Ok(())
}
