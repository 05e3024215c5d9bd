//! Bindings without a scheme.
use crate::samples::inferred;
use mls_base::memory::Memory;
use std::alloc::Global;
use std::process::Abort;
use std::test::Fail;

// Tests the lines of modules that have a binding without a scheme.
fn are_refused(rt: &impl Abort, alloc: Global, rows: &[(&str, &str)]) -> Result<(), Memory> {
    for (text, printed) in rows {
        let (said, code) = inferred(alloc, text.as_bytes())?;
        assert_eq!(rt; said.as_slice(), printed.as_bytes(), "{text}");
        assert_eq!(rt; code, 1, "{text}");
    }
    Ok(())
}

#[test]
fn tells_each_kind_of_a_clash(rt: HostRuntime) -> Result<(), Fail> {
    let rows = [
        (
            "let bad = {a = 1}.b",
            "main.ml:1:19: no scheme for bad: a record without the field b\n",
        ),
        (
            "let bad = 1 2",
            "main.ml:1:11: no scheme for bad: int where a function is expected\n",
        ),
        (
            "let bad = true + 1",
            "main.ml:1:16: no scheme for bad: bool where int is expected\n",
        ),
        (
            "let a = true 1",
            "main.ml:1:9: no scheme for a: bool where a function is expected\n",
        ),
        (
            "let a = {} 1",
            "main.ml:1:9: no scheme for a: a record where a function is expected\n",
        ),
        (
            "let a = 1.l",
            "main.ml:1:11: no scheme for a: int where a record is expected\n",
        ),
        (
            "let a = true.l",
            "main.ml:1:14: no scheme for a: bool where a record is expected\n",
        ),
        (
            "let a = (fun x -> x).l",
            "main.ml:1:22: no scheme for a: a function where a record is expected\n",
        ),
        (
            "let a = if 1 then 2 else 3",
            "main.ml:1:9: no scheme for a: int where bool is expected\n",
        ),
        (
            "let a = if {} then 2 else 3",
            "main.ml:1:9: no scheme for a: a record where bool is expected\n",
        ),
        (
            "let a = if fun x -> x then 2 else 3",
            "main.ml:1:9: no scheme for a: a function where bool is expected\n",
        ),
        (
            "let a = 1 < {}",
            "main.ml:1:11: no scheme for a: a record where int is expected\n",
        ),
        (
            "let a = 1 == (fun x -> x)",
            "main.ml:1:11: no scheme for a: a function where int is expected\n",
        ),
    ];
    are_refused(&rt, rt.alloc(), rows.as_slice())?;
    Ok(())
}

#[test]
fn tells_clashes_of_uses(rt: HostRuntime) -> Result<(), Fail> {
    let rows = [
        (
            "let a = (fun x -> x + 1) true",
            "main.ml:1:9: no scheme for a: bool where int is expected\n",
        ),
        (
            "let a = (fun f -> f 1) 2",
            "main.ml:1:9: no scheme for a: int where a function is expected\n",
        ),
        (
            "let a = (fun r -> r.l) {k = 1}",
            "main.ml:1:9: no scheme for a: a record without the field l\n",
        ),
        (
            "let a = (fun b -> if b then 1 else 2) 3",
            "main.ml:1:9: no scheme for a: int where bool is expected\n",
        ),
        (
            "let a = (if true then 1 else false) + 1",
            "main.ml:1:37: no scheme for a: bool where int is expected\n",
        ),
        (
            "let a = (if true then {l = 1} else {}).l",
            "main.ml:1:40: no scheme for a: a record without the field l\n",
        ),
        (
            "let rec f = fun x -> f + 1",
            "main.ml:1:5: no scheme for f: a function where int is expected\n",
        ),
        (
            "let a = {l = rec f -> fun x -> f.k}",
            "main.ml:1:14: no scheme for a: a function where a record is expected\n",
        ),
        (
            "let a = let f = fun x -> x + 1 in f true",
            "main.ml:1:35: no scheme for a: bool where int is expected\n",
        ),
        (
            "let a = let u = 1 2 in 3",
            "main.ml:1:17: no scheme for a: int where a function is expected\n",
        ),
        (
            "let a = fun x -> let f = fun y -> x + y in {p = f 1, q = f true}",
            "main.ml:1:58: no scheme for a: bool where int is expected\n",
        ),
        (
            "let a = let k = let j = {} 1 in 2 in 3 4",
            "main.ml:1:25: no scheme for a: a record where a function is expected\n",
        ),
    ];
    are_refused(&rt, rt.alloc(), rows.as_slice())?;
    Ok(())
}

#[test]
fn tells_the_first_binding_without_a_scheme(rt: HostRuntime) -> Result<(), Fail> {
    let rows = [
        (
            "let ok = 1\nlet bad = ok ok",
            "main.ml:2:11: no scheme for bad: int where a function is expected\n",
        ),
        (
            "let one = 1 2\nlet two = {} 1",
            "main.ml:1:11: no scheme for one: int where a function is expected\n",
        ),
        (
            "let x = true let f = fun x -> x + 1 let z = x + 1",
            "main.ml:1:47: no scheme for z: bool where int is expected\n",
        ),
        (
            "let id = fun x -> x\nlet n = id 1\n\nlet b = n.l",
            "main.ml:4:11: no scheme for b: int where a record is expected\n",
        ),
        (
            "let f = fun x -> x + 1 let g = fun b -> f b let h = g true",
            "main.ml:1:53: no scheme for h: bool where int is expected\n",
        ),
        (
            "let get = fun r -> r.l let no = get {k = 1}",
            "main.ml:1:33: no scheme for no: a record without the field l\n",
        ),
    ];
    are_refused(&rt, rt.alloc(), rows.as_slice())?;
    Ok(())
}
