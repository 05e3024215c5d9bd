//! What is refused where a derivation is asked for.
use crate::samples::{Row, are_answered};
use std::test::Fail;

#[test]
fn derives_nothing_where_no_types_are_inferred(rt: HostRuntime) -> Result<(), Fail> {
    let rows: [Row; 12] = [
        ("", "main.ml: not found\n", 4, 1),
        (
            "main.ml let a =",
            "main.ml:1:8: fault 4: the text ends too early\n",
            3,
            1,
        ),
        (
            "main.ml import k import k",
            "main.ml:1:17: fault 9: module imported twice\n",
            3,
            1,
        ),
        (
            "main.ml import j import k let a = b\nj.mli ",
            "k.mli: not found\n",
            4,
            3,
        ),
        (
            "main.ml import k\nk.mli val x : int ->",
            "k.mli:1:15: fault 11: the type ends too early\n",
            3,
            2,
        ),
        (
            "main.ml import j import k\nj.mli val x : int val x : bool",
            "j.mli:1:17: fault 16: name declared twice\n",
            3,
            2,
        ),
        (
            "main.ml let a = b",
            "main.ml:1:9: fault 6: unknown name\n",
            3,
            1,
        ),
        (
            "main.ml import k let b = 1 2 let a = y\nk.mli val x : int",
            "main.ml:1:30: fault 6: unknown name\n",
            3,
            2,
        ),
        (
            "main.ml let a = 1 2",
            "main.ml:1:9: no scheme for a: int where a function is expected\n",
            1,
            1,
        ),
        (
            "main.ml import k let a = f true\nk.mli val f : int -> int",
            "main.ml:1:18: no scheme for a: bool where int is expected\n",
            1,
            2,
        ),
        (
            "main.ml let a = 1 let b = a true",
            "main.ml:1:19: no scheme for b: int where a function is expected\n",
            1,
            1,
        ),
        (
            "main.ml let a = {l = 1}.m\nmain.mld derivation 1",
            "main.ml:1:17: no scheme for a: a record without the field m\n",
            1,
            1,
        ),
    ];
    are_answered(&rt, rt.alloc(), "derive", rows.as_slice())?;
    Ok(())
}
