//! Fetches and puts that fail.
use crate::samples::{ListedStore, MODULES, answered, words_of};
use mls_base::memory::Memory;
use mls_io::failing::{FailAt, MemSink};
use mls_top::run::run;
use std::alloc::Global;
use std::process::Abort;
use std::test::Fail;

#[test]
fn ends_at_each_fetch_that_fails(rt: HostRuntime) -> Result<(), Fail> {
    let files =
        "main.ml import j import k let a = f 1\nj.mli val f : int -> int\nk.mli val g : bool\nmain.mli val a : int";
    for (command, failing, printed, code, fetches) in [
        ("infer", 1, "", 5, 1),
        ("infer", 2, "", 5, 2),
        ("infer", 3, "", 5, 3),
        ("infer", 4, "val a : int\n", 0, 3),
        ("check", 1, "", 5, 1),
        ("check", 2, "", 5, 2),
        ("check", 3, "", 5, 3),
        ("check", 4, "", 5, 4),
        ("check", 5, "main matches main.mli\n", 0, 4),
        ("derive", 1, "", 5, 1),
        ("derive", 2, "", 5, 2),
        ("derive", 3, "", 5, 3),
        ("verify", 1, "", 5, 1),
        ("verify", 2, "", 5, 2),
        ("verify", 3, "", 5, 3),
        ("verify", 4, "", 5, 4),
        ("verify", 5, "main.mld: not found\n", 4, 4),
    ] {
        let (said, status, count) = answered(rt.alloc(), command, "main", files, failing)?;
        assert_eq!(rt; said.as_slice(), printed.as_bytes(), "{command}");
        assert_eq!(rt; status, code, "{command}");
        assert_eq!(rt; count, fetches, "{command}");
    }
    Ok(())
}

#[test]
fn ends_at_each_fetch_of_four_modules_that_fails(rt: HostRuntime) -> Result<(), Fail> {
    let signature = "val p : {fst: int, snd: bool}
val q : {fst: bool, snd: int}
val c : rec a. {next: {} -> a, now: int}
val d : int
val r : bool
";
    for (command, failing, printed, code) in [
        ("infer", 1, "", 5),
        ("infer", 2, "", 5),
        ("infer", 3, "", 5),
        ("infer", 4, "", 5),
        ("infer", 5, signature, 0),
        ("check", 4, "", 5),
        ("check", 5, "", 5),
        ("check", 6, "main matches main.mli\n", 0),
    ] {
        let (said, status, _) = answered(rt.alloc(), command, "main", MODULES, failing)?;
        assert_eq!(rt; said.as_slice(), printed.as_bytes(), "{command}");
        assert_eq!(rt; status, code, "{command}");
    }
    Ok(())
}

// What words write over the four modules, and the code, where this put fails.
fn written(alloc: Global, words: &[&str], failing: FailAt) -> Result<(Vec<u8>, u8), Memory> {
    let words = words_of(alloc, words)?;
    let mut store = ListedStore::new(MODULES, 0);
    let mut sink = MemSink::new(alloc, vec![in alloc; failing]?)?;
    let status = run(alloc, &words, &mut store, &mut sink);
    Ok((Vec::from_slice(alloc, sink.bytes())?, status.code()))
}

// Tests that the put of a line that fails keeps each number of bytes of it, behind the lines before.
fn keeps_fronts(
    rt: &impl Abort,
    alloc: Global,
    words: &[&str],
    before: &str,
    line: &str,
) -> Result<(), Memory> {
    let call = before
        .as_bytes()
        .iter()
        .filter(|byte| **byte == b'\n')
        .count() as u64;
    let mut whole = Vec::from_slice(alloc, before.as_bytes())?;
    whole.extend_from_slice(line.as_bytes())?;
    for kept in 0..=line.len() {
        let (said, code) = written(alloc, words, FailAt { call, kept })?;
        let front = whole.as_slice().get(..before.len().saturating_add(kept));
        assert_eq!(rt; Some(said.as_slice()), front, "{line}");
        assert_eq!(rt; code, 6, "{line}");
    }
    Ok(())
}

#[test]
fn keeps_each_front_of_an_answer(rt: HostRuntime) -> Result<(), Fail> {
    let first = "val p : {fst: int, snd: bool}\n";
    let two = "val p : {fst: int, snd: bool}\nval q : {fst: bool, snd: int}\n";
    let three = "val p : {fst: int, snd: bool}
val q : {fst: bool, snd: int}
val c : rec a. {next: {} -> a, now: int}
";
    let four = "val p : {fst: int, snd: bool}
val q : {fst: bool, snd: int}
val c : rec a. {next: {} -> a, now: int}
val d : int
";
    let infer = ["infer", "main"];
    for (words, before, line) in [
        (infer.as_slice(), "", first),
        (infer.as_slice(), first, "val q : {fst: bool, snd: int}\n"),
        (
            infer.as_slice(),
            two,
            "val c : rec a. {next: {} -> a, now: int}\n",
        ),
        (infer.as_slice(), three, "val d : int\n"),
        (infer.as_slice(), four, "val r : bool\n"),
        (&["check", "main"].as_slice(), "", "main matches main.mli\n"),
        (
            &["check", "absent"].as_slice(),
            "",
            "absent.ml: not found\n",
        ),
        (
            &["derive", "absent"].as_slice(),
            "",
            "absent.ml: not found\n",
        ),
        (&["verify", "main"].as_slice(), "", "main.mld: not found\n"),
        (
            &["generate", "1", "4"].as_slice(),
            "",
            "generate: 4 bindings, 182 bytes in, 120 bytes out\n",
        ),
        (&["infer"].as_slice(), "", "usage: mlsub COMMAND OPERANDS\n"),
    ] {
        keeps_fronts(&rt, rt.alloc(), words, before, line)?;
    }
    Ok(())
}
