//! Derivations of the types of modules.
use crate::samples::{MODULES, Row, are_answered, text_among, words_of};
use mls_base::memory::Memory;
use mls_io::memory::SureSink;
use mls_io::store::{Fetch, Store};
use mls_top::run::run;
use std::alloc::Global;
use std::process::Abort;
use std::test::Fail;

// A store of files, each on a line with its name before its text, and of a derivation of this module beside them. It
// tells nothing of them.
#[derive(Drop)]
struct DerivedStore<'a> {
    files: &'a str,
    name: &'a str,
    derivation: &'a str,
    has_missed: bool,
    has_cut: bool,
}

impl<'a> DerivedStore<'a> {
    // The text of the file of this name.
    fn text(&self, name: &str) -> Option<&'a str> {
        match name.strip_suffix(".mld") {
            Some(module) if module == self.name => Some(self.derivation),
            _ => text_among(self.files, name),
        }
    }
}

impl<'a> Store for DerivedStore<'a> {
    ghost use Rattle.std.specs.Prelude.{None, false};

    ghost holdings = { λ store. record {
      files = None;
      faults = record { value = 0; is_worn = false };
      misses = record { value = 0; is_worn = store.has_missed };
      longs = record { value = 0; is_worn = store.has_cut };
    } };

    fn fetch(&mut self, name: &str, limit: usize, into: &mut Vec<u8>) -> Fetch {
        let Some(text) = self.text(name) else {
            self.has_missed = true;
            return Fetch::Missing;
        };
        if text.len() > limit {
            self.has_cut = true;
            return Fetch::Long;
        }
        match into.extend_from_slice(text.as_bytes()) {
            Ok(_) => Fetch::Found,
            Err(_) => Fetch::Memory,
        }
    }
}

// What a command on a module prints over these files and this derivation, and the code.
fn answered_beside(
    alloc: Global,
    command: &str,
    name: &str,
    files: &str,
    derivation: &str,
) -> Result<(Vec<u8>, u8), Memory> {
    let words = words_of(alloc, &[command, name])?;
    let mut store = DerivedStore {
        files,
        name,
        derivation,
        has_missed: false,
        has_cut: false,
    };
    let mut sink = SureSink::new(alloc);
    let status = run(alloc, &words, &mut store, &mut sink);
    Ok((Vec::from_slice(alloc, sink.bytes())?, status.code()))
}

// The lines of a text that begin with `val`.
fn vals_in(alloc: Global, text: &str) -> Result<String, Memory> {
    let mut vals = String::new(alloc);
    for line in text.split_terminator('\n') {
        if line.starts_with("val ") {
            vals.push_str(line)?;
            vals.push_str("\n")?;
        }
    }
    Ok(vals)
}

// Tests that the derivation that is printed for a module states the types of its signature, and is verified.
fn is_derived(rt: &impl Abort, alloc: Global, name: &str, files: &str) -> Result<(), Memory> {
    let (printed, code) = answered_beside(alloc, "derive", name, files, "")?;
    assert_eq!(rt; code, 0, "{files}");
    let derivation = str::from_utf8(printed.as_slice()).unwrap_or("");
    let (signature, _) = answered_beside(alloc, "infer", name, files, "")?;
    assert_eq!(rt;
        vals_in(alloc, derivation)?.as_bytes(),
        signature.as_slice(),
        "{files}"
    );
    let (said, code) = answered_beside(alloc, "verify", name, files, derivation)?;
    let mut wanted = String::from_str(alloc, name)?;
    wanted.push_str(" is verified\n")?;
    assert_eq!(rt; said.as_slice(), wanted.as_bytes(), "{files}");
    assert_eq!(rt; code, 0, "{files}");
    Ok(())
}

/// The same for the module `main` that is this text alone.
pub(crate) fn text_is_derived(rt: &impl Abort, alloc: Global, text: &str) -> Result<(), Memory> {
    let mut files = String::from_str(alloc, "main.ml ")?;
    files.push_str(text)?;
    is_derived(rt, alloc, "main", files.as_str())
}

#[test]
fn derives_what_is_verified(rt: HostRuntime) -> Result<(), Fail> {
    for text in [
        "let id = fun x -> x",
        "let first = fun x -> fun y -> x let second = fun x -> fun y -> y",
        "let seven = fun x -> 7 let yes = true let n = 0",
        "let e = {} let r = {a = 1, b = true} let a = r.a",
        "let twice = fun f -> fun x -> f (f x)",
        "let self = fun x -> x x",
        "let pick = fun b -> if b then 1 else true",
        "let rec f = fun x -> f",
        "let get = fun r -> {a = r, b = r.a}",
        "let p = let i = fun x -> x in {a = i 1, b = i true}",
        "let q = fun x -> let y = x in y + 1",
        "let s = fun x -> let f = fun y -> x in fun x -> f x",
        "let w = (fun x -> x x) (fun x -> x x)",
        "let fix = fun f -> (fun x -> f (x x)) (fun x -> f (x x))",
        "let comp = fun f -> fun g -> fun x -> f (g x)",
        "let s = fun x -> let f = fun y -> {a = x, b = y} in {p = f 1, q = f true}",
        "let t = fun x -> let f = fun y -> x in {p = f 1 + 1, q = if f 1 then 1 else 2}",
        "let r = rec f -> 1 let b = rec f -> f",
        "let id = fun x -> x let p = {a = id 1, b = id true} let n = p.a + 1",
        "let x = 1 let y = fun x -> x let z = x + 1",
        "let rec count = fun n -> if n < 1 then 0 else count (n - 1) let c = count 3 == 0",
        "let k = fun f -> let g = f in let h = g in {a = h 1, b = g}",
        "let chain = fun x -> fun y -> x y x y x let way = fun x -> x.l.l.l",
        "let args = fun f -> f 1 1 1 let id = fun x -> x let ids = id id id 1",
        "let unused = fun x -> fun y -> {a = fun z -> y, b = fun y -> fun x -> 1}",
    ] {
        text_is_derived(&rt, rt.alloc(), text)?;
    }
    Ok(())
}

#[test]
fn a_chain_has_no_pairs_of_the_type_that_is_left(rt: HostRuntime) -> Result<(), Fail> {
    let mut files = String::from_str(rt.alloc(), "main.ml let v = fun f -> f")?;
    for _ in 0..200 {
        files.push_str(" 1")?;
    }
    let (printed, code) = answered_beside(rt.alloc(), "derive", "main", files.as_str(), "")?;
    assert_eq!(rt; code, 0);
    // With them it has 1.9 MB.
    assert!(rt; printed.len() < 60_000);
    Ok(())
}

#[test]
fn derives_over_what_imports_declare(rt: HostRuntime) -> Result<(), Fail> {
    for name in ["pairs", "church", "counter", "main"] {
        is_derived(&rt, rt.alloc(), name, MODULES)?;
    }
    for files in [
        "main.ml import j import k let a = x\nj.mli val x : int\nk.mli val x : bool",
        "main.ml import k let a = {l = id 1, m = id true}\nk.mli val id : a -> a",
        "main.ml import main let a = x\nmain.mli val x : a -> a",
        "main.ml import k let a = (s.next {}).now let b = s\nk.mli val s : rec a. {next: {} -> a, now: int}",
        "main.ml import k let a = fun b -> f b\nk.mli val f : bool -> bool | int",
        "main.ml import k let a = t (fun x -> x)\nk.mli val t : (a | b -> a) -> b -> a",
    ] {
        is_derived(&rt, rt.alloc(), "main", files)?;
    }
    Ok(())
}

// Derivations of an application to one argument and to two, which end with it: no step by pairs stands behind it.
const ONE: &str = "derivation 1
val one : int
node int
node fn 2 3
node var 0
node var 0
node int
node fn 4 0
step 0 name 1 env type 1
step 1 lit env type 4
step 0 sub 0 env type 5
put 0 4
pair lr 1 5
pair rl 4 2
pair lr 3 0
pair pp 4 4
pair pp 4 0
step 2 app 2 1 env type 0
end
";

const TWO: &str = "derivation 1
val two : int
node int
node fn 2 3
node var 0
node fn 4 5
node var 1
node var 0
node bool
node int
node fn 6 0
node fn 7 8
step 0 name 1 env type 1
step 1 lit env type 7
step 0 sub 0 env type 9
put 0 7
put 1 6
pair lr 1 9
pair rl 7 2
pair lr 3 8
pair pp 7 7
pair rl 6 4
pair lr 5 0
pair pp 6 6
pair pp 7 0
step 2 app 2 1 env type 8
step 3 lit env type 6
step 4 app 3 4 env type 0
end
";

#[test]
fn an_application_has_the_type_of_its_binding_at_once(rt: HostRuntime) -> Result<(), Fail> {
    let rows: [Row; 2] = [
        (
            "main.ml import k let one = id 1\nk.mli val id : a -> a",
            ONE,
            0,
            2,
        ),
        (
            "main.ml import k let two = const 1 true\nk.mli val const : a -> b -> a",
            TWO,
            0,
            2,
        ),
    ];
    are_answered(&rt, rt.alloc(), "derive", rows.as_slice())?;
    Ok(())
}

// Derivations of a sum of one binder, which has one node in all of it and one function for two operators, and of a sum of
// projections of a let, whose types are what the operator asks for.
const SUM: &str = "derivation 1
val sum : int -> int
node fn 1 2
node int
node int
node fn 4 5
node int
node fn 6 7
node int
node int
node fn 4 7
node fn 4 8
node fn 7 8
step 0 name 3 env type 3
step 1 name 3 env type 3
step 1 sub 1 env 0 4 type 9
pair lr 3 9
pair rl 4 4
pair lr 5 8
pair rl 4 6
pair lr 7 7
step 2 var env 0 4 type 4
step 3 app 2 3 env 0 4 type 8
step 4 var env 0 4 type 4
step 5 app 4 5 env 0 4 type 7
step 0 sub 0 env 0 4 type 10
pair lr 3 10
pair rl 7 4
pair lr 5 8
pair rl 4 6
pair lr 7 7
step 6 app 7 6 env 0 4 type 8
step 7 var env 0 4 type 4
step 8 app 8 9 env 0 4 type 7
step 9 fun 10 env type 8
step 9 sub 11 env type 0
pair lr 8 0
pair rl 1 4
pair lr 7 2
end
";

const PROJECTIONS: &str = "derivation 1
val a : int
node int
node fn 2 3
node int
node fn 4 5
node int
node int
node int
node rcd p 6 q 6
node int
node rcd p 8 q 8
node rcd p 2
node rcd q 4
step 0 lit env type 8
step 1 lit env type 8
step 2 make 0 1 env type 9
step 2 sub 2 env type 7
pair lr 9 7
pair lr 8 6
let 0 3
step 3 name 1 env type 1
step 4 use 3 env type 7
step 4 sub 5 env type 10
pair lr 7 10
pair lr 6 2
step 5 proj 6 env type 2
step 6 app 4 7 env type 3
step 7 use 3 env type 7
step 7 sub 9 env type 11
pair lr 7 11
pair lr 6 4
step 8 proj 10 env type 4
step 9 app 8 11 env type 5
step 10 let 3 12 env type 5
step 10 sub 13 env type 0
pair lr 5 0
end
";

#[test]
fn steps_by_pairs_go_to_what_saves_others(rt: HostRuntime) -> Result<(), Fail> {
    let rows: [Row; 2] = [
        ("main.ml let sum = fun x -> x + x + x", SUM, 0, 1),
        (
            "main.ml let a = let r = {p = 1, q = 2} in r.p + r.q",
            PROJECTIONS,
            0,
            1,
        ),
    ];
    are_answered(&rt, rt.alloc(), "derive", rows.as_slice())?;
    Ok(())
}

#[test]
fn derives_a_module_without_bindings(rt: HostRuntime) -> Result<(), Fail> {
    let rows: [Row; 3] = [
        ("main.ml ", "derivation 1\n", 0, 1),
        ("main.ml # nothing", "derivation 1\n", 0, 1),
        (
            "main.ml import k\nk.mli val x : int",
            "derivation 1\n",
            0,
            2,
        ),
    ];
    are_answered(&rt, rt.alloc(), "derive", rows.as_slice())?;
    Ok(())
}
