//! Derivations beside their modules.
use crate::samples::{Row, are_answered, words_of};
use mls_base::memory::Memory;
use mls_io::failing::{FailAt, MemSink};
use mls_io::memory::SureSink;
use mls_io::store::{Fetch, Store};
use mls_top::run::run;
use std::alloc::Global;
use std::test::Fail;

// Files, each with its name and its text.
type Files<'a> = &'a [(&'a str, &'a str)];

// A store of these files that tells nothing of them. The file of one name is too long.
#[derive(Drop)]
struct TextStore<'a> {
    files: Files<'a>,
    long: &'a str,
    has_missed: bool,
    has_cut: bool,
}

impl<'a> TextStore<'a> {
    fn new(files: Files<'a>, long: &'a str) -> TextStore<'a> {
        TextStore {
            files,
            long,
            has_missed: false,
            has_cut: false,
        }
    }
}

impl<'a> Store for TextStore<'a> {
    ghost use Rattle.std.specs.Prelude.{None, false};

    ghost holdings = { λ store. record {
      files = None;
      faults = record { value = 0; is_worn = false };
      misses = record { value = 0; is_worn = store.has_missed };
      longs = record { value = 0; is_worn = store.has_cut };
    } };

    fn fetch(&mut self, name: &str, limit: usize, into: &mut Vec<u8>) -> Fetch {
        let Some(text) = text_in(self.files, name) else {
            self.has_missed = true;
            return Fetch::Missing;
        };
        if name == self.long || text.len() > limit {
            self.has_cut = true;
            return Fetch::Long;
        }
        match into.extend_from_slice(text.as_bytes()) {
            Ok(_) => Fetch::Found,
            Err(_) => Fetch::Memory,
        }
    }
}

// The text of the file of this name.
fn text_in<'a>(files: Files<'a>, name: &str) -> Option<&'a str> {
    for (file, text) in files {
        if *file == name {
            return Some(*text);
        }
    }
    None
}

// What `verify` of a module prints over these files, and the code.
fn verified(alloc: Global, name: &str, files: Files, long: &str) -> Result<(Vec<u8>, u8), Memory> {
    let words = words_of(alloc, &["verify", name])?;
    let mut store = TextStore::new(files, long);
    let mut sink = SureSink::new(alloc);
    let status = run(alloc, &words, &mut store, &mut sink);
    Ok((Vec::from_slice(alloc, sink.bytes())?, status.code()))
}

// The identity, and a derivation of its type.
const IDENTITY: &str = "let id = fun x -> x\n";

const DERIVED: &str = "derivation 1
val id : a -> a
node fn 1 2
node var 0
node var 0
node fn 1 1
step 0 var env 0 1 type 1
step 1 fun 0 env type 3
step 1 sub 1 env type 0
pair lr 3 0
pair rl 1 1
pair lr 1 2
end
";

#[test]
fn tells_whether_each_step_is_allowed(rt: HostRuntime) -> Result<(), Fail> {
    let short = "derivation 1
val id : a -> a
node fn 1 2
node var 0
node var 0
node fn 1 1
step 0 var env 0 1 type 1
step 1 fun 0 env type 3
step 1 sub 1 env type 0
pair lr 3 0
pair rl 1 1
end
";
    for (module, derivation, printed, code) in [
        (IDENTITY, DERIVED, "id is verified\n", 0),
        (IDENTITY, short, "id: step 2 is not allowed\n", 9),
        (IDENTITY, "derivation 1\n", "id: step 0 is not allowed\n", 9),
        (
            IDENTITY,
            "derivation 1\nnode bot\n",
            "id.mld:2: fault 19: bad line\n",
            3,
        ),
        (IDENTITY, "", "id.mld:1: fault 19: bad line\n", 3),
        ("", "derivation 1\n", "id is verified\n", 0),
        ("", "", "id.mld:1: fault 19: bad line\n", 3),
        ("", "derivation 1", "id.mld:1: fault 19: bad line\n", 3),
        ("", DERIVED, "id: step 0 is not allowed\n", 9),
        // A module that has no signature is not inferred.
        ("let id = 1 2\n", DERIVED, "id: step 0 is not allowed\n", 9),
        // What is refused of the module comes first.
        ("let id = z\n", "", "id.ml:1:10: fault 6: unknown name\n", 3),
        (
            "let id =\n",
            "",
            "id.ml:2:1: fault 4: the text ends too early\n",
            3,
        ),
    ] {
        let files = [("id.ml", module), ("id.mld", derivation)];
        let (said, status) = verified(rt.alloc(), "id", files.as_slice(), "")?;
        assert_eq!(rt; said.as_slice(), printed.as_bytes(), "{printed}");
        assert_eq!(rt; status, code, "{printed}");
    }
    Ok(())
}

#[test]
fn refuses_forged_derivations(rt: HostRuntime) -> Result<(), Fail> {
    for (line, forged, printed, code) in [
        (
            7,
            "step 0 var env 0 1 type 2\n",
            "id: step 0 is not allowed\n",
            9,
        ),
        (
            8,
            "step 1 fun 0 env type 0\n",
            "id: step 1 is not allowed\n",
            9,
        ),
        (10, "", "id: step 2 is not allowed\n", 9),
        (13, "", "id.mld:13: fault 19: bad line\n", 3),
        (6, "node join 3 0\n", "id.mld:6: fault 19: bad line\n", 3),
        (
            8,
            "step 1 fun 1 env type 3\n",
            "id.mld:8: fault 19: bad line\n",
            3,
        ),
        (2, "val id : a -> b\n", "id.mld:5: fault 19: bad line\n", 3),
    ] {
        let text = with_line(rt.alloc(), line, forged)?;
        let files = [("id.ml", IDENTITY), ("id.mld", text.as_str())];
        let (said, status) = verified(rt.alloc(), "id", files.as_slice(), "")?;
        assert_eq!(rt; said.as_slice(), printed.as_bytes(), "{line}");
        assert_eq!(rt; status, code, "{line}");
    }
    Ok(())
}

// The derivation of the identity with another line in the place of this one, counted from 1.
fn with_line(alloc: Global, number: usize, line: &str) -> Result<String, Memory> {
    let mut text = String::new(alloc);
    for (i, old) in DERIVED.split_terminator('\n').enumerate() {
        if i.saturating_add(1) == number {
            text.push_str(line)?;
        } else {
            text.push_str(old)?;
            text.push_str("\n")?;
        }
    }
    Ok(text)
}

#[test]
fn refuses_derivations_of_other_lines(rt: HostRuntime) -> Result<(), Fail> {
    let other = "derivation 1
val id : a -> b
node fn 1 2
node var 0
node var 1
node fn 1 1
step 0 var env 0 1 type 1
step 1 fun 0 env type 3
step 1 sub 1 env type 0
pair lr 3 0
pair rl 1 1
pair lr 1 2
end
";
    let early = "derivation 1
val id : a -> a
node fn 1 2
node var 0
node var 0
node fn 1 1
step 0 var env 0 1 type 1
step 1 fun 0 env type 3
end
";
    let twice = "derivation 1
val id : a -> a
node fn 1 2
node var 0
node var 0
node fn 1 1
step 0 var env 0 1 type 1
step 1 fun 0 env type 3
step 1 sub 1 env type 0
pair lr 3 0
pair rl 1 1
pair lr 1 2
end
val id : a -> a
node fn 1 2
node var 0
node var 0
node fn 1 1
step 0 var env 0 1 type 1
step 1 fun 0 env type 3
step 1 sub 1 env type 0
pair lr 3 0
pair rl 1 1
pair lr 1 2
end
";
    for (derivation, printed) in [
        (other, "id: step 2 is not allowed\n"),
        (early, "id: step 2 is not allowed\n"),
        (twice, "id: step 4 is not allowed\n"),
    ] {
        let files = [("id.ml", IDENTITY), ("id.mld", derivation)];
        let (said, status) = verified(rt.alloc(), "id", files.as_slice(), "")?;
        assert_eq!(rt; said.as_slice(), printed.as_bytes(), "{derivation}");
        assert_eq!(rt; status, 9, "{derivation}");
    }
    Ok(())
}

#[test]
fn checks_over_what_imports_declare(rt: HostRuntime) -> Result<(), Fail> {
    let module = "import k\nlet a = f\n";
    let derivation = "derivation 1
val a : int -> int
node fn 1 2
node int
node int
step 0 name 0 env type 0
end
";
    let loose = [("main.ml", module), ("main.mld", derivation)];
    let declared = [
        ("main.ml", module),
        ("k.mli", "val f : int -> int\n"),
        ("main.mld", derivation),
    ];
    let other = [
        ("main.ml", module),
        ("k.mli", "val f : int -> bool\n"),
        ("main.mld", derivation),
    ];
    let none = [("main.ml", module), ("k.mli", ""), ("main.mld", derivation)];
    for (files, printed, code) in [
        (loose.as_slice(), "k.mli: not found\n", 4),
        (declared.as_slice(), "main is verified\n", 0),
        (other.as_slice(), "main: step 0 is not allowed\n", 9),
        (none.as_slice(), "main.ml:2:9: fault 6: unknown name\n", 3),
    ] {
        let (said, status) = verified(rt.alloc(), "main", files, "")?;
        assert_eq!(rt; said.as_slice(), printed.as_bytes(), "{printed}");
        assert_eq!(rt; status, code, "{printed}");
    }
    Ok(())
}

#[test]
fn tells_files_that_are_absent_or_too_long(rt: HostRuntime) -> Result<(), Fail> {
    let alone = [("id.ml", IDENTITY)];
    let unknown = [("id.ml", "let id = z\n")];
    let both = [("id.ml", IDENTITY), ("id.mld", DERIVED)];
    for (files, long, printed, code) in [
        (alone.as_slice(), "", "id.mld: not found\n", 4),
        (
            unknown.as_slice(),
            "",
            "id.ml:1:10: fault 6: unknown name\n",
            3,
        ),
        (
            both.as_slice(),
            "id.mld",
            "id.mld: longer than 67108864 bytes\n",
            11,
        ),
        (
            both.as_slice(),
            "id.ml",
            "id.ml: longer than 1048576 bytes\n",
            11,
        ),
        (&[].as_slice(), "", "id.ml: not found\n", 4),
    ] {
        let (said, status) = verified(rt.alloc(), "id", files, long)?;
        assert_eq!(rt; said.as_slice(), printed.as_bytes(), "{printed}");
        assert_eq!(rt; status, code, "{printed}");
    }
    Ok(())
}

#[test]
fn fetches_the_derivation_last(rt: HostRuntime) -> Result<(), Fail> {
    let files = "main.ml import j import k let a = f\nj.mli val f : int -> int\nk.mli val g : bool";
    let unknown = "main.ml import j let a = h\nj.mli val f : int -> int";
    let rows: [Row; 2] = [
        (files, "main.mld: not found\n", 4, 4),
        (unknown, "main.ml:1:18: fault 6: unknown name\n", 3, 2),
    ];
    are_answered(&rt, rt.alloc(), "verify", rows.as_slice())?;
    Ok(())
}

#[test]
fn keeps_each_front_of_what_is_told(rt: HostRuntime) -> Result<(), Fail> {
    let alloc = rt.alloc();
    for (derivation, line) in [
        (DERIVED, "id is verified\n"),
        ("derivation 1\n", "id: step 0 is not allowed\n"),
        ("\n", "id.mld:1: fault 19: bad line\n"),
    ] {
        let files = [("id.ml", IDENTITY), ("id.mld", derivation)];
        for kept in 0..=line.len() {
            let words = words_of(alloc, &["verify", "id"])?;
            let mut store = TextStore::new(files.as_slice(), "");
            let mut sink = MemSink::new(alloc, vec![in alloc; FailAt { call: 0, kept }]?)?;
            let status = run(alloc, &words, &mut store, &mut sink);
            assert_eq!(rt; Some(sink.bytes()), line.as_bytes().get(..kept), "{line}");
            assert_eq!(rt; status.code(), 6, "{line}");
        }
    }
    Ok(())
}
