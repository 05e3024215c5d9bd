//! Words of command lines.
use crate::samples::words_of;
use mls_base::memory::Memory;
use mls_io::memory::SureSink;
use mls_io::store::{Fetch, Store};
use mls_top::run::run;
use std::alloc::Global;
use std::test::Fail;

// A store without files that counts its fetches, and may fail at each.
#[derive(Drop)]
struct CountingStore {
    is_broken: bool,
    fetches: usize,
    has_failed: bool,
    has_missed: bool,
}

impl Store for CountingStore {
    ghost use Rattle.std.specs.Prelude.{Some, [], false};

    ghost holdings = { λ store. record {
      files = Some [];
      faults = record { value = 0; is_worn = store.has_failed };
      misses = record { value = 0; is_worn = store.has_missed };
      longs = record { value = 0; is_worn = false };
    } };

    fn fetch(&mut self, _name: &str, _limit: usize, _into: &mut Vec<u8>) -> Fetch {
        self.fetches = self.fetches.saturating_add(1);
        if self.is_broken {
            self.has_failed = true;
            Fetch::Failed
        } else {
            self.has_missed = true;
            Fetch::Missing
        }
    }
}

// What the words print over a store without files, and the code.
fn run_alone(alloc: Global, words: &[&str]) -> Result<(Vec<u8>, u8), Memory> {
    let mut store = CountingStore {
        is_broken: false,
        fetches: 0,
        has_failed: false,
        has_missed: false,
    };
    let mut sink = SureSink::new(alloc);
    let status = run(alloc, &words_of(alloc, words)?, &mut store, &mut sink);
    Ok((Vec::from_slice(alloc, sink.bytes())?, status.code()))
}

#[test]
fn reads_words_and_fetches_once(rt: HostRuntime) -> Result<(), Fail> {
    let alloc = rt.alloc();
    let usage = "usage: mlsub COMMAND OPERANDS\n";
    for (words, is_broken, printed, code, fetches) in [
        (&[].as_slice(), false, usage, 8, 0),
        (&["infer"].as_slice(), false, usage, 8, 0),
        (&["infer", "main", "extra"].as_slice(), false, usage, 8, 0),
        (&["infer", "--help"].as_slice(), false, usage, 8, 0),
        (&["infer", "Main"].as_slice(), false, usage, 8, 0),
        (&["infer", "let"].as_slice(), true, usage, 8, 0),
        (&["link", "a", "a"].as_slice(), false, usage, 8, 0),
        (&["check"].as_slice(), false, usage, 8, 0),
        (&["check", "1"].as_slice(), false, usage, 8, 0),
        (&["Check", "main"].as_slice(), false, usage, 8, 0),
        (&["derive"].as_slice(), false, usage, 8, 0),
        (&["derive", "main", "main"].as_slice(), false, usage, 8, 0),
        (&["derive", "let"].as_slice(), true, usage, 8, 0),
        (&["verify"].as_slice(), false, usage, 8, 0),
        (
            &["infer", "main"].as_slice(),
            false,
            "main.ml: not found\n",
            4,
            1,
        ),
        (&["infer", "main"].as_slice(), true, "", 5, 1),
        (&["check", "k"].as_slice(), false, "k.ml: not found\n", 4, 1),
        (
            &["derive", "k"].as_slice(),
            false,
            "k.ml: not found\n",
            4,
            1,
        ),
        (
            &["verify", "k"].as_slice(),
            false,
            "k.ml: not found\n",
            4,
            1,
        ),
    ] {
        let mut store = CountingStore {
            is_broken,
            fetches: 0,
            has_failed: false,
            has_missed: false,
        };
        let mut sink = SureSink::new(alloc);
        let status = run(alloc, &words_of(alloc, words)?, &mut store, &mut sink);
        assert_eq!(rt; status.code(), code, "{printed}");
        assert_eq!(rt; sink.bytes(), printed.as_bytes());
        assert_eq!(rt; store.fetches, fetches, "{printed}");
    }
    Ok(())
}

#[test]
fn reads_words_that_no_parser_takes(rt: HostRuntime) -> Result<(), Fail> {
    let alloc = rt.alloc();
    for words in [
        ["--help"].as_slice(),
        ["-h", "infer", "main"].as_slice(),
        ["-infer", "main"].as_slice(),
        ["infer", "-main"].as_slice(),
        ["infer", "-"].as_slice(),
        ["infer", "--"].as_slice(),
        ["infer", "--", "main"].as_slice(),
        ["infer", "main", "--help"].as_slice(),
        ["help"].as_slice(),
        ["help", "infer"].as_slice(),
        [""].as_slice(),
        ["", "main"].as_slice(),
        ["infer", ""].as_slice(),
        ["infer", "main", ""].as_slice(),
        ["check", "main", "main"].as_slice(),
        ["infer", "check", "main"].as_slice(),
    ] {
        let (printed, code) = run_alone(alloc, words)?;
        assert_eq!(rt;
            printed.as_slice(),
            b"usage: mlsub COMMAND OPERANDS\n".as_slice()
        );
        assert_eq!(rt; code, 8);
    }
    Ok(())
}

#[test]
fn reads_names_that_are_names_of_commands(rt: HostRuntime) -> Result<(), Fail> {
    let alloc = rt.alloc();
    for (words, printed) in [
        (["infer", "infer"].as_slice(), "infer.ml: not found\n"),
        (["check", "infer"].as_slice(), "infer.ml: not found\n"),
        (["infer", "help"].as_slice(), "help.ml: not found\n"),
        (["check", "check"].as_slice(), "check.ml: not found\n"),
        (["derive", "derive"].as_slice(), "derive.ml: not found\n"),
        (["verify", "verify"].as_slice(), "verify.ml: not found\n"),
    ] {
        let (said, code) = run_alone(alloc, words)?;
        assert_eq!(rt; said.as_slice(), printed.as_bytes());
        assert_eq!(rt; code, 4, "{printed}");
    }
    Ok(())
}
