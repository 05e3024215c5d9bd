//! What the tests of runs share: words, files, stores of them, and what is printed over them.
use mls_base::memory::Memory;
use mls_io::memory::{FileEntry, SureSink, SureStore};
use mls_io::store::{Fetch, Store};
use mls_top::run::run;
use std::alloc::Global;
use std::process::Abort;

/// Words of a command line.
pub(crate) fn words_of(alloc: Global, words: &[&str]) -> Result<Vec<String>, Memory> {
    let mut list = Vec::new(alloc);
    for word in words {
        list.push(String::from_str(alloc, word)?)?;
    }
    Ok(list)
}

/// A store whose one file is `main.ml` with this text.
pub(crate) fn store_of(alloc: Global, text: &[u8]) -> Result<SureStore, Memory> {
    let main = FileEntry {
        name: String::from_str(alloc, "main.ml")?,
        bytes: Vec::from_slice(alloc, text)?,
    };
    SureStore::new(alloc, vec![in alloc; main]?)
}

/// What is printed for a text, and the code.
pub(crate) fn inferred(alloc: Global, text: &[u8]) -> Result<(Vec<u8>, u8), Memory> {
    let words = words_of(alloc, &["infer", "main"])?;
    let mut sink = SureSink::new(alloc);
    let status = run(alloc, &words, &mut store_of(alloc, text)?, &mut sink);
    Ok((Vec::from_slice(alloc, sink.bytes())?, status.code()))
}

/// The text of a file among these, each on a line with its name before it.
pub(crate) fn text_among<'a>(files: &'a str, name: &str) -> Option<&'a str> {
    for line in files.split('\n') {
        if let Some((file, text)) = line.split_once(' ') {
            if file == name {
                return Some(text);
            }
        }
    }
    None
}

/// A store of these files that tells nothing of them, and counts its fetches. That of this number fails, from 1 on.
#[derive(Drop)]
pub(crate) struct ListedStore<'a> {
    files: &'a str,
    failing: usize,
    fetches: usize,
    has_failed: bool,
    has_missed: bool,
    has_cut: bool,
}

impl<'a> ListedStore<'a> {
    /// The store of these files, where the fetch of this number fails.
    pub(crate) fn new(files: &'a str, failing: usize) -> ListedStore<'a> {
        ListedStore {
            files,
            failing,
            fetches: 0,
            has_failed: false,
            has_missed: false,
            has_cut: false,
        }
    }
}

impl<'a> Store for ListedStore<'a> {
    ghost use Rattle.std.specs.Prelude.{None};

    ghost holdings = { λ store. record {
      files = None;
      faults = record { value = 0; is_worn = store.has_failed };
      misses = record { value = 0; is_worn = store.has_missed };
      longs = record { value = 0; is_worn = store.has_cut };
    } };

    fn fetch(&mut self, name: &str, limit: usize, into: &mut Vec<u8>) -> Fetch {
        self.fetches = self.fetches.saturating_add(1);
        if self.fetches == self.failing {
            self.has_failed = true;
            return Fetch::Failed;
        }
        let Some(text) = text_among(self.files, name) else {
            self.has_missed = true;
            return Fetch::Missing;
        };
        if text.len() > limit {
            self.has_cut = true;
            return Fetch::Long;
        }
        match into.extend_from_slice(text.as_bytes()) {
            Ok(_) => Fetch::Found,
            Err(_) => Fetch::Memory,
        }
    }
}

/// Files, what a command prints over them, its code, and how often it fetches.
pub(crate) type Row<'a> = (&'a str, &'a str, u8, usize);

/// What a command prints over these files, its code, and how often it fetched, where this fetch fails.
pub(crate) fn answered(
    alloc: Global,
    command: &str,
    name: &str,
    files: &str,
    failing: usize,
) -> Result<(Vec<u8>, u8, usize), Memory> {
    answered_words(alloc, &[command, name], files, failing)
}

/// What words print over these files, the code, and how often a file was fetched, where this fetch fails.
pub(crate) fn answered_words(
    alloc: Global,
    words: &[&str],
    files: &str,
    failing: usize,
) -> Result<(Vec<u8>, u8, usize), Memory> {
    let words = words_of(alloc, words)?;
    let mut store = ListedStore::new(files, failing);
    let mut sink = SureSink::new(alloc);
    let status = run(alloc, &words, &mut store, &mut sink);
    Ok((
        Vec::from_slice(alloc, sink.bytes())?,
        status.code(),
        store.fetches,
    ))
}

/// Tests a command on the module `main`.
pub(crate) fn are_answered(
    rt: &impl Abort,
    alloc: Global,
    command: &str,
    rows: &[Row],
) -> Result<(), Memory> {
    are_answered_of(rt, alloc, command, "main", rows)
}

/// Tests a command on the module of this name.
pub(crate) fn are_answered_of(
    rt: &impl Abort,
    alloc: Global,
    command: &str,
    name: &str,
    rows: &[Row],
) -> Result<(), Memory> {
    for (files, printed, code, fetches) in rows {
        let (said, status, count) = answered(alloc, command, name, files, 0)?;
        assert_eq!(rt; said.as_slice(), printed.as_bytes());
        assert_eq!(rt; status, *code, "{printed}");
        assert_eq!(rt; count, *fetches, "{printed}");
    }
    Ok(())
}

/// Four modules that work together.
pub(crate) const MODULES: &str =
    "pairs.ml let pair = fun x -> fun y -> {fst = x, snd = y} let swap = fun p -> {fst = p.snd, snd = p.fst}
pairs.mli val pair : a -> b -> {fst: a, snd: b} val swap : {fst: a, snd: b} -> {fst: b, snd: a}
church.ml let tt = fun x -> fun y -> x let ff = fun x -> fun y -> y let cond = fun b -> fun x -> fun y -> b x y
church.mli val tt : a -> b -> a val ff : a -> b -> b val cond : (a -> b -> c) -> a -> b -> c
counter.ml let rec counter = fun n -> {now = n, next = fun u -> counter (n + 1)}
counter.mli val counter : int -> rec a. {next: {} -> a, now: int}
main.ml import pairs import church import counter let p = pair 1 true let q = swap p let c = counter 0 let d = (c.next {}).now let r = cond tt q.fst d
main.mli val d : int val r : bool | int";
