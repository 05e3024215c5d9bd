//! A store and a sink in memory, of which listed calls fail.
ghost use Rattle.std.specs.Prelude.{◌≡◌, ◌≢◌, [], ◌++◌, ◌↔◌, take, IfOk, IsSome, IsSomeAnd, IsTrue};
ghost use Rattle.mls_io.specs.Counts.{no_count};
ghost use Rattle.mls_io.specs.Memory.{HasDistinctNames};
ghost use Rattle.mls_io.specs.Listed.{is_listed, kept_at, next_count, counted_puts};
ghost use Rattle.mls_io.specs.Listed.{new_failing_shelf, new_failing_tape};

use crate::count::Counter;
use crate::memory::{FileEntry, SureStore};
use crate::sink::{Put, Sink};
use crate::store::{Fetch, Store};
use mls_base::memory::Memory;
use std::alloc::Global;
use std::marker::Model;

/// Files in memory, and the numbers of the calls that fail. It tells its files.
#[derive(Drop)]
pub struct MemStore {
    shelf: SureStore,
    failing: Vec<u64>,
    calls: Counter,
}

impl Model for MemStore {
    ghost use Rattle.mls_io.specs.Listed.{FailingShelf};

    ghost Value = { FailingShelf };

    ghost view = { λ store. record {
      shelf = store.shelf;
      failing = store.failing.items;
      calls = store.calls;
    } };
}

impl MemStore {
    /// Takes files, of which no two have the same name, and the numbers of the calls that fail, counted from 0.
    pub fn new(alloc: Global, files: Vec<FileEntry>, failing: Vec<u64>) -> Result<MemStore, Memory>
        requires distinct { HasDistinctNames files.items }
        ensures { IfOk result (λ store. store ≡ new_failing_shelf files.items failing.items) }
    {
        Ok(MemStore {
            shelf: SureStore::new(alloc, files)?,
            failing,
            calls: Counter::new(),
        })
    }

    // Whether the next call is listed.
    fn is_next_listed(&self) -> bool
        ensures { result ≡ is_listed self.now.failing self.now.calls.value }
    {
        self.failing.contains(&self.calls.times())
    }
}

impl Store for MemStore {
    ghost use Rattle.mls_io.specs.Listed.{failing_holdings};
    ghost use Rattle.mls_io.specs.Stores.{Follows, GivesFound, GivesMissing, GivesLong, GivesFailed};
    ghost use Rattle.mls_io.specs.Stores.{KeepsUnlessFound};

    ghost holdings = { failing_holdings };

    /// A listed call answers Failed, and no other does.
    fn fetch(&mut self, name: &str, limit: usize, into: &mut Vec<u8>) -> Fetch
        ensures follows { Follows (failing_holdings self.old) (failing_holdings self.new) }
        ensures found { result ≡ Fetch.Found → GivesFound
            (failing_holdings self.old) name.now limit into.old.items into.new.items }
        ensures missing { GivesMissing (failing_holdings self.old) (failing_holdings self.new) name.now result }
        ensures long { result ≡ Fetch.Long → GivesLong
            (failing_holdings self.old) (failing_holdings self.new) name.now limit }
        ensures failed { result ≡ Fetch.Failed → GivesFailed (failing_holdings self.old) (failing_holdings self.new) }
        ensures unchanged { KeepsUnlessFound result into.old.items into.new.items }
        ensures listed { (result ≡ Fetch.Failed) ↔ IsTrue (is_listed self.old.failing self.old.calls.value) }
        ensures counted { self.new.calls ≡ next_count self.old.calls }
        ensures failing { self.new.failing ≡ self.old.failing }
    {
        let listed = self.is_next_listed();
        self.calls.rise();
        if listed {
            return Fetch::Failed;
        }
        self.shelf.fetch(name, limit, into)
    }
}

/// A put that fails: its number among the puts of pieces that are not empty, counted from 0, and how many bytes of its
/// piece it keeps.
#[derive(Clone, Copy, Debug, PartialEq, Eq)]
pub struct FailAt {
    /// The number of the put.
    pub call: u64,
    /// How many bytes from the start of the piece are kept, or the whole piece if it has no more.
    pub kept: usize,
}

/// Bytes in memory, and the puts that fail. It tells its bytes.
#[derive(Drop)]
pub struct MemSink {
    bytes: Vec<u8>,
    failing: Vec<FailAt>,
    puts: Counter,
}

impl Model for MemSink {
    ghost use Rattle.mls_io.specs.Listed.{FailingTape};

    ghost Value = { FailingTape };

    ghost view = { λ sink. record {
      bytes = sink.bytes.items;
      failing = sink.failing.items;
      puts = sink.puts;
    } };
}

impl MemSink {
    /// No bytes yet. Takes the puts that fail; where a number is listed twice, its first entry counts.
    pub fn new(alloc: Global, failing: Vec<FailAt>) -> Result<MemSink, Memory>
        ensures { IfOk result (λ sink. sink ≡ new_failing_tape failing.items) }
    {
        Ok(MemSink {
            bytes: Vec::new(alloc),
            failing,
            puts: Counter::new(),
        })
    }

    /// The bytes that were put. It takes no memory.
    pub fn bytes(&self) -> &[u8]
        ensures { result.now ≡ self.now.bytes }
    {
        self.bytes.as_slice()
    }

    // How many bytes the next counted put keeps, where it is listed.
    fn next_kept(&self) -> Option<usize>
        ensures { result ≡ kept_at self.now.failing self.now.puts.value }
    {
        let call = self.puts.times();
        self.failing
            .iter()
            .find(|entry| entry.call == call)
            .map(|entry| entry.kept)
    }
}

impl Sink for MemSink {
    ghost use Rattle.mls_io.specs.Listed.{failing_written};
    ghost use Rattle.mls_io.specs.Sinks.{Written, Follows, TakesAll, TakesSome, TakesNone};

    ghost written = { failing_written };

    /// A listed put of a piece that is not empty keeps a part of it and answers Failed, if there is memory for that
    /// part. No other put answers Failed.
    fn put(&mut self, piece: &[u8]) -> Put
        ensures follows { Follows (failing_written self.old) (failing_written self.new) }
        ensures all { result ≡ Put.All → TakesAll (failing_written self.old) (failing_written self.new) piece.now }
        ensures failed { result ≡ Put.Failed
            → TakesSome (failing_written self.old) (failing_written self.new) piece.now }
        ensures memory { result ≡ Put.Memory → TakesNone (failing_written self.old) (failing_written self.new) }
        ensures empty { piece.now ≡ [] → result ≡ Put.All }
        ensures kept { result ≡ Put.Failed → IsSomeAnd (kept_at self.old.failing self.old.puts.value)
            (λ kept. self.new.bytes ≡ self.old.bytes ++ take kept piece.now) }
        ensures listed { piece.now ≢ [] → IsSome (kept_at self.old.failing self.old.puts.value) → result ≢ Put.All }
        ensures counted { self.new.puts ≡ counted_puts self.old.puts piece.now }
        ensures failing { self.new.failing ≡ self.old.failing }
    {
        if piece.is_empty() {
            return Put::All;
        }
        let kept = self.next_kept();
        self.puts.rise();
        let (taken, answer) = match kept {
            Some(kept) => (&piece[..kept.min(piece.len())], Put::Failed),
            None => (piece, Put::All),
        };
        match self.bytes.extend_from_slice(taken) {
            Ok(_) => answer,
            Err(_) => Put::Memory,
        }
    }
}
