//! A store and a sink in memory, which never fail.
ghost use Rattle.std.specs.Prelude.{◌≡◌, ◌↔◌, [], bytes_eq, IfOk, IsTrue, option_copied};
ghost use Rattle.std.specs.List.{list_any};
ghost use Rattle.mls_base.specs.Files.{bytes_at};
ghost use Rattle.mls_io.specs.Memory.{HasDistinctNames, new_shelf};

use crate::count::Counter;
use crate::sink::{Put, Sink};
use crate::store::{Fetch, Store};
use indexmap::IndexMap;
use mls_base::memory::Memory;
use std::alloc::Global;
use std::marker::Model;

/// A file: its name and its bytes. Contracts see it as this pair.
#[derive(Drop)]
pub struct FileEntry {
    /// The name by which a fetch asks for it.
    pub name: String,
    /// What stands in it.
    pub bytes: Vec<u8>,
}

impl Model for FileEntry {
    ghost use Rattle.std.specs.Prelude.{List, ℕ, string_bytes};

    ghost Value = { List ℕ × List ℕ };

    ghost view = { λ file. (string_bytes file.name, file.bytes.items) };
}

/// Whether no two of these files have the same name, as the stores in memory want it. It takes no memory.
pub fn have_distinct_names(files: &[FileEntry]) -> bool
    ensures { IsTrue result ↔ HasDistinctNames files.now }
{
    match files.split_first() {
        None => true,
        Some((first, rest)) => !is_among(rest, first.name.as_str()) && have_distinct_names(rest),
    }
}

// Whether one of these files has this name.
fn is_among(files: &[FileEntry], name: &str) -> bool
    ensures { result ≡ list_any (λ file. bytes_eq file.0 name.now) files.now }
{
    files.iter().any(|file| file.name.as_str() == name)
}

/// Files in memory. It tells them, and no call of it answers Failed.
#[derive(Drop)]
pub struct SureStore {
    files: IndexMap<String, Vec<u8>>,
    misses: Counter,
    longs: Counter,
}

impl Model for SureStore {
    ghost use Rattle.std.specs.Prelude.{map, string_bytes};
    ghost use Rattle.mls_io.specs.Memory.{Shelf};

    ghost Value = { Shelf };

    ghost view = { λ store. record {
      files = map (λ entry. (string_bytes entry.0, entry.1.items)) store.files.entries;
      misses = store.misses;
      longs = store.longs;
    } };
}

impl SureStore {
    /// Takes files, of which no two have the same name.
    pub fn new(alloc: Global, files: Vec<FileEntry>) -> Result<SureStore, Memory>
        requires distinct { HasDistinctNames files.items }
        ensures { IfOk result (λ store. store ≡ new_shelf files.items) }
    {
        let mut by_name = IndexMap::new(alloc);
        for file in files {
            by_name.insert(file.name, file.bytes)?;
        }
        Ok(SureStore {
            files: by_name,
            misses: Counter::new(),
            longs: Counter::new(),
        })
    }

    // The bytes of the file of this name.
    fn found(&self, name: &str) -> Option<&[u8]>
        ensures { option_copied result ≡ bytes_at self.now.files name.now }
    {
        self.files.get(name).map(|bytes| bytes.as_slice())
    }
}

impl Store for SureStore {
    ghost use Rattle.mls_io.specs.Memory.{shelf_holdings};

    ghost holdings = { shelf_holdings };

    fn fetch(&mut self, name: &str, limit: usize, into: &mut Vec<u8>) -> Fetch {
        match self.found(name) {
            None => {
                self.misses.rise();
                Fetch::Missing
            }
            Some(bytes) if bytes.len() > limit => {
                self.longs.rise();
                Fetch::Long
            }
            Some(bytes) => match into.extend_from_slice(bytes) {
                Ok(()) => Fetch::Found,
                Err(_) => Fetch::Memory,
            },
        }
    }
}

/// Bytes in memory. It tells them, and no put to it answers Failed. Contracts see it as its bytes.
#[derive(Drop)]
pub struct SureSink {
    bytes: Vec<u8>,
}

impl Model for SureSink {
    ghost use Rattle.std.specs.Prelude.{List, ℕ};

    ghost Value = { List ℕ };

    ghost view = { λ sink. sink.bytes.items };
}

impl SureSink {
    /// No bytes yet. It takes no memory.
    pub fn new(alloc: Global) -> SureSink
        ensures { result ≡ [] }
    {
        SureSink {
            bytes: Vec::new(alloc),
        }
    }

    /// The bytes that were put. It takes no memory.
    pub fn bytes(&self) -> &[u8]
        ensures { result.now ≡ self.now }
    {
        self.bytes.as_slice()
    }
}

impl Sink for SureSink {
    ghost use Rattle.mls_io.specs.Memory.{sure_written};

    ghost written = { sure_written };

    fn put(&mut self, piece: &[u8]) -> Put {
        if piece.is_empty() {
            return Put::All;
        }
        match self.bytes.extend_from_slice(piece) {
            Ok(_) => Put::All,
            Err(_) => Put::Memory,
        }
    }
}
