//! The store over a directory.
ghost use Rattle.std.specs.Prelude.{◌≡◌, ◌≢◌, ◌+◌, ◌<◌, ◌≤◌, ◌⊎◌, ◌↔◌, ◌++◌, IfOk, IfSome, length, vec_len};
ghost use Rattle.std.specs.Io.{StartsWith};
ghost use Rattle.std.specs.IoError.{error_kind};
ghost use Rattle.mls_io.specs.Counts.{Rose};
ghost use Rattle.mls_io.specs.Directory.{new_directory, untold_holdings};
ghost use Rattle.mls_io.specs.Stores.{Follows};

use crate::count::Counter;
use crate::store::{Fetch, Store};
use mls_base::memory::Memory;
use std::alloc::Global;
use std::fs::File;
use std::io;
use std::io::{ErrorKind, Read};
use std::marker::Model;
use std::rt::Files;

/// Reads the files of one directory. It tells nothing of them. Contracts see it as its path and its counts.
#[derive(Drop)]
pub struct DirStore<R: Files + Clone + Drop> {
    rt: R,
    alloc: Global,
    folder: String,
    faults: Counter,
    misses: Counter,
    longs: Counter,
}

impl<R: Files + Clone + Drop> Model for DirStore<R> {
    ghost use Rattle.std.specs.Prelude.{string_bytes};
    ghost use Rattle.mls_io.specs.Directory.{Directory};

    ghost Value = { Directory };

    ghost view = { λ store. record {
      folder = string_bytes store.folder;
      faults = store.faults;
      misses = store.misses;
      longs = store.longs;
    } };
}

impl<R: Files + Clone + Drop> DirStore<R> {
    /// Takes the runtime and the path of the directory.
    pub fn new(rt: R, alloc: Global, folder: &str) -> Result<DirStore<R>, Memory>
        ensures { IfOk result (λ store. store ≡ new_directory folder.now) }
    {
        Ok(DirStore {
            rt,
            alloc,
            folder: String::from_str(alloc, folder)?,
            faults: Counter::new(),
            misses: Counter::new(),
            longs: Counter::new(),
        })
    }

    // Adds the bytes of the file of this name to `into`, or says why not. What was read may stay in `into`.
    fn read(&self, name: &str, limit: usize, into: &mut Vec<u8>) -> Fetch
        ensures kept { StartsWith into.new.items into.old.items }
        ensures within { result ≡ Fetch.Found → vec_len into.new ≤ vec_len into.old + limit }
    {
        match self.open(name) {
            Ok(file) => read_whole(file, limit, into),
            Err(error) if error.kind() == ErrorKind::NotFound => Fetch::Missing,
            Err(error) => failure(&error),
        }
    }

    // Opens the file of this name for reading.
    fn open(&self, name: &str) -> io::Result<R::File> {
        let path = format!(in self.alloc; "{}/{name}", self.folder)?;
        File::open(&self.rt, path.as_str())
    }

    // Counts an answer.
    fn count(&mut self, answer: Fetch)
        ensures follows { Follows (untold_holdings self.old) (untold_holdings self.new) }
        ensures missing { answer ≡ Fetch.Missing → Rose self.old.misses self.new.misses }
        ensures long { answer ≡ Fetch.Long → Rose self.old.longs self.new.longs }
        ensures failed { answer ≡ Fetch.Failed → Rose self.old.faults self.new.faults }
    {
        match answer {
            Fetch::Missing => self.misses.rise(),
            Fetch::Long => self.longs.rise(),
            Fetch::Failed => self.faults.rise(),
            Fetch::Found | Fetch::Memory => {}
        }
    }
}

// Adds what the reader gives to `into`, where it is at most `limit` bytes. It reads no more than these bytes and one.
fn read_whole<F: Read + Drop>(reader: F, limit: usize, into: &mut Vec<u8>) -> Fetch
    ensures kept { StartsWith into.new.items into.old.items }
    ensures within { result ≡ Fetch.Found → vec_len into.new ≤ vec_len into.old + limit }
    ensures found { result ≡ Fetch.Found → IfSome (F.remaining reader) (λ bytes. into.new.items ≡ into.old.items
        ++ bytes) }
    ensures long { result ≡ Fetch.Long → IfSome (F.remaining reader) (λ bytes. limit < length bytes) }
    ensures open { result ≢ Fetch.Missing }
{
    let most = (limit as u64).saturating_add(1);
    match reader.take(most).read_to_end(into) {
        Ok(n) if n <= limit => Fetch::Found,
        Ok(_) => Fetch::Long,
        Err(error) => failure(&error),
    }
}

// What an error comes to that is no missing file: a want of memory, or a fault.
fn failure(error: &io::Error) -> Fetch
    ensures memory { (result ≡ Fetch.Memory) ↔ (error_kind error.now ≡ ErrorKind.OutOfMemory) }
    ensures answers { (result ≡ Fetch.Memory) ⊎ (result ≡ Fetch.Failed) }
{
    if error.kind() == ErrorKind::OutOfMemory {
        Fetch::Memory
    } else {
        Fetch::Failed
    }
}

impl<R: Files + Clone + Drop> Store for DirStore<R> {
    ghost use Rattle.mls_io.specs.Directory.{untold_holdings};

    ghost holdings = { untold_holdings };

    /// Opens the file of this name in the directory, and reads it to its end or to one byte past the limit.
    ///
    /// Missing where opening it said that it is not found, Memory where memory was wanting, and Failed
    /// after any other error.
    fn fetch(&mut self, name: &str, limit: usize, into: &mut Vec<u8>) -> Fetch {
        let start = into.len();
        let answer = self.read(name, limit, into);
        if answer != Fetch::Found {
            into.truncate(start);
        }
        self.count(answer);
        answer
    }
}
