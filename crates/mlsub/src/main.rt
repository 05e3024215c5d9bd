//! The program: its words, the search path over directories, the sink over standard output, and `run`.
#![tactic(auto)]

ghost use Rattle.std.specs.Prelude.{◌≡◌, ◌≢◌};

use mls_base::memory::Memory;
use mls_io::directory::DirStore;
use mls_io::output::OutSink;
use mls_io::path::SearchPath;
use mls_io::store::Store;
use mls_top::run::run;
use mls_top::status::Status;
use std::io::ErrorKind;
use std::process::ExitCode;
use std::rt::Env;
use std::{env, io};

// The exit code of a program that finds no memory before it runs a command.
const NO_MEMORY: u8 = 7;

// The directories that files are looked for in, the one that is asked first in front.
const FOLDERS: [&str; 2] = [".", "lib"];

// What a person is told whose words are no command.
const HELP: &str = "mlsub 0.1.0 infers the types of modules, compares them with interfaces,
and prints and checks derivations of them.

  mlsub infer NAME    prints the most general type of each binding of NAME.ml
  mlsub check NAME    tells whether NAME.ml has all that NAME.mli declares
  mlsub derive NAME   prints a derivation of the types of NAME.ml
  mlsub verify NAME   tells whether each step of the derivation NAME.mld is allowed
  mlsub generate SEED COUNT
                      makes a module of COUNT bindings, and tells how long its text
                      and its signature are

The first four read the interface of each module that NAME.ml imports, and no other module.
A file is looked for in the current folder first, and then in its subfolder lib.
Answers go to standard output, and the exit code tells their kind: 0 done, 1 a
binding without a type, 2 a promise not kept, 3 a fault of a text, 4 no such file,
5 a file not read, 6 an answer not written, 7 no memory, 8 no command, 9 a step
that is not allowed, 11 a file too long.";

fn main(rt: HostRuntime) -> ExitCode {
    let words = match words(&rt) {
        Ok(words) => words,
        Err(error) => return ExitCode::from(code_without_words(error.kind())),
    };
    let status = match run_words(rt, &words) {
        Ok(status) => status,
        Err(_) => return ExitCode::from(NO_MEMORY),
    };
    if let Some(text) = told(status) {
        // where nothing can be told, the exit code has told it
        let _ = rt.eprintln(text);
    }
    ExitCode::from(status.code())
}

// Runs the command of these words over the directories, and writes its answer to standard output.
fn run_words(rt: HostRuntime, words: &Vec<String>) -> Result<Status, Memory> {
    let alloc = rt.alloc();
    let mut members: Vec<Box<dyn Store>> = Vec::new(alloc);
    for folder in FOLDERS {
        members.push(Box::new(alloc, DirStore::new(rt, alloc, folder)?)?)?;
    }
    let mut store = SearchPath::new(members);
    let mut sink = OutSink::new(rt);
    Ok(run(alloc, words, &mut store, &mut sink))
}

// What standard error is told of a run, beside the answer on standard output.
fn told(status: Status) -> Option<&'static str> {
    match status {
        Status::Usage => Some(HELP),
        Status::ReadFault => Some("mlsub: a file could not be read"),
        Status::WriteFault => Some("mlsub: the answer could not be written whole"),
        Status::Memory => Some("mlsub: out of memory"),
        _ => None,
    }
}

// The words of the command line without the program's own name.
fn words<R: Env + AllocGlobal>(rt: &R) -> io::Result<Vec<String>> {
    let mut words = Vec::new(rt.alloc());
    for word in env::args(rt)?.skip(1) {
        words.push(word)?;
    }
    Ok(words)
}

// The exit code where the words could not be read, by the kind of the error: for want of memory, or for another cause,
// as where a word is no UTF-8. No command ends with the second.
fn code_without_words(kind: ErrorKind) -> u8
    ensures memory { kind ≡ ErrorKind.OutOfMemory → result ≡ 7 }
    ensures other { kind ≢ ErrorKind.OutOfMemory → result ≡ 14 }
{
    if kind == ErrorKind::OutOfMemory {
        NO_MEMORY
    } else {
        14
    }
}
