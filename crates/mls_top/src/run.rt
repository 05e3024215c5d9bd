//! The run of a command.
ghost use Rattle.std.specs.Prelude.{◌≡◌, map, string_bytes, IsFalse, None, Some, ℕ};
ghost use Rattle.mls_io.specs.Counts.{Rose};
ghost use Rattle.mls_io.specs.Stores as stores;
ghost use Rattle.mls_io.specs.Sinks as sinks;
ghost use Rattle.mls_io.specs.Sinks.{Adds};
ghost use Rattle.mls_top.specs.Commands.{command_of};
ghost use Rattle.mls_top.specs.Lines.{usage_line};
ghost use Rattle.mls_top.specs.Runs.{IsRun, IsWithoutCommand};
ghost use Rattle.mls_top.specs.Writing.{IsTold};
ghost use Rattle.mls_top.specs.Statuses.{is_cut};

use crate::answer::{Halt, answer_to};
use crate::command::{Command, command_of};
use crate::status::Status;
use crate::writing::write_lines;
use mls_io::sink::{Put, Sink};
use mls_io::store::Store;
use std::alloc::Global;

// What is printed where the words are no command.
const USAGE: &[u8] = b"usage: mlsub COMMAND OPERANDS\n";

/// Runs the command that the words are on a store, and writes its answer to a sink. The words are a command line
/// without the program's own name.
///
/// The whole answer is computed first, and then written with one put for each line; no fetch comes after the first
/// put. The commands are
///
/// - `infer NAME`: reads `NAME.ml` and the interface `IMPORT.mli` of each import, and prints the signature of the
///   module, or its first binding that has no scheme, or the first fault of a text.
/// - `check NAME`: the same, and where the module has a signature, reads `NAME.mli`, and prints that they match or the
///   first declaration that fails.
/// - `derive NAME`: the same as `infer`, but where the module has a signature, prints a derivation of its types.
/// - `verify NAME`: reads `NAME.ml` and the interface of each import as `infer` does, infers nothing, reads the
///   derivation `NAME.mld`, and prints that each of its steps is allowed or the first that is not.
/// - `generate SEED COUNT`: makes a module with COUNT bindings, infers it as `infer` does, and prints how many bytes
///   its text and its signature have. No file is read.
pub fn run<S: Store, K: Sink>(
    alloc: Global,
    words: &Vec<String>,
    store: &mut S,
    sink: &mut K,
) -> Status
    // The files stay, and no count falls.
    ensures store { stores.Follows (S.holdings store.old) (S.holdings store.new) }
    ensures sink { sinks.Follows (K.written sink.old) (K.written sink.new) }

    // There are files over which the run is right, and where the store tells its files, they are those: the status is
    // that of an answer over them, whose text was written; or a counted fault or want of memory cut the writing off.
    ensures run { IsRun (S.holdings store.old).files (map string_bytes words.now.items) (K.written sink.old)
        (K.written sink.new) result }

    // Each fault of the store or the sink was counted in this call.
    ensures read_fault_counted { result ≡ Status.ReadFault
        → Rose (S.holdings store.old).faults (S.holdings store.new).faults }
    ensures no_file_counted { result ≡ Status.NoFile
        → Rose (S.holdings store.old).misses (S.holdings store.new).misses }
    ensures too_long_counted { result ≡ Status.TooLong
        → Rose (S.holdings store.old).longs (S.holdings store.new).longs }
    ensures write_fault_counted { result ≡ Status.WriteFault
        → Rose (K.written sink.old).faults (K.written sink.new).faults }

    // The words alone decide whether they are a command; if they are none, the usage is written and the store is left
    // alone.
    ensures usage { result ≡ Status.Usage → (command_of (map string_bytes words.now.items) ≡ None)
        × Adds (K.written sink.old) (K.written sink.new) usage_line }
    ensures no_command { command_of (map string_bytes words.now.items) ≡ None
        → IsWithoutCommand (K.written sink.old) (K.written sink.new) result
        × (S.holdings store.new ≡ S.holdings store.old) }

    // A generated module is in no file, so the store is left alone then too.
    ensures generate { (seed count : ℕ) → command_of (map string_bytes words.now.items)
        ≡ Some (Command.Generate seed count) → S.holdings store.new ≡ S.holdings store.old }
{
    let command = match command_of(alloc, words) {
        Ok(Some(command)) => command,
        Ok(None) => return told(sink, Status::Usage, USAGE),
        Err(_) => return Status::Memory,
    };
    match answer_to(alloc, &command, store) {
        Ok(answer) => told(sink, answer.status, answer.text.as_slice()),
        Err(Halt::ReadFault) => Status::ReadFault,
        Err(Halt::Memory) => Status::Memory,
    }
}

// Writes the text of an answer, and gives the status that the run then has.
fn told<K: Sink>(sink: &mut K, status: Status, text: &[u8]) -> Status
    requires { IsFalse (is_cut status) }
    ensures follows { sinks.Follows (K.written sink.old) (K.written sink.new) }
    ensures cases { IsTold status text.now (K.written sink.old) (K.written sink.new) result }
{
    match write_lines(sink, text) {
        Put::All => status,
        Put::Failed => Status::WriteFault,
        Put::Memory => Status::Memory,
    }
}
