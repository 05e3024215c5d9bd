//! The sink over standard output.
ghost use Rattle.std.specs.Prelude.{◌≡◌, [], IsTrue};
ghost use Rattle.std.specs.Io.KnownBytes.{Appends};
ghost use Rattle.mls_io.specs.Counts.{no_count};
ghost use Rattle.mls_io.specs.steps.Writing.{AppendsPart};

use crate::count::Counter;
use crate::sink::{Put, Sink};
use std::io;
use std::io::{ErrorKind, Print, Write};
use std::marker::Model;

/// Writes to standard output. It tells nothing of its bytes. Contracts see it as its count of faults.
#[derive(Drop)]
pub struct OutSink<R: Print + Drop> {
    rt: R,
    faults: Counter,
}

impl<R: Print + Drop> Model for OutSink<R> {
    ghost use Rattle.mls_io.specs.Counts.{Count};

    ghost Value = { Count };

    ghost view = { λ sink. sink.faults };
}

impl<R: Print + Drop> OutSink<R> {
    /// Takes the runtime, whose standard output it writes to. It takes no memory.
    pub fn new(rt: R) -> OutSink<R>
        ensures { result ≡ no_count }
    {
        OutSink {
            rt,
            faults: Counter::new(),
        }
    }
}

impl<R: Print + Drop> Sink for OutSink<R> {
    ghost use Rattle.mls_io.specs.Output.{untold_written};

    ghost written = { untold_written };

    /// Writes in a loop, at least a byte each turn, and tries a write again that a signal interrupts. A write that
    /// takes nothing of what is left is a fault.
    fn put(&mut self, piece: &[u8]) -> Put {
        if write_whole(&mut io::writer(&self.rt), piece) {
            Put::All
        } else {
            self.faults.rise();
            Put::Failed
        }
    }
}

// Writes the piece, at least a byte each turn that no signal interrupts, and says whether all of it was taken. A write
// that is interrupted is tried again, as a read is.
fn write_whole<W: Write>(writer: &mut W, piece: &[u8]) -> bool
    ensures all { IsTrue result → Appends (W.contents writer.old) (W.contents writer.new) piece.now }
    ensures part { AppendsPart (W.contents writer.old) (W.contents writer.new) piece.now }
    ensures empty { piece.now ≡ [] → IsTrue result }
{
    let mut left = piece;
    let mut retries = usize::MAX;
    while !left.is_empty() {
        match writer.write(left) {
            Ok(0) => return false,
            Ok(n) => left = &left[n..],
            Err(error) if error.kind() == ErrorKind::Interrupted && retries > 0 => retries -= 1,
            Err(_) => return false,
        }
    }
    true
}
