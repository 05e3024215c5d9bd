//! Tests of `OutSink`.
use mls_io::output::OutSink;
use mls_io::sink::{Put, Sink};
use std::cell::Cell;
use std::fmt::Display;
use std::io;
use std::io::{ErrorKind, Print};
use std::test::Fail;

// An output that takes two bytes a turn, as long as it has room, and whose first turns are interrupted.
#[derive(Drop)]
struct Narrow<'a> {
    room: &'a Cell<usize>,
    interruptions: Cell<usize>,
}

impl<'a> Print for Narrow<'a> {
    fn print<D: Display + Drop>(&self, _value: D) -> io::Result<()> {
        Err(io::Error::from(ErrorKind::Unsupported))
    }

    fn println<D: Display + Drop>(&self, _value: D) -> io::Result<()> {
        Err(io::Error::from(ErrorKind::Unsupported))
    }

    fn write_all(&self, _bytes: &[u8]) -> io::Result<()> {
        Err(io::Error::from(ErrorKind::StorageFull))
    }

    fn write_some(&self, bytes: &[u8]) -> io::Result<usize> {
        if self.interruptions.get() > 0 {
            self.interruptions
                .set(self.interruptions.get().saturating_sub(1));
            return Err(io::Error::from(ErrorKind::Interrupted));
        }
        let taken = bytes.len().min(2).min(self.room.get());
        self.room.set(self.room.get().saturating_sub(taken));
        Ok(taken)
    }
}

#[test]
fn writes_all_or_fails(rt: HostRuntime) -> Result<(), Fail> {
    let room = Cell::new(8);
    let mut sink = OutSink::new(Narrow {
        room: &room,
        interruptions: Cell::new(3),
    });
    assert_eq!(rt; sink.put(b"bools"), Put::All);
    assert_eq!(rt; room.get(), 3);
    assert_eq!(rt; sink.put(b"ints"), Put::Failed);
    assert_eq!(rt; room.get(), 0);
    assert_eq!(rt; sink.put(b""), Put::All);
    assert_eq!(rt; OutSink::new(rt).put(b"val x : int\n"), Put::All);
    Ok(())
}
