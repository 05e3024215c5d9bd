//! Where bytes are written.

/// What a put did.
#[derive(Clone, Copy, Debug, PartialEq, Eq)]
pub enum Put {
    /// The whole piece was written.
    All,
    /// Writing failed, maybe after a part of the piece.
    Failed,
    /// Memory was wanting, and nothing was written.
    Memory,
}

/// Where bytes are written.
///
/// What a sink was given is known to contracts alone: the bytes, where it tells them, and how often
/// writing failed. Whether it tells never changes, and the count never falls.
pub trait Sink {
    ghost use Rattle.std.specs.Prelude.{◌≡◌, []};
    ghost use Rattle.mls_io.specs.Sinks.{Written, Follows, TakesAll, TakesSome, TakesNone};

    /// The bytes so far, where they are told, and the count of faults.
    ghost written: { Self → Written };

    /// Adds a piece at the end.
    ///
    /// Failed comes only where the count of faults rose; then a part of the piece from its start was
    /// added. Memory adds nothing. An empty piece answers All.
    fn put(&mut self, piece: &[u8]) -> Put
        ensures follows { Follows (written self.old) (written self.new) }
        ensures all { result ≡ Put.All → TakesAll (written self.old) (written self.new) piece.now }
        ensures failed { result ≡ Put.Failed → TakesSome (written self.old) (written self.new) piece.now }
        ensures memory { result ≡ Put.Memory → TakesNone (written self.old) (written self.new) }
        ensures empty { piece.now ≡ [] → result ≡ Put.All };
}
