//! Files by their names.

/// What a fetch gave.
#[derive(Clone, Copy, Debug, PartialEq, Eq)]
pub enum Fetch {
    /// The bytes of the file were added.
    Found,
    /// There is no file of this name.
    Missing,
    /// The file has more bytes than were allowed.
    Long,
    /// The file could not be read.
    Failed,
    /// Memory was wanting.
    Memory,
}

/// Where files are read from.
///
/// What a store holds is known to contracts alone: its files, where it tells them, and how often files
/// failed, were missing and were too long. No call changes the files, and no count falls.
pub trait Store: Drop {
    ghost use Rattle.std.specs.Prelude.{◌≡◌};
    ghost use Rattle.mls_io.specs.Stores.{Holdings, Follows, GivesFound, GivesMissing, GivesLong, GivesFailed};
    ghost use Rattle.mls_io.specs.Stores.{KeepsUnlessFound};

    /// The files, where they are told, and the counts.
    ghost holdings: { Self → Holdings };

    /// Adds the bytes of the file of this name at the end of `into`, where they are at most `limit` bytes.
    ///
    /// After every answer but Found `into` is as before. Missing, Long and Failed come only where the
    /// count of such answers rose. Where the files are told, Found adds exactly the bytes of the file,
    /// Long comes only for a file of more than `limit` bytes, and Missing comes exactly if there is no
    /// file of this name, save that Failed and Memory may stand in its place.
    fn fetch(&mut self, name: &str, limit: usize, into: &mut Vec<u8>) -> Fetch
        ensures follows { Follows (holdings self.old) (holdings self.new) }
        ensures found { result ≡ Fetch.Found → GivesFound
            (holdings self.old) name.now limit into.old.items into.new.items }
        ensures missing { GivesMissing (holdings self.old) (holdings self.new) name.now result }
        ensures long { result ≡ Fetch.Long → GivesLong (holdings self.old) (holdings self.new) name.now limit }
        ensures failed { result ≡ Fetch.Failed → GivesFailed (holdings self.old) (holdings self.new) }
        ensures unchanged { KeepsUnlessFound result into.old.items into.new.items };
}
