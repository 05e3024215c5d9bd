//! What holds of the layers of types.
ghost use Rattle.mls_typenodes.specs.OneEach.{PrintedHasOneEach, ReadIsDeterministic, ReadIsLaidOut};

/// Where each layer of a book has one function and one record at most, its nodes are a layout of the automaton that is
/// read from it.
pub fn read_is_laid_out()
    ensures { ReadIsLaidOut }
{}

/// Such an automaton is deterministic.
pub fn read_is_deterministic()
    ensures { ReadIsDeterministic }
{}

/// The layers of a printed type are such.
pub fn printed_has_one_each()
    ensures { PrintedHasOneEach }
{}
