//! Laws of the texts of types, each the contract of a function that does nothing.
ghost use Rattle.mls_typetext.specs.Laws.{NoFaultBesideReading, OneFirstFault, OneEnd, ReadingOrFault, FirstIsLeast};
ghost use Rattle.mls_typetext.specs.Laws.{OneReadingFrom, FaultIsInText};
ghost use Rattle.mls_typetext.specs.Laws.{OneReading, ReadIsClosed, ReadHasValue};

/// A text is read as a type in one way at most.
pub fn one_reading()
    ensures { OneReading }
{}

/// A text that is read as a type has no fault.
pub fn no_fault_beside_reading()
    ensures { NoFaultBesideReading }
{}

/// A text has one first fault at most.
pub fn one_first_fault()
    ensures { OneFirstFault }
{}

/// Every text is read as a type or has a fault.
pub fn reading_or_fault()
    ensures { ReadingOrFault }
{}

/// The first fault of a tree in the order of the text has the least place among its faults.
pub fn first_is_least()
    ensures { FirstIsLeast }
{}

/// From a token on, a type is read in one way, as a closed book, or has one first fault.
pub fn one_reading_from()
    ensures { OneReadingFrom }
{}

/// From a token on, a type ends before one token, or the grammar stops for one reason.
pub fn one_end()
    ensures { OneEnd }
{}

/// What a text is read as is a closed book with its root in it, whose variables are below their number.
pub fn read_is_closed()
    ensures { ReadIsClosed }
{}

/// Its root passes what the type passes, by what its parts pass: for each reading of the variables one predicate.
pub fn read_has_value()
    ensures { ReadHasValue }
{}

/// The first fault of a text, or of the type that begins at a token of it, stands in the text, or at its end:
/// `mls_lexer::locate` takes it.
pub fn fault_is_in_text()
    ensures { FaultIsInText }
{}
