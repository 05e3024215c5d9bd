//! Laws of the texts of interfaces, of signatures and of matching, each the contract of a function that does nothing.
ghost use Rattle.mls_iface.specs.Laws.{OneInterface, NoFaultBesideInterface, OneFirstFault, PrintedIsInterface};
ghost use Rattle.mls_iface.specs.Laws.{InterfaceIsValid, InterfaceOrFault, FirstIsLeast, OneMatchAnswer};
ghost use Rattle.mls_iface.specs.Laws.{FaultIsInText};

/// A text is one interface at most.
pub fn one_interface()
    ensures { OneInterface }
{}

/// A text that is an interface has no fault.
pub fn no_fault_beside_interface()
    ensures { NoFaultBesideInterface }
{}

/// A text has one first fault at most.
pub fn one_first_fault()
    ensures { OneFirstFault }
{}

/// Every text is an interface or has a fault.
pub fn interface_or_fault()
    ensures { InterfaceOrFault }
{}

/// Of the faults of declarations, the first in the order of the text has the least place.
pub fn first_is_least()
    ensures { FirstIsLeast }
{}

/// The text of a signature is an interface that declares just the names of the entries with their schemes.
pub fn printed_text_is_interface()
    ensures { PrintedIsInterface }
{}

/// What a text declares has schemes that were read, and each name once, as `matches` asks.
pub fn interface_is_valid()
    ensures { InterfaceIsValid }
{}

/// A signature has one answer to an interface, but for the path.
pub fn one_match_answer()
    ensures { OneMatchAnswer }
{}

/// The first fault of a text stands in it, or at its end: `mls_lexer::locate` takes it.
pub fn fault_is_in_text()
    ensures { FaultIsInText }
{}
