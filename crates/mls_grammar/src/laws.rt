//! Laws of modules, each the contract of a function that does nothing.
ghost use Rattle.mls_grammar.specs.Laws.{OneModule, NoFaultBesideAModule, FaultIsInText};

/// A text is one module at most.
pub fn one_module()
    ensures { OneModule }
{}

/// A text that is a module has no fault before its names are looked at.
pub fn no_fault_beside_a_module()
    ensures { NoFaultBesideAModule }
{}

/// The first fault of a text before its names are looked at stands in it, or at its end: `mls_lexer::locate` takes it.
pub fn fault_is_in_text()
    ensures { FaultIsInText }
{}
