//! Laws of signatures of modules, each the contract of a function that does nothing.
ghost use Rattle.mls_modules.specs.Laws.{SignaturesAreValid, OneSignature};
ghost use Rattle.mls_modules.specs.Laws.{NoFaultBesideSignature, OneModuleFault};

/// A signature has an entry with a name of its own for each binding of a module.
pub fn signatures_are_valid()
    ensures { SignaturesAreValid }
{}

/// Two signatures of a module over the same interfaces have the same names and equivalent schemes.
pub fn one_signature()
    ensures { OneSignature }
{}

/// A module with a signature has no fault.
pub fn no_fault_beside_signature()
    ensures { NoFaultBesideSignature }
{}

/// A module has one fault at most over the same interfaces.
pub fn one_module_fault()
    ensures { OneModuleFault }
{}
