//! Laws of the rules of typing, each the contract of a function that does nothing.
ghost use Rattle.mls_term.specs.TypingLaws.{InstancesDerive, MoreGeneralDerives, BestAreEquivalent, BestStays};
ghost use Rattle.mls_term.specs.TypingLaws.{OneTermTree};

/// Every instance of a derivable scheme is derivable.
pub fn instances_derive()
    ensures { InstancesDerive }
{}

/// A more general environment derives everything that a more special one does.
pub fn more_general_derives()
    ensures { MoreGeneralDerives }
{}

/// Best schemes of one expression are equivalent.
pub fn best_are_equivalent()
    ensures { BestAreEquivalent }
{}

/// A best scheme is best in every environment that is as general.
pub fn best_stays()
    ensures { BestStays }
{}

/// A list of nodes is the postorder of one tree.
pub fn one_term_tree()
    ensures { OneTermTree }
{}
