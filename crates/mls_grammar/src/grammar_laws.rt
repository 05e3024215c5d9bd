//! Laws of the grammar of modules, each the contract of a function that does nothing.
ghost use Rattle.mls_grammar.specs.GrammarLaws.{OneTree, NoGrammarFault, OneGrammarFault};
ghost use Rattle.mls_grammar.specs.GrammarLaws.{PhraseOrFault, NoFaultBesideATree, OneFaultBeforeNames};
ghost use Rattle.mls_grammar.specs.GrammarLaws.{TreeOrFault, FirstDoubleIsLeast};

/// A text is a module of one tree at most.
pub fn one_tree()
    ensures { OneTree }
{}

/// The tokens of a module have no fault of the grammar.
pub fn no_grammar_fault()
    ensures { NoGrammarFault }
{}

/// Tokens have one fault of the grammar at most.
pub fn one_grammar_fault()
    ensures { OneGrammarFault }
{}

/// Tokens are spelled by a phrase that is nested at most 200 deep, or have a fault of the grammar.
pub fn phrase_or_fault()
    ensures { PhraseOrFault }
{}

/// A text that is a module has no fault before its names are looked at.
pub fn no_fault_beside_a_tree()
    ensures { NoFaultBesideATree }
{}

/// A text has one such first fault at most.
pub fn one_fault_before_names()
    ensures { OneFaultBeforeNames }
{}

/// Every text is a module or has a first fault before its names are looked at.
pub fn tree_or_fault()
    ensures { TreeOrFault }
{}

/// Of the names and labels that are given twice, the first in the order of the text has the least place.
pub fn first_double_is_least()
    ensures { FirstDoubleIsLeast }
{}
