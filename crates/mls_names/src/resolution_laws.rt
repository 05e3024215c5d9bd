//! Laws of names, each the contract of a function that does nothing.
ghost use Rattle.mls_names.specs.ResolutionLaws.{OneResolution, OneUnknownName, FirstUnknownIsLeast, ResolvedAreTerms};
ghost use Rattle.mls_names.specs.ResolutionLaws.{NoUnknownNameBesideAResolution, ResolutionOrUnknownName};

/// A module has one resolution at most.
pub fn one_resolution()
    ensures { OneResolution }
{}

/// A module has one first name without a meaning at most.
pub fn one_unknown_name()
    ensures { OneUnknownName }
{}

/// A module with a resolution has no name without a meaning.
pub fn no_unknown_name_beside_a_resolution()
    ensures { NoUnknownNameBesideAResolution }
{}

/// A module has a resolution or a name without a meaning.
pub fn resolution_or_unknown_name()
    ensures { ResolutionOrUnknownName }
{}

/// Of the names of a text's module that have no meaning, the first in the order of the text has the least place.
pub fn first_unknown_is_least()
    ensures { FirstUnknownIsLeast }
{}

/// The bindings of a resolved module are terms: the postorder of one tree each, with all names in scope and all
/// binders and lets numbered once.
pub fn resolved_are_terms()
    ensures { ResolvedAreTerms }
{}
