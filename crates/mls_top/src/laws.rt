//! Laws of answers, each the contract of a function that does nothing.
ghost use Rattle.mls_top.specs.Laws.{OneAnswer, AnswerExists, DerivedIsVerified, EachIsOneLine, OperatorsStandFirst};

/// Two answers of the same words over the same files have one status. Where it is NoScheme they tell of one binding at
/// one place, where it is Mismatch of one declaration, and where it is none of these and not Done they have one text.
pub fn one_answer()
    ensures { OneAnswer }
{}

/// All words have an answer over all files, or ask for types of a module whose imports are read and whose names have
/// meanings, or for the check of a derivation for one.
pub fn answer_exists()
    ensures { AnswerExists }
{}

/// A derivation that is printed for a module is verified where its text is stored beside the module.
pub fn derived_is_verified()
    ensures { DerivedIsVerified }
{}

/// A signature has one line for each entry.
pub fn each_is_one_line()
    ensures { EachIsOneLine }
{}

/// The environment of a binding begins with the five operators, each at its number with its type.
pub fn operators_stand_first()
    ensures { OperatorsStandFirst }
{}
