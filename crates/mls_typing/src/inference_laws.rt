//! Laws of inference, each the contract of a function that does nothing.
ghost use Rattle.mls_typing.specs.InferenceLaws.{AnswersAreBest, AnswersAreFirst, BestAllowsTypes};
ghost use Rattle.mls_typing.specs.InferenceLaws.{ClosedIsBest, FirstNoneFails, OneFirstNone};

/// A scheme that inference answers is best.
pub fn answers_are_best()
    ensures { AnswersAreBest }
{}

/// A node that inference answers is the first that has no scheme.
pub fn answers_are_first()
    ensures { AnswersAreFirst }
{}

/// At most one node is the first that has no scheme.
pub fn one_first_none()
    ensures { OneFirstNone }
{}

/// Where a node has no scheme, the whole term has none.
pub fn first_none_fails()
    ensures { FirstNoneFails }
{}

/// A best scheme of a whole term is best without its environment.
pub fn closed_is_best()
    ensures { ClosedIsBest }
{}

/// A scheme is best exactly if it allows just the types that the expression has.
pub fn best_allows_types()
    ensures { BestAllowsTypes }
{}
