//! Laws of the closed relation, each the contract of a function that does nothing.
ghost use Rattle.mls_solver.specs.Laws.{NoInstanceBesideAClash, SolutionsSatisfyAll};

/// A model in which the goals hold satisfies the whole closed relation.
pub fn solutions_satisfy_all()
    ensures { SolutionsSatisfyAll }
{}

/// Where a related pair clashes, no substitution satisfies the goals.
pub fn no_instance_beside_a_clash()
    ensures { NoInstanceBesideAClash }
{}
