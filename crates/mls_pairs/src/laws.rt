//! What holds of lists of pairs.
ghost use Rattle.mls_pairs.specs.PairLists.{JustifiedIsNotRefuted};

/// A list that justifies itself has no refuted pair.
pub fn justified_is_not_refuted()
    ensures { JustifiedIsNotRefuted }
{}
