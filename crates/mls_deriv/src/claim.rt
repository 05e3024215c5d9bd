//! Pairs of nodes, and the nodes that variables have.
use crate::derivation::Mode;

/// A node for a variable.
#[derive(Clone, Copy, Debug, PartialEq, Eq)]
pub struct Put {
    pub variable: usize,
    pub node: usize,
}

/// A claim: the left node is below the right one.
#[derive(Clone, Copy, Debug, PartialEq, Eq)]
pub struct Pair {
    pub mode: Mode,
    pub left: usize,
    pub right: usize,
}
