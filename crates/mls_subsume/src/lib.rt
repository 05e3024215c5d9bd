//! Which scheme over an automaton subsumes which.
//!
//! Pairs of a general and a special state are searched from the roots on, breadth first, so the first pair that fails
//! is at the end of the first path.
#![tactic(auto)]

mod explore;
mod flows;
mod queue;
mod reasons;
pub mod subsume;
pub mod verdict;
