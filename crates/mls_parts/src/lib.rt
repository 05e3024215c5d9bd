//! The parts of a term, and the constraint of each as one automaton.
#![tactic(auto)]

pub mod binders;
pub mod first_type;
pub mod numbers;
pub mod posable;
pub mod pose;
mod shared;
pub mod solve;
pub mod split;
