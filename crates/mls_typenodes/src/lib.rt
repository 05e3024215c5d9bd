//! The nodes of printed types: they are a layout of the automaton that is read from them.
#![tactic(auto)]

pub mod laws;
pub mod read_places;
pub mod rising;
