//! Flow between states of automata: which negative states are below which positive ones.
#![tactic(auto)]

mod claims;
mod needs;
mod pairs;
pub mod redundant;
mod standing;
pub mod table;
