//! The closed relation of goals between states, its first clash, and the automaton solved by it, all at once.
#![tactic(auto)]

mod cells;
pub mod clash;
pub mod found;
pub mod goal;
pub mod laws;
mod links;
pub mod materialise;
mod pairs;
pub mod room;
pub mod saturate;
pub mod search;
pub mod settle;
