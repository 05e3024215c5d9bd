//! Simpler automata for schemes.
#![tactic(auto)]

mod agenda;
mod classed;
mod classes;
pub mod determinise;
pub mod drop;
mod edges;
mod environment;
mod graph;
mod heads;
mod key;
pub mod minimise;
mod numbering;
mod partition;
mod register;
pub mod simplify;
mod single;
mod states;
mod upwards;
