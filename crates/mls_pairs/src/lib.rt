//! The pairs of a step by subsumption: those that are wanted, with pairs that justify them.
#![tactic(auto)]

mod chosen;
mod deleting;
mod found;
mod justify;
pub mod labelled;
pub mod laws;
pub mod lines;
mod needs;
pub mod pairs;
pub mod short;
mod thin;
