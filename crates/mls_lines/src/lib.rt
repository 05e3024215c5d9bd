//! The lines of a part of a derivation, written node by node.
//!
//! A sum of numbers of steps, nodes, states or variables that no machine word holds is answered as want of memory: so many
//! of them would need more memory than there is.
#![tactic(auto)]

pub mod copies;
pub mod ending;
pub mod envs;
pub mod known;
pub mod puts;
pub mod showing;
pub mod spines;
pub mod steps;
pub mod writer;
