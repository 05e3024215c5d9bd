//! Derivations as values, and which of them are allowed.
#![tactic(auto)]

pub mod check;
pub mod claim;
pub mod derivation;
pub mod env;
pub mod fault;
mod fit;
mod front;
pub mod justify;
mod last_env;
pub mod laws;
mod line_reader;
pub mod lookup;
mod named;
mod node_line;
mod pair_set;
pub mod print;
pub mod printable;
pub mod read;
pub mod rules;
mod section;
mod section_line;
mod stand;
pub mod steps;
pub mod sub;
pub mod table;
pub mod verify;
pub mod walk;
mod words;
