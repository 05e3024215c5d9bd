//! The signature of a module over the interfaces of its imports, and whether it matches the module's own interface.
#![tactic(auto)]

pub mod check;
mod copy;
pub mod environment;
pub mod fault;
pub mod first;
pub mod infer;
pub mod laws;
mod short;
mod types;
