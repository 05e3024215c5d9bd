//! Inference: the most general scheme of an expression, or its first node that has none.
#![tactic(auto)]

mod clash;
pub mod constraints;
mod done;
pub mod environment;
pub mod fault;
mod firsts;
mod forms;
mod heads;
pub mod infer;
mod meets;
mod named;
mod pending;
mod reads;
mod region;
mod rows;
pub mod solve;
