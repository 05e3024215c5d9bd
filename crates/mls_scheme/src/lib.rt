//! The schemes that inference begins with, and how it puts schemes together.
#![tactic(auto)]

pub mod absorb;
pub mod build;
mod edges;
mod environments;
mod heads;
pub mod layer;
pub mod read;
pub mod signs;
mod states;
mod uses;
pub mod visits;
